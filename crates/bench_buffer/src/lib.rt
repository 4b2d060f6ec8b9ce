// The buffer's mix of calls as the function that C links (benchmarks/both.c): numbers and a lent slice cross the boundary.
// It is a crate of its own, since a static library is proved once more where it is made, and the mix takes half a minute.
#![tactic(auto)]

use mixes::{Sizes, Spoiling};

#[unsafe(no_mangle)]
pub extern "C" fn bench_buffer(
    banks: usize,
    rows: usize,
    stages: usize,
    words: usize,
    calls: u32,
    seed: u64,
    when: u32,
    part: usize,
    by: usize,
    whole: usize,
    falling: usize,
    memory: &mut [u32],
) -> u64 {
    let sizes = Sizes {
        banks,
        rows,
        stages,
        words,
    };
    let spoiling = Spoiling { when, part, by };
    mixes_buffer::mixes_buffer(sizes, calls, seed, spoiling, whole, falling, memory)
}
