// The machine's mix of calls as the function that C links (benchmarks/both.c): numbers and lent slices cross the boundary.
// It is a crate of its own, since a static library is proved once more where it is made, and the mix takes half a minute.
#![tactic(auto)]

use mixes::{Sizes, Spoiling};

#[unsafe(no_mangle)]
pub extern "C" fn bench_machine(
    banks: usize,
    rows: usize,
    stages: usize,
    words: usize,
    calls: u32,
    seed: u64,
    when: u32,
    part: usize,
    by: usize,
    limit: u32,
    program: &[u32],
    memory: &mut [u32],
    list: &mut [u32],
) -> u64 {
    let sizes = Sizes {
        banks,
        rows,
        stages,
        words,
    };
    let spoiling = Spoiling { when, part, by };
    mixes_machine::mixes_machine(sizes, calls, seed, spoiling, limit, program, memory, list)
}
