// A long fixed mix of calls of the buffer, for the benchmark.
//
// It returns a checksum of every answer. benchmarks/inplace.c has the same mix over the same calls in C, to which
// tests/answers holds the checksum. What is promised is that the mix ends and stays inside the slices lent.
#![tactic(auto)]

use buffer::{Action, Part};
use mixes::{Sizes, Spoiling};
use table::{Table, Ticket};

// A ticket for an execution or a squash: a live one, one time in sixteen with another number.
fn ticket_drawn(t: &Table, drawn: usize) -> Ticket {
    let stage = mixes::stage_drawn(t, mixes::position_drawn(t, drawn / 16));
    let number = t.numbers[stage];
    Ticket {
        stage,
        number: number.wrapping_add(u32::from(drawn % 16 == 0)),
    }
}

// A byte of a register, or its low half.
fn part_drawn(drawn: usize) -> Part {
    if drawn / 1024 % 2 == 1 {
        Part::Half
    } else {
        Part::Byte
    }
}

// A byte of the word at the address drawn.
fn byte_drawn(drawn: usize) -> u32 {
    mixes::address_drawn(drawn) * 4 + (drawn / 256 % 4) as u32
}

// One of four actions, as often each: a load, two stores, the second of a part where the kind 28 is, and a value alone.
fn action_drawn(drawn: usize, whole: usize, word: usize) -> Action {
    let address = mixes::address_drawn(word);
    let value = mixes::word_drawn(word);
    match drawn / 8192 {
        0 => Action::LoadAt(address),
        2 if whole <= 28 => Action::PartAt(part_drawn(word), byte_drawn(word), value),
        1 | 2 => Action::StoreAt(address, value),
        _ => Action::Compute(value),
    }
}

// `calls` turns of a buffer with these sizes. Of 32 turns 12 are an issue, 8 a commit, 5 a load, 5 a store, 1
// an execution of something else, half of them of a drawn action, and 1 a squash. The stores are the kinds 25 to 29,
// those from `whole` on of a part; below a larger `whole` the kinds 30 and 31 are stores as well. Unless `falling` is 0
// the turns come in falling order (`falling_drawn` of crates/mixes), half of the executions loads and half stores. In
// one turn the table is spoiled instead.
//
// The calls stand in the loop, and not in a function of their own: each layer would copy the table once more.
pub fn mixes_buffer(
    sizes: Sizes,
    calls: u32,
    seed: u64,
    spoiling: Spoiling,
    whole: usize,
    falling: usize,
    memory: &mut [u32],
) -> u64 {
    let opened = buffer::open(sizes.banks, sizes.rows, sizes.stages, sizes.words, memory);
    let mut t = opened.state;
    let mut sum = mixes::with_answer(0, opened.answer);
    let mut second = seed;
    for left in (0..calls).rev() {
        let first = mixes::advance(second);
        second = mixes::advance(first);
        let mut drawn = mixes::bits(first);
        if falling != 0 {
            drawn = mixes::falling_drawn(&t, drawn);
        }
        let kind = drawn % 32;
        if left == spoiling.when {
            mixes::spoil(&mut t, spoiling.part, spoiling.by);
        } else if kind < 12 {
            let issued = buffer::issue(t);
            t = issued.state;
            sum = mixes::with_answer(sum, issued.answer);
        } else if kind < 20 {
            let committed = buffer::commit(t, memory);
            t = committed.state;
            sum = mixes::with_answer(sum, committed.answer);
        } else {
            let ticket = ticket_drawn(&t, drawn / 32);
            let word = mixes::bits(second);
            let address = mixes::address_drawn(word);
            let value = mixes::word_drawn(word);
            let done = if kind < 25 {
                buffer::execute_load(t, ticket, address, memory)
            } else if kind < whole {
                buffer::execute_store(t, ticket, address, value, memory)
            } else if kind < 30 {
                let byte = byte_drawn(word);
                buffer::execute_part(t, ticket, part_drawn(word), byte, value, memory)
            } else if kind < 31 {
                if word < 16384 {
                    buffer::execute_other(t, ticket, memory)
                } else {
                    buffer::execute(t, ticket, action_drawn(drawn, whole, word), memory)
                }
            } else {
                let squashed = buffer::squash(t, ticket);
                t = squashed.state;
                sum = mixes::with_answer(sum, squashed.answer);
                continue;
            };
            t = done.state;
            sum = mixes::with_answer(sum, done.answer);
        }
    }
    sum
}
