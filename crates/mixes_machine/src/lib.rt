// A long fixed mix of calls of the machine, for the benchmark: calls of every kind, and a finish of what they leave.
//
// It returns a checksum of every answer. benchmarks/inplace.c has the same mix over the same calls in C, to which
// tests/answers holds the checksum. What is promised is that the mix ends and stays inside the slices lent.
#![tactic(auto)]

use machine::{Committed, Entry, Fate, Instruction, Machine, Refusal};
use mixes::{Sizes, Spoiling, Summed};
use table::STAGES;

// The checksum with a commit's answer: a refusal's number, or its five numbers without the 100 of other calls.
fn with_commit(sum: u64, answer: Result<Committed, Refusal>) -> u64 {
    match answer {
        Ok(c) => {
            let numbers = [c.index, c.code, c.target, c.value, c.distance];
            mixes::with_all(sum, &numbers.map(u64::from))
        }
        Err(refusal) => refusal.number().summed(sum),
    }
}

// Changes one part of an entry: its index, its fate, its instruction to one of the codes 3 to 6 with register 2 at the address
// drawn, its distance, or an executed one's value and address.
fn spoil_entry(e: &mut Entry, what: usize, x: usize) {
    let address = mixes::address_drawn(x);
    match what {
        0 => e.index = e.index.wrapping_add(1),
        1 => e.fate = Fate::Waiting,
        2 => e.fate = Fate::Executed(1, address),
        3 => e.instruction = Instruction::Load(2, 0, address),
        4 => e.instruction = Instruction::Store(2, 0, address),
        5 => e.instruction = Instruction::Byte(2, 0, address),
        6 => e.instruction = Instruction::Half(2, 0, address),
        11 => e.distance = (x % 32768 * 131073) as u32,
        _ => {
            if let Fate::Executed(value, address) = &mut e.fate {
                *value = 1;
                *address ^= (x / 8 % 8) as u32;
            }
        }
    }
}

// Changes the table, an entry or the count.
fn spoil_machine(m: &mut Machine, part: usize, x: usize) {
    let drawn = mixes::stage_drawn(&m.table, x / 128);
    match part {
        0..12 => mixes::spoil(&mut m.table, part, x),
        12 => m.count = m.count.wrapping_add(1),
        13 => spoil_entry(&mut m.window[x / 128 % STAGES], x % 4, x),
        14 => spoil_entry(&mut m.window[drawn], 3 + x % 8, x),
        _ => spoil_entry(&mut m.window[drawn], 11, x),
    }
}

// `calls` turns of a machine with these sizes. Where its run is over it is opened anew; else of 32 turns 12 are an issue, 8 a
// commit, 11 an execution and 1 a squash. In one turn the machine is spoiled instead. Then the machine is finished, with at
// most `limit` commits.
//
// The calls stand in the loop, and not in a function of their own: each layer would copy the machine once more.
pub fn mixes_machine(
    sizes: Sizes,
    calls: u32,
    seed: u64,
    spoiling: Spoiling,
    limit: u32,
    program: &[u32],
    memory: &mut [u32],
    list: &mut [u32],
) -> u64 {
    let Sizes {
        banks,
        rows,
        stages,
        words,
    } = sizes;
    let opened = machine::open(banks, rows, stages, words, program, memory);
    let mut m = opened.state;
    let mut sum = mixes::with_answer(0, opened.answer);
    let mut draw = seed;
    for left in (0..calls).rev() {
        draw = mixes::advance(draw);
        let drawn = mixes::bits(draw);
        let kind = drawn % 32;
        if left == spoiling.when {
            spoil_machine(&mut m, spoiling.part, spoiling.by);
        } else if m.table.live == 0 && m.count <= m.next {
            let again = machine::open(banks, rows, stages, words, program, memory);
            m = again.state;
            sum = mixes::with_answer(sum, again.answer);
        } else if kind < 12 {
            let issued = machine::issue(m, program);
            m = issued.state;
            sum = mixes::with_answer(sum, issued.answer);
        } else if kind < 20 {
            let committed = machine::commit(m, program, memory);
            m = committed.state;
            sum = with_commit(sum, committed.answer);
        } else {
            let p = mixes::position_drawn(&m.table, drawn / 32);
            if kind < 31 {
                let ran = machine::execute(m, program, p, memory);
                m = ran.state;
                sum = mixes::with_answer(sum, ran.answer);
            } else {
                let squashed = machine::squash(m, program, p);
                m = squashed.state;
                sum = mixes::with_answer(sum, squashed.answer);
            }
        }
    }
    let finished = machine::finish(m, program, limit, memory, list);
    mixes::with_answer(sum, finished.answer)
}
