// What the benchmark's mixes of calls share: their sizes, the draws, the checksum with what a call answered, and a table spoiled.
// The mixes are in mixes_buffer and mixes_machine. What is promised is that every function ends and stays inside its arrays,
// which numbers of an answer are summed, and bounds of draws; the numbers drawn and summed are held to those of the same in C
// (benchmarks/inplace.c) by tests/answers.
#![tactic(auto)]

ghost use Rattle.std.specs.Prelude.{◌≡◌, List, [], ◌∷◌, ℕ, ◌<◌, ◌%◌};
ghost use Rattle.mixes.specs.Sums.{with, with_all, answer_numbers, executed_numbers};
ghost use Rattle.table.specs.Limits.{stages_most};

use engine::{Executed, Refusal};
use table::{BANKS, ROWS, SLOTS, STAGES, Table, Ticket};

// The sizes of a table.
#[derive(Clone, Copy)]
pub struct Sizes {
    pub banks: usize,
    pub rows: usize,
    pub stages: usize,
    pub words: usize,
}

// In the turn after which `when` are left one part of the state, by its number in C, is changed.
#[derive(Clone, Copy)]
pub struct Spoiling {
    pub when: u32,
    pub part: usize,
    pub by: usize,
}

// What the stages and the oldest's stage of a spoiled table are below: each grows by less than the most stages.
const SPOILED: usize = 2 * STAGES;

// The next state of the generator, which is linear congruential modulo 2^31.
pub fn advance(seed: u64) -> u64 {
    (seed % 2147483648) * 1103515245 + 12345
}

// Fifteen high bits of a state.
pub fn bits(seed: u64) -> usize
    ensures { result < 32768 }
{
    (seed / 65536 % 32768) as usize
}

// One of four words, so that stores of a word already there are drawn.
pub fn word_drawn(drawn: usize) -> u32 {
    (drawn / 4096 % 4 * 305419896) as u32
}

// The checksum with one more number: turned left by one, plus the number.
pub fn with(sum: u64, x: u64) -> u64
    ensures { result ≡ with sum x }
{
    sum.rotate_left(1).wrapping_add(x)
}

// The checksum with several numbers, in their order.
pub fn with_all(sum: u64, numbers: &[u64]) -> u64
    ensures { result ≡ with_all sum numbers.now }
{
    let mut all = sum;
    for &x in numbers {
        all = with(all, x);
    }
    all
}

// What an accepted call answers, as numbers of the checksum.
pub trait Summed {
    ghost numbers: { Self → List ℕ };

    // The checksum with them.
    fn summed(self, sum: u64) -> u64
        ensures { result ≡ with_all sum (numbers self) };
}

impl Summed for () {
    ghost numbers = { λ u. [] };

    fn summed(self, sum: u64) -> u64 {
        sum
    }
}

impl Summed for u32 {
    ghost numbers = { λ x. x ∷ [] };

    fn summed(self, sum: u64) -> u64 {
        with(sum, u64::from(self))
    }
}

impl Summed for usize {
    ghost numbers = { λ x. x ∷ [] };

    fn summed(self, sum: u64) -> u64 {
        with(sum, self as u64)
    }
}

impl Summed for Ticket {
    ghost numbers = { λ t. t.stage ∷ t.number ∷ [] };

    fn summed(self, sum: u64) -> u64 {
        self.number.summed(self.stage.summed(sum))
    }
}

impl<N: Summed + Copy> Summed for Executed<N> {
    ghost numbers = { executed_numbers N.numbers };

    fn summed(self, sum: u64) -> u64 {
        let sum = self.distance.summed(self.value.summed(sum));
        match self.squashed {
            None => sum,
            Some(from) => from.summed(sum),
        }
    }
}

// The checksum with an answer: a refusal's number, or 100 and what the answer carries.
pub fn with_answer<A: Summed + Copy>(sum: u64, answer: Result<A, Refusal>) -> u64
    ensures { result ≡ with_all sum (answer_numbers A.numbers answer) }
{
    match answer {
        Ok(accepted) => accepted.summed(with(sum, 100)),
        Err(refusal) => refusal.number().summed(sum),
    }
}

// One of sixteen addresses, spread over the banks; half of the draws give one of three.
pub fn address_drawn(drawn: usize) -> u32
    ensures { result < 80 }
{
    ((drawn & (drawn / 16)) % 16 * 5) as u32
}

// The stage at position `p`; of a table that breaks its rules any stage will do.
pub fn stage_drawn(t: &Table, p: usize) -> usize
    ensures { result < stages_most }
{
    if t.stages == 0 {
        return 0;
    }
    t.oldest.wrapping_add(p) % t.stages % STAGES
}

// The position to execute or squash: the drawn one, or the oldest where it has executed or none is live.
pub fn position_drawn(t: &Table, drawn: usize) -> usize
    ensures { 0 < t.now.live → result < t.now.live }
{
    if t.live == 0 {
        return 0;
    }
    let p = drawn % t.live;
    if (t.executed >> stage_drawn(t, p)) % 2 == 1 {
        return 0;
    }
    p
}

// The number off which kind, ticket and position of a turn in falling order are read: one that stands for the turn that is due.
// In that order a window is issued whole, executed from its youngest reference down to its oldest, and committed: every mark is
// younger than what executes, so that it evicts where no row is free. None is a squash or another action (kinds 30 and 31).
pub fn falling_drawn(t: &Table, drawn: usize) -> usize
    ensures { result % 32 < 30 }
{
    let &Table {
        stages,
        oldest,
        live,
        ..
    } = t;
    // The executed stages, turned so that bit p is position p, with a bit after the last live one. The remainders are for tables
    // that break their rules.
    let set = u64::from(t.executed);
    let turned = (set | (set << (stages % SPOILED))) >> (oldest % SPOILED);
    let waiting = ((turned | (1 << (live % 64))).trailing_zeros() % 64) as usize;
    if live == 0 || (waiting == live && live < stages) {
        return 0;
    }
    if waiting == 0 {
        return 12;
    }
    // a load or a store, with the number of its reference, and the youngest position that waits
    20 + drawn % 10 + 32 * (1 + 16 * (waiting - 1))
}

// In a row of the table the marks of one kind come or go where there is one of the other, or one mark does.
fn spoil_marks(t: &mut Table, x: usize) {
    if t.banks == 0 || t.rows == 0 || t.stages == 0 {
        return;
    }
    let r = x % t.banks % BANKS * ROWS + x / 8 % t.rows % ROWS;
    let bit = 1 << stage_drawn(t, x / 64);
    match x / 8192 {
        0 => t.loads[r] ^= t.stores[r],
        1 => t.loads[r] ^= bit,
        2 => t.stores[r] ^= t.loads[r],
        _ => t.stores[r] ^= bit,
    }
}

// Changes one number of a table, the marks of one row or the words taken, which mostly breaks a rule; words never do. Sizes wrap,
// so that they shrink too, also under a marked row; the row is any of the arrays', also one that the sizes do not give.
pub fn spoil(t: &mut Table, part: usize, x: usize) {
    let r = x % SLOTS;
    let bit = 1 << (x / SLOTS % STAGES);
    match part {
        0 => t.banks = t.banks.wrapping_add(x),
        1 => t.rows = t.rows.wrapping_add(x),
        2 => t.stages = t.stages.wrapping_add(x % 16),
        3 => t.words = t.words.wrapping_add(x),
        4 => t.oldest = t.oldest.wrapping_add(x % 16),
        5 => t.live = x % 20,
        6 => t.executed ^= bit,
        7 => t.loads[r] ^= bit,
        8 if x < 16384 => t.stores[r] ^= bit,
        8 => t.stores[r] |= t.loads[r],
        10 => spoil_marks(t, x),
        11 => t.taken = [word_drawn(x); STAGES],
        _ => t.addresses[r] = address_drawn(x / SLOTS),
    }
}
