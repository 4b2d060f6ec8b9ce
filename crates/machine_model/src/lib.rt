// The window machine's declared types, what its calls mean (specs/) and the laws that the proofs of its functions cite
// (proofs/). No code: the functions stand in the crates from machine_isa to machine_finish, and `machine` is what a user
// calls.
#![tactic(auto)]

use engine::Action;
use table::{STAGES, Table};

// The number of registers, and the last of them.
pub const REGISTERS: usize = 8;

pub const LAST_REGISTER: u32 = REGISTERS as u32 - 1;

// The numbers of an instruction, the most instructions that a program has, and its numbers then.
pub const PER_INSTRUCTION: usize = 4;

pub const INSTRUCTIONS: usize = 256;

pub const PROGRAM: usize = INSTRUCTIONS * PER_INSTRUCTION;

// The places of a finish's list that a commit takes.
pub const PER_COMMIT: usize = 5;

// An instruction: codes 1 (A), 2 (P), 3 (L), 4 (S), 5 (B) and 6 (H), each with d, s and imm. In a program, a script and a commit's
// answer the code stays the number that 01 gives. Registers are bytes: so a window of sixteen entries is copied in few moves.
#[derive(Clone, Copy)]
pub enum Instruction {
    Add(u8, u8, u32),
    Sum(u8, u8, u32),
    Load(u8, u8, u32),
    Store(u8, u8, u32),
    Byte(u8, u8, u32),
    Half(u8, u8, u32),
}

// What an instruction does: a register becomes a number, a register becomes a word of memory, a word becomes a register, a
// word's part becomes a register's.
#[derive(Clone, Copy, PartialEq, Eq)]
pub enum Kind {
    Computing,
    Loading,
    Storing,
    Merging,
}

// What became of an entry (its status): waiting, or executed with its value and address (of B and H the byte number). 01 names
// this enum.
#[derive(Clone, Copy)]
pub enum Fate {
    Waiting,
    Executed(u32, u32),
}

// A window entry: the instruction, its index in the program, what became of it, and how many positions older the store is that
// the word of an executed load came from; 0 for memory, and of all others.
#[derive(Clone, Copy)]
pub struct Entry {
    pub instruction: Instruction,
    pub index: u32,
    pub fate: Fate,
    pub distance: u32,
}

// Entries stand at their stages. `count` is the number of instructions opened, `next` the index of the next to issue.
#[derive(Clone, Copy)]
pub struct Machine {
    pub table: Table,
    pub window: [Entry; STAGES],
    pub registers: [u32; REGISTERS],
    pub count: u32,
    pub next: u32,
}

// What `commit` answers: index, code, register (for S, B and H the address), value and distance (of L, else 0).
#[derive(Clone, Copy)]
pub struct Committed {
    pub index: u32,
    pub code: u32,
    pub target: u32,
    pub value: u32,
    pub distance: u32,
}

// What is executed at a position: its stage, its entry and what that asks.
#[derive(Clone, Copy)]
pub struct Asked {
    pub stage: usize,
    pub entry: Entry,
    pub action: Action,
}
