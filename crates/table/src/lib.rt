// The table of the address resolution buffer and its tickets: types and limits, what they mean (specs/), with the laws
// (proofs/). No code: the check of the table's rules, banks and tickets are in table_rules.
#![tactic(auto)]

// The limits of the sizes: stages, rows a bank, banks, words. SLOTS is the length of the arrays by row.
pub const STAGES: usize = 16;

pub const ROWS: usize = 8;

pub const BANKS: usize = 8;

pub const SLOTS: usize = BANKS * ROWS;

pub const WORDS: usize = 4096;

// A struct of arrays by row and by stage, as 01 names it. Row i of bank b is at b * ROWS + i of the arrays by row. A mark word (load
// or store bits) has bit s for stage s. `executed` has the stages whose reference has executed, `values` the word of a store and
// `taken` the word that a load took, by its stage, which bears its marks in one row. C shares this layout, and the ticket's (crate embed).
#[repr(C)]
#[derive(Clone, Copy)]
pub struct Table {
    pub banks: usize,
    pub rows: usize,
    pub stages: usize,
    pub words: usize,
    pub oldest: usize,
    pub live: usize,
    pub next: u32,
    pub executed: u32,
    pub numbers: [u32; STAGES],
    pub addresses: [u32; SLOTS],
    pub loads: [u32; SLOTS],
    pub stores: [u32; SLOTS],
    pub values: [u32; STAGES],
    pub taken: [u32; STAGES],
}

// A reference's name (sequence tag): its stage and the number under which it was issued.
#[repr(C)]
#[derive(Clone, Copy)]
pub struct Ticket {
    pub stage: usize,
    pub number: u32,
}
