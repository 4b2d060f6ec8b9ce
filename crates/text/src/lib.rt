// Text of lines: what a decimal, a field and a line are (specs/), with their laws (proofs/). No code: numbers are read and
// printed in text_numbers, lines handed out in text_lines.
#![tactic(auto)]

use arrayvec::ArrayVec;

// The largest number of a field, and the most fields that a line is read to.
pub const LARGEST: u64 = 4294967295;

pub const FIELDS: usize = 64;

// The numbers of a line read so far: the fields before its last comma, and the field now open, if it has digits.
#[derive(Drop)]
pub struct Numbers {
    pub closed: ArrayVec<u32, FIELDS>,
    pub open: Option<u32>,
}

// What begins at an index of a text: nothing, a last line without line feed, from this index, or a line from
// this index up to its line feed.
#[derive(Clone, Copy)]
pub enum Line {
    End,
    Unended(usize),
    Whole(usize, usize),
}
