// Forwarding, violation, eviction and stall as functions of the list of live references, their laws, and what the searches of a
// table answer. No code: the searches are in the crates `lookup_marks` and `lookup_rows`.
#![tactic(auto)]

// The row in which an execution is marked, and how many references stay; none stay where it stalls. That is no Option, since the
// definitions and laws of a stall (`evicted`, `survivors`, `stalls`) count what stays.
#[derive(Clone, Copy)]
pub struct Place {
    pub row: usize,
    pub left: usize,
}

// What a load takes: the word, and how many positions older the store is that it came from; 0: it came from memory.
#[derive(Clone, Copy)]
pub struct Taken {
    pub word: u32,
    pub distance: u32,
}

// What the marks of a stage say: none, a load of an address, a store at an address of a word.
#[derive(Clone, Copy)]
pub enum Mark {
    Absent,
    Load(u32),
    Store(u32, u32),
}
