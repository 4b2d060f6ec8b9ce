// The model of a script: what its lines say and how it ends. No code: specs/ says what a script asks for and prints.
#![tactic(auto)]

// The most bytes that a script has.
pub const MOST: usize = 65536;

// The letters of instructions by their codes; 0 is no code.
pub const LETTERS: [u8; 7] = [0, b'A', b'P', b'L', b'S', b'B', b'H'];

// What a line says; `Operation` has an instruction's code, d, s and imm.
#[derive(Clone, Copy)]
pub enum Item {
    Malformed,
    Sizes(u32, u32, u32, u32),
    Operation(u32, u32, u32, u32),
    Issue,
    Execute(u32),
    Squash(u32),
    Commit,
    Finish(u32),
}

// How a script ends (01's fate).
#[derive(Clone, Copy)]
pub enum Ending {
    Open,
    Done,
    Fault,
}
