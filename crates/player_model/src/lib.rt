// The model of the script player: the types of a script being read and played. No code: specs/ says what the player's calls
// promise and what is proved of its output; proofs/ has the laws behind the functions and the theorems of the output.
#![tactic(auto)]

use machine_model::Machine;

// The room in the buffer with which a step is begun: more than the lines of a commit, the most that a step prints, take.
pub const LINE: usize = 128;

// The largest count of lines and of commits.
pub const COUNT: u64 = 18446744073709551615;

// What the player does next: nothing, the bad line of this number, the next step, a finish with so many commits left, or the
// memory words from this address on and then the end line.
#[derive(Clone, Copy)]
pub enum Phase {
    Over,
    Bad(u64),
    Stepping,
    Finishing(u32),
    Words(usize),
}

// A script being played: `cursor` is where its next line begins, `line` that line's number, and `used` how many places of the
// lent program are its own.
#[derive(Clone, Copy)]
pub struct Player {
    pub phase: Phase,
    pub cursor: usize,
    pub line: u64,
    pub commits: u64,
    pub used: usize,
    pub machine: Machine,
}

// A player after some output, and where that ends in the buffer.
#[derive(Clone, Copy)]
pub struct Piece {
    pub player: Player,
    pub end: usize,
}

// The four numbers that a line gives, sizes on the first line and an instruction on a later one, and where the next line begins.
#[derive(Clone, Copy)]
pub struct Four(pub u32, pub u32, pub u32, pub u32, pub usize);

// Where the steps begin, the number of that line, and the places of the program in use.
#[derive(Clone, Copy)]
pub struct Loaded {
    pub cursor: usize,
    pub line: u64,
    pub used: usize,
}

// What a line asks for: that the player turns to this phase, or a call of the machine.
#[derive(Clone, Copy)]
pub enum Ask {
    Turn(Phase),
    Issue,
    Execute(u32),
    Squash(u32),
    Commit,
}

// What a line asks for, and the place and the number of the line after it.
#[derive(Clone, Copy)]
pub struct Order {
    pub ask: Ask,
    pub cursor: usize,
    pub line: u64,
}
