// What every engine shares: what is executed and what it comes to, why a call is turned down and what it hands back, the
// contract record, and one law for each step on the plain list. The steps are in the crate `engine_steps`.
#![tactic(auto)]

ghost use Rattle.std.specs.Prelude.{◌≡◌};
ghost use Rattle.engine.specs.Answers.{number};

// The part of a word that a store may be of: a byte, or a half word of two bytes.
#[derive(Clone, Copy)]
pub enum Part {
    Byte,
    Half,
}

// What is executed: a value alone, a load of an address, a store at an address of a word, a store at a byte number of a word's
// part.
#[derive(Clone, Copy)]
pub enum Action {
    Compute(u32),
    LoadAt(u32),
    StoreAt(u32, u32),
    PartAt(Part, u32, u32),
}

// What an execution comes to: which marks it sets, their row and its word's address, how many references stay, its value and
// its own address, of a part's store the byte number, the word that its load took and how far it came. None stay where it
// stalls. Value and address, which an entry has side by side, stand apart: read as one they would wait for two writes. The two
// marks are flags beside their values, as a row's two mark words are, so that there is one way through `apply`.
#[derive(Clone, Copy)]
pub struct Effect {
    pub load: bool,
    pub store: bool,
    pub value: u32,
    pub row: usize,
    pub word: u32,
    pub address: u32,
    pub left: usize,
    pub distance: u32,
    pub taken: u32,
}

// Why a call is turned down, in the order in which the conditions are looked at: the smallest that holds is told, by its number.
#[derive(Clone, Copy, PartialEq, Eq)]
pub enum Refusal {
    // A size is outside its limits, or the program has too many numbers.
    Sizes = 1,
    // The table breaks its own rules, or window and table disagree.
    Rules = 2,
    // The memory lent has another length.
    Memory = 3,
    // The program is not well formed, or not the one that was opened.
    Program = 4,
    // Every stage has a live reference.
    Full = 5,
    // No instruction is left.
    Over = 6,
    // The ticket or position names no live reference.
    Unnamed = 7,
    // It has executed.
    Executed = 8,
    // An operand's writer has not executed.
    Operand = 9,
    // Its bank has no row for it.
    Stalled = 10,
    // Nothing is live.
    Empty = 11,
    // The oldest has not executed.
    Waiting = 12,
    // Its address lies past the memory.
    Fault = 13,
    // A half word stands at an odd byte number.
    Misaligned = 14,
}

impl Refusal {
    // Its number, as it is told outside.
    pub fn number(self) -> u32
        ensures { result ≡ number self }
    {
        self as u32
    }
}

// What an execution answers: the value and the distance (of a load, else 0), and the reference, named by an N, from which on
// references were squashed, if any were.
#[derive(Clone, Copy)]
pub struct Executed<N> {
    pub value: u32,
    pub distance: u32,
    pub squashed: Option<N>,
}

// What a call hands back: its answer, and the state that it was passed, changed where the call was accepted.
#[derive(Clone, Copy)]
pub struct Answered<S, A> {
    pub answer: Result<A, Refusal>,
    pub state: S,
}
