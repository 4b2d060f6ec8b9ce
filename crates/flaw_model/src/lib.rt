// The model of a bad line: the types of its reason. No code: specs/ says which line of a script is bad first, why, and the message
// that tells it; proofs/ has the laws behind the functions that find and write it.
#![tactic(auto)]

// Where a line stands: first, in the program with room for so many instructions, or among the steps.
#[derive(Clone, Copy)]
pub enum Part {
    First,
    Program(usize),
    Steps,
}

// What is wrong with a field: nothing, so that no text tells what was found, it is empty, it has an extra leading zero, this byte
// is no digit, it is above the largest number, or its number is outside the field's limits.
#[derive(Clone, Copy)]
pub enum Defect {
    Sound,
    Missing,
    Zero,
    Stray(u8),
    Large,
    Beyond(u32),
}

// Why a script is bad. A letter comes with what follows from it: the byte behind it, the number of fields found (itself among
// them), or one of its fields (the letter is field 1).
#[derive(Clone, Copy)]
pub enum Reason {
    TooLong,
    NoInput,
    Blank,
    Unended,
    CarriageReturn,
    NoSizes(u8),
    SizesAgain,
    Letter(u8),
    Glued(u8, u8),
    Count(u8, usize),
    Field(u8, usize, Defect),
    Full,
    Late,
}

// The first bad line of a script and what is wrong with it.
#[derive(Clone, Copy)]
pub struct Flaw {
    pub line: u64,
    pub reason: Reason,
}
