// Images of the window machine for C read and written, and answers in numbers: what the exported calls of embed_machine share.
//
// Functions and not `From`, whose impls must name a type of their own crate.
#![tactic(auto)]

ghost use Rattle.std.specs.Prelude.{◌≡◌, map};
ghost use Rattle.engine.specs.Answers.{says};
ghost use Rattle.engine.specs.Contract.{refused};
ghost use Rattle.machine_model.specs.Calls.{Answer};
ghost use Rattle.machine_model.specs.Contract.{done_says, issue_says, execute_says, commit_says, finish_says};
ghost use Rattle.embed_image.specs.Slots.{instruction_by, fate_by, entry_by, slot_of, machine_by, image_of};
ghost use Rattle.embed_image.specs.Telling.{by_number, numbers_of};
ghost use Rattle.embed_image.specs.Computed.Handing.{answered_by};

use embed_image::{Answered, Image, Numbers, Slot};
use engine::{Executed, Refusal};
use machine_model::{Committed, Entry, Fate, Instruction, Machine};
use table::STAGES;

// The instruction with these numbers; of a code that there is not, one that no program has.
fn instruction_by(code: u8, d: u8, s: u8, imm: u32) -> Instruction
    ensures { result ≡ instruction_by code d s imm }
{
    match code {
        1..=6 => machine_isa::decode(u32::from(code), d, s, imm),
        _ => Instruction::Add(255, 255, 0),
    }
}

fn fate_by(executed: u8, value: u32, address: u32) -> Fate
    ensures { result ≡ fate_by executed value address }
{
    match executed {
        0 => Fate::Waiting,
        _ => Fate::Executed(value, address),
    }
}

fn entry_by(x: Slot) -> Entry
    ensures { result ≡ entry_by x }
{
    Entry {
        instruction: instruction_by(x.code, x.d, x.s, x.imm),
        index: x.index,
        fate: fate_by(x.executed, x.value, x.address),
        distance: x.distance,
    }
}

fn slot_of(e: Entry) -> Slot
    ensures { result ≡ slot_of e }
{
    let (code, d, s, imm) = match e.instruction {
        Instruction::Add(d, s, imm) => (1, d, s, imm),
        Instruction::Sum(d, s, r) => (2, d, s, r),
        Instruction::Load(d, s, imm) => (3, d, s, imm),
        Instruction::Store(d, s, imm) => (4, d, s, imm),
        Instruction::Byte(d, s, imm) => (5, d, s, imm),
        Instruction::Half(d, s, imm) => (6, d, s, imm),
    };
    let (executed, value, address) = match e.fate {
        Fate::Waiting => (0, 0, 0),
        Fate::Executed(value, address) => (1, value, address),
    };
    Slot {
        code,
        d,
        s,
        executed,
        imm,
        index: e.index,
        value,
        address,
        distance: e.distance,
    }
}

// What the places of a window start from.
const BLANK_ENTRY: Entry = Entry {
    instruction: Instruction::Add(0, 0, 0),
    index: 0,
    fate: Fate::Waiting,
    distance: 0,
};

const BLANK_SLOT: Slot = Slot {
    code: 0,
    d: 0,
    s: 0,
    executed: 0,
    imm: 0,
    index: 0,
    value: 0,
    address: 0,
    distance: 0,
};

// Loops from a constant: a call through C takes 525 ns so, 685 with the array's `map`, 696 from a start computed off `w[0]`.
fn window_by(w: [Slot; STAGES]) -> [Entry; STAGES]
    ensures { result ≡ map entry_by w }
{
    let mut entries = [BLANK_ENTRY; STAGES];
    for i in 0..STAGES {
        entries[i] = entry_by(w[i]);
    }
    entries
}

fn window_of(w: [Entry; STAGES]) -> [Slot; STAGES]
    ensures { result ≡ map slot_of w }
{
    let mut slots = [BLANK_SLOT; STAGES];
    for i in 0..STAGES {
        slots[i] = slot_of(w[i]);
    }
    slots
}

pub fn machine_by(m: Image) -> Machine
    ensures { result ≡ machine_by m }
{
    let Image {
        table,
        window,
        registers,
        count,
        next,
    } = m;
    let window = window_by(window);
    Machine {
        table,
        window,
        registers,
        count,
        next,
    }
}

pub fn image_of(m: Machine) -> Image
    ensures { result ≡ image_of m }
{
    let Machine {
        table,
        window,
        registers,
        count,
        next,
    } = m;
    let window = window_of(window);
    Image {
        table,
        window,
        registers,
        count,
        next,
    }
}

// What crosses: of a refusal the image that was passed.
pub fn crossed(passed: Image, m: Machine, numbers: Numbers) -> Answered
    ensures { result ≡ answered_by passed m numbers }
{
    if numbers.refusal != 0 {
        return Answered {
            image: passed,
            numbers,
        };
    }
    Answered {
        image: image_of(m),
        numbers,
    }
}

const ZEROS: Numbers = Numbers {
    position: 0,
    commits: 0,
    refusal: 0,
    squashed: 0,
    index: 0,
    code: 0,
    target: 0,
    value: 0,
    distance: 0,
};

// Those of a refusal.
fn refused(refusal: u32) -> Numbers
    ensures { result ≡ numbers_of (refused refusal) }
{
    Numbers { refusal, ..ZEROS }
}

// A call's answer with its refusal told by its number: it says the same.
pub fn by_number<A>(answer: Result<A, Refusal>) -> Result<A, u32>
    ensures { (f : A → Answer) → by_number (says f) result ≡ says f answer }
{
    answer.map_err(|why| why.number())
}

// The numbers of each call's answer.
pub fn done_numbers(answer: Result<(), u32>) -> Numbers
    ensures { result ≡ numbers_of (by_number done_says answer) }
{
    match answer {
        Ok(()) => ZEROS,
        Err(number) => refused(number),
    }
}

pub fn issue_numbers(answer: Result<usize, u32>) -> Numbers
    ensures { result ≡ numbers_of (by_number issue_says answer) }
{
    match answer {
        Ok(position) => Numbers { position, ..ZEROS },
        Err(number) => refused(number),
    }
}

pub fn execute_numbers(answer: Result<Executed<usize>, u32>) -> Numbers
    ensures { result ≡ numbers_of (by_number execute_says answer) }
{
    match answer {
        Ok(done) => Numbers {
            position: done.squashed.unwrap_or(0),
            squashed: u32::from(done.squashed.is_some()),
            value: done.value,
            distance: done.distance,
            ..ZEROS
        },
        Err(number) => refused(number),
    }
}

pub fn commit_numbers(answer: Result<Committed, u32>) -> Numbers
    ensures { result ≡ numbers_of (by_number commit_says answer) }
{
    match answer {
        Ok(done) => Numbers {
            index: done.index,
            code: done.code,
            target: done.target,
            value: done.value,
            distance: done.distance,
            ..ZEROS
        },
        Err(number) => refused(number),
    }
}

pub fn finish_numbers(answer: Result<usize, u32>) -> Numbers
    ensures { result ≡ numbers_of (by_number finish_says answer) }
{
    match answer {
        Ok(commits) => Numbers { commits, ..ZEROS },
        Err(number) => refused(number),
    }
}
