// The instruction set and the window's entries: an instruction read from the program and held to it, its operands and what it
// asks with them, and what an entry says of itself. Inner: `instruction_at` requires what its callers have shown.
#![tactic(auto)]

ghost use Rattle.std.specs.Prelude.{◌≡◌, ◌+◌, ◌*◌, ◌<◌, ◌≤◌, [], ◌∷◌, length, slice_index};
ghost use Rattle.std.proofs.lemmas.List.Edits.{sets};
ghost use Rattle.engine.specs.Answers.{as_option};
ghost use Rattle.machine_model.specs.Program.{decoded, instruction_at, well_formed, program_fits, code_of, d_of, s_of, imm_of};
ghost use Rattle.machine_model.specs.Program.{kind, destination};
ghost use Rattle.machine_model.specs.Contract.{kind_of, place_of};
ghost use Rattle.machine_model.specs.Window.{address_by, misaligned, reference};
ghost use Rattle.machine_model.specs.Calls.{pending, value_by, answer_by, target};
ghost use Rattle.machine_laws.specs.Computed.Parts.{like_by, action_of, second};
ghost use Rattle.machine_laws.specs.Computed.Kinds.{kind_number};

use engine::{Action, Part};
use machine_model::{Entry, Fate, Instruction, Kind, LAST_REGISTER, PER_INSTRUCTION};

// The four numbers of an instruction.
#[derive(Clone, Copy, PartialEq, Eq)]
struct Numbers {
    code: u32,
    d: u32,
    s: u32,
    imm: u32,
}

// Those at index `i` of the program.
fn numbers_at(program: &[u32], i: usize) -> Numbers
    requires { i * 4 + 3 < length program.now }
    ensures code_value { (result.code ≡ slice_index program.now (i * 4)) × (result.d ≡ slice_index program.now (i * 4 + 1)) }
    ensures s_value { (result.s ≡ slice_index program.now (i * 4 + 2)) × (result.imm ≡ slice_index program.now (i * 4 + 3)) }
{
    let k = i * PER_INSTRUCTION;
    Numbers {
        code: program[k],
        d: program[k + 1],
        s: program[k + 2],
        imm: program[k + 3],
    }
}

// Those of an instruction.
fn numbers_of(i: Instruction) -> Numbers
    ensures { (result.code ≡ code_of i) × (result.d ≡ d_of i) × (result.s ≡ s_of i) × (result.imm ≡ imm_of i) }
{
    let (code, d, s, imm) = match i {
        Instruction::Add(d, s, imm) => (1, d, s, imm),
        Instruction::Sum(d, s, r) => (2, d, s, r),
        Instruction::Load(d, s, imm) => (3, d, s, imm),
        Instruction::Store(d, s, imm) => (4, d, s, imm),
        Instruction::Byte(d, s, imm) => (5, d, s, imm),
        Instruction::Half(d, s, imm) => (6, d, s, imm),
    };
    Numbers {
        code,
        d: u32::from(d),
        s: u32::from(s),
        imm,
    }
}

// The instruction with these four numbers.
pub fn decode(code: u32, d: u8, s: u8, imm: u32) -> Instruction
    ensures { result ≡ decoded code d s imm }
{
    match code {
        1 => Instruction::Add(d, s, imm),
        2 => Instruction::Sum(d, s, imm),
        3 => Instruction::Load(d, s, imm),
        4 => Instruction::Store(d, s, imm),
        5 => Instruction::Byte(d, s, imm),
        _ => Instruction::Half(d, s, imm),
    }
}

// The instruction at index `i` of the program.
pub fn instruction_at(program: &[u32], i: usize) -> Instruction
    requires { (i * 4 + 3 < length program.now) × (slice_index program.now (i * 4 + 1) < 8) × (slice_index program.now (i * 4 + 2) <
        8) }
    ensures { result ≡ instruction_at program.now i }
{
    let n = numbers_at(program, i);
    decode(n.code, n.d as u8, n.s as u8, n.imm)
}

// Whether these four numbers are an instruction.
pub fn well_formed(code: u32, d: u32, s: u32, imm: u32) -> bool
    ensures { result ≡ well_formed code d s imm }
{
    ((1 <= code) & (code <= 6))
        & ((d <= LAST_REGISTER) & (s <= LAST_REGISTER))
        & ((code != 2) | (imm <= LAST_REGISTER))
}

// Whether the program is whole instructions, each well formed.
pub fn program_fits(program: &[u32]) -> bool
    ensures { result ≡ program_fits program.now }
{
    if program.len() % PER_INSTRUCTION != 0 {
        return false;
    }
    // no early exit: it would be a branch to guess
    let mut fit = true;
    for i in 0..program.len() / PER_INSTRUCTION {
        let n = numbers_at(program, i);
        fit &= well_formed(n.code, n.d, n.s, n.imm);
    }
    fit
}

// 01's code of an instruction.
pub fn code_of(i: Instruction) -> u32
    ensures { result ≡ code_of i }
{
    numbers_of(i).code
}

// An instruction's d and s.
fn d_of(i: Instruction) -> u32
    ensures { result ≡ d_of i }
{
    numbers_of(i).d
}

pub fn s_of(i: Instruction) -> u32
    ensures { result ≡ s_of i }
{
    numbers_of(i).s
}

// Whether the entry's instruction has the four numbers at its index in the program. They are compared as they stand: of a
// well-formed program that is the instruction decoded.
pub fn entry_fits(program: &[u32], e: Entry) -> bool
    ensures { result ≡ like_by program.now e }
{
    let i = e.index as usize;
    i * PER_INSTRUCTION + 3 < program.len() && numbers_at(program, i) == numbers_of(e.instruction)
}

// What an instruction does.
pub fn kind_of(i: Instruction) -> Kind
    ensures { result ≡ kind i }
{
    match i {
        Instruction::Add(..) | Instruction::Sum(..) => Kind::Computing,
        Instruction::Load(..) => Kind::Loading,
        Instruction::Store(..) => Kind::Storing,
        Instruction::Byte(..) | Instruction::Half(..) => Kind::Merging,
    }
}

// What an entry did, if it has executed.
pub fn entry_kind(e: Entry) -> Option<Kind>
    ensures { kind_number result ≡ kind_of (reference e) }
{
    match e.fate {
        Fate::Waiting => None,
        Fate::Executed(..) => Some(kind_of(e.instruction)),
    }
}

// Its address as the buffer has it, a word's number; 0 where it has none.
pub fn entry_place(e: Entry) -> u32
    ensures { result ≡ place_of (reference e) }
{
    match e.fate {
        Fate::Waiting => 0,
        Fate::Executed(_, a) => match kind_of(e.instruction) {
            Kind::Computing => 0,
            Kind::Loading | Kind::Storing => a,
            Kind::Merging => a / 4,
        }
    }
}

// The register that an instruction writes.
pub fn destination_of(i: Instruction) -> Option<u32>
    ensures { as_option result ≡ destination i }
{
    match kind_of(i) {
        Kind::Computing | Kind::Loading => Some(d_of(i)),
        Kind::Storing | Kind::Merging => None,
    }
}

// The register of an instruction's second operand; of one that has none, the first again.
pub fn second_of(i: Instruction) -> u32
    ensures { result ≡ second i }
{
    match i {
        Instruction::Add(_, s, _) | Instruction::Load(_, s, _) => u32::from(s),
        Instruction::Sum(_, _, r) => r,
        Instruction::Store(d, ..) | Instruction::Byte(d, ..) | Instruction::Half(d, ..) =>
            u32::from(d),
    }
}

// What the instruction asks with these operands; sums wrap.
pub fn action_of(i: Instruction, x: u32, y: u32) -> Action
    ensures { result ≡ action_of i x y }
{
    match i {
        Instruction::Add(_, _, imm) => Action::Compute(x.wrapping_add(imm)),
        Instruction::Sum(..) => Action::Compute(x.wrapping_add(y)),
        Instruction::Load(_, _, imm) => Action::LoadAt(x.wrapping_add(imm)),
        Instruction::Store(_, _, imm) => Action::StoreAt(x.wrapping_add(imm), y),
        Instruction::Byte(_, _, imm) => Action::PartAt(Part::Byte, x.wrapping_add(imm), y),
        Instruction::Half(_, _, imm) => Action::PartAt(Part::Half, x.wrapping_add(imm), y),
    }
}

// Whether an entry has not executed yet.
pub fn is_pending(e: Entry) -> bool
    ensures { result ≡ pending e.fate }
{
    matches!(e.fate, Fate::Waiting)
}

// The value of an entry.
pub fn value_of(e: Entry) -> u32
    ensures { result ≡ value_by e.fate }
{
    match e.fate {
        Fate::Waiting => 0,
        Fate::Executed(v, _) => v,
    }
}

// The address of an entry.
fn address_of(e: Entry) -> u32
    ensures { result ≡ address_by e.fate }
{
    match e.fate {
        Fate::Waiting => 0,
        Fate::Executed(_, a) => a,
    }
}

// The third number of a commit: the register, for S, B and H the address.
pub fn target_of(e: Entry) -> u32
    ensures { result ≡ target e.instruction (address_by e.fate) }
{
    destination_of(e.instruction).unwrap_or(address_of(e))
}

// Whether an entry has executed as an H at an odd byte number.
pub fn is_misaligned(e: Entry) -> bool
    ensures { result ≡ misaligned e }
{
    code_of(e.instruction) == 6 && address_of(e) % 2 == 1
}

// The fifth number of a commit: how far a load's word came, else 0.
pub fn distance_of(e: Entry) -> u32
    ensures { result ≡ answer_by (kind e.instruction) e.distance }
{
    match kind_of(e.instruction) {
        Kind::Loading => e.distance,
        Kind::Computing | Kind::Storing | Kind::Merging => 0,
    }
}

// The numbers from place `at` of the list on.
pub fn put_numbers(list: &mut [u32], at: usize, numbers: &[u32])
    requires { at + length numbers.now ≤ length list.old }
    ensures { list.new ≡ sets list.old at numbers.now }
{
    list[at..at + numbers.len()].copy_from_slice(numbers);
}
