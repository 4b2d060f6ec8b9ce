// Why a script is bad: finds its first bad line and what is wrong there. `flaw_of` is to call, and requires nothing.
#![tactic(auto)]

ghost use Rattle.std.specs.Prelude.{◌≡◌, ◌+◌, ◌≤◌, ◌<◌, ◌∷◌, length, MatchOption, Some};
ghost use Rattle.machine_model.specs.Calls.{banked};
ghost use Rattle.text.specs.Fields.{empty};
ghost use Rattle.flaw_model.specs.declared.Defect.TheVariants.{Beyond};
ghost use Rattle.flaw_model.specs.declared.Reason.TheVariants.{Field};
ghost use Rattle.flaw_model.specs.Flaw.{arity, commas, digit_took, took, no_number, behind, malformed, no_sizes, unfit, unformed};
ghost use Rattle.flaw_model.specs.Flaw.{reason_in, next_part, of_end, flaw_of};
ghost use Rattle.flaw_model.specs.Computed.Looking.{open_of, Looks};

use flaw_model::{Defect, Part};
pub use flaw_model::{Flaw, Reason};
use machine_model::{INSTRUCTIONS, LAST_REGISTER};
use script_model::{Item, MOST};
use std::ops::ControlFlow;
use table::{BANKS, ROWS, STAGES, WORDS};
use text::{LARGEST, Line};

// How many fields a line with this letter has, the letter among them, if there is such a letter.
pub fn arity_of(b: u8) -> Option<usize>
    ensures { MatchOption result (arity b ≡ 0) (λ n. (n ≡ arity b) × (0 < n)) }
{
    match b {
        b'i' | b'c' => Some(1),
        b'e' | b'q' | b'x' => Some(2),
        _ if script_reading::code_of(b).is_some() => Some(4),
        b'N' => Some(5),
        _ => None,
    }
}

// The open field with one digit more.
fn take_digit(so_far: Option<u32>, digit: u32) -> Result<Option<u32>, Defect>
    requires { digit < 10 }
    ensures { result ≡ digit_took (open_of so_far) digit }
{
    match so_far {
        None => Ok(Some(digit)),
        Some(0) => Err(Defect::Zero),
        Some(x) if x as u64 * 10 + digit as u64 <= LARGEST => Ok(Some(x * 10 + digit)),
        Some(_) => Err(Defect::Large),
    }
}

// The open field behind one byte more: a comma opens the next one.
fn take_byte(so_far: Option<u32>, b: u8) -> Result<Option<u32>, Defect>
    ensures { result ≡ took (open_of so_far) b }
{
    match b {
        b',' if so_far.is_none() => Err(Defect::Missing),
        b',' => Ok(None),
        b'0'..=b'9' => take_digit(so_far, (b - b'0') as u32),
        _ => Err(Defect::Stray(b)),
    }
}

// The first of these fields, of which the first is field 2, that is no number.
#[tactic(auto, unfolding(flaw_model::specs::Flaw::no_number))]
fn find_defect(letter: u8, fields: &[u8]) -> Option<Reason>
    ensures { result ≡ no_number letter 2 empty fields.now }
{
    let mut k: usize = 2;
    let mut so_far = None;
    for b in fields {
        match take_byte(so_far, *b) {
            Ok(next) => so_far = next,
            Err(defect) => return Some(Reason::Field(letter, k, defect)),
        }
        if so_far.is_none() {
            k += 1;
        }
    }
    match so_far {
        None => Some(Reason::Field(letter, k, Defect::Missing)),
        Some(_) => None,
    }
}

// How many commas there are.
#[tactic(auto, using(flaw_model::proofs::Looking::commas_counted))]
fn count_commas(fields: &[u8]) -> usize
    ensures commas { result ≡ commas fields.now }
    ensures within { result ≤ length fields.now }
{
    fields.iter().filter(|b| **b == b',').count()
}

// What is wrong with the fields behind a letter and a comma: their number, or one of them.
fn find_unlike(letter: u8, fields: &[u8]) -> Option<Reason>
    ensures { result ≡ behind letter (44 ∷ fields.now) }
{
    let found = count_commas(fields) + 2;
    if arity_of(letter) != Some(found) {
        return Some(Reason::Count(letter, found));
    }
    find_defect(letter, fields)
}

// What is wrong with a line that is none of the forms.
fn find_malformed(line: &[u8]) -> Option<Reason>
    ensures { result ≡ malformed line.now }
{
    match line {
        [] => Some(Reason::Blank),
        [.., b'\r'] => Some(Reason::CarriageReturn),
        [letter, ..] if arity_of(*letter).is_none() => Some(Reason::Letter(*letter)),
        [letter] => Some(Reason::Count(*letter, 1)),
        [letter, b',', fields @ ..] => find_unlike(*letter, fields),
        [letter, behind, ..] => Some(Reason::Glued(*letter, *behind)),
    }
}

// What is wrong with the first line, which is none of the forms.
fn find_first(line: &[u8]) -> Option<Reason>
    ensures { result ≡ no_sizes line.now }
{
    match line {
        [letter, ..] if *letter != b'N' => Some(Reason::NoSizes(*letter)),
        _ => find_malformed(line),
    }
}

// A field whose number is outside its limits.
fn beyond(letter: u8, field: usize, number: u32) -> Option<Reason>
    ensures { result ≡ Some (Field letter field (Beyond number)) }
{
    Some(Reason::Field(letter, field, Defect::Beyond(number)))
}

// The leftmost of the sizes outside its limits.
fn find_unfit(banks: u32, rows: u32, stages: u32, words: u32) -> Option<Reason>
    ensures { result ≡ unfit (banked banks rows stages words) }
{
    if !matches!(banks, 1 | 2 | 4) && banks as usize != BANKS {
        beyond(b'N', 2, banks)
    } else if rows < 1 || ROWS < rows as usize {
        beyond(b'N', 3, rows)
    } else if stages < 1 || STAGES < stages as usize {
        beyond(b'N', 4, stages)
    } else if words < 1 || WORDS < words as usize {
        beyond(b'N', 5, words)
    } else {
        None
    }
}

// The leftmost register that is none.
fn find_unformed(letter: u8, code: u32, d: u32, s: u32, imm: u32) -> Option<Reason>
    ensures { result ≡ unformed letter code d s imm }
{
    if machine_isa::well_formed(code, d, s, imm) {
        None
    } else if LAST_REGISTER < d {
        beyond(letter, 2, d)
    } else if LAST_REGISTER < s {
        beyond(letter, 3, s)
    } else {
        beyond(letter, 4, imm)
    }
}

// What is wrong with this line, which says this item, in this part.
fn reason_in(line: &[u8], part: Part, item: Item) -> Option<Reason>
    ensures { result ≡ reason_in part item line.now }
{
    let letter = line.first().copied().unwrap_or(0);
    match (part, item) {
        (Part::First, Item::Malformed) => find_first(line),
        (_, Item::Malformed) => find_malformed(line),
        (Part::First, Item::Sizes(banks, rows, stages, words)) => {
            find_unfit(banks, rows, stages, words)
        }
        (_, Item::Sizes(_, _, _, _)) => Some(Reason::SizesAgain),
        (Part::First, _) => Some(Reason::NoSizes(letter)),
        (Part::Program(0), Item::Operation(_, _, _, _)) => Some(Reason::Full),
        (Part::Program(_), Item::Operation(code, d, s, imm)) => {
            find_unformed(letter, code, d, s, imm)
        }
        (Part::Steps, Item::Operation(_, _, _, _)) => Some(Reason::Late),
        _ => None,
    }
}

// The part of the line behind this item.
fn next_part(part: Part, item: Item) -> Part
    ensures { result ≡ next_part part item }
{
    match (part, item) {
        (Part::First, _) => Part::Program(INSTRUCTIONS),
        (Part::Program(room), Item::Operation(_, _, _, _)) => Part::Program(room.saturating_sub(1)),
        _ => Part::Steps,
    }
}

// What is wrong where no line is left.
fn at_end(part: Part) -> Option<Reason>
    ensures { result ≡ of_end part }
{
    match part {
        Part::First => Some(Reason::NoInput),
        _ => None,
    }
}

// What the line that begins at `at` leads to: the end, with what is wrong, or the next line, its part and where it begins.
#[tactic(auto, using(flaw_model::proofs::Looking::looks))]
fn look(s: &[u8], at: usize, part: Part) -> ControlFlow<Option<Reason>, (Part, usize)>
    ensures { Looks s.now at part result }
{
    let taken = text_lines::take_line(s, at);
    match taken.line {
        Line::End => ControlFlow::Break(at_end(part)),
        Line::Unended(_) => ControlFlow::Break(Some(Reason::Unended)),
        Line::Whole(from, to) => {
            let line = &s[from..to];
            let item = script_reading::read_item(line);
            let reason = reason_in(line, part, item);
            if reason.is_some() {
                return ControlFlow::Break(reason);
            }
            ControlFlow::Continue((next_part(part, item), taken.next))
        }
    }
}

// The first bad line of a script and what is wrong with it, or the number that a line after the last would have.
#[tactic(auto, unfolding(flaw_model::specs::Flaw::flaw_of))]
pub fn flaw_of(s: &[u8]) -> Result<u64, Flaw>
    ensures { result ≡ flaw_of s.now }
{
    if MOST < s.len() {
        return Err(Flaw {
            line: 0,
            reason: Reason::TooLong,
        });
    }
    let mut at: usize = 0;
    let mut line: u64 = 1;
    let mut part = Part::First;
    // where the next line begins is told by the line before it
    loop {
        match look(s, at, part) {
            ControlFlow::Continue((next, to)) => {
                part = next;
                at = to;
                line += 1;
            }
            ControlFlow::Break(None) => return Ok(line),
            ControlFlow::Break(Some(reason)) => return Err(Flaw { line, reason }),
        }
    }
}
