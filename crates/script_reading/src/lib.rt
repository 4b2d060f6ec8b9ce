// Reading a script: what a line says, the sizes of the first line, and the program after it.
#![tactic(auto)]

ghost use Rattle.std.specs.Prelude.{◌≡◌, ◌==◌, ◌≤◌, ltb, length, position};
ghost use Rattle.std.specs.Bool.{then_some};
ghost use Rattle.text.specs.Lines.{line_at};
ghost use Rattle.text.specs.Computed.Reader.{parsed_fields};
ghost use Rattle.table.specs.Limits.{words_most};
ghost use Rattle.machine_model.specs.Program.{program_most};
ghost use Rattle.script_model.specs.Language.{letters, letter_code, alone, lettered, parsed_line};
ghost use Rattle.player_model.specs.Playing.{words_of};
ghost use Rattle.player_model.specs.Computed.Parts.{header_of, found_in, found_by, found_at, Loads};

use arrayvec::ArrayVec;
use machine_model::{PER_INSTRUCTION, PROGRAM};
use player_model::{Four, Loaded};
use script_model::{Item, LETTERS, MOST};
use text::{FIELDS, Line};
use text_lines::Taken;

// The place of a byte among the letters.
fn place_of(b: u8) -> Option<usize>
    ensures { result ≡ position (λ letter. b == letter) letters }
{
    LETTERS.iter().position(|letter| b == *letter)
}

// The code of an instruction's letter.
pub fn code_of(b: u8) -> Option<u32>
    ensures { result ≡ then_some (ltb 0 (letter_code b)) (letter_code b) }
{
    let code = place_of(b)?;
    (0 < code).then_some(code as u32)
}

// A letter alone.
fn say_alone(b: u8) -> Item
    ensures { result ≡ alone b }
{
    match b {
        b'i' => Item::Issue,
        b'c' => Item::Commit,
        _ => Item::Malformed,
    }
}

// A letter and these fields.
fn say_fields(b: u8, fields: Option<ArrayVec<u32, FIELDS>>) -> Item
    ensures { result ≡ lettered b (parsed_fields fields) }
{
    let Some(fields) = fields else {
        return Item::Malformed;
    };
    match (b, fields.as_slice()) {
        (b'e', [k]) => Item::Execute(*k),
        (b'q', [k]) => Item::Squash(*k),
        (b'x', [k]) => Item::Finish(*k),
        (b'N', [banks, rows, stages, words]) => Item::Sizes(*banks, *rows, *stages, *words),
        (_, [d, s, imm]) => match code_of(b) {
            Some(code) => Item::Operation(code, *d, *s, *imm),
            None => Item::Malformed,
        },
        _ => Item::Malformed,
    }
}

// What a line says.
pub fn read_item(line: &[u8]) -> Item
    ensures { result ≡ parsed_line line.now }
{
    match line {
        [b] => say_alone(*b),
        [b, b',', rest @ ..] => say_fields(*b, text_numbers::read_fields(rest)),
        _ => Item::Malformed,
    }
}

// The four numbers that an item gives: on the first line sizes within the limits, on a later one a well-formed instruction.
fn take_four(item: Item, first: bool, at: usize) -> Option<Four>
    ensures { result ≡ found_in first item at }
{
    match item {
        Item::Sizes(banks, rows, stages, words) => {
            let fit = table_rules::sizes_fit(
                banks as usize,
                rows as usize,
                stages as usize,
                words as usize,
            );
            (first & fit).then_some(Four(banks, rows, stages, words, at))
        }
        Item::Operation(code, d, s, imm) => {
            let formed = machine_isa::well_formed(code, d, s, imm);
            (!first & formed).then_some(Four(code, d, s, imm, at))
        }
        _ => None,
    }
}

// The four numbers that the line gives which a reader at `at` hands out, and where the reader stands then.
fn found_on(s: &[u8], at: usize, first: bool) -> Option<Four>
    ensures { result ≡ found_by first s.now (line_at s.now at) }
{
    let Taken { line, next } = text_lines::take_line(s, at);
    match line {
        Line::Whole(from, to) => take_four(read_item(&s[from..to]), first, next),
        _ => None,
    }
}

// The sizes on the first line.
pub fn read_header(s: &[u8]) -> Option<Four>
    ensures { result ≡ header_of s.now }
{
    found_on(s, 0, true)
}

// The instruction on the line that begins at `at`.
fn find_operation(s: &[u8], at: usize) -> Option<Four>
    ensures { result ≡ found_at s.now at }
{
    found_on(s, at, false)
}

// How many words of memory the script asks for; 0 where its first line is bad.
pub fn words_of(s: &[u8]) -> usize
    ensures value { result ≡ words_of s.now }
    ensures upper_bound { result ≤ words_most }
{
    if MOST < s.len() {
        return 0;
    }
    match read_header(s) {
        Some(Four(_, _, _, words, _)) => words as usize,
        None => 0,
    }
}

// Reads the instructions from `from` on, where line 2 begins.
pub fn read_program(s: &[u8], from: usize, program: &mut [u32]) -> Loaded
    requires { program_most ≤ length program.old }
    ensures { Loads s.now from program.old program.new result.cursor result.line result.used }
{
    let mut cursor = from;
    let mut line: u64 = 2;
    let mut used: usize = 0;
    // `used` is told wherever the loop ends, so a range would count it twice.
    while used < PROGRAM {
        let Some(Four(code, d, r, imm, next)) = find_operation(s, cursor) else {
            break;
        };
        machine_isa::put_numbers(program, used, &[code, d, r, imm]);
        used += PER_INSTRUCTION;
        line += 1;
        cursor = next;
    }
    Loaded { cursor, line, used }
}
