// Phrases of the messages about bad lines: bytes, forms of lines, names and limits of fields. What holds a byte or a number of the
// script is appended to the message, and the others are texts.
#![tactic(auto)]

ghost use Rattle.std.specs.Prelude.{◌≡◌, ◌+◌, ◌≤◌, ◌++◌, length};
ghost use Rattle.arrayvec.specs.ArrayVec.{array_vec_len};
ghost use Rattle.flaw_model.specs.Message.{byte_text, form_end, form_text, name_text, limit_text, found_text};
ghost use Rattle.flaw_model.specs.Message.{expected_text, message_room};

use arrayvec::ArrayVec;
use flaw_model::Defect;

// The room that a message needs.
pub const ROOM: usize = 256;

// A message, as far as it is written.
pub type Message = ArrayVec<u8, ROOM>;

// A byte.
#[tactic(auto, unfolding(text::specs::Ascii::ascii))]
pub fn put_byte(message: &mut Message, b: u8)
    requires { array_vec_len message.old + 25 ≤ message_room }
    ensures text { message.new.items ≡ message.old.items ++ byte_text b }
    ensures len { array_vec_len message.new ≤ array_vec_len message.old + 25 }
{
    if (32 <= b) & (b <= 126) {
        text_numbers::put_bytes(message, &[b'\'', b, b'\'']);
    } else {
        text_numbers::put_bytes(message, b"byte ");
        text_numbers::put_decimal(message, u64::from(b));
    }
}

// The form of the lines with this letter, behind the letter.
#[tactic(auto, unfolding(text::specs::Ascii::ascii))]
fn form_of(b: u8) -> &'static [u8]
    ensures { (result.now ≡ form_end b) × (length result.now ≤ 25) }
{
    match script_flaw::arity_of(b) {
        Some(5) => b",banks,rows,stages,words'",
        Some(4) => b",d,s,imm'",
        Some(2) => b",k'",
        _ => b"'",
    }
}

// The form of the lines with this letter.
pub fn put_form(message: &mut Message, b: u8)
    requires { array_vec_len message.old + 40 ≤ message_room }
    ensures text { message.new.items ≡ message.old.items ++ form_text b }
    ensures len { array_vec_len message.new ≤ array_vec_len message.old + 40 }
{
    text_numbers::put_bytes(message, &[b'\'', b]);
    text_numbers::put_bytes(message, form_of(b));
}

// The name of field k of the lines with this letter.
#[tactic(auto, unfolding(text::specs::Ascii::ascii))]
pub fn name_of(b: u8, k: usize) -> &'static [u8]
    ensures { (result.now ≡ name_text b k) × (length result.now ≤ 6) }
{
    match (script_flaw::arity_of(b), k) {
        (Some(5), 2) => b"banks",
        (Some(5), 3) => b"rows",
        (Some(5), 4) => b"stages",
        (Some(5), _) => b"words",
        (Some(4), 2) => b"d",
        (Some(4), 3) => b"s",
        (Some(4), _) => b"imm",
        _ => b"k",
    }
}

// What a field is.
#[tactic(auto, unfolding(text::specs::Ascii::ascii))]
pub fn put_found(message: &mut Message, d: Defect)
    requires { array_vec_len message.old + 25 ≤ message_room }
    ensures text { message.new.items ≡ message.old.items ++ found_text d }
    ensures len { array_vec_len message.new ≤ array_vec_len message.old + 25 }
{
    match d {
        Defect::Sound => {}
        Defect::Missing => text_numbers::put_bytes(message, b"nothing"),
        Defect::Zero => text_numbers::put_bytes(message, b"an extra leading zero"),
        Defect::Stray(b) => put_byte(message, b),
        Defect::Large => text_numbers::put_bytes(message, b"a number above 4294967295"),
        Defect::Beyond(v) => text_numbers::put_decimal(message, u64::from(v)),
    }
}

// The limits of field k of the lines with this letter.
#[tactic(auto, unfolding(text::specs::Ascii::ascii, text::specs::Decimal::digits))]
fn limit_of(b: u8, k: usize) -> &'static [u8]
    ensures { (result.now ≡ limit_text b k) × (length result.now ≤ 22) }
{
    match (script_flaw::arity_of(b), k) {
        (Some(5), 2) => b"1, 2, 4 or 8",
        (Some(5), 3) => b"1 to 8",
        (Some(5), 4) => b"1 to 16",
        (Some(5), _) => b"1 to 4096",
        _ => b"a register from 0 to 7",
    }
}

// What a field should be.
#[tactic(auto, unfolding(text::specs::Ascii::ascii))]
pub fn expected_of(b: u8, k: usize, d: Defect) -> &'static [u8]
    ensures { (result.now ≡ expected_text b k d) × (length result.now ≤ 57) }
{
    match d {
        Defect::Beyond(_) => limit_of(b, k),
        _ => b"a number from 0 to 4294967295 without extra leading zeros",
    }
}
