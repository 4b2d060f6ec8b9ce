// The message that says why a script is bad, written into a lent buffer. `put_message` is to call, and requires nothing.
#![tactic(auto)]

ghost use Rattle.std.specs.Prelude.{◌≡◌, ◌++◌, ◌+◌, ◌≤◌, length};
ghost use Rattle.arrayvec.specs.ArrayVec.{array_vec_len};
ghost use Rattle.player_model.specs.Playing.{Writes};
ghost use Rattle.text.specs.Ascii.{ascii};
ghost use Rattle.text.specs.Decimal.{decimal};
ghost use Rattle.flaw_model.specs.Flaw.{arity};
ghost use Rattle.flaw_model.specs.Message.{byte_text, place_text, field_text, count_text, reason_text};
ghost use Rattle.flaw_model.specs.Message.{message_in, message_room, message_text};

use flaw_model::Defect;
pub use flaw_model::{Flaw, Reason};
pub use script_phrases::ROOM;
use script_phrases::{Message, expected_of, name_of, put_byte, put_form, put_found};
use text_numbers::{put_bytes, put_decimal};

// A field's number and name, with the form of its line.
#[tactic(auto, unfolding(text::specs::Ascii::ascii))]
fn put_place(message: &mut Message, b: u8, k: usize)
    requires { array_vec_len message.old + 102 ≤ message_room }
    ensures text { message.new.items ≡ message.old.items ++ place_text b k }
    ensures len { array_vec_len message.new ≤ array_vec_len message.old + 102 }
{
    put_bytes(message, b"field ");
    put_decimal(message, k as u64);
    put_bytes(message, b" (");
    put_bytes(message, name_of(b, k));
    put_bytes(message, b") of ");
    put_form(message, b);
}

// What is wrong with a field.
#[tactic(auto, unfolding(text::specs::Ascii::ascii))]
fn put_field(message: &mut Message, b: u8, k: usize, d: Defect)
    requires { array_vec_len message.old + 203 ≤ message_room }
    ensures text { message.new.items ≡ message.old.items ++ field_text b k d }
    ensures len { array_vec_len message.new ≤ array_vec_len message.old + 203 }
{
    put_place(message, b, k);
    put_bytes(message, b": found ");
    put_found(message, d);
    put_bytes(message, b", expected ");
    put_bytes(message, expected_of(b, k, d));
}

// How many fields the lines with this letter have, 0 where there is no such letter.
fn put_fields(message: &mut Message, b: u8)
    requires { array_vec_len message.old + 20 ≤ message_room }
    ensures text { message.new.items ≡ message.old.items ++ decimal (arity b) }
    ensures len { array_vec_len message.new ≤ array_vec_len message.old + 20 }
{
    let fields = script_flaw::arity_of(b).unwrap_or(0);
    put_decimal(message, fields as u64);
}

// A number of fields that is not the letter's.
#[tactic(auto, unfolding(text::specs::Ascii::ascii))]
fn put_count(message: &mut Message, b: u8, n: usize)
    requires { array_vec_len message.old + 203 ≤ message_room }
    ensures text { message.new.items ≡ message.old.items ++ count_text b n }
    ensures len { array_vec_len message.new ≤ array_vec_len message.old + 203 }
{
    put_bytes(message, b"fields: found ");
    put_decimal(message, n as u64);
    put_bytes(message, b", expected ");
    put_fields(message, b);
    put_bytes(message, b" as in ");
    put_form(message, b);
}

// A byte that was found, and a text.
#[tactic(auto, unfolding(text::specs::Ascii::ascii))]
fn put_other(message: &mut Message, b: u8, s: &[u8])
    requires { array_vec_len message.old + (31 + length s.now) ≤ message_room }
    ensures text { message.new.items ≡ message.old.items ++ (ascii "found " ++ byte_text b ++ s.now) }
    ensures len { array_vec_len message.new ≤ array_vec_len message.old + (31 + length s.now) }
{
    put_bytes(message, b"found ");
    put_byte(message, b);
    put_bytes(message, s);
}

// A reason.
#[tactic(auto, unfolding(text::specs::Ascii::ascii, text::specs::Decimal::digits))]
fn put_reason(message: &mut Message, r: Reason)
    requires { array_vec_len message.old + 203 ≤ message_room }
    ensures text { message.new.items ≡ message.old.items ++ reason_text r }
    ensures len { array_vec_len message.new ≤ array_vec_len message.old + 203 }
{
    match r {
        Reason::TooLong => put_bytes(
            message,
            b"found over 65536 bytes of input, expected at most 65536",
        ),
        Reason::NoInput => put_bytes(
            message,
            b"found no input, expected 'N,banks,rows,stages,words'",
        ),
        Reason::Blank => put_bytes(message, b"found an empty line, expected a letter"),
        Reason::Unended => put_bytes(
            message,
            b"found the end of input, expected a line feed first",
        ),
        Reason::CarriageReturn => put_bytes(
            message,
            b"found a carriage return, expected a line feed",
        ),
        Reason::NoSizes(b) => {
            put_other(message, b, b" first, expected 'N,banks,rows,stages,words'")
        }
        Reason::SizesAgain => put_bytes(
            message,
            b"found a second 'N' line, expected another letter",
        ),
        Reason::Letter(b) => put_other(message, b, b", expected A, P, L, S, B, H, i, e, q, c or x"),
        Reason::Glued(b, c) => {
            put_other(message, c, b" behind the letter, expected ");
            put_form(message, b);
        }
        Reason::Count(b, n) => put_count(message, b, n),
        Reason::Field(b, k, d) => put_field(message, b, k, d),
        Reason::Full => put_bytes(message, b"found a 257th instruction, expected at most 256"),
        Reason::Late => put_bytes(
            message,
            b"found an instruction after a step, expected a step",
        ),
    }
}

// The message of a flaw.
#[tactic(auto, unfolding(text::specs::Ascii::ascii))]
fn message_of(flaw: Flaw) -> Message
    ensures { result.items ≡ message_text flaw }
{
    let mut message = Message::new();
    put_bytes(&mut message, b"arb: line ");
    put_decimal(&mut message, flaw.line);
    put_bytes(&mut message, b": ");
    put_reason(&mut message, flaw.reason);
    put_bytes(&mut message, b"\n");
    message
}

// The message of a flaw, at the start of the buffer; nothing where there is no flaw, or where there may be no room.
pub fn put_message(out: &mut [u8], flaw: Result<u64, Flaw>) -> usize
    ensures { Writes out.old 0 (message_in out.old flaw) out.new result
        × (result ≤ length out.old) }
{
    match flaw {
        Err(flaw) if ROOM <= out.len() => text_numbers::put_text(out, 0, &message_of(flaw)),
        _ => 0,
    }
}
