// Decimal numbers printed, and numbers parted by commas read. `put_decimal`, `put_bytes` and `put_text` ask for room.
#![tactic(auto)]

ghost use Rattle.std.specs.Prelude.{◌≡◌, ℕ, List, ◌+◌, ◌≤◌, ◌<◌, ◌++◌, length, Some, MatchOption};
ghost use Rattle.std.proofs.lemmas.List.Edits.{sets};
ghost use Rattle.arrayvec.specs.ArrayVec.{array_vec_len};
ghost use Rattle.text.specs.Decimal.{decimal};
ghost use Rattle.text.specs.Fields.{largest, bad, digit, byte, fields};
ghost use Rattle.text.specs.Computed.Reader.{few, opened, with_digit, shown, fitting, parsed_fields};

use arrayvec::ArrayVec;
use text::{FIELDS, Numbers};

// Appends n in decimal. There must be room for 20 digits, which is the most that a u64 has.
pub fn put_decimal<const N: usize>(line: &mut ArrayVec<u8, N>, n: u64)
    requires { array_vec_len line.old + 20 ≤ N }
    ensures text { line.new.items ≡ line.old.items ++ decimal n }
    ensures len { array_vec_len line.new ≤ array_vec_len line.old + 20 }
{
    put_bytes(line, itoa::Buffer::new().format(n).as_bytes());
}

// Appends the bytes of s. There must be room.
pub fn put_bytes<const N: usize>(line: &mut ArrayVec<u8, N>, s: &[u8])
    requires { array_vec_len line.old + length s.now ≤ N }
    ensures text { line.new.items ≡ line.old.items ++ s.now }
    ensures len { array_vec_len line.new ≡ array_vec_len line.old + length s.now }
{
    line.try_extend_from_slice(s).unwrap();
}

// Writes the bytes of s at `at`, and returns where they end.
pub fn put_text(out: &mut [u8], at: usize, s: &[u8]) -> usize
    requires { at + length s.now ≤ length out.old }
    ensures ended { result ≡ at + length s.now }
    ensures text { out.new ≡ sets out.old at s.now }
{
    let end = at + s.len();
    out[at..end].copy_from_slice(s);
    end
}

// What the open field becomes with the digit d: one that is 0 takes none, and none passes the largest number.
fn with_digit(field: Option<u32>, d: u32) -> Option<u32>
    requires { d < 10 }
    ensures { (ns : List ℕ) → with_digit ns result ≡ digit largest d (opened field) ns }
{
    match field {
        None => Some(d),
        Some(0) => None,
        Some(x) => x.checked_mul(10)?.checked_add(d),
    }
}

// One byte more, taken by the numbers lent: nothing where the line is no list of numbers, or has too many. They are lent, since
// numbers by value are copied twice a byte.
fn take_byte(n: &mut Numbers, b: u8) -> Option<()>
    ensures { MatchOption result (few (byte largest (shown (Some n.old)) b) ≡ bad)
        (λ taken. shown (Some n.new) ≡ few (byte largest (shown (Some n.old)) b)) }
{
    match b {
        b',' => {
            n.closed.try_push(n.open?).ok()?;
            n.open = None;
            Some(())
        }
        b'0'..=b'9' => {
            n.open = Some(with_digit(n.open, b as u32 - 48)?);
            Some(())
        }
        _ => None,
    }
}

// The same of numbers by value; of a line that was none already, nothing.
pub fn next_byte(n: Option<Numbers>, b: u8) -> Option<Numbers>
    ensures { shown result ≡ few (byte largest (shown n) b) }
{
    let mut n = n?;
    take_byte(&mut n, b)?;
    Some(n)
}

// The fields of the bytes of s, if they are numbers up to the largest parted by commas, not too many of them.
pub fn read_fields(s: &[u8]) -> Option<ArrayVec<u32, FIELDS>>
    ensures { parsed_fields result ≡ fitting (fields largest s.now) }
{
    let mut n = Numbers {
        closed: ArrayVec::new(),
        open: None,
    };
    for b in s {
        take_byte(&mut n, *b)?;
    }
    let Numbers { mut closed, open } = n;
    closed.try_push(open?).ok()?;
    Some(closed)
}
