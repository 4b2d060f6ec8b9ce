// Printing: the lines of commits, of memory words, of a bad line and of the end. `put` writes them into a lent buffer.
#![tactic(auto)]

ghost use Rattle.std.specs.Prelude.{◌≡◌, ◌+◌, ◌≤◌, ◌++◌, length};
ghost use Rattle.arrayvec.specs.ArrayVec.{array_vec_len};
ghost use Rattle.script_model.specs.Language.{letter};
ghost use Rattle.script_model.specs.Output as output;
ghost use Rattle.script_model.specs.Output.{number_field, pair_line, commit_line};
ghost use Rattle.player_model.specs.Playing.{longest, Writes};

use arrayvec::ArrayVec;
use player_model::LINE;
use script_model::{Ending, LETTERS};

// The lines that one step prints.
pub type Lines = ArrayVec<u8, LINE>;

// A number and the byte after it.
fn put_number(lines: &mut Lines, n: u64, after: u8)
    requires { array_vec_len lines.old + 21 ≤ longest }
    ensures text { lines.new.items ≡ lines.old.items ++ number_field n after }
    ensures len { array_vec_len lines.new ≤ array_vec_len lines.old + 21 }
{
    text_numbers::put_decimal(lines, n);
    lines.push(after);
}

// The letter of a code.
fn letter_of(code: u32) -> u8
    ensures { result ≡ letter code }
{
    LETTERS.get(code as usize).copied().unwrap_or(0)
}

// A line of a letter and two numbers.
fn put_pair(lines: &mut Lines, letter: u8, m: u64, n: u64)
    requires { array_vec_len lines.old + 44 ≤ longest }
    ensures text { lines.new.items ≡ lines.old.items ++ pair_line letter m n }
    ensures len { array_vec_len lines.new ≤ array_vec_len lines.old + 44 }
{
    text_numbers::put_bytes(lines, &[letter, b',']);
    put_number(lines, m, b',');
    put_number(lines, n, b'\n');
}

// A commit's own line.
fn put_commit(lines: &mut Lines, i: u32, code: u32, r: u32, v: u32)
    requires { array_vec_len lines.old + 65 ≤ longest }
    ensures { lines.new.items ≡ lines.old.items ++ commit_line i code r v }
{
    put_number(lines, u64::from(i), b',');
    text_numbers::put_bytes(lines, &[letter_of(code), b',']);
    put_number(lines, u64::from(r), b',');
    put_number(lines, u64::from(v), b'\n');
}

// A commit's lines: of an L its distance comes before.
pub fn committed_lines(i: u32, code: u32, r: u32, v: u32, d: u32) -> Lines
    ensures { result.items ≡ output.committed_lines i code r v d }
{
    let mut lines = Lines::new();
    if code == 3 {
        put_pair(&mut lines, b'f', u64::from(i), u64::from(d));
    }
    put_commit(&mut lines, i, code, r, v);
    lines
}

// A memory word's line.
pub fn word_line(address: usize, v: u32) -> Lines
    ensures { result.items ≡ output.word_line address v }
{
    let mut lines = Lines::new();
    put_pair(&mut lines, b'm', address as u64, u64::from(v));
    lines
}

// The line that names a bad line.
pub fn bad_line(n: u64) -> Lines
    ensures { result.items ≡ output.bad_line n }
{
    let mut lines = Lines::new();
    text_numbers::put_bytes(&mut lines, b"bad,");
    put_number(&mut lines, n, b'\n');
    lines
}

// The end line.
pub fn end_line(e: Ending, commits: u64) -> Lines
    ensures { result.items ≡ output.end_line e commits }
{
    let mut lines = Lines::new();
    let start: &[u8] = match e {
        Ending::Open => b"end,open,",
        Ending::Done => b"end,done,",
        Ending::Fault => b"end,fault,",
    };
    text_numbers::put_bytes(&mut lines, start);
    put_number(&mut lines, commits, b'\n');
    lines
}

// Writes the lines of a step into a buffer that has room for one.
pub fn put(out: &mut [u8], at: usize, lines: &Lines) -> usize
    requires { at + longest ≤ length out.old }
    ensures { Writes out.old at lines.now.items out.new result × (result ≤ at + longest) }
{
    text_numbers::put_text(out, at, lines)
}
