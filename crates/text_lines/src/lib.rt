// A reader that hands out one line of a text after another. No function that is public asks for anything.
#![tactic(auto)]

ghost use Rattle.std.specs.Prelude.{◌≡◌, ◌==◌, ℕ, ◌+◌, ◌^◌, ◌<◌, position};
ghost use Rattle.text.specs.Lines.{line_at, after_line};
ghost use Rattle.text.specs.declared.Line.TheVariants.{Whole};

use text::Line;

// Where the first line feed stands.
fn find_feed(s: &[u8]) -> Option<usize>
    ensures { result ≡ position (λ b. b == 10) s.now }
{
    s.iter().position(|b| *b == b'\n')
}

// The line that begins at `at`.
fn line_at(s: &[u8], at: usize) -> Line
    ensures { result ≡ line_at s.now at }
{
    if s.len() <= at {
        return Line::End;
    }
    match find_feed(&s[at..]) {
        Some(n) => Line::Whole(at, at + n),
        None => Line::Unended(at),
    }
}

// Where a reader stands that stood at `at` and handed out this line.
fn place_after(line: Line, at: usize) -> usize
    requires { (from to : ℕ) → line ≡ Whole from to → to + 1 < 2 ^ 64 }
    ensures { result ≡ after_line line at }
{
    match line {
        Line::End | Line::Unended(_) => at,
        Line::Whole(_, to) => to + 1,
    }
}

// A reader over a lent text: the text, and where its next line begins.
#[derive(Drop)]
pub struct LineReader<'a> {
    pub src: &'a [u8],
    pub at: usize,
}

// A reader that stands at `at`.
pub fn read_from<'a>(src: &'a [u8], at: usize) -> LineReader<'a>
    ensures { (result.src ≡ src.entry) × (result.at ≡ at) }
{
    LineReader { src, at }
}

// Hands out the next line, and moves the reader behind it.
pub fn next_line<'s, 'a>(r: &'s mut LineReader<'a>) -> Line
    ensures { (result ≡ line_at r.old.src.now r.old.at) × (r.new.src ≡ r.old.src)
        × (r.new.at ≡ after_line result r.old.at) }
{
    let line = line_at(r.src, r.at);
    r.at = place_after(line, r.at);
    line
}

// A line that a reader handed out, and where the reader stands then.
#[derive(Drop)]
pub struct Taken {
    pub line: Line,
    pub next: usize,
}

// What a reader over s that stands at `at` hands out.
pub fn take_line(s: &[u8], at: usize) -> Taken
    ensures { (result.line ≡ line_at s.now at) × (result.next ≡ after_line (line_at s.now at) at) }
{
    let mut r = read_from(s, at);
    let line = next_line(&mut r);
    Taken { line, next: r.at }
}
