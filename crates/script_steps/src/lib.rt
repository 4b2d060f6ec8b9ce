// What the player's loop is made of: what a line asks for, how a script ends, and small steps on lent slices and numbers.
#![tactic(auto)]

ghost use Rattle.std.specs.Prelude.{◌≡◌, ◌+◌, ◌≤◌, ◌<◌, length, take};
ghost use Rattle.marks.specs.Circle.{stage};
ghost use Rattle.machine_model.specs.Contract.{plain, finish_says};
ghost use Rattle.sequential.specs.Play.{commits_in};
ghost use Rattle.script_model.specs.Output.{faulted, ending};
ghost use Rattle.player_model.specs.Playing.{one_more, ask_in, order_at, longest, Writes};
ghost use Rattle.player_model.specs.Playing as steps;

use engine::Refusal;
use machine_model::{Entry, Kind, Machine};
use player_model::{Ask, Order, Phase};
use script_model::{Ending, Item};
use script_printing::Lines;
use text::Line;
use text_lines::Taken;

// One more; the largest number stays.
pub fn one_more(n: u64) -> u64
    ensures { result ≡ one_more n }
{
    n.saturating_add(1)
}

// Whether an entry has executed at an address outside the memory, or as an H at an odd byte number.
fn has_faulted(e: Entry, words: usize) -> bool
    ensures { result ≡ faulted words e }
{
    let accesses = matches!(
        machine_isa::entry_kind(e),
        Some(Kind::Loading | Kind::Storing | Kind::Merging)
    );
    (accesses && words <= machine_isa::entry_place(e) as usize) || machine_isa::is_misaligned(e)
}

// The stage of position 0.
fn first_stage(oldest: usize, stages: usize) -> usize
    ensures { result ≡ stage oldest stages 0 }
{
    if oldest < stages {
        return oldest;
    }
    oldest - stages
}

// How a script ends that left this machine.
pub fn ending_of(m: &Machine) -> Ending
    ensures { result ≡ ending (plain m.now) }
{
    let live = m.table.live;
    if live == 0 {
        if m.count <= m.next {
            return Ending::Done;
        }
        return Ending::Open;
    }
    let first = first_stage(m.table.oldest, m.table.stages);
    let Some(&e) = m.window.get(first) else {
        return Ending::Open;
    };
    if has_faulted(e, m.table.words) {
        return Ending::Fault;
    }
    Ending::Open
}

// How many commits a finish made.
pub fn commits_of(said: Result<usize, Refusal>) -> usize
    ensures { result ≡ commits_in (finish_says said) }
{
    said.unwrap_or(0)
}

// What this item of line `line` asks for; any item that is no step makes a bad line.
fn ask_of(item: Item, line: u64) -> Ask
    ensures { result ≡ ask_in item line }
{
    match item {
        Item::Malformed | Item::Sizes(..) | Item::Operation(..) => Ask::Turn(Phase::Bad(line)),
        Item::Issue => Ask::Issue,
        Item::Execute(k) => Ask::Execute(k),
        Item::Squash(k) => Ask::Squash(k),
        Item::Commit => Ask::Commit,
        Item::Finish(k) => Ask::Turn(Phase::Finishing(k)),
    }
}

// What the line at `cursor` asks for, which has number `line`.
pub fn next_order(s: &[u8], cursor: usize, line: u64) -> Order
    ensures { result ≡ order_at s.now cursor line }
{
    let Taken { line: found, next } = text_lines::take_line(s, cursor);
    match found {
        Line::End => Order {
            ask: Ask::Turn(Phase::Words(0)),
            cursor: next,
            line,
        },
        Line::Unended(_) => Order {
            ask: Ask::Turn(Phase::Bad(line)),
            cursor: next,
            line,
        },
        Line::Whole(from, to) => {
            let item = script_reading::read_item(&s[from..to]);
            Order {
                ask: ask_of(item, line),
                cursor: next,
                line: one_more(line),
            }
        }
    }
}

// The line of the word at address `a`; a word of 0 has none.
pub fn word_line_at(memory: &[u32], a: usize) -> Lines
    requires { a < length memory.now }
    ensures { result.items ≡ steps.word_line_at memory.now a }
{
    match memory[a] {
        0 => Lines::new(),
        v => script_printing::word_line(a, v),
    }
}

// Writes it into a buffer that has room for a step's lines. A word of 0 is passed over at once: most words of a memory are.
pub fn put_word_at(memory: &[u32], a: usize, out: &mut [u8], at: usize) -> usize
    requires a_in_bounds { a < length memory.now }
    requires longest_in_bounds { at + longest ≤ length out.old }
    ensures writes { Writes out.old at (steps.word_line_at memory.now a) out.new result }
    ensures upper_bound { result ≤ at + longest }
{
    if memory[a] == 0 {
        return at;
    }
    script_printing::put(out, at, &word_line_at(memory, a))
}

// How many places of the lent program are in use.
pub fn places(program: &[u32], used: usize) -> usize
    ensures { (result ≤ length program.now) × (take result program.now ≡ take used program.now) }
{
    used.min(program.len())
}
