// What every engine does on a table: what an execution at a position comes to, and the steps of the calls: an issue, an execution
// with an effect, a cut of the young end, and the commit of the oldest.
//
// Inner crate: a call of the buffer or of the machine checks first, then changes the table that it was passed with these. That a
// table which is changed fits its sizes each of them asks: a struct around it would have to keep that at every write.
#![tactic(auto)]

ghost use Rattle.std.specs.Prelude.{◌≡◌, true, false, IfOk, IfErr, ◌≤◌, ◌<◌, ◌+◌, ◌-◌, length};
ghost use Rattle.marks.specs.Stages.{width};
ghost use Rattle.table.specs.Fits.{Fits};
ghost use Rattle.table.specs.Limits.{banks_most, stages_most, slots, rows_in};
ghost use Rattle.table.specs.View.{stage_of};
ghost use Rattle.table.specs.Computed.Check.{lawful};
ghost use Rattle.engine.specs.declared.Refusal.TheVariants.{Rules};
ghost use Rattle.lookup.specs.Computed.Search.{marked_fate};
ghost use Rattle.engine.specs.Conditions.{faults};
ghost use Rattle.engine.specs.Opening.{fresh};
ghost use Rattle.engine.specs.Execution.{written};
ghost use Rattle.engine.specs.Part.{whole};
ghost use Rattle.engine.specs.Computed.Steps.{within, cut, grown, retired};
ghost use Rattle.engine.specs.Computed.Effect.{word_address, word_below, effect_in, apply_effect, answered};

use engine::{Action, Effect, Part, Refusal};
use lookup::Mark;
use marks::Circle;
use table::{ROWS, SLOTS, STAGES, Table, Ticket};
use table_rules::Fitted;

// The table as one that fits its sizes; refused where it breaks its rules.
pub fn checked<'a>(t: &'a Table) -> Result<Fitted<'a>, Refusal>
    ensures kept { IfOk result (λ f. (f.table ≡ t.entry) × (lawful t.now ≡ true)) }
    ensures broken { IfErr result (λ r. (r ≡ Rules) × (lawful t.now ≡ false)) }
{
    Fitted::of(t).ok_or(Refusal::Rules)
}

// A table with these sizes and nothing in it.
pub fn empty(banks: usize, rows: usize, stages: usize, words: usize) -> Table
    ensures { result ≡ fresh banks rows stages words }
{
    Table {
        banks,
        rows,
        stages,
        words,
        oldest: 0,
        live: 0,
        next: 0,
        executed: 0,
        numbers: [0; STAGES],
        addresses: [0; SLOTS],
        loads: [0; SLOTS],
        stores: [0; SLOTS],
        values: [0; STAGES],
        taken: [0; STAGES],
    }
}

// The word `w` with the part of `v` at byte `b` in it.
fn merge(part: Part, b: u32, w: u32, v: u32) -> u32
    ensures { result ≡ whole part b w v }
{
    match part {
        Part::Byte => match b % 4 {
            0 => w / 256 * 256 + v % 256,
            1 => w / 65536 * 65536 + v % 256 * 256 + w % 256,
            2 => w / 16777216 * 16777216 + v % 256 * 65536 + w % 65536,
            _ => v % 256 * 16777216 + w % 16777216,
        },
        Part::Half => {
            if b % 4 < 2 {
                w / 65536 * 65536 + v % 65536
            } else {
                v % 65536 * 65536 + w % 65536
            }
        }
    }
}

// The number of the word that the action goes to; any, 0, where it has none. One test on the number that every action has: a
// division in an arm of its own would be one jump more that depends on what is executed.
pub fn word_address(action: Action) -> u32
    ensures { result ≡ word_address action }
{
    let n = match action {
        Action::Compute(_) => 0,
        Action::LoadAt(a) | Action::StoreAt(a, _) => a,
        Action::PartAt(_, b, _) => b,
    };
    if matches!(action, Action::PartAt(_, _, _)) {
        return n / 4;
    }
    n
}

// The memory's word there: what stands below the table.
pub fn word_below(memory: &[u32], action: Action) -> u32
    ensures { result ≡ word_below memory.now action }
{
    lookup_marks::word(memory, word_address(action))
}

// What the action comes to at position `p`, where `below` stands below the table at its word.
pub fn effect_of(t: Fitted, p: usize, action: Action, below: u32) -> Effect
    requires { p < t.table.now.live }
    ensures { result ≡ effect_in t.entry.table.now p below action }
{
    match action {
        Action::Compute(v) => Effect {
            load: false,
            store: false,
            row: 0,
            word: 0,
            left: t.table.live,
            value: v,
            address: 0,
            distance: 0,
            taken: 0,
        },
        Action::LoadAt(a) => {
            let place = lookup_rows::place_of(t.table, a, p);
            let found = lookup_marks::forwarded(t.table, place.row, p, below);
            Effect {
                load: true,
                store: false,
                row: place.row,
                word: a,
                left: place.left,
                value: found.word,
                address: a,
                distance: found.distance,
                taken: found.word,
            }
        }
        Action::StoreAt(a, v) => {
            let place = lookup_rows::place_of(t.table, a, p);
            Effect {
                load: false,
                store: true,
                row: place.row,
                word: a,
                left: lookup_rows::left_after(t.table, place, p, v),
                value: v,
                address: a,
                distance: 0,
                taken: 0,
            }
        }
        Action::PartAt(part, b, v) => {
            let a = b / 4;
            let place = lookup_rows::place_of(t.table, a, p);
            let found = lookup_marks::forwarded(t.table, place.row, p, below);
            let word = merge(part, b, found.word, v);
            Effect {
                load: true,
                store: true,
                row: place.row,
                word: a,
                left: lookup_rows::left_after(t.table, place, p, word),
                value: word,
                address: b,
                distance: 0,
                taken: found.word,
            }
        }
    }
}

// Drops every mark outside the set `stay`.
pub fn keep(words: &mut [u32; SLOTS], banks: usize, stay: u32)
    requires { banks ≤ banks_most }
    ensures { words.new ≡ within (rows_in banks) words.old stay }
{
    for i in 0..banks * ROWS {
        words[i] &= stay;
    }
}

// The first `left` references stay.
pub fn cut(t: &mut Table, left: usize)
    requires { (t.old.banks ≤ banks_most) × (t.old.oldest < t.old.stages) × (left ≤ t.old.stages) × (t.old.stages ≤ width) }
    ensures { t.new ≡ cut t.old left }
{
    if left < t.live {
        let stay = table_rules::circle_of(t).first_stages(left);
        keep(&mut t.loads, t.banks, stay);
        keep(&mut t.stores, t.banks, stay);
    }
    t.live = left;
}

// A new youngest reference takes the next stage.
pub fn grow(t: &mut Table) -> Ticket
    requires { Fits t.old × (t.old.live < t.old.stages) }
    ensures table { t.new ≡ grown t.old }
    ensures ticket { result ≡ record { stage = stage_of t.old t.old.live; number = t.old.next } }
{
    let circle = table_rules::circle_of(t);
    let stage = circle.stage_at(t.live);
    let number = t.next;
    t.executed &= circle.first_stages(t.live);
    t.live += 1;
    t.next = number.wrapping_add(1);
    t.numbers[stage] = number;
    Ticket { stage, number }
}

// The reference at stage `s` has executed with this effect: the first `left` references stay, and its row, its marks and its
// words are set. One way through, whatever is executed.
pub fn apply(t: &mut Table, effect: Effect, s: usize)
    requires { Fits t.old × (effect.left ≤ t.old.stages) × (effect.row < slots) × (s < stages_most) }
    ensures { t.new ≡ apply_effect t.old effect s }
{
    cut(t, effect.left);
    t.executed = marks::including(t.executed, s);
    if effect.load | effect.store {
        t.addresses[effect.row] = effect.word;
    }
    if effect.load {
        t.loads[effect.row] = marks::including(t.loads[effect.row], s);
        t.taken[s] = effect.taken;
    }
    if effect.store {
        t.stores[effect.row] = marks::including(t.stores[effect.row], s);
        t.values[s] = effect.value;
    }
}

// The oldest reference leaves the window.
pub fn retire(t: &mut Table)
    requires { Fits t.old × (0 < t.old.live) }
    ensures { t.new ≡ retired t.old }
{
    let circle = table_rules::circle_of(t);
    let oldest = circle.stage_at(1);
    let rest = Circle {
        oldest,
        stages: t.stages,
    };
    let stay = rest.first_stages(t.live - 1);
    keep(&mut t.loads, t.banks, stay);
    keep(&mut t.stores, t.banks, stay);
    t.oldest = oldest;
    t.live -= 1;
}

// The value that an execution with these marks answers: a load's, else 0.
pub fn answered(load: bool, store: bool, value: u32) -> u32
    ensures { result ≡ answered load store value }
{
    if load & !store { value } else { 0 }
}

// Whether the mark's address is `words` or more.
pub fn mark_faults(mark: Mark, words: usize) -> bool
    ensures { result ≡ faults words (marked_fate mark) }
{
    match mark {
        Mark::Absent => false,
        Mark::Load(a) | Mark::Store(a, _) => words <= a as usize,
    }
}

// Writes a store's word to memory.
pub fn write_back(memory: &mut [u32], mark: Mark)
    requires { faults (length memory.old) (marked_fate mark) ≡ false }
    ensures { memory.new ≡ written memory.old (marked_fate mark) }
{
    if let Mark::Store(a, v) = mark {
        memory[a as usize] = v;
    }
}
