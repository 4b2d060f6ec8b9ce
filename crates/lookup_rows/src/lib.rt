// The rows of a bank: the row of an address, a free row, the row to evict, and with them the place of an execution.
//
// Inner crate: helpers on lent tables. Positions are of the table's window; a row is found by its place in its bank. Each asks of
// the table what it goes by and no more, as its callers know it: a type with all that a table fits (`Fitted`) would ask more.
#![tactic(auto)]

ghost use Rattle.std.specs.Prelude.{◌≡◌, ◌≤◌, ◌<◌};
ghost use Rattle.table.specs.Limits.{banks_most, rows_most, stages_most, slots};
ghost use Rattle.lookup.specs.Computed.Search.{one_more, marks_in, opened_in, evicted_in, free_in, allocated_in, row_in, place_in, left_in};

use lookup::Place;
use table::{ROWS, Table};

// The marks of bank `b`, as one set of stages.
fn bank_marks(t: &Table, b: usize) -> u32
    requires { (t.now.rows ≤ rows_most) × (b < banks_most) }
    ensures { result ≡ marks_in t.now b }
{
    let mut set = 0;
    for i in 0..t.rows {
        set |= table_rules::marks_in(t, b * ROWS + i);
    }
    set
}

// The place in bank `b` of the row whose oldest mark is at position `q`.
fn row_opened(t: &Table, b: usize, q: usize) -> Option<usize>
    requires window { (t.now.oldest < t.now.stages) × (t.now.live ≤ t.now.stages) × (t.now.stages ≤ stages_most) × (q < t.now.live) }
    requires bank { (t.now.rows ≤ rows_most) × (b < banks_most) }
    ensures within { one_more result ≤ t.now.rows }
    ensures found { one_more result ≡ opened_in t.now b q }
{
    let circle = table_rules::circle_of(t);
    let older = circle.first_stages(q);
    let s = circle.stage_at(q);
    for i in (0..t.rows).rev() {
        let set = table_rules::marks_in(t, b * ROWS + i);
        if marks::contains(set, s) & ((set & older) == 0) {
            return Some(i);
        }
    }
    None
}

// The row of bank `b` to evict for a reference at position `p`. From the youngest position down to `p` the walk jumps to the next
// marked one, by the leading zeros of the bank's turned marks; the first that is the oldest mark of a row decides.
fn evict_row(t: &Table, b: usize, p: usize) -> Place
    requires window { (t.now.oldest < t.now.stages) × (t.now.live ≤ t.now.stages) × (t.now.stages ≤ stages_most) }
    requires bank { (t.now.rows ≤ rows_most) × (b < banks_most) }
    ensures { result ≡ evicted_in t.now b p }
{
    let mut unseen = table_rules::circle_of(t).turned(t.live, bank_marks(t, b));
    // over the marks and not the positions: the form that 02 names for the search
    while 0 < unseen {
        let q = marks::highest(unseen);
        if q <= p {
            return Place { row: 0, left: 0 };
        }
        if let Some(i) = row_opened(t, b, q) {
            return Place {
                row: b * ROWS + i,
                left: q,
            };
        }
        unseen = marks::excluding(unseen, q);
    }
    Place { row: 0, left: 0 }
}

// The place in bank `b` of a free row.
fn free_row(t: &Table, b: usize) -> Option<usize>
    requires { (t.now.rows ≤ rows_most) × (b < banks_most) }
    ensures within { one_more result ≤ t.now.rows }
    ensures found { one_more result ≡ free_in t.now b }
{
    for i in (0..t.rows).rev() {
        if table_rules::marks_in(t, b * ROWS + i) == 0 {
            return Some(i);
        }
    }
    None
}

// A row of bank `b` for an address that has none, for a reference at position `p`.
pub fn take_row(t: &Table, b: usize, p: usize) -> Place
    requires window { (t.now.oldest < t.now.stages) × (t.now.live ≤ t.now.stages) × (t.now.stages ≤ stages_most) }
    requires bank { (t.now.rows ≤ rows_most) × (b < banks_most) }
    ensures { result ≡ allocated_in t.now b p }
{
    match free_row(t, b) {
        Some(i) => Place {
            row: b * ROWS + i,
            left: t.live,
        },
        None => evict_row(t, b, p),
    }
}

// The place in bank `b` of the row of address `a`.
pub fn row_of(t: &Table, b: usize, a: u32) -> Option<usize>
    requires { (t.now.rows ≤ rows_most) × (b < banks_most) }
    ensures within { one_more result ≤ t.now.rows }
    ensures found { one_more result ≡ row_in t.now b a }
{
    for i in (0..t.rows).rev() {
        let r = b * ROWS + i;
        if (table_rules::marks_in(t, r) != 0) & (t.addresses[r] == a) {
            return Some(i);
        }
    }
    None
}

// The row in which an execution at position `p` to address `a` is marked, and how many references stay.
pub fn place_of(t: &Table, a: u32, p: usize) -> Place
    requires banks { (0 < t.now.banks) × (t.now.banks ≤ banks_most) × (t.now.rows ≤ rows_most) }
    requires window { (t.now.oldest < t.now.stages) × (t.now.live ≤ t.now.stages) × (t.now.stages ≤ stages_most) }
    ensures within { result.row < slots }
    ensures place { result ≡ place_in t.now a p }
{
    let b = table_rules::bank_of(t.banks, a);
    match row_of(t, b, a) {
        Some(i) => Place {
            row: b * ROWS + i,
            left: t.live,
        },
        None => take_row(t, b, p),
    }
}

// How many references stay of a store of the word `v` at position `p` that is given this place: the first younger load of the
// address, if it took another word, is squashed.
pub fn left_after(t: &Table, place: Place, p: usize, v: u32) -> usize
    requires { (t.now.oldest < t.now.stages) × (t.now.live ≤ t.now.stages) × (t.now.stages ≤ stages_most) × (p < t.now.live) × (place.row < slots) }
    ensures { result ≡ left_in t.now place p v }
{
    if place.left < t.live {
        return place.left;
    }
    lookup_marks::first_met(t, t.loads[place.row], t.stores[place.row], p, v)
}
