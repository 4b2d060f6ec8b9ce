// What the marks of a table say: the word of a memory, the nearest older store, the first younger mark, the marks of a stage.
//
// Inner crate: helpers on lent tables. Positions are of the table's window. Each asks of the table what it goes by and no more, as
// its callers know it: a type with all that a table fits (`Fitted`) would ask more of them.
#![tactic(auto)]

ghost use Rattle.std.specs.Prelude.{◌≡◌, ◌-◌, ◌≤◌, ◌<◌, get_or};
ghost use Rattle.table.specs.Limits.{banks_most, stages_most, slots};
ghost use Rattle.lookup.specs.Computed.Search.{seek, marked, nearest, forward_in, violation_in, mark_in};

use lookup::{Mark, Taken};
use marks::Circle;
use table::{ROWS, Table};

// The memory word at `address`, 0 past the end.
pub fn word(memory: &[u32], address: u32) -> u32
    ensures { result ≡ get_or memory.now address 0 }
{
    memory.get(address as usize).copied().unwrap_or(0)
}

// How many positions older than position `p` the nearest mark of `stores` is, or 0: 01's number for memory, which is answered.
pub fn nearest_store(circle: Circle, stores: u32, p: usize) -> usize
    requires { p ≤ circle.stages }
    ensures { result ≡ nearest circle.oldest circle.stages stores p }
{
    for q in (0..p).rev() {
        if marks::contains(stores, circle.stage_at(q)) {
            return p - q;
        }
    }
    0
}

// What a load at position `p` takes from row `r`: the nearest older store's word, else `memory`.
pub fn forwarded(t: &Table, r: usize, p: usize, memory: u32) -> Taken
    requires { (t.now.oldest < t.now.stages) × (p ≤ t.now.stages) × (t.now.stages ≤ stages_most) × (r < slots) }
    ensures { result ≡ forward_in t.now r p memory }
{
    let circle = table_rules::circle_of(t);
    let d = nearest_store(circle, t.stores[r], p);
    if d == 0 {
        return Taken {
            word: memory,
            distance: 0,
        };
    }
    let word = t.values[circle.stage_at(p - d)];
    Taken {
        word,
        distance: d as u32,
    }
}

// The first position from `from` on, below `live`, that is marked in `set`; `live` where none is.
pub fn next_mark(circle: Circle, live: usize, set: u32, from: usize) -> usize
    requires { (live ≤ circle.stages) × (from ≤ live) }
    ensures { (result ≤ live) × (result ≡ seek (marked circle.oldest circle.stages set) (live - from) from) }
{
    for q in from..live {
        if marks::contains(set, circle.stage_at(q)) {
            return q;
        }
    }
    live
}

// How many references a store of the word `v` at position `p` leaves in its address's row, which has these marks.
pub fn first_met(t: &Table, load: u32, store: u32, p: usize, v: u32) -> usize
    requires { (t.now.oldest < t.now.stages) × (t.now.live ≤ t.now.stages) × (t.now.stages ≤ stages_most) × (p < t.now.live) }
    ensures { result ≡ violation_in t.now load store p v }
{
    let circle = table_rules::circle_of(t);
    let live = t.live;
    let q = next_mark(circle, live, load | store, p + 1);
    if q < live {
        let s = circle.stage_at(q);
        if marks::contains(load, s) & (t.taken[s] != v) {
            return q;
        }
    }
    live
}

// What the marks of the banks in use say of stage `s`.
pub fn mark_at(t: &Table, s: usize) -> Mark
    requires { (t.now.banks ≤ banks_most) × (s < stages_most) }
    ensures { result ≡ mark_in t.now s }
{
    for r in (0..t.banks * ROWS).rev() {
        if marks::contains(t.stores[r], s) {
            return Mark::Store(t.addresses[r], t.values[s]);
        }
        if marks::contains(t.loads[r], s) {
            return Mark::Load(t.addresses[r]);
        }
    }
    Mark::Absent
}
