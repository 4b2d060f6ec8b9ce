// The check of a table's own rules, the bank of an address, and whether a ticket names a live reference.
//
// Inner crate: callers show the bounds that each `requires` names. A table is lent, so that no call copies it.
#![tactic(auto)]

ghost use Rattle.std.specs.Prelude.{◌≡◌, ◌+◌, ◌*◌, ◌≤◌, ◌<◌, drop, is_some, IfSome};
ghost use Rattle.marks.specs.Stages.{width};
ghost use Rattle.marks.specs.Counting.{every};
ghost use Rattle.table.specs.Limits.{banks_most, rows_most, slots, rows_in, sizes_fit};
ghost use Rattle.table.specs.Bank.{bank};
ghost use Rattle.table.specs.Fits.{Fits, Lengths};
ghost use Rattle.table.specs.Computed.Naming.{names};
ghost use Rattle.table.specs.Computed.Check.{marks_of, marks_below, other_address, row_fits, usable, lawful};

use marks::Circle;
use table::{BANKS, ROWS, STAGES, Table, Ticket, WORDS};

// The circle of a table's stages.
pub fn circle_of(t: &Table) -> Circle
    requires { (t.now.oldest < t.now.stages) × (t.now.stages ≤ width) }
    ensures { (result.oldest ≡ t.now.oldest) × (result.stages ≡ t.now.stages) }
{
    Circle {
        oldest: t.oldest,
        stages: t.stages,
    }
}

// A table whose sizes lie in their limits and whose window lies in its stages, lent: what every search of a table goes by.
#[derive(Clone, Copy)]
pub struct Fitted<'a> {
    pub table: &'a Table,
    pub ghost fits: { Fits table.now },
}

impl<'a> Fitted<'a> {
    // The table, if it keeps its own rules.
    pub fn of(table: &'a Table) -> Option<Fitted<'a>>
        ensures kept { is_some result ≡ lawful table.now }
        ensures same { IfSome result (λ f. f.table ≡ table.entry) }
    {
        if !keeps_rules(table) {
            return None;
        }
        Some(Fitted { table })
    }
}

impl Fitted<'_> {
    // The circle of its stages.
    pub fn circle(self) -> Circle
        ensures { (result.oldest ≡ self.entry.table.now.oldest) × (result.stages ≡ self.entry.table.now.stages) }
    {
        circle_of(self.table)
    }

    // Whether the ticket names a live reference.
    pub fn names(self, ticket: Ticket) -> bool
        ensures { result ≡ names self.entry.table.now ticket }
    {
        let s = ticket.stage;
        if s >= self.table.stages {
            return false;
        }
        (self.circle().position_of(s) < self.table.live) & (self.table.numbers[s] == ticket.number)
    }
}

// How many remainders have a home, and the home (bank hash) of an address, at its remainder.
const REMAINDERS: usize = 64;

const HOMES: [u8; REMAINDERS] = [
    0, 1, 2, 3, 4, 5, 6, 7, 0, 1, 2, 3, 4, 5, 6, 7, 0, 1, 2, 3, 4, 5, 6, 7, 0, 1, 2, 3, 4, 5, 6, 7,
    0, 1, 2, 3, 4, 5, 6, 7, 0, 1, 2, 3, 4, 5, 6, 7, 0, 1, 2, 3, 4, 5, 6, 7, 0, 1, 2, 3, 4, 5, 6, 7,
];

// The bank of an address.
pub fn bank_of(banks: usize, address: u32) -> usize
    requires { 0 < banks }
    ensures { result ≡ bank banks address }
{
    let home = HOMES[address as usize % REMAINDERS];
    (home as usize) % banks
}

// Whether the sizes lie in their limits.
pub fn sizes_fit(banks: usize, rows: usize, stages: usize, words: usize) -> bool
    ensures { result ≡ sizes_fit banks rows stages words }
{
    ((banks == 1) | (banks == 2) | (banks == 4) | (banks == BANKS))
        & ((1 <= rows) & (rows <= ROWS))
        & ((1 <= stages) & (stages <= STAGES))
        & ((1 <= words) & (words <= WORDS))
}

// The stages that bear a mark in row `r`.
pub fn marks_in(t: &Table, r: usize) -> u32
    requires { r < slots }
    ensures { result ≡ marks_of t.now.loads t.now.stores r }
{
    t.loads[r] | t.stores[r]
}

// Whether no marked row among the first `i` of bank `b` has address `a`.
pub fn address_alone(t: &Table, b: usize, a: u32, i: usize) -> bool
    requires { (b < banks_most) × (i < rows_most) }
    ensures { result ≡ every (other_address t.now.addresses t.now.loads t.now.stores b a) i }
{
    let mut alone = true;
    for k in 0..i {
        let r = b * ROWS + k;
        alone = alone & ((marks_in(t, r) == 0) | !(t.addresses[r] == a));
    }
    alone
}

// Whether row `r` is free or keeps the rules, given the live executed stages and those that the rows before it have marked.
pub fn row_fits(t: &Table, allowed: u32, before: u32, r: usize) -> bool
    requires { (r < slots) × (0 < t.now.banks) × (before ≡ marks_below t.now.loads t.now.stores r) }
    ensures { result ≡ row_fits t.now.banks t.now.rows allowed t.now.addresses t.now.loads t.now.stores r }
{
    let marks = marks_in(t, r);
    if marks == 0 {
        return true;
    }
    let address = t.addresses[r];
    let own = ((marks & allowed) == marks)
        & ((marks & before) == 0)
        & (r / ROWS == bank_of(t.banks, address))
        & (r % ROWS < t.rows);
    own & address_alone(t, r / ROWS, address, r % ROWS)
}

// The stages that bear a mark in `count` rows from row `first` on.
pub fn marks_from(t: &Table, first: usize, count: usize) -> u32
    requires { first + count ≤ slots }
    ensures { result ≡ marks_below (drop first t.now.loads) (drop first t.now.stores) count }
{
    let mut all = 0;
    for i in 0..count {
        all |= marks_in(t, first + i);
    }
    all
}

// Whether every row of bank `b` is free or keeps the rules, given the stages that the rows before the bank have marked.
pub fn bank_fits(t: &Table, allowed: u32, before: u32, b: usize) -> bool
    requires { (b < banks_most) × (0 < t.now.banks) × (before ≡ marks_below t.now.loads t.now.stores (b * rows_most)) }
    ensures { result
        ≡ every (λ i. row_fits t.now.banks t.now.rows allowed t.now.addresses t.now.loads t.now.stores
        (b * rows_most + i)) rows_most }
{
    let mut fit = true;
    let mut marked = before;
    for i in 0..ROWS {
        let r = b * ROWS + i;
        fit = fit & row_fits(t, allowed, marked, r);
        marked = marked | marks_in(t, r);
    }
    fit
}

// Whether every row of the banks in use is free or keeps the rules. The rows of a bank without marks are free, and none of
// them is checked.
pub fn rows_fit(t: &Table, allowed: u32) -> bool
    requires { (0 < t.now.banks) × (t.now.banks ≤ banks_most) }
    ensures { result
        ≡ every (row_fits t.now.banks t.now.rows allowed t.now.addresses t.now.loads t.now.stores)
        (rows_in t.now.banks) }
{
    let mut fit = true;
    let mut before = 0;
    for b in 0..t.banks {
        let used = marks_from(t, b * ROWS, ROWS);
        if used != 0 {
            fit = fit & bank_fits(t, allowed, before, b);
        }
        before = before | used;
    }
    fit
}

// Whether a table keeps its own rules.
pub fn keeps_rules(t: &Table) -> bool
    ensures kept { result ≡ lawful t.now }
    ensures lengths { Lengths t.now }
{
    let &Table {
        oldest,
        stages,
        live,
        ..
    } = t;
    if !sizes_fit(t.banks, t.rows, stages, t.words) {
        return false;
    }
    if live > stages {
        return false;
    }
    if oldest >= stages {
        return false;
    }
    let circle = Circle { oldest, stages };
    rows_fit(t, t.executed & circle.first_stages(live))
}
