// The window held to its table and to the program (`validate`, which every call asks first), and what an execute asks of the
// window alone (`asked_at`), with the search for operands. Inner: a machine is lent, so that no call copies it, and the functions
// require what their callers have shown; `validate` asks nothing.
#![tactic(auto)]

ghost use Rattle.std.specs.Prelude.{◌≡◌, ℕ, ◌≤◌, ◌<◌, get_or, length, IfOk, OnOk};
ghost use Rattle.std.proofs.Math.Option.{some};
ghost use Rattle.marks.specs.Circle.{stage};
ghost use Rattle.table.specs.Bank.{bank};
ghost use Rattle.table.specs.Limits.{stages_most};
ghost use Rattle.lookup.specs.Computed.Search.{one_more};
ghost use Rattle.engine.specs.Answers.{as_option, turned_down};
ghost use Rattle.machine_model.specs.Contract.{kind_of, place_of};
ghost use Rattle.machine_model.specs.Program.{registers_most};
ghost use Rattle.machine_model.specs.Tests.{validate_of};
ghost use Rattle.machine_model.specs.Window.{blank_entry, reference, register_seen, value_of};
ghost use Rattle.machine_laws.specs.Computed.Steps.{Sized};
ghost use Rattle.machine_laws.specs.Computed.Kinds.{access_number};
ghost use Rattle.machine_laws.specs.Computed.Parts.{destination_at, writer, marks_at, mark_number, agrees_by, agreeing_by};
ghost use Rattle.machine_laws.specs.Computed.Parts.{fitting_by, OperandsExist, entries_of, asked_of, asked_number};

use engine::Refusal;
use machine_model::{Asked, Entry, Fate, Kind, Machine, PER_INSTRUCTION, REGISTERS};
use marks::Circle;
use table::{ROWS, STAGES};
use table_rules::Fitted;

// The stages with a load mark and with a store mark in rows of one address.
#[derive(Clone, Copy)]
struct Marks {
    loads: u32,
    stores: u32,
}

// Those of address `a`. Every row of its bank is read: an early exit would be a branch to guess.
fn marks_at(t: Fitted, a: u32) -> Marks
    ensures { let t = t.entry.table.now in
        (result.loads ≡ marks_at t.addresses t.loads (bank t.banks a) a)
        × (result.stores ≡ marks_at t.addresses t.stores (bank t.banks a) a) }
{
    let table = t.table;
    let first = table_rules::bank_of(table.banks, a) * ROWS;
    let mut loads = 0;
    let mut stores = 0;
    for i in 0..ROWS {
        let r = first + i;
        if table.addresses[r] == a {
            loads |= table.loads[r];
            stores |= table.stores[r];
        }
    }
    Marks { loads, stores }
}

// What an entry with these marks did.
fn mark_kind(load: bool, store: bool) -> Kind
    ensures { access_number result ≡ mark_number load store }
{
    match (load, store) {
        (false, false) => Kind::Computing,
        (true, false) => Kind::Loading,
        (false, true) => Kind::Storing,
        (true, true) => Kind::Merging,
    }
}

// Whether an entry agrees with what the table's marks say of its stage `s`, where `marked` are the stages with a mark.
fn stage_agrees(t: Fitted, marked: u32, e: Entry, s: usize) -> bool
    requires { s < stages_most }
    ensures { let t = t.entry.table.now in
        result ≡ agrees_by t.banks t.executed marked t.addresses t.loads t.stores (kind_of (reference e)) (place_of (reference e)) s }
{
    let executed = t.table.executed;
    match machine_isa::entry_kind(e) {
        None => !marks::contains(executed, s),
        Some(Kind::Computing) => marks::contains(executed, s) & !marks::contains(marked, s),
        Some(kind) => {
            let at = marks_at(t, machine_isa::entry_place(e));
            kind == mark_kind(marks::contains(at.loads, s), marks::contains(at.stores, s))
        }
    }
}

// What one pass over the live entries says: whether window and table agree on them (executed or not, at which address and
// with which mark), and whether they are the program's.
#[derive(Clone, Copy)]
struct Pass {
    agrees: bool,
    fits: bool,
}

// That pass. It is safe for any program: what it says of one counts once the program is checked.
fn pass_over(t: Fitted, window: &[Entry; STAGES], program: &[u32]) -> Pass
    ensures agrees_value { let t = t.entry.table.now in
        result.agrees
        ≡ agreeing_by t.banks t.oldest t.stages t.executed t.addresses t.loads t.stores window.now t.live }
    ensures fits_value { let t = t.entry.table.now in
        result.fits ≡ fitting_by program.now t.oldest t.stages window.now t.live }
    ensures long { length window.now ≡ stages_most }
{
    let table = t.table;
    let circle = t.circle();
    let marked = table_rules::marks_from(table, 0, table.banks * ROWS);
    let mut agrees = true;
    let mut fits = true;
    for p in 0..table.live {
        let s = circle.stage_at(p);
        let e = window[s];
        agrees &= stage_agrees(t, marked, e, s);
        fits &= machine_isa::entry_fits(program, e);
    }
    Pass { agrees, fits }
}

// Which of the conditions 2, 3 and 4 holds first, of a call lent a memory of this length; else the machine's table, which fits
// its sizes.
pub fn validate<'a>(m: &'a Machine, program: &[u32], lent: usize) -> Result<Fitted<'a>, Refusal>
    ensures number { turned_down result ≡ validate_of m.now program.now lent }
    ensures table { IfOk result (λ f. f.table.now ≡ m.now.table) }
    ensures sized { OnOk result (Sized m.now) }
{
    let table = Fitted::of(&m.table).ok_or(Refusal::Rules)?;
    let pass = pass_over(table, &m.window, program);
    if !pass.agrees {
        return Err(Refusal::Rules);
    }
    if lent != m.table.words {
        return Err(Refusal::Memory);
    }
    if !machine_isa::program_fits(program) {
        return Err(Refusal::Program);
    }
    if program.len() != PER_INSTRUCTION * (m.count as usize) {
        return Err(Refusal::Program);
    }
    if !pass.fits {
        return Err(Refusal::Program);
    }
    Ok(table)
}

// The position of the nearest older writer of register `k`: the search goes on at the next older position.
fn writer_of(into: &[u32; STAGES], k: u32, p: usize) -> Option<usize>
    requires { p ≤ stages_most }
    ensures { (one_more result ≤ p) × (one_more result ≡ writer into.now k p) }
{
    let q = p.checked_sub(1)?;
    if into[q] == k {
        return Some(q);
    }
    writer_of(into, k, q)
}

// What an entry's register holds: its value, once it has executed.
fn operand_of(e: Entry) -> Option<u32>
    ensures { as_option result ≡ value_of e.fate }
{
    match e.fate {
        Fate::Waiting => None,
        Fate::Executed(v, _) => Some(v),
    }
}

// A window that lies in the stages of its circle, and the registers, lent: what the search for operands goes by.
#[derive(Clone, Copy)]
struct Held<'a> {
    window: &'a [Entry; STAGES],
    registers: &'a [u32; REGISTERS],
    circle: Circle,
    ghost narrow: { circle.stages ≤ stages_most },
}

impl Held<'_> {
    // The entry at position `p`.
    fn entry_at(self, p: usize) -> Entry
        requires { p < self.circle.stages }
        ensures { let h = self.entry in result ≡ get_or h.window.now (stage h.circle.oldest h.circle.stages p) blank_entry }
    {
        self.window[self.circle.stage_at(p)]
    }

    // The registers that the entries before position `p` write, by position: what the search for a writer reads.
    fn destinations(self, p: usize) -> [u32; STAGES]
        requires { p ≤ self.circle.stages }
        ensures { let h = self.entry in
            (q : ℕ) → q < p → get_or result q 0 ≡ destination_at h.window.now h.circle.oldest h.circle.stages q }
    {
        let mut into = [0; STAGES];
        for q in 0..p {
            let e = self.entry_at(q);
            into[q] = machine_isa::destination_of(e.instruction).unwrap_or(REGISTERS as u32);
        }
        into
    }

    // What register `k` holds for the entry at position `p`, if it is known: the value of its nearest older writer, or what is
    // committed where there is none.
    fn operand_at(self, into: &[u32; STAGES], k: u32, p: usize) -> Option<u32>
        requires within { (k < registers_most) × (p ≤ self.circle.stages) }
        requires packed { (q : ℕ) → q < p → get_or into.now q 0
            ≡ destination_at self.window.now self.circle.oldest self.circle.stages q }
        ensures { let h = self.entry in
            as_option result
            ≡ register_seen (entries_of h.window.now h.circle.oldest h.circle.stages p) k (some (get_or h.registers.now k 0)) }
    {
        match writer_of(into, k, p) {
            Some(q) => operand_of(self.entry_at(q)),
            None => Some(self.registers[k as usize]),
        }
    }
}

// What an execute at position `p` of `live` entries asks; refused where one of the conditions 7, 8 and 9 holds. It goes by the
// window and the registers alone.
pub fn asked_at(
    window: &[Entry; STAGES],
    registers: &[u32; REGISTERS],
    oldest: usize,
    stages: usize,
    live: usize,
    p: usize,
) -> Result<Asked, Refusal>
    requires oldest_lt_stages { (oldest < stages) × (live ≤ stages) × (stages ≤ stages_most) }
    requires operands_exist { p < live → OperandsExist (get_or window.now (stage oldest stages p) blank_entry).instruction }
    ensures number { turned_down result ≡ asked_number window.now registers.now oldest stages live p }
    ensures asked { IfOk result
        (λ a. (a.stage ≡ stage oldest stages p)
        × (a.entry ≡ get_or window.now (stage oldest stages p) blank_entry)
        × (asked_of window.now registers.now oldest stages p ≡ some a.action)) }
{
    if p >= live {
        return Err(Refusal::Unnamed);
    }
    let circle = Circle { oldest, stages };
    let held = Held {
        window,
        registers,
        circle,
    };
    let stage = circle.stage_at(p);
    let entry = window[stage];
    if !machine_isa::is_pending(entry) {
        return Err(Refusal::Executed);
    }
    let i = entry.instruction;
    let into = held.destinations(p);
    let x = held
        .operand_at(&into, machine_isa::s_of(i), p)
        .ok_or(Refusal::Operand)?;
    let y = held
        .operand_at(&into, machine_isa::second_of(i), p)
        .ok_or(Refusal::Operand)?;
    Ok(Asked {
        stage,
        entry,
        action: machine_isa::action_of(i, x, y),
    })
}
