// The steps that calls are made of: which condition of the window turns a call down, the issue of the next instruction, the execution
// of an entry, and the commit of the oldest to registers, memory and list. What the window alone decides looks into no table, so that
// a machine over another engine takes the same; the four steps that change a lent machine are the buffer's.
//
// Inner crate: callers show what each `requires` names. That the table fits is asked as in engine_steps.
#![tactic(auto)]

ghost use Rattle.std.specs.Prelude.{◌≡◌, false, Ok, cond, ◌+◌, ◌*◌, ◌≤◌, ◌<◌, length, get_or, ltb};
ghost use Rattle.std.proofs.lemmas.List.Edits.{sets};
ghost use Rattle.table.specs.Fits.{Fits};
ghost use Rattle.table.specs.Limits.{slots, stages_most};
ghost use Rattle.lookup.specs.Computed.Search.{marked_fate};
ghost use Rattle.engine.specs.Answers.{turned_down, says_executed};
ghost use Rattle.engine.specs.Conditions.{faults};
ghost use Rattle.engine.specs.Execution.{written};
ghost use Rattle.machine_model.specs.Program.{per_instruction, registers_most};
ghost use Rattle.machine_model.specs.Window.{entry_with, reference};
ghost use Rattle.machine_model.specs.Calls.{new_entry, value_by, registers_after, committed_says, per_commit};
ghost use Rattle.machine_model.specs.Contract.{commit_says};
ghost use Rattle.machine_laws.specs.Computed.Parts.{OperandsExist, action_by, mark_with, issue_number, commit_number};
ghost use Rattle.machine_laws.specs.Computed.Parts.{executed_says};
ghost use Rattle.machine_laws.specs.Computed.Steps.{own, own_mark, issued_over, executed_over, squashed_over, committed_over, numbers_of};
ghost use Rattle.machine_model.specs.declared.Fate.TheVariants as fates;

use engine::{Action, Effect, Executed, Refusal};
use lookup::Mark;
use machine_model::{Committed, Entry, Fate, Kind, Machine, PER_COMMIT, REGISTERS};

// Which of the conditions 5 and 6 turns down an issue, where no stage is left or one is.
pub fn issue_refusal(full: bool, count: u32, next: u32) -> Result<(), Refusal>
    ensures { turned_down result ≡ issue_number full count next }
{
    if full {
        return Err(Refusal::Full);
    }
    if count <= next {
        return Err(Refusal::Over);
    }
    Ok(())
}

// The entry of the program's instruction at this index, just issued.
pub fn entry_issued(program: &[u32], index: u32) -> Entry
    requires { (index * per_instruction + 3 < length program.now)
        × (get_or program.now (index * per_instruction + 1) 0 < registers_most)
        × (get_or program.now (index * per_instruction + 2) 0 < registers_most) }
    ensures { result ≡ new_entry program.now index }
{
    Entry {
        instruction: machine_isa::instruction_at(program, index as usize),
        index,
        fate: Fate::Waiting,
        distance: 0,
    }
}

// The next instruction takes the next stage.
pub fn issue_next(m: &mut Machine, program: &[u32])
    requires room { Fits m.old.table × (m.old.table.live < m.old.table.stages) × (m.old.next < m.old.count) }
    requires formed { (m.old.next * per_instruction + 3 < length program.now)
        × (get_or program.now (m.old.next * per_instruction + 1) 0 < registers_most)
        × (get_or program.now (m.old.next * per_instruction + 2) 0 < registers_most) }
    ensures { m.new ≡ issued_over program.now m.old }
{
    let ticket = engine_steps::grow(&mut m.table);
    m.window[ticket.stage] = entry_issued(program, m.next);
    m.next += 1;
}

// The entry once it has executed to this value, address and distance.
pub fn entry_executed(e: Entry, value: u32, address: u32, distance: u32) -> Entry
    ensures { result ≡ entry_with e (fates.Executed value address) distance }
{
    Entry {
        fate: Fate::Executed(value, address),
        distance,
        ..e
    }
}

// The index that issue goes on with where `left` of `live` entries stay and the first that does not has this index.
pub fn next_after(index: u32, live: usize, left: usize, next: u32) -> u32
    ensures { result ≡ cond (ltb left live) index next }
{
    if left < live { index } else { next }
}

// The entry at stage `s` executes with this effect; issue goes on at the first entry that does not stay. It is read here and not
// passed: an entry by value is one more copy, a fifth of a commit's time.
pub fn execute_stage(m: &mut Machine, s: usize, effect: Effect)
    requires { Fits m.old.table × (effect.left ≤ m.old.table.live) × (effect.row < slots) × (s < stages_most) }
    ensures { m.new ≡ executed_over m.old s effect }
{
    let circle = table_rules::circle_of(&m.table);
    // the first that goes is read only where one does: a read of an entry may wait for the writes of its parts
    if effect.left < m.table.live {
        let first = m.window[circle.stage_at(effect.left)].index;
        m.next = next_after(first, m.table.live, effect.left, m.next);
    }
    m.window[s] = entry_executed(m.window[s], effect.value, effect.address, effect.distance);
    engine_steps::apply(&mut m.table, effect, s);
}

// The entry at position `p` and everything younger leave the window; issue goes on there.
pub fn squash_from(m: &mut Machine, p: usize)
    requires { Fits m.old.table × (p < m.old.table.live) }
    ensures { m.new ≡ squashed_over m.old p }
{
    let circle = table_rules::circle_of(&m.table);
    m.next = m.window[circle.stage_at(p)].index;
    engine_steps::cut(&mut m.table, p);
}

// The answer of an execution with this effect, of `live` entries.
pub fn execute_answer(effect: Effect, live: usize) -> Executed<usize>
    ensures { says_executed result ≡ executed_says effect live }
{
    Executed {
        value: engine_steps::answered(effect.load, effect.store, effect.value),
        distance: effect.distance,
        squashed: if effect.left < live {
            Some(effect.left)
        } else {
            None
        },
    }
}

// What register `k` holds.
pub fn register(registers: &[u32; REGISTERS], k: u32) -> u32
    requires { k < registers_most }
    ensures { result ≡ get_or registers.now k 0 }
{
    registers[k as usize]
}

// What the instruction of `e` asks with what the registers hold.
pub fn action_by(registers: &[u32; REGISTERS], e: Entry) -> Action
    requires { OperandsExist e.instruction }
    ensures { result ≡ action_by registers.now e.instruction }
{
    let i = e.instruction;
    let x = registers[machine_isa::s_of(i) as usize];
    let y = registers[machine_isa::second_of(i) as usize];
    machine_isa::action_of(i, x, y)
}

// Which of the conditions 11 to 14 turns down the commit of `e`, the oldest of `live` entries, over so many words.
pub fn commit_refusal(e: Entry, live: usize, words: usize) -> Result<(), Refusal>
    ensures { turned_down result ≡ commit_number e live words }
{
    if live == 0 {
        return Err(Refusal::Empty);
    }
    if machine_isa::is_pending(e) {
        return Err(Refusal::Waiting);
    }
    if engine_steps::mark_faults(oldest_mark(e, 0), words) {
        return Err(Refusal::Fault);
    }
    if machine_isa::is_misaligned(e) {
        return Err(Refusal::Misaligned);
    }
    Ok(())
}

// The mark of the oldest stage, told by its entry `e`, which has executed and agrees with the table; `word` is the table's word
// at that stage.
pub fn oldest_mark(e: Entry, word: u32) -> Mark
    ensures { result ≡ mark_with (reference e) word }
{
    let a = machine_isa::entry_place(e);
    match machine_isa::entry_kind(e) {
        Some(Kind::Loading) => Mark::Load(a),
        Some(Kind::Storing | Kind::Merging) => Mark::Store(a, word),
        Some(Kind::Computing) | None => Mark::Absent,
    }
}

// The commit of `e` to the registers.
pub fn write_register(registers: &mut [u32; REGISTERS], e: Entry)
    ensures { registers.new ≡ registers_after registers.old e.instruction (value_by e.fate) }
{
    if let Some(d) = machine_isa::destination_of(e.instruction) {
        let d = d as usize;
        if d < REGISTERS {
            registers[d] = machine_isa::value_of(e);
        }
    }
}

// The answer of the commit of `e`.
pub fn commit_answer(e: Entry) -> Committed
    ensures { commit_says (Ok result) ≡ committed_says e }
{
    Committed {
        index: e.index,
        code: machine_isa::code_of(e.instruction),
        target: machine_isa::target_of(e),
        value: machine_isa::value_of(e),
        distance: machine_isa::distance_of(e),
    }
}

// The oldest entry leaves the window: its register takes its value, of a store memory the table's word.
pub fn commit_oldest(m: &mut Machine, memory: &mut [u32]) -> Committed
    requires some { Fits m.old.table × (0 < m.old.table.live) }
    requires clean { faults (length memory.old) (marked_fate (own_mark m.old)) ≡ false }
    ensures machine { m.new ≡ committed_over m.old }
    ensures memory { memory.new ≡ written memory.old (marked_fate (own_mark m.old)) }
    ensures answer { commit_says (Ok result) ≡ committed_says (own m.old) }
{
    let oldest = m.table.oldest;
    let e = m.window[oldest];
    engine_steps::write_back(memory, oldest_mark(e, m.table.values[oldest]));
    engine_steps::retire(&mut m.table);
    write_register(&mut m.registers, e);
    commit_answer(e)
}

// The numbers of that answer, to the places of the `n`th commit of a list.
pub fn list_commit(list: &mut [u32], n: usize, c: Committed)
    requires { n * per_commit + per_commit ≤ length list.old }
    ensures { list.new ≡ sets list.old (n * per_commit) (numbers_of c) }
{
    let numbers = [c.index, c.code, c.target, c.value, c.distance];
    machine_isa::put_numbers(list, n * PER_COMMIT, &numbers);
}
