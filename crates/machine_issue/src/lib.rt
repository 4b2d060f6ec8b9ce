// The calls that open a machine and move its window's young end: `open`, `issue` and `squash`. Each takes the machine by value
// and hands it back beside its answer; what it does is a function on a lent machine. None requires anything. Each contract is
// `Meets` (or `Opens`) of crates/machine_model/specs/Contract.antt.
#![tactic(auto)]

ghost use Rattle.std.specs.Prelude.{◌≡◌, ℕ, List, [], Err};
ghost use Rattle.machine_model.specs.Calls.{banked, issue, squash};
ghost use Rattle.machine_model.specs.Contract.{done_says, issue_says, empty_machine, fresh_machine, Meets, Opens};

use engine::{Answered, Refusal};
use machine_model::{Entry, Fate, Instruction, Machine, PER_INSTRUCTION, PROGRAM, REGISTERS};
use table::{STAGES, Table};

// A machine of `count` instructions over this table, with nothing in its window.
fn empty(table: Table, count: u32) -> Machine
    ensures { result ≡ empty_machine table count }
{
    Machine {
        table,
        window: [Entry {
            instruction: Instruction::Add(0, 0, 0),
            index: 0,
            fate: Fate::Waiting,
            distance: 0,
        }; STAGES],
        registers: [0; REGISTERS],
        count,
        next: 0,
    }
}

// A refused opening: a machine without stages.
fn unopened(why: Refusal) -> Answered<Machine, ()>
    ensures { (result.answer ≡ Err why) × (result.state ≡ fresh_machine (banked 0 0 0 0) 0) }
{
    Answered {
        answer: Err(why),
        state: empty(engine_steps::empty(0, 0, 0, 0), 0),
    }
}

// A machine for the program over a table of these sizes: four numbers, as C passes them.
pub fn open(
    banks: usize,
    rows: usize,
    stages: usize,
    words: usize,
    program: &[u32],
    memory: &[u32],
) -> Answered<Machine, ()>
    ensures { Opens (banked banks rows stages words) program.now memory.now (done_says result.answer)
        result.state }
{
    if !(table_rules::sizes_fit(banks, rows, stages, words) & (program.len() <= PROGRAM)) {
        return unopened(Refusal::Sizes);
    }
    if memory.len() != words {
        return unopened(Refusal::Memory);
    }
    if !machine_isa::program_fits(program) {
        return unopened(Refusal::Program);
    }
    Answered {
        answer: Ok(()),
        state: empty(
            engine_steps::empty(banks, rows, stages, words),
            (program.len() / PER_INSTRUCTION) as u32,
        ),
    }
}

// Puts the next instruction in the next stage; the answer is its position.
pub fn issue(mut m: Machine, program: &[u32]) -> Answered<Machine, usize>
    ensures { (w : List ℕ) → Meets program.now m issue w (issue_says result.answer) result.state w [] }
{
    let answer = issue_in(&mut m, program);
    Answered { answer, state: m }
}

fn issue_in(m: &mut Machine, program: &[u32]) -> Result<usize, Refusal>
    ensures { (w : List ℕ) → Meets program.now m.old issue w (issue_says result) m.new w [] }
{
    machine_window::validate(m, program, m.table.words)?;
    let live = m.table.live;
    machine_steps::issue_refusal(live == m.table.stages, m.count, m.next)?;
    machine_steps::issue_next(m, program);
    Ok(live)
}

// Drops the entry at position `p` and everything younger; issue goes on there.
pub fn squash(mut m: Machine, program: &[u32], p: usize) -> Answered<Machine, ()>
    ensures { (w : List ℕ) → Meets program.now m (squash p) w (done_says result.answer) result.state w [] }
{
    let answer = squash_in(&mut m, program, p);
    Answered { answer, state: m }
}

fn squash_in(m: &mut Machine, program: &[u32], p: usize) -> Result<(), Refusal>
    ensures { (w : List ℕ) → Meets program.now m.old (squash p) w (done_says result) m.new w [] }
{
    machine_window::validate(m, program, m.table.words)?;
    if p >= m.table.live {
        return Err(Refusal::Unnamed);
    }
    machine_steps::squash_from(m, p);
    Ok(())
}
