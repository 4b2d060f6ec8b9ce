// The buffer's calls that move the window: opening, issue, squash and commit. Each takes the table by value, as 01 asks and C
// passes it, and hands it back beside its answer; what it does is a function on a lent table.
//
// Inner crate: the calls are those of the crate `buffer`. No call requires anything: what it is given that breaks a rule it
// refuses, and hands everything back as it was passed.
#![tactic(auto)]

ghost use Rattle.std.specs.Prelude.{◌≡◌, ℕ, List, Err};
ghost use Rattle.engine.specs.Opening.{fresh};
ghost use Rattle.buffer_model.specs.Answers.{done_says, ticket_says};
ghost use Rattle.buffer_model.specs.Calls.{issue, squash, commit};
ghost use Rattle.buffer_model.specs.Contract.{Meets, Opens};

use engine::{Answered, Refusal};
use table::{Table, Ticket};

// A table of `banks` banks of `rows` rows and `stages` stages over a memory of `words` words: four numbers, as C passes them.
pub fn open(
    banks: usize,
    rows: usize,
    stages: usize,
    words: usize,
    memory: &[u32],
) -> Answered<Table, ()>
    ensures { Opens banks rows stages words memory.now (done_says result.answer) result.state }
{
    if !table_rules::sizes_fit(banks, rows, stages, words) {
        return unopened(Refusal::Sizes);
    }
    if memory.len() != words {
        return unopened(Refusal::Memory);
    }
    Answered {
        answer: Ok(()),
        state: engine_steps::empty(banks, rows, stages, words),
    }
}

// A refused opening hands back a table without stages.
fn unopened(why: Refusal) -> Answered<Table, ()>
    ensures { (result.answer ≡ Err why) × (result.state ≡ fresh 0 0 0 0) }
{
    Answered {
        answer: Err(why),
        state: engine_steps::empty(0, 0, 0, 0),
    }
}

// A new youngest reference in the next stage.
pub fn issue(mut t: Table) -> Answered<Table, Ticket>
    ensures { (m : List ℕ) → Meets t issue m (ticket_says result.answer) result.state m }
{
    let answer = issue_in(&mut t);
    Answered { answer, state: t }
}

fn issue_in(t: &mut Table) -> Result<Ticket, Refusal>
    ensures { (m : List ℕ) → Meets t.old issue m (ticket_says result) t.new m }
{
    engine_steps::checked(t)?;
    if t.live == t.stages {
        return Err(Refusal::Full);
    }
    Ok(engine_steps::grow(t))
}

// Drops the reference that the ticket names and everything younger.
pub fn squash(mut t: Table, ticket: Ticket) -> Answered<Table, ()>
    ensures { (m : List ℕ) → Meets t (squash ticket) m (done_says result.answer) result.state m }
{
    let answer = squash_in(&mut t, ticket);
    Answered { answer, state: t }
}

fn squash_in(t: &mut Table, ticket: Ticket) -> Result<(), Refusal>
    ensures { (m : List ℕ) → Meets t.old (squash ticket) m (done_says result) t.new m }
{
    let held = engine_steps::checked(t)?;
    if !held.names(ticket) {
        return Err(Refusal::Unnamed);
    }
    let p = held.circle().position_of(ticket.stage);
    engine_steps::cut(t, p);
    Ok(())
}

// Takes the oldest reference out of the window; a store's word goes to memory.
pub fn commit(mut t: Table, memory: &mut [u32]) -> Answered<Table, Ticket>
    ensures { Meets t commit memory.old (ticket_says result.answer) result.state memory.new }
{
    let answer = commit_in(&mut t, memory);
    Answered { answer, state: t }
}

fn commit_in(t: &mut Table, memory: &mut [u32]) -> Result<Ticket, Refusal>
    ensures { Meets t.old commit memory.old (ticket_says result) t.new memory.new }
{
    engine_steps::checked(t)?;
    let &mut Table {
        words,
        oldest,
        live,
        executed,
        ..
    } = t;
    if memory.len() != words {
        return Err(Refusal::Memory);
    }
    if live == 0 {
        return Err(Refusal::Empty);
    }
    if !marks::contains(executed, oldest) {
        return Err(Refusal::Waiting);
    }
    let mark = lookup_marks::mark_at(t, oldest);
    if engine_steps::mark_faults(mark, words) {
        return Err(Refusal::Fault);
    }
    let number = t.numbers[oldest];
    engine_steps::write_back(memory, mark);
    engine_steps::retire(t);
    Ok(Ticket {
        stage: oldest,
        number,
    })
}
