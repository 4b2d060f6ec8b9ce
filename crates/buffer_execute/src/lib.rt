// The buffer's executions: one over what is executed, and the named calls that make it.
//
// Inner crate: the calls are those of the crate `buffer`. No call requires anything: what it is given that breaks a rule it
// refuses, and hands everything back as it was passed.
#![tactic(auto)]

ghost use Rattle.std.specs.Prelude.{◌≡◌};
ghost use Rattle.marks.specs.Stages.{has};
ghost use Rattle.table.specs.Computed.Naming.{names};
ghost use Rattle.engine.specs.Answers.{turned_down};
ghost use Rattle.buffer_model.specs.Answers.{execute_says};
ghost use Rattle.buffer_model.specs.Calls.{execute, execute_load, execute_store, execute_part, execute_other};
ghost use Rattle.buffer_model.specs.Contract.{Meets};
ghost use Rattle.buffer_model.specs.Computed.Parts.{execute_refusal, cut_in};

use engine::{Action, Answered, Executed, Part, Refusal};
use table::{Table, Ticket};
use table_rules::Fitted;

// Why an execution with this ticket on a memory of this length is turned down before its row is looked for.
fn ready(t: Fitted, ticket: Ticket, lent: usize) -> Result<(), Refusal>
    ensures { turned_down result
        ≡ execute_refusal t.entry.table.now.words lent (names t.entry.table.now ticket)
        (has t.entry.table.now.executed ticket.stage) }
{
    if lent != t.table.words {
        return Err(Refusal::Memory);
    }
    if !t.names(ticket) {
        return Err(Refusal::Unnamed);
    }
    if marks::contains(t.table.executed, ticket.stage) {
        return Err(Refusal::Executed);
    }
    Ok(())
}

// From which reference on references are squashed where the first `left` stay.
fn squashed_from(t: Fitted, left: usize) -> Option<Ticket>
    ensures { result ≡ cut_in t.entry.table.now left }
{
    if left >= t.table.live {
        return None;
    }
    let stage = t.circle().stage_at(left);
    Some(Ticket {
        stage,
        number: t.table.numbers[stage],
    })
}

// The reference that the ticket names executes `action`.
pub fn execute(
    mut t: Table,
    ticket: Ticket,
    action: Action,
    memory: &[u32],
) -> Answered<Table, Executed<Ticket>>
    ensures { Meets t (execute ticket action) memory.now (execute_says result.answer) result.state
        memory.now }
{
    let answer = execute_in(&mut t, ticket, action, memory);
    Answered { answer, state: t }
}

fn execute_in(
    t: &mut Table,
    ticket: Ticket,
    action: Action,
    memory: &[u32],
) -> Result<Executed<Ticket>, Refusal>
    ensures { Meets t.old (execute ticket action) memory.now (execute_says result) t.new memory.now }
{
    let held = engine_steps::checked(t)?;
    ready(held, ticket, memory.len())?;
    let p = held.circle().position_of(ticket.stage);
    let below = engine_steps::word_below(memory, action);
    let effect = engine_steps::effect_of(held, p, action, below);
    let squashed = squashed_from(held, effect.left);
    if effect.left == 0 {
        return Err(Refusal::Stalled);
    }
    engine_steps::apply(t, effect, ticket.stage);
    Ok(Executed {
        value: engine_steps::answered(effect.load, effect.store, effect.value),
        distance: effect.distance,
        squashed,
    })
}

// It executes as a load of `address`.
pub fn execute_load(
    t: Table,
    ticket: Ticket,
    address: u32,
    memory: &[u32],
) -> Answered<Table, Executed<Ticket>>
    ensures { Meets t (execute_load ticket address) memory.now (execute_says result.answer) result.state
        memory.now }
{
    execute(t, ticket, Action::LoadAt(address), memory)
}

// It executes as a store of `value` at `address`.
pub fn execute_store(
    t: Table,
    ticket: Ticket,
    address: u32,
    value: u32,
    memory: &[u32],
) -> Answered<Table, Executed<Ticket>>
    ensures { Meets t (execute_store ticket address value) memory.now (execute_says result.answer) result.state
        memory.now }
{
    execute(t, ticket, Action::StoreAt(address, value), memory)
}

// It executes as a store of the part of `value` at byte number `byte`.
pub fn execute_part(
    t: Table,
    ticket: Ticket,
    part: Part,
    byte: u32,
    value: u32,
    memory: &[u32],
) -> Answered<Table, Executed<Ticket>>
    ensures { Meets t (execute_part ticket part byte value) memory.now (execute_says result.answer) result.state
        memory.now }
{
    execute(t, ticket, Action::PartAt(part, byte, value), memory)
}

// It executes without memory.
pub fn execute_other(t: Table, ticket: Ticket, memory: &[u32]) -> Answered<Table, Executed<Ticket>>
    ensures { Meets t (execute_other ticket) memory.now (execute_says result.answer) result.state
        memory.now }
{
    execute(t, ticket, Action::Compute(0), memory)
}
