// The call `execute`, which requires nothing; its contract is `Meets` of crates/machine_model/specs/Contract.antt. It takes the
// machine by value and hands it back beside its answer; what it does is a function on a lent machine.
#![tactic(auto)]

ghost use Rattle.std.specs.Prelude.{[]};
ghost use Rattle.machine_model.specs.Calls.{execute};
ghost use Rattle.machine_model.specs.Contract.{execute_says, Meets};

use engine::{Answered, Executed, Refusal};
use machine_model::Machine;

// Executes the entry at position `p`.
pub fn execute(
    mut m: Machine,
    program: &[u32],
    p: usize,
    memory: &[u32],
) -> Answered<Machine, Executed<usize>>
    ensures { Meets program.now m (execute p) memory.now (execute_says result.answer) result.state
        memory.now [] }
{
    let answer = execute_in(&mut m, program, p, memory);
    Answered { answer, state: m }
}

fn execute_in(
    m: &mut Machine,
    program: &[u32],
    p: usize,
    memory: &[u32],
) -> Result<Executed<usize>, Refusal>
    ensures { Meets program.now m.old (execute p) memory.now (execute_says result) m.new memory.now [] }
{
    let held = machine_window::validate(m, program, memory.len())?;
    let asked = machine_window::asked_at(
        &m.window,
        &m.registers,
        m.table.oldest,
        m.table.stages,
        m.table.live,
        p,
    )?;
    let below = engine_steps::word_below(memory, asked.action);
    let effect = engine_steps::effect_of(held, p, asked.action, below);
    if effect.left == 0 {
        return Err(Refusal::Stalled);
    }
    let answer = machine_steps::execute_answer(effect, m.table.live);
    machine_steps::execute_stage(m, asked.stage, effect);
    Ok(answer)
}
