// The call `commit`, which requires nothing; its contract is `Meets` of crates/machine_model/specs/Contract.antt. It takes the
// machine by value and hands it back beside its answer; what it does is a function on a lent machine.
#![tactic(auto)]

ghost use Rattle.std.specs.Prelude.{[]};
ghost use Rattle.machine_model.specs.Calls.{commit};
ghost use Rattle.machine_model.specs.Contract.{commit_says, Meets};

use engine::{Answered, Refusal};
use machine_model::{Committed, Machine};

// Commits the oldest entry: its register, or for S, B and H its memory word, takes the value.
pub fn commit(mut m: Machine, program: &[u32], memory: &mut [u32]) -> Answered<Machine, Committed>
    ensures { Meets program.now m commit memory.old (commit_says result.answer) result.state
        memory.new [] }
{
    let answer = commit_in(&mut m, program, memory);
    Answered { answer, state: m }
}

fn commit_in(m: &mut Machine, program: &[u32], memory: &mut [u32]) -> Result<Committed, Refusal>
    ensures { Meets program.now m.old commit memory.old (commit_says result) m.new memory.new [] }
{
    machine_window::validate(m, program, memory.len())?;
    let e = m.window[m.table.oldest];
    machine_steps::commit_refusal(e, m.table.live, m.table.words)?;
    Ok(machine_steps::commit_oldest(m, memory))
}
