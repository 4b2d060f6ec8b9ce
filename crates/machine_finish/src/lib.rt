// The call `finish`, which requires nothing; its contract is `Meets` of crates/machine_model/specs/Contract.antt.
#![tactic(auto)]

ghost use Rattle.std.specs.Prelude.{◌≡◌, true, ◌+◌, ◌*◌, ◌≤◌, ◌<◌, length, get_or};
ghost use Rattle.table.specs.Fits.{Fits};
ghost use Rattle.table.specs.Limits.{slots};
ghost use Rattle.machine_model.specs.Program.{per_instruction, registers_most};
ghost use Rattle.machine_model.specs.Calls.{finish, pending};
ghost use Rattle.machine_model.specs.Contract.{finish_says, Meets};
ghost use Rattle.machine_laws.specs.Computed.Parts.{OperandsExist};
ghost use Rattle.machine_laws.specs.Computed.Steps.{own, begun_over, oldest_effect, ready_over};

use engine::{Answered, Refusal};
use machine_model::{Machine, PER_COMMIT};
use table_rules::Fitted;

// Takes the oldest to its commit again and again, until `k` commits, fewer places left in the list than a commit takes, the end
// of the program, or a fault. Each commit's numbers go to the list.
pub fn finish(
    mut m: Machine,
    program: &[u32],
    k: u32,
    memory: &mut [u32],
    list: &mut [u32],
) -> Answered<Machine, usize>
    ensures { Meets program.now m (finish k list.old) memory.old (finish_says result.answer)
        result.state memory.new list.new }
{
    let answer = finish_in(&mut m, program, k, memory, list);
    Answered { answer, state: m }
}

// Where nothing is live the next instruction is issued.
fn begin_turn(m: &mut Machine, program: &[u32])
    requires fits { Fits m.old.table }
    requires next { m.old.table.live ≡ 0
        → (m.old.table.live < m.old.table.stages) × (m.old.next < m.old.count)
        × (m.old.next * per_instruction + 3 < length program.now)
        × (get_or program.now (m.old.next * per_instruction + 1) 0 < registers_most)
        × (get_or program.now (m.old.next * per_instruction + 2) 0 < registers_most) }
    ensures { m.new ≡ begun_over program.now m.old }
{
    if m.table.live == 0 {
        machine_steps::issue_next(m, program);
    }
}

// Where the oldest waits it executes, with what the registers hold.
fn execute_oldest(m: &mut Machine, memory: &[u32])
    requires some { Fits m.old.table × (0 < m.old.table.live) × OperandsExist (own m.old).instruction }
    requires bounds { pending (own m.old).fate ≡ true
        → ((oldest_effect memory.now m.old).left ≤ m.old.table.live) × ((oldest_effect memory.now m.old).row < slots) }
    ensures { m.new ≡ ready_over memory.now m.old }
{
    let oldest = m.table.oldest;
    let e = m.window[oldest];
    if machine_isa::is_pending(e) {
        let action = machine_steps::action_by(&m.registers, e);
        let below = engine_steps::word_below(memory, action);
        let effect = engine_steps::effect_of(Fitted { table: &m.table }, 0, action, below);
        machine_steps::execute_stage(m, oldest, effect);
    }
}

fn finish_in(
    m: &mut Machine,
    program: &[u32],
    k: u32,
    memory: &mut [u32],
    list: &mut [u32],
) -> Result<usize, Refusal>
    ensures { Meets program.now m.old (finish k list.old) memory.old (finish_says result) m.new memory.new list.new }
{
    machine_window::validate(m, program, memory.len())?;
    let limit = k as usize;
    for n in 0..limit {
        let places = list.len() - n * PER_COMMIT;
        if (places < PER_COMMIT) | ((m.table.live == 0) & (m.count <= m.next)) {
            return Ok(n);
        }
        begin_turn(m, program);
        execute_oldest(m, memory);
        let e = m.window[m.table.oldest];
        if let Err(_) = machine_steps::commit_refusal(e, m.table.live, m.table.words) {
            return Ok(n);
        }
        let committed = machine_steps::commit_oldest(m, memory);
        machine_steps::list_commit(list, n, committed);
    }
    Ok(limit)
}
