// Playing: a loop over the lines of a script, which makes the machine's calls and prints into a lent buffer.
//
// The machine stays in one place: the loop makes its calls itself, and what reads or prints is a function on lent slices and
// numbers.
#![tactic(auto)]

ghost use Rattle.std.specs.Prelude.{◌≡◌, List, ℕ, take};
ghost use Rattle.player_model.specs.Playing.{Fills};

use machine_model::PER_COMMIT;
use player_model::{Ask, LINE, Phase, Piece, Player};

// Plays on with this program until all is printed or `out` has no room for another line.
fn play_on(p: Player, s: &[u8], program: &[u32], memory: &mut [u32], out: &mut [u8]) -> Piece
    ensures { (list : List ℕ) → take p.used list ≡ program.now
        → Fills s.now list p memory.old out.old result.player
        memory.new out.new
        result.end }
{
    let mut machine = p.machine;
    let mut phase = p.phase;
    let mut cursor = p.cursor;
    let mut line = p.line;
    let mut commits = p.commits;
    let used = p.used;
    let mut at = 0;
    // what is done next is the player's phase, data that `fill` hands out: a closure could not be kept between two calls
    while at + LINE <= out.len() {
        match phase {
            Phase::Over => {
                break;
            }
            Phase::Bad(b) => {
                at = script_printing::put(out, at, &script_printing::bad_line(b));
                phase = Phase::Over;
            }
            Phase::Stepping => {
                let order = script_steps::next_order(s, cursor, line);
                let ask = order.ask;
                cursor = order.cursor;
                line = order.line;
                match ask {
                    Ask::Turn(h) => {
                        phase = h;
                    }
                    Ask::Issue => {
                        let done = machine::issue(machine, program);
                        machine = done.state;
                    }
                    Ask::Execute(k) => {
                        let done = machine::execute(machine, program, k as usize, memory);
                        machine = done.state;
                    }
                    Ask::Squash(k) => {
                        let done = machine::squash(machine, program, k as usize);
                        machine = done.state;
                    }
                    Ask::Commit => {
                        let done = machine::commit(machine, program, memory);
                        let said = done.answer;
                        machine = done.state;
                        let more = script_steps::one_more(commits);
                        match said {
                            Err(_) => {}
                            Ok(c) => {
                                let lines = script_printing::committed_lines(
                                    c.index, c.code, c.target, c.value, c.distance,
                                );
                                at = script_printing::put(out, at, &lines);
                                commits = more;
                            }
                        }
                    }
                }
            }
            Phase::Finishing(k) => {
                if k == 0 {
                    phase = Phase::Stepping;
                    continue;
                }
                let mut list = [0u32; PER_COMMIT];
                let done = machine::finish(machine, program, k, memory, &mut list);
                let said = done.answer;
                machine = done.state;
                if script_steps::commits_of(said) == 0 {
                    phase = Phase::Stepping;
                    continue;
                }
                let [i, code, r, v, d] = list;
                let lines = script_printing::committed_lines(i, code, r, v, d);
                at = script_printing::put(out, at, &lines);
                commits = script_steps::one_more(commits);
                let fewer = k - 1;
                phase = Phase::Finishing(fewer);
            }
            Phase::Words(a) => {
                if a < memory.len() {
                    at = script_steps::put_word_at(memory, a, out, at);
                    let next = a + 1;
                    phase = Phase::Words(next);
                    continue;
                }
                let ending = script_steps::ending_of(&machine);
                at = script_printing::put(out, at, &script_printing::end_line(ending, commits));
                phase = Phase::Over;
            }
        }
    }
    Piece {
        player: Player {
            phase,
            cursor,
            line,
            commits,
            used,
            machine,
        },
        end: at,
    }
}

// Plays on until all is printed or `out` has no room for another line. The script's program is the first places of the lent one.
pub fn fill(p: Player, s: &[u8], program: &[u32], memory: &mut [u32], out: &mut [u8]) -> Piece
    ensures { Fills s.now program.now p memory.old out.old result.player
        memory.new out.new result.end }
{
    let used = script_steps::places(program, p.used);
    play_on(p, s, &program[0..used], memory, out)
}
