// The script program as a library: reads a script, plays its steps on the window machine, and hands out what it prints in pieces.
//
// `words_of` tells how much memory the script asks for, `begin` reads the sizes and the program, and `fill` plays on until the
// lent buffer is full or all is printed, which `is_over` tells. None requires anything; player_model/specs/Playing.antt has
// their contracts.
#![tactic(auto)]

ghost use Rattle.std.specs.Prelude.{◌≡◌};
ghost use Rattle.player_model.specs.Playing.{idle, is_over, wrongly_lent, Begins};

use machine_model::PROGRAM;
pub use player_model::{Phase, Piece, Player};
use player_model::{Four, Loaded};
use script_model::MOST;
pub use script_playing::fill;
pub use script_reading::words_of;

// A player with no machine in use.
fn idle(phase: Phase, program: &[u32], memory: &[u32]) -> Player
    ensures { result ≡ idle phase }
{
    let closed = machine::open(0, 0, 0, 0, program, memory);
    Player {
        phase,
        cursor: 0,
        line: 1,
        commits: 0,
        used: 0,
        machine: closed.state,
    }
}

// Whether the lent program is too short, the lent memory is not of the script's words, or the text may not be whole.
fn wrongly_lent(s: &[u8], whole: bool, program: &[u32], memory: &[u32]) -> bool
    ensures { result ≡ wrongly_lent s.now whole program.now memory.now }
{
    (program.len() < PROGRAM) | (memory.len() != words_of(s)) | (!whole & (s.len() <= MOST))
}

// The player of a script, with its program read into the lent one and the lent memory cleared. `whole` says that the text lent
// is all of the input.
pub fn begin(s: &[u8], whole: bool, program: &mut [u32], memory: &mut [u32]) -> Player
    ensures { Begins s.now whole program.old memory.old result program.new
        memory.new }
{
    if wrongly_lent(s, whole, program, memory) {
        return idle(Phase::Over, program, memory);
    }
    if MOST < s.len() {
        return idle(Phase::Bad(0), program, memory);
    }
    let Some(Four(banks, rows, stages, words, from)) = script_reading::read_header(s) else {
        return idle(Phase::Bad(1), program, memory);
    };
    memory.fill(0);
    let Loaded { cursor, line, used } = script_reading::read_program(s, from, program);
    let opened = machine::open(
        banks as usize,
        rows as usize,
        stages as usize,
        words as usize,
        &program[..used],
        memory,
    );
    Player {
        phase: Phase::Stepping,
        cursor,
        line,
        commits: 0,
        used,
        machine: opened.state,
    }
}

// Whether all is printed.
pub fn is_over(phase: Phase) -> bool
    ensures { result ≡ is_over phase }
{
    matches!(phase, Phase::Over)
}
