// Plays the script on standard input. All that matters is in the crates below: this reads, lends and writes. A program has no
// exit status, so it tells what came of it by a digit on descriptor 3, if that is open: 0 played to its end line, 1 a bad line, 3
// the input was not read to its end, 4 the output was not written.
#![tactic(auto)]

ghost use Rattle.std.specs.Prelude.{◌≤◌, length};
ghost use Rattle.player_model.specs.Playing.{longest};

use machine_model::PROGRAM;
use script_model::MOST;
use std::io::Write;
use table::WORDS;

// std opens no descriptor by its number: what is written to this one goes through `io`.
const TELL: i32 = 3;

// Room for one byte more than a script has, so that longer input is seen, and for a piece of output.
const INPUT: usize = MOST + 1;

const OUTPUT: usize = 4096;

// What came of it: nothing was printed, all up to the end line was, or all up to a bad line.
#[derive(Clone, Copy)]
enum Outcome {
    Nothing,
    All,
    Bad,
}

// What the last of these lines says, by its first byte: a bad line or the end line.
fn outcome_of(out: &[u8]) -> Outcome {
    match out
        .rsplit(|byte| *byte == b'\n')
        .find(|line| !line.is_empty())
    {
        Some([b'b', ..]) => Outcome::Bad,
        _ => Outcome::All,
    }
}

// Plays on, and writes each piece, until all is printed or a write fails. A player that is over at its beginning prints nothing:
// the text may not be the whole input.
fn play<W: Write>(
    s: &[u8],
    whole: bool,
    program: &mut [u32],
    memory: &mut [u32],
    out: &mut [u8],
    output: &mut W,
) -> std::io::Result<Outcome>
    requires { longest ≤ length out.old }
{
    let mut player = script::begin(s, whole, program, memory);
    let mut outcome = Outcome::Nothing;
    // each piece is played from the player that the one before left
    while !script::is_over(player.phase) {
        let piece = script::fill(player, s, program, memory, out);
        let printed = &out[..piece.end];
        output.write_all(printed)?;
        outcome = outcome_of(printed);
        player = piece.player;
    }
    Ok(outcome)
}

// Says why a script is bad.
fn explain<W: Write>(s: &[u8], out: &mut [u8], errors: &mut W) {
    let flaw = script_flaw::flaw_of(s);
    let end = script_message::put_message(out, flaw);
    let _ = errors.write_all(&out[..end]);
}

// Says what came of it.
fn report<W: Write>(outcome: std::io::Result<Outcome>, s: &[u8], out: &mut [u8], errors: &mut W) {
    match outcome {
        Ok(Outcome::Nothing) => {
            let _ = errors.write_all(b"arb: standard input could not be read to its end\n");
            io::write_all(TELL, b"3\n");
        }
        Ok(Outcome::All) => {
            io::write_all(TELL, b"0\n");
        }
        Ok(Outcome::Bad) => {
            explain(s, out, errors);
            io::write_all(TELL, b"1\n");
        }
        Err(_) => {
            let _ = errors.write_all(b"arb: standard output could not be written\n");
            io::write_all(TELL, b"4\n");
        }
    }
}

fn main(rt: HostRuntime) {
    let mut text = [0u8; INPUT];
    let (n, whole) = match input::read_all(&mut rt.stdin(), &mut text) {
        Ok(n) => (n, true),
        Err(n) => (n, false),
    };
    let s = &text[..n];
    let mut program = [0u32; PROGRAM];
    let mut memory = [0u32; WORDS];
    let mut out = [0u8; OUTPUT];
    let words = script::words_of(s);
    let outcome = play(
        s,
        whole,
        &mut program,
        &mut memory[..words],
        &mut out,
        &mut rt.stdout(),
    );
    report(outcome, s, &mut out, &mut rt.stderr());
}
