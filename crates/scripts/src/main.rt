// Plays scripts and compares what they print. The arguments are pairs of files: a script, and what it must print (at most 4,000
// bytes). A script that prints something else is shown with both outputs.
#![tactic(auto)]

ghost use Rattle.std.specs.Prelude.{◌≤◌, length};
ghost use Rattle.io.specs.Counts.{IsPrefixLen};

use machine_model::PROGRAM;
use std::env::FillError;
use std::fs;
use std::io::Print;
use std::rt::{Env, Files};
use table::WORDS;

// How many arguments there are, the program's name among them.
fn count_arguments(env: &impl Env) -> usize {
    let mut path = io::buffer();
    (0..usize::MAX)
        .find(|i| matches!(env.arg(*i, &mut path), Err(FillError::NotPresent)))
        .unwrap_or(usize::MAX)
}

// Puts argument `i` at the start of `path`; nothing, where it is missing or longer than that.
fn argument(env: &impl Env, i: usize, path: &mut [u8]) -> usize
    ensures { IsPrefixLen result path.new }
{
    env.arg(i, path).unwrap_or(0)
}

// Reads the file that argument `i` names; nothing, where it cannot be read.
fn read_named(rt: &(impl Env + Files), i: usize, into: &mut [u8]) -> usize
    ensures { IsPrefixLen result into.new }
{
    let mut path = io::buffer();
    let length = argument(rt, i, &mut path);
    let Ok(name) = str::from_utf8(&path[..length]) else {
        return 0;
    };
    let Ok(mut file) = fs::open(rt, name) else {
        return 0;
    };
    match input::read_all(&mut file, into) {
        Ok(n) | Err(n) => n,
    }
}

// Plays a script whose output fits in `out`, and returns where it ends.
fn play(s: &[u8], program: &mut [u32], memory: &mut [u32], out: &mut [u8]) -> usize
    ensures { result ≤ length out.new }
{
    let player = script::begin(s, true, program, memory);
    script::fill(player, s, program, memory, out).end
}

fn say(to: &impl Print, s: &[u8]) {
    let _ = to.write_all(s);
}

// Writes the name of the file that argument `i` names.
fn say_name(rt: &(impl Env + Print), i: usize) {
    let mut path = io::buffer();
    let length = argument(rt, i, &mut path);
    say(rt, &path[..length]);
}

// Whether a script printed what it must; if not, shows it.
fn compare(rt: &(impl Env + Print), i: usize, s: &[u8], out: &[u8], wanted: &[u8]) -> bool {
    say_name(rt, i);
    if check::same(out, wanted) {
        say(rt, b" as expected\n");
        return true;
    }
    say(rt, b" FAILED\n---- script\n");
    say(rt, s);
    say(rt, b"---- printed\n");
    say(rt, out);
    say(rt, b"---- expected\n");
    say(rt, wanted);
    false
}

// Plays the script that argument `i` names, and compares with what argument `j` names: whether it printed that.
fn play_pair(rt: &(impl Env + Files + Print), i: usize, j: usize) -> bool {
    let mut text = io::large_buffer();
    let n = read_named(rt, i, &mut text);
    let mut wanted = io::buffer();
    let m = read_named(rt, j, &mut wanted);
    let mut program = [0u32; PROGRAM];
    let mut memory = [0u32; WORDS];
    let mut out = io::buffer();
    let words = script::words_of(&text[..n]);
    let end = play(&text[..n], &mut program, &mut memory[..words], &mut out);
    compare(rt, i, &text[..n], &out[..end], &wanted[..m])
}

fn main(rt: HostRuntime) {
    let pairs = count_arguments(&rt) / 2;
    let passed = (0..pairs)
        .filter(|k| play_pair(&rt, 2 * *k + 1, 2 * *k + 2))
        .count();
    let _ = print!(rt; "{passed}");
    say(&rt, b" passed\n");
}
