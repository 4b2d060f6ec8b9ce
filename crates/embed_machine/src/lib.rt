// The window machine for C, C++ and Rust: each call takes the machine's image by value and hands it back beside its answer in
// plain numbers. A refused call hands back the image that it was passed.
//
// No call requires anything; each contract is the machine's own, on the machines that the images are (crate embed_image,
// specs/Crossing.antt).
#![tactic(auto)]

ghost use Rattle.std.specs.Prelude.{List, [], ℕ};
ghost use Rattle.machine_model.specs.Calls.{banked, issue, execute, squash, commit, finish};
ghost use Rattle.embed_image.specs.Crossing.{Crosses, Starts};

use embed_image::{Answered, Image};

#[unsafe(no_mangle)]
pub extern "C" fn arb_m_open(
    banks: usize,
    rows: usize,
    stages: usize,
    words: usize,
    program: &[u32],
    memory: &[u32],
) -> Answered
    ensures { Starts (banked banks rows stages words) program.now memory.now result }
{
    let done = machine::open(banks, rows, stages, words, program, memory);
    Answered {
        image: embed_slots::image_of(done.state),
        numbers: embed_slots::done_numbers(embed_slots::by_number(done.answer)),
    }
}

#[unsafe(no_mangle)]
pub extern "C" fn arb_m_issue(passed: Image, program: &[u32]) -> Answered
    ensures { (w : List ℕ) → Crosses program.now passed issue w result w [] }
{
    let done = machine::issue(embed_slots::machine_by(passed), program);
    let numbers = embed_slots::issue_numbers(embed_slots::by_number(done.answer));
    embed_slots::crossed(passed, done.state, numbers)
}

#[unsafe(no_mangle)]
pub extern "C" fn arb_m_execute(
    passed: Image,
    program: &[u32],
    position: usize,
    memory: &[u32],
) -> Answered
    ensures { Crosses program.now passed (execute position) memory.now result
        memory.now [] }
{
    let done = machine::execute(embed_slots::machine_by(passed), program, position, memory);
    let numbers = embed_slots::execute_numbers(embed_slots::by_number(done.answer));
    embed_slots::crossed(passed, done.state, numbers)
}

#[unsafe(no_mangle)]
pub extern "C" fn arb_m_squash(passed: Image, program: &[u32], position: usize) -> Answered
    ensures { (w : List ℕ) → Crosses program.now passed (squash position) w result w [] }
{
    let done = machine::squash(embed_slots::machine_by(passed), program, position);
    let numbers = embed_slots::done_numbers(embed_slots::by_number(done.answer));
    embed_slots::crossed(passed, done.state, numbers)
}

#[unsafe(no_mangle)]
pub extern "C" fn arb_m_commit(passed: Image, program: &[u32], memory: &mut [u32]) -> Answered
    ensures { Crosses program.now passed commit memory.old result memory.new [] }
{
    let done = machine::commit(embed_slots::machine_by(passed), program, memory);
    let numbers = embed_slots::commit_numbers(embed_slots::by_number(done.answer));
    embed_slots::crossed(passed, done.state, numbers)
}

#[unsafe(no_mangle)]
pub extern "C" fn arb_m_finish(
    passed: Image,
    program: &[u32],
    limit: u32,
    memory: &mut [u32],
    list: &mut [u32],
) -> Answered
    ensures { Crosses program.now passed (finish limit list.old) memory.old result
        memory.new list.new }
{
    let done = machine::finish(
        embed_slots::machine_by(passed),
        program,
        limit,
        memory,
        list,
    );
    let numbers = embed_slots::finish_numbers(embed_slots::by_number(done.answer));
    embed_slots::crossed(passed, done.state, numbers)
}
