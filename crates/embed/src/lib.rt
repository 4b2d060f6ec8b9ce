// The buffer for C, C++ and Rust: each call takes the table by value and hands it back beside its answer in plain numbers.
//
// An enum cannot cross, so an answer crosses as a refusal's number, 0 where the call was accepted, and what it carries. No call
// requires anything; each contract is the buffer's own, of an answer with these numbers (specs/Crossing.antt).
#![tactic(auto)]

ghost use Rattle.std.specs.Prelude.{◌≡◌, List, ℕ};
ghost use Rattle.engine.specs.declared.Part.TheVariants.{Byte, Half};
ghost use Rattle.buffer_model.specs.Answers.{done_says, ticket_says, execute_says};
ghost use Rattle.buffer_model.specs.Calls.{issue, squash, commit, execute_load, execute_store, execute_part, execute_other};
ghost use Rattle.engine.specs.Answers.{turned_down};
ghost use Rattle.embed.specs.Crossing.{numbers_of, WithAll, WithTicket, WithNumber, Does, Names, Runs, Starts};

use buffer::{Answered, Part, Refusal};
use table::{Table, Ticket};

// The result of an opening and of a squash.
#[repr(C)]
#[derive(Clone, Copy)]
pub struct Done {
    pub table: Table,
    pub refusal: u32,
}

// The result of an issue and of a commit: the ticket is zeros where it was refused.
#[repr(C)]
#[derive(Clone, Copy)]
pub struct Named {
    pub table: Table,
    pub ticket: Ticket,
    pub refusal: u32,
}

// An answer in numbers, 0 for what it lacks. `squashed` is 1 where an execution squashed, and the ticket then what from.
#[repr(C)]
#[derive(Clone, Copy)]
pub struct Numbers {
    pub ticket: Ticket,
    pub refusal: u32,
    pub value: u32,
    pub distance: u32,
    pub squashed: u32,
}

// The result of an execution. Its numbers stand behind the table without a gap, so that C has them as fields of one struct.
#[repr(C)]
#[derive(Clone, Copy)]
pub struct Executed {
    pub table: Table,
    pub numbers: Numbers,
}

// What stands for a ticket that an answer lacks.
const NO_TICKET: Ticket = Ticket {
    stage: 0,
    number: 0,
};

// The number of a refusal, 0 where the call was accepted.
fn number_of<A: Copy>(answer: Result<A, Refusal>) -> u32
    ensures { result ≡ turned_down answer }
{
    match answer {
        Ok(_) => 0,
        Err(refusal) => refusal.number(),
    }
}

impl From<Answered<Table, ()>> for Done {
    ghost from_gives = { λ a r. (r.table ≡ a.state) × WithNumber r (done_says a.answer) };

    fn from(a: Answered<Table, ()>) -> Done {
        Done {
            table: a.state,
            refusal: number_of(a.answer),
        }
    }
}

impl From<Answered<Table, Ticket>> for Named {
    ghost from_gives = { λ a r. (r.table ≡ a.state) × WithTicket r (ticket_says a.answer) };

    fn from(a: Answered<Table, Ticket>) -> Named {
        Named {
            table: a.state,
            ticket: a.answer.unwrap_or(NO_TICKET),
            refusal: number_of(a.answer),
        }
    }
}

impl From<Answered<Table, buffer::Executed<Ticket>>> for Executed {
    ghost from_gives = { λ a r. (r.table ≡ a.state) × WithAll r (execute_says a.answer) };

    fn from(a: Answered<Table, buffer::Executed<Ticket>>) -> Executed {
        Executed {
            table: a.state,
            numbers: a.answer.into(),
        }
    }
}

impl From<Result<buffer::Executed<Ticket>, Refusal>> for Numbers {
    ghost from_gives = { λ answer r. r ≡ numbers_of (execute_says answer) };

    fn from(answer: Result<buffer::Executed<Ticket>, Refusal>) -> Numbers {
        match answer {
            Err(refusal) => Numbers {
                ticket: NO_TICKET,
                refusal: refusal.number(),
                value: 0,
                distance: 0,
                squashed: 0,
            },
            Ok(done) => Numbers {
                ticket: done.squashed.unwrap_or(NO_TICKET),
                refusal: 0,
                value: done.value,
                distance: done.distance,
                squashed: u32::from(done.squashed.is_some()),
            }
        }
    }
}

#[unsafe(no_mangle)]
pub extern "C" fn arb_v_open(
    banks: usize,
    rows: usize,
    stages: usize,
    words: usize,
    memory: &[u32],
) -> Done
    ensures { Starts banks rows stages words memory.now result }
{
    buffer::open(banks, rows, stages, words, memory).into()
}

#[unsafe(no_mangle)]
pub extern "C" fn arb_v_issue(t: Table) -> Named
    ensures { (m : List ℕ) → Names t issue m result m }
{
    buffer::issue(t).into()
}

#[unsafe(no_mangle)]
pub extern "C" fn arb_v_load(t: Table, ticket: Ticket, address: u32, memory: &[u32]) -> Executed
    ensures { Runs t (execute_load ticket address) memory.now result }
{
    buffer::execute_load(t, ticket, address, memory).into()
}

#[unsafe(no_mangle)]
pub extern "C" fn arb_v_store(
    t: Table,
    ticket: Ticket,
    address: u32,
    value: u32,
    memory: &[u32],
) -> Executed
    ensures { Runs t (execute_store ticket address value) memory.now result }
{
    buffer::execute_store(t, ticket, address, value, memory).into()
}

#[unsafe(no_mangle)]
pub extern "C" fn arb_v_byte(
    t: Table,
    ticket: Ticket,
    byte: u32,
    value: u32,
    memory: &[u32],
) -> Executed
    ensures { Runs t (execute_part ticket Byte byte value) memory.now result }
{
    buffer::execute_part(t, ticket, Part::Byte, byte, value, memory).into()
}

#[unsafe(no_mangle)]
pub extern "C" fn arb_v_half(
    t: Table,
    ticket: Ticket,
    byte: u32,
    value: u32,
    memory: &[u32],
) -> Executed
    ensures { Runs t (execute_part ticket Half byte value) memory.now result }
{
    buffer::execute_part(t, ticket, Part::Half, byte, value, memory).into()
}

#[unsafe(no_mangle)]
pub extern "C" fn arb_v_other(t: Table, ticket: Ticket, memory: &[u32]) -> Executed
    ensures { Runs t (execute_other ticket) memory.now result }
{
    buffer::execute_other(t, ticket, memory).into()
}

#[unsafe(no_mangle)]
pub extern "C" fn arb_v_squash(t: Table, ticket: Ticket) -> Done
    ensures { (m : List ℕ) → Does t (squash ticket) m result }
{
    buffer::squash(t, ticket).into()
}

#[unsafe(no_mangle)]
pub extern "C" fn arb_v_commit(t: Table, memory: &mut [u32]) -> Named
    ensures { Names t commit memory.old result memory.new }
{
    buffer::commit(t, memory).into()
}
