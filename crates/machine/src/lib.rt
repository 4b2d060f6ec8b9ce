// The window machine: small programs run out of order over the address resolution buffer. Here is what a user calls, each in
// the crate that it names.
//
// No public call requires anything: what it is given that breaks a rule it refuses, with the numbers of
// crates/machine_model/specs/Calls.antt, and hands everything back as it was passed. Each contract is `Meets` (or `Opens`) of
// crates/machine_model/specs/Contract.antt. The program is lent to each call. A call lends the machine that it was passed to a
// function that checks table, window, memory and program once, by `validate` of machine_window, and then takes a step of
// machine_steps on it.
#![tactic(auto)]

pub use engine::{Answered, Executed, Refusal};
pub use machine_commit::commit;
pub use machine_execute::execute;
pub use machine_finish::finish;
pub use machine_issue::{issue, open, squash};
pub use machine_model::{Committed, Entry, Fate, Instruction, Machine};
pub use table::Table;
