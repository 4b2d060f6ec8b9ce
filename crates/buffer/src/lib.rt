// The address resolution buffer: the calls and the types of their answers.
//
// No call requires anything: what it is given that breaks a rule it refuses, with the numbers of
// crates/buffer_model/specs/Refusals.antt, and hands everything back as it was passed. Each contract is `Meets` (or `Opens`) of
// crates/buffer_model/specs/Contract.antt.
#![tactic(auto)]

pub use buffer_execute::{execute, execute_load, execute_other, execute_part, execute_store};
pub use buffer_moves::{commit, issue, open, squash};
pub use engine::{Action, Answered, Executed, Part, Refusal};
pub use table::{Table, Ticket};
