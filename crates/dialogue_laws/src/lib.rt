//! Laws of prompt traces: what a run does in a connection, in plain laws of its rows.
//!
//! Recoveries, data runs, disconnections and aborts are stated by definitions in `dialogue_model` and `due_model`; what
//! they come to is said here for readers of the standard. Each abort line is sent or dropped
//! (`abort_lines_are_over`). Where the initiator complains MESSAGE OUT follows (`complaints_follow`); as the target
//! leaves a phase in which parity was wrong it recovers, or gives up the process where its limit is spent
//! (`wrong_parity_is_recovered`), and only there (`nothing_else_is_given_up`). Data runs and disconnections are those
//! of the policy (`data_runs_follow_the_policy`, `commands_arrive_by_the_policy`), and after its messages the target
//! goes on as it means to (`messages_lead_on`). There is no code here but for laws: each is the contract of a function
//! that does nothing, over the bus that the rows show and over what is kept of them.
#![tactic(auto)]

mod aborts;
mod recoveries;
mod runs;

pub use aborts::abort_lines_are_over;
pub use recoveries::{complaints_follow, nothing_else_is_given_up, wrong_parity_is_recovered};
pub use runs::{commands_arrive_by_the_policy, data_runs_follow_the_policy, messages_lead_on};
