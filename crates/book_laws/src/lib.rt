//! The books of a trace: what the two ends of each connection say, hear and carry, and that what crosses is what was
//! to be said.
//!
//! `specs/Speaking.antt` (MESSAGE OUT), `Giving.antt` (MESSAGE IN), `Knowing.antt` (the process of a connection) and
//! `Carrying.antt` (COMMAND and data) have a part of the books each, and what it asks of a row; `Listening.antt` what
//! a listener makes of bytes. `Rows.antt`, `Hearing.antt`, `Reactions.antt` and `Traces.antt` say of a row what the
//! lines show and what is due, and of a trace that its rows are such; `RowTests.antt` the same as a test.
//! `Tests.antt`, with `Accounts.antt`, has the books in full as tests, the data runs and the place of each process in
//! the plain disk array included, of which the laws prove a part; they hold after every row of the runs of `due_model`.
//!
//! Beside them stands why a command ends badly at its target: QUEUE FULL, CHECK CONDITION with the sense of ABORTED
//! COMMAND, or lost. `FullQueues.antt` says when a queue is full as a command arrives, and what a reply rests on in a
//! history of events; `Strikes.antt` finds the fault rows of the bytes by which a command fails; `WrongParity.antt`
//! counts the phases of a process in which parity was wrong, and says that its target gives it up. All compute. How a
//! command ended as its initiator knows it has its cause in the history by a law of `initiator`
//! (`endings_have_causes`); here is the cause of what the history has.
//!
//! No device and no rule stands on this crate. There is no code here but for laws: each is the contract of a function
//! that does nothing.
#![tactic(auto)]

mod causes;
mod laws;

pub use causes::{
    failures_have_strikes, give_ups_have_causes, limits_are_passed, refusals_have_causes,
    replies_have_causes,
};
pub use laws::{
    aims_are_items, books_hold_after_all_rows, bytes_that_are_due_are_next,
    callees_are_the_other_end, initiators_know_the_process, initiators_say_what_is_asked,
    message_phases_are_whole, messages_are_given_whole, openings_are_heard,
    processes_carry_their_own_bytes, rows_of_connections_are_faithful, targets_give_what_they_plan,
};
