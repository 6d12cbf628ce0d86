//! The initiators of a scenario: what each knows, what it does next, and how its commands ended (ANSI X3.131-1994, 6
//! and 7).
//!
//! A [`Host`] is an initiator of a scenario. It is told of every row and of the events that it shows (`Host::see`),
//! and what it does next is `Host::due`, which changes nothing. A run asks that alone; `Host::step`, what it does by a
//! clock, serves a caller with devices of his own, and here only tests call it.
//!
//! It has parts, each of which goes on by every row: `Itself` of `scsi_device`, when it made its own rows and drives
//! RST next; [`Intent`], which commands, automatic REQUEST SENSE and aborts of its own are sent and over, and so since
//! when it wants the bus, for what, and whom it calls; [`Negotiations`], with which targets it may still negotiate;
//! [`Speech`], what it says in MESSAGE OUT; [`Transfers`], the pointers and the status of its own processes, and to
//! which of them its connection belongs; [`Endings`] and [`Received`], how each of its commands ended, and the data
//! that came. `Intent` and `Endings`, and what `Transfers` keeps, stand in `initiator_books`. `specs/Hosts.antt` puts
//! the parts together, and each has a file of its own there; `specs/States.antt` and `Dues.antt` say what it does next
//! by what it knows. Stands on `initiator_books`, `scsi_device`, `due_model`, `dialogue_model`, `io_pointers`,
//! `connect` and `handshake`.
//!
//! Public contract: after any rows of the eight devices, lawful or not, a `Host` that was told of each of them knows
//! what these make known (`IsHostAfter`), and what it does next is exactly what is due of it (`Host::due`). No call but
//! `new` takes memory.
#![tactic(auto)]

mod causes;
mod due;
mod host;
mod laws;
mod negotiations;
mod outcome;
mod own_bytes;
mod received;
mod speech;
mod transfers;

pub use causes::endings_have_causes;
pub use due::{Knowledge, initiator_next};
pub use host::Host;
pub use initiator_books::{
    CommandEnd, Ending, Endings, Intent, Mine, MyAbort, OwnItem, Words, abort_opening,
    process_opening,
};
pub use laws::{
    dues_are_of_initiators, initiators_are_their_parts, initiators_have_no_unit, speeches_are_heard,
};
pub use negotiations::Negotiations;
pub use outcome::{command_outcome, is_settled};
pub use received::Received;
pub use run_record::Outcome;
pub use speech::Speech;
pub use transfers::Transfers;
