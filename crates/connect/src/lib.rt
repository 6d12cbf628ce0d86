//! From the free bus to a connection: what a device is due to do in arbitration, selection and reselection (ANSI
//! X3.131-1994, 6.1.1 to 6.1.4), and under RST (6.2.2).
//!
//! The reactions are those of `reaction_model`, each with the same name, in `free_bus.rt`, `caller.rt`, `called.rt`
//! and `reset.rt`; `linking.rt` chooses among them by the stage of the bus. A device stands in one of seven states
//! (`states.rt`), which say what it drives, since when, and what it wants; `transitions.rt` says to which of them the
//! view and its rows lead, and `stepping.rt` what it does in them. No call takes memory. Stands on `bus_lines` and
//! `reaction_model`.
//!
//! A run goes by [`link_due`] alone. The seven states serve a caller with devices of his own, one at a time, who steps
//! each by the clock; here only tests do.
//!
//! Public contract: of the view of any rows, lawful or not, [`link_due`] is the reaction that `due_model` applies; a
//! step of any state makes a row exactly where one is due by now, tells when one is due later, and samples the IDs
//! exactly where the device is called and its time has come (`IsStepOf` of `specs/Steps.antt`).
#![tactic(auto)]

mod called;
mod caller;
mod device;
mod free_bus;
mod laws;
mod linking;
mod reset;
mod states;
mod stepping;
mod transitions;

pub use laws::{linked_devices_are_ends, samples_are_answered, states_drive_their_rows};
pub use linking::{link_due, sample_time};
pub use reset::due_with_reset;
pub use states::{Answering, Calling, Contending, Idle, Link, Linked, Step, Waiting, Won};
