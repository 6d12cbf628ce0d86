//! REQ and ACK at the two ends of a connection, byte by byte and by pulses (ANSI X3.131-1994, 6.1.5 and 6.2.1).
//!
//! Each reaction is one function, and exactly the definition of the same name in `reaction_model`
//! (`specs/Target.antt`, `Initiator.antt`, `Ends.antt`): [`target_due`] and [`initiator_due`] say what an end does
//! next on the lines, and when, from what it sees of them, what it knows of itself and what it has to do in the
//! phase, and [`hand_due`] says the same of either end by the view of the bus. Stands on `bus_lines` and
//! `reaction_model`.
//!
//! A run goes by [`hand_due`] alone. The four ends with a step of their own ([`HostSend`], [`HostTake`],
//! [`TargetSend`], [`TargetTake`]) serve a caller with devices of his own, one at a time; here only tests step them.
//!
//! Public contract: for every list of rows, lawful or not, `hand_due` is the definition by which `due_model` says what
//! is due; and a step of [`HostSend`], [`HostTake`], [`TargetSend`] or [`TargetTake`] is what `specs/Steps.antt` says
//! of these rows. It makes a row exactly where the next reaction of its end is due at or before its time, and else
//! waits for that time (`rows_are_made_when_due`); a byte that crosses is told by one step
//! (`crossings_are_told_once`). No call takes memory.
#![tactic(auto)]

mod crossings;
mod due;
mod end_state;
mod hand;
mod hosts;
mod initiator;
mod laws;
mod situation;
mod steps;
mod target;
mod targets;

pub use bus_base::Ns;
pub use bus_lines::{BusView, Handshakes};
pub use bus_trace::{Agreement, Lines};
pub use due::hand_due;
pub use end_state::EndState;
pub use hand::{Crossed, Hand};
pub use hosts::{HostSend, HostTake};
pub use initiator::initiator_due;
pub use laws::{crossings_are_told_once, phases_are_stepped_alone, rows_are_made_when_due};
pub use reaction_model::{Answering, Due, Myself, Offering, Pace, Sight};
pub use target::target_due;
pub use targets::{TargetSend, TargetTake};
