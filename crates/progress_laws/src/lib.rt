//! Laws of prompt traces: nothing stalls, and at the end each command has its outcome.
//!
//! In a connection one of its ends is due to act, in an arbitration the contender of the highest ID, in a calling the
//! caller, and under RST the devices that drive it: so where nothing is due of any device, the bus is free and no line
//! is true. A command that is open then would be in a connection, in a queue that is not held, for which its target
//! would reselect, or behind a hold, which its initiator would end by REQUEST SENSE: so none is. There is no code here
//! but for laws: each is the contract of a function that does nothing.
#![tactic(auto)]

mod laws;

pub use laws::{ended_traces_are_quiet, ended_traces_have_outcomes};

// Handed on to the crates above that list this one and not these.
pub use trace_laws as the_trace_laws;
pub use trace_laws::the_book_laws;
