//! Laws of connections: each row of a prompt trace obeys the rules, and nothing that is due lies in the past.
//!
//! `bus_laws` goes from stage to stage up to a connection, and this crate from there on. `specs/Phases.antt` says what
//! the two ends drive in each stage of a connection, and since when: before the first phase, as a phase begins and I/O
//! turns, byte by byte; `specs/Pulses.antt` the same of data phases by pulses, with when each end acts next. What the
//! bytes say is not told by the lines: `specs/Books.antt` has what the laws ask of it, as tests of rows. There is no
//! code here but for laws: each is the contract of a function that does nothing.
#![tactic(auto)]

mod laws;

pub use laws::{connections_go_on, traces_are_lawful};
