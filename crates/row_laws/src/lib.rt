//! What each row of a prompt trace is, by the stage of the bus, and what the two ends of a connection drive: the first
//! part of the proof of `trace_laws`, whose laws say what holds. There is no code and no law here.
//!
//! `proofs/MAP.md` has the rooms: what the lines show row by row, that what both ends give are bytes, what an event of
//! the plain disk array keeps, and who the two ends of a connection are.
#![tactic(auto)]

// Handed on to the crates above that list this one and not these.
pub use book_laws as the_book_laws;
