//! What a prompt trace tells at each row: what was sent and is open, what the messages of a connection say, and where
//! the data pointers stand: the second part of the proof of `trace_laws`, whose laws say what holds. There is no code
//! and no law here.
//!
//! `proofs/MAP.md` has the rooms, one for each fact that is kept from row to row.
#![tactic(auto)]

// Handed on to the crates above that list this one and not these.
pub use row_laws::the_book_laws;
