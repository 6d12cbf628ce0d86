//! Laws of prompt traces: what the two ends of a connection drive is what they are due to drive, until the byte
//! crosses; and so what crosses is what was to be said.
//!
//! `book_laws` asks of each row what the lines hold, and `link_laws` what the bytes say; here both are proved together,
//! row by row, of the traces in which each row is the first that is due, and with them what devices know and rows tell.
//! There is no code here but for laws: each is the contract of a function that does nothing.
#![tactic(auto)]

mod laws;

pub use laws::{
    connections_are_of_the_scenario, ends_know_what_rows_tell, limits_are_kept,
    prompt_traces_are_lawful, prompt_traces_keep_the_books,
};

// Handed on to the crates above that list this one and not these.
pub use story_laws::the_book_laws;
