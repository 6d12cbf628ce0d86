//! What REQ, ACK, ATN and the bytes make of the information transfer phases after some rows, lawful or not (ANSI
//! X3.131-1994, 6.1.5 to 6.1.9, 6.2.1 and 6.6).
//!
//! `specs/Phases.antt` says how often REQ and ACK have risen in the present phase and what ATN asks of the target;
//! `specs/Dialogue.antt` what the messages of a connection have said: the agreement on synchronous data transfer, an
//! open request, the bytes of COMMAND, and what a void message takes back; `specs/Reading.antt` and `Half.antt` what
//! a byte makes of a message, which may be half sent. Each goes on by one step a row, where `bus_trace` says what
//! stands on the bus. Stands on `bus_trace`, `msg_grammar` and `bus_base`.
//!
//! The public contract: each type here, stepped by each row, is what those definitions say of the rows so far. The
//! rules and the judge stand on it, and so does what a trace tells.
#![tactic(auto)]

mod agreements;
mod attention;
mod dialogue;
mod half;
mod pulses;
mod raises;
mod reading;
mod saved;
mod spoken;
mod words;

pub use agreements::{Agreements, agree};
pub use attention::{Duty, duty_after, is_attention_held};
pub use bus_trace::{Agreement, Change, Connection, Lines};
pub use dialogue::Dialogue;
pub use half::Half;
pub use msg_grammar::{Got, MsgIn, MsgOut};
pub use pulses::{Pulses, count_after, no_pulses, pulses_after, turned_after};
pub use raises::Raises;
pub use reading::{Reading, reading_in, reading_out};
pub use saved::{
    SavedDialogue, SavedHalf, SavedHeard, SavedPulses, SavedSpoken, duty_in, duty_word,
};
pub use spoken::{CommandBytes, Heard, Spoken, asynchronous};
pub use words::{End, Word, is_same_end, word_in, word_out};

// Handed on to the crates above that list this one and not these.
pub use bus_trace as the_bus_trace;
pub use msg_grammar as the_msg_grammar;
