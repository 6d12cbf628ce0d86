//! The messages of the bus, and their bytes (ANSI X3.131-1994, 6.6).
//!
//! `MsgOut` is a message to the target, `MsgIn` one to the initiator. `encode_out` and `encode_in` give
//! a message's bytes; `decode_out` and `decode_in` say what a list of bytes begins with: a whole
//! message, less than one, or none. The grammar is a table of first bytes (`specs/Messages.antt`) and
//! what follows each (`specs/Grammar.antt`). Stands on `bus_trace` for the agreement that is offered.
//!
//! Public contract: `Whole` is answered exactly where a front of the bytes is a message, `More` exactly
//! where more bytes make a message of them, and `Unknown` exactly where no message can begin so
//! (`out_by_grammar`, `in_by_grammar`). No message begins another, and each has one spelling, which
//! reads back whatever follows it.
#![tactic(auto)]

mod decoding;
mod encoding;
mod laws;
mod message;

pub use decoding::{decode_in, decode_out};
pub use encoding::{encode_in, encode_out};
pub use laws::{in_by_grammar, no_message_begins_another, one_spelling, out_by_grammar};
pub use message::{Got, MsgIn, MsgOut};
