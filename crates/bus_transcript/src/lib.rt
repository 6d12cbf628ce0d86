//! Transcripts: what the rows of a trace show and carry, of any bus, in connections, messages, command blocks, data,
//! status and events, with each process named by its nexus (ANSI X3.131-1994, 6.5).
//!
//! `specs/Rows.antt` says what the transcript of some rows is, row by row, `specs/Opened.antt` what the connection
//! that stands has carried so far, part by part, without void messages and bytes that were begun anew,
//! `specs/Nexus.antt` what its messages say of it, `specs/Processes.antt` to which process it belongs,
//! `specs/Accounts.antt` what its parts make of that process, by the pointers, and `specs/Text.antt` the text of a
//! transcript. It stands on `story_model` for the bus and the messages on it, on `bus_trace`, `bus_phases`,
//! `msg_grammar` and `cdb_codec` for their words, on `row_store` for rows that are kept, and on `text_pages`.
//!
//! Its contract: a [`Transcriber`] that sees any rows one by one is exactly what `transcribed` says of them, and
//! [`transcribe`] gives the items of `transcript_of`; [`print_transcript`] writes exactly their text to any sink, or a
//! front of it where the sink fails. What is kept is the items, the parts of the connection that stands, and of each
//! nexus its last process.
#![tactic(auto)]

mod account;
mod bus;
mod item;
mod laws;
mod opened;
mod part;
mod printing;
mod process;
mod summary;
mod transcriber;

pub use bus_base::{AbortKind, Dev, Failed, NoMemory, Ns, Octets, Sink};
pub use bus_trace::Row;
pub use item::{Item, Name, Transcript};
pub use laws::{
    events_stand_in_connections, processes_are_numbered, resets_are_told, transcripts_go_on,
    void_messages_leave_nothing,
};
pub use msg_grammar::{MsgIn, MsgOut};
pub use part::{Incoming, Part};
pub use printing::print_transcript;
pub use process::Process;
pub use run_record::Run;
pub use scenario::Scenario;
pub use summary::{Departure, Summary};
pub use transcriber::{Transcriber, transcribe, transcribe_run};
