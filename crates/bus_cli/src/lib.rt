//! What the program does: it runs a scenario and writes the report or the transcript of the run, makes the scenario of
//! a number, judges a trace, writes the transcript of a trace, or turns a trace into a value change dump and back.
//!
//! [`bus_main`] is the program over a source, a sink and a counter of steps: it looks at the words,
//! reads the whole input, and writes the report, the verdict, or the one line of a refusal. [`Status`] is
//! how it ended, and the program's exit status. `words` tells what the words ask; `running` is the word `run`,
//! `making` the word `make`, `judging` the word `judge`, `transcribing` the word `transcript`, `dumping` the word `vcd`
//! and `undumping` the word `unvcd`. The words `transcript` and `vcd` judge a trace before they write, so its rows are
//! kept (`kept`), in a few bytes each, and then judged (`verdict`).
//!
//! It stands on `text_words` for numbers, on `scenario` for the text of scenarios, on `bus_engine` for their runs, on
//! `trace_text` for the texts of reports and traces, on `row_store` for rows that are kept, on `bus_rules` and
//! `trace_checker` for the verdict on a trace, on `bus_transcript` for transcripts, on `vcd_text` for dumps, and on
//! `bus_base` for input and output. Its contract: each status has its cause, and what is written is exactly what the
//! bytes of the input ask for; with good words and no fault the status is the one that they ask for, or there was no
//! memory. What `vcd` writes of a lawful trace without a fault `unvcd` reads again ([`lawful_dumps_read_back`]).
#![tactic(auto)]

mod answers;
mod dumping;
mod hearing;
mod judging;
mod kept;
mod laws;
mod making;
mod running;
mod saying;
mod status;
mod top;
mod transcribing;
mod undumping;
mod verdict;
mod words;

pub use bus_base::{Sink, Source, Steps};
pub use laws::lawful_dumps_read_back;
pub use status::Status;
pub use top::bus_main;
