//! Laws of transcripts: when they have the events of the history that the same rows tell of a scenario.
//!
//! `specs/RowTests.antt` says which rows go on alike in a transcript and in the story (`fit`), and
//! `specs/Standing.antt` what is kept of both, row by row (`Standing`): the account of a process is what it has carried
//! (`Serving.antt`), each open process is the last of its nexus (`Keeping.antt`), each connection of an initiator has a
//! name of its own (`Numbered.antt`), and the connections that are over show the events that they made (`Past.antt`).
//! It goes on with every row that fits, and so the transcript of such rows has the events of their history.
//! Of a prompt trace each row fits, and no names run out, so its transcript has the events of its history.
//! There is no code here but for laws: each is the contract of a function that does nothing.
#![tactic(auto)]

mod laws;

pub use laws::{transcripts_follow_histories, transcripts_follow_prompt_traces};
