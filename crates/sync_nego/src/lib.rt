//! Negotiation of synchronous data transfer between an initiator and a target (ANSI X3.131-1994, 6.6.21).
//!
//! Each end keeps one [`Nego`] for every device that it negotiates with: what it offers itself, what the two
//! have agreed on, and whether it may still offer. `specs/Negotiation.antt` says what each call does; the
//! answer to a request is that of `dialogue_model` (`specs/Words.antt`). `specs/Exchange.antt` says what an
//! exchange of messages is, which messages of it count, and what either end does as it says and hears them.
//!
//! It serves a caller with devices of his own, who keeps a [`Nego`] for each; the devices of a run keep what they have
//! agreed on by the definitions of `story_model`, so here only tests call it.
//!
//! Public contract: after any exchange, lawful or not, both ends hold the agreement that its messages tell by
//! the rules (`ends_hold_what_is_told`), and so the one that the rows of a trace tell, which make such an
//! exchange, as `specs/Rows.antt` says (`ends_hold_what_rows_tell`); and a request that is answered, after any
//! number of void answers, settles both ends on the answer, or on asynchronous transfer where it is rejected
//! (`requests_settle_both_ends`).
#![tactic(auto)]

mod laws;
mod nego;

pub use laws::{
    ends_hold_what_is_told, ends_hold_what_rows_tell, replies_are_answers,
    requests_settle_both_ends,
};
pub use nego::Nego;
