//! What an initiator keeps of its own commands, aborts and processes, row by row (ANSI X3.131-1994, 6.4, 6.6 and 7).
//!
//! A [`Book`] has its own commands, with their automatic REQUEST SENSEs, and its own aborts: which are sent and over,
//! and how often each was tried (`specs/Mines.antt`, `Books.antt`). An [`Intent`] keeps the book from row to row, and
//! so since when the initiator wants the bus, for what, and whom it calls (`Wishes.antt`, `Intents.antt`); what it says
//! first of that is [`process_opening`] or [`abort_opening`] (`Openings.antt`). [`HeldPair`] and [`OwnLink`] are the
//! pointers and the status of a command and of its REQUEST SENSE, and what a connection of its own belongs to
//! (`HeldPointers.antt`, `OwnLinks.antt`); `Transfers` of `initiator` goes on with them. [`Endings`] keeps how each of
//! its commands ended first (`Endings.antt`). `initiator` puts these parts of a device together with others. Stands on
//! `due_model`, `scsi_device` and `io_pointers`.
//!
//! Public contract: after any rows of the eight devices, lawful or not, an `Intent` and the `Endings` that were told of
//! each of them know what these make known (`IsIntentOf`, `AreEndingsOf`). No call but `new` takes memory.
#![tactic(auto)]

mod book;
mod checks;
mod choice;
mod commands;
mod endings;
mod held;
mod intent;
mod marks;
mod mine;
mod openings;
mod own_link;
mod wish;

pub use book::Book;
pub use endings::{CommandEnd, Ending, Endings, see_endings};
pub use held::{HeldPair, carry_held, hear_held, held_at, restore_held};
pub use intent::Intent;
pub use mine::{Mine, MyAbort, OwnItem};
pub use openings::{Words, abort_opening, process_opening};
pub use own_link::{LastMessage, OwnLink, bring_back, process_in, undo_of};

// Handed on to the crates above that list this one and not these.
pub use io_pointers as the_io_pointers;
pub use scsi_device as the_scsi_device;
