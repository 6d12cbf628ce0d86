//! The logical units of a target, each at its seat of the plain disk array (ANSI X3.131-1994, clauses 7 to 9).
//!
//! [`Units`] are the eight of a target: a [`LogicalUnit`] is there, a [`SeatedUnit`] with its queue, its hold and its
//! disk or tape, or it is not, an [`AbsentUnit`], which keeps senses and a hold all the same. [`Ready`] is the unit
//! whose current process is ready for a reselection, and [`Served`] a process as its target knows it. Stands on
//! `disk_unit`, `tape_unit`, `tag_queue`, `scsi_device` and the definitions of `array_model` and `due_model`.
//!
//! Public contract: where each unit stands at its seat (`specs/Units.antt`, `AreUnitsOf`), as it does before any event,
//! it does so after every event that the array permits, with the choice that follows it; and what it tells is that of
//! the array. Only `new`, `tape` and `of` take memory, and it is enough for the blocks of all commands that have no
//! reply yet (`specs/Rooms.antt`). At the end the disk or tape of each unit is handed out.
#![tactic(auto)]

mod absent;
mod fillings;
mod laws;
mod loads;
mod logical;
mod parts;
mod ready;
mod seated;
mod served;
mod units;

pub use absent::AbsentUnit;
pub use laws::{
    arrivals_give_no_reply, units_are_of_their_lines, units_hold_their_blocks, units_stay,
};
pub use logical::LogicalUnit;
pub use ready::Ready;
pub use seated::SeatedUnit;
pub use served::Served;
pub use units::Units;

// Handed on to the crates above that list this one and not these.
pub use scsi_device as the_scsi_device;
