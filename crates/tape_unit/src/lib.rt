//! Tapes as media of logical units (ANSI X3.131-1994, clauses 8.2 and 10.2).
//!
//! A [`TapeMedium`] holds blocks of one size and filemarks, one after the other, and stands at a position between two
//! of them. Its commands read and write at the position, move over what stands there, and go back to the beginning. A
//! write cuts off what stood behind the position. A [`Drive`] is a disk or a tape. The crate stands on `disk_unit` for
//! disks and for the trait that all of them meet, on `array_model` for what a command makes of a tape, and on
//! `cdb_codec` for the commands.
//!
//! Public contract: `TapeMedium` and `Drive` are a `Medium`: what a command answers, which bytes it gives and takes,
//! and what the tape or the disk is afterwards are those of the plain disk array (`specs/Stored.antt`,
//! `specs/Drives.antt`); each further call of a tape is exact on the objects, the position, and how many blocks may
//! still be added. No call but `new` takes memory.
#![tactic(auto)]

mod commands;
mod drive;
mod laws;
mod medium;
mod stored;
mod tape;
mod walk;

pub use drive::Drive;
pub use laws::tapes_change_as_they_say;
pub use medium::tape_cost;
pub use tape::TapeMedium;
