//! A target of a scenario: what it knows, row by row, and what it does next (ANSI X3.131-1994, 6 and 7).
//!
//! A [`Target`] puts together what `target_course` and `target_units` keep for it: its own rows, its logical units, how
//! far its processes have come, with whom it has negotiated, which bytes came of its present writes, and, in a
//! connection of its own, what it has heard in that ([`Course`](target_course::Course)) with the reply of the process
//! that it serves. It asks its units what they tell of that process, and for the byte of data that it may drive next,
//! and so says what it does next and when, and which events it shows with a row. What it decides by in a connection of
//! its own it keeps (`specs/Knowns.antt`), and makes it anew only with a row that changes more of it than the plan.
//! [`Processes`] keeps the units with the [`Standing`] of the process of the connection: whether that stands in the
//! queue of its unit, or outside it with a reply of its own. Stands on `target_course`, `target_units`, `disk_unit`,
//! `scsi_device`, on the reactions of `connect` and `handshake`, and on the definitions of `array_model` and
//! `due_model`.
//!
//! What it does next goes by layers: a reset of its own before all else (`Target::due`), then the connection that
//! stands, if RST is false (`calm_due`), and in one of its own REQ and ACK (`plain_due`), by what it has to do in the
//! phase (`offering`).
//!
//! A run asks what is due of it (`Target::due`). `Target::step`, what it does by a clock, serves a caller with devices
//! of his own, and nothing here calls it.
//!
//! Public contract: after `new` and a `see` for each row each part knows what the rows made known
//! (`specs/Targets.antt`, `IsTargetAfter`). So what a target does next is exactly what is due of it, what it shows with
//! a row is what the target of that connection shows, and its units are those of the plain disk array. `see` rests on
//! six tests of the rows (`AreTied`), of which `attended` is stated here (`specs/Attended.antt`): which events a row
//! shows in a connection. Each event of a row does to the units and to the process what it does to the array
//! (`specs/Processes.antt`, `AreProcessesOf`, `AreKeptOf`). Only `new` takes memory.
#![tactic(auto)]

mod bytes;
mod due;
mod known;
mod processes;
mod standing;
mod target;
mod turn;

pub use processes::{Processes, units_stay_by_row};
pub use standing::Standing;
pub use target::Target;
pub use target_course::the_target_units::Served;

// Handed on to the crates above that list this one and not these.
pub use target_course as the_target_course;
pub use target_course::{the_scsi_device, the_target_units};
