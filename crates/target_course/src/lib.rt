//! The target of a connection: what it hears in it, and what it decides by that (ANSI X3.131-1994, 6.1, 6.2 and 6.6).
//!
//! A target keeps a `Plan` of the connection in which it stands, which goes on by what each row tells it
//! ([`first_plan`], [`plan_after`]), and decides by its [`Serving`]: its line of the scenario, the plan, and a `Task`
//! of the process that it serves. [`leaving_by`] says how it leaves a phase, [`arrival_by`] what becomes of a command
//! as it arrives, [`follows_by`] whether a byte follows in the phase, [`phase_byte`] which one it gives, [`lines_by`]
//! what it drives as it leaves, and [`leaving_shown`] which events it shows then. A [`Course`] is what it has heard in
//! the connection, of which it makes the serving. What its unit gives comes in as a [`ProcessState`], and as a byte at
//! the place that [`process_byte_place`] names. Beside its units a target keeps how far its processes have come
//! ([`Progress`]), with whom it has negotiated ([`Negotiated`]), and which bytes came of its present writes
//! ([`Gathered`]); each is told of every row. Stands on the definitions of `dialogue_model` and `due_model`, and on
//! `target_units`.
//!
//! Public contract: each of these is exactly the definition of the same name, whatever it is given; a plan that is kept
//! so is the one that the rows tell (`plans_are_heard`); and after any rows what is due of a target is what
//! `specs/Dues.antt` says of what it knows (`dues_are_of_targets`, by `IsTargetOf` of `specs/States.antt`), which is
//! what `disk_target` makes of all this. No call takes memory.
#![tactic(auto)]

mod arrivals;
mod commands;
mod course;
mod data_runs;
mod events;
mod gathered;
mod laws;
mod negotiated;
mod next_phase;
mod offering;
mod phase_bytes;
mod plans;
mod progress;
mod replies;
mod serving;

pub use arrivals::arrival_by;
pub use commands::{blocks_named, is_request_sense, is_whole, is_write};
pub use course::{Course, Name, ProcessState};
pub use data_runs::{
    has_further_run, process_byte_place, run_length, run_length_if, runs_in, runs_in_all,
};
pub use events::{Shown, leaving_shown};
pub use gathered::{Gathered, brings_byte, place_in_run};
pub use laws::{dues_are_of_targets, plans_are_heard};
pub use negotiated::Negotiated;
pub use next_phase::{leaving_by, phase_leaving, phase_of, waits_seek};
pub use offering::{follows_by, seek_before};
pub use phase_bytes::{follows_in, lines_by, phase_byte, phase_lines};
pub use plans::{first_plan, plan_after};
pub use progress::{Counts, CountsPair, Progress, is_phase_left};
pub use replies::{replies_come_later, reply_after};
pub use serving::Serving;

// Handed on to the crates above that list this one and not these.
pub use target_units as the_target_units;
pub use target_units::the_scsi_device;
