//! The scenario text: what stands on a bus, what its initiators want, and what goes wrong.
//!
//! A text is a list of lines, one kind after the other: the version, initiators, targets, units,
//! fills of blocks, tapes, loads of objects, commands, aborts, resets, faults, and `end`. docs/scenario.md tells the
//! whole format. The crate stands on `text_words` (lines and words), `cdb_codec` (what a command moves) and
//! `bus_base` (the names of devices, lists of bytes).
//!
//! Public contract: [`read`] gives the scenario that the bytes say, or the first line with a reason
//! and the lowest reason there, for every list of bytes, and only want of memory is free; what is
//! read obeys the rules. [`print`] gives the one spelling of a scenario, and reading it gives that scenario back
//! ([`reads_back`]). [`make`] gives the scenario of a number, which obeys the rules. [`need`] tells how many bytes a
//! command moves. The definitions stand in specs/: `Forms` and `Parts` (what a line says), `Reading` (line after line),
//! `Reasons` (each reason as a test, of which the lowest is told), `Needs`, `Writing` (the spelling, and the rules),
//! `Making` (the scenario of a number), and `ReasonText` (what a refusal prints).
#![tactic(auto)]

mod bounds;
mod defs;
mod draft;
mod fault;
mod form;
mod index;
mod kind;
mod laws;
mod limits;
mod lookup;
mod making;
mod needs;
mod reading;
mod reasons;
mod value;
mod writing;

pub use bounds::{COMMAND_LIMIT, LIMIT};
pub use bus_base::{AbortKind, NoMemory, Octets, Pick};
pub use fault::Bad;
pub use laws::{
    loads_are_for_tapes, needs_are_bounded, reads_back, tapes_alone_are_new, tapes_take_writes,
    tells_lowest,
};
pub use lookup::{host_line, tape_line, tape_unit, target_line, unit_line, unit_or_tape};
pub use making::make;
pub use needs::{is_write, need, sent_count};
pub use reading::read;
pub use value::{
    AbortDef, CmdDef, FaultDef, FillDef, HostDef, Load, LoadDef, Payload, Policy, ResetDef,
    Scenario, Tag, TapeDef, TargetDef, UnitDef,
};
pub use writing::print;

// Handed on to the crates above that list this one and not these.
pub use bus_base as the_bus_base;
