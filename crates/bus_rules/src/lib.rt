//! The rules that any trace of the bus has to obey, and a judge of traces (ANSI X3.131-1994, clause 6).
//!
//! What stands on the bus after some rows, lawful or not, is said by `bus_trace`: an arbitration, a call
//! (selection or reselection), a connection, a byte that crosses. `bus_phases` goes on from there: pulses,
//! attention, messages. `specs/Order.antt`, `FreeBus.antt`, `Selection.antt`, `Connected.antt`, `Transfer.antt`,
//! `Messages.antt` and `Reset.antt` have one test a rule, of a row after the rows before it, and `specs/Rules.antt` the
//! rules by their numbers. It stands on `bus_phases`, `bus_trace`, `cdb_codec` and `bus_base`.
//!
//! Its contract: [`broken`] and [`broken_end`] are the lowest rule that a row, or the end, breaks;
//! [`judge_plain`] is the first broken row of a trace with its lowest rule. [`Terms`] are the terms of
//! the rows so far, one step a row, for a judge that goes forward.
#![tactic(auto)]

mod connected;
mod course;
mod data_rows;
mod free_bus;
mod judge;
mod laws;
mod message_rules;
mod order;
mod reset;
mod rules;
mod saved;
mod saved_course;
mod saved_terms;
mod saved_view;
mod seen;
mod selection_rules;
mod standing;
mod terms;
mod transfer;
mod verdict;

pub use bus_base::{Dev, Ns};
pub use bus_trace::{Arbitration, Call, Calling, Change, Connection, Kind, Lines, Row};
pub use course::Course;
pub use judge::{broken, broken_end, end_row, judge_plain};
pub use laws::{broken_rules_are_lowest, verdicts_are_first};
pub use order::is_of_device;
pub use rules::{lowest_at_end, lowest_broken};
pub use saved::SavedCourse;
pub use saved_terms::SavedTerms;
pub use seen::Seen;
pub use standing::Standing;
pub use terms::Terms;
pub use verdict::{RuleNo, Verdict};
