//! The eighteen lines of the 8-bit SCSI-2 bus, the rows of a trace, the running view of the lines, and what stands on
//! the bus after some rows (ANSI X3.131-1994, clauses 5 and 6).
//!
//! A set of lines is `Lines`, which contracts see as a record: the nine data lines as a number, and
//! each other line as a truth value. A trace is a list of `Row`s, the newest first in every
//! definition: each says what a device drives from a time on. `specs/Trace.antt` says what a device
//! `drives` after some rows, what is on the `bus` (the union of what eight devices drive) and `since`
//! when a line has stood; `line_times` is that of all lines but the data lines. `specs/Terms.antt` says what
//! stands on the bus after some rows, lawful or not: an arbitration, a call (selection or reselection), a
//! connection, a byte that crosses. Stands on `bus_base` for its words.
//!
//! The public contract: a `LineView` that is stepped by each row of a trace, whatever its times, says at any
//! moment exactly what `drives`, `bus`, `since`, `line_times` and `last_time` say of the rows so far; and
//! `arbitration_after`, `call_after` and `connection_after` lead what stands from one row to the next.
//! `bus_lines` gives devices all of it at once.
#![tactic(auto)]

mod agreements;
mod arbitration;
mod changes;
mod connection;
mod delays;
mod laws;
mod line_set;
mod line_times;
mod line_view;
mod phases;
mod rows;
mod saved;
mod scsi_id;
mod selection;

pub use agreements::{
    Agreement, TransferTimes, UNLIMITED_OFFSET, is_same_agreement, times_of, transfer_times,
};
pub use arbitration::{Arbitration, arbitration_after, see_arbitration};
pub use changes::{
    Change, drives_data, falls, is_within, rises, same_hold, same_phase, same_stage,
};
pub use connection::{Connection, connection_after, receiver_of, see_connection};
pub use delays::{
    ARBITRATION_DELAY, ASSERTION_PERIOD, BUS_CLEAR_DELAY, BUS_FREE_DELAY, BUS_SET_DELAY,
    BUS_SETTLE_DELAY, CABLE_SKEW_DELAY, DATA_HOLD, DATA_RELEASE_DELAY, DESKEW_DELAY, ENTRY_DELAY,
    FAST_ASSERTION_PERIOD, FAST_CABLE_SKEW_DELAY, FAST_DATA_HOLD, FAST_DESKEW_DELAY,
    FAST_HOLD_TIME, FAST_NEGATION_PERIOD, FAST_SET_UP_TIME, HOLD_TIME, NEGATION_PERIOD, QUIET_TIME,
    RESET_HOLD_TIME, SELECTION_ABORT_TIME, SELECTION_TIMEOUT_DELAY, SET_UP_TIME, TURN_DELAY,
    TWO_DESKEW,
};
pub use laws::{
    agreements_are_an_equivalence, bounds_last, bytes_have_odd_parity, changes_are_past,
    changes_set_times, drivers_make_the_bus, ids_read_back, lines_by_number, lines_on_the_bus,
    rows_change_one_device, rows_come_in_order, sets_are_numbers, times_by_line,
};
pub use line_set::{Lines, byte_lines, parity};
pub use line_times::LineTimes;
pub use line_view::LineView;
pub use phases::{changes_phase, is_command, is_data, is_message_in, is_message_out, is_reserved};
pub use rows::{Kind, Row};
pub use saved::{
    SavedArbitration, SavedCall, SavedCalling, SavedConnection, SavedTime, SavedView, byte_in,
    byte_word, id_or_none_in, id_or_none_word, is_yes, lines_in, lines_word, word_of,
};
pub use scsi_id::ScsiId;
pub use selection::{Call, Calling, call_after, drives_two_ids, is_fault, see_call, when};

// Handed on to the crates above that list this one and not these.
pub use bus_base as the_bus_base;
