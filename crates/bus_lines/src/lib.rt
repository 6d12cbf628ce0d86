//! What devices have of the 8-bit SCSI-2 bus: the running view of a trace with the stage of the bus (ANSI
//! X3.131-1994, clauses 5 and 6).
//!
//! Lines, rows and what stands on the bus after them are those of `bus_trace`, which are named here again.
//! `specs/Stage.antt` says what stage the bus is in, `Effect.antt` what the last row did, and `Handshakes.antt`
//! the rises of REQ and ACK in the present phase. Stands on `bus_trace` and `bus_base`.
//!
//! The public contract: a `BusView` that is stepped by each row of a trace, whatever its times, says at any
//! moment exactly what `drives`, `bus`, `since`, `stage`, `connection`, `effect` and `handshakes` say of the
//! rows so far. The judge has the leaner `LineView` of `bus_trace`.
#![tactic(auto)]

mod effect;
mod handshakes;
mod laws;
mod stage;
mod view;

pub use bus_trace::{
    ARBITRATION_DELAY, ASSERTION_PERIOD, Agreement, Arbitration, BUS_CLEAR_DELAY, BUS_FREE_DELAY,
    BUS_SET_DELAY, BUS_SETTLE_DELAY, CABLE_SKEW_DELAY, Call, Calling, Change, Connection,
    DATA_HOLD, DATA_RELEASE_DELAY, DESKEW_DELAY, ENTRY_DELAY, HOLD_TIME, Kind, LineTimes, LineView,
    Lines, NEGATION_PERIOD, QUIET_TIME, RESET_HOLD_TIME, Row, SELECTION_ABORT_TIME,
    SELECTION_TIMEOUT_DELAY, SET_UP_TIME, ScsiId, TURN_DELAY, TWO_DESKEW, TransferTimes,
    UNLIMITED_OFFSET, byte_lines, parity, see_call, transfer_times,
};
pub use effect::{RowEffect, effect_of, no_effect};
pub use handshakes::{Handshakes, Request};
pub use laws::{few_requests_wait, views_are_timely};
pub use stage::{Stage, call_stage};
pub use view::BusView;

// Handed on to the crates above that list this one and not these.
pub use bus_trace as the_bus_trace;
pub use bus_trace::the_bus_base;
