// The delays of the bus in nanoseconds (ANSI X3.131-1994, clause 5, "SCSI bus timing"), and the sums
// of them that the rules of clauses 5 and 6 name.

use bus_base::Ns;

/// Arbitration delay: the least time from asserting BSY for arbitration until the data bus is examined
/// to see whether arbitration has been won.
pub const ARBITRATION_DELAY: Ns = 2400;

/// Assertion period: the least time that REQ or ACK is true in a synchronous data transfer.
pub const ASSERTION_PERIOD: Ns = 90;

/// Bus clear delay: the most time in which a device stops driving all lines, after the bus is free,
/// after SEL is seen from another device in arbitration, or after RST becomes true.
pub const BUS_CLEAR_DELAY: Ns = 800;

/// Bus free delay: the least time from the detection of the bus free phase until a device asserts BSY
/// to arbitrate.
pub const BUS_FREE_DELAY: Ns = 800;

/// Bus set delay: the most time from the detection of the bus free phase until a device asserts BSY and
/// its ID bit to arbitrate.
pub const BUS_SET_DELAY: Ns = 1800;

/// Bus settle delay: the least time that the bus is given to settle after certain lines change.
pub const BUS_SETTLE_DELAY: Ns = 400;

/// Cable skew delay: the most difference in propagation time between any two lines.
pub const CABLE_SKEW_DELAY: Ns = 10;

/// Data release delay: the most time in which an initiator releases the data lines after I/O becomes
/// true.
pub const DATA_RELEASE_DELAY: Ns = 400;

/// Deskew delay: the least time that lines are given to arrive together.
pub const DESKEW_DELAY: Ns = 45;

/// Hold time: the least time that the data lines stay after REQ or ACK in a synchronous data transfer.
pub const HOLD_TIME: Ns = 45;

/// Negation period: the least time that REQ or ACK is false between two pulses in a synchronous data
/// transfer.
pub const NEGATION_PERIOD: Ns = 90;

/// Reset hold time: the least time that RST is true.
pub const RESET_HOLD_TIME: Ns = 25_000;

/// Selection abort time: the most time from the last detection of being selected until a device asserts
/// BSY as a response.
pub const SELECTION_ABORT_TIME: Ns = 200_000;

/// Selection time-out delay: the least time that a device waits for BSY as a response before it gives
/// a selection up.
pub const SELECTION_TIMEOUT_DELAY: Ns = 250_000_000;

/// The least time from valid data lines to REQ or ACK: a deskew delay and a cable skew delay.
pub const SET_UP_TIME: Ns = DESKEW_DELAY + CABLE_SKEW_DELAY;

/// The least time that data lines stay after the pulse in a synchronous data transfer: a deskew delay,
/// a cable skew delay and the hold time.
pub const DATA_HOLD: Ns = DESKEW_DELAY + CABLE_SKEW_DELAY + HOLD_TIME;

/// Two deskew delays, as a selecting device waits before it releases BSY.
pub const TWO_DESKEW: Ns = DESKEW_DELAY + DESKEW_DELAY;

/// The least time from the release of BSY and SEL to an entry into arbitration: a bus settle delay,
/// after which the bus is free, and a bus free delay.
pub const ENTRY_DELAY: Ns = BUS_SETTLE_DELAY + BUS_FREE_DELAY;

/// The time after which a bus that becomes free, or an arbitration that is won, is quiet: a bus clear
/// delay and a bus settle delay.
pub const QUIET_TIME: Ns = BUS_CLEAR_DELAY + BUS_SETTLE_DELAY;

/// The least time from asserting I/O until the target drives the data lines: a data release delay and a
/// bus settle delay.
pub const TURN_DELAY: Ns = DATA_RELEASE_DELAY + BUS_SETTLE_DELAY;

/// Fast assertion period: the least time that REQ or ACK is true in a fast synchronous data transfer.
/// The values of the fast times are a choice of this project.
pub const FAST_ASSERTION_PERIOD: Ns = 30;

/// Fast negation period: the least time that REQ or ACK is false between two pulses in a fast
/// synchronous data transfer. A choice of this project.
pub const FAST_NEGATION_PERIOD: Ns = 30;

/// Fast deskew delay: the least time that lines are given to arrive together in a fast synchronous data
/// transfer. A choice of this project.
pub const FAST_DESKEW_DELAY: Ns = 20;

/// Fast cable skew delay: the most difference in propagation time between any two lines in a fast
/// synchronous data transfer. A choice of this project.
pub const FAST_CABLE_SKEW_DELAY: Ns = 5;

/// Fast hold time: the least time that the data lines stay after REQ or ACK in a fast synchronous data
/// transfer, beside the deskew and cable skew delays. A choice of this project.
pub const FAST_HOLD_TIME: Ns = 10;

/// The least time from valid data lines to REQ or ACK in a fast synchronous data transfer: a fast deskew
/// delay and a fast cable skew delay.
pub const FAST_SET_UP_TIME: Ns = FAST_DESKEW_DELAY + FAST_CABLE_SKEW_DELAY;

/// The least time that data lines stay after the pulse in a fast synchronous data transfer: a fast
/// deskew delay, a fast cable skew delay and the fast hold time.
pub const FAST_DATA_HOLD: Ns = FAST_DESKEW_DELAY + FAST_CABLE_SKEW_DELAY + FAST_HOLD_TIME;
