// What two devices have agreed on for synchronous data transfers (ANSI X3.131-1994, 6.6.21), and the
// times that a transfer period brings with it (5.7 and 6.1.5.2).

ghost use Rattle.std.specs.Prelude.{◌≡◌};
ghost use Rattle.bus_trace.specs.Agreements.{same_agreement, transfer_times, times_of, AreTimes};

use crate::delays::{
    ASSERTION_PERIOD, DATA_HOLD, FAST_ASSERTION_PERIOD, FAST_DATA_HOLD, FAST_NEGATION_PERIOD,
    FAST_SET_UP_TIME, NEGATION_PERIOD, SET_UP_TIME,
};
use bus_base::Ns;

/// The least transfer period factor that is served here, 100 ns: the fastest of fast synchronous
/// data transfer.
const LEAST_FACTOR: u8 = 25;

/// The least transfer period factor of a transfer that is not fast, 200 ns.
const LEAST_SLOW_FACTOR: u8 = 50;

/// The REQ/ACK offset that means no limit (6.6.21).
pub const UNLIMITED_OFFSET: u8 = 255;

/// A data transfer agreement of an initiator and a target (6.6.21).
#[derive(Clone, Copy, PartialEq, Eq, Debug)]
pub struct Agreement {
    /// The transfer period factor, in units of 4 ns.
    pub period: u8,
    /// The REQ/ACK offset: by how many REQ pulses a target may be ahead of the ACK pulses; 0 is
    /// asynchronous data transfer.
    pub offset: u8,
}

/// The times of a synchronous data transfer, in ns.
#[derive(Clone, Copy, PartialEq, Eq, Debug)]
pub struct TransferTimes {
    /// The least time from the leading edge of a REQ or ACK pulse to that of the next.
    pub period: Ns,
    /// The least time that REQ or ACK is true.
    pub assertion: Ns,
    /// The least time that REQ or ACK is false.
    pub negation: Ns,
    /// The least time from valid data lines to the pulse.
    pub set_up: Ns,
    /// The least time from the beginning of the pulse that the data lines stay.
    pub hold: Ns,
}

/// Whether two agreements are the same: both are asynchronous, whatever their periods, or period and
/// offset are equal.
pub fn is_same_agreement(a: Agreement, b: Agreement) -> bool
    ensures { result ≡ same_agreement a b }
{
    let both_asynchronous = a.offset == 0 && b.offset == 0;
    both_asynchronous || (a.period == b.period && a.offset == b.offset)
}

/// The times that go with a transfer period factor, `None` below the least factor, 25. A factor from
/// 25 to 49, a period below 200 ns, is fast synchronous data transfer.
pub fn transfer_times(factor: u8) -> Option<TransferTimes>
    ensures { result ≡ transfer_times factor }
{
    if factor < LEAST_FACTOR {
        return None;
    }
    let period = 4 * Ns::from(factor);
    if factor < LEAST_SLOW_FACTOR {
        return Some(TransferTimes {
            period,
            assertion: FAST_ASSERTION_PERIOD,
            negation: FAST_NEGATION_PERIOD,
            set_up: FAST_SET_UP_TIME,
            hold: FAST_DATA_HOLD,
        });
    }
    Some(TransferTimes {
        period,
        assertion: ASSERTION_PERIOD,
        negation: NEGATION_PERIOD,
        set_up: SET_UP_TIME,
        hold: DATA_HOLD,
    })
}

/// The times of a transfer period factor; below the least of them those of a transfer that is not fast.
pub fn times_of(factor: u8) -> TransferTimes
    ensures exact { result ≡ times_of factor }
    ensures times { AreTimes result }
{
    match transfer_times(factor) {
        Some(times) => times,
        None => TransferTimes {
            period: 4 * Ns::from(factor),
            assertion: ASSERTION_PERIOD,
            negation: NEGATION_PERIOD,
            set_up: SET_UP_TIME,
            hold: DATA_HOLD,
        },
    }
}
