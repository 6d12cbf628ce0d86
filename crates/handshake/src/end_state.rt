// What an end keeps from step to step, and what it knows of itself.
ghost use Rattle.std.specs.Prelude.{ℕ, ◌≡◌, ◌<◌, ◌≤◌, ◌^◌, List};
ghost use Rattle.bus_trace.specs.declared.rows.Row.{Row};
ghost use Rattle.bus_lines.specs.BusView.{IsBusViewOf};
ghost use Rattle.bus_trace.specs.Agreements.{slow_times};
ghost use Rattle.handshake.specs.Bounds.{IsReady, IsSteady};
ghost use Rattle.handshake.specs.Steps.{times_or, pace_of, new_state, IsBounded, self_of, answering_by, offering_by};

use bus_base::{Dev, Ns};
use bus_lines::BusView;
use bus_trace::{
    ASSERTION_PERIOD, Agreement, DATA_HOLD, Lines, NEGATION_PERIOD, SET_UP_TIME, TransferTimes,
    transfer_times,
};
use reaction_model::{Answering, Myself, Offering, Pace};

/// What an end of a connection keeps from step to step in a phase.
#[derive(Clone, Copy)]
pub struct EndState {
    /// How bytes cross.
    pub pace: Pace,
    /// Its latency, in ns.
    pub latency: Ns,
    /// When it last made a row, in ns, or 0.
    pub since: Ns,
    /// When it last raised ACK, in ns, or 0.
    pub raised: Ns,
    /// How many bytes it knew at its last step to have crossed in the phase.
    pub byte_count: u64,
}

// The times of a synchronous data transfer that is not fast, for a factor that has none.
fn slow_times(factor: u8) -> TransferTimes
    ensures { result ≡ slow_times factor }
{
    TransferTimes {
        period: 4 * Ns::from(factor),
        assertion: ASSERTION_PERIOD,
        negation: NEGATION_PERIOD,
        set_up: SET_UP_TIME,
        hold: DATA_HOLD,
    }
}

fn times_or(slow: TransferTimes, times: Option<TransferTimes>) -> TransferTimes
    ensures { result ≡ times_or slow times }
{
    match times {
        None => slow,
        Some(times) => times,
    }
}

fn pace_of(agreed: Agreement, lag: Ns) -> Pace
    requires { lag ≤ 10000 }
    ensures exact { result ≡ pace_of agreed lag }
    ensures steady { IsSteady result }
{
    let times = transfer_times(agreed.period);
    Pace {
        pulsed: agreed.offset != 0 && times.is_some(),
        offset: agreed.offset,
        times: times_or(slow_times(agreed.period), times),
        lag,
    }
}

/// An end as a phase begins.
pub fn new_state(agreed: Agreement, latency: Ns, lag: Ns) -> EndState
    requires latency { latency ≤ 100 }
    requires lag { lag ≤ 10000 }
    ensures exact { result ≡ new_state agreed latency lag }
    ensures bounded { IsBounded result }
{
    EndState {
        pace: pace_of(agreed, lag),
        latency,
        since: 0,
        raised: 0,
        byte_count: 0,
    }
}

/// What it knows of itself: it is the device of this ID, and drives what the rows say of it.
pub fn self_of(state: &EndState, view: &BusView, dev: Dev) -> Myself
    requires bounded { IsBounded state.now }
    requires dev { dev < 8 }
    ensures exact { (rows : List Row) → IsBusViewOf rows view.now → result ≡ self_of state.now rows dev }
    ensures ready { IsReady result }
{
    Myself {
        dev,
        latency: state.latency,
        own: view.drives(dev),
        since: state.since,
    }
}

/// What the initiator has to do in the phase.
pub fn answering_by(raised: Ns, offered: Option<u8>) -> Answering
    ensures { result ≡ answering_by raised offered }
{
    Answering {
        byte: offered.unwrap_or(0),
        attends: false,
        speaks: false,
        raised,
    }
}

/// What the target has to do in the phase.
pub fn offering_by(offered: Option<u8>) -> Offering
    ensures { result ≡ offering_by offered }
{
    Offering {
        byte: offered.unwrap_or(0),
        follows: offered.is_some(),
        to: Lines::none(),
        wait: 0,
    }
}
