//! Rules 17 to 23: REQ and ACK, asynchronous and synchronous (ANSI X3.131-1994, 6.1.5.1 and 6.1.5.2).
ghost use Rattle.std.specs.Prelude.{◌≡◌, ◌<◌};
ghost use Rattle.bus_rules.specs.Transfer.{crosses, has_parity, is_pulsed, is_asynchronous_transfer, data_stand_since, changes_data, alternates, keeps_handshake, keeps_set_up, holds_still, keeps_data, keeps_offset, is_after, pulses_well, last_crossing, pulses_of, keeps_pulses, leaves_well};
ghost use Rattle.bus_trace.specs.Agreements.{times_of, AreTimes};

use crate::seen::Seen;
use bus_base::Ns;
use bus_trace::{
    Change, Lines, Row, SET_UP_TIME, TransferTimes, UNLIMITED_OFFSET, changes_phase, falls,
    is_data, receiver_of, rises, times_of,
};

/// Whether a byte crosses in the row.
pub fn crosses(seen: &Seen) -> bool
    ensures { result ≡ crosses seen.now }
{
    receiver_of(&seen.connection, &seen.change).is_some()
}

/// Rule 17: the data lines of a byte that crosses have odd parity.
pub fn has_parity(seen: &Seen) -> bool
    ensures { result ≡ has_parity seen.now }
{
    !crosses(seen) || seen.change.after.odd_parity()
}

// Whether the phase is a DATA phase under an agreement with an offset.
fn is_pulsed(seen: &Seen) -> bool
    ensures { result ≡ is_pulsed seen.now }
{
    seen.connection.is_some() && (is_data(seen.change.before) && seen.agreement.offset != 0)
}

fn is_asynchronous_transfer(seen: &Seen) -> bool
    ensures { result ≡ is_asynchronous_transfer seen.now }
{
    seen.connection.is_some() && !(is_data(seen.change.before) && seen.agreement.offset != 0)
}

fn data_stand_since(seen: &Seen, time: Ns) -> Ns
    ensures { result ≡ data_stand_since seen.now time }
{
    if seen.change.before.data_bits() == seen.change.after.data_bits() {
        seen.data_since
    } else {
        time
    }
}

/// Whether the data lines change.
pub fn changes_data(change: &Change) -> bool
    ensures { result ≡ changes_data change.now }
{
    change.before.data_bits() != change.after.data_bits()
}

/// Whether REQ and ACK change in turns.
pub fn alternates(change: &Change) -> bool
    ensures { result ≡ alternates change.now }
{
    let (req, ack) = (change.before.req(), change.before.ack());
    let (next_req, next_ack) = (change.after.req(), change.after.ack());
    let req_well = (!rises(req, next_req) || !ack) && (!falls(req, next_req) || ack);
    let ack_well = (!rises(ack, next_ack) || req) && (!falls(ack, next_ack) || !req);
    req_well && ack_well
}

/// Rule 18: in an asynchronous phase REQ and ACK alternate.
pub fn keeps_handshake(seen: &Seen) -> bool
    ensures { result ≡ keeps_handshake seen.now }
{
    !is_asynchronous_transfer(seen) || alternates(&seen.change)
}

/// Rule 19: in an asynchronous phase the data lines are set up before a byte crosses.
pub fn keeps_set_up(seen: &Seen, row: &Row) -> bool
    ensures { result ≡ keeps_set_up seen.now row.now }
{
    !(is_asynchronous_transfer(seen) && crosses(seen))
        || row.time.saturating_sub(data_stand_since(seen, row.time)) >= SET_UP_TIME
}

/// Whether the data lines have to stand.
pub fn holds_still(lines: Lines) -> bool
    ensures { result ≡ holds_still lines }
{
    if lines.io() {
        lines.req() && !lines.ack()
    } else {
        lines.req() && lines.ack()
    }
}

/// Rule 20: in an asynchronous phase the data lines do not change while the byte is taken.
pub fn keeps_data(seen: &Seen) -> bool
    ensures { result ≡ keeps_data seen.now }
{
    !(is_asynchronous_transfer(seen) && holds_still(seen.change.before))
        || !changes_data(&seen.change)
}

/// Rule 21: in a pulsed phase REQ is never behind ACK, and ahead by the offset at most.
pub fn keeps_offset(seen: &Seen) -> bool
    ensures { result ≡ keeps_offset seen.now }
{
    if !is_pulsed(seen) {
        return true;
    }
    let (before, after) = (seen.change.before, seen.change.after);
    let (req, ack) = (seen.pulses.req, seen.pulses.ack);
    let offset = seen.agreement.offset;
    let may_ask = offset == UNLIMITED_OFFSET || req.saturating_sub(ack) < u64::from(offset);
    (!rises(before.req(), after.req()) || may_ask)
        && (!rises(before.ack(), after.ack()) || ack < req)
}

/// Whether this long has passed since a moment, if there was one.
pub fn is_after(moment: Option<Ns>, delay: Ns, time: Ns) -> bool
    ensures { result ≡ is_after moment delay time }
{
    match moment {
        None => true,
        Some(moment) => moment <= time && time.saturating_sub(moment) >= delay,
    }
}

/// Whether a line of pulses changes as the times allow.
pub fn pulses_well(
    times: TransferTimes,
    before: bool,
    after: bool,
    since: Ns,
    last: Option<Ns>,
    time: Ns,
) -> bool
    requires { AreTimes times }
    ensures { result ≡ pulses_well times before after since last time }
{
    let apart = last.is_none() || time.saturating_sub(since) >= times.negation;
    (!rises(before, after) || (is_after(last, times.period, time) && apart))
        && (!falls(before, after) || time.saturating_sub(since) >= times.assertion)
}

fn last_crossing(seen: &Seen) -> Option<Ns>
    ensures { result ≡ last_crossing seen.now }
{
    if seen.change.before.io() {
        seen.pulses.last_req
    } else {
        seen.pulses.last_ack
    }
}

fn pulses_of(times: TransferTimes, seen: &Seen, time: Ns) -> bool
    requires { AreTimes times }
    ensures { result ≡ pulses_of times seen.now time }
{
    let (before, after) = (seen.change.before, seen.change.after);
    let pulses = seen.pulses;
    let (req, next_req) = (before.req(), after.req());
    let (ack, next_ack) = (before.ack(), after.ack());
    let set_up = time.saturating_sub(data_stand_since(seen, time)) >= times.set_up;
    let held = is_after(last_crossing(seen), times.hold, time);
    (pulses_well(times, req, next_req, seen.times.req, pulses.last_req, time)
        && pulses_well(times, ack, next_ack, seen.times.ack, pulses.last_ack, time))
        && ((!crosses(seen) || set_up) && (!changes_data(&seen.change) || held))
}

/// Rule 22: in a pulsed phase the pulses and the data lines keep the times of the agreement.
pub fn keeps_pulses(seen: &Seen, row: &Row) -> bool
    ensures { result ≡ keeps_pulses seen.now row.now }
{
    !is_pulsed(seen) || pulses_of(times_of(seen.agreement.period), seen, row.time)
}

/// Rule 23: a pulsed phase is left once every REQ is answered.
pub fn leaves_well(seen: &Seen) -> bool
    ensures { result ≡ leaves_well seen.now }
{
    let frees = falls(seen.change.before.bsy(), seen.change.after.bsy());
    !(is_pulsed(seen) && (changes_phase(&seen.change) || frees))
        || seen.pulses.req == seen.pulses.ack
}
