//! Rows that change data lines, REQ and ACK alone, in a DATA phase or, where no byte crosses, in another one: most
//! rows of a long trace (ANSI X3.131-1994, 6.1.5.1 and 6.1.5.2).
//!
//! Few rules ask anything of such a row. A short test tells that it breaks none, and then few terms change; a row
//! that does not pass it is judged rule by rule.
ghost use Rattle.std.specs.Prelude.{◌≡◌, ◌<◌, ◌&&◌, List};
ghost use Rattle.bus_trace.specs.declared.Row.{Row};
ghost use Rattle.bus_trace.specs.Trace.{IsViewOf};
ghost use Rattle.bus_trace.specs.Changes.{same_stage};
ghost use Rattle.bus_trace.specs.Agreements.{AreTimes};
ghost use Rattle.bus_rules.specs.DataRows.{crosses_in, is_calm, is_quiet_bus, is_calm_row, has_settled, is_in_turn, has_turned, stand_since, may_ask, last_pulse, is_apart, standing_by, may_cross, crosses_well, asks_in_turn, answers_in_turn, target_shakes_well, initiator_shakes_well, asks_by_pulse, answers_by_pulse, target_pulses_well, initiator_pulses_well, target_moves_well, initiator_moves_well, turns_well, target_passes, initiator_passes, passes_in, passes_of, is_move, passes, duty_in_data};

use crate::connected::{has_no_initiator_line, has_no_target_line, raises_data};
use crate::message_rules::{is_none_or_all, is_owed};
use crate::standing::{Standing, initiator_bsy, initiator_data, target_data};
use crate::transfer::{changes_data, holds_still, is_after};
use bus_base::Ns;
use bus_phases::{Duty, Pulses};
use bus_trace::{
    BUS_SETTLE_DELAY, Change, Connection, DATA_RELEASE_DELAY, DESKEW_DELAY, Lines, Row,
    SET_UP_TIME, TURN_DELAY, TransferTimes, UNLIMITED_OFFSET, drives_data, falls, is_data,
    is_fault, rises, same_stage, times_of,
};

fn is_quiet_bus(lines: Lines) -> bool
    ensures { result ≡ is_quiet_bus lines }
{
    lines.bsy() && !lines.sel() && !lines.rst()
}

// Whether the phase is a DATA phase, or another one but the reserved ones, in which no byte crosses, and ACK does not
// fall while ATN is true.
fn is_calm(change: &Change) -> bool
    ensures { result ≡ is_calm change.now }
{
    let (before, after) = (change.before, change.after);
    is_data(before)
        || (before.cd()
            && !(before.atn() && falls(before.ack(), after.ack()))
            && !crosses_in(change))
}

// Whether in such a phase, where BSY is true and SEL and RST are false, data lines, REQ and ACK alone change.
fn is_calm_row(change: &Change) -> bool
    ensures { result ≡ is_calm_row change.now }
{
    let (own, next) = (change.own, change.next);
    is_quiet_bus(change.before)
        && same_stage(change.before, change.after)
        && (!own.sel() && !own.rst() && same_stage(own, next))
        && is_calm(change)
}

/// Whether a byte crosses in a connection.
pub fn crosses_in(change: &Change) -> bool
    ensures { result ≡ crosses_in change.now }
{
    let (before, after) = (change.before, change.after);
    if before.io() {
        rises(before.req(), after.req())
    } else {
        rises(before.ack(), after.ack())
    }
}

// Whether REQ may rise: the phase has settled, no MESSAGE OUT is owed, and the initiator drives no BSY.
#[inline(always)]
fn has_settled<S: Standing>(connection: &Connection, stands: &S, time: Ns) -> bool
    ensures { (rows : List Row) → IsViewOf rows (S.terms stands.now).view
        → result ≡ has_settled connection.now (standing_by rows (S.terms stands.now)) time }
{
    let since = stands.times().phase().max(connection.began);
    time.saturating_sub(since) >= BUS_SETTLE_DELAY
        && !is_owed(stands.duty())
        && !initiator_bsy(stands)
}

fn is_in_turn(is_target: bool, change: &Change) -> bool
    ensures { result ≡ is_in_turn is_target change.now }
{
    !raises_data(change) || is_target == change.before.io()
}

// Whether the end whose turn it is drives data lines alone, and waited for the other.
#[inline(always)]
fn has_turned<S: Standing>(stands: &S, is_target: bool, change: &Change, time: Ns) -> bool
    ensures { (rows : List Row) → IsViewOf rows (S.terms stands.now).view
        → result ≡ has_turned (standing_by rows (S.terms stands.now)) is_target change.now time }
{
    if change.before.io() {
        (!initiator_data(stands) || time.saturating_sub(stands.times().io) <= DATA_RELEASE_DELAY)
            && (!(stands.turned() && is_target && drives_data(change.next))
                || time.saturating_sub(stands.times().io) >= TURN_DELAY)
    } else {
        !target_data(stands) || time.saturating_sub(stands.times().io) <= DESKEW_DELAY
    }
}

#[inline(always)]
fn turns_well<S: Standing>(stands: &S, is_target: bool, change: &Change, time: Ns) -> bool
    ensures { (rows : List Row) → IsViewOf rows (S.terms stands.now).view
        → result ≡ turns_well (standing_by rows (S.terms stands.now)) is_target change.now time }
{
    is_in_turn(is_target, change) && has_turned(stands, is_target, change, time)
}

// Since when the data lines stand as they do after the row.
fn stand_since(change: &Change, since: Ns, time: Ns) -> Ns
    ensures { result ≡ stand_since change.now since time }
{
    if changes_data(change) { time } else { since }
}

// Whether REQ is ahead of ACK by less than the offset, where it sets a limit.
fn may_ask(offset: u8, pulses: &Pulses) -> bool
    requires { 0 < offset }
    ensures { result ≡ may_ask offset pulses.now }
{
    offset == UNLIMITED_OFFSET || pulses.req.saturating_sub(pulses.ack) < u64::from(offset)
}

fn last_pulse(pulses: &Pulses, change: &Change) -> Option<Ns>
    ensures { result ≡ last_pulse pulses.now change.now }
{
    if change.before.io() {
        pulses.last_req
    } else {
        pulses.last_ack
    }
}

// Whether a pulse may begin on a line that stands so since this time, by the last pulse on it.
fn is_apart(times: TransferTimes, since: Ns, last: Option<Ns>, time: Ns) -> bool
    requires { AreTimes times }
    ensures { result ≡ is_apart times since last time }
{
    is_after(last, times.period, time)
        && (last.is_none() || time.saturating_sub(since) >= times.negation)
}

#[inline(always)]
fn may_cross<S: Standing>(stands: &S, change: &Change) -> bool
    ensures { (rows : List Row) → IsViewOf rows (S.terms stands.now).view
        → result ≡ may_cross (standing_by rows (S.terms stands.now)) change.now }
{
    change.after.odd_parity()
        && stands.begun()
        && !stands.is_open()
        && is_none_or_all(stands.command())
}

// Whether a byte may cross in the row, in which the data lines have stood for this time.
#[inline(always)]
fn crosses_well<S: Standing>(stands: &S, change: &Change, set_up: Ns, time: Ns) -> bool
    requires { 0 < set_up }
    ensures { (rows : List Row) → IsViewOf rows (S.terms stands.now).view
        → result ≡ crosses_well (standing_by rows (S.terms stands.now)) change.now set_up time }
{
    let since = stand_since(change, stands.data_since(), time);
    may_cross(stands, change) && time.saturating_sub(since) >= set_up
}

// Whether REQ rises in its turn, where bytes cross asynchronously.
#[inline(always)]
fn asks_in_turn<S: Standing>(connection: &Connection, stands: &S, change: &Change, time: Ns) -> bool
    ensures { (rows : List Row) → IsViewOf rows (S.terms stands.now).view
        → result ≡ asks_in_turn connection.now (standing_by rows (S.terms stands.now)) change.now time }
{
    has_settled(connection, stands, time)
        && !change.before.ack()
        && (!change.before.io() || crosses_well(stands, change, SET_UP_TIME, time))
}

// Whether ACK does.
#[inline(always)]
fn answers_in_turn<S: Standing>(stands: &S, change: &Change, time: Ns) -> bool
    ensures { (rows : List Row) → IsViewOf rows (S.terms stands.now).view
        → result ≡ answers_in_turn (standing_by rows (S.terms stands.now)) change.now time }
{
    change.before.req() && (change.before.io() || crosses_well(stands, change, SET_UP_TIME, time))
}

// Whether what the target moves does so in its turn, where bytes cross asynchronously: REQ and data lines.
#[inline(always)]
fn target_shakes_well<S: Standing>(
    connection: &Connection,
    stands: &S,
    change: &Change,
    time: Ns,
) -> bool
    ensures { (rows : List Row) → IsViewOf rows (S.terms stands.now).view
        → result ≡ target_shakes_well connection.now (standing_by rows (S.terms stands.now)) change.now time }
{
    let (req, next_req) = (change.before.req(), change.after.req());
    (!rises(req, next_req) || asks_in_turn(connection, stands, change, time))
        && (!falls(req, next_req) || change.before.ack())
        && (!changes_data(change) || !holds_still(change.before))
}

// Whether what the initiator moves does: ACK and data lines.
#[inline(always)]
fn initiator_shakes_well<S: Standing>(stands: &S, change: &Change, time: Ns) -> bool
    ensures { (rows : List Row) → IsViewOf rows (S.terms stands.now).view
        → result ≡ initiator_shakes_well (standing_by rows (S.terms stands.now)) change.now time }
{
    let (ack, next_ack) = (change.before.ack(), change.after.ack());
    (!rises(ack, next_ack) || answers_in_turn(stands, change, time))
        && (!falls(ack, next_ack) || !change.before.req())
        && (!changes_data(change) || !holds_still(change.before))
}

// Whether a pulse of REQ begins in its turn.
#[inline(always)]
fn asks_by_pulse<S: Standing>(
    connection: &Connection,
    stands: &S,
    change: &Change,
    times: TransferTimes,
    time: Ns,
) -> bool
    requires times { AreTimes times }
    requires pulsed { 0 < (S.terms stands.now).course.dialogue.heard.now.agreement.offset }
    ensures { (rows : List Row) → IsViewOf rows (S.terms stands.now).view
        → result ≡ asks_by_pulse connection.now (standing_by rows (S.terms stands.now)) change.now times time }
{
    let pulses = stands.pulses();
    has_settled(connection, stands, time)
        && (may_ask(stands.agreement().offset, &pulses)
            && is_apart(times, stands.times().req, pulses.last_req, time))
        && (!change.before.io() || crosses_well(stands, change, times.set_up, time))
}

// Whether a pulse of ACK does.
#[inline(always)]
fn answers_by_pulse<S: Standing>(
    stands: &S,
    change: &Change,
    times: TransferTimes,
    time: Ns,
) -> bool
    requires { AreTimes times }
    ensures { (rows : List Row) → IsViewOf rows (S.terms stands.now).view
        → result ≡ answers_by_pulse (standing_by rows (S.terms stands.now)) change.now times time }
{
    let pulses = stands.pulses();
    (pulses.ack < pulses.req && is_apart(times, stands.times().ack, pulses.last_ack, time))
        && (change.before.io() || crosses_well(stands, change, times.set_up, time))
}

// Whether what the target moves does so in its turn, where bytes cross by pulses of these times.
#[inline(always)]
fn target_pulses_well<S: Standing>(
    connection: &Connection,
    stands: &S,
    change: &Change,
    times: TransferTimes,
    time: Ns,
) -> bool
    requires times { AreTimes times }
    requires pulsed { 0 < (S.terms stands.now).course.dialogue.heard.now.agreement.offset }
    ensures { (rows : List Row) → IsViewOf rows (S.terms stands.now).view
        → result ≡ target_pulses_well connection.now (standing_by rows (S.terms stands.now)) change.now times
        time }
{
    let (req, next_req) = (change.before.req(), change.after.req());
    (!rises(req, next_req) || asks_by_pulse(connection, stands, change, times, time))
        && (!falls(req, next_req) || time.saturating_sub(stands.times().req) >= times.assertion)
        && (!changes_data(change)
            || is_after(last_pulse(&stands.pulses(), change), times.hold, time))
}

// Whether what the initiator moves does.
#[inline(always)]
fn initiator_pulses_well<S: Standing>(
    stands: &S,
    change: &Change,
    times: TransferTimes,
    time: Ns,
) -> bool
    requires { AreTimes times }
    ensures { (rows : List Row) → IsViewOf rows (S.terms stands.now).view
        → result ≡ initiator_pulses_well (standing_by rows (S.terms stands.now)) change.now times time }
{
    let (ack, next_ack) = (change.before.ack(), change.after.ack());
    (!rises(ack, next_ack) || answers_by_pulse(stands, change, times, time))
        && (!falls(ack, next_ack) || time.saturating_sub(stands.times().ack) >= times.assertion)
        && (!changes_data(change)
            || is_after(last_pulse(&stands.pulses(), change), times.hold, time))
}

// Whether what the target moves does so in its turn.
#[inline(always)]
fn target_moves_well<S: Standing>(
    connection: &Connection,
    stands: &S,
    change: &Change,
    time: Ns,
) -> bool
    ensures { (rows : List Row) → IsViewOf rows (S.terms stands.now).view
        → result ≡ target_moves_well connection.now (standing_by rows (S.terms stands.now)) change.now time }
{
    let agreement = stands.agreement();
    if is_data(change.before) && agreement.offset != 0 {
        let times = times_of(agreement.period);
        target_pulses_well(connection, stands, change, times, time)
    } else {
        target_shakes_well(connection, stands, change, time)
    }
}

// Whether what the initiator moves does.
#[inline(always)]
fn initiator_moves_well<S: Standing>(stands: &S, change: &Change, time: Ns) -> bool
    ensures { (rows : List Row) → IsViewOf rows (S.terms stands.now).view
        → result ≡ initiator_moves_well (standing_by rows (S.terms stands.now)) change.now time }
{
    let agreement = stands.agreement();
    if is_data(change.before) && agreement.offset != 0 {
        let times = times_of(agreement.period);
        initiator_pulses_well(stands, change, times, time)
    } else {
        initiator_shakes_well(stands, change, time)
    }
}

// Whether a row of the target passes: ACK stays as it is.
#[inline(always)]
fn target_passes<S: Standing>(
    connection: &Connection,
    stands: &S,
    change: &Change,
    time: Ns,
) -> bool
    ensures { (rows : List Row) → IsViewOf rows (S.terms stands.now).view
        → result ≡ target_passes connection.now (standing_by rows (S.terms stands.now)) change.now time }
{
    change.before.ack() == change.after.ack()
        && has_no_initiator_line(change.next)
        && turns_well(stands, true, change, time)
        && target_moves_well(connection, stands, change, time)
}

// Whether a row of the initiator passes: REQ stays as it is.
#[inline(always)]
fn initiator_passes<S: Standing>(stands: &S, change: &Change, time: Ns) -> bool
    ensures { (rows : List Row) → IsViewOf rows (S.terms stands.now).view
        → result ≡ initiator_passes (standing_by rows (S.terms stands.now)) change.now time }
{
    change.before.req() == change.after.req()
        && has_no_target_line(change.next)
        && turns_well(stands, false, change, time)
        && initiator_moves_well(stands, change, time)
}

#[inline(always)]
fn passes_in<S: Standing>(connection: &Connection, stands: &S, change: &Change, row: &Row) -> bool
    ensures { (rows : List Row) → IsViewOf rows (S.terms stands.now).view
        → result ≡ passes_in connection.now (standing_by rows (S.terms stands.now)) change.now row.now }
{
    if row.dev == connection.target.get() {
        target_passes(connection, stands, change, row.time)
    } else {
        row.dev == connection.initiator.get() && initiator_passes(stands, change, row.time)
    }
}

fn is_move(change: &Change, row: &Row) -> bool
    ensures { result ≡ is_move change.now row.now }
{
    !is_fault(row.kind) && !change.own.same(change.next)
}

#[inline(always)]
fn passes_of<S: Standing>(stands: &S, change: &Change, row: &Row) -> bool
    ensures { (rows : List Row) → IsViewOf rows (S.terms stands.now).view
        → result ≡ passes_of (standing_by rows (S.terms stands.now)) change.now row.now
        (S.terms stands.now).course.connection }
{
    match &stands.connection() {
        None => false,
        Some(connection) => passes_in(connection, stands, change, row),
    }
}

/// Whether a row that changes this passes the short test: it breaks no rule.
#[inline(always)]
pub fn passes<S: Standing>(stands: &S, change: &Change, row: &Row) -> bool
    ensures { (rows : List Row) → IsViewOf rows (S.terms stands.now).view
        → result ≡ passes (standing_by rows (S.terms stands.now)) change.now row.now }
{
    stands.last_time() <= row.time
        && is_move(change, row)
        && is_calm_row(change)
        && stands.is_alone()
        && passes_of(stands, change, row)
}

/// What ATN asks of the target after such a row, over which ATN is held or not.
pub fn duty_in_data(duty: Duty, change: &Change, held: bool) -> Duty
    ensures { result ≡ duty_in_data duty change.now held }
{
    let (before, after) = (change.before, change.after);
    if rises(before.req(), after.req()) {
        Duty::Nothing
    } else if falls(before.ack(), after.ack()) && held {
        Duty::Asked
    } else {
        duty
    }
}
