// What a step makes of the reaction that is next.
ghost use Rattle.std.specs.Prelude.{◌≡◌, ◌<◌, ◌≤◌, ◌^◌, List, Option};
ghost use Rattle.std.specs.Option.{ForSome};
ghost use Rattle.bus_trace.specs.declared.rows.Row.{Row};
ghost use Rattle.bus_lines.specs.BusView.{IsBusViewOf};
ghost use Rattle.bus_lines.specs.Timely.{IsTimely};
ghost use Rattle.bus_trace.specs.Terms.{connection};
ghost use Rattle.reaction_model.specs.Sight.{sight};
ghost use Rattle.handshake.specs.Bounds.{IsSeen, IsTimed, IsSteady};
ghost use Rattle.handshake.specs.Steps as steps;

use crate::crossings::{crossings, untold_crossing};
use crate::end_state::{EndState, answering_by, offering_by, self_of};
use crate::hand::{Crossed, Hand};
use crate::initiator::initiator_due_at;
use crate::situation::Situation;
use crate::target::{last_hold_end, target_due_at};
use bitflags::Flags;
use bus_base::Ns;
use bus_lines::{BusView, Handshakes};
use bus_trace::{Kind, Lines, rises};
use reaction_model::{Due, Pace, Sight, sight_of};

// ---- the next reaction

fn initiator_reaction(at: &Situation<'_>, state: &EndState, offered: Option<u8>) -> Option<Due>
    requires bounded { steps.IsBounded state.now }
    requires pace { at.now.pace ≡ state.now.pace }
    ensures { result ≡ steps.initiator_reaction at.now.view at.now.handshakes state.now offered at.now.me }
{
    if at.me.own.bsy() {
        return None;
    }
    let answering = answering_by(state.raised, offered);
    initiator_due_at(true, at, &answering)
}

fn holds_byte(at: &Situation<'_>) -> bool
    ensures { result ≡ steps.holds_byte at.now.view at.now.handshakes at.now.pace at.now.me }
{
    at.pace.pulsed && at.view.bus.io() && at.handshakes.is_begun() && at.me.own.data_bits() != 0
}

fn target_reaction(at: &Situation<'_>, state: &EndState, offered: Option<u8>) -> Option<Due>
    requires { at.now.pace ≡ state.now.pace }
    ensures { result ≡ steps.target_reaction at.now.view at.now.handshakes state.now offered at.now.me }
{
    if offered.is_some() || at.me.own.req() || holds_byte(at) {
        let offering = offering_by(offered);
        return target_due_at(true, at, &offering);
    }
    None
}

// ---- the step

// The data lines alone.
fn data_lines(lines: Lines) -> Lines
    ensures { result ≡ steps.data_lines lines }
{
    Lines::from_bits_retain(lines.data_bits() as u32)
}

fn transfer_lines(lines: Lines) -> Lines
    ensures { result ≡ steps.transfer_lines lines }
{
    let data = data_lines(lines);
    let with_req = if lines.req() {
        Lines::REQ.with(data)
    } else {
        data
    };
    if lines.ack() {
        Lines::ACK.with(with_req)
    } else {
        with_req
    }
}

fn state_after(now: Ns, before: Lines, lines: Lines, state: &EndState) -> EndState
    requires bounded { steps.IsBounded state.now }
    requires now { now < 2 ^ 63 }
    ensures exact { result ≡ steps.state_after now before lines state.now }
    ensures bounded { steps.IsBounded result }
{
    let raised = if rises(before.ack(), lines.ack()) {
        now
    } else {
        state.raised
    };
    EndState {
        pace: state.pace,
        latency: state.latency,
        since: now,
        raised,
        byte_count: state.byte_count,
    }
}

fn still_hand(
    state: EndState,
    wake: Option<Ns>,
    crossed: Option<Crossed>,
    idle: bool,
) -> Hand<EndState>
    ensures { result ≡ steps.still_hand state wake crossed idle }
{
    Hand {
        next: state,
        drives: None,
        wake,
        crossed,
        idle,
    }
}

fn row_hand(
    state: EndState,
    before: Lines,
    now: Ns,
    crossed: Option<Crossed>,
    idle: bool,
    kind: Kind,
) -> Hand<EndState>
    requires bounded { steps.IsBounded state }
    requires now { now < 2 ^ 63 }
    ensures exact { result ≡ steps.row_hand state before now crossed idle kind }
    ensures bounded { steps.IsBounded result.next }
{
    match kind {
        Kind::Drives(lines) => Hand {
            next: state_after(now, before, lines, &state),
            drives: Some(transfer_lines(lines)),
            wake: None,
            crossed,
            idle,
        },
        Kind::Fault(_) => still_hand(state, None, crossed, idle),
    }
}

fn hand_by(
    state: EndState,
    before: Lines,
    now: Ns,
    crossed: Option<Crossed>,
    idle: bool,
    due: Option<Due>,
) -> Hand<EndState>
    requires bounded { steps.IsBounded state }
    requires now { now < 2 ^ 63 }
    ensures exact { result ≡ steps.hand_by state before now crossed idle due }
    ensures bounded { steps.IsBounded result.next }
{
    let Some(due) = due else {
        return still_hand(state, None, crossed, idle);
    };
    if due.time <= now {
        row_hand(state, before, now, crossed, idle, due.kind)
    } else {
        still_hand(state, Some(due.time), crossed, idle)
    }
}

fn is_held(view: &Sight, account: &Handshakes, pace: &Pace, now: Ns) -> bool
    requires timed { IsTimed account.now }
    requires steady { IsSteady pace.now }
    ensures { result ≡ steps.is_held view.now account.now pace.now now }
{
    !pace.pulsed || !account.is_begun() || last_hold_end(view, account, pace) <= now
}

fn is_idle(view: &Sight, account: &Handshakes, pace: &Pace, now: Ns) -> bool
    requires timed { IsTimed account.now }
    requires steady { IsSteady pace.now }
    ensures { result ≡ steps.is_idle view.now account.now pace.now now }
{
    !view.bus.req()
        && !view.bus.ack()
        && account.waiting() == 0
        && is_held(view, account, pace, now)
}

fn with_byte_count(state: &EndState, into: bool, account: &Handshakes) -> EndState
    requires bounded { steps.IsBounded state.now }
    ensures exact { result ≡ steps.with_byte_count state.now into account.now }
    ensures bounded { steps.IsBounded result }
{
    EndState {
        pace: state.pace,
        latency: state.latency,
        since: state.since,
        raised: state.raised,
        byte_count: crossings(into, account),
    }
}

fn hand_after(
    into: bool,
    view: &BusView,
    state: &EndState,
    now: Ns,
    flip: Option<u8>,
    due: Option<Due>,
) -> Hand<EndState>
    requires timely { IsTimely (2 ^ 63) view.now }
    requires bounded { steps.IsBounded state.now }
    requires now { now < 2 ^ 63 }
    requires flip { ForSome flip (λ bit. bit ≤ 8) }
    ensures exact { (rows : List Row) → IsBusViewOf rows view.now →
        result ≡ steps.hand_after into rows state.now now flip due }
    ensures bounded { steps.IsBounded result.next }
{
    let account = view.handshakes();
    let idle = is_idle(&sight_of(view), account, &state.pace, now);
    let crossed = untold_crossing(into, state.byte_count, flip, view);
    hand_by(
        with_byte_count(state, into, account),
        view.bus(),
        now,
        crossed,
        idle,
        due,
    )
}

fn initiator_next(
    view: &BusView,
    seen: &Sight,
    state: &EndState,
    offered: Option<u8>,
) -> Option<Due>
    requires timely { IsTimely (2 ^ 63) view.now }
    requires seen { IsSeen seen.now }
    requires bounded { steps.IsBounded state.now }
    ensures { (rows : List Row) → IsBusViewOf rows view.now → seen.now ≡ sight rows →
        result ≡ steps.initiator_next rows state.now offered (connection rows) }
{
    let connection = view.connection()?;
    let me = self_of(state, view, connection.initiator.get());
    let at = Situation {
        view: seen,
        handshakes: view.handshakes(),
        me: &me,
        pace: &state.pace,
    };
    initiator_reaction(&at, state, offered)
}

fn target_next(view: &BusView, seen: &Sight, state: &EndState, offered: Option<u8>) -> Option<Due>
    requires timely { IsTimely (2 ^ 63) view.now }
    requires seen { IsSeen seen.now }
    requires bounded { steps.IsBounded state.now }
    ensures { (rows : List Row) → IsBusViewOf rows view.now → seen.now ≡ sight rows →
        result ≡ steps.target_next rows state.now offered (connection rows) }
{
    let connection = view.connection()?;
    let me = self_of(state, view, connection.target.get());
    let at = Situation {
        view: seen,
        handshakes: view.handshakes(),
        me: &me,
        pace: &state.pace,
    };
    target_reaction(&at, state, offered)
}

/// A step of the initiator. `into` says whether the phase is to it.
pub fn initiator_hand(
    into: bool,
    view: &BusView,
    state: &EndState,
    now: Ns,
    offered: Option<u8>,
    flip: Option<u8>,
) -> Hand<EndState>
    requires timely { IsTimely (2 ^ 63) view.now }
    requires bounded { steps.IsBounded state.now }
    requires now { now < 2 ^ 63 }
    requires flip { ForSome flip (λ bit. bit ≤ 8) }
    ensures exact { (rows : List Row) → IsBusViewOf rows view.now →
        result ≡ steps.initiator_hand into rows state.now now offered flip }
    ensures bounded { steps.IsBounded result.next }
{
    let seen = sight_of(view);
    let due = initiator_next(view, &seen, state, offered);
    hand_after(into, view, state, now, flip, due)
}

/// A step of the target. `into` says whether the phase is to the initiator.
pub fn target_hand(
    into: bool,
    view: &BusView,
    state: &EndState,
    now: Ns,
    offered: Option<u8>,
    flip: Option<u8>,
) -> Hand<EndState>
    requires timely { IsTimely (2 ^ 63) view.now }
    requires bounded { steps.IsBounded state.now }
    requires now { now < 2 ^ 63 }
    requires flip { ForSome flip (λ bit. bit ≤ 8) }
    ensures exact { (rows : List Row) → IsBusViewOf rows view.now →
        result ≡ steps.target_hand into rows state.now now offered flip }
    ensures bounded { steps.IsBounded result.next }
{
    let seen = sight_of(view);
    let due = target_next(view, &seen, state, offered);
    hand_after(into, view, state, now, flip, due)
}
