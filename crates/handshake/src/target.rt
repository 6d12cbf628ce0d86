// What the target of a connection does next by REQ and ACK, each reaction exactly as defined.
ghost use Rattle.std.specs.Prelude.{◌≡◌, ◌<◌, ◌^◌, ◌+◌, ◌==◌};
ghost use Rattle.reaction_model.specs.Reactions.{due_at};
ghost use Rattle.reaction_model.specs.Target.{bits_if, has_io_turned, req_assertion, first_byte, first_req, req_negation, next_req, phase_end, target_turn, target_handshake, req_pulse_end, hold_end, byte_change, set_up_end, req_pulse, last_hold_end, pulsed_phase_end, pulse_turn, target_pulse};
ghost use Rattle.reaction_model.specs.Ends.{message_out_start, target_due};
ghost use Rattle.bus_trace.specs.Trace.{phase_time};
ghost use Rattle.handshake.specs.Bounds.{IsSeen, IsTimed, IsReady, IsSteady};

use crate::situation::Situation;
use bus_base::Ns;
use bus_lines::Handshakes;
use bus_trace::{BUS_SETTLE_DELAY, Kind, Lines, SET_UP_TIME, TURN_DELAY, byte_lines};
use reaction_model::{Due, Myself, Offering, Pace, Sight, due_at};

// These lines with this byte in place of their data lines where one follows, else without data lines.
fn with_byte_if(lines: Lines, follows: bool, byte: u8) -> Lines
    ensures { result ≡ record lines { data_bits = bits_if follows byte } }
{
    if follows {
        lines.with_byte(byte)
    } else {
        lines.without_data()
    }
}

/// Whether the data lines are those of this byte where one follows, else none.
pub fn has_byte_if(lines: Lines, follows: bool, byte: u8) -> bool
    ensures { result ≡ (lines.data_bits == bits_if follows byte) }
{
    if follows {
        lines.data_bits() == byte_lines(byte).data_bits()
    } else {
        lines.data_bits() == 0
    }
}

fn req_assertion(at: &Situation<'_>, time: Ns) -> Option<Due>
    requires { time < 2 ^ 63 + 2 ^ 40 }
    ensures { result ≡ req_assertion at.now.me time }
{
    due_at(time + at.me.latency, Lines::REQ.with(at.me.own))
}

// ---- the first byte (6.1.5.1, 6.1.10)

fn phase_time(at: &Situation<'_>) -> Ns
    ensures exact { result ≡ phase_time at.now.view.ages }
    ensures small { result < 2 ^ 63 }
{
    at.view.ages.msg.max(at.view.ages.cd).max(at.view.ages.io)
}

fn has_io_turned(at: &Situation<'_>) -> bool
    ensures { result ≡ has_io_turned at.now.view }
{
    at.view.bus.io() && at.view.ages.io == phase_time(at)
}

fn first_byte(at: &Situation<'_>, offering: &Offering) -> Option<Due>
    ensures { result ≡ first_byte at.now.view at.now.me offering.now }
{
    due_at(
        phase_time(at) + TURN_DELAY + at.me.latency,
        at.me.own.with_byte(offering.byte),
    )
}

fn first_req(at: &Situation<'_>, offering: &Offering) -> Option<Due>
    ensures { result ≡ first_req at.now.view at.now.me offering.now }
{
    if !has_io_turned(at) {
        req_assertion(at, phase_time(at) + BUS_SETTLE_DELAY)
    } else if at.me.own.data_bits() == 0 {
        first_byte(at, offering)
    } else {
        req_assertion(at, at.me.since + SET_UP_TIME)
    }
}

// ---- byte by byte (6.1.5.1)

fn req_negation(at: &Situation<'_>, offering: &Offering) -> Option<Due>
    ensures { result ≡ req_negation at.now.view at.now.me offering.now }
{
    let follows = at.view.bus.io() && offering.follows;
    due_at(
        at.view.ages.ack + at.me.latency,
        with_byte_if(at.me.own.without_req(), follows, offering.byte),
    )
}

fn next_req(at: &Situation<'_>) -> Option<Due>
    ensures { result ≡ next_req at.now.view at.now.me }
{
    if at.view.bus.io() {
        req_assertion(at, at.view.ages.ack.max(at.me.since + SET_UP_TIME))
    } else {
        req_assertion(at, at.view.ages.ack)
    }
}

fn phase_end(at: &Situation<'_>, offering: &Offering) -> Option<Due>
    requires { offering.now.wait < 2 ^ 62 }
    ensures { result ≡ phase_end at.now.view at.now.me offering.now }
{
    due_at(
        at.view.ages.ack + at.me.latency + offering.wait,
        offering.to,
    )
}

fn target_turn(at: &Situation<'_>, offering: &Offering) -> Option<Due>
    requires { offering.now.wait < 2 ^ 62 }
    ensures { result ≡ target_turn at.now.view at.now.handshakes at.now.me offering.now }
{
    if !at.handshakes.is_begun() {
        first_req(at, offering)
    } else if offering.follows {
        next_req(at)
    } else {
        phase_end(at, offering)
    }
}

fn target_handshake(at: &Situation<'_>, offering: &Offering) -> Option<Due>
    requires { offering.now.wait < 2 ^ 62 }
    ensures { result ≡ target_handshake at.now.view at.now.handshakes at.now.me offering.now }
{
    if at.me.own.req() {
        if at.view.bus.ack() {
            req_negation(at, offering)
        } else {
            None
        }
    } else if at.view.bus.ack() {
        None
    } else {
        target_turn(at, offering)
    }
}

// ---- by pulses (6.1.5.2)

fn req_pulse_end(at: &Situation<'_>) -> Option<Due>
    ensures { result ≡ req_pulse_end at.now.view at.now.me at.now.pace }
{
    due_at(
        at.view.ages.req + at.pace.times.assertion + at.me.latency,
        at.me.own.without_req(),
    )
}

fn hold_end(at: &Situation<'_>) -> Ns
    ensures exact { result ≡ hold_end at.now.handshakes at.now.me at.now.pace }
    ensures small { result < 2 ^ 63 + 2 ^ 34 }
{
    at.handshakes.last_req() + at.pace.times.hold + at.me.latency
}

fn byte_change(at: &Situation<'_>, offering: &Offering) -> Option<Due>
    ensures { result ≡ byte_change at.now.handshakes at.now.me at.now.pace offering.now }
{
    due_at(
        hold_end(at),
        with_byte_if(at.me.own, offering.follows, offering.byte),
    )
}

fn set_up_end(at: &Situation<'_>) -> Ns
    ensures exact { result ≡ set_up_end at.now.view at.now.handshakes at.now.me at.now.pace }
    ensures small { result < 2 ^ 63 + 2 ^ 35 }
{
    if at.view.bus.io() {
        hold_end(at) + at.pace.times.set_up
    } else {
        0
    }
}

fn req_pulse(at: &Situation<'_>) -> Option<Due>
    ensures { result ≡ req_pulse at.now.view at.now.handshakes at.now.me at.now.pace }
{
    let pulse = (at.handshakes.last_req() + at.pace.times.period).max(
        at.view.ages.req + at.pace.times.negation,
    );
    let byte = at.handshakes.room_since(at.pace.offset).max(set_up_end(at));
    req_assertion(at, pulse.max(byte))
}

/// The end of the hold time of the last byte.
pub fn last_hold_end(view: &Sight, handshakes: &Handshakes, pace: &Pace) -> Ns
    requires timed { IsTimed handshakes.now }
    requires steady { IsSteady pace.now }
    ensures exact { result ≡ last_hold_end view.now handshakes.now pace.now }
    ensures small { result < 2 ^ 63 + 2 ^ 32 }
{
    if view.bus.io() {
        handshakes.last_req() + pace.times.hold
    } else {
        handshakes.last_ack() + pace.times.hold
    }
}

fn pulsed_phase_end(at: &Situation<'_>, offering: &Offering) -> Option<Due>
    ensures { result ≡ pulsed_phase_end at.now.view at.now.handshakes at.now.me at.now.pace offering.now }
{
    due_at(
        at.view
            .ages
            .ack
            .max(last_hold_end(at.view, at.handshakes, at.pace))
            + at.me.latency,
        offering.to,
    )
}

fn pulse_turn(at: &Situation<'_>, offering: &Offering) -> Option<Due>
    ensures { result ≡ pulse_turn at.now.view at.now.handshakes at.now.me at.now.pace offering.now }
{
    if offering.follows {
        if at.handshakes.waiting() < at.pace.offset {
            return req_pulse(at);
        }
        return None;
    }
    if at.handshakes.waiting() != 0 || at.view.bus.ack() {
        return None;
    }
    pulsed_phase_end(at, offering)
}

fn target_pulse(at: &Situation<'_>, offering: &Offering) -> Option<Due>
    ensures { result ≡ target_pulse at.now.view at.now.handshakes at.now.me at.now.pace offering.now }
{
    if at.me.own.req() {
        return req_pulse_end(at);
    }
    if !at.handshakes.is_begun() {
        return first_req(at, offering);
    }
    if at.view.bus.io() && !has_byte_if(at.me.own, offering.follows, offering.byte) {
        return byte_change(at, offering);
    }
    pulse_turn(at, offering)
}

fn message_out_start(at: &Situation<'_>) -> Option<Due>
    ensures { result ≡ message_out_start at.now.view at.now.me }
{
    due_at(
        at.view.ages.sel + at.me.latency,
        Lines::BSY.with(Lines::MSG.with(Lines::CD)),
    )
}

/// The same as [`target_due`].
pub fn target_due_at(begun: bool, at: &Situation<'_>, offering: &Offering) -> Option<Due>
    requires { offering.now.wait < 2 ^ 62 }
    ensures { result ≡ target_due begun at.now.view at.now.handshakes at.now.me at.now.pace offering.now }
{
    if !begun {
        message_out_start(at)
    } else if at.pace.pulsed {
        target_pulse(at, offering)
    } else {
        target_handshake(at, offering)
    }
}

/// What the target of a connection does next (6.1.3, 6.1.5, 6.1.10): nothing where it waits. `begun` says that the
/// first phase of the connection has begun.
pub fn target_due(
    begun: bool,
    view: &Sight,
    handshakes: &Handshakes,
    me: &Myself,
    pace: &Pace,
    offering: &Offering,
) -> Option<Due>
    requires seen { IsSeen view.now }
    requires timed { IsTimed handshakes.now }
    requires ready { IsReady me.now }
    requires steady { IsSteady pace.now }
    requires wait { offering.now.wait < 2 ^ 62 }
    ensures { result ≡ target_due begun view.now handshakes.now me.now pace.now offering.now }
{
    let at = Situation {
        view,
        handshakes,
        me,
        pace,
    };
    target_due_at(begun, &at, offering)
}
