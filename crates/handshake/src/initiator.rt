// What the initiator of a connection does next by REQ and ACK, each reaction exactly as defined.
ghost use Rattle.std.specs.Prelude.{◌≡◌, ◌<◌, ◌^◌, ◌+◌};
ghost use Rattle.bus_lines.specs.Handshakes.{first_of, is_struck};
ghost use Rattle.reaction_model.specs.Initiator.{ack_lines, received_byte_ack, rose_with_ack, ack_negation, attends_by, out_lines, initiator_byte, sent_byte_ack, initiator_turn, initiator_handshake, ack_pulse_end, oldest_req_time, next_ack_time, ack_pulse_time, received_byte_pulse, byte_hold_end, byte_time, pulsed_byte, sent_byte_pulse, byte_release, ack_pulse, initiator_pulse};
ghost use Rattle.reaction_model.specs.Ends.{bsy_release, owes_release, initiator_due};
ghost use Rattle.handshake.specs.Bounds.{IsSeen, IsTimed, IsReady, IsSteady};

use crate::situation::Situation;
use crate::target::has_byte_if;
use bus_base::Ns;
use bus_lines::Handshakes;
use bus_trace::{Lines, SET_UP_TIME, TWO_DESKEW, byte_lines, is_message_out};
use reaction_model::{Answering, Due, Myself, Pace, Sight, due_at};

// ---- it takes a byte (6.1.5.1)

fn ack_lines(speaks: bool, own: Lines) -> Lines
    ensures { result ≡ ack_lines speaks own }
{
    let lines = Lines::ACK.with(own);
    if speaks {
        Lines::ATN.with(lines)
    } else {
        lines
    }
}

fn received_byte_ack(at: &Situation<'_>, answering: &Answering) -> Option<Due>
    ensures { result ≡ received_byte_ack at.now.view at.now.handshakes at.now.me answering.now }
{
    let speaks = at.handshakes.is_struck() || answering.speaks;
    due_at(
        at.view.ages.req + at.me.latency,
        ack_lines(speaks, at.me.own),
    )
}

fn rose_with_ack(at: &Situation<'_>) -> bool
    ensures { result ≡ rose_with_ack at.now.view at.now.me }
{
    at.me.own.atn() && at.view.ages.atn == at.view.ages.ack
}

fn ack_negation(at: &Situation<'_>) -> Option<Due>
    ensures { result ≡ ack_negation at.now.view at.now.me }
{
    let from = if rose_with_ack(at) {
        at.view.ages.req.max(at.view.ages.ack + TWO_DESKEW)
    } else {
        at.view.ages.req
    };
    due_at(from + at.me.latency, at.me.own.without_ack().without_data())
}

// ---- it gives a byte (6.1.5.1, 6.1.9)

fn attends_by(bus: Lines, attends: bool, attention: bool) -> bool
    ensures { result ≡ attends_by bus attends attention }
{
    if is_message_out(bus) {
        attends
    } else {
        attention
    }
}

fn out_lines(byte: u8, attention: bool) -> Lines
    ensures { result ≡ out_lines byte attention }
{
    let lines = byte_lines(byte);
    if attention {
        Lines::ATN.with(lines)
    } else {
        lines
    }
}

fn initiator_byte(at: &Situation<'_>, answering: &Answering) -> Option<Due>
    ensures { result ≡ initiator_byte at.now.view at.now.me answering.now }
{
    let attention = attends_by(at.view.bus, answering.attends, at.me.own.atn());
    due_at(
        at.view.ages.req + at.me.latency,
        out_lines(answering.byte, attention),
    )
}

fn sent_byte_ack(at: &Situation<'_>) -> Option<Due>
    ensures { result ≡ sent_byte_ack at.now.view at.now.me }
{
    let byte = at.me.since + SET_UP_TIME;
    let from = if is_message_out(at.view.bus) {
        byte.max(at.view.ages.atn + TWO_DESKEW)
    } else {
        byte
    };
    due_at(from + at.me.latency, Lines::ACK.with(at.me.own))
}

fn initiator_turn(at: &Situation<'_>, answering: &Answering) -> Option<Due>
    ensures { result ≡ initiator_turn at.now.view at.now.handshakes at.now.me answering.now }
{
    if !at.view.bus.req() {
        None
    } else if at.view.bus.io() {
        received_byte_ack(at, answering)
    } else if at.me.own.data_bits() == 0 {
        initiator_byte(at, answering)
    } else {
        sent_byte_ack(at)
    }
}

fn initiator_handshake(at: &Situation<'_>, answering: &Answering) -> Option<Due>
    ensures { result ≡ initiator_handshake at.now.view at.now.handshakes at.now.me answering.now }
{
    if at.me.own.ack() {
        if at.view.bus.req() {
            None
        } else {
            ack_negation(at)
        }
    } else {
        initiator_turn(at, answering)
    }
}

// ---- by pulses (6.1.5.2)

fn ack_pulse_end(at: &Situation<'_>) -> Option<Due>
    ensures { result ≡ ack_pulse_end at.now.view at.now.me at.now.pace }
{
    let assertion = if rose_with_ack(at) {
        TWO_DESKEW.max(at.pace.times.assertion)
    } else {
        at.pace.times.assertion
    };
    due_at(
        at.view.ages.ack + assertion + at.me.latency,
        at.me.own.without_ack(),
    )
}

fn oldest_req_time(handshakes: &Handshakes) -> Ns
    ensures { result ≡ oldest_req_time handshakes.now }
{
    match handshakes.oldest() {
        None => 0,
        Some(request) => request.time,
    }
}

fn is_oldest_struck(handshakes: &Handshakes) -> bool
    ensures { result ≡ is_struck (first_of handshakes.now.waiting) }
{
    match handshakes.oldest() {
        None => false,
        Some(request) => request.struck,
    }
}

fn next_ack_time(at: &Situation<'_>) -> Ns
    ensures exact { result ≡ next_ack_time at.now.view at.now.handshakes at.now.pace }
    ensures small { result < 2 ^ 63 + 2 ^ 32 }
{
    if at.handshakes.is_answered() {
        (at.handshakes.last_ack() + at.pace.times.period).max(
            at.view.ages.ack + at.pace.times.negation,
        )
    } else {
        0
    }
}

fn ack_pulse_time(at: &Situation<'_>) -> Ns
    ensures exact { result ≡ ack_pulse_time at.now.view at.now.handshakes at.now.pace }
    ensures small { result < 2 ^ 63 + 2 ^ 32 }
{
    let asked = oldest_req_time(at.handshakes) + at.pace.lag;
    asked.max(next_ack_time(at))
}

fn received_byte_pulse(at: &Situation<'_>) -> Option<Due>
    ensures { result ≡ received_byte_pulse at.now.view at.now.handshakes at.now.me at.now.pace }
{
    due_at(
        ack_pulse_time(at) + at.me.latency,
        ack_lines(is_oldest_struck(at.handshakes), at.me.own),
    )
}

fn byte_hold_end(at: &Situation<'_>, answering: &Answering) -> Ns
    requires { answering.now.raised < 2 ^ 63 }
    ensures exact { result ≡ byte_hold_end at.now.me at.now.pace answering.now }
    ensures small { result < 2 ^ 63 + 2 ^ 34 }
{
    answering.raised + at.pace.times.hold + at.me.latency
}

fn byte_time(at: &Situation<'_>, answering: &Answering) -> Ns
    requires { answering.now.raised < 2 ^ 63 }
    ensures exact { result ≡ byte_time at.now.handshakes at.now.me at.now.pace answering.now }
    ensures small { result < 2 ^ 63 + 2 ^ 34 }
{
    let asked = oldest_req_time(at.handshakes) + at.me.latency;
    if !at.handshakes.is_answered() {
        return asked;
    }
    asked.max(byte_hold_end(at, answering))
}

fn pulsed_byte(at: &Situation<'_>, answering: &Answering) -> Option<Due>
    requires { answering.now.raised < 2 ^ 63 }
    ensures { result ≡ pulsed_byte at.now.handshakes at.now.me at.now.pace answering.now }
{
    due_at(
        byte_time(at, answering),
        at.me.own.with_byte(answering.byte),
    )
}

fn sent_byte_pulse(at: &Situation<'_>, answering: &Answering) -> Option<Due>
    requires { answering.now.raised < 2 ^ 63 }
    ensures { result ≡ sent_byte_pulse at.now.view at.now.handshakes at.now.me at.now.pace answering.now }
{
    let set_up = byte_time(at, answering) + at.pace.times.set_up;
    due_at(
        ack_pulse_time(at).max(set_up) + at.me.latency,
        Lines::ACK.with(at.me.own),
    )
}

fn byte_release(at: &Situation<'_>, answering: &Answering) -> Option<Due>
    requires { answering.now.raised < 2 ^ 63 }
    ensures { result ≡ byte_release at.now.me at.now.pace answering.now }
{
    due_at(byte_hold_end(at, answering), at.me.own.without_data())
}

fn ack_pulse(at: &Situation<'_>, answering: &Answering) -> Option<Due>
    requires { answering.now.raised < 2 ^ 63 }
    ensures { result ≡ ack_pulse at.now.view at.now.handshakes at.now.me at.now.pace answering.now }
{
    if at.view.bus.io() {
        received_byte_pulse(at)
    } else if has_byte_if(at.me.own, true, answering.byte) {
        sent_byte_pulse(at, answering)
    } else {
        pulsed_byte(at, answering)
    }
}

fn initiator_pulse(at: &Situation<'_>, answering: &Answering) -> Option<Due>
    requires { answering.now.raised < 2 ^ 63 }
    ensures { result ≡ initiator_pulse at.now.view at.now.handshakes at.now.me at.now.pace answering.now }
{
    if at.me.own.ack() {
        ack_pulse_end(at)
    } else if at.handshakes.waiting() != 0 {
        ack_pulse(at, answering)
    } else if at.me.own.data_bits() == 0 {
        None
    } else {
        byte_release(at, answering)
    }
}

fn bsy_release(at: &Situation<'_>) -> Option<Due>
    ensures { result ≡ bsy_release at.now.view at.now.me }
{
    due_at(at.view.ages.sel + at.me.latency, at.me.own.without_bsy())
}

fn owes_release(at: &Situation<'_>) -> bool
    ensures { result ≡ owes_release at.now.view at.now.me }
{
    at.view.bus.io() && at.me.own.data_bits() != 0
}

/// The same as [`initiator_due`].
pub fn initiator_due_at(begun: bool, at: &Situation<'_>, answering: &Answering) -> Option<Due>
    requires { answering.now.raised < 2 ^ 63 }
    ensures { result ≡ initiator_due begun at.now.view at.now.handshakes at.now.me at.now.pace answering.now }
{
    if at.me.own.bsy() {
        bsy_release(at)
    } else if !begun {
        None
    } else if at.pace.pulsed {
        initiator_pulse(at, answering)
    } else if owes_release(at) {
        byte_release(at, answering)
    } else {
        initiator_handshake(at, answering)
    }
}

/// What the initiator of a connection does next (6.1.4, 6.1.5, 6.2.1): nothing where it waits. `begun` says that the
/// first phase of the connection has begun.
pub fn initiator_due(
    begun: bool,
    view: &Sight,
    handshakes: &Handshakes,
    me: &Myself,
    pace: &Pace,
    answering: &Answering,
) -> Option<Due>
    requires seen { IsSeen view.now }
    requires timed { IsTimed handshakes.now }
    requires ready { IsReady me.now }
    requires steady { IsSteady pace.now }
    requires raised { answering.now.raised < 2 ^ 63 }
    ensures { result ≡ initiator_due begun view.now handshakes.now me.now pace.now answering.now }
{
    let at = Situation {
        view,
        handshakes,
        me,
        pace,
    };
    initiator_due_at(begun, &at, answering)
}
