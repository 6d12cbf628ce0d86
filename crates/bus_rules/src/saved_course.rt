//! The words of what stands on the bus, row by row.
ghost use Rattle.std.specs.Prelude.{ℕ, ◌≡◌, ◌<◌, ◌&&◌, ◌∷◌, [], List};
ghost use Rattle.bus_trace.specs.declared.Row.{Row};
ghost use Rattle.bus_trace.specs.declared.agreements.Agreement.{Agreement};
ghost use Rattle.bus_trace.specs.Trace.{since_line};
ghost use Rattle.bus_trace.specs.Changes.{change_of, falls};
ghost use Rattle.bus_trace.specs.Saved.{arbitration_in, call_in, connection_in};
ghost use Rattle.bus_trace.specs.Terms.{free_since, arbitration_after, call_after, connection_after};
ghost use Rattle.bus_phases.specs.Dialogue.{asynchronous, opened, phase_begins, dialogue_after};
ghost use Rattle.bus_phases.specs.Phases.{is_attention_held, pulses_after};
ghost use Rattle.bus_phases.specs.Reading.{reading_of};
ghost use Rattle.bus_phases.specs.Saved.{dialogue_in, half_in, pulses_in};
ghost use Rattle.bus_phases.specs.Tables.{AreAgreements};
ghost use Rattle.bus_rules.specs.DataRows.{course_after_transfer, course_after_ask, course_after_answer};
ghost use Rattle.bus_rules.specs.Judging.{IsCourseOf};
ghost use Rattle.bus_rules.specs.Saved.{course_in};

use crate::course::{initiator_in, target_in};
use crate::data_rows::{crosses_in, duty_in_data};
use crate::saved::SavedCourse;
use bus_base::Ns;
use bus_phases::{
    Agreements, Dialogue, Duty, Reading, SavedDialogue, SavedHalf, SavedPulses, agree,
    asynchronous, duty_after, duty_in, duty_word, pulses_after, turned_after,
};
use bus_trace::{
    Change, Connection, Row, SavedArbitration, SavedCall, SavedConnection, SavedTime, ScsiId,
    call_after, changes_phase, falls, id_or_none_word, is_yes, receiver_of, rises, see_arbitration,
    see_connection, word_of,
};

/// The connection that these words say. Of its own beside [`SavedConnection::get`], since it stands in line in the
/// short test, which asks for it in each row.
#[inline(always)]
pub fn connection_in(saved: &SavedConnection) -> Option<Connection>
    ensures { result ≡ connection_in saved.now }
{
    if is_yes(saved.is_some) {
        Some(Connection {
            initiator: ScsiId::new((saved.initiator % 8) as u8),
            target: ScsiId::new((saved.target % 8) as u8),
            began: saved.began,
            reselected: is_yes(saved.reselected),
        })
    } else {
        None
    }
}

// ---- a row that passes the short test

// REQ rises, or not, in a row in which ACK does not move.
#[inline(always)]
fn ask(course: &mut SavedCourse, rises: bool, reads: bool, time: Ns)
    ensures { course_in course.new ≡ course_after_ask (course_in course.old) rises reads time }
{
    course.receiver = id_or_none_word(None);
    if rises {
        course.pulses.req = course.pulses.req.saturating_add(1);
        course.pulses.last_req = SavedTime::of(Some(time));
        course.duty = duty_word(Duty::Nothing);
        if reads {
            course.receiver = id_or_none_word(initiator_in(&connection_in(&course.connection)));
            course.dialogue.begun = word_of(true);
        }
    }
}

// Whether ACK falls while ATN is held.
#[inline(always)]
fn is_heeded(change: &Change, held: bool) -> bool
    ensures { result ≡ (falls change.now.before.ack change.now.after.ack && held) }
{
    falls(change.before.ack(), change.after.ack()) && held
}

// ACK rises, or not, in a row in which REQ does not move; or it falls while ATN is held.
#[inline(always)]
fn answer(course: &mut SavedCourse, rises: bool, heeded: bool, reads: bool, time: Ns)
    ensures { course_in course.new ≡ course_after_answer (course_in course.old) rises heeded reads time }
{
    course.receiver = id_or_none_word(None);
    if heeded {
        course.duty = duty_word(Duty::Asked);
    }
    if rises {
        course.pulses.ack = course.pulses.ack.saturating_add(1);
        course.pulses.last_ack = SavedTime::of(Some(time));
        if !reads {
            course.receiver = id_or_none_word(target_in(&connection_in(&course.connection)));
            course.dialogue.begun = word_of(true);
        }
    }
}

// The same, where both move.
#[cold]
#[inline(never)]
fn transfer_both(course: &mut SavedCourse, held: bool, change: &Change, time: Ns)
    ensures { course_in course.new ≡ course_after_transfer (course_in course.old) held change.now time }
{
    course.receiver = id_or_none_word(receiver_of(&course.connection.get(), change));
    let mut pulses = course.pulses.get();
    pulses.count(change, time);
    course.pulses = SavedPulses::of(pulses);
    course.duty = duty_word(duty_in_data(duty_in(course.duty), change, held));
    if crosses_in(change) {
        course.dialogue.begun = word_of(true);
    }
}

/// One row more that passes the short test. `held` says whether ATN is held over it.
#[inline(always)]
pub fn transfer_course(course: &mut SavedCourse, held: bool, change: &Change, time: Ns)
    ensures { course_in course.new ≡ course_after_transfer (course_in course.old) held change.now time }
{
    let (before, after) = (change.before, change.after);
    if before.ack() == after.ack() {
        ask(course, rises(before.req(), after.req()), before.io(), time);
    } else if before.req() == after.req() {
        let rising = rises(before.ack(), after.ack());
        answer(course, rising, is_heeded(change, held), before.io(), time);
    } else {
        // A copy, so that no other change has to stand in memory.
        let change = *change;
        transfer_both(course, held, &change, time);
    }
}

// ---- any row

fn step_arbitration(saved: &mut SavedArbitration, free: Ns, change: &Change, row: &Row)
    ensures { arbitration_in saved.new ≡ arbitration_after (arbitration_in saved.old) free change.now row.now }
{
    let mut arbitration = saved.get();
    see_arbitration(&mut arbitration, free, change, row);
    *saved = SavedArbitration::of(arbitration);
}

// A function of its own, since each call pays for the room of its copies.
#[inline(never)]
fn renew_call(saved: &mut SavedCall, change: &Change, row: &Row)
    requires { row.now.dev < 8 }
    ensures { call_in saved.new ≡ call_after (call_in saved.old) change.now row.now }
{
    *saved = SavedCall::of(call_after(saved.get(), change, row));
}

fn step_call(saved: &mut SavedCall, change: &Change, row: &Row)
    requires { row.now.dev < 8 }
    ensures { call_in saved.new ≡ call_after (call_in saved.old) change.now row.now }
{
    if is_yes(saved.is_some) || change.after.sel() {
        renew_call(saved, change, row);
    }
}

fn step_connection(saved: &mut SavedConnection, call: &SavedCall, change: &Change, row: &Row)
    ensures { connection_in saved.new
        ≡ connection_after (connection_in saved.old) (call_in call.now) change.now row.now }
{
    let mut connection = saved.get();
    see_connection(&mut connection, &call.get(), change, row);
    *saved = SavedConnection::of(connection);
}

// The pulses, where this connection stands after the row.
fn step_pulses(saved: &mut SavedPulses, connection: Option<Connection>, change: &Change, time: Ns)
    ensures { pulses_in saved.new ≡ pulses_after (pulses_in saved.old) connection change.now time }
{
    *saved = SavedPulses::of(pulses_after(saved.get(), connection, change, time));
}

// No connection stands.
fn silent() -> SavedDialogue
    ensures { dialogue_in result ≡ opened asynchronous }
{
    SavedDialogue::of(&Dialogue::opened(asynchronous()))
}

fn no_bytes() -> SavedHalf
    ensures { half_in result ≡ [] }
{
    SavedHalf {
        length: 0,
        bytes: [0; 8],
    }
}

fn begin_phase(saved: &mut SavedDialogue)
    ensures { dialogue_in saved.new ≡ phase_begins (dialogue_in saved.old) }
{
    saved.at_phase = saved.heard;
    saved.is_last = word_of(false);
    saved.half = no_bytes();
    saved.fresh = no_bytes();
}

// The messages after a row before and after which these connections stand, in their own form.
#[inline(never)]
fn step_messages(
    saved: &mut SavedDialogue,
    before: &Option<Connection>,
    after: &Option<Connection>,
    agreed: &Agreements,
    change: &Change,
) -> Reading
    ensures exact { (f : ℕ → ℕ → Agreement) → AreAgreements f agreed.now
        → dialogue_in saved.new ≡ dialogue_after (dialogue_in saved.old) before.now after.now f change.now }
    ensures reading { result ≡ reading_of (dialogue_in saved.old).half before.now change.now }
{
    let mut dialogue = saved.get();
    let reading = dialogue.step(before, after, agreed, change);
    *saved = SavedDialogue::of(&dialogue);
    reading
}

// The same. Only where a byte crosses or a connection begins is more of them read than few words.
fn step_dialogue(
    saved: &mut SavedDialogue,
    before: &Option<Connection>,
    after: &Option<Connection>,
    agreed: &Agreements,
    change: &Change,
) -> Reading
    ensures exact { (f : ℕ → ℕ → Agreement) → AreAgreements f agreed.now
        → dialogue_in saved.new ≡ dialogue_after (dialogue_in saved.old) before.now after.now f change.now }
    ensures reading { result ≡ reading_of (dialogue_in saved.old).half before.now change.now }
{
    if receiver_of(before, change).is_none() {
        if after.is_none() {
            *saved = silent();
            return Reading::NoMessage;
        }
        if before.is_some() {
            if changes_phase(change) {
                begin_phase(saved);
            }
            return Reading::NoMessage;
        }
    }
    step_messages(saved, before, after, agreed, change)
}

/// One row more that changes this, on a bus that was free since `free`, in ns. `held` says whether ATN is held over
/// it. Tells what a byte makes of a message.
pub fn step_course(
    course: &mut SavedCourse,
    free: Ns,
    held: bool,
    change: &Change,
    row: &Row,
) -> Reading
    requires { row.now.dev < 8 }
    ensures kept { (rows : List Row) → IsCourseOf rows (course_in course.old) → free ≡ free_since rows
        → change.now ≡ change_of rows row.now
        → held ≡ is_attention_held (change_of rows row.now) (since_line (λ s. s.atn) rows) row.now.time
        → IsCourseOf (row.now ∷ rows) (course_in course.new) }
    ensures reading { result
        ≡ reading_of (course_in course.old).dialogue.half (course_in course.old).connection change.now }
{
    let before = course.connection.get();
    let spoken = course.dialogue.heard.said.get();
    step_connection(&mut course.connection, &course.call, change, row);
    let after = course.connection.get();
    let reading = step_dialogue(
        &mut course.dialogue,
        &before,
        &after,
        &course.agreed,
        change,
    );
    agree(&mut course.agreed, before, spoken, change.after);
    course.receiver = id_or_none_word(receiver_of(&before, change));
    course.turned = word_of(turned_after(is_yes(course.turned), before, change));
    step_pulses(&mut course.pulses, after, change, row.time);
    course.duty = duty_word(duty_after(duty_in(course.duty), after, change, held));
    step_arbitration(&mut course.arbitration, free, change, row);
    step_call(&mut course.call, change, row);
    let (own, next) = (change.own, change.next);
    course
        .bsy_raised
        .step(row.dev, row.time, own.bsy(), next.bsy());
    course
        .rst_raised
        .step(row.dev, row.time, own.rst(), next.rst());
    reading
}
