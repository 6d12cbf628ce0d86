//! What the target of a connection plans in it, row by row (ANSI X3.131-1994, 6.6).
ghost use Rattle.std.specs.Prelude.{◌≡◌, length};
ghost use Rattle.due_model.specs.dialogue_model.specs.Exchange.{no_messages, nothing_heard, no_plan, plan_anew, tag_number, said_with, said_with_if, plan_anew_if, plan_after_message, struck_plan, message_bytes, from_byte};
ghost use Rattle.due_model.specs.dialogue_model.specs.Planning.{first_plan, cause_after, plan_in_message_out, plan_in_phase, plan_with_byte, plan_after};
ghost use Rattle.target_course.specs.Fits.{AreFit};

use bus_base::AbortKind;
use bus_trace::{Lines, changes_phase, is_message_in, is_message_out};
use due_model::the_dialogue_model::{Cause, Hearing, Leaving, Messages, Next, Plan, Said};
use msg_grammar::{MsgIn, MsgOut};
use scenario::Tag;

/// No messages.
pub fn no_messages() -> Messages
    ensures { result ≡ no_messages }
{
    Messages {
        first: None,
        second: None,
    }
}

fn nothing_heard() -> Said
    ensures { result ≡ nothing_heard }
{
    Said {
        unit: None,
        tag: Tag::Untagged,
        aborts: None,
        offer: None,
    }
}

// The plan outside any connection.
fn no_plan() -> Plan
    ensures { result ≡ no_plan }
{
    Plan {
        negotiates: false,
        messages: no_messages(),
        next: Next::FreeBus,
        cause: Cause::Selected,
        said: nothing_heard(),
        struck: false,
    }
}

/// The plan as a connection begins: after a reselection with the messages that name the process (6.1.4), after a
/// selection with whether synchronous transfer may be negotiated in it (6.6.21).
pub fn first_plan(reselected: bool, negotiates: bool, names: Messages) -> Plan
    ensures { result ≡ first_plan reselected negotiates names }
{
    if reselected {
        Plan {
            messages: names,
            next: Next::GoOn,
            ..no_plan()
        }
    } else {
        Plan {
            negotiates,
            ..no_plan()
        }
    }
}

fn plan_anew(plan: &Plan) -> Plan
    ensures { result ≡ plan_anew plan.now }
{
    Plan {
        said: nothing_heard(),
        struck: false,
        ..*plan
    }
}

fn tag_number(tag: Tag) -> u8
    ensures { result ≡ tag_number tag }
{
    match tag {
        Tag::Untagged => 0,
        Tag::Simple(number) | Tag::Ordered(number) | Tag::Head(number) => number,
    }
}

// It heard this message.
fn said_with(message: MsgOut, said: Said) -> Said
    ensures { result ≡ said_with message said }
{
    match message {
        MsgOut::Identify { lun, .. } => Said {
            unit: Some(lun),
            ..said
        },
        MsgOut::SimpleTag(number) => Said {
            tag: Tag::Simple(number),
            ..said
        },
        MsgOut::HeadTag(number) => Said {
            tag: Tag::Head(number),
            ..said
        },
        MsgOut::OrderedTag(number) => Said {
            tag: Tag::Ordered(number),
            ..said
        },
        MsgOut::Sdtr(offer) => Said {
            offer: Some(offer),
            ..said
        },
        MsgOut::Abort => Said {
            aborts: Some(AbortKind::All),
            ..said
        },
        MsgOut::AbortTag => Said {
            aborts: Some(AbortKind::Tag(tag_number(said.tag))),
            ..said
        },
        MsgOut::ClearQueue => Said {
            aborts: Some(AbortKind::WholeQueue),
            ..said
        },
        MsgOut::DeviceReset => Said {
            aborts: Some(AbortKind::Device),
            ..said
        },
        MsgOut::DetectedError | MsgOut::ParityError | MsgOut::Reject | MsgOut::Nop => said,
    }
}

fn said_with_if(message: Option<MsgOut>, said: Said) -> Said
    ensures { result ≡ said_with_if message said }
{
    match message {
        None => said,
        Some(message) => said_with(message, said),
    }
}

fn plan_anew_if(is_last: bool, plan: &Plan) -> Plan
    ensures { result ≡ plan_anew_if is_last plan.now }
{
    if is_last { plan_anew(plan) } else { *plan }
}

fn plan_after_message(plan: &Plan, is_last: bool, message: Option<MsgOut>) -> Plan
    ensures { result ≡ plan_after_message plan.now is_last message }
{
    let plan = plan_anew_if(is_last, plan);
    Plan {
        said: said_with_if(message, plan.said),
        ..plan
    }
}

fn cause_after(bus: Lines) -> Cause
    ensures { result ≡ cause_after bus }
{
    if is_message_in(bus) {
        Cause::InMessage
    } else if bus.cd() {
        Cause::InStatus
    } else {
        Cause::InData
    }
}

/// How many bytes a message to the initiator has (6.6).
pub fn message_length(message: Option<MsgIn>) -> u64
    ensures { result ≡ length (message_bytes message) }
{
    match message {
        None => 0,
        Some(MsgIn::Sdtr(_)) => 5,
        Some(MsgIn::SimpleTag(_)) => 2,
        Some(_) => 1,
    }
}

// The message in which this byte stands, counted from 0, and that after it.
fn from_byte(messages: Messages, place: u64) -> Messages
    ensures { result ≡ from_byte messages place }
{
    if place < message_length(messages.first) {
        messages
    } else {
        Messages {
            first: messages.second,
            second: None,
        }
    }
}

fn plan_in_message_out(hearing: &Hearing, plan: &Plan) -> Plan
    ensures { result ≡ plan_in_message_out hearing.now plan.now }
{
    let before = hearing.change.before;
    let messages = if is_message_in(before) {
        from_byte(plan.messages, hearing.offered.saturating_sub(1))
    } else {
        plan.messages
    };
    Plan {
        cause: cause_after(before),
        messages,
        ..plan_anew(plan)
    }
}

fn plan_in_phase(hearing: &Hearing, leaving: &Leaving, plan: &Plan) -> Plan
    ensures { result ≡ plan_in_phase hearing.now leaving.now plan.now }
{
    if !is_message_out(hearing.change.after) {
        Plan {
            messages: leaving.messages,
            next: leaving.next,
            ..plan_anew(plan)
        }
    } else if hearing.begun {
        plan_in_message_out(hearing, plan)
    } else {
        plan_anew(plan)
    }
}

fn plan_with_byte(hearing: &Hearing, plan: &Plan) -> Plan
    ensures { result ≡ plan_with_byte hearing.now plan.now }
{
    if is_message_out(hearing.change.before) {
        plan_after_message(plan, hearing.is_last, hearing.out)
    } else {
        *plan
    }
}

fn struck_plan(plan: &Plan) -> Plan
    ensures { result ≡ struck_plan plan.now }
{
    Plan {
        struck: true,
        ..*plan
    }
}

fn plan_by(hearing: &Hearing, leaving: &Leaving, plan: &Plan) -> Plan
    ensures { result ≡ plan_after hearing.now leaving.now plan.now }
{
    if changes_phase(&hearing.change) {
        plan_in_phase(hearing, leaving, plan)
    } else if hearing.crosses {
        plan_with_byte(hearing, plan)
    } else if hearing.fault && !hearing.change.before.io() {
        struck_plan(plan)
    } else {
        *plan
    }
}

/// The plan after a row of the connection that told this, where the phase that stood before it was left so.
pub fn plan_after(hearing: &Hearing, leaving: &Leaving, plan: &Plan) -> Plan
    ensures exact { result ≡ plan_after hearing.now leaving.now plan.now }
    ensures fits { AreFit plan.now.messages → AreFit leaving.now.messages → AreFit result.messages }
{
    plan_by(hearing, leaving, plan)
}
