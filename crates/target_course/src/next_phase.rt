//! The course of a connection at its target: which phase follows, and what is said in it (ANSI X3.131-1994, 6.1.5 and
//! 6.6).
ghost use Rattle.std.specs.Prelude.{ℕ, ◌≡◌, List, Some};
ghost use Rattle.due_model.specs.dialogue_model.specs.Arrivals.{policy_of};
ghost use Rattle.due_model.specs.dialogue_model.specs.Exchange.{one_message, two_messages};
ghost use Rattle.due_model.specs.dialogue_model.specs.Words.{reply_to, request_by, is_naming};
ghost use Rattle.due_model.specs.dialogue_model.specs.NextPhase.{phase_of, bus_free, phase_entry, message_in_entry, recovery, pointer_restoration, next_data_phase, request_or_command, after_offer, after_opening, message_repetition, after_refusal, message_out_leaving, after_messages, disconnection, with_task, after_arrival, command_leaving, waits_seek, disconnect_messages, after_run, data_in_leaving, data_out_leaving, unless_attention, phase_leaving, leaving_by};
ghost use Rattle.msg_grammar.specs.declared.message.MsgIn.TheVariants as to_initiator;
ghost use Rattle.target_course.specs.Fits.{AreFit};
ghost use Rattle.target_course.specs.Servings.{serving_with};

use crate::data_runs::{has_further_run, runs_in_all};
use crate::plans::no_messages;
use crate::serving::Serving;
use bus_trace::{Agreement, Lines, UNLIMITED_OFFSET};
use due_model::the_dialogue_model::{Arrival, Cause, Leaving, Messages, Next, Phase, Plan, Task};
use msg_grammar::MsgIn;
use scenario::{Policy, TargetDef};
use target_units::the_scsi_device::agreement_answer;

/// The phase of these lines (6.1.5).
pub fn phase_of(bus: Lines) -> Phase
    ensures { result ≡ phase_of bus }
{
    if bus.msg() {
        if bus.io() {
            Phase::MessageIn
        } else {
            Phase::MessageOut
        }
    } else if bus.cd() {
        if bus.io() {
            Phase::Status
        } else {
            Phase::Command
        }
    } else if bus.io() {
        Phase::DataIn
    } else {
        Phase::DataOut
    }
}

fn one_message(message: MsgIn) -> Messages
    ensures { result ≡ one_message message }
{
    Messages {
        first: Some(message),
        second: None,
    }
}

fn two_messages(first: MsgIn, second: MsgIn) -> Messages
    ensures { result ≡ two_messages first second }
{
    Messages {
        first: Some(first),
        second: Some(second),
    }
}

fn bus_free() -> Leaving
    ensures { result ≡ bus_free }
{
    Leaving {
        to: None,
        messages: no_messages(),
        next: Next::FreeBus,
        counts: false,
        done: false,
    }
}

fn phase_entry(phase: Phase) -> Leaving
    ensures { result ≡ phase_entry phase }
{
    Leaving {
        to: Some(phase),
        ..bus_free()
    }
}

fn message_in_entry(messages: Messages, next: Next) -> Leaving
    ensures { result ≡ message_in_entry messages next }
{
    Leaving {
        messages,
        next,
        ..phase_entry(Phase::MessageIn)
    }
}

fn disconnection(messages: Messages) -> Leaving
    ensures { result ≡ disconnection messages }
{
    message_in_entry(messages, Next::FreeBus)
}

// It is tried again, or given up (6.6.10, 6.6.13, 6.6.19).
fn recovery(def: &TargetDef, task: &Task, again: Leaving, gives_up: Leaving) -> Leaving
    ensures { result ≡ recovery (Some def.now) task.now again gives_up }
{
    if task.in_hold {
        again
    } else if task.recoveries < u64::from(def.retries) {
        Leaving {
            counts: true,
            ..again
        }
    } else {
        gives_up
    }
}

fn pointer_restoration(next: Next) -> Leaving
    ensures { result ≡ pointer_restoration next }
{
    message_in_entry(one_message(MsgIn::RestorePointers), next)
}

fn next_data_phase(policy: Policy, task: &Task, made: u64) -> Phase
    ensures { result ≡ next_data_phase policy task.now made }
{
    if !task.replied && made < runs_in_all(policy, task) {
        if task.writes {
            Phase::DataOut
        } else {
            Phase::DataIn
        }
    } else {
        Phase::Status
    }
}

fn reply_to(def: &TargetDef, offer: Agreement) -> MsgIn
    ensures { result ≡ reply_to (Some def.now) offer }
{
    if offer.offset == UNLIMITED_OFFSET {
        MsgIn::Reject
    } else {
        MsgIn::Sdtr(agreement_answer(def.period, def.offset, offer))
    }
}

// The request that it makes itself.
fn request_by(def: &TargetDef) -> Option<MsgIn>
    ensures { result ≡ request_by (Some def.now) }
{
    if def.begins && def.period > 0 {
        Some(MsgIn::Sdtr(Agreement {
            period: def.period,
            offset: def.offset,
        }))
    } else {
        None
    }
}

fn request_or_command(message: Option<MsgIn>) -> Leaving
    ensures { result ≡ request_or_command message }
{
    match message {
        None => phase_entry(Phase::Command),
        Some(message) => message_in_entry(one_message(message), Next::Command),
    }
}

fn after_offer(def: &TargetDef, negotiates: bool, offer: Option<Agreement>) -> Leaving
    ensures { result ≡ after_offer (Some def.now) negotiates offer }
{
    match offer {
        Some(offer) => message_in_entry(one_message(reply_to(def, offer)), Next::Command),
        None if negotiates => request_or_command(request_by(def)),
        None => phase_entry(Phase::Command),
    }
}

fn after_opening(def: &TargetDef, plan: &Plan) -> Leaving
    ensures { result ≡ after_opening (Some def.now) plan.now }
{
    if plan.said.aborts.is_some() {
        bus_free()
    } else {
        after_offer(def, plan.negotiates, plan.said.offer)
    }
}

fn is_naming(message: Option<MsgIn>) -> bool
    ensures { result ≡ is_naming message }
{
    matches!(message, Some(MsgIn::Identify { .. } | MsgIn::SimpleTag(_)))
}

fn message_repetition(plan: &Plan) -> Leaving
    ensures { result ≡ message_repetition plan.now }
{
    message_in_entry(plan.messages, plan.next)
}

fn after_refusal(serving: &Serving) -> Leaving
    ensures { (given : List ℕ) → result ≡ after_refusal (serving_with serving.now given) }
{
    let plan = &serving.plan;
    if plan.said.offer.is_some() {
        return phase_entry(Phase::Command);
    }
    if is_naming(plan.messages.first) {
        return message_repetition(plan);
    }
    match &serving.task {
        None => bus_free(),
        Some(task) => recovery(&serving.def, task, message_repetition(plan), bus_free()),
    }
}

// It goes on from the pointers that were saved, or gives up so.
fn restoration(serving: &Serving, next: Next, gives_up: Leaving) -> Leaving
    ensures { result ≡ with_task serving.now.task
        (λ t. recovery (Some serving.now.def) t (pointer_restoration next) gives_up) }
{
    match &serving.task {
        None => bus_free(),
        Some(task) => recovery(&serving.def, task, pointer_restoration(next), gives_up),
    }
}

fn message_out_leaving(serving: &Serving) -> Leaving
    ensures { (given : List ℕ) → result ≡ message_out_leaving (serving_with serving.now given) serving.now.plan.cause }
{
    match serving.plan.cause {
        Cause::Selected => after_opening(&serving.def, &serving.plan),
        Cause::InMessage => after_refusal(serving),
        Cause::InData => restoration(serving, Next::GoOn, phase_entry(Phase::Status)),
        Cause::InStatus => restoration(serving, Next::Status, bus_free()),
    }
}

fn data_phase_entry(serving: &Serving) -> Leaving
    ensures { result ≡ with_task serving.now.task
        (λ t. phase_entry (next_data_phase (policy_of (Some serving.now.def)) t t.runs)) }
{
    match &serving.task {
        None => bus_free(),
        Some(task) => phase_entry(next_data_phase(serving.def.disc, task, task.runs)),
    }
}

fn after_messages(serving: &Serving) -> Leaving
    ensures { (given : List ℕ) → result ≡ after_messages (serving_with serving.now given) serving.now.plan.next }
{
    match serving.plan.next {
        Next::Command => phase_entry(Phase::Command),
        Next::Status => phase_entry(Phase::Status),
        Next::GoOn => data_phase_entry(serving),
        Next::FreeBus => bus_free(),
    }
}

fn after_arrival(def: &TargetDef, task: &Task, arrival: Arrival) -> Leaving
    ensures { result ≡ after_arrival (Some def.now) task.now arrival }
{
    match arrival {
        Arrival::Refused => phase_entry(Phase::Status),
        Arrival::Guest | Arrival::AtOnce => {
            phase_entry(next_data_phase(def.disc, task, task.runs))
        }
        Arrival::Queued => disconnection(one_message(MsgIn::Disconnect)),
    }
}

fn command_leaving(serving: &Serving) -> Leaving
    ensures { (given : List ℕ) → result ≡ command_leaving (serving_with serving.now given) serving.now.arrival }
{
    if serving.plan.struck {
        return restoration(serving, Next::Command, phase_entry(Phase::Status));
    }
    match &serving.task {
        None => bus_free(),
        Some(task) => after_arrival(&serving.def, task, serving.arrival),
    }
}

/// Whether the target waits the seek time in COMMAND: for a command that runs at once.
pub fn waits_seek(plan: &Plan, arrival: Arrival) -> bool
    ensures { result ≡ waits_seek plan.now arrival }
{
    !plan.struck && matches!(arrival, Arrival::AtOnce)
}

// What is said between two runs (6.6.6, 6.6.20).
fn disconnect_messages(policy: Policy) -> Messages
    ensures { result ≡ disconnect_messages policy }
{
    match policy {
        Policy::Burst(_) => two_messages(MsgIn::SavePointer, MsgIn::Disconnect),
        Policy::Never | Policy::Command | Policy::NoSave(_) => one_message(MsgIn::Disconnect),
    }
}

fn after_run(policy: Policy, task: &Task) -> Leaving
    ensures { result ≡ after_run policy task.now }
{
    let next = if has_further_run(policy, task) {
        disconnection(disconnect_messages(policy))
    } else {
        phase_entry(Phase::Status)
    };
    Leaving { done: true, ..next }
}

fn data_in_leaving(serving: &Serving) -> Leaving
    ensures { result ≡ with_task serving.now.task (λ t. after_run (policy_of (Some serving.now.def)) t) }
{
    match &serving.task {
        None => bus_free(),
        Some(task) => after_run(serving.def.disc, task),
    }
}

fn data_out_leaving(serving: &Serving) -> Leaving
    ensures { (given : List ℕ) → result ≡ data_out_leaving (serving_with serving.now given) }
{
    if serving.plan.struck {
        return restoration(serving, Next::GoOn, phase_entry(Phase::Status));
    }
    data_in_leaving(serving)
}

fn unless_attention(attention: bool, leaving: Leaving) -> Leaving
    ensures { result ≡ unless_attention attention leaving }
{
    if attention {
        phase_entry(Phase::MessageOut)
    } else {
        leaving
    }
}

fn command_complete() -> Leaving
    ensures { result ≡ disconnection (one_message to_initiator.CommandComplete) }
{
    disconnection(one_message(MsgIn::CommandComplete))
}

/// How the target of a connection leaves this phase, where ATN is true or not as it does: to which phase or to BUS
/// FREE, with which messages, and whether a recovery is counted or a data run done (6.1.5, 6.6).
pub fn phase_leaving(serving: &Serving, attention: bool, phase: Phase) -> Leaving
    ensures { (given : List ℕ) → result ≡ phase_leaving (serving_with serving.now given) attention phase }
{
    match phase {
        Phase::MessageOut => message_out_leaving(serving),
        Phase::MessageIn => unless_attention(attention, after_messages(serving)),
        Phase::Command => command_leaving(serving),
        Phase::DataIn => unless_attention(attention, data_in_leaving(serving)),
        Phase::DataOut => data_out_leaving(serving),
        Phase::Status => unless_attention(attention, command_complete()),
    }
}

fn leaving_if(serving: &Serving, begun: bool, bus: Lines) -> Leaving
    ensures { (given : List ℕ) → result ≡ leaving_by (serving_with serving.now given) begun bus }
{
    if begun {
        phase_leaving(serving, bus.atn(), phase_of(bus))
    } else {
        phase_entry(Phase::MessageOut)
    }
}

/// How it leaves the phase of these lines; `begun` says that the first phase of the connection has begun. After a
/// selection that is MESSAGE OUT (6.1.3, 6.3).
pub fn leaving_by(serving: &Serving, begun: bool, bus: Lines) -> Leaving
    ensures exact { (given : List ℕ) → result ≡ leaving_by (serving_with serving.now given) begun bus }
    ensures fits { AreFit serving.now.plan.messages → AreFit result.messages }
{
    leaving_if(serving, begun, bus)
}
