//! The events that the target of a connection shows as it leaves a phase.
ghost use Rattle.std.specs.Prelude.{ℕ, ◌≡◌, ◌&&◌, not, List, [], ◌∷◌, Some, if◌then◌else◌};
ghost use Rattle.due_model.specs.dialogue_model.specs.NextPhase.{phase_leaving, phase_of};
ghost use Rattle.due_model.specs.dialogue_model.specs.Events.{arrival_event, arrival_events, detected_events, arrival_run_events, reply_events, is_status_next, has_replied, newest_with, turn_events, turn_events_if, unit_or_0, abort_events, loss_events, after_opening_events, connection_end_events, leaving_events, event_if};
ghost use Rattle.target_course.specs.Servings.{serving_with};
ghost use Rattle.target_course.specs.Shown.{shown_list};

use crate::next_phase::{phase_leaving, phase_of};
use crate::serving::Serving;
use bus_base::{AbortKind, Event, ProcId};
use bus_trace::Connection;
use cdb_codec::{INITIATOR_DETECTED_ERROR, PARITY_ERROR};
use due_model::the_dialogue_model::{Arrival, Cause, Hearing, Phase, Plan, Said, Task};

/// What a row shows: nothing, one event, or two in this order.
#[derive(Clone, Copy)]
pub struct Shown {
    /// The first.
    pub event: Option<Event>,
    /// And the one after it.
    pub second: Option<Event>,
}

fn arrival_event(id: ProcId, arrival: Arrival) -> Event
    ensures { result ≡ arrival_event id arrival }
{
    match arrival {
        Arrival::Refused => Event::Refuse(id),
        Arrival::Guest | Arrival::AtOnce | Arrival::Queued => Event::Accept(id),
    }
}

fn event_of_arrival(id: ProcId, plan: &Plan, arrival: Arrival, phase: Phase) -> Option<Event>
    ensures { event_if result ≡ arrival_events id plan.now arrival phase }
{
    match phase {
        Phase::Command if !plan.struck => Some(arrival_event(id, arrival)),
        _ => None,
    }
}

fn event_of_detection(cause: Cause, id: ProcId) -> Event
    ensures { event_if (Some result) ≡ detected_events cause id }
{
    match cause {
        Cause::InData => Event::Fail(id, INITIATOR_DETECTED_ERROR),
        Cause::Selected | Cause::InMessage | Cause::InStatus => Event::Run(id),
    }
}

fn event_of_run(arrival: Arrival, id: ProcId) -> Option<Event>
    ensures { event_if result ≡ arrival_run_events arrival id }
{
    match arrival {
        Arrival::Refused => None,
        Arrival::Guest | Arrival::AtOnce | Arrival::Queued => Some(Event::Run(id)),
    }
}

fn event_of_reply(id: ProcId, plan: &Plan, arrival: Arrival, phase: Phase) -> Option<Event>
    ensures { event_if result ≡ reply_events id plan.now arrival phase }
{
    match phase {
        Phase::Command | Phase::DataOut if plan.struck => Some(Event::Fail(id, PARITY_ERROR)),
        Phase::Command => event_of_run(arrival, id),
        Phase::MessageOut => Some(event_of_detection(plan.cause, id)),
        Phase::DataOut | Phase::DataIn | Phase::Status | Phase::MessageIn => Some(Event::Run(id)),
    }
}

fn is_status_next(to: Option<Phase>) -> bool
    ensures { result ≡ is_status_next to }
{
    matches!(to, Some(Phase::Status))
}

fn has_replied(task: &Option<Task>) -> bool
    ensures { result ≡ has_replied task.now }
{
    match task {
        None => true,
        Some(task) => task.replied,
    }
}

// Whether its reply is given as it leaves the phase so.
fn replies(serving: &Serving, attention: bool, phase: Phase) -> bool
    ensures { (given : List ℕ)
        → result ≡ (is_status_next (phase_leaving (serving_with serving.now given) attention phase).to && not
        (has_replied serving.now.task)) }
{
    is_status_next(phase_leaving(serving, attention, phase).to) && !has_replied(&serving.task)
}

// Its reply, where that is given as it leaves the phase so.
fn reply_if(serving: &Serving, attention: bool, phase: Phase, id: ProcId) -> Option<Event>
    ensures { (given : List ℕ)
        → event_if result ≡ (if is_status_next
        (phase_leaving (serving_with serving.now given) attention phase).to && not
        (has_replied serving.now.task) then reply_events id serving.now.plan serving.now.arrival phase else []) }
{
    if replies(serving, attention, phase) {
        event_of_reply(id, &serving.plan, serving.arrival, phase)
    } else {
        None
    }
}

fn shown_in_order(arrival: Option<Event>, reply: Option<Event>) -> Shown
    ensures { shown_list result ≡ newest_with (event_if reply) (event_if arrival) }
{
    match arrival {
        None => Shown {
            event: reply,
            second: None,
        },
        Some(arrival) => Shown {
            event: Some(arrival),
            second: reply,
        },
    }
}

fn turn_shown(serving: &Serving, attention: bool, phase: Phase, id: ProcId) -> Shown
    ensures { (given : List ℕ) → shown_list result ≡ turn_events (serving_with serving.now given) attention phase id }
{
    let reply = reply_if(serving, attention, phase, id);
    let arrival = event_of_arrival(id, &serving.plan, serving.arrival, phase);
    shown_in_order(arrival, reply)
}

/// Nothing.
pub fn nothing_shown() -> Shown
    ensures { shown_list result ≡ [] }
{
    Shown {
        event: None,
        second: None,
    }
}

fn shown_once(event: Event) -> Shown
    ensures { shown_list result ≡ event ∷ [] }
{
    Shown {
        event: Some(event),
        second: None,
    }
}

fn turn_shown_if(serving: &Serving, attention: bool, phase: Phase, id: Option<ProcId>) -> Shown
    ensures { (given : List ℕ)
        → shown_list result ≡ turn_events_if (serving_with serving.now given) attention phase id }
{
    match id {
        None => nothing_shown(),
        Some(id) => turn_shown(serving, attention, phase, id),
    }
}

fn loss(id: Option<ProcId>) -> Shown
    ensures { shown_list result ≡ loss_events id }
{
    match id {
        None => nothing_shown(),
        Some(id) => shown_once(Event::Lost(id)),
    }
}

fn abort(connection: &Connection, said: &Said, what: AbortKind) -> Shown
    ensures { shown_list result ≡ abort_events connection.now said.now what }
{
    shown_once(Event::Aborted(
        connection.initiator.get(),
        connection.target.get(),
        said.unit.unwrap_or(0),
        what,
    ))
}

fn connection_end(connection: &Connection, plan: &Plan, phase: Phase, id: Option<ProcId>) -> Shown
    ensures { shown_list result ≡ connection_end_events connection.now plan.now phase id }
{
    match (phase, plan.said.aborts) {
        (Phase::MessageOut, Some(what)) => abort(connection, &plan.said, what),
        (Phase::MessageIn, _) => nothing_shown(),
        _ => loss(id),
    }
}

/// What the target of a connection shows with a row that told this and leaves the phase before it, where it serves this
/// process: that a command arrived, that it runs or fails with its reply, that it is lost, or what was aborted.
/// `stands` says that the connection stands after the row.
pub fn leaving_shown(
    serving: &Serving,
    connection: &Connection,
    hearing: &Hearing,
    stands: bool,
    id: Option<ProcId>,
) -> Shown
    ensures { (given : List ℕ) → shown_list result
        ≡ leaving_events (serving_with serving.now given) connection.now hearing.now.begun stands
        hearing.now.change.before.atn (phase_of hearing.now.change.before) id }
{
    let before = hearing.change.before;
    let phase = phase_of(before);
    if !hearing.begun {
        nothing_shown()
    } else if stands {
        turn_shown_if(serving, before.atn(), phase, id)
    } else {
        connection_end(connection, &serving.plan, phase, id)
    }
}
