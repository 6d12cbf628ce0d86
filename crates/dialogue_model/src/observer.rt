//! What the rows tell all devices.
ghost use Rattle.std.specs.Prelude.{ℕ, ◌≡◌, ◌<◌, ◌∷◌, [], List};
ghost use Rattle.story_model.specs.bus_trace.specs.declared.Row.{Row};
ghost use Rattle.story_model.specs.bus_trace.specs.declared.agreements.Agreement.{Agreement};
ghost use Rattle.story_model.specs.bus_trace.specs.Terms.{receiver_of};
ghost use Rattle.reaction_model.specs.bus_lines.specs.BusView.{IsBusViewOf};
ghost use Rattle.story_model.specs.BusState.{message_out, message_in};
ghost use Rattle.story_model.specs.bus_phases.specs.Dialogue.{dialogue, dialogue_after};
ghost use Rattle.story_model.specs.bus_phases.specs.Tables.{AreAgreements};
ghost use Rattle.dialogue_model.specs.Hearing.{begun_after, begun, hearing_by, last_hearing, no_hearing, agreed_after, is_within_phase};
ghost use Rattle.dialogue_model.specs.Observer.{IsObserverOf};

use crate::exchange::Hearing;
use reaction_model::the_bus_lines::{BusView, RowEffect, no_effect};
use std::marker::Model;
use story_model::the_bus_phases::{Agreements, Dialogue, End, agree, asynchronous};
use story_model::the_bus_trace::{Agreement, Change, Connection, Row, changes_phase, is_data};
use story_model::{message_in, message_out};

/// What the rows of a trace so far tell all devices, whatever they are: the view of the bus, what the last row told the
/// two ends of a connection, and of the connection that stands its agreement and whether a phase has begun in it. Each
/// message is read once, and no memory is taken.
#[derive(Drop)]
pub struct Observer {
    view: BusView,
    agreed: Agreements,
    dialogue: Dialogue,
    begun: bool,
    hearing: Hearing,
}

impl Model for Observer {
    ghost use Rattle.dialogue_model.specs.Observer.{ObserverValue};

    ghost Value = { ObserverValue };

    ghost view = { λ a. record {
      view = a.view;
      agreed = a.agreed;
      dialogue = a.dialogue;
      begun = a.begun;
      hearing = a.hearing;
    } };
}

// The messages that a byte makes whole. In most rows no byte of one crosses, or MSG is false.
fn hear_messages(hearing: &mut Hearing, dialogue: &Dialogue, change: &Change, crosses: bool)
    ensures { hearing.new ≡ record hearing.old {
      out = message_out dialogue.now change.now crosses;
      into = message_in dialogue.now change.now crosses;
    } }
{
    if crosses && change.before.msg() {
        hearing.out = message_out(dialogue, change, true);
        hearing.into = message_in(dialogue, change, true);
    } else {
        hearing.out = None;
        hearing.into = None;
    }
}

// Before any row nothing is told.
fn no_hearing() -> Hearing
    ensures { result ≡ no_hearing }
{
    Hearing {
        change: no_effect().change,
        crosses: false,
        out: None,
        into: None,
        fault: false,
        begun: false,
        is_last: false,
        offered: 0,
        struck: false,
    }
}

// What a row tells that did this, after these messages; whether a phase had begun before it, how often REQ had risen in
// it, and whether a fault struck the byte of the last of these.
fn hear(
    hearing: &mut Hearing,
    dialogue: &Dialogue,
    begun: bool,
    offered: u64,
    struck: bool,
    effect: &RowEffect,
)
    ensures { hearing.new ≡ hearing_by dialogue.now begun offered struck effect.now }
{
    let crosses = effect.receiver.is_some();
    // Set by set, since what was just written in parts is slow to read as a whole.
    hearing.change.before = effect.change.before;
    hearing.change.after = effect.change.after;
    hearing.change.own = effect.change.own;
    hearing.change.next = effect.change.next;
    hearing.crosses = crosses;
    hear_messages(hearing, dialogue, &effect.change, crosses);
    hearing.fault = effect.fault;
    hearing.begun = begun;
    hearing.is_last = dialogue.is_last;
    hearing.offered = offered;
    hearing.struck = struck;
}

// Whether a phase has begun after a row, before and after which these connections stand.
fn begun_after(
    begun: bool,
    before: &Option<Connection>,
    after: &Option<Connection>,
    change: &Change,
) -> bool
    ensures { result ≡ begun_after begun before.now after.now change.now }
{
    let Some(connection) = after else {
        return false;
    };
    if before.is_none() {
        return connection.reselected;
    }
    changes_phase(change) || begun
}

// Whether a row that did this begins and ends neither a connection nor a phase, nor an agreement, and no byte crosses
// in it but of DATA.
fn is_within_phase(effect: &RowEffect) -> bool
    ensures { result ≡ is_within_phase effect.now }
{
    let change = &effect.change;
    effect.before.is_some()
        && effect.after.is_some()
        && change.after.bsy()
        && !change.after.rst()
        && !changes_phase(change)
        && (effect.receiver.is_none() || is_data(change.before))
}

// What the messages of the connection that stands say after a row that did this, what pairs of devices agree on, and
// whether a phase has begun. Most rows leave it all as it is.
fn see_messages(
    dialogue: &mut Dialogue,
    agreed: &mut Agreements,
    begun: &mut bool,
    effect: &RowEffect,
)
    ensures dialogue { effect.now.receiver ≡ receiver_of effect.now.before effect.now.change
        → (f : ℕ → ℕ → Agreement) → AreAgreements f agreed.old
        → dialogue.new ≡ dialogue_after dialogue.old effect.now.before effect.now.after f effect.now.change }
    ensures agreed { (f : ℕ → ℕ → Agreement) → AreAgreements f agreed.old
        → AreAgreements (agreed_after effect.now dialogue.old.heard.now f) agreed.new }
    ensures begun { begun.new ≡ begun_after begun.old effect.now.before effect.now.after effect.now.change }
{
    if is_within_phase(effect) {
        dialogue.takes_data(effect.receiver.is_some());
        return;
    }
    renew_messages(dialogue, agreed, effect);
    *begun = begun_after(*begun, &effect.before, &effect.after, &effect.change);
}

// The messages and the agreements after any row. A function of its own, since few rows pay for its copies.
#[inline(never)]
fn renew_messages(dialogue: &mut Dialogue, agreed: &mut Agreements, effect: &RowEffect)
    ensures dialogue { (f : ℕ → ℕ → Agreement) → AreAgreements f agreed.old
        → dialogue.new ≡ dialogue_after dialogue.old effect.now.before effect.now.after f effect.now.change }
    ensures agreed { (f : ℕ → ℕ → Agreement) → AreAgreements f agreed.old
        → AreAgreements (agreed_after effect.now dialogue.old.heard.now f) agreed.new }
{
    let spoken = dialogue.heard.now;
    let _ = dialogue.step(&effect.before, &effect.after, agreed, &effect.change);
    agree(agreed, effect.before, spoken, effect.change.after);
}

impl Observer {
    /// Before any row: a free bus, and nothing told.
    pub fn new() -> Observer
        ensures { IsObserverOf [] result }
    {
        Observer {
            view: BusView::new(),
            agreed: Agreements::new(),
            dialogue: Dialogue::opened(asynchronous()),
            begun: false,
            hearing: no_hearing(),
        }
    }

    /// The view of the bus.
    pub fn view(&self) -> &BusView
        ensures value { result.now ≡ self.now.view }
        ensures trace { (rows : List Row) → IsObserverOf rows self.now → IsBusViewOf rows result.now }
    {
        &self.view
    }

    /// What the last row told the two ends of a connection; nothing before any row.
    pub fn hearing(&self) -> &Hearing
        ensures { (rows : List Row) → IsObserverOf rows self.now → result.now ≡ last_hearing rows }
    {
        &self.hearing
    }

    /// Whether a phase has begun in the connection that stands.
    pub fn begun(&self) -> bool
        ensures { (rows : List Row) → IsObserverOf rows self.now → result ≡ begun rows }
    {
        self.begun
    }

    /// The agreement of the connection that stands (6.6.21); asynchronous without one.
    pub fn agreement(&self) -> Agreement
        ensures { (rows : List Row) → IsObserverOf rows self.now → result ≡ (dialogue rows).heard.now.agreement }
    {
        self.dialogue.heard.now.agreement
    }

    /// Whose synchronous data transfer request is open in it.
    pub fn offer(&self) -> Option<End>
        ensures { (rows : List Row) → IsObserverOf rows self.now → result ≡ (dialogue rows).heard.now.offer }
    {
        self.dialogue.heard.now.offer
    }

    /// One more row. Its time may be any, also before that of the last row.
    pub fn step(&mut self, row: &Row)
        requires { row.now.dev < 8 }
        ensures { (rows : List Row) → IsObserverOf rows self.old → IsObserverOf (row.now ∷ rows) self.new }
    {
        let handshakes = self.view.handshakes();
        let (offered, struck) = (handshakes.requests(), handshakes.is_struck());
        self.view.step(row);
        let effect = self.view.effect();
        hear(
            &mut self.hearing,
            &self.dialogue,
            self.begun,
            offered,
            struck,
            effect,
        );
        see_messages(
            &mut self.dialogue,
            &mut self.agreed,
            &mut self.begun,
            effect,
        );
    }
}
