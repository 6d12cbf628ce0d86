//! An initiator of a scenario: what it knows, row by row, and what it does next (ANSI X3.131-1994, 6 and 7).
ghost use Rattle.std.specs.Prelude.{◌≡◌, ◌≢◌, ◌<◌, ◌≤◌, ◌==◌, ◌&&◌, ◌^◌, [], ◌∷◌, List, length, is_some, true, false, Some, if◌then◌else◌, IfOk};
ghost use Rattle.std.specs.List.{find};
ghost use Rattle.bus_trace.specs.declared.Row.{Row};
ghost use Rattle.bus_trace.specs.Terms.{connection};
ghost use Rattle.bus_trace.specs.Trace.{bus};
ghost use Rattle.bus_lines.specs.BusView.{IsBusViewOf};
ghost use Rattle.bus_lines.specs.Timely.{IsTimely, IsBefore};
ghost use Rattle.due_model.specs.dialogue_model.specs.Hearing.{hearing as hearing_in};
ghost use Rattle.due_model.specs.dialogue_model.specs.Observer.{IsObserverOf};
ghost use Rattle.due_model.specs.dialogue_model.specs.Events.{is_empty, event_if};
ghost use Rattle.due_model.specs.Defs.{host_of};
ghost use Rattle.due_model.specs.Next.{due};
ghost use Rattle.due_model.specs.Plain.{AreOfDevices};
ghost use Rattle.due_model.specs.RunSteps.{run_state, events_of_row};
ghost use Rattle.scenario.specs.Value.{ScenarioValue};
ghost use Rattle.scenario.specs.Writing.{Obeys};
ghost use Rattle.initiator_books.specs.scsi_device.specs.Lines.{FitsBus, IsHostLine, AreUnits};
ghost use Rattle.initiator_books.specs.scsi_device.specs.Told.{first_fault};
ghost use Rattle.bus_trace.specs.declared.connection.Connection.{Connection};
ghost use Rattle.story_model.specs.BusState.{row_reading};
ghost use Rattle.due_model.specs.RunState.{item_of};
ghost use Rattle.due_model.specs.Telling.{id_of, initiator_events, id_or_none};
ghost use Rattle.initiator_books.specs.scsi_device.specs.Acts.{act_of};
ghost use Rattle.initiator_books.specs.scsi_device.specs.Itself.{IsItselfOf};
ghost use Rattle.initiator.specs.Hosts.{IsHostAfter, HasHeard, IsNeverCalled, is_of_others, hears_nothing, are_aborts_done};
ghost use Rattle.scenario.specs.declared.value.CmdDef.{CmdDef};
ghost use Rattle.due_model.specs.array_model.specs.Processes.{command_at};
ghost use Rattle.initiator_books.specs.Books.{my_book};
ghost use Rattle.story_model.specs.Story.{Story};
ghost use Rattle.initiator_books.specs.Endings.{end_at, IsEndOf};
ghost use Rattle.initiator_books.specs.Openings.{mine_at};
ghost use Rattle.initiator.specs.Outcomes.{are_replies, told_outcome_if, settled_outcome, is_settled, is_sense_over};
ghost use Rattle.initiator_books.specs.OwnLinks.{own_link};
ghost use Rattle.initiator.specs.Received.{pair_at, received_taken};
ghost use Rattle.initiator.specs.Speeches.{IsOpeningOf};
ghost use Rattle.initiator.specs.States.{IsOwnConnection};
ghost use Rattle.initiator_books.specs.Intents.{IsIntentOf};
ghost use Rattle.initiator.specs.Transfers.{IsTransfersOf};

use crate::due::{Knowledge, initiator_next};
use crate::laws::{initiators_are_their_parts, initiators_have_no_unit};
use crate::negotiations::Negotiations;
use crate::outcome::{command_outcome, is_settled};
use crate::own_bytes::OwnBytes;
use crate::received::{Received, see_received};
use crate::speech::Speech;
use crate::transfers::Transfers;
use bus_base::{Dev, Event, NoMemory, Ns, ProcId};
use bus_lines::{BusView, RowEffect};
use bus_trace::{Connection, Row, changes_phase};
use due_model::the_dialogue_model::{Hearing, Observer};
use due_model::{hearings_are_plain, kept_is_plain};
use initiator_books::the_scsi_device::{Act, Itself, scenarios_fit_the_bus};
use initiator_books::{Endings, Intent, Words, see_endings};
use reaction_model::Due;
use run_record::Outcome;
use scenario::{FaultDef, HostDef, Scenario, host_line};
use std::alloc::Global;
use std::marker::Model;

/// An initiator of a scenario.
#[derive(Drop)]
pub struct Host {
    def: HostDef,
    itself: Itself,
    intent: Intent,
    negotiations: Negotiations,
    speech: Speech,
    transfers: Transfers,
    received: Received,
    endings: Endings,
    bytes: OwnBytes,
}

impl Model for Host {
    ghost use Rattle.std.specs.Prelude.{◌<◌, ◌≤◌};
    ghost use Rattle.initiator.specs.Hosts.{HostValue};

    ghost Value = { HostValue };

    ghost view = { λ a. record {
      def = a.def;
      itself = a.itself;
      intent = a.intent;
      negotiations = a.negotiations;
      speech = a.speech;
      transfers = a.transfers;
      received = a.received;
      endings = a.endings;
      bytes = a.bytes;
    } };

    ghost invariant = { λ a. (a.def.dev < 8) × (a.def.latency ≤ 100) };
}

// A time below 2^63, as all times of a scenario are.
fn bounded(time: Option<Ns>) -> Option<Ns>
    ensures bound { IsBefore (2 ^ 63) result }
    ensures same { IsBefore (2 ^ 63) time → result ≡ time }
{
    match time {
        Some(time) if time < 1 << 63 => Some(time),
        _ => None,
    }
}

// The connection before the last row.
fn connection_before(view: &BusView) -> Option<Connection>
    ensures { (rows : List Row) (row : Row) → IsBusViewOf (row ∷ rows) view.now → result ≡ connection rows }
{
    view.effect().before
}

// Whether a row shows no event, and a connection stands before it.
fn is_linked(effect: &RowEffect, shown: &[Event]) -> bool
    ensures { result ≡ (is_some effect.now.before && is_empty shown.now) }
{
    effect.before.is_some() && shown.is_empty()
}

// Whether a row in a connection tells an initiator nothing: it shows no event, RST is false, and in a connection of its
// own no byte crosses and the phase stays.
fn is_still(dev: Dev, effect: &RowEffect, hearing: &Hearing, shown: &[Event]) -> bool
    ensures { result
        ≡ (is_empty shown.now && hears_nothing dev hearing.now effect.now.before effect.now.after) }
{
    shown.is_empty() && hears_nothing(dev, hearing, &effect.before, &effect.after)
}

fn hears_nothing(
    dev: Dev,
    hearing: &Hearing,
    before: &Option<Connection>,
    after: &Option<Connection>,
) -> bool
    ensures { result ≡ hears_nothing dev hearing.now before.now after.now }
{
    match (before, after) {
        (Some(before), Some(after)) => {
            !hearing.change.after.rst()
                && (is_of_others(dev, before, after)
                    || !(hearing.crosses || changes_phase(&hearing.change)))
        }
        _ => false,
    }
}

fn is_of_others(dev: Dev, before: &Connection, after: &Connection) -> bool
    ensures { result ≡ is_of_others dev before.now after.now }
{
    before.initiator.get() != dev && after.initiator.get() != dev
}

// A row told this, before and after which these connections stand; the initiator has not gone on by it yet.
fn see_transfers(
    transfers: &mut Transfers,
    intent: &Intent,
    hearing: &Hearing,
    before: Option<Connection>,
    after: Option<Connection>,
)
    ensures dev { transfers.new.dev ≡ transfers.old.dev }
    ensures trace { (s : ScenarioValue) (rows : List Row) (row : Row) → AreOfDevices (row ∷ rows)
        → hearing.now ≡ hearing_in rows row → before ≡ connection rows → after ≡ connection (row ∷ rows)
        → intent.now.dev ≡ transfers.old.dev → IsIntentOf s rows intent.now
        → IsTransfersOf s rows transfers.old → IsTransfersOf s (row ∷ rows) transfers.new }
{
    transfers.see(intent.book(), intent.aim(), hearing, before, after);
}

impl Host {
    // Of this line of the scenario.
    fn of_line(alloc: Global, scenario: &Scenario, def: HostDef) -> Result<Host, NoMemory>
        requires few_commands { length scenario.now.commands < 0xffff }
        requires few_aborts { length scenario.now.aborts < 0xffff }
        requires below { def.dev < 8 }
        requires latency { def.latency ≤ 100 }
        requires few { def.retries < 255 }
        ensures named { IfOk result (λ made. made.def ≡ def) }
        ensures trace { IsHostLine scenario.now def → IfOk result (λ made. IsHostAfter scenario.now [] made) }
    {
        let itself = Itself::new(alloc, scenario, def.dev)?;
        let intent = Intent::new(alloc, scenario, def.dev, def.retries as u8)?;
        let transfers = Transfers::new(alloc, scenario, def.dev)?;
        let received = Received::new(alloc, scenario, def.dev)?;
        let endings = Endings::new(alloc, scenario)?;
        let bytes = OwnBytes::new(alloc, scenario, def.dev)?;
        Ok(Host {
            def,
            itself,
            intent,
            negotiations: Negotiations::new(def.dev, scenario.version),
            speech: Speech::new(),
            transfers,
            received,
            endings,
            bytes,
        })
    }

    /// The initiator `dev` of a scenario that obeys the rules of its text, before any row. It takes all memory that it
    /// ever has.
    pub fn new(alloc: Global, scenario: &Scenario, dev: Dev) -> Result<Host, NoMemory>
        requires lawful { Obeys scenario.now }
        requires host { is_some (host_of scenario.now dev) ≡ true }
        ensures named { IfOk result (λ made. made.def.dev ≡ dev) }
        ensures trace { IfOk result (λ made. IsHostAfter scenario.now [] made) }
    {
        scenarios_fit_the_bus();
        match host_line(scenario.hosts.as_slice(), dev) {
            Some(def) => Host::of_line(alloc, scenario, def),
            None => unreachable!(),
        }
    }

    // What it says first in a connection that begins now by a selection of its own.
    fn opening(&self, begun: Connection) -> Words
        ensures { (s : ScenarioValue) (rows : List Row) (row : Row) → AreOfDevices (row ∷ rows) → AreUnits s
            → IsHostAfter s rows self.now → connection (row ∷ rows) ≡ Some begun
            → IsOpeningOf s rows row self.now.def.dev result.items }
    {
        let negotiates = self.intent.is_for_process() && !self.negotiations.includes(begun.target);
        self.intent.opening(&self.def, negotiates)
    }

    // The same, where these connections stand before and after a row; nothing where no connection begins with it.
    fn opening_by(&self, before: Option<Connection>, after: Option<Connection>) -> Words
        ensures { (s : ScenarioValue) (rows : List Row) (row : Row) → AreOfDevices (row ∷ rows) → AreUnits s
            → IsHostAfter s rows self.now → before ≡ connection rows → after ≡ connection (row ∷ rows)
            → IsOpeningOf s rows row self.now.def.dev result.items }
    {
        if before.is_some() {
            return Words::new();
        }
        match after {
            None => Words::new(),
            Some(begun) => self.opening(begun),
        }
    }

    // What it hears in a row, which shows these events, the newest first: what it says, what came, what it holds of its
    // own processes, and with whom it may still negotiate.
    #[inline(never)]
    fn hear_row(&mut self, observer: &Observer, shown: &[Event])
        ensures def { self.new.def ≡ self.old.def }
        ensures itself { self.new.itself ≡ self.old.itself }
        ensures intent { self.new.intent ≡ self.old.intent }
        ensures endings { self.new.endings ≡ self.old.endings }
        ensures bytes { self.new.bytes ≡ self.old.bytes }
        ensures trace { (s : ScenarioValue) (rows : List Row) (row : Row) → FitsBus s
            → IsObserverOf (row ∷ rows) observer.now → AreOfDevices (row ∷ rows) → shown.now ≡ events_of_row s rows row
            → IsHostAfter s rows self.old → HasHeard s rows row self.new }
    {
        scenarios_fit_the_bus();
        let view = observer.view();
        let hearing = observer.hearing();
        let opening = self.opening_by(connection_before(view), view.connection());
        let process = self.intent.is_for_process();
        self.speech.see(
            &self.def,
            &opening,
            hearing,
            connection_before(view),
            view.connection(),
        );
        see_received(
            &mut self.received,
            &self.transfers,
            hearing,
            view.connection(),
        );
        see_transfers(
            &mut self.transfers,
            &self.intent,
            hearing,
            connection_before(view),
            view.connection(),
        );
        self.negotiations
            .see(process, connection_before(view), view.connection(), shown);
    }

    // The same. Most rows tell it nothing.
    fn hear(&mut self, observer: &Observer, shown: &[Event])
        ensures def { self.new.def ≡ self.old.def }
        ensures itself { self.new.itself ≡ self.old.itself }
        ensures intent { self.new.intent ≡ self.old.intent }
        ensures endings { self.new.endings ≡ self.old.endings }
        ensures bytes { self.new.bytes ≡ self.old.bytes }
        ensures trace { (s : ScenarioValue) (rows : List Row) (row : Row) → FitsBus s
            → IsObserverOf (row ∷ rows) observer.now → AreOfDevices (row ∷ rows) → shown.now ≡ events_of_row s rows row
            → IsHostAfter s rows self.old → HasHeard s rows row self.new }
    {
        kept_is_plain();
        hearings_are_plain();
        let effect = observer.view().effect();
        if is_still(self.def.dev, effect, observer.hearing(), shown) {
            return;
        }
        self.hear_row(observer, shown);
    }

    // One more row, in a connection, which shows no event: the initiator wants what it wanted, and its commands ended
    // as they had.
    fn see_linked(&mut self, observer: &Observer, row: &Row, shown: &[Event])
        requires device { row.now.dev < 8 }
        requires timely { IsTimely (2 ^ 63) observer.now.view }
        ensures def { self.new.def ≡ self.old.def }
        ensures trace { (s : ScenarioValue) (rows : List Row) → FitsBus s → IsObserverOf (row.now ∷ rows) observer.now
            → AreOfDevices (row.now ∷ rows) → shown.now ≡ events_of_row s rows row.now
            → is_some (connection rows) ≡ true → events_of_row s rows row.now ≡ []
            → IsHostAfter s rows self.old → IsHostAfter s (row.now ∷ rows) self.new }
    {
        kept_is_plain();
        let view = observer.view();
        self.hear(observer, shown);
        self.itself.see(view, row);
        self.intent.see_in_connection(view, row);
    }

    // One more row. A function of its own, since few rows need all of it.
    #[inline(never)]
    fn see_news(&mut self, observer: &Observer, row: &Row, shown: &[Event])
        requires device { row.now.dev < 8 }
        requires timely { IsTimely (2 ^ 63) observer.now.view }
        ensures def { self.new.def ≡ self.old.def }
        ensures trace { (s : ScenarioValue) (rows : List Row) → FitsBus s → IsObserverOf (row.now ∷ rows) observer.now
            → AreOfDevices (row.now ∷ rows) → shown.now ≡ events_of_row s rows row.now
            → IsHostAfter s rows self.old → IsHostAfter s (row.now ∷ rows) self.new }
    {
        let view = observer.view();
        let aim = self.intent.aim();
        let past = self.intent.book().past();
        self.hear_row(observer, shown);
        self.itself.see(view, row);
        self.intent.see(view, row, shown);
        see_endings(&mut self.endings, &self.intent, past, aim, shown);
    }

    /// One more row, of any device, which shows these events, the newest first; the observer has seen it.
    pub fn see(&mut self, observer: &Observer, row: &Row, shown: &[Event])
        requires device { row.now.dev < 8 }
        requires timely { IsTimely (2 ^ 63) observer.now.view }
        ensures def { self.new.def ≡ self.old.def }
        ensures trace { (s : ScenarioValue) (rows : List Row) → FitsBus s → IsObserverOf (row.now ∷ rows) observer.now
            → AreOfDevices (row.now ∷ rows) → shown.now ≡ events_of_row s rows row.now
            → IsHostAfter s rows self.old → IsHostAfter s (row.now ∷ rows) self.new }
    {
        if is_linked(observer.view().effect(), shown) {
            self.see_linked(observer, row, shown);
        } else {
            self.see_news(observer, row, shown);
        }
    }

    /// One more row, of another device, in a connection of others that stands before it and after it. It shows no
    /// event, and RST is false after it; the observer has seen it. It tells the initiator nothing.
    pub fn see_in_others(&mut self, observer: &Observer, row: &Row)
        requires device { row.now.dev < 8 }
        ensures def { self.new.def ≡ self.old.def }
        ensures trace { (s : ScenarioValue) (rows : List Row) (m n : Connection)
            → IsObserverOf (row.now ∷ rows) observer.now → AreOfDevices (row.now ∷ rows)
            → connection rows ≡ Some m → connection (row.now ∷ rows) ≡ Some n
            → (m.initiator == self.old.def.dev) ≡ false → (n.initiator == self.old.def.dev) ≡ false
            → (bus (row.now ∷ rows)).rst ≡ false → row.now.dev ≢ self.old.def.dev → events_of_row s rows row.now ≡ []
            → IsHostAfter s rows self.old → IsHostAfter s (row.now ∷ rows) self.new }
    {
        kept_is_plain();
        hearings_are_plain();
        self.intent.see_in_connection(observer.view(), row);
    }

    /// What it does next, and when, in ns, by the first fault that has not struck yet: exactly what is due of it, where
    /// it was told of all rows and no connection stands of which it is the target. It changes nothing.
    pub fn due(&self, observer: &Observer, fault: Option<FaultDef>) -> Option<Due>
        requires timely { IsTimely (2 ^ 63) observer.now.view }
        ensures { (s : ScenarioValue) (rows : List Row) → FitsBus s → IsObserverOf rows observer.now
            → AreOfDevices rows → IsNeverCalled rows self.now.def.dev → IsHostAfter s rows self.now
            → fault ≡ first_fault (run_state s rows).faults → result ≡ due s rows self.now.def.dev }
    {
        scenarios_fit_the_bus();
        initiators_are_their_parts();
        initiators_have_no_unit();
        kept_is_plain();
        let known = Knowledge {
            own: self.itself.own(),
            reset: self.itself.reset(),
            since: bounded(self.intent.since()),
            callee: self.intent.callee(),
            speech: &self.speech,
            bytes: &self.bytes,
            transfers: &self.transfers,
        };
        initiator_next(&self.def, observer, &known, fault)
    }

    /// What it does at this moment, in ns: the row that is due by then, or when its next one is. It changes nothing. A
    /// run asks `due`; a step serves a caller that has one device and a clock.
    pub fn step(&self, observer: &Observer, now: Ns, fault: Option<FaultDef>) -> Act
        requires timely { IsTimely (2 ^ 63) observer.now.view }
        ensures { (s : ScenarioValue) (rows : List Row) → FitsBus s → IsObserverOf rows observer.now
            → AreOfDevices rows → IsNeverCalled rows self.now.def.dev → IsHostAfter s rows self.now
            → fault ≡ first_fault (run_state s rows).faults → result ≡ act_of (due s rows self.now.def.dev) now }
    {
        Act::of(self.due(observer, fault), now)
    }

    /// The event that it shows in the last row, which the observer has seen and it has not: the end of a process, as it
    /// takes COMMAND COMPLETE (6.6.5).
    pub fn completion(&self, observer: &Observer) -> Option<Event>
        ensures rows { (s : ScenarioValue) (rows : List Row) (row : Row) → IsObserverOf (row ∷ rows) observer.now
            → AreOfDevices (row ∷ rows) → IsHostAfter s rows self.now → event_if result
            ≡ initiator_events (run_state s rows)
            (own_link self.now.def.dev (connection rows) (run_state s rows).story.link)
            (row_reading (run_state s rows).story.bus_state row) }
        ensures trace { (s : ScenarioValue) (rows : List Row) (row : Row) (n : Connection)
            → IsObserverOf (row ∷ rows) observer.now → AreOfDevices (row ∷ rows) → IsHostAfter s rows self.now
            → IsOwnConnection rows self.now.def.dev n → event_if result
            ≡ initiator_events (run_state s rows) (run_state s rows).story.link
            (row_reading (run_state s rows).story.bus_state row) }
    {
        self.transfers.completion(observer.hearing())
    }

    /// The process of the connection in which it stands; its command is 0 where it stands in none, or knows of no
    /// process there.
    pub fn process(&self) -> ProcId
        ensures rows { (s : ScenarioValue) (rows : List Row) → IsHostAfter s rows self.now → result ≡ id_or_none
            (id_of (item_of (own_link self.now.def.dev (connection rows) (run_state s rows).story.link))) }
        ensures trace { (s : ScenarioValue) (rows : List Row) (n : Connection) → IsHostAfter s rows self.now
            → IsOwnConnection rows self.now.def.dev n
            → result ≡ id_or_none (id_of (item_of (run_state s rows).story.link)) }
    {
        match self.transfers.process() {
            Some(id) => id,
            None => ProcId {
                command: 0,
                sense: false,
            },
        }
    }

    /// Whether each abort line of its own is sent, or dropped.
    pub fn aborts_done(&self) -> bool
        ensures { (s : ScenarioValue) (rows : List Row) → IsHostAfter s rows self.now
            → result ≡ are_aborts_done s rows self.now.def.dev }
    {
        self.intent.book().aborts_done()
    }

    // Whether the automatic REQUEST SENSE of a command of its own is over.
    fn is_sense_over(&self, number: u16) -> bool
        ensures { result ≡ is_sense_over (mine_at self.now.intent.wish.book.mines number) }
    {
        match self.intent.book().mine(number) {
            Some(mine) => mine.sense_over,
            None => false,
        }
    }

    /// The outcome of a command of its own, by its number from 1, with the bytes that came to it, which are handed out
    /// once. None until it is known: while the command has not ended, and after CHECK CONDITION until its automatic
    /// REQUEST SENSE has ended or is over without an end; then nothing is handed out. It is the outcome that the rows
    /// tell, where what came to the command, and to its automatic REQUEST SENSE, is the reply (`are_replies`); so, too,
    /// after outcomes of other commands were handed out (`told`). What it knows else stays. It takes no memory.
    pub fn take_outcome(&mut self, alloc: Global, number: u16) -> Option<Outcome>
        ensures trace { (s : ScenarioValue) (rows : List Row) (c : CmdDef) → IsHostAfter s rows self.old
            → command_at s.commands number ≡ Some c → (c.host == self.old.def.dev) ≡ true
            → are_replies s (run_state s rows).story number (end_at self.old.endings number)
            (pair_at self.old.received number).command.bytes (pair_at self.old.received number).sense.bytes ≡ true
            → told_outcome_if result ≡ settled_outcome s (run_state s rows).story number
            (end_at self.old.endings number)
            (is_sense_over (mine_at (my_book s (run_state s rows).story.sent self.old.def.dev).mines number)) }
        ensures told { (s : ScenarioValue) (b : Story) → IsEndOf b number (end_at self.old.endings number)
            → are_replies s b number (end_at self.old.endings number)
            (pair_at self.old.received number).command.bytes (pair_at self.old.received number).sense.bytes ≡ true
            → told_outcome_if result ≡ settled_outcome s b number (end_at self.old.endings number)
            (is_sense_over (mine_at self.old.intent.wish.book.mines number)) }
        ensures rest { self.new ≡ record self.old {
          received = if is_settled (end_at self.old.endings number)
              (is_sense_over (mine_at self.old.intent.wish.book.mines number))
              then received_taken self.old.received number
              else self.old.received;
        } }
    {
        let end = self.endings.end(number);
        let over = self.is_sense_over(number);
        if !is_settled(end, over) {
            return None;
        }
        let bytes = self.received.take(alloc, number);
        let sense = self.received.bytes(ProcId {
            command: number,
            sense: true,
        });
        command_outcome(end, over, bytes, sense)
    }
}
