//! What an initiator holds of its own connection and of its own processes, row by row (ANSI X3.131-1994, 6.4, 6.6).
ghost use Rattle.std.specs.Prelude.{◌≡◌, ◌<◌, ◌+◌, [], ◌∷◌, List, length, is_none, if◌then◌else◌, IfOk};
ghost use Rattle.bus_trace.specs.declared.Row.{Row};
ghost use Rattle.bus_trace.specs.declared.connection.Connection.{Connection};
ghost use Rattle.bus_trace.specs.Terms.{connection as connection_after};
ghost use Rattle.scenario.specs.Value.{ScenarioValue};
ghost use Rattle.story_model.specs.BusState.{row_reading};
ghost use Rattle.story_model.specs.TraceHistory.{aim_of, is_parity_error};
ghost use Rattle.due_model.specs.dialogue_model.specs.Hearing.{hearing as hearing_in};
ghost use Rattle.due_model.specs.dialogue_model.specs.Events.{event_if};
ghost use Rattle.due_model.specs.Plain.{AreOfDevices};
ghost use Rattle.due_model.specs.RunState.{item_of};
ghost use Rattle.due_model.specs.RunSteps.{run_state};
ghost use Rattle.due_model.specs.Telling.{id_of, initiator_events};
ghost use Rattle.initiator_books.specs.Books.{my_book, item_if};
ghost use Rattle.initiator.specs.States.{IsOwnConnection};
ghost use Rattle.initiator_books.specs.HeldPointers.{restored_if};
ghost use Rattle.initiator_books.specs.OwnLinks.{process_in, undone, own_link};
ghost use Rattle.initiator.specs.Transfers.{transfers_begun, transfers_after_out, transfers_after_name, transfers_after_in, transfers_after_byte, transfers_after_crossing, transfers_in_link, transfers_on_bus, transfers_after, process_of_link, active_at, is_last_complete, takes_complete, end_of, completion_in, IsTransfersOf, no_transfers, active_of};

use bus_base::{Dev, Event, NoMemory, ProcId};
use bus_trace::{Change, Connection, is_message_in, rises};
use due_model::the_dialogue_model::Hearing;
use due_model::{hearings_are_plain, kept_is_plain};
use initiator_books::the_io_pointers::{Place, Pointers};
use initiator_books::{
    Book, HeldPair, LastMessage, OwnItem, OwnLink, bring_back, carry_held, hear_held, held_at,
    process_in, restore_held, undo_of,
};
use msg_grammar::{MsgIn, MsgOut};
use scenario::Scenario;
use std::alloc::Global;
use std::marker::Model;
use story_model::is_parity_error;

/// What an initiator holds of its own connection, and of the pointers and the status of its own processes.
#[derive(Drop)]
pub struct Transfers {
    dev: Dev,
    // By the number of the command.
    held: Vec<HeldPair>,
    link: Option<OwnLink>,
}

impl Model for Transfers {
    ghost use Rattle.initiator.specs.Transfers.{TransfersValue};

    ghost Value = { TransfersValue };

    ghost view = { λ a. record { dev = a.dev; held = a.held.items; link = a.link } };
}

fn is_last_complete(last: LastMessage) -> bool
    ensures { result ≡ is_last_complete last }
{
    match last {
        LastMessage::Complete => true,
        LastMessage::Plain | LastMessage::Disconnect | LastMessage::Abortive => false,
    }
}

fn takes_complete(link: OwnLink, change: &Change) -> bool
    ensures { result ≡ takes_complete link change.now }
{
    rises(change.before.ack(), change.after.ack())
        && is_message_in(change.before)
        && is_last_complete(link.last)
        && !change.after.atn()
}

fn end_of(held: &[HeldPair], id: Option<ProcId>) -> Option<Event>
    ensures { result ≡ end_of held.now id }
{
    match id {
        None => None,
        Some(id) => Some(Event::End(id, held_at(held, id).status)),
    }
}

fn active_at(held: &[HeldPair], id: Option<ProcId>) -> Place
    ensures { result ≡ active_at held.now id }
{
    match id {
        None => Pointers::new().active,
        Some(id) => held_at(held, id).pointers.active,
    }
}

fn process_of_link(link: Option<OwnLink>) -> Option<ProcId>
    ensures { result ≡ process_of_link link }
{
    match link {
        None => None,
        Some(link) => process_in(link.item),
    }
}

impl Transfers {
    /// Of this initiator, before any row. It takes all its memory here.
    pub fn new(alloc: Global, scenario: &Scenario, dev: Dev) -> Result<Transfers, NoMemory>
        requires { length scenario.now.commands < 0xffff }
        ensures exact { IfOk result (λ made. made ≡ no_transfers dev (length scenario.now.commands + 1)) }
        ensures trace { IfOk result (λ made. IsTransfersOf scenario.now [] made) }
    {
        let held = vec![in alloc; HeldPair::new(); scenario.commands.len() + 1]?;
        Ok(Transfers {
            dev,
            held,
            link: None,
        })
    }

    /// The process to which its own connection belongs; an abort is none.
    pub fn process(&self) -> Option<ProcId>
        ensures value { result ≡ process_of_link self.now.link }
        ensures rows { (s : ScenarioValue) (rows : List Row) → IsTransfersOf s rows self.now
            → result ≡ id_of (item_of (own_link self.now.dev (connection_after rows) (run_state s rows).story.link)) }
        ensures trace { (s : ScenarioValue) (rows : List Row) (n : Connection) → IsTransfersOf s rows self.now
            → IsOwnConnection rows self.now.dev n → result ≡ id_of (item_of (run_state s rows).story.link) }
    {
        process_of_link(self.link)
    }

    /// The active pointers of that process (6.4).
    pub fn pointers(&self) -> Place
        ensures value { result ≡ active_at self.now.held (process_of_link self.now.link) }
        ensures rows { (s : ScenarioValue) (rows : List Row) → AreOfDevices rows → IsTransfersOf s rows self.now
            → result ≡ active_of (run_state s rows)
            (id_of (item_of (own_link self.now.dev (connection_after rows) (run_state s rows).story.link))) }
        ensures trace { (s : ScenarioValue) (rows : List Row) (n : Connection) → AreOfDevices rows
            → IsTransfersOf s rows self.now → IsOwnConnection rows self.now.dev n
            → result ≡ active_of (run_state s rows) (id_of (item_of (run_state s rows).story.link)) }
    {
        kept_is_plain();
        active_at(self.held.as_slice(), process_of_link(self.link))
    }

    fn completion_in(&self, change: &Change) -> Option<Event>
        ensures { result ≡ completion_in self.now change.now self.now.link }
    {
        let link = self.link?;
        if takes_complete(link, change) {
            end_of(self.held.as_slice(), process_in(link.item))
        } else {
            None
        }
    }

    /// The event that it shows as it takes COMMAND COMPLETE (6.6.5) in a row that tells this; the row is not seen yet.
    pub fn completion(&self, hearing: &Hearing) -> Option<Event>
        ensures value { result ≡ completion_in self.now hearing.now.change self.now.link }
        ensures rows { (s : ScenarioValue) (rows : List Row) (row : Row) → AreOfDevices (row ∷ rows)
            → hearing.now ≡ hearing_in rows row → IsTransfersOf s rows self.now
            → event_if result ≡ initiator_events (run_state s rows)
            (own_link self.now.dev (connection_after rows) (run_state s rows).story.link)
            (row_reading (run_state s rows).story.bus_state row) }
        ensures trace { (s : ScenarioValue) (rows : List Row) (row : Row) (n : Connection) → AreOfDevices (row ∷ rows)
            → hearing.now ≡ hearing_in rows row → IsTransfersOf s rows self.now
            → IsOwnConnection rows self.now.dev n
            → event_if result ≡ initiator_events (run_state s rows) (run_state s rows).story.link
            (row_reading (run_state s rows).story.bus_state row) }
    {
        kept_is_plain();
        hearings_are_plain();
        self.completion_in(&hearing.change)
    }

    fn begin(&mut self, aim: Option<OwnItem>, connection: Connection)
        ensures { self.new ≡ transfers_begun aim connection self.old }
    {
        if connection.reselected {
            self.link = Some(OwnLink::new(connection.target.get(), None));
        } else {
            restore_held(self.held.as_mut_slice(), process_in(aim));
            self.link = Some(OwnLink::new(connection.target.get(), aim));
        }
    }

    fn undo(&mut self, message: MsgOut, link: OwnLink)
        ensures { self.new ≡ record self.old {
          held = if is_parity_error message then undone self.old.held link.undo else self.old.held;
        } }
    {
        if is_parity_error(message) {
            bring_back(self.held.as_mut_slice(), link.undo);
        }
    }

    fn say(&mut self, message: MsgOut, link: OwnLink)
        ensures { self.new ≡ transfers_after_out message link self.old }
    {
        self.undo(message, link);
        self.link = Some(link.after_out(message));
    }

    fn restore_named(&mut self, link: OwnLink, next: OwnLink)
        ensures { self.new ≡ record self.old {
          held = if is_none link.item then restored_if self.old.held (process_in next.item) else self.old.held;
        } }
    {
        if link.item.is_none() {
            restore_held(self.held.as_mut_slice(), process_in(next.item));
        }
    }

    fn hear_named(&mut self, message: MsgIn, link: OwnLink, next: OwnLink)
        ensures { self.new ≡ transfers_after_name message link next self.old }
    {
        let undo = undo_of(self.held.as_slice(), process_in(link.item));
        self.restore_named(link, next);
        hear_held(self.held.as_mut_slice(), process_in(next.item), message);
        self.link = Some(next.after_in(message, link.last, undo));
    }

    fn hear(&mut self, book: &Book, message: MsgIn, link: OwnLink)
        ensures { self.new ≡ transfers_after_in book.now.mines message link self.old }
    {
        self.hear_named(message, link, link.with_name(book, message));
    }

    fn carry(&mut self, change: &Change, link: OwnLink)
        ensures { self.new ≡ transfers_after_byte change.now link self.old }
    {
        if !change.before.msg() {
            let process = process_in(link.item);
            carry_held(
                self.held.as_mut_slice(),
                process,
                change.before,
                change.after.data(),
            );
        }
    }

    fn cross(&mut self, book: &Book, hearing: &Hearing, link: OwnLink)
        ensures { self.new ≡ transfers_after_crossing book.now.mines hearing.now.change hearing.now.out hearing.now.into
            link self.old }
    {
        if let Some(message) = hearing.out {
            self.say(message, link);
        } else if let Some(message) = hearing.into {
            self.hear(book, message, link);
        } else {
            self.carry(&hearing.change, link);
        }
    }

    fn in_link(&mut self, book: &Book, hearing: &Hearing)
        ensures { self.new ≡ transfers_in_link book.now.mines hearing.now self.old.link self.old }
    {
        if let Some(link) = self.link {
            if hearing.crosses {
                self.cross(book, hearing, link);
            }
        }
    }

    fn on_bus(
        &mut self,
        book: &Book,
        aim: Option<OwnItem>,
        hearing: &Hearing,
        before: Option<Connection>,
        after: Option<Connection>,
    )
        ensures { self.new ≡ transfers_on_bus book.now.mines aim hearing.now before after self.old }
    {
        match (before, after) {
            (None, None) => {}
            (None, Some(connection)) => {
                if connection.initiator.get() == self.dev {
                    self.begin(aim, connection);
                }
            }
            (Some(_), None) => self.link = None,
            (Some(_), Some(connection)) => {
                if connection.initiator.get() == self.dev {
                    self.in_link(book, hearing);
                }
            }
        }
    }

    fn after(
        &mut self,
        book: &Book,
        aim: Option<OwnItem>,
        hearing: &Hearing,
        before: Option<Connection>,
        after: Option<Connection>,
    )
        ensures { self.new ≡ transfers_after book.now.mines aim hearing.now before after self.old }
    {
        if hearing.change.after.rst() {
            self.link = None;
        } else {
            self.on_bus(book, aim, hearing, before, after);
        }
    }

    /// A row was made that tells this, before and after which these connections stand. The book, and the item for which
    /// the initiator last entered arbitration, are those before the row.
    pub fn see(
        &mut self,
        book: &Book,
        aim: Option<OwnItem>,
        hearing: &Hearing,
        before: Option<Connection>,
        after: Option<Connection>,
    )
        ensures exact { self.new ≡ transfers_after book.now.mines aim hearing.now before after self.old }
        ensures dev { self.new.dev ≡ self.old.dev }
        ensures trace { (s : ScenarioValue) (rows : List Row) (row : Row) → AreOfDevices (row ∷ rows)
            → hearing.now ≡ hearing_in rows row → before ≡ connection_after rows
            → after ≡ connection_after (row ∷ rows) → book.now ≡ my_book s (run_state s rows).story.sent self.old.dev
            → item_if aim ≡ aim_of (run_state s rows).story.aims self.old.dev
            → IsTransfersOf s rows self.old → IsTransfersOf s (row ∷ rows) self.new }
    {
        kept_is_plain();
        hearings_are_plain();
        self.after(book, aim, hearing, before, after);
    }
}
