//! What an initiator wants of the bus: its book, and for what it last entered arbitration.
ghost use Rattle.std.specs.Prelude.{◌≡◌, ◌<◌, None, length, IfOk};
ghost use Rattle.initiator_books.specs.Mines.{nothing_sent};
ghost use Rattle.initiator_books.specs.Books.{my_book, book_with_try, book_with_abort_try};
ghost use Rattle.initiator_books.specs.Wishes.{command_tried, abort_tried, book_after_try, book_after_send, is_unanswered, is_call_in_vain, is_entry, wish_with_entry, wish_on_free_bus, wish_after_connection, wish_on_bus, wish_by_change, wish_after};

use crate::book::Book;
use crate::mine::OwnItem;
use bus_base::{Dev, Event, NoMemory, Ns, ProcId};
use bus_lines::RowEffect;
use bus_trace::{Call, Calling, Change, Connection, Row, falls, rises};
use scenario::Scenario;
use std::alloc::Global;
use std::marker::Model;

/// An initiator as it calls, with the call that stands, of any device.
#[derive(Clone, Copy)]
pub struct Caller {
    /// Its ID.
    pub dev: Dev,
    /// How often it tries again.
    pub retries: u8,
    /// The call.
    pub call: Option<Call>,
}

/// What an initiator wants of the bus.
#[derive(Drop)]
pub struct Wish {
    book: Book,
    aim: Option<OwnItem>,
}

impl Model for Wish {
    ghost use Rattle.initiator_books.specs.Wishes as wishes;

    ghost Value = { wishes.Wish };

    ghost view = { λ a. record { book = a.book; aim = a.aim } };
}

fn is_unanswered(calling: Option<Calling>) -> bool
    ensures { result ≡ is_unanswered calling }
{
    match calling {
        None => false,
        Some(calling) => calling.answered.is_none() && !calling.reselects,
    }
}

// A calling of this device has had no answer.
fn is_call_in_vain(dev: Dev, call: Option<Call>) -> bool
    ensures { result ≡ is_call_in_vain dev call }
{
    match call {
        None => false,
        Some(call) => call.caller.get() == dev && is_unanswered(call.calling),
    }
}

/// Whether a device enters arbitration: it raises BSY, neither in a connection nor as an answer (6.1.2).
pub fn is_entry(change: &Change, before: Option<Connection>) -> bool
    ensures { result ≡ is_entry change.now before }
{
    rises(change.own.bsy(), change.next.bsy()) && !change.before.sel() && before.is_none()
}

impl Wish {
    /// Before any row.
    pub fn new(alloc: Global, scenario: &Scenario, dev: Dev) -> Result<Wish, NoMemory>
        requires commands { length scenario.now.commands < 0xffff }
        requires aborts { length scenario.now.aborts < 0xffff }
        ensures { IfOk result (λ made. made ≡ record { book = my_book scenario.now nothing_sent dev; aim = None }) }
    {
        let book = Book::new(alloc, scenario, dev)?;
        Ok(Wish { book, aim: None })
    }

    /// Its book.
    pub fn book(&self) -> &Book
        ensures { result.now ≡ self.now.book }
    {
        &self.book
    }

    /// For what it last entered arbitration.
    pub fn aim(&self) -> Option<OwnItem>
        ensures { result ≡ self.now.aim }
    {
        self.aim
    }

    fn try_command(&mut self, retries: u8, number: u16)
        ensures { self.new ≡ record self.old {
          book = command_tried retries
              (book_with_try self.old.book number) number;
        } }
    {
        self.book.try_again(number);
        if self.book.tries(number) > retries {
            self.book.give_up(ProcId {
                command: number,
                sense: false,
            });
        }
    }

    fn try_abort(&mut self, retries: u8, number: u16)
        ensures { self.new ≡ record self.old {
          book = abort_tried retries
              (book_with_abort_try self.old.book number) number;
        } }
    {
        self.book.try_abort_again(number);
        if self.book.abort_tries(number) > retries {
            self.book.end_abort(number);
        }
    }

    // A calling for what it aimed at had no answer.
    fn try_again(&mut self, retries: u8)
        ensures { self.new ≡ record self.old { book = book_after_try retries self.old.book self.old.aim } }
    {
        match self.aim {
            None | Some(OwnItem::Sense(_)) => {}
            Some(OwnItem::Command(number)) => self.try_command(retries, number),
            Some(OwnItem::Abort(number)) => self.try_abort(retries, number),
        }
    }

    // A connection for what it aimed at begins.
    fn send(&mut self)
        ensures { self.new ≡ record self.old { book = book_after_send self.old.book self.old.aim } }
    {
        match self.aim {
            None => {}
            Some(OwnItem::Command(command)) => self.book.send(ProcId {
                command,
                sense: false,
            }),
            Some(OwnItem::Sense(command)) => self.book.send(ProcId {
                command,
                sense: true,
            }),
            Some(OwnItem::Abort(number)) => self.book.end_abort(number),
        }
    }

    fn enter(&mut self, dev: Dev, row_dev: Dev, time: Ns)
        ensures { self.new ≡ wish_with_entry dev self.old row_dev time }
    {
        if row_dev == dev {
            self.aim = self.book.item(time);
        }
    }

    fn on_free_bus(&mut self, caller: &Caller, effect: &RowEffect, row: &Row)
        ensures { self.new ≡ wish_on_free_bus caller.now.dev caller.now.retries caller.now.call self.old
            effect.now.change effect.now.before row.now.dev row.now.time }
    {
        let change = &effect.change;
        if is_entry(change, effect.before) {
            self.enter(caller.dev, row.dev, row.time);
        } else if falls(change.before.sel(), change.after.sel())
            && is_call_in_vain(caller.dev, caller.call)
        {
            self.try_again(caller.retries);
        }
    }

    fn after_connection(&mut self, dev: Dev, connection: Connection)
        ensures { self.new ≡ wish_after_connection dev self.old connection }
    {
        if !connection.reselected && connection.initiator.get() == dev {
            self.send();
        }
    }

    fn on_bus(&mut self, caller: &Caller, effect: &RowEffect, row: &Row)
        ensures { self.new ≡ wish_on_bus caller.now.dev caller.now.retries caller.now.call self.old effect.now.change
            effect.now.before effect.now.after row.now.dev row.now.time }
    {
        match (effect.before, effect.after) {
            (None, None) => self.on_free_bus(caller, effect, row),
            (None, Some(connection)) => self.after_connection(caller.dev, connection),
            (Some(_), _) => {}
        }
    }

    fn by_change(&mut self, caller: &Caller, effect: &RowEffect, row: &Row)
        ensures { self.new ≡ wish_by_change caller.now.dev caller.now.retries caller.now.call self.old
            effect.now.change effect.now.before effect.now.after row.now.dev row.now.time }
    {
        if !effect.change.after.rst() {
            self.on_bus(caller, effect, row);
        }
    }

    /// A row that did this, and shows these events, the newest first; the call of `caller` is that before it.
    pub fn see(&mut self, caller: &Caller, effect: &RowEffect, row: &Row, shown: &[Event])
        ensures { self.new ≡ wish_after caller.now.dev caller.now.retries caller.now.call self.old effect.now.change
            effect.now.before effect.now.after row.now.dev row.now.time shown.now }
    {
        self.by_change(caller, effect, row);
        self.book.see_all(shown);
    }
}
