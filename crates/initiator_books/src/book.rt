//! The book of an initiator: its own commands and aborts, how far each has come, and what it sends next.
ghost use Rattle.std.specs.Prelude.{ℕ, ◌≡◌, ◌<◌, true, List, drop, length, take, IfOk};
ghost use Rattle.std.specs.List.{list_all};
ghost use Rattle.initiator_books.specs.declared.mine.MyAbort.{MyAbort};
ghost use Rattle.story_model.specs.Items.{open_limit_of};
ghost use Rattle.bus_base.specs.declared.Event.{Event};
ghost use Rattle.initiator_books.specs.Commands.{all_past};
ghost use Rattle.initiator_books.specs.Endings.{ends_after_events};
ghost use Rattle.initiator_books.specs.declared.endings.CommandEnd.{CommandEnd};
ghost use Rattle.initiator_books.specs.OwnLinks.{named_in};
ghost use Rattle.initiator_books.specs.Openings.{mine_at, my_abort_at};
ghost use Rattle.initiator_books.specs.Wishes.{tries_in, abort_tries_in, target_in, abort_target_in, target_by, book_after_events};
ghost use Rattle.initiator_books.specs.Mines.{nothing_sent, my_abort, my_aborts};
ghost use Rattle.initiator_books.specs.Books.{my_book, my_sense, my_since, my_item, queue_with, queue_after_event, book_with_sent, book_with_over, book_with_try, book_with_done, book_with_abort_try, book_after_event};

use crate::checks::Checks;
use crate::choice::{abort_by, aborts_since, first_sense, mine_by, mines_since, settled_from};
use crate::commands::Commands;
use crate::marks::{all_aborts_tried, all_done, is_check};
use crate::mine::{Mine, MyAbort, OwnItem};
use crate::own_link::named_in;
use bus_base::{Dev, Event, NoMemory, Ns, ProcId};
use scenario::{AbortDef, HostDef, Scenario};
use scsi_device::sooner_time;
use std::alloc::Global;
use std::marker::Model;

/// The book of an initiator. It walks over no command before the first that is not past, and over none that nothing has
/// come to yet.
#[derive(Drop)]
pub struct Book {
    commands: Commands,
    aborts: Vec<MyAbort>,
    checks: Checks,
    // Of no check before this place the automatic REQUEST SENSE is still to be sent.
    settled: usize,
    most: usize,
}

impl Model for Book {
    ghost use Rattle.initiator_books.specs.Books.{BookValue};
    ghost use Rattle.initiator_books.specs.Checks.{IsSettled};

    ghost Value = { BookValue };

    ghost view = { λ a. record {
      mines = a.commands.mines;
      aborts = a.aborts.items;
      queue = a.checks.queue;
      room = a.checks.room;
      most = a.most;
    } };

    ghost invariant = { λ a. IsSettled a.commands.mines a.commands.limit a.checks.queue a.checks.room a.settled };
}

impl Book {
    /// Before any row. It takes all its memory here. The lines of the scenario are fewer than 65,535 of each kind.
    pub fn new(alloc: Global, scenario: &Scenario, dev: Dev) -> Result<Book, NoMemory>
        requires commands { length scenario.now.commands < 0xffff }
        requires aborts { length scenario.now.aborts < 0xffff }
        ensures { IfOk result (λ made. made ≡ my_book scenario.now nothing_sent dev) }
    {
        let commands = Commands::new(alloc, scenario.commands.as_slice(), dev)?;
        let aborts = own_aborts(alloc, scenario.aborts.as_slice(), dev)?;
        let checks = Checks::new(alloc, scenario.commands.len() + 1)?;
        Ok(Book {
            commands,
            aborts,
            checks,
            settled: 0,
            most: open_limit(scenario.hosts.as_slice(), dev),
        })
    }

    // The first of its checks whose automatic REQUEST SENSE is still to be sent.
    fn sense(&self) -> Option<u16>
        ensures { result ≡ my_sense self.now.mines self.now.queue }
    {
        first_sense(&self.commands, &self.checks.numbers()[self.settled..])
    }

    /// Since when it wants to send something, in ns.
    pub fn since(&self) -> Option<Ns>
        ensures { result ≡ my_since self.now }
    {
        let sense_since = if self.sense().is_some() {
            Some(0)
        } else {
            None
        };
        sooner_time(
            aborts_since(self.aborts.as_slice()),
            sooner_time(
                sense_since,
                mines_since(self.most, self.commands.open(), self.commands.rest()),
            ),
        )
    }

    /// What it sends at this time, in ns: an abort first, then an automatic REQUEST SENSE, then its first command that
    /// is still to be sent, if that may be sent now.
    pub fn item(&self, time: Ns) -> Option<OwnItem>
        ensures { result ≡ my_item self.now time }
    {
        if let Some(number) = abort_by(time, self.aborts.as_slice()) {
            return Some(OwnItem::Abort(number));
        }
        if let Some(number) = self.sense() {
            return Some(OwnItem::Sense(number));
        }
        let number = mine_by(self.most, time, self.commands.open(), self.commands.rest())?;
        Some(OwnItem::Command(number))
    }

    /// A process of its own is sent.
    pub fn send(&mut self, id: ProcId)
        ensures { self.new ≡ book_with_sent self.old id }
    {
        self.commands.send(id);
        self.settled = settled_from(&self.commands, self.checks.numbers(), self.settled);
    }

    /// A command of its own is over, for its callings had no answer.
    pub fn give_up(&mut self, id: ProcId)
        ensures { self.new ≡ book_with_over self.old id }
    {
        self.commands.give_up(id);
    }

    /// A calling for a command of its own had no answer.
    pub fn try_again(&mut self, number: u16)
        ensures { self.new ≡ book_with_try self.old number }
    {
        self.commands.try_again(number);
    }

    /// An abort of its own is sent, or given up.
    pub fn end_abort(&mut self, number: u16)
        ensures { self.new ≡ book_with_done self.old number }
    {
        all_done(self.aborts.as_mut_slice(), number);
    }

    /// A calling for an abort of its own had no answer.
    pub fn try_abort_again(&mut self, number: u16)
        ensures { self.new ≡ book_with_abort_try self.old number }
    {
        all_aborts_tried(self.aborts.as_mut_slice(), number);
    }

    /// How many callings for a command of its own had no answer, at most 255.
    pub fn tries(&self, number: u16) -> u8
        ensures { result ≡ tries_in self.now.mines number }
    {
        match self.commands.mine(number) {
            None => 0,
            Some(mine) => mine.tries,
        }
    }

    /// How many callings for an abort of its own had no answer, at most 255.
    pub fn abort_tries(&self, number: u16) -> u8
        ensures { result ≡ abort_tries_in self.now.aborts number }
    {
        for abort in self.aborts.as_slice() {
            if abort.number == number {
                return abort.tries;
            }
        }
        0
    }

    /// Whether each abort of its own is sent, or given up.
    pub fn aborts_done(&self) -> bool
        ensures { result ≡ list_all (λ (a : MyAbort). a.done) self.now.aborts }
    {
        self.aborts.as_slice().iter().all(|abort| abort.done)
    }

    fn target(&self, number: u16) -> Option<Dev>
        ensures { result ≡ target_in self.now.mines number }
    {
        match self.commands.mine(number) {
            None => None,
            Some(mine) => Some(mine.target),
        }
    }

    fn abort_target(&self, number: u16) -> Option<Dev>
        ensures { result ≡ abort_target_in self.now.aborts number }
    {
        for abort in self.aborts.as_slice() {
            if abort.number == number {
                return Some(abort.target);
            }
        }
        None
    }

    /// The command of this number among all, if it is its own.
    pub fn mine(&self, number: u16) -> Option<Mine>
        ensures { result ≡ mine_at self.now.mines number }
    {
        self.commands.mine(number)
    }

    /// The first of its own processes that is open, of this target, unit and tag; an automatic REQUEST SENSE is
    /// untagged.
    pub fn named(&self, target: Dev, unit: u8, tag: Option<u8>) -> Option<OwnItem>
        ensures { result ≡ named_in self.now.mines target unit tag }
    {
        named_in(self.commands.open(), target, unit, tag)
    }

    /// How many of the first of its own commands are past: over, and their automatic REQUEST SENSE too.
    pub fn past(&self) -> usize
        ensures { all_past (take result self.now.mines) ≡ true }
    {
        self.commands.past()
    }

    /// Some of its own commands from this place on, in their order: no event ends another of them.
    pub fn mines_from(&self, first: usize) -> &[Mine]
        ensures { (v : List CommandEnd) (shown : List Event)
            → ends_after_events result.now v shown ≡ ends_after_events (drop first self.now.mines) v shown }
    {
        self.commands.from_place(first)
    }

    /// The abort line of this number among all, if it is its own.
    pub fn abort_line(&self, number: u16) -> Option<MyAbort>
        ensures { result ≡ my_abort_at self.now.aborts number }
    {
        for abort in self.aborts.as_slice() {
            if abort.number == number {
                return Some(*abort);
            }
        }
        None
    }

    /// The target of an item of its own.
    pub fn target_by(&self, item: Option<OwnItem>) -> Option<Dev>
        ensures { result ≡ target_by self.now item }
    {
        match item {
            None => None,
            Some(OwnItem::Command(number) | OwnItem::Sense(number)) => self.target(number),
            Some(OwnItem::Abort(number)) => self.abort_target(number),
        }
    }

    // A command ended with CHECK CONDITION: one of its own stands in the queue once.
    fn add_check(&mut self, number: u16)
        ensures { self.new ≡ record self.old { queue = queue_with self.old.mines self.old.room self.old.queue number } }
    {
        match self.commands.mine(number) {
            None => {}
            Some(_) => self.checks.add(number),
        }
    }

    fn queue_event(&mut self, event: &Event)
        ensures { self.new ≡ record self.old { queue = queue_after_event self.old event.now } }
    {
        if let Event::End(id, status) = *event {
            if is_check(id, status) {
                self.add_check(id.command);
            }
        }
    }

    /// An event is shown.
    pub fn see(&mut self, event: &Event)
        ensures { self.new ≡ book_after_event self.old event.now }
    {
        self.queue_event(event);
        self.commands.see(event);
        self.settled = settled_from(&self.commands, self.checks.numbers(), self.settled);
    }

    /// Events are shown, the newest first.
    pub fn see_all(&mut self, shown: &[Event])
        ensures { self.new ≡ book_after_events self.old shown.now }
    {
        let mut left = shown.len();
        while left > 0 {
            left -= 1;
            self.see(&shown[left]);
        }
    }
}

fn new_abort(number: u16, def: &AbortDef) -> MyAbort
    ensures { result ≡ my_abort nothing_sent number def.now }
{
    MyAbort {
        number,
        target: def.target,
        unit: def.unit,
        what: def.what,
        at: def.at,
        done: false,
        tries: 0,
    }
}

// Its own among these abort lines, of which the first has the number 1.
fn own_aborts(alloc: Global, aborts: &[AbortDef], dev: Dev) -> Result<Vec<MyAbort>, NoMemory>
    requires { length aborts.now < 0xffff }
    ensures { IfOk result (λ made. made.items ≡ my_aborts nothing_sent dev 1 aborts.now) }
{
    let mut own = Vec::new(alloc);
    let mut number: u16 = 1;
    for def in aborts {
        if def.host == dev {
            own.push(new_abort(number, def))?;
        }
        number += 1;
    }
    Ok(own)
}

// How many commands it may have open.
fn open_limit(hosts: &[HostDef], dev: Dev) -> usize
    ensures { result ≡ open_limit_of hosts.now dev }
{
    for def in hosts {
        if def.dev == dev {
            return def.most as usize;
        }
    }
    0
}
