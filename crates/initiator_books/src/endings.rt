//! How each command of an initiator's own ended, row by row (ANSI X3.131-1994, 6.1.1, 6.2.2, 6.6 and 7.3).
ghost use Rattle.std.specs.Prelude.{ℕ, ◌≡◌, ◌+◌, ◌==◌, [], ◌∷◌, List, Some, true, length, replicate, take, IfOk};
ghost use Rattle.bus_trace.specs.declared.Row.{Row};
ghost use Rattle.scenario.specs.declared.value.CmdDef.{CmdDef};
ghost use Rattle.scenario.specs.Value.{ScenarioValue};
ghost use Rattle.array_model.specs.Processes.{command_at};
ghost use Rattle.story_model.specs.TraceHistory.{aim_of};
ghost use Rattle.due_model.specs.Plain.{AreOfDevices};
ghost use Rattle.due_model.specs.RunSteps.{run_state, events_of_row};
ghost use Rattle.initiator_books.specs.Books.{my_book, item_if};
ghost use Rattle.initiator_books.specs.Commands.{all_past};
ghost use Rattle.initiator_books.specs.Intents.{IsIntentOf};
ghost use Rattle.initiator_books.specs.Endings.{no_end, ended_so, end_at, ends_with, ends_with_sense, ends_after_end, ends_after_loss, is_named, ends_of_mines, ends_after_event, ends_after_events, is_over, ends_after_calling, ends_after_from, IsEndOf, AreEndingsOf};

use crate::book::Book;
use crate::intent::Intent;
use crate::marks::is_aborted;
use crate::mine::{Mine, OwnItem};
use bus_base::{Event, NoMemory, ProcId};
use due_model::kept_is_plain;
use scenario::Scenario;
use std::alloc::Global;
use std::marker::Model;

/// What first ended a command.
#[derive(Clone, Copy)]
pub enum Ending {
    /// COMMAND COMPLETE after this status.
    Status(u8),
    /// The target went to BUS FREE where it should not.
    Loss,
    /// A reset of the bus.
    Reset,
    /// An abort that concerned it.
    Abort,
    /// One calling more without an answer than its initiator tries again.
    Unanswered,
}

/// How far a command and its automatic REQUEST SENSE have ended.
#[derive(Clone, Copy)]
pub struct CommandEnd {
    /// How the command ended, if it has.
    pub ending: Option<Ending>,
    /// Whether its automatic REQUEST SENSE ended with COMMAND COMPLETE.
    pub sense_ended: bool,
}

/// How each command of an initiator's own ended.
#[derive(Drop)]
pub struct Endings {
    // By the number of the command, from 1.
    ends: Vec<CommandEnd>,
}

impl Model for Endings {
    ghost use Rattle.std.specs.Prelude.{List};
    ghost use Rattle.initiator_books.specs.declared.endings.CommandEnd.{CommandEnd};

    ghost Value = { List CommandEnd };

    ghost view = { λ a. a.ends.items };
}

// It has not ended.
fn no_end() -> CommandEnd
    ensures { result ≡ no_end }
{
    CommandEnd {
        ending: None,
        sense_ended: false,
    }
}

// It ends so; its first ending stays.
fn ended_so(ending: Ending, end: CommandEnd) -> CommandEnd
    ensures { result ≡ ended_so ending end }
{
    if end.ending.is_none() {
        CommandEnd {
            ending: Some(ending),
            ..end
        }
    } else {
        end
    }
}

// An abort or a reset concerns this command of its own.
fn is_named(event: &Event, mine: &Mine) -> bool
    ensures { result ≡ is_named event.now mine.now }
{
    match *event {
        Event::Aborted(host, target, unit, what) => is_aborted(host, target, unit, what, mine),
        Event::Reset(_) => true,
        _ => false,
    }
}

fn is_over(mine: Option<Mine>) -> bool
    ensures { result ≡ is_over mine }
{
    match mine {
        None => false,
        Some(mine) => mine.over,
    }
}

impl Endings {
    /// Before any row. It takes all its memory here.
    pub fn new(alloc: Global, scenario: &Scenario) -> Result<Endings, NoMemory>
        ensures exact { IfOk result (λ made. made ≡ replicate (length scenario.now.commands + 1) no_end) }
        ensures trace { (dev : ℕ) → IfOk result (λ made. AreEndingsOf scenario.now [] dev made) }
    {
        let ends = vec![in alloc; no_end(); scenario.commands.len() + 1]?;
        Ok(Endings { ends })
    }

    fn at(&self, number: u16) -> CommandEnd
        ensures { result ≡ end_at self.now number }
    {
        match self.ends.get(number as usize) {
            None => no_end(),
            Some(end) => *end,
        }
    }

    /// How the command of this number ended, and its automatic REQUEST SENSE.
    pub fn end(&self, number: u16) -> CommandEnd
        ensures value { result ≡ end_at self.now number }
        ensures trace { (s : ScenarioValue) (rows : List Row) (dev : ℕ) (c : CmdDef) → AreEndingsOf s rows dev self.now
            → command_at s.commands number ≡ Some c → (c.host == dev) ≡ true
            → IsEndOf (run_state s rows).story number result }
    {
        self.at(number)
    }

    fn put(&mut self, number: u16, ending: Ending)
        ensures { self.new ≡ ends_with self.old number ending }
    {
        let place = number as usize;
        if place < self.ends.len() {
            self.ends[place] = ended_so(ending, self.ends[place]);
        }
    }

    fn put_sense(&mut self, number: u16)
        ensures { self.new ≡ ends_with_sense self.old number }
    {
        let place = number as usize;
        if place < self.ends.len() {
            self.ends[place] = CommandEnd {
                sense_ended: true,
                ..self.ends[place]
            };
        }
    }

    fn see_end(&mut self, id: ProcId, status: u8)
        ensures { self.new ≡ ends_after_end self.old id status }
    {
        if id.sense {
            self.put_sense(id.command);
        } else {
            self.put(id.command, Ending::Status(status));
        }
    }

    fn see_loss(&mut self, id: ProcId)
        ensures { self.new ≡ ends_after_loss self.old id }
    {
        if !id.sense {
            self.put(id.command, Ending::Loss);
        }
    }

    // Of these commands of its own those that are sent, and that the event concerns, end so.
    fn end_all(&mut self, event: &Event, ending: Ending, mines: &[Mine])
        ensures { self.new ≡ ends_of_mines event.now ending mines.now self.old }
    {
        for mine in mines {
            if mine.sent && is_named(event, mine) {
                self.put(mine.number, ending);
            }
        }
    }

    fn see_event(&mut self, mines: &[Mine], event: &Event)
        ensures { self.new ≡ ends_after_event mines.now self.old event.now }
    {
        match event {
            Event::End(id, status) => self.see_end(*id, *status),
            Event::Lost(id) => self.see_loss(*id),
            Event::Aborted(..) => self.end_all(event, Ending::Abort, mines),
            Event::Reset(_) => self.end_all(event, Ending::Reset, mines),
            _ => {}
        }
    }

    fn see_all(&mut self, mines: &[Mine], shown: &[Event])
        ensures { self.new ≡ ends_after_events mines.now self.old shown.now }
    {
        let mut left = shown.len();
        while left > 0 {
            left -= 1;
            self.see_event(mines, &shown[left]);
        }
    }

    // The row shows no event. A command for which the initiator called in vain once too often is over.
    fn see_calling(&mut self, book: &Book, aim: Option<OwnItem>)
        ensures { self.new ≡ ends_after_calling book.now.mines self.old aim }
    {
        if let Some(OwnItem::Command(number)) = aim {
            if is_over(book.mine(number)) {
                self.put(number, Ending::Unanswered);
            }
        }
    }

    fn after_row(&mut self, book: &Book, past: usize, aim: Option<OwnItem>, shown: &[Event])
        ensures { self.new ≡ ends_after_from past book.now aim self.old shown.now }
    {
        if shown.is_empty() {
            self.see_calling(book, aim);
        } else {
            self.see_all(book.mines_from(past), shown);
        }
    }

    /// One more row, of any device, which shows these events, the newest first: `book` is the initiator's book after
    /// it, and `aim` that for which the initiator last entered arbitration before it. So many of its first commands
    /// were past before the row.
    pub fn see(&mut self, book: &Book, past: usize, aim: Option<OwnItem>, shown: &[Event])
        ensures exact { self.new ≡ ends_after_from past book.now aim self.old shown.now }
        ensures trace { (s : ScenarioValue) (rows : List Row) (row : Row) (dev : ℕ) → AreOfDevices (row ∷ rows)
            → book.now ≡ my_book s (run_state s (row ∷ rows)).story.sent dev
            → all_past (take past (my_book s (run_state s rows).story.sent dev).mines) ≡ true
            → item_if aim ≡ aim_of (run_state s rows).story.aims dev → shown.now ≡ events_of_row s rows row
            → AreEndingsOf s rows dev self.old → AreEndingsOf s (row ∷ rows) dev self.new }
    {
        kept_is_plain();
        self.after_row(book, past, aim, shown);
    }
}

/// A row shows these events, the newest first; the initiator has gone on by it. Before it, it aimed at this, and so
/// many of its first commands were past.
pub fn see_endings(
    endings: &mut Endings,
    intent: &Intent,
    past: usize,
    aim: Option<OwnItem>,
    shown: &[Event],
)
    ensures { (s : ScenarioValue) (rows : List Row) (row : Row) → AreOfDevices (row ∷ rows)
        → IsIntentOf s (row ∷ rows) intent.now
        → all_past (take past (my_book s (run_state s rows).story.sent intent.now.dev).mines) ≡ true
        → item_if aim ≡ aim_of (run_state s rows).story.aims intent.now.dev
        → shown.now ≡ events_of_row s rows row → AreEndingsOf s rows intent.now.dev endings.old
        → AreEndingsOf s (row ∷ rows) intent.now.dev endings.new }
{
    endings.see(intent.book(), past, aim, shown);
}
