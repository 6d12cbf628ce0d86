//! The bus after some rows, and what a row does on it.
ghost use Rattle.std.specs.Prelude.{◌≡◌, ◌<◌, not, ◌&&◌, is_some, is_none, slice_set};
ghost use Rattle.bus_trace.specs.View.{driven_at, union_all};
ghost use Rattle.story_model.specs.BusState.{quiet_bus, change_by, row_reading_of};
ghost use Rattle.bus_trace.specs.Phases.{changes_phase};
ghost use Rattle.bus_trace.specs.Terms.{call_after, connection_after, receiver_of};
ghost use Rattle.bus_transcript.specs.Rows.{dialogue_seen, is_silent, bus_seen};
ghost use Rattle.bus_transcript.specs.Still.{stands_on, is_still, still_bus};

use bus_base::Dev;
use bus_phases::{Agreements, Dialogue, asynchronous};
use bus_trace::{
    Call, Change, Connection, Kind, Lines, Row, call_after, changes_phase, connection_after,
    is_fault, is_message_in, receiver_of,
};
use msg_grammar::{MsgIn, MsgOut};
use std::marker::Model;
use story_model::{message_in, message_out};

/// What a row does: what it changes, the connection after it, whether a byte crosses, and the message that it makes
/// whole.
#[derive(Drop)]
pub(crate) struct Reading {
    pub(crate) change: Change,
    pub(crate) next: Option<Connection>,
    pub(crate) crosses: bool,
    pub(crate) out: Option<MsgOut>,
    pub(crate) into: Option<MsgIn>,
}

impl Model for Reading {
    ghost use Rattle.story_model.specs.BusState.{RowReading};

    ghost Value = { RowReading };

    ghost view = { λ a. record {
      change = a.change;
      next = a.next;
      crosses = a.crosses;
      out = a.out;
      into = a.into;
    } };
}

/// The bus after some rows, and the messages on it, but for what they agree on.
#[derive(Drop)]
pub(crate) struct Bus {
    driven: [Lines; 8],
    lines: Lines,
    call: Option<Call>,
    connection: Option<Connection>,
    dialogue: Dialogue,
    crossed: Option<Change>,
}

impl Model for Bus {
    ghost use Rattle.std.specs.Prelude.{[]};
    ghost use Rattle.story_model.specs.BusState.{BusState};

    ghost Value = { BusState };

    ghost view = { λ a. record {
      driven = a.driven;
      bus = a.lines;
      call = a.call;
      connection = a.connection;
      dialogue = a.dialogue;
      agreed = [];
      crossed = a.crossed;
    } };
}

// What this device drives, where the device of a row drives these lines in place of its own.
fn drives_with(driven: &[Lines; 8], dev: Dev, lines: Lines, other: Dev) -> Lines
    requires dev { dev < 8 }
    requires other { other < 8 }
    ensures { result ≡ driven_at (slice_set driven.now dev lines) other }
{
    if other == dev {
        lines
    } else {
        driven[other as usize]
    }
}

// What is on the bus then. No lines are read back that were stored just before, for which a processor would wait.
fn bus_with(driven: &[Lines; 8], dev: Dev, lines: Lines) -> Lines
    requires { dev < 8 }
    ensures { result ≡ union_all (slice_set driven.now dev lines) }
{
    drives_with(driven, dev, lines, 0)
        .with(drives_with(driven, dev, lines, 1))
        .with(drives_with(driven, dev, lines, 2))
        .with(drives_with(driven, dev, lines, 3))
        .with(drives_with(driven, dev, lines, 4))
        .with(drives_with(driven, dev, lines, 5))
        .with(drives_with(driven, dev, lines, 6))
        .with(drives_with(driven, dev, lines, 7))
}

// No byte crosses and no phase begins.
fn is_still(connection: &Option<Connection>, change: &Change) -> bool
    ensures { result ≡ (is_none (receiver_of connection.now change.now) && not (changes_phase change.now)) }
{
    receiver_of(connection, change).is_none() && !changes_phase(change)
}

// BSY stands after the row, and RST does not.
fn stands_on(change: &Change) -> bool
    ensures { result ≡ stands_on change.now }
{
    change.after.bsy() && !change.after.rst()
}

// The row changes nothing of the messages.
fn is_silent(before: &Option<Connection>, after: &Option<Connection>, change: &Change) -> bool
    ensures { result ≡ is_silent before.now after.now change.now }
{
    match (before, after) {
        (Some(_), Some(_)) => is_still(before, change),
        _ => false,
    }
}

impl Bus {
    /// Before any row.
    pub(crate) fn new() -> Bus
        ensures { result ≡ quiet_bus }
    {
        Bus {
            driven: [Lines::none(); 8],
            lines: Lines::none(),
            call: None,
            connection: None,
            dialogue: Dialogue::opened(asynchronous()),
            crossed: None,
        }
    }

    /// The call that stands.
    pub(crate) fn call(&self) -> Option<Call>
        ensures { result ≡ self.now.call }
    {
        self.call
    }

    /// The connection that stands.
    pub(crate) fn connection(&self) -> Option<Connection>
        ensures { result ≡ self.now.connection }
    {
        self.connection
    }

    /// The messages of that connection.
    pub(crate) fn dialogue(&self) -> &Dialogue
        ensures { result.now ≡ self.now.dialogue }
    {
        &self.dialogue
    }

    /// Whether a byte crossed in the last row.
    pub(crate) fn has_crossed(&self) -> bool
        ensures { result ≡ is_some self.now.crossed }
    {
        self.crossed.is_some()
    }

    /// What a row changes.
    pub(crate) fn change(&self, row: &Row) -> Change
        requires { row.now.dev < 8 }
        ensures { result ≡ change_by self.now row.now }
    {
        let own = self.driven[row.dev as usize];
        let next = row.kind.driven_after(own);
        Change {
            before: self.lines,
            after: bus_with(&self.driven, row.dev, next),
            own,
            next,
        }
    }

    // The connection after a row that changes this. Most rows come in a connection, which their calls do not touch.
    fn connection_after(&self, change: &Change, row: &Row) -> Option<Connection>
        ensures { result ≡ connection_after self.now.connection self.now.call change.now row.now }
    {
        match self.connection {
            Some(connection) => {
                if change.after.bsy() {
                    Some(connection)
                } else {
                    None
                }
            }
            None => connection_after(None, self.call, change, row),
        }
    }

    /// What a row does that changes this.
    pub(crate) fn reading_of(&self, row: &Row, change: Change) -> Reading
        ensures { result ≡ row_reading_of self.now row.now change }
    {
        let crosses = receiver_of(&self.connection, &change).is_some();
        Reading {
            next: self.connection_after(&change, row),
            crosses,
            out: message_out(&self.dialogue, &change, crosses),
            into: message_in(&self.dialogue, &change, crosses),
            change,
        }
    }

    /// Whether a row that changes this leaves the connection that stands and its messages as they are: no byte crosses,
    /// no phase begins, no fault strikes, and no message is taken.
    pub(crate) fn is_still(&self, change: &Change, kind: Kind) -> bool
        ensures { result ≡ is_still self.now change.now kind }
    {
        stands_on(change)
            && is_still(&self.connection, change)
            && self.connection.is_some()
            && !is_fault(kind)
            && !is_message_in(change.before)
    }

    /// Such a row.
    pub(crate) fn step_still(&mut self, row: &Row, change: &Change)
        requires { row.now.dev < 8 }
        ensures { self.new ≡ still_bus self.old row.now change.now }
    {
        self.step_call(change, row);
        self.driven[row.dev as usize] = change.next;
        self.lines = change.after;
        self.crossed = None;
    }

    fn step_dialogue(&mut self, reading: &Reading)
        ensures { self.new ≡ record self.old { dialogue = dialogue_seen self.old reading.now } }
    {
        if is_silent(&self.connection, &reading.next, &reading.change) {
            return;
        }
        let none = Agreements::new();
        let _ = self
            .dialogue
            .step(&self.connection, &reading.next, &none, &reading.change);
    }

    fn step_call(&mut self, change: &Change, row: &Row)
        requires { row.now.dev < 8 }
        ensures { self.new ≡ record self.old { call = call_after self.old.call change.now row.now } }
    {
        if change.after.sel() {
            self.call = call_after(self.call, change, row);
        } else {
            self.call = None;
        }
    }

    /// One row more, which does this.
    pub(crate) fn step(&mut self, row: &Row, reading: &Reading)
        requires { row.now.dev < 8 }
        ensures { self.new ≡ bus_seen self.old row.now reading.now }
    {
        let change = reading.change;
        self.step_dialogue(reading);
        self.step_call(&change, row);
        self.driven[row.dev as usize] = change.next;
        self.lines = change.after;
        self.connection = reading.next;
        self.crossed = if reading.crosses { Some(change) } else { None };
    }
}
