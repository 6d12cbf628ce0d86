//! The rises of REQ and ACK in the present phase (ANSI X3.131-1994, 6.1.5.1 and 6.1.5.2).
ghost use Rattle.std.specs.Prelude.{ℕ, ◌≡◌, ◌∷◌, [], List, length, drop, not, ◌==◌, true};
ghost use Rattle.bus_trace.specs.declared.Row.{Row};
ghost use Rattle.bus_trace.specs.Changes.{change_of};
ghost use Rattle.bus_trace.specs.Terms.{connection, is_fault};
ghost use Rattle.bus_lines.specs.Handshakes.{handshakes, handshakes_after, no_handshakes, asked, answered, newest_struck, with_last_struck, first_of, room_by};

use arrayvec::ArrayVec;
use bus_trace::the_bus_base::Ns;
use bus_trace::{Change, Connection, Kind, Row, changes_phase, rises};
use std::marker::Model;

/// A rise of REQ that no rise of ACK has answered yet.
#[derive(Clone, Copy, Default)]
pub struct Request {
    /// When REQ rose, in ns.
    pub time: Ns,
    /// Whether a fault struck its byte.
    pub struck: bool,
}

/// How often REQ and ACK have risen in the present phase and when, and which requests are unanswered. It begins
/// anew with each phase. Times are in ns, 0 where a line has not risen. A count stays at the last u64, and at
/// most 255 requests are remembered as unanswered, since no REQ/ACK offset is higher (6.6.21).
#[derive(Drop)]
pub struct Handshakes {
    requests: u64,
    answers: u64,
    last_req: Ns,
    last_ack: Ns,
    struck: bool,
    reach: u8,
    relieved: Option<Ns>,
    waiting: ArrayVec<Request, 255>,
}

impl Model for Handshakes {
    ghost use Rattle.bus_lines.specs.Handshakes as account;

    ghost Value = { account.Handshakes };

    ghost view = { λ a. record {
      requests = a.requests;
      answers = a.answers;
      last_req = a.last_req;
      last_ack = a.last_ack;
      struck = a.struck;
      reach = a.reach;
      relieved = a.relieved;
      waiting = a.waiting.items;
    } };
}

impl Handshakes {
    /// Before any rise.
    pub fn new() -> Handshakes
        ensures exact { result ≡ no_handshakes }
        ensures trace { result ≡ handshakes [] }
    {
        Handshakes {
            requests: 0,
            answers: 0,
            last_req: 0,
            last_ack: 0,
            struck: false,
            reach: 0,
            relieved: None,
            waiting: ArrayVec::new(),
        }
    }

    // REQ rises.
    fn asked(&mut self, time: Ns)
        ensures { self.new ≡ asked time self.old }
    {
        self.requests = self.requests.saturating_add(1);
        self.last_req = time;
        self.struck = false;
        if self.waiting.len() < 255 {
            self.waiting.push(Request {
                time,
                struck: false,
            });
        }
        self.reach = self.waiting.len() as u8;
        self.relieved = None;
    }

    // ACK rises.
    fn answered(&mut self, time: Ns)
        ensures { self.new ≡ answered time self.old }
    {
        self.answers = self.answers.saturating_add(1);
        self.last_ack = time;
        if self.relieved.is_none() {
            self.relieved = Some(time);
        }
        forget_oldest(&mut self.waiting);
    }

    // A fault strikes the byte of the newest request.
    fn strike(&mut self)
        ensures { self.new ≡ newest_struck self.old }
    {
        self.struck = self.requests != 0;
        strike_last(&mut self.waiting);
    }

    // A phase ends.
    fn forgets(&mut self)
        ensures { self.new ≡ no_handshakes }
    {
        self.requests = 0;
        self.answers = 0;
        self.last_req = 0;
        self.last_ack = 0;
        self.struck = false;
        self.reach = 0;
        self.relieved = None;
        self.waiting.clear();
    }

    /// One row more. The connection is that after the row.
    pub fn step(&mut self, after: Option<Connection>, change: &Change, row: &Row)
        ensures exact { self.new ≡ handshakes_after (is_fault row.now.kind) after change.now row.now.time self.old }
        ensures trace { (rows : List Row) → self.old ≡ handshakes rows → after ≡ connection (row.now ∷ rows)
            → change.now ≡ change_of rows row.now → self.new ≡ handshakes (row.now ∷ rows) }
    {
        if let Kind::Fault(_) = row.kind {
            if change.before.io() {
                self.strike();
            }
            return;
        }
        if after.is_none() || changes_phase(change) {
            self.forgets();
            return;
        }
        if rises(change.before.req(), change.after.req()) {
            self.asked(row.time);
        }
        if rises(change.before.ack(), change.after.ack()) {
            self.answered(row.time);
        }
    }

    /// Whether REQ rose in this phase.
    pub fn is_begun(&self) -> bool
        ensures { result ≡ not (self.now.requests == 0) }
    {
        self.requests != 0
    }

    /// Whether ACK rose in this phase.
    pub fn is_answered(&self) -> bool
        ensures { result ≡ not (self.now.answers == 0) }
    {
        self.answers != 0
    }

    /// How often REQ rose in this phase.
    pub fn requests(&self) -> u64
        ensures { result ≡ self.now.requests }
    {
        self.requests
    }

    /// How often ACK rose in this phase.
    pub fn answers(&self) -> u64
        ensures { result ≡ self.now.answers }
    {
        self.answers
    }

    /// When REQ last rose in this phase, in ns, or 0.
    pub fn last_req(&self) -> Ns
        ensures { result ≡ self.now.last_req }
    {
        self.last_req
    }

    /// When ACK last rose in this phase, in ns, or 0.
    pub fn last_ack(&self) -> Ns
        ensures { result ≡ self.now.last_ack }
    {
        self.last_ack
    }

    /// Whether a fault struck the byte of the newest request.
    pub fn is_struck(&self) -> bool
        ensures { result ≡ self.now.struck }
    {
        self.struck
    }

    /// How many requests are unanswered, at most 255: the REQ/ACK offset as it stands (6.1.5.2).
    pub fn waiting(&self) -> u8
        ensures { result ≡ length self.now.waiting }
    {
        self.waiting.len() as u8
    }

    /// The oldest request that is unanswered.
    pub fn oldest(&self) -> Option<Request>
        ensures { result ≡ first_of self.now.waiting }
    {
        let first = self.waiting.first()?;
        Some(*first)
    }

    /// Since when there is room for a request under this offset, in ns, where the last one filled it (6.1.5.2);
    /// 0 where there has been room since before that.
    pub fn room_since(&self, offset: u8) -> Ns
        ensures { result ≡ room_by offset self.now }
    {
        if self.reach != offset {
            return 0;
        }
        match self.relieved {
            None => 0,
            Some(time) => time,
        }
    }
}

// The oldest of those that wait has its answer. Most often it waits alone, so that no other moves to its place.
fn forget_oldest(waiting: &mut ArrayVec<Request, 255>)
    ensures { waiting.new.items ≡ drop 1 waiting.old.items }
{
    if waiting.len() > 1 {
        waiting.remove(0);
    } else {
        waiting.pop();
    }
}

// A fault strikes the last of those that wait.
fn strike_last(waiting: &mut ArrayVec<Request, 255>)
    ensures { waiting.new.items ≡ with_last_struck waiting.old.items }
{
    let count = waiting.len();
    if count == 0 {
        return;
    }
    if let Some(request) = waiting.pop() {
        waiting.push(Request {
            time: request.time,
            struck: true,
        });
    }
}
