//! The messages of a connection, byte by byte (ANSI X3.131-1994, 6.6).
ghost use Rattle.std.specs.Prelude.{ℕ, ◌≡◌, ◌<◌, ◌∷◌, [], ◌++◌, Option, IsTrue, is_some};
ghost use Rattle.msg_grammar.specs.Messages.{got_out, got_in};
ghost use Rattle.bus_trace.specs.declared.connection.Connection.{Connection};
ghost use Rattle.bus_trace.specs.Terms.{receiver_of};
ghost use Rattle.bus_trace.specs.declared.agreements.Agreement.{Agreement};
ghost use Rattle.bus_phases.specs.Tables.{AreAgreements};
ghost use Rattle.bus_phases.specs.Reading.{reading_of, reading_out, reading_in};
ghost use Rattle.bus_phases.specs.Dialogue.{takes_data, asynchronous, opened, heard_out, heard_in, heard_if_begun, byte_out, byte_in, byte_else, byte_crosses, phase_begins, dialogue_on, dialogue_after};

use crate::agreements::Agreements;
use crate::half::Half;
use crate::reading::{Reading, reading_in, reading_out};
use crate::spoken::{
    Heard, asynchronous, heard_before_in, heard_with_command, heard_with_in, heard_with_out,
    nothing_spoken,
};
use crate::words::{word_in, word_out};
use bus_trace::{
    Agreement, Change, Connection, Lines, changes_phase, is_command, is_message_in, is_message_out,
    receiver_of,
};
use msg_grammar::{Got, MsgIn, MsgOut};

/// The messages of the connection that stands.
#[derive(Drop)]
pub struct Dialogue {
    /// What they say.
    pub heard: Heard,
    /// What they said when the phase began.
    pub at_phase: Heard,
    /// Whether the last byte of this phase crossed with ATN false.
    pub is_last: bool,
    /// The bytes of a message that is half sent in this phase, as they crossed.
    pub half: Half,
    /// The same without those that were begun anew.
    pub fresh: Half,
    /// Whether a byte has crossed.
    pub begun: bool,
}

fn heard_out(heard: Heard, got: Got<MsgOut>) -> Heard
    ensures { result ≡ heard_out heard got }
{
    match got {
        Got::Whole(message, _) => heard_with_out(heard, word_out(message)),
        Got::More | Got::Unknown => heard,
    }
}

fn heard_in(heard: Heard, got: Got<MsgIn>) -> Heard
    ensures { result ≡ heard_in heard got }
{
    match got {
        Got::Whole(message, _) => heard_with_in(heard, word_in(message)),
        Got::More | Got::Unknown => heard,
    }
}

fn heard_if_begun(half: &Half, heard: Heard) -> Heard
    ensures { result ≡ heard_if_begun half.now heard }
{
    if half.is_empty() {
        heard_before_in(heard)
    } else {
        heard
    }
}

impl Dialogue {
    /// A connection begins under this agreement.
    pub fn opened(agreement: Agreement) -> Dialogue
        ensures { result ≡ opened agreement }
    {
        let heard = Heard {
            now: nothing_spoken(agreement),
            void: None,
        };
        Dialogue {
            heard,
            at_phase: heard,
            is_last: false,
            half: Half::new(),
            fresh: Half::new(),
            begun: false,
        }
    }

    // A byte of MESSAGE OUT, the last where ATN is false with it.
    fn byte_out(&mut self, byte: u8, last: bool) -> Reading
        ensures exact { self.new ≡ byte_out self.old byte last }
        ensures reading { result ≡ reading_out (got_out (self.old.half ++ byte ∷ [])) }
    {
        if self.is_last {
            self.fresh.clear();
            self.heard = self.at_phase;
        }
        let got = self.fresh.take_out(byte);
        self.heard = heard_out(self.heard, got);
        self.is_last = last;
        self.begun = true;
        reading_out(self.half.take_out(byte))
    }

    fn byte_in(&mut self, byte: u8) -> Reading
        ensures exact { self.new ≡ byte_in self.old byte }
        ensures reading { result ≡ reading_in (got_in (self.old.half ++ byte ∷ [])) }
    {
        let heard = heard_if_begun(&self.half, self.heard);
        let got = self.half.take_in(byte);
        self.heard = heard_in(heard, got);
        self.begun = true;
        reading_in(got)
    }

    fn byte_else(&mut self, lines: Lines, byte: u8)
        ensures { self.new ≡ byte_else self.old lines byte }
    {
        if is_command(lines) {
            self.heard = heard_with_command(self.heard, byte);
        }
        self.begun = true;
    }

    fn byte_crosses(&mut self, change: &Change) -> Reading
        ensures exact { self.new ≡ byte_crosses self.old change.now }
        ensures reading { (n : Option Connection) → IsTrue (is_some (receiver_of n change.now))
            → result ≡ reading_of self.old.half n change.now }
    {
        let byte = change.after.data();
        if is_message_out(change.before) {
            self.byte_out(byte, !change.after.atn())
        } else if is_message_in(change.before) {
            self.byte_in(byte)
        } else {
            self.byte_else(change.before, byte);
            Reading::NoMessage
        }
    }

    fn phase_begins(&mut self)
        ensures { self.new ≡ phase_begins self.old }
    {
        self.at_phase = self.heard;
        self.is_last = false;
        self.half.clear();
        self.fresh.clear();
    }

    fn on(&mut self, connection: &Option<Connection>, change: &Change) -> Reading
        ensures exact { self.new ≡ dialogue_on self.old connection.now change.now }
        ensures reading { result ≡ reading_of self.old.half connection.now change.now }
    {
        if receiver_of(connection, change).is_some() {
            return self.byte_crosses(change);
        }
        if changes_phase(change) {
            self.phase_begins();
        }
        Reading::NoMessage
    }

    /// A row of a DATA phase, in which a byte crosses or none.
    pub fn takes_data(&mut self, crosses: bool)
        ensures { self.new ≡ takes_data self.old crosses }
    {
        if crosses {
            self.begun = true;
        }
    }

    /// One row more, before and after which these connections stand.
    pub fn step(
        &mut self,
        before: &Option<Connection>,
        after: &Option<Connection>,
        agreed: &Agreements,
        change: &Change,
    ) -> Reading
        ensures exact { (f : ℕ → ℕ → Agreement) → AreAgreements f agreed.now
            → self.new ≡ dialogue_after self.old before.now after.now f change.now }
        ensures reading { result ≡ reading_of self.old.half before.now change.now }
    {
        let reading = self.on(before, change);
        match after {
            None => *self = Dialogue::opened(asynchronous()),
            Some(connection) => {
                if before.is_none() {
                    let agreement = agreed.of(connection.initiator, connection.target);
                    *self = Dialogue::opened(agreement);
                }
            }
        }
        reading
    }
}
