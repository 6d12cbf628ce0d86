//! What the initiator of a connection has to say in MESSAGE OUT (ANSI X3.131-1994, 6.1.9, 6.2.1 and 6.6).
ghost use Rattle.std.specs.Prelude.{◌≡◌, ◌≤◌, ◌∷◌, length, List, Some};
ghost use Rattle.bus_trace.specs.declared.Row.{Row};
ghost use Rattle.bus_trace.specs.Terms.{connection};
ghost use Rattle.scenario.specs.Value.{ScenarioValue};
ghost use Rattle.due_model.specs.dialogue_model.specs.Hearing.{hearing as hearing_in};
ghost use Rattle.due_model.specs.Defs.{host_of};
ghost use Rattle.due_model.specs.Plain.{AreOfDevices};
ghost use Rattle.initiator.specs.Speeches.{speech_in, speech_by, IsSpeechOf, IsOpeningOf};
ghost use Rattle.due_model.specs.dialogue_model.specs.Exchange.{no_speech, next_word, attends_with, speech_after_byte, speech_of, speech_after_request};
ghost use Rattle.due_model.specs.dialogue_model.specs.Words.{host_answer};
ghost use Rattle.due_model.specs.dialogue_model.specs.Speaking.{words_after, speech_in_phase, speech_with_byte, speech_after};

use arrayvec::ArrayVec;
use bus_trace::{Agreement, Connection, changes_phase, is_message_in, is_message_out};
use due_model::the_dialogue_model::Hearing;
use due_model::{hearings_are_plain, kept_is_plain};
use initiator_books::Words;
use initiator_books::the_scsi_device::agreement_answer;
use msg_grammar::{MsgIn, MsgOut, encode_out};
use scenario::HostDef;
use std::marker::Model;

/// What the initiator says in MESSAGE OUT, the place of its next byte, and what the target has last asked for by a
/// synchronous data transfer request.
#[derive(Drop)]
pub struct Speech {
    words: ArrayVec<u8, 8>,
    place: usize,
    asked: Agreement,
}

impl Model for Speech {
    ghost use Rattle.std.specs.Prelude.{◌≤◌, length};
    ghost use Rattle.due_model.specs.dialogue_model.specs.Exchange as exchange;

    ghost Value = { exchange.Speech };

    ghost view = { λ a. record { words = a.words.items; place = a.place; asked = a.asked } };

    ghost invariant = { λ a. (a.place ≤ length a.words.items) × (length a.words.items ≤ 8) };
}

// What it says of the phase before MESSAGE OUT.
fn words_after(host: &HostDef, hearing: &Hearing, asked: Agreement) -> ArrayVec<u8, 5>
    ensures { result.items ≡ words_after (Some host.now) hearing.now asked }
{
    if !is_message_in(hearing.change.before) {
        encode_out(&MsgOut::DetectedError)
    } else if hearing.struck {
        encode_out(&MsgOut::ParityError)
    } else {
        encode_out(&MsgOut::Sdtr(agreement_answer(host.period, host.offset, asked)))
    }
}

impl Speech {
    /// It says nothing, and was asked for nothing.
    pub fn new() -> Speech
        ensures { result ≡ no_speech }
    {
        Speech {
            words: ArrayVec::new(),
            place: 0,
            asked: Agreement {
                period: 0,
                offset: 0,
            },
        }
    }

    /// It says these bytes, eight at most, from the first on.
    pub fn say(&mut self, words: &[u8])
        requires { length words.now ≤ 8 }
        ensures { self.new ≡ speech_of self.old words.now }
    {
        self.place = 0;
        self.words.clear();
        let _ = self.words.try_extend_from_slice(words);
    }

    /// The byte that it says next; 00 past the last one.
    pub fn next_word(&self) -> u8
        ensures { result ≡ next_word self.now }
    {
        match self.words.get(self.place) {
            Some(byte) => *byte,
            None => 0,
        }
    }

    /// Whether ATN is true with that byte: whether a further one follows (6.1.9, 6.2.1).
    pub fn attends(&self) -> bool
        ensures { result ≡ attends_with self.now }
    {
        self.place + 1 < self.words.len()
    }

    fn after_byte(&mut self)
        ensures { self.new ≡ speech_after_byte self.old }
    {
        if self.place + 1 < self.words.len() {
            self.place += 1;
        } else {
            self.place = 0;
        }
    }

    fn after_request(&mut self, message: Option<MsgIn>)
        ensures { self.new ≡ speech_after_request self.old message }
    {
        if let Some(MsgIn::Sdtr(asked)) = message {
            self.asked = asked;
        }
    }

    fn in_phase(&mut self, host: &HostDef, hearing: &Hearing)
        ensures { self.new ≡ speech_in_phase (Some host.now) hearing.now self.old }
    {
        if is_message_out(hearing.change.after) && hearing.begun {
            let words = words_after(host, hearing, self.asked);
            self.say(words.as_slice());
        } else {
            self.place = 0;
        }
    }

    fn with_byte(&mut self, hearing: &Hearing)
        ensures { self.new ≡ speech_with_byte hearing.now self.old }
    {
        if is_message_out(hearing.change.before) {
            self.after_byte();
        } else {
            self.after_request(hearing.into);
        }
    }

    /// A row of the connection told this.
    pub fn hear(&mut self, host: &HostDef, hearing: &Hearing)
        ensures { self.new ≡ speech_after (Some host.now) hearing.now self.old }
    {
        if changes_phase(&hearing.change) {
            self.in_phase(host, hearing);
        } else if hearing.crosses {
            self.with_byte(hearing);
        }
    }

    // In a connection of its own, after a row in which it began or went on.
    fn see_own(
        &mut self,
        host: &HostDef,
        opening: &Words,
        hearing: &Hearing,
        before: Option<Connection>,
        connection: Connection,
    )
        ensures { self.new ≡ speech_in host.now opening.now.items hearing.now before connection self.old }
    {
        if before.is_some() {
            self.hear(host, hearing);
        } else if connection.reselected {
            *self = Speech::new();
        } else {
            *self = Speech::new();
            self.say(opening.as_slice());
        }
    }

    /// A row was made: the connection before and after it, and what it told. `opening` is what the initiator says
    /// first, where the row begins a connection of its own by a selection.
    pub fn see(
        &mut self,
        host: &HostDef,
        opening: &Words,
        hearing: &Hearing,
        before: Option<Connection>,
        after: Option<Connection>,
    )
        ensures exact { self.new ≡ speech_by host.now opening.now.items hearing.now before after self.old }
        ensures trace { (s : ScenarioValue) (rows : List Row) (row : Row) → AreOfDevices (row ∷ rows)
            → host_of s host.now.dev ≡ Some host.now → hearing.now ≡ hearing_in rows row → before ≡ connection rows
            → after ≡ connection (row ∷ rows) → IsOpeningOf s rows row host.now.dev opening.now.items
            → IsSpeechOf s rows host.now.dev self.old → IsSpeechOf s (row ∷ rows) host.now.dev self.new }
    {
        kept_is_plain();
        hearings_are_plain();
        if let Some(connection) = after {
            if connection.initiator.get() == host.dev {
                self.see_own(host, opening, hearing, before, connection);
            }
        }
    }
}
