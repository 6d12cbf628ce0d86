//! What REQ, ACK, ATN and the bytes have made so far, as plain words, which can be copied, written to a file and read
//! back.
//!
//! Any words say something: what is out of range is cut to its range. What is saved and read back is the same.
ghost use Rattle.std.specs.Prelude.{◌≡◌, Some, None};
ghost use Rattle.bus_phases.specs.Saved.{duty_in, end_in, pulses_in, spoken_in, heard_in, dialogue_in};

use crate::attention::Duty;
use crate::dialogue::Dialogue;
use crate::half::Half;
use crate::pulses::Pulses;
use crate::spoken::{CommandBytes, Heard, Spoken};
use crate::words::End;
use bus_trace::{Agreement, SavedTime, byte_in, byte_word, is_yes, word_of};

/// What ATN asks as a word: 0 for nothing, 1 where it asks, 2 where MESSAGE OUT is owed.
pub fn duty_word(duty: Duty) -> u64
    ensures { duty_in result ≡ duty }
{
    match duty {
        Duty::Nothing => 0,
        Duty::Asked => 1,
        Duty::Owed => 2,
    }
}

/// What ATN asks by a word.
pub fn duty_in(word: u64) -> Duty
    ensures { result ≡ duty_in word }
{
    if word == 0 {
        Duty::Nothing
    } else if word == 1 {
        Duty::Asked
    } else {
        Duty::Owed
    }
}

// An end, if there is one, as a word: 0 for none, 1 for the initiator, 2 for the target.
fn end_word(end: Option<End>) -> u64
    ensures { end_in result ≡ end }
{
    match end {
        None => 0,
        Some(End::Initiator) => 1,
        Some(End::Target) => 2,
    }
}

fn end_in(word: u64) -> Option<End>
    ensures { result ≡ end_in word }
{
    if word == 0 {
        None
    } else if word == 1 {
        Some(End::Initiator)
    } else {
        Some(End::Target)
    }
}

/// The pulses in the present phase.
#[repr(C)]
#[derive(Clone, Copy)]
pub struct SavedPulses {
    /// How often REQ rose.
    pub req: u64,
    /// How often ACK rose.
    pub ack: u64,
    /// When REQ last rose.
    pub last_req: SavedTime,
    /// When ACK last rose.
    pub last_ack: SavedTime,
}

impl SavedPulses {
    ghost use Rattle.bus_phases.specs.Saved.{pulses_in};

    /// Saves pulses.
    pub fn of(pulses: Pulses) -> SavedPulses
        ensures { pulses_in result ≡ pulses }
    {
        SavedPulses {
            req: pulses.req,
            ack: pulses.ack,
            last_req: SavedTime::of(pulses.last_req),
            last_ack: SavedTime::of(pulses.last_ack),
        }
    }

    /// The pulses that were saved.
    pub fn get(&self) -> Pulses
        ensures { result ≡ pulses_in self.now }
    {
        Pulses {
            req: self.req,
            ack: self.ack,
            last_req: self.last_req.get(),
            last_ack: self.last_ack.get(),
        }
    }
}

/// What messages have said.
#[repr(C)]
#[derive(Clone, Copy)]
pub struct SavedSpoken {
    /// The transfer period factor of the agreement.
    pub period: u64,
    /// Its REQ/ACK offset.
    pub offset: u64,
    /// Whose synchronous data transfer request is open.
    pub offer: u64,
    /// Whose request answered.
    pub answered: u64,
    /// The first byte of the command.
    pub first: u64,
    /// How many bytes of it have crossed.
    pub count: u64,
    /// Whether BUS DEVICE RESET was sent.
    pub device_reset: u64,
}

impl SavedSpoken {
    ghost use Rattle.bus_phases.specs.Saved.{spoken_in};

    /// Saves what messages have said.
    pub fn of(spoken: Spoken) -> SavedSpoken
        ensures { spoken_in result ≡ spoken }
    {
        SavedSpoken {
            period: byte_word(spoken.agreement.period),
            offset: byte_word(spoken.agreement.offset),
            offer: end_word(spoken.offer),
            answered: end_word(spoken.answered),
            first: byte_word(spoken.command.first),
            count: spoken.command.count,
            device_reset: word_of(spoken.device_reset),
        }
    }

    /// What messages had said.
    pub fn get(&self) -> Spoken
        ensures { result ≡ spoken_in self.now }
    {
        Spoken {
            agreement: Agreement {
                period: byte_in(self.period),
                offset: byte_in(self.offset),
            },
            offer: end_in(self.offer),
            answered: end_in(self.answered),
            command: CommandBytes {
                first: byte_in(self.first),
                count: self.count,
            },
            device_reset: is_yes(self.device_reset),
        }
    }
}

/// What messages have said, and what they have said where the last one is void.
#[repr(C)]
#[derive(Clone, Copy)]
pub struct SavedHeard {
    /// What they say.
    pub said: SavedSpoken,
    /// Whether the last one may be void.
    pub may_be_void: u64,
    /// What they say where it is; where it is not, the same as `said`.
    pub void: SavedSpoken,
}

impl SavedHeard {
    ghost use Rattle.bus_phases.specs.Saved.{heard_in};

    /// Saves what is heard.
    pub fn of(heard: Heard) -> SavedHeard
        ensures { heard_in result ≡ heard }
    {
        let said = SavedSpoken::of(heard.now);
        match heard.void {
            None => SavedHeard {
                said,
                may_be_void: 0,
                void: said,
            },
            Some(void) => SavedHeard {
                said,
                may_be_void: 1,
                void: SavedSpoken::of(void),
            },
        }
    }

    /// What was heard.
    pub fn get(&self) -> Heard
        ensures { result ≡ heard_in self.now }
    {
        Heard {
            now: self.said.get(),
            void: if is_yes(self.may_be_void) {
                Some(self.void.get())
            } else {
                None
            },
        }
    }
}

/// The bytes of a message that is half sent.
#[repr(C)]
#[derive(Clone, Copy)]
pub struct SavedHalf {
    /// How many there are.
    pub length: u64,
    /// The bytes, the first ones of these.
    pub bytes: [u8; 8],
}

/// The messages of a connection.
#[repr(C)]
#[derive(Clone, Copy)]
pub struct SavedDialogue {
    /// What they say.
    pub heard: SavedHeard,
    /// What they said when the phase began.
    pub at_phase: SavedHeard,
    /// Whether the last byte of this phase crossed with ATN false.
    pub is_last: u64,
    /// The bytes of a message that is half sent in this phase.
    pub half: SavedHalf,
    /// The same without those that were begun anew.
    pub fresh: SavedHalf,
    /// Whether a byte has crossed.
    pub begun: u64,
}

impl SavedDialogue {
    ghost use Rattle.bus_phases.specs.Saved.{dialogue_in};

    /// Saves the messages of a connection.
    pub fn of(dialogue: &Dialogue) -> SavedDialogue
        ensures { dialogue_in result ≡ dialogue.now }
    {
        SavedDialogue {
            heard: SavedHeard::of(dialogue.heard),
            at_phase: SavedHeard::of(dialogue.at_phase),
            is_last: word_of(dialogue.is_last),
            half: dialogue.half.saved(),
            fresh: dialogue.fresh.saved(),
            begun: word_of(dialogue.begun),
        }
    }

    /// The messages that were saved.
    pub fn get(&self) -> Dialogue
        ensures { result ≡ dialogue_in self.now }
    {
        Dialogue {
            heard: self.heard.get(),
            at_phase: self.at_phase.get(),
            is_last: is_yes(self.is_last),
            half: Half::restored(&self.half),
            fresh: Half::restored(&self.fresh),
            begun: is_yes(self.begun),
        }
    }
}
