//! What the connection that stands has carried so far.
ghost use Rattle.std.specs.Prelude.{◌≡◌, [], ◌∷◌, ◌++◌, List, OnOk, true};
ghost use Rattle.bus_phases.specs.Half.{is_nil};
ghost use Rattle.story_model.specs.CarriedBytes.{is_status_phase};
ghost use Rattle.story_model.specs.TraceHistory.{is_parity_error};
ghost use Rattle.bus_transcript.specs.Opened.{opened_connection, with_part, incoming_part, held_part, settled, with_out, with_all_out, with_in, spoken, broken_off, data_parts, phase_parts, with_phase, phase_over, phase_entered, messages_of, with_said, with_in_if, with_crossing, is_complete, is_completion, with_fault, with_still_row, with_row};

use crate::bus::{Bus, Reading};
use crate::part::{Incoming, Part};
use bus_base::Octets;
use bus_phases::Half;
use bus_trace::{
    Change, Connection, Kind, Lines, changes_phase, is_command, is_data, is_fault, is_message_in,
    is_message_out, rises,
};
use msg_grammar::{MsgIn, MsgOut};
use std::alloc::{AllocError, Global};
use std::collections::VecDeque;
use std::marker::Model;
use story_model::{is_parity_error, is_status_phase};

/// The connection that stands.
#[derive(Drop)]
pub(crate) struct Opened {
    connection: Connection,
    /// The parts that are settled.
    parts: VecDeque<Part>,
    /// A MESSAGE IN message that is the last message, and the parts after it.
    held: Option<Incoming>,
    since: VecDeque<Part>,
    /// The messages of the present MESSAGE OUT phase.
    said: Vec<MsgOut>,
    /// The bytes of the present COMMAND or DATA phase, and whether a fault struck one.
    bytes: Vec<u8>,
    struck: bool,
}

impl Model for Opened {
    ghost use Rattle.bus_transcript.specs.Opened.{OpenedValue};

    ghost Value = { OpenedValue };

    ghost view = { λ a. record {
      connection = a.connection;
      parts = a.parts.items;
      held = a.held;
      since = a.since.items;
      said = a.said.items;
      bytes = a.bytes.items;
      struck = a.struck;
    } };
}

fn is_complete(message: Option<Incoming>) -> bool
    ensures { result ≡ is_complete message }
{
    match message {
        Some(Incoming::Whole(MsgIn::CommandComplete)) => true,
        _ => false,
    }
}

fn incoming_part(message: Incoming) -> Part
    ensures { result ≡ incoming_part message }
{
    match message {
        Incoming::Whole(message) => Part::In(message),
        Incoming::Broken => Part::BrokenOff,
    }
}

impl Opened {
    /// A connection begins.
    pub(crate) fn new(alloc: Global, connection: Connection) -> Opened
        ensures { result ≡ opened_connection connection }
    {
        Opened {
            connection,
            parts: VecDeque::new(alloc),
            held: None,
            since: VecDeque::new(alloc),
            said: Vec::new(alloc),
            bytes: Vec::new(alloc),
            struck: false,
        }
    }

    /// The connection.
    pub(crate) fn connection(&self) -> Connection
        ensures { result ≡ self.now.connection }
    {
        self.connection
    }

    /// The parts that are settled, and nothing else of it.
    pub(crate) fn into_parts(self) -> VecDeque<Part>
        ensures { result.items ≡ self.parts }
    {
        self.parts
    }

    fn add(&mut self, part: Part) -> Result<(), AllocError>
        ensures { OnOk result (self.new ≡ with_part self.old part) }
    {
        self.since.push_back(part)?;
        Ok(())
    }

    // The next message is there; the one that was held is void or not.
    pub(crate) fn settle(&mut self, void: bool) -> Result<(), AllocError>
        ensures { OnOk result (self.new ≡ settled self.old void) }
    {
        if !void && let Some(message) = self.held {
            self.parts.push_back(incoming_part(message))?;
        }
        self.held = None;
        self.parts.append(&mut self.since)?;
        Ok(())
    }

    fn with_out(&mut self, message: MsgOut) -> Result<(), AllocError>
        ensures { OnOk result (self.new ≡ with_out self.old message) }
    {
        self.settle(is_parity_error(message))?;
        self.add(Part::Out(message))
    }

    fn with_all_out(&mut self, messages: &[MsgOut]) -> Result<(), AllocError>
        ensures { OnOk result (self.new ≡ with_all_out self.old messages.now) }
    {
        for message in messages {
            self.with_out(*message)?;
        }
        Ok(())
    }

    fn with_in(&mut self, message: Incoming) -> Result<(), AllocError>
        ensures { OnOk result (self.new ≡ with_in self.old message) }
    {
        self.settle(false)?;
        self.held = Some(message);
        Ok(())
    }

    /// The messages of MESSAGE OUT stand.
    pub(crate) fn speak(&mut self, alloc: Global) -> Result<(), AllocError>
        ensures { OnOk result (self.new ≡ spoken self.old) }
    {
        let said = std::mem::replace(&mut self.said, Vec::new(alloc));
        self.with_all_out(&said)
    }

    fn break_off(&mut self, lines: Lines, half: &Half) -> Result<(), AllocError>
        ensures { OnOk result (self.new ≡ broken_off self.old lines half.now) }
    {
        if is_message_in(lines) && !half.is_empty() {
            self.with_in(Incoming::Broken)?;
        }
        Ok(())
    }

    // The bytes and the parts that they make, in the phase of these lines.
    fn end_phase(&mut self, alloc: Global, lines: Lines, left: bool) -> Result<(), AllocError>
        ensures { OnOk result (self.new ≡ with_phase self.old lines left) }
    {
        let bytes = std::mem::replace(&mut self.bytes, Vec::new(alloc));
        let struck = self.struck;
        self.struck = false;
        if is_command(lines) {
            return self.add(Part::Command(Octets::new(bytes), struck, left));
        }
        if is_data(lines) && !bytes.is_empty() {
            return self.add(Part::Data(!lines.io(), Octets::new(bytes)));
        }
        Ok(())
    }

    /// The phase of these lines is over: it was left by them, or BSY fell or RST rose.
    pub(crate) fn finish_phase(
        &mut self,
        alloc: Global,
        lines: Lines,
        half: &Half,
        left: bool,
    ) -> Result<(), AllocError>
        ensures { OnOk result (self.new ≡ phase_over self.old lines half.now left) }
    {
        self.speak(alloc)?;
        self.break_off(lines, half)?;
        self.end_phase(alloc, lines, left)
    }

    fn enter_phase(&mut self, lines: Lines) -> Result<(), AllocError>
        ensures { OnOk result (self.new ≡ phase_entered self.old lines) }
    {
        if is_status_phase(lines) {
            self.add(Part::StatusPhase)?;
        }
        Ok(())
    }

    fn say(&mut self, anew: bool, out: Option<MsgOut>) -> Result<(), AllocError>
        ensures { OnOk result (self.new ≡ with_said self.old anew out) }
    {
        if anew {
            self.said.clear();
        }
        if let Some(message) = out {
            self.said.push(message)?;
        }
        Ok(())
    }

    fn hear(&mut self, into: Option<MsgIn>) -> Result<(), AllocError>
        ensures { OnOk result (self.new ≡ with_in_if self.old into) }
    {
        match into {
            None => Ok(()),
            Some(message) => self.with_in(Incoming::Whole(message)),
        }
    }

    fn take_byte(&mut self, byte: u8) -> Result<(), AllocError>
        ensures { OnOk result (self.new ≡ record self.old { bytes = self.old.bytes ++ byte ∷ [] }) }
    {
        self.bytes.push(byte)?;
        Ok(())
    }

    // A byte crosses; in MESSAGE OUT it may begin the bytes of the phase anew.
    fn cross(&mut self, anew: bool, reading: &Reading) -> Result<(), AllocError>
        ensures { OnOk result (self.new ≡ with_crossing self.old anew reading.now) }
    {
        let lines = reading.change.before;
        let byte = reading.change.after.data();
        if is_message_out(lines) {
            self.say(anew, reading.out)
        } else if is_message_in(lines) {
            self.hear(reading.into)
        } else if is_status_phase(lines) {
            self.add(Part::Status(byte))
        } else {
            self.take_byte(byte)
        }
    }

    fn is_completion(&self, half: &Half, change: &Change) -> bool
        ensures { result ≡ is_completion self.now half.now change.now }
    {
        rises(change.before.ack(), change.after.ack())
            && is_message_in(change.before)
            && is_complete(self.held)
            && half.is_empty()
            && !change.after.atn()
    }

    fn strike(&mut self, strikes: bool)
        ensures { self.new ≡ with_fault self.old strikes }
    {
        self.struck = self.struck || strikes;
    }

    fn stay(&mut self, bus: &Bus, change: &Change, kind: Kind) -> Result<(), AllocError>
        ensures { OnOk result (self.new ≡ with_still_row self.old bus.now change.now kind) }
    {
        if self.is_completion(&bus.dialogue().half, change) {
            return self.add(Part::Completion);
        }
        self.strike(is_fault(kind) && bus.has_crossed());
        Ok(())
    }

    fn change_phase(
        &mut self,
        alloc: Global,
        change: &Change,
        half: &Half,
    ) -> Result<(), AllocError>
        ensures { OnOk result (self.new
            ≡ phase_entered (phase_over self.old change.now.before half.now true) change.now.after) }
    {
        self.finish_phase(alloc, change.before, half, true)?;
        self.enter_phase(change.after)
    }

    /// One row more of the connection, by the bus before it.
    pub(crate) fn see(
        &mut self,
        alloc: Global,
        bus: &Bus,
        reading: &Reading,
        kind: Kind,
    ) -> Result<(), AllocError>
        ensures { OnOk result (self.new ≡ with_row self.old bus.now reading.now kind) }
    {
        if reading.crosses {
            self.cross(bus.dialogue().is_last, reading)
        } else if changes_phase(&reading.change) {
            self.change_phase(alloc, &reading.change, &bus.dialogue().half)
        } else {
            self.stay(bus, &reading.change, kind)
        }
    }
}
