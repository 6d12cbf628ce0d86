//! The bytes of data that came to an initiator of its own processes, row by row (ANSI X3.131-1994, 6.4).
ghost use Rattle.std.specs.Prelude.{ℕ, ◌≡◌, ◌==◌, [], ◌∷◌, List, Some, true, take, IfOk};
ghost use Rattle.bus_trace.specs.declared.Row.{Row};
ghost use Rattle.bus_trace.specs.Terms.{connection as connection_after};
ghost use Rattle.scenario.specs.declared.value.CmdDef.{CmdDef};
ghost use Rattle.scenario.specs.Value.{ScenarioValue};
ghost use Rattle.due_model.specs.array_model.specs.Processes.{command_at};
ghost use Rattle.due_model.specs.dialogue_model.specs.Hearing.{hearing as hearing_in};
ghost use Rattle.due_model.specs.Plain.{AreOfDevices};
ghost use Rattle.due_model.specs.RunState.{item_of};
ghost use Rattle.due_model.specs.RunSteps.{run_state};
ghost use Rattle.due_model.specs.Telling.{id_of};
ghost use Rattle.initiator_books.specs.OwnLinks.{own_link};
ghost use Rattle.initiator.specs.Transfers.{active_of, IsTransfersOf};
ghost use Rattle.initiator.specs.Received.{empty_buffer, buffer_with, no_buffers, half_of, pair_with, pair_at, buffer_at, received_with, received_taken, data_room, room_of, buffers_if_own, nothing_received, brings_data, received_after, moved_of, AreReceived, undoes_no_byte};

use crate::transfers::Transfers;
use bus_base::{Dev, NoMemory, Octets, ProcId};
use bus_trace::{Connection, is_data};
use cdb_codec::{SENSE_LEN, from_cdb};
use due_model::the_dialogue_model::Hearing;
use due_model::{hearings_are_plain, kept_is_plain};
use scenario::{CmdDef, Scenario, is_write, need};
use std::alloc::Global;
use std::marker::Model;
use std::mem::replace;

// What came, from the first byte on, as far as there is room.
#[derive(Drop)]
struct Buffer {
    bytes: Vec<u8>,
    count: usize,
}

impl Model for Buffer {
    ghost use Rattle.std.specs.Prelude.{◌≤◌, length, take};
    ghost use Rattle.initiator.specs.Received.{BufferValue};

    ghost Value = { BufferValue };

    ghost view = { λ a. record { bytes = take a.count a.bytes.items; room = length a.bytes.items } };

    ghost invariant = { λ a. a.count ≤ length a.bytes.items };
}

impl Buffer {
    fn new(alloc: Global, room: usize) -> Result<Buffer, NoMemory>
        ensures { IfOk result (λ made. made ≡ empty_buffer room) }
    {
        let bytes = vec![in alloc; 0; room]?;
        Ok(Buffer { bytes, count: 0 })
    }

    // A byte comes to the place of one that came before, or to the next.
    fn put(&mut self, place: usize, byte: u8)
        ensures { self.new ≡ buffer_with self.old place byte }
    {
        if place < self.count {
            self.bytes[place] = byte;
        } else if place == self.count && place < self.bytes.len() {
            self.bytes[place] = byte;
            self.count += 1;
        }
    }

    fn bytes(&self) -> &[u8]
        ensures { result.now ≡ self.now.bytes }
    {
        &self.bytes[..self.count]
    }

    // All that came is handed out, and the room with it.
    fn take(&mut self, alloc: Global) -> Octets
        ensures bytes { result ≡ self.old.bytes }
        ensures rest { self.new ≡ empty_buffer 0 }
    {
        let count = self.count;
        self.count = 0;
        let mut bytes = replace(&mut self.bytes, Vec::new(alloc));
        bytes.truncate(count);
        Octets::new(bytes)
    }
}

// Of a command that for its own data, and that for those of its automatic REQUEST SENSE.
#[derive(Drop)]
struct BufferPair {
    command: Buffer,
    sense: Buffer,
}

impl Model for BufferPair {
    ghost use Rattle.initiator.specs.Received.{BufferPairValue};

    ghost Value = { BufferPairValue };

    ghost view = { λ a. record { command = a.command; sense = a.sense } };
}

impl BufferPair {
    fn new(alloc: Global, room: usize, sense_room: usize) -> Result<BufferPair, NoMemory>
        ensures { IfOk result (λ made. made ≡ record {
          command = empty_buffer room;
          sense = empty_buffer sense_room;
        }) }
    {
        let command = Buffer::new(alloc, room)?;
        let sense = Buffer::new(alloc, sense_room)?;
        Ok(BufferPair { command, sense })
    }

    fn put(&mut self, sense: bool, place: usize, byte: u8)
        ensures { self.new ≡ pair_with self.old sense place byte }
    {
        if sense {
            self.sense.put(place, byte);
        } else {
            self.command.put(place, byte);
        }
    }

    fn half(&self, sense: bool) -> &Buffer
        ensures { result.now ≡ half_of self.now sense }
    {
        if sense { &self.sense } else { &self.command }
    }
}

fn data_room(scenario: &Scenario, def: &CmdDef) -> u32
    ensures { result ≡ data_room scenario.now def.now }
{
    if is_write(from_cdb(def.cdb.as_slice())) {
        0
    } else {
        need(scenario, def)
    }
}

fn no_buffers(alloc: Global) -> Result<BufferPair, NoMemory>
    ensures { IfOk result (λ made. made ≡ no_buffers) }
{
    BufferPair::new(alloc, 0, 0)
}

fn buffers_if_own(
    alloc: Global,
    scenario: &Scenario,
    dev: Dev,
    def: &CmdDef,
) -> Result<BufferPair, NoMemory>
    ensures { IfOk result (λ made. made ≡ buffers_if_own scenario.now dev def.now) }
{
    if def.host != dev {
        return no_buffers(alloc);
    }
    BufferPair::new(alloc, data_room(scenario, def) as usize, SENSE_LEN)
}

fn all_buffers(alloc: Global, scenario: &Scenario, dev: Dev) -> Result<Vec<BufferPair>, NoMemory>
    ensures { IfOk result (λ made. made.items ≡ nothing_received scenario.now dev) }
{
    let mut made = Vec::new(alloc);
    made.push(no_buffers(alloc)?)?;
    for def in scenario.commands.as_slice() {
        made.push(buffers_if_own(alloc, scenario, dev, def)?)?;
    }
    Ok(made)
}

// A byte of data crosses in the row that told this, and the connection stays.
fn brings_data(hearing: &Hearing, after: &Option<Connection>) -> bool
    ensures { result ≡ brings_data hearing.now after.now }
{
    hearing.crosses
        && is_data(hearing.change.before)
        && after.is_some()
        && !hearing.change.after.rst()
}

/// The bytes of data that came to an initiator of its own processes.
#[derive(Drop)]
pub struct Received {
    // By the number of the command, from 1.
    pairs: Vec<BufferPair>,
}

impl Model for Received {
    ghost use Rattle.std.specs.Prelude.{List};
    ghost use Rattle.initiator.specs.Received.{BufferPairValue};

    ghost Value = { List BufferPairValue };

    ghost view = { λ a. a.pairs.items };
}

impl Received {
    /// Of this initiator, before any row. It takes all its memory here: room for the bytes that each of its commands
    /// reads, and for the sense data of each.
    pub fn new(alloc: Global, scenario: &Scenario, dev: Dev) -> Result<Received, NoMemory>
        ensures exact { IfOk result (λ made. made ≡ nothing_received scenario.now dev) }
        ensures trace { IfOk result (λ made. AreReceived scenario.now [] dev made) }
    {
        let pairs = all_buffers(alloc, scenario, dev)?;
        Ok(Received { pairs })
    }

    fn held(&self, id: ProcId) -> &[u8]
        ensures { result.now ≡ (buffer_at self.now id).bytes }
    {
        match self.pairs.get(id.command as usize) {
            None => &[],
            Some(pair) => pair.half(id.sense).bytes(),
        }
    }

    /// What came of this process, as far as there is room.
    pub fn bytes(&self, id: ProcId) -> &[u8]
        ensures value { result.now ≡ (buffer_at self.now id).bytes }
        ensures trace { (s : ScenarioValue) (rows : List Row) (dev : ℕ) (c : CmdDef) → AreReceived s rows dev self.now
            → command_at s.commands id.command ≡ Some c → (c.host == dev) ≡ true
            → result.now ≡ take (room_of s c id.sense) (moved_of (run_state s rows).story id).bytes }
    {
        self.held(id)
    }

    /// Those of a command, which are handed out, and its room with them; what came of all else stays.
    pub fn take(&mut self, alloc: Global, number: u16) -> Octets
        ensures bytes { result ≡ (pair_at self.old number).command.bytes }
        ensures rest { self.new ≡ received_taken self.old number }
        ensures sense { (pair_at self.new number).sense ≡ (pair_at self.old number).sense }
    {
        let place = number as usize;
        if place < self.pairs.len() {
            return self.pairs[place].command.take(alloc);
        }
        Octets::new(Vec::new(alloc))
    }

    fn put(&mut self, id: ProcId, place: usize, byte: u8)
        ensures { self.new ≡ received_with self.old id place byte }
    {
        let number = id.command as usize;
        if number < self.pairs.len() {
            self.pairs[number].put(id.sense, place, byte);
        }
    }

    fn after_row(
        &mut self,
        process: Option<ProcId>,
        place: u32,
        hearing: &Hearing,
        after: Option<Connection>,
    )
        ensures { self.new ≡ received_after self.old process place hearing.now after }
    {
        if let Some(id) = process {
            if brings_data(hearing, &after) {
                self.put(id, place as usize, hearing.change.after.data());
            }
        }
    }

    /// One more row, of any device, which told this, and after which this connection stands. `process` is that of the
    /// initiator's own connection before it, and `place` the active data pointer of that process before it. Where no
    /// MESSAGE PARITY ERROR takes back a byte of data, it has then what came, as far as there is room.
    pub fn see(
        &mut self,
        process: Option<ProcId>,
        place: u32,
        hearing: &Hearing,
        after: Option<Connection>,
    )
        ensures exact { self.new ≡ received_after self.old process place hearing.now after }
        ensures trace { (s : ScenarioValue) (rows : List Row) (row : Row) (dev : ℕ) → AreOfDevices (row ∷ rows)
            → hearing.now ≡ hearing_in rows row → after ≡ connection_after (row ∷ rows)
            → process ≡ id_of (item_of (own_link dev (connection_after rows) (run_state s rows).story.link))
            → place ≡ (active_of (run_state s rows) process).payload → undoes_no_byte s (row ∷ rows) ≡ true
            → AreReceived s rows dev self.old → AreReceived s (row ∷ rows) dev self.new }
    {
        kept_is_plain();
        hearings_are_plain();
        self.after_row(process, place, hearing, after);
    }
}

/// A row told this, after which this connection stands; the initiator has not gone on by it yet.
pub fn see_received(
    received: &mut Received,
    transfers: &Transfers,
    hearing: &Hearing,
    after: Option<Connection>,
)
    ensures { (s : ScenarioValue) (rows : List Row) (row : Row) → AreOfDevices (row ∷ rows)
        → hearing.now ≡ hearing_in rows row → after ≡ connection_after (row ∷ rows) → IsTransfersOf s rows transfers.now
        → undoes_no_byte s (row ∷ rows) ≡ true → AreReceived s rows transfers.now.dev received.old
        → AreReceived s (row ∷ rows) transfers.now.dev received.new }
{
    kept_is_plain();
    hearings_are_plain();
    if !brings_data(hearing, &after) {
        return;
    }
    let place = transfers.pointers().payload;
    received.see(transfers.process(), place, hearing, after);
}
