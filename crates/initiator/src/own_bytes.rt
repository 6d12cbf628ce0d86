// The bytes that an initiator sends of its own commands.
ghost use Rattle.std.specs.Prelude.{◌≡◌, ◌-◌, ◌^◌, min, ◌∷◌, [], slice_index_or, IfOk};
ghost use Rattle.scenario.specs.Needs.{sent_of, is_write, sent_count};
ghost use Rattle.due_model.specs.array_model.specs.Processes.{bytes_from, payload_bytes, sense_block};
ghost use Rattle.initiator.specs.OwnBytes.{no_bytes, sense_bytes, bytes_of_command, bytes_if_own, bytes_of_commands, own_bytes, bytes_of};

use bus_base::{Dev, NoMemory, ProcId};
use cdb_codec::{CdbFault, Command, REQUEST_SENSE, SENSE_LEN, from_cdb};
use scenario::{CmdDef, Payload, Scenario, need, sent_count};
use std::alloc::Global;
use std::marker::Model;

/// The bytes that an initiator sends of a command: its command descriptor block, and its data.
#[derive(Drop)]
pub struct CommandBytes {
    cdb: Vec<u8>,
    sent: Vec<u8>,
}

impl Model for CommandBytes {
    ghost use Rattle.initiator.specs.OwnBytes.{CommandBytesValue};

    ghost Value = { CommandBytesValue };

    ghost view = { λ a. record { cdb = a.cdb.items; sent = a.sent.items } };
}

impl CommandBytes {
    fn none(alloc: Global) -> CommandBytes
        ensures { result ≡ no_bytes }
    {
        CommandBytes {
            cdb: Vec::new(alloc),
            sent: Vec::new(alloc),
        }
    }

    /// The command descriptor block.
    pub fn cdb(&self) -> &[u8]
        ensures { result.now ≡ self.now.cdb }
    {
        self.cdb.as_slice()
    }

    /// The data.
    pub fn sent(&self) -> &[u8]
        ensures { result.now ≡ self.now.sent }
    {
        self.sent.as_slice()
    }
}

// This byte, and then each one more than the last, modulo 256.
#[tactic(auto, using(crate::proofs::ByteRuns::one_byte_more, crate::proofs::ByteRuns::next_byte, crate::proofs::ByteRuns::all_bytes_made))]
fn counted_bytes(alloc: Global, first: u8, count: u32) -> Result<Vec<u8>, NoMemory>
    ensures { IfOk result (λ made. made.items ≡ bytes_from first count) }
{
    let mut bytes = Vec::with_capacity(alloc, count as usize)?;
    let mut byte = first;
    for _ in 0..count {
        bytes.push(byte)?;
        byte = byte.wrapping_add(1);
    }
    Ok(bytes)
}

fn payload(alloc: Global, payload: &Payload, count: u32) -> Result<Vec<u8>, NoMemory>
    ensures { IfOk result (λ made. made.items ≡ payload_bytes payload.now count) }
{
    match payload {
        Payload::Nothing => Ok(Vec::new(alloc)),
        Payload::Hex(bytes) => Ok(Vec::from_slice(alloc, bytes.as_slice())?),
        Payload::From(first) => counted_bytes(alloc, *first, count),
    }
}

fn command_bytes(
    alloc: Global,
    scenario: &Scenario,
    dev: Dev,
    def: &CmdDef,
) -> Result<CommandBytes, NoMemory>
    ensures { IfOk result (λ made. made ≡ bytes_if_own scenario.now dev def.now) }
{
    if def.host != dev {
        return Ok(CommandBytes::none(alloc));
    }
    let cdb = Vec::from_slice(alloc, def.cdb.as_slice())?;
    let sent = payload(alloc, &def.payload, sent_count(scenario, def))?;
    Ok(CommandBytes { cdb, sent })
}

// Of each command, by its number, from 1.
fn all_bytes(alloc: Global, scenario: &Scenario, dev: Dev) -> Result<Vec<CommandBytes>, NoMemory>
    ensures { IfOk result (λ made. made.items ≡ own_bytes scenario.now dev) }
{
    let mut made = Vec::new(alloc);
    made.push(CommandBytes::none(alloc))?;
    for def in scenario.commands.as_slice() {
        made.push(command_bytes(alloc, scenario, dev, def)?)?;
    }
    Ok(made)
}

// The command descriptor block of an automatic REQUEST SENSE has room for all sense data (8.2.14).
fn sense_bytes(alloc: Global) -> Result<CommandBytes, NoMemory>
    ensures { IfOk result (λ made. made ≡ sense_bytes) }
{
    let block = [REQUEST_SENSE, 0x00, 0x00, 0x00, SENSE_LEN as u8, 0x00];
    let cdb = Vec::from_slice(alloc, block.as_slice())?;
    Ok(CommandBytes {
        cdb,
        sent: Vec::new(alloc),
    })
}

/// The bytes that an initiator sends of its own processes.
#[derive(Drop)]
pub struct OwnBytes {
    none: CommandBytes,
    sense: CommandBytes,
    // By the number of the command, from 1.
    commands: Vec<CommandBytes>,
}

impl Model for OwnBytes {
    ghost use Rattle.std.specs.Prelude.{◌≡◌, List};
    ghost use Rattle.initiator.specs.OwnBytes.{CommandBytesValue, no_bytes, sense_bytes};

    ghost Value = { List CommandBytesValue };

    ghost view = { λ a. a.commands.items };

    ghost invariant = { λ a. (a.none ≡ no_bytes) × (a.sense ≡ sense_bytes) };
}

impl OwnBytes {
    /// Those of the commands of this initiator, and of their automatic REQUEST SENSE. It takes all their memory.
    pub fn new(alloc: Global, scenario: &Scenario, dev: Dev) -> Result<OwnBytes, NoMemory>
        ensures { IfOk result (λ made. made ≡ own_bytes scenario.now dev) }
    {
        let none = CommandBytes::none(alloc);
        let sense = sense_bytes(alloc)?;
        let commands = all_bytes(alloc, scenario, dev)?;
        Ok(OwnBytes {
            none,
            sense,
            commands,
        })
    }

    /// Those of a process; of none there are none.
    pub fn of(&self, id: Option<ProcId>) -> &CommandBytes
        ensures { result.now ≡ bytes_of self.now id }
    {
        match id {
            None => &self.none,
            Some(id) if id.sense => &self.sense,
            Some(id) => match self.commands.get(id.command as usize) {
                Some(bytes) => bytes,
                None => &self.none,
            },
        }
    }
}
