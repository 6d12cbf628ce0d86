//! What a command needs.
ghost use Rattle.std.specs.Prelude.{◌≡◌, ◌-◌, ◌^◌, min, length};
ghost use Rattle.scenario.specs.Needs.{block_bytes, capacity_len, moved, moved_by, counted_bytes, tape_moved, tape_moved_by, need_at, need_of, is_write, sent_of, sent_count};
ghost use Rattle.scenario.specs.Reading.{is_payload, has_room};

use crate::bounds::{COMMAND_LIMIT, NEED_LIMIT, NEEDS_LIMIT};
use crate::value::{CmdDef, Payload, Scenario, UnitDef};
use cdb_codec::{
    CAPACITY_LEN, CdbFault, Command, INQUIRY_LEN, SENSE_LEN, TapeCommand, blocks_moved, from_cdb,
    tape_cdb,
};

fn block_bytes(unit: Option<UnitDef>, lba: u32, count: u32) -> u64
    ensures { result ≡ block_bytes unit lba count }
{
    match unit {
        None => 0,
        Some(unit) => {
            if u64::from(lba) + u64::from(count) <= unit.blocks {
                u64::from(count) * u64::from(unit.size)
            } else {
                0
            }
        }
    }
}

fn capacity_len(unit: Option<UnitDef>) -> u64
    ensures { result ≡ capacity_len unit }
{
    match unit {
        None => 0,
        Some(_) => CAPACITY_LEN as u64,
    }
}

fn moved(command: &Command, unit: Option<UnitDef>) -> u64
    ensures { result ≡ moved command.now unit }
{
    match command {
        Command::TestUnitReady => 0,
        Command::RequestSense { room } => u64::from(*room).min(SENSE_LEN as u64),
        Command::Read6 { lba, count: _ } => block_bytes(unit, *lba, blocks_moved(command)),
        Command::Write6 { lba, count: _ } => block_bytes(unit, *lba, blocks_moved(command)),
        Command::Inquiry { room } => u64::from(*room).min(INQUIRY_LEN as u64),
        Command::ReadCapacity => capacity_len(unit),
        Command::Read10 { lba, count } => block_bytes(unit, *lba, u32::from(*count)),
        Command::Write10 { lba, count } => block_bytes(unit, *lba, u32::from(*count)),
    }
}

fn moved_by(command: Result<Command, CdbFault>, unit: Option<UnitDef>) -> u64
    ensures { result ≡ moved_by command unit }
{
    match command {
        Ok(command) => moved(&command, unit),
        Err(_) => 0,
    }
}

// The bytes of so many blocks of a tape.
fn counted_bytes(unit: Option<UnitDef>, count: u32) -> u64
    ensures { result ≡ counted_bytes unit count }
{
    match unit {
        None => 0,
        Some(unit) => u64::from(count) * u64::from(unit.size),
    }
}

fn tape_moved(command: &TapeCommand, unit: Option<UnitDef>) -> u64
    ensures { result ≡ tape_moved command.now unit }
{
    match command {
        TapeCommand::TestUnitReady => 0,
        TapeCommand::Rewind => 0,
        TapeCommand::RequestSense { room } => u64::from(*room).min(SENSE_LEN as u64),
        TapeCommand::Read { count } => counted_bytes(unit, *count),
        TapeCommand::Write { count } => counted_bytes(unit, *count),
        TapeCommand::Inquiry { room } => u64::from(*room).min(INQUIRY_LEN as u64),
        TapeCommand::Filemarks { count: _ } => 0,
        TapeCommand::Space { code: _, count: _ } => 0,
    }
}

fn tape_moved_by(command: Result<TapeCommand, CdbFault>, unit: Option<UnitDef>) -> u64
    ensures { result ≡ tape_moved_by command unit }
{
    match command {
        Ok(command) => tape_moved(&command, unit),
        Err(_) => 0,
    }
}

fn need_at(is_tape: bool, cdb: &[u8], unit: Option<UnitDef>) -> u64
    ensures { result ≡ need_at is_tape cdb.now unit }
{
    if is_tape {
        tape_moved_by(tape_cdb(cdb), unit)
    } else {
        moved_by(from_cdb(cdb), unit)
    }
}

/// How many bytes the command needs.
#[tactic(auto, unfolding(crate::specs::Needs::need_of))]
pub(crate) fn need_of(scenario: &Scenario, command: &CmdDef) -> u64
    ensures { result ≡ need_of scenario.now command.now }
{
    if scenario.has_target(command.target) {
        let unit = scenario.unit(command.target, command.unit);
        let is_tape = scenario.is_tape(command.target, command.unit);
        need_at(is_tape, command.cdb.as_slice(), unit)
    } else {
        0
    }
}

/// Whether it is a write without fault.
pub fn is_write(command: Result<Command, CdbFault>) -> bool
    ensures { result ≡ is_write command }
{
    match command {
        Ok(Command::Write6 { lba: _, count: _ }) => true,
        Ok(Command::Write10 { lba: _, count: _ }) => true,
        _ => false,
    }
}

/// How many bytes the initiator of the command has to send.
#[tactic(auto, unfolding(crate::specs::Needs::sent_of))]
pub(crate) fn sent_of(scenario: &Scenario, command: &CmdDef) -> u64
    ensures { result ≡ sent_of scenario.now command.now }
{
    if is_write(from_cdb(command.cdb.as_slice())) {
        need_of(scenario, command)
    } else {
        0
    }
}

/// Whether a command that has to send so many bytes has this to send.
pub(crate) fn is_payload(len: u64, payload: &Payload) -> bool
    ensures { result ≡ is_payload len payload.now }
{
    match payload {
        Payload::Nothing => len == 0,
        Payload::Hex(bytes) => 0 < len && bytes.as_slice().len() as u64 == len,
        Payload::From(_) => 0 < len,
    }
}

/// Whether there is room for one command more, which needs `need` bytes, those before needing `needs`.
pub(crate) fn has_room(scenario: &Scenario, needs: u32, need: u64) -> bool
    ensures { result ≡ has_room scenario.now needs need }
{
    scenario.commands.len() < COMMAND_LIMIT
        && need <= NEED_LIMIT
        && u64::from(needs) + need <= NEEDS_LIMIT
}

/// How many bytes a command of the scenario needs: those that its block moves. It is none where the
/// block has a fault, the target or unit is absent, or a disk has not all of the blocks; REQUEST
/// SENSE and INQUIRY need theirs at an absent unit too. At a tape it is what READ and WRITE count, of which less may
/// move. A number that does not fit is told as the highest, which comes only for a scenario that breaks the rules.
pub fn need(s: &Scenario, c: &CmdDef) -> u32
    ensures { result ≡ min (need_of s.now c.now) (2 ^ 32 - 1) }
{
    need_of(s, c).min(u64::from(u32::MAX)) as u32
}

/// How many bytes the initiator of a command sends: those that it needs, where it is a write. A number that does
/// not fit is told as the highest.
#[tactic(auto, unfolding(crate::specs::Needs::sent_of))]
pub fn sent_count(scenario: &Scenario, def: &CmdDef) -> u32
    ensures { result ≡ sent_count scenario.now def.now }
{
    if is_write(from_cdb(def.cdb.as_slice())) {
        need(scenario, def)
    } else {
        0
    }
}
