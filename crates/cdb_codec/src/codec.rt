//! From a command to its block, and back.
ghost use Rattle.std.specs.Prelude.{ℕ, ◌≡◌, ◌<◌, ◌^◌, List, length, Ok, IfOk};
ghost use Rattle.std.specs.List.{AllByRecursion};
ghost use Rattle.cdb_codec.specs.declared.command.Command.{Command};
ghost use Rattle.cdb_codec.specs.Cdb.{group_len, FitsCdb, FitsTypes, six_bytes, ten_bytes, cdb_bytes, has_group_len, without_ignored, command_of};

use crate::command::{CdbFault, Command};
use crate::fields::read_fields;
use crate::operation::{
    INQUIRY, READ_6, READ_10, READ_CAPACITY, REQUEST_SENSE, TEST_UNIT_READY, WRITE_6, WRITE_10,
    operation_of,
};
use arrayvec::ArrayVec;
use byteorder::{BigEndian, ByteOrder};

/// The length of a block, in bytes, by its first byte, whose three high bits are the group
/// (clause 7.2): 6 in group 0, 10 in group 1. No command of another group is known here.
pub fn group_len(first: u8) -> Option<usize>
    ensures { result ≡ group_len first }
{
    match first {
        0x00..=0x1f => Some(6),
        0x20..=0x3f => Some(10),
        _ => None,
    }
}

/// The block of a command, six bytes or ten, which reads back as the command. A block's number must
/// fit the field that holds it: 21 bits in READ(6) and WRITE(6).
pub fn to_cdb(command: &Command) -> ArrayVec<u8, 10>
    requires { FitsCdb command.now }
    ensures exact { result.items ≡ cdb_bytes command.now }
    ensures reads_back { command_of result.items ≡ Ok command.now }
{
    match command {
        Command::TestUnitReady => six_bytes(TEST_UNIT_READY, 0, 0),
        Command::RequestSense { room } => six_bytes(REQUEST_SENSE, 0, *room),
        Command::Read6 { lba, count } => six_bytes(READ_6, *lba, *count),
        Command::Write6 { lba, count } => six_bytes(WRITE_6, *lba, *count),
        Command::Inquiry { room } => six_bytes(INQUIRY, 0, *room),
        Command::ReadCapacity => ten_bytes(READ_CAPACITY, 0, 0),
        Command::Read10 { lba, count } => ten_bytes(READ_10, *lba, *count),
        Command::Write10 { lba, count } => ten_bytes(WRITE_10, *lba, *count),
    }
}

// A block of six bytes (clause 7.2): the block's number in 21 bits, and one byte more.
fn six_bytes(code: u8, lba: u32, last: u8) -> ArrayVec<u8, 10>
    requires { lba < 2 ^ 21 }
    ensures { result.items ≡ six_bytes code lba last }
{
    let mut bytes = ArrayVec::new();
    bytes.push(code);
    bytes.push((lba / 0x1_0000) as u8);
    bytes.push((lba / 0x100 % 0x100) as u8);
    bytes.push((lba % 0x100) as u8);
    bytes.push(last);
    bytes.push(0);
    bytes
}

// A block of ten bytes (clause 7.2): the block's number in 32 bits, and a count in 16.
fn ten_bytes(code: u8, lba: u32, count: u16) -> ArrayVec<u8, 10>
    ensures { result.items ≡ ten_bytes code lba count }
{
    let mut block = [0; 10];
    block[0] = code;
    BigEndian::write_u32(&mut block[2..], lba);
    BigEndian::write_u16(&mut block[7..], count);
    ArrayVec::from(block)
}

/// The command that a block says, or the first fault that applies: an operation code that is none of
/// ours, a length that is not its group's, a bit that must be 0. No bytes at all have no operation
/// code to look at: they are a fault of length.
///
/// # Examples
///
/// ```rust
/// // READ(6) of one block, block 0.
/// let command = Command::Read6 { lba: 0, count: 1 };
/// assert!(rt; from_cdb(&[0x08, 0, 0, 0, 1, 0]) == Ok(command));
/// // A byte is missing; MODE SELECT(6) is no command that is known.
/// assert!(rt; from_cdb(&[0x08, 0, 0, 0, 1]) == Err(CdbFault::Length));
/// assert!(rt; from_cdb(&[0x15, 0, 0, 0, 0, 0]) == Err(CdbFault::Opcode));
/// ```
pub fn from_cdb(bytes: &[u8]) -> Result<Command, CdbFault>
    ensures exact { result ≡ command_of bytes.now }
    ensures fits { IfOk result FitsCdb }
{
    let Some(first) = bytes.first() else {
        return Err(CdbFault::Length);
    };
    let Some(operation) = operation_of(*first) else {
        return Err(CdbFault::Opcode);
    };
    if !has_group_len(bytes) {
        return Err(CdbFault::Length);
    }
    read_fields(operation, bytes)
}

/// Whether there are as many bytes as the group of the first one has.
pub fn has_group_len(bytes: &[u8]) -> bool
    requires { 0 < length bytes.now }
    ensures { result ≡ has_group_len bytes.now }
{
    match group_len(bytes[0]) {
        Some(len) => len == bytes.len(),
        None => false,
    }
}

/// Reading the block of a command gives that command.
pub fn reads_back()
    ensures { (c : Command) → FitsCdb c → FitsTypes c → command_of (cdb_bytes c) ≡ Ok c }
{}

/// A block that is read is the block of the command that it says, but for the bits of byte 1 that
/// are ignored.
pub fn reads_only()
    ensures { (bytes : List ℕ) (c : Command) → AllByRecursion (λ b. b < 256) bytes → command_of bytes ≡ Ok c
        → cdb_bytes c ≡ without_ignored bytes }
{}

/// The bits of byte 1 that are ignored change nothing: the three high ones, which once held a unit's
/// number, and in READ(10) and WRITE(10) also bits 4 and 3, DPO and FUA.
pub fn ignores()
    ensures { (bytes : List ℕ) → command_of (without_ignored bytes) ≡ command_of bytes }
{}
