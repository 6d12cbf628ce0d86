//! The fields of a block whose operation and length are right. What no field names must be 0, and
//! so must control, the last byte (clause 7.2.7). The three high bits of byte 1, once a unit's
//! number, are ignored.
ghost use Rattle.std.specs.Prelude.{◌≡◌, ◌<◌, ◌^◌, length, IfOk};
ghost use Rattle.cdb_codec.specs.Operations.{len_of};
ghost use Rattle.cdb_codec.specs.Cdb.{FitsCdb, are_zero, where_zero, test_unit_ready_of, spare_room, request_sense_of, inquiry_of, read6_of, write6_of, lba_6, read_capacity_of, lba_10, count_10, spare_10, read10_of, write10_of, fields_of};

use crate::command::{CdbFault, Command};
use crate::operation::Operation;
use byteorder::{BigEndian, ByteOrder};

/// The command of a block of this operation, as long as its group has it.
pub fn read_fields(operation: Operation, bytes: &[u8]) -> Result<Command, CdbFault>
    requires { length bytes.now ≡ len_of operation }
    ensures exact { result ≡ fields_of operation bytes.now }
    ensures fits { IfOk result FitsCdb }
{
    match operation {
        Operation::TestUnitReady => test_unit_ready(bytes),
        Operation::RequestSense => request_sense(bytes),
        Operation::Read6 => read6(bytes),
        Operation::Write6 => write6(bytes),
        Operation::Inquiry => inquiry(bytes),
        Operation::ReadCapacity => read_capacity(bytes),
        Operation::Read10 => read10(bytes),
        Operation::Write10 => write10(bytes),
    }
}

// The command, if each of the bytes that no field names is 0.
fn where_zero(spare: &[u8], command: Command) -> Result<Command, CdbFault>
    ensures { result ≡ where_zero spare.now command }
{
    if are_zero(spare) {
        Ok(command)
    } else {
        Err(CdbFault::Field)
    }
}

/// Whether each byte is 0.
pub fn are_zero(spare: &[u8]) -> bool
    ensures { result ≡ are_zero spare.now }
{
    spare.iter().all(|byte| *byte == 0)
}

// TEST UNIT READY, clause 8.2.16.
fn test_unit_ready(bytes: &[u8]) -> Result<Command, CdbFault>
    requires { length bytes.now ≡ 6 }
    ensures { result ≡ test_unit_ready_of bytes.now }
{
    let spare = [bytes[1] % 0x20, bytes[2], bytes[3], bytes[4], bytes[5]];
    where_zero(&spare, Command::TestUnitReady)
}

/// What no field names where byte 4 says how many bytes there is room for.
pub fn spare_room(bytes: &[u8]) -> [u8; 4]
    requires { length bytes.now ≡ 6 }
    ensures { result ≡ spare_room bytes.now }
{
    [bytes[1] % 0x20, bytes[2], bytes[3], bytes[5]]
}

// REQUEST SENSE, clause 8.2.14.
fn request_sense(bytes: &[u8]) -> Result<Command, CdbFault>
    requires { length bytes.now ≡ 6 }
    ensures { result ≡ request_sense_of bytes.now }
{
    where_zero(&spare_room(bytes), Command::RequestSense { room: bytes[4] })
}

// INQUIRY, clause 8.2.5.
fn inquiry(bytes: &[u8]) -> Result<Command, CdbFault>
    requires { length bytes.now ≡ 6 }
    ensures { result ≡ inquiry_of bytes.now }
{
    where_zero(&spare_room(bytes), Command::Inquiry { room: bytes[4] })
}

// READ(6), clause 9.2.5.
fn read6(bytes: &[u8]) -> Result<Command, CdbFault>
    requires { length bytes.now ≡ 6 }
    ensures exact { result ≡ read6_of bytes.now }
    ensures fits { IfOk result FitsCdb }
{
    let lba = lba_6(bytes);
    let count = bytes[4];
    where_zero(&[bytes[5]], Command::Read6 { lba, count })
}

// WRITE(6), clause 9.2.20.
fn write6(bytes: &[u8]) -> Result<Command, CdbFault>
    requires { length bytes.now ≡ 6 }
    ensures exact { result ≡ write6_of bytes.now }
    ensures fits { IfOk result FitsCdb }
{
    let lba = lba_6(bytes);
    let count = bytes[4];
    where_zero(&[bytes[5]], Command::Write6 { lba, count })
}

// The 21 bits of a block's number: the low five of byte 1, and bytes 2 and 3.
fn lba_6(bytes: &[u8]) -> u32
    requires { length bytes.now ≡ 6 }
    ensures exact { result ≡ lba_6 bytes.now }
    ensures fits { result < 2 ^ 21 }
{
    let high = u32::from(bytes[1] % 0x20);
    high * 0x1_0000 + u32::from(bytes[2]) * 0x100 + u32::from(bytes[3])
}

// READ CAPACITY, clause 9.2.7: RelAdr, the block and PMI must be 0.
fn read_capacity(bytes: &[u8]) -> Result<Command, CdbFault>
    requires { length bytes.now ≡ 10 }
    ensures { result ≡ read_capacity_of bytes.now }
{
    let spare = [
        bytes[1] % 0x20,
        bytes[2],
        bytes[3],
        bytes[4],
        bytes[5],
        bytes[6],
        bytes[7],
        bytes[8],
        bytes[9],
    ];
    where_zero(&spare, Command::ReadCapacity)
}

// READ(10), clause 9.2.6.
fn read10(bytes: &[u8]) -> Result<Command, CdbFault>
    requires { length bytes.now ≡ 10 }
    ensures { result ≡ read10_of bytes.now }
{
    let lba = lba_10(bytes);
    let count = count_10(bytes);
    where_zero(&spare_10(bytes), Command::Read10 { lba, count })
}

// WRITE(10), clause 9.2.21.
fn write10(bytes: &[u8]) -> Result<Command, CdbFault>
    requires { length bytes.now ≡ 10 }
    ensures { result ≡ write10_of bytes.now }
{
    let lba = lba_10(bytes);
    let count = count_10(bytes);
    where_zero(&spare_10(bytes), Command::Write10 { lba, count })
}

// What no field of READ(10) and WRITE(10) names. Bits 4 and 3 of byte 1, DPO and FUA, are ignored
// too.
fn spare_10(bytes: &[u8]) -> [u8; 3]
    requires { length bytes.now ≡ 10 }
    ensures { result ≡ spare_10 bytes.now }
{
    [bytes[1] % 0x08, bytes[6], bytes[9]]
}

// The 32 bits of a block's number: bytes 2 to 5.
fn lba_10(bytes: &[u8]) -> u32
    requires { length bytes.now ≡ 10 }
    ensures { result ≡ lba_10 bytes.now }
{
    BigEndian::read_u32(&bytes[2..])
}

// The 16 bits of a count: bytes 7 and 8.
fn count_10(bytes: &[u8]) -> u16
    requires { length bytes.now ≡ 10 }
    ensures { result ≡ count_10 bytes.now }
{
    BigEndian::read_u16(&bytes[7..])
}
