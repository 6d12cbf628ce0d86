//! The fields of a tape's block whose operation and length are right. What no field names must be 0, and so
//! must control, the last byte (clause 7.2.7). The three high bits of byte 1, once a unit's number, are
//! ignored.
ghost use Rattle.std.specs.Prelude.{◌≡◌, ◌<◌, ◌^◌, length, IfOk};
ghost use Rattle.cdb_codec.specs.Cdb.{are_zero, spare_room};
ghost use Rattle.cdb_codec.specs.TapeCdb.{FitsSigned24, FitsTape, is_space_code, tape_where_zero, low_bits, above_immed, count_6, signed_count_6, tape_ready_of, rewind_of, tape_request_sense_of, tape_inquiry_of, fixed_of, tape_read_of, tape_write_of, filemarks_of, space_of, tape_fields_of};

use crate::command::CdbFault;
use crate::fields::{are_zero, spare_room};
use crate::tape_command::TapeCommand;
use crate::tape_operation::{SPACE_BLOCKS, SPACE_END_OF_DATA, SPACE_FILEMARKS, TapeOperation};
use byteorder::{BigEndian, ByteOrder};

/// The command of a block of this operation, as long as its group has it.
pub fn tape_fields(operation: TapeOperation, bytes: &[u8]) -> Result<TapeCommand, CdbFault>
    requires { length bytes.now ≡ 6 }
    ensures exact { result ≡ tape_fields_of operation bytes.now }
    ensures fits { IfOk result FitsTape }
{
    match operation {
        TapeOperation::TestUnitReady => tape_ready(bytes),
        TapeOperation::Rewind => rewind(bytes),
        TapeOperation::RequestSense => tape_request_sense(bytes),
        TapeOperation::Read => tape_read(bytes),
        TapeOperation::Write => tape_write(bytes),
        TapeOperation::Filemarks => filemarks(bytes),
        TapeOperation::Space => space(bytes),
        TapeOperation::Inquiry => tape_inquiry(bytes),
    }
}

// The command, if each of the bytes that no field names is 0.
fn tape_where_zero(spare: &[u8], command: TapeCommand) -> Result<TapeCommand, CdbFault>
    ensures { result ≡ tape_where_zero spare.now command }
{
    if are_zero(spare) {
        Ok(command)
    } else {
        Err(CdbFault::Field)
    }
}

// The low five bits of byte 1.
fn low_bits(bytes: &[u8]) -> u8
    requires { length bytes.now ≡ 6 }
    ensures { result ≡ low_bits bytes.now }
{
    bytes[1] % 0x20
}

// Those above bit 0, Immed.
fn above_immed(bytes: &[u8]) -> u8
    requires { length bytes.now ≡ 6 }
    ensures { result ≡ above_immed bytes.now }
{
    low_bits(bytes) / 2
}

// The 24 bits of a count: bytes 2 to 4.
fn count_6(bytes: &[u8]) -> u32
    requires { length bytes.now ≡ 6 }
    ensures exact { result ≡ count_6 bytes.now }
    ensures fits { result < 2 ^ 24 }
{
    BigEndian::read_u24(&bytes[2..])
}

// The same in two's complement.
fn signed_count_6(bytes: &[u8]) -> i32
    requires { length bytes.now ≡ 6 }
    ensures exact { result ≡ signed_count_6 bytes.now }
    ensures fits { FitsSigned24 result }
{
    BigEndian::read_i24(&bytes[2..])
}

// TEST UNIT READY, clause 8.2.16.
fn tape_ready(bytes: &[u8]) -> Result<TapeCommand, CdbFault>
    requires { length bytes.now ≡ 6 }
    ensures { result ≡ tape_ready_of bytes.now }
{
    let spare = [low_bits(bytes), bytes[2], bytes[3], bytes[4], bytes[5]];
    tape_where_zero(&spare, TapeCommand::TestUnitReady)
}

// REWIND, clause 10.2.11.
fn rewind(bytes: &[u8]) -> Result<TapeCommand, CdbFault>
    requires { length bytes.now ≡ 6 }
    ensures { result ≡ rewind_of bytes.now }
{
    let spare = [above_immed(bytes), bytes[2], bytes[3], bytes[4], bytes[5]];
    tape_where_zero(&spare, TapeCommand::Rewind)
}

// REQUEST SENSE, clause 8.2.14.
fn tape_request_sense(bytes: &[u8]) -> Result<TapeCommand, CdbFault>
    requires { length bytes.now ≡ 6 }
    ensures { result ≡ tape_request_sense_of bytes.now }
{
    tape_where_zero(
        &spare_room(bytes),
        TapeCommand::RequestSense { room: bytes[4] },
    )
}

// INQUIRY, clause 8.2.5.
fn tape_inquiry(bytes: &[u8]) -> Result<TapeCommand, CdbFault>
    requires { length bytes.now ≡ 6 }
    ensures { result ≡ tape_inquiry_of bytes.now }
{
    tape_where_zero(&spare_room(bytes), TapeCommand::Inquiry { room: bytes[4] })
}

// The command, if its count is one of blocks (Fixed).
fn fixed(bytes: &[u8], command: TapeCommand) -> Result<TapeCommand, CdbFault>
    requires { length bytes.now ≡ 6 }
    ensures { result ≡ fixed_of bytes.now command }
{
    if low_bits(bytes) == 0x01 {
        tape_where_zero(&[bytes[5]], command)
    } else {
        Err(CdbFault::Field)
    }
}

// READ, clause 10.2.4.
fn tape_read(bytes: &[u8]) -> Result<TapeCommand, CdbFault>
    requires { length bytes.now ≡ 6 }
    ensures exact { result ≡ tape_read_of bytes.now }
    ensures fits { IfOk result FitsTape }
{
    let count = count_6(bytes);
    fixed(bytes, TapeCommand::Read { count })
}

// WRITE, clause 10.2.14.
fn tape_write(bytes: &[u8]) -> Result<TapeCommand, CdbFault>
    requires { length bytes.now ≡ 6 }
    ensures exact { result ≡ tape_write_of bytes.now }
    ensures fits { IfOk result FitsTape }
{
    let count = count_6(bytes);
    fixed(bytes, TapeCommand::Write { count })
}

// WRITE FILEMARKS, clause 10.2.15.
fn filemarks(bytes: &[u8]) -> Result<TapeCommand, CdbFault>
    requires { length bytes.now ≡ 6 }
    ensures exact { result ≡ filemarks_of bytes.now }
    ensures fits { IfOk result FitsTape }
{
    let count = count_6(bytes);
    tape_where_zero(
        &[above_immed(bytes), bytes[5]],
        TapeCommand::Filemarks { count },
    )
}

// SPACE, clause 10.2.12.
fn space(bytes: &[u8]) -> Result<TapeCommand, CdbFault>
    requires { length bytes.now ≡ 6 }
    ensures exact { result ≡ space_of bytes.now }
    ensures fits { IfOk result FitsTape }
{
    let code = low_bits(bytes);
    if is_space_code(code) {
        let count = signed_count_6(bytes);
        tape_where_zero(&[bytes[5]], TapeCommand::Space { code, count })
    } else {
        Err(CdbFault::Field)
    }
}

// Whether SPACE can move over what this code names.
fn is_space_code(code: u8) -> bool
    ensures { result ≡ is_space_code code }
{
    code == SPACE_BLOCKS || code == SPACE_FILEMARKS || code == SPACE_END_OF_DATA
}
