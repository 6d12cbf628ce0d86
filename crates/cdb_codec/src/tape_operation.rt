//! Operation codes of a tape: the first byte of a block (clauses 7.2.1 and 10.2).
ghost use Rattle.std.specs.Prelude.{◌≡◌};
ghost use Rattle.cdb_codec.specs.TapeOperations.{tape_operation_of};

use crate::operation::{INQUIRY, READ_6, REQUEST_SENSE, TEST_UNIT_READY, WRITE_6};

/// REWIND.
pub const REWIND: u8 = 0x01;
/// WRITE FILEMARKS.
pub const WRITE_FILEMARKS: u8 = 0x10;
/// SPACE.
pub const SPACE: u8 = 0x11;

/// What SPACE moves over: blocks.
pub const SPACE_BLOCKS: u8 = 0;
/// What SPACE moves over: filemarks.
pub const SPACE_FILEMARKS: u8 = 1;
/// SPACE moves to the end of data.
pub const SPACE_END_OF_DATA: u8 = 3;

/// What a block asks of a tape, before its fields are looked at. READ and WRITE have the codes of READ(6)
/// and WRITE(6).
#[derive(Clone, Copy, PartialEq, Eq, Debug)]
pub enum TapeOperation {
    TestUnitReady,
    Rewind,
    RequestSense,
    Read,
    Write,
    Filemarks,
    Space,
    Inquiry,
}

/// The operation of a code at a tape; `None` where it is none of a tape's.
pub fn tape_operation_of(code: u8) -> Option<TapeOperation>
    ensures { result ≡ tape_operation_of code }
{
    match code {
        TEST_UNIT_READY => Some(TapeOperation::TestUnitReady),
        REWIND => Some(TapeOperation::Rewind),
        REQUEST_SENSE => Some(TapeOperation::RequestSense),
        READ_6 => Some(TapeOperation::Read),
        WRITE_6 => Some(TapeOperation::Write),
        WRITE_FILEMARKS => Some(TapeOperation::Filemarks),
        SPACE => Some(TapeOperation::Space),
        INQUIRY => Some(TapeOperation::Inquiry),
        _ => None,
    }
}
