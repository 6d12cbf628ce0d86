//! Operation codes: the first byte of a block (clause 7.2.1).
ghost use Rattle.std.specs.Prelude.{◌≡◌};
ghost use Rattle.cdb_codec.specs.Operations.{operation_of};

/// TEST UNIT READY.
pub const TEST_UNIT_READY: u8 = 0x00;
/// REQUEST SENSE.
pub const REQUEST_SENSE: u8 = 0x03;
/// READ(6).
pub const READ_6: u8 = 0x08;
/// WRITE(6).
pub const WRITE_6: u8 = 0x0a;
/// INQUIRY.
pub const INQUIRY: u8 = 0x12;
/// READ CAPACITY.
pub const READ_CAPACITY: u8 = 0x25;
/// READ(10).
pub const READ_10: u8 = 0x28;
/// WRITE(10).
pub const WRITE_10: u8 = 0x2a;

/// What a block asks for, before its fields are looked at.
#[derive(Clone, Copy, PartialEq, Eq, Debug)]
pub enum Operation {
    TestUnitReady,
    RequestSense,
    Read6,
    Write6,
    Inquiry,
    ReadCapacity,
    Read10,
    Write10,
}

/// The operation of a code; `None` where it is none of ours.
pub fn operation_of(code: u8) -> Option<Operation>
    ensures { result ≡ operation_of code }
{
    match code {
        TEST_UNIT_READY => Some(Operation::TestUnitReady),
        REQUEST_SENSE => Some(Operation::RequestSense),
        READ_6 => Some(Operation::Read6),
        WRITE_6 => Some(Operation::Write6),
        INQUIRY => Some(Operation::Inquiry),
        READ_CAPACITY => Some(Operation::ReadCapacity),
        READ_10 => Some(Operation::Read10),
        WRITE_10 => Some(Operation::Write10),
        _ => None,
    }
}
