//! Sense keys and additional sense codes (clause 8.2.14.3).

/// NO SENSE: a sense key that tells of nothing.
pub const NO_SENSE: u8 = 0x00;
/// ILLEGAL REQUEST: the sense key of a command that cannot be carried out as it stands.
pub const ILLEGAL_REQUEST: u8 = 0x05;
/// UNIT ATTENTION: the sense key of what befell the logical unit.
pub const UNIT_ATTENTION: u8 = 0x06;
/// BLANK CHECK: the sense key of a tape that met the end of data.
pub const BLANK_CHECK: u8 = 0x08;
/// ABORTED COMMAND: the sense key of a command that the target gave up.
pub const ABORTED_COMMAND: u8 = 0x0b;
/// VOLUME OVERFLOW: the sense key of a tape that has no room for what was to be written.
pub const VOLUME_OVERFLOW: u8 = 0x0d;

/// No additional sense information. At a tape its qualifier tells what was met.
pub const NO_ADDITIONAL_SENSE: u8 = 0x00;
/// Invalid command operation code.
pub const INVALID_OPERATION_CODE: u8 = 0x20;
/// Logical block address out of range.
pub const BLOCK_OUT_OF_RANGE: u8 = 0x21;
/// Invalid field in the command descriptor block.
pub const INVALID_FIELD: u8 = 0x24;
/// Logical unit not supported.
pub const UNIT_NOT_SUPPORTED: u8 = 0x25;
/// Power on, reset, or bus device reset occurred.
pub const RESET_OCCURRED: u8 = 0x29;
/// Commands cleared by another initiator.
pub const COMMANDS_CLEARED: u8 = 0x2f;
/// SCSI parity error.
pub const PARITY_ERROR: u8 = 0x47;
/// Initiator detected error message received.
pub const INITIATOR_DETECTED_ERROR: u8 = 0x48;

/// Filemark detected, a qualifier of [`NO_ADDITIONAL_SENSE`].
pub const FILEMARK_DETECTED: u8 = 0x01;
/// End of partition or medium detected, a qualifier of [`NO_ADDITIONAL_SENSE`].
pub const END_OF_MEDIUM_DETECTED: u8 = 0x02;
/// Beginning of partition or medium detected, a qualifier of [`NO_ADDITIONAL_SENSE`].
pub const BEGINNING_OF_MEDIUM_DETECTED: u8 = 0x04;
/// End of data detected, a qualifier of [`NO_ADDITIONAL_SENSE`].
pub const END_OF_DATA_DETECTED: u8 = 0x05;

/// The bit of a filemark in byte 2 of sense data.
pub const FILEMARK: u8 = 0x80;
/// The bit of the end of medium, or of its beginning, in byte 2 of sense data.
pub const END_OF_MEDIUM: u8 = 0x40;
