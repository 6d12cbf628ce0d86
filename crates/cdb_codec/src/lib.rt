//! Command descriptor blocks: the bytes by which an initiator names a command to a target, and the
//! data that a target returns for three of them (ANSI X3.131-1994, clauses 7.2, 8.2, 9.2 and 10.2).
//!
//! `to_cdb` writes the block of one of eight commands of a disk and `from_cdb` reads one; `tape_cdb` reads a block as
//! a tape does. A block that is no command of ours has a fault: the first that applies of operation code, length and
//! fields. `sense_bytes` lays out why a command failed and how far a tape came, and `read_sense` reads it.
//! It stands on `arrayvec` for the block and on `byteorder` for its numbers.
//!
//! Public contract: `to_cdb` and the data are exact byte for byte, `from_cdb` and `tape_cdb` are exact by tables of the
//! bytes (`specs/Cdb.antt`, `specs/TapeCdb.antt`). Reading what is written gives the same command or sense
//! (`reads_back`, `tape_reads_back`, `sense_reads_back`), what is read was written so (`reads_only`,
//! `tape_reads_only`), and the ignored bits change nothing (`ignores`, `tape_ignores`). A disk and a tape agree on what
//! is REQUEST SENSE and on what writes blocks (`readings_agree`).
#![tactic(auto)]

mod blocks;
mod codec;
mod command;
mod fields;
mod operation;
mod replies;
mod sense;
mod status;
mod tape_codec;
mod tape_command;
mod tape_fields;
mod tape_operation;

pub use blocks::{blocks_moved, tape_blocks_named};
pub use codec::{from_cdb, group_len, ignores, reads_back, reads_only, to_cdb};
pub use command::{CdbFault, Command, Sense};
pub use operation::{
    INQUIRY, READ_6, READ_10, READ_CAPACITY, REQUEST_SENSE, TEST_UNIT_READY, WRITE_6, WRITE_10,
};
pub use replies::{
    CAPACITY_LEN, INQUIRY_LEN, SENSE_LEN, capacity_bytes, inquiry_bytes, plain_sense_data,
    read_sense, sense_bytes, sense_of_data, sense_reads_back, tape_inquiry_bytes,
};
pub use sense::{
    ABORTED_COMMAND, BEGINNING_OF_MEDIUM_DETECTED, BLANK_CHECK, BLOCK_OUT_OF_RANGE,
    COMMANDS_CLEARED, END_OF_DATA_DETECTED, END_OF_MEDIUM, END_OF_MEDIUM_DETECTED, FILEMARK,
    FILEMARK_DETECTED, ILLEGAL_REQUEST, INITIATOR_DETECTED_ERROR, INVALID_FIELD,
    INVALID_OPERATION_CODE, NO_ADDITIONAL_SENSE, NO_SENSE, PARITY_ERROR, RESET_OCCURRED,
    UNIT_ATTENTION, UNIT_NOT_SUPPORTED, VOLUME_OVERFLOW,
};
pub use status::{CHECK_CONDITION, GOOD, QUEUE_FULL};
pub use tape_codec::{readings_agree, tape_cdb, tape_ignores, tape_reads_back, tape_reads_only};
pub use tape_command::TapeCommand;
pub use tape_operation::{
    REWIND, SPACE, SPACE_BLOCKS, SPACE_END_OF_DATA, SPACE_FILEMARKS, WRITE_FILEMARKS,
};
