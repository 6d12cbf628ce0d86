//! Commands, what is wrong with a block, and sense.
ghost use Rattle.std.specs.Prelude.{◌≡◌};

use std::error::Error;
use std::fmt;

/// A command that a target carries out. Blocks are those of the logical unit, the first of them 0.
#[derive(Clone, Copy, PartialEq, Eq, Debug)]
pub enum Command {
    /// TEST UNIT READY, clause 8.2.16: moves no data.
    TestUnitReady,
    /// REQUEST SENSE, clause 8.2.14: moves sense data to the initiator, at most `room` bytes.
    RequestSense { room: u8 },
    /// READ(6), clause 9.2.5: moves blocks to the initiator, the first of them block `lba`, below
    /// 2^21. `count` is how many, and 0 stands for 256.
    Read6 { lba: u32, count: u8 },
    /// WRITE(6), clause 9.2.20: moves blocks to the target, `lba` and `count` as in READ(6).
    Write6 { lba: u32, count: u8 },
    /// INQUIRY, clause 8.2.5: moves inquiry data to the initiator, at most `room` bytes.
    Inquiry { room: u8 },
    /// READ CAPACITY, clause 9.2.7: moves the last block's number and the block size.
    ReadCapacity,
    /// READ(10), clause 9.2.6: moves `count` blocks to the initiator, the first of them `lba`. A
    /// `count` of 0 moves none.
    Read10 { lba: u32, count: u16 },
    /// WRITE(10), clause 9.2.21: moves `count` blocks to the target, the first of them `lba`. A
    /// `count` of 0 moves none.
    Write10 { lba: u32, count: u16 },
}

/// What is wrong with a block. A target looks in this order, but that no bytes at all are a fault of
/// length.
#[derive(Clone, Copy, PartialEq, Eq, Debug)]
pub enum CdbFault {
    /// The first byte is no operation code of ours.
    Opcode,
    /// There are no bytes, or not as many as the operation code's group has.
    Length,
    /// A bit or byte that no field names is not 0, or control is not.
    Field,
}

impl fmt::Display for CdbFault {
    ghost use Rattle.std.specs.Prelude.{Some};
    ghost use Rattle.cdb_codec.specs.FaultText.{cdb_fault_text};

    ghost output = { λ fault. Some (cdb_fault_text fault) };

    fn fmt<W: fmt::Write>(&self, f: &mut fmt::Formatter<W>) -> fmt::Result {
        match self {
            CdbFault::Opcode => f.write_str("no operation code that is known"),
            CdbFault::Length => f.write_str("not as many bytes as the operation code's group has"),
            CdbFault::Field => f.write_str("a bit that must be 0 is not"),
        }
    }
}

impl Error for CdbFault {}

/// Sense: why a command ended with CHECK CONDITION, and how far a tape came (clause 8.2.14).
#[derive(Clone, Copy, PartialEq, Eq, Debug)]
pub struct Sense {
    /// The sense key, below 16.
    pub key: u8,
    /// The additional sense code.
    pub asc: u8,
    /// The qualifier of the additional sense code.
    pub ascq: u8,
    /// What a tape met, by the two high bits of a byte: [`FILEMARK`], [`END_OF_MEDIUM`], or 0 for neither, as
    /// at a disk.
    ///
    /// [`FILEMARK`]: crate::FILEMARK
    /// [`END_OF_MEDIUM`]: crate::END_OF_MEDIUM
    pub marks: u8,
    /// How many of the blocks or filemarks that a command of a tape named it did not move over or write, the
    /// information of the sense data; `None` where they are not valid, as at a disk.
    pub residue: Option<u32>,
}

impl Sense {
    ghost use Rattle.cdb_codec.specs.Replies.{plain_sense};

    /// A sense that names no marks and no residue, as each of a disk is.
    pub fn plain(key: u8, asc: u8, ascq: u8) -> Sense
        ensures { result ≡ plain_sense key asc ascq }
    {
        Sense {
            key,
            asc,
            ascq,
            marks: 0x00,
            residue: None,
        }
    }
}
