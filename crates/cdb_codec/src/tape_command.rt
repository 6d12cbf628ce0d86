//! The commands of a tape.

/// A command that a tape with blocks of one size carries out (clause 10.2). The tape holds blocks and
/// filemarks, one after the other, and stands at a position between two of them.
#[derive(Clone, Copy, PartialEq, Eq, Debug)]
pub enum TapeCommand {
    /// TEST UNIT READY, clause 8.2.16: moves no data.
    TestUnitReady,
    /// REWIND, clause 10.2.11: moves to the beginning.
    Rewind,
    /// REQUEST SENSE, clause 8.2.14: moves sense data to the initiator, at most `room` bytes.
    RequestSense { room: u8 },
    /// READ, clause 10.2.4: moves blocks to the initiator, from the position on. `count` is how many,
    /// below 2^24, and 0 moves none.
    Read { count: u32 },
    /// WRITE, clause 10.2.14: moves blocks to the target, `count` as in READ.
    Write { count: u32 },
    /// INQUIRY, clause 8.2.5: moves inquiry data to the initiator, at most `room` bytes.
    Inquiry { room: u8 },
    /// WRITE FILEMARKS, clause 10.2.15: writes `count` filemarks, below 2^24, and moves no data.
    Filemarks { count: u32 },
    /// SPACE, clause 10.2.12: moves the position over what `code` names, [`SPACE_BLOCKS`] or
    /// [`SPACE_FILEMARKS`], or to the [`SPACE_END_OF_DATA`]. `count` is how many of them, from -2^23 on and
    /// below 2^23, backward where it is negative; at the end of data it says nothing.
    ///
    /// [`SPACE_BLOCKS`]: crate::SPACE_BLOCKS
    /// [`SPACE_FILEMARKS`]: crate::SPACE_FILEMARKS
    /// [`SPACE_END_OF_DATA`]: crate::SPACE_END_OF_DATA
    Space { code: u8, count: i32 },
}
