//! Messages, and what a list of bytes begins with.

use bus_trace::Agreement;

/// A message to the target: MESSAGE OUT.
#[derive(Clone, Copy, PartialEq, Eq, Debug)]
pub enum MsgOut {
    /// IDENTIFY (6.6.7): the nexus is with logical unit `lun`, below 8; `disc` grants the target the
    /// privilege of disconnecting.
    Identify { disc: bool, lun: u8 },
    /// SIMPLE QUEUE TAG (6.6.17), with the tag.
    SimpleTag(u8),
    /// HEAD OF QUEUE TAG (6.6.17), with the tag.
    HeadTag(u8),
    /// ORDERED QUEUE TAG (6.6.17), with the tag.
    OrderedTag(u8),
    /// SYNCHRONOUS DATA TRANSFER REQUEST (6.6.21), with what is offered.
    Sdtr(Agreement),
    /// ABORT (6.6.1): ends all of the initiator's commands for the logical unit.
    Abort,
    /// ABORT TAG (6.6.2): ends the command of this nexus.
    AbortTag,
    /// CLEAR QUEUE (6.6.4): ends all initiators' commands for the logical unit.
    ClearQueue,
    /// BUS DEVICE RESET (6.6.3): ends all that the target does.
    DeviceReset,
    /// INITIATOR DETECTED ERROR (6.6.10): asks for a retry, and ends nothing.
    DetectedError,
    /// MESSAGE PARITY ERROR (6.6.13): a byte of the last message had wrong parity.
    ParityError,
    /// MESSAGE REJECT (6.6.14): the last message is not supported.
    Reject,
    /// NO OPERATION (6.6.16): there is nothing to say.
    Nop,
}

/// A message to the initiator: MESSAGE IN.
#[derive(Clone, Copy, PartialEq, Eq, Debug)]
pub enum MsgIn {
    /// COMMAND COMPLETE (6.6.5): the command has ended, and its status has been sent.
    CommandComplete,
    /// SAVE DATA POINTER (6.6.20): the current data pointer becomes the saved one.
    SavePointer,
    /// RESTORE POINTERS (6.6.19): the saved pointers become the current ones.
    RestorePointers,
    /// DISCONNECT (6.6.6): the target is about to free the bus, and will reconnect.
    Disconnect,
    /// IDENTIFY (6.6.7): the target reconnects for logical unit `lun`, below 8.
    Identify { lun: u8 },
    /// SIMPLE QUEUE TAG (6.6.17), with the tag of the command that is taken up again.
    SimpleTag(u8),
    /// SYNCHRONOUS DATA TRANSFER REQUEST (6.6.21), with what is offered.
    Sdtr(Agreement),
    /// MESSAGE REJECT (6.6.14): the last message is not supported.
    Reject,
}

/// What a list of bytes begins with.
#[derive(Clone, Copy, PartialEq, Eq, Debug)]
pub enum Got<M> {
    /// This message, and its length in bytes.
    Whole(M, usize),
    /// Less than a whole message: more bytes can make it one.
    More,
    /// No message, whatever bytes follow.
    Unknown,
}
