//! Status: the byte with which a target ends a command (clause 7.3).

/// GOOD: the command was carried out.
pub const GOOD: u8 = 0x00;
/// CHECK CONDITION: the command was not carried out, and sense tells why.
pub const CHECK_CONDITION: u8 = 0x02;
/// QUEUE FULL: the queue of the logical unit has no room for the command.
pub const QUEUE_FULL: u8 = 0x28;
