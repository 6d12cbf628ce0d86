//! Devices, moments and processes.

/// A device of the bus, 0 to 7. It is also its SCSI ID (ANSI X3.131-1994, clause 5).
pub type Dev = u8;

/// A moment or a span of time, in nanoseconds.
pub type Ns = u64;

/// A process of a scenario: one command, or the REQUEST SENSE that an initiator sends by itself
/// after a command that ended with CHECK CONDITION.
#[derive(Clone, Copy, Debug, PartialEq, Eq)]
pub struct ProcId {
    /// The number of the command in the scenario, from 1.
    pub command: u16,
    /// Whether this is the automatic REQUEST SENSE after that command.
    pub sense: bool,
}
