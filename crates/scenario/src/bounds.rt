//! The limits of what a text says (docs/scenario.md).

/// The longest text, in bytes.
pub const LIMIT: usize = 4_194_304;

/// The latest time, in ns.
pub const TIME_LIMIT: u64 = 1_000_000_000_000;

/// The longest latency of a device, in ns.
pub const LATENCY_LIMIT: u32 = 100;

/// The most commands of an initiator that may be open at once.
pub const OPEN_LIMIT: u32 = 32;

/// The most times that a device tries again.
pub const RETRY_LIMIT: u32 = 16;

/// The least transfer period factor but for 0, in units of 4 ns: 100 ns, the fastest of fast synchronous data
/// transfer.
pub const LEAST_FACTOR: u8 = 25;

/// The largest transfer period factor.
pub const FACTOR_LIMIT: u8 = 255;

/// The largest REQ/ACK offset of an initiator, which says that the offset is unlimited (6.6.21).
pub const HOST_OFFSET_LIMIT: u8 = 255;

/// The largest REQ/ACK offset of a target.
pub const TARGET_OFFSET_LIMIT: u8 = 254;

/// The largest queue tag.
pub const TAG_LIMIT: u8 = 255;

/// The longest delay of the ACK pulses of synchronous data transfer, in ns.
pub const LAG_LIMIT: u32 = 10_000;

/// The longest time that a chosen command takes to be ready, in ns.
pub const SEEK_LIMIT: u32 = 1_000_000_000;

/// The most blocks of a run, after which a target disconnects.
pub const BURST_LIMIT: u32 = 65_536;

/// The most blocks of a unit.
pub const BLOCK_LIMIT: u64 = 4_294_967_296;

/// The least size of a block, in bytes.
pub const LEAST_SIZE: u32 = 16;

/// The largest size of a block, in bytes.
pub const SIZE_LIMIT: u32 = 2048;

/// The most objects of a tape: its blocks and filemarks together.
pub const OBJECT_LIMIT: u32 = 65_536;

/// The most commands that the queue of a unit holds.
pub const DEPTH_LIMIT: u32 = 256;

/// The most commands.
pub const COMMAND_LIMIT: usize = 4096;

/// The most bytes that a command needs.
pub const NEED_LIMIT: u64 = 65_536;

/// The most bytes that all commands need.
pub const NEEDS_LIMIT: u64 = 1_048_576;

/// The most aborts and resets together.
pub const ABORT_LIMIT: usize = 64;

/// The most faults.
pub const FAULT_LIMIT: usize = 64;
