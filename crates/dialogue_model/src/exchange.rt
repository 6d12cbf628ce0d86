// What the two ends of a connection know of each other, and what they mean to do.

use scenario::Tag;
use scenario::the_bus_base::AbortKind;
use story_model::the_bus_trace::{Agreement, Change};
use story_model::the_msg_grammar::{MsgIn, MsgOut};

/// Why the target asks for MESSAGE OUT: it was selected; ATN was true with a byte of MESSAGE IN; or ATN was true as a
/// run of DATA IN, or STATUS, ended.
#[derive(Clone, Copy, Debug)]
pub enum Cause {
    /// It was selected.
    Selected,
    /// ATN with MESSAGE IN.
    InMessage,
    /// ATN with DATA IN.
    InData,
    /// ATN with STATUS.
    InStatus,
}

/// What the target does after the messages of a MESSAGE IN phase.
#[derive(Clone, Copy)]
pub enum Next {
    /// COMMAND.
    Command,
    /// STATUS.
    Status,
    /// It moves data, or asks for STATUS where no data are left.
    GoOn,
    /// BUS FREE.
    FreeBus,
}

/// The information transfer phases, by the lines MSG, C/D and I/O (6.1.5).
#[derive(Clone, Copy)]
pub enum Phase {
    /// DATA OUT.
    DataOut,
    /// DATA IN.
    DataIn,
    /// COMMAND.
    Command,
    /// STATUS.
    Status,
    /// MESSAGE OUT.
    MessageOut,
    /// MESSAGE IN.
    MessageIn,
}

/// What becomes of a command as it arrives.
#[derive(Clone, Copy)]
pub enum Arrival {
    /// The queue of its unit is full.
    Refused,
    /// It goes on: it is outside the queue.
    Guest,
    /// It runs at once, after the seek time.
    AtOnce,
    /// It waits in the queue.
    Queued,
}

/// What a row of a connection tells its two ends.
#[derive(Clone, Copy)]
pub struct Hearing {
    /// What it changes.
    pub change: Change,
    /// Whether a byte crosses.
    pub crosses: bool,
    /// The message to the target that this byte makes whole.
    pub out: Option<MsgOut>,
    /// The message to the initiator that it makes whole.
    pub into: Option<MsgIn>,
    /// Whether it is a fault row.
    pub fault: bool,
    /// Whether a phase had begun in this connection before the row.
    pub begun: bool,
    /// Whether the last byte of MESSAGE OUT before it crossed with ATN false.
    pub is_last: bool,
    /// How often REQ rose before it in this phase.
    pub offered: u64,
    /// Whether a fault struck the byte of the last of these, to the initiator.
    pub struck: bool,
}

/// The messages of a MESSAGE IN phase: two at most.
#[derive(Clone, Copy)]
pub struct Messages {
    /// The first, if there is one.
    pub first: Option<MsgIn>,
    /// And the one after it.
    pub second: Option<MsgIn>,
}

/// What the target has heard in a MESSAGE OUT phase.
#[derive(Clone, Copy)]
pub struct Said {
    /// The unit that IDENTIFY named.
    pub unit: Option<u8>,
    /// The queue tag message.
    pub tag: Tag,
    /// What the last of ABORT, ABORT TAG, CLEAR QUEUE and BUS DEVICE RESET aborts.
    pub aborts: Option<AbortKind>,
    /// The last synchronous data transfer request.
    pub offer: Option<Agreement>,
}

/// What the target of a connection plans.
#[derive(Clone, Copy)]
pub struct Plan {
    /// Whether synchronous transfer may be negotiated in this connection.
    pub negotiates: bool,
    /// The messages of the MESSAGE IN phase.
    pub messages: Messages,
    /// What comes after them.
    pub next: Next,
    /// Why this is MESSAGE OUT.
    pub cause: Cause,
    /// What it has heard there; bytes that are begun anew are left out.
    pub said: Said,
    /// Whether a fault struck a byte of this phase.
    pub struck: bool,
}

/// How a phase is left.
#[derive(Clone, Copy)]
pub struct Leaving {
    /// To another phase, or to BUS FREE.
    pub to: Option<Phase>,
    /// What is said there, where it is MESSAGE IN.
    pub messages: Messages,
    /// What comes after that.
    pub next: Next,
    /// Whether a recovery is counted.
    pub counts: bool,
    /// Whether a data run is done.
    pub done: bool,
}

/// What the target of a connection decides by, of the process that it serves.
#[derive(Clone, Copy)]
pub struct Task {
    /// Whether its data go to the target.
    pub writes: bool,
    /// How many bytes it moves in all.
    pub moved: u64,
    /// How many blocks, where it reads or writes blocks.
    pub blocks: Option<u32>,
    /// The bytes of a block.
    pub size: u64,
    /// How many data runs it has made.
    pub runs: u64,
    /// How many recoveries were counted for it.
    pub recoveries: u64,
    /// Whether its initiator stands in the hold of the unit.
    pub in_hold: bool,
    /// Whether the bytes of COMMAND since the pointers were restored are a whole command block.
    pub whole: bool,
    /// Whether it has its reply.
    pub replied: bool,
    /// The status that it ends with.
    pub status: u8,
}

/// The queue of a unit as a command arrives.
#[derive(Clone, Copy)]
pub struct Room {
    /// Whether it holds as many processes as its depth.
    pub full: bool,
    /// Whether no process is current, none waits, and no initiator stands in the hold.
    pub idle: bool,
}
