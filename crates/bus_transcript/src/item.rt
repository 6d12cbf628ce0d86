//! What a transcript holds.
use bus_base::{AbortKind, Dev, Ns, Octets};
use msg_grammar::{MsgIn, MsgOut};

/// The name of a process: its nexus, and how many of that nexus have begun.
#[derive(Clone, Copy)]
pub struct Name {
    /// Its initiator.
    pub initiator: Dev,
    /// Its target.
    pub target: Dev,
    /// Its unit, where an IDENTIFY message named it.
    pub unit: Option<u8>,
    /// Its tag, where a queue tag message named it.
    pub tag: Option<u8>,
    /// The first process of a nexus has the number 1, and so on, up to the last u32; an initiator's connection with an
    /// abort message begins no process, and has the number 0.
    pub number: u32,
}

/// What some rows of a trace show together. Times are in ns.
#[derive(Drop)]
pub enum Item {
    /// A connection has begun, by selection or again by reselection (ANSI X3.131-1994, 6.1.3 and 6.1.4).
    Connect { at: Ns, name: Name, again: bool },
    /// A selection or a reselection was given up without an answer (6.1.3.1).
    Unanswered { at: Ns, caller: Dev, called: Dev },
    /// A message to the target.
    Out(MsgOut),
    /// A message to the initiator.
    In(MsgIn),
    /// The bytes of a COMMAND phase.
    Cdb(Octets),
    /// The bytes of a DATA OUT or DATA IN phase, and the active data pointer before them, at most the last u32.
    Payload { out: bool, at: u32, bytes: Octets },
    /// A byte of STATUS.
    Status(u8),
    /// The target has taken the command.
    Arrive(Name),
    /// The first STATUS phase of the process has begun.
    Ready(Name),
    /// The initiator has taken COMMAND COMPLETE, after this status byte.
    End(Name, Option<u8>),
    /// The target went to BUS FREE though it had sent neither COMMAND COMPLETE nor DISCONNECT last.
    Lost(Name),
    /// The target went to BUS FREE after an abort message: initiator, target and unit of the connection, and what is
    /// aborted.
    Abort(Dev, Dev, Option<u8>, AbortKind),
    /// This device has begun to drive RST.
    Reset(Dev),
    /// The connection is over.
    Free(Ns),
}

/// What the rows of a trace show, in order.
#[derive(Drop)]
pub struct Transcript {
    pub items: Vec<Item>,
}
