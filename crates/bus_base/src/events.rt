//! What the rows of a trace show of commands, and how commands are queued and aborted.
use super::devices::{Dev, ProcId};

/// How a command is queued, by its queue tag message (ANSI X3.131-1994, 6.6.17).
#[derive(Clone, Copy, Debug, PartialEq, Eq)]
pub enum Class {
    /// SIMPLE QUEUE TAG, and a command without a tag.
    Simple,
    /// ORDERED QUEUE TAG.
    Ordered,
    /// HEAD OF QUEUE TAG.
    Head,
}

/// Which of the waiting commands that may run a logical unit chooses.
#[derive(Clone, Copy, Debug, PartialEq, Eq)]
pub enum Pick {
    /// The one that came first.
    First,
    /// The one that came last.
    Last,
}

/// What a message aborts (ANSI X3.131-1994, 6.6).
#[derive(Clone, Copy, Debug, PartialEq, Eq)]
pub enum AbortKind {
    /// ABORT: the processes of its initiator at the logical unit.
    All,
    /// ABORT TAG: the process of its initiator with this tag at the logical unit.
    Tag(u8),
    /// CLEAR QUEUE: the processes of all initiators at the logical unit.
    WholeQueue,
    /// BUS DEVICE RESET: all processes of the target.
    Device,
}

/// What a row of a trace shows.
#[derive(Clone, Copy, Debug, PartialEq, Eq)]
pub enum Event {
    /// The command block stands whole, and its target leaves COMMAND with the command taken.
    Accept(ProcId),
    /// The first STATUS phase of the process begins.
    Run(ProcId),
    /// COMMAND COMPLETE was taken, after this status byte.
    End(ProcId, u8),
    /// In place of `Accept`: the queue is full.
    Refuse(ProcId),
    /// In place of `Run`: the target gave up after errors in the transfer. The command ends with CHECK
    /// CONDITION and the sense 0B and this code, 47 (parity error) or 48 (initiator detected error).
    Fail(ProcId, u8),
    /// The target went to BUS FREE before the process had ended.
    Lost(ProcId),
    /// The MESSAGE OUT phase of an abort message ended: its initiator, the target, the logical unit and
    /// what is aborted.
    Aborted(Dev, Dev, u8, AbortKind),
    /// This device began to drive RST.
    Reset(Dev),
}
