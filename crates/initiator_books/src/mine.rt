// A command and an abort of an initiator's own.

use bus_base::{AbortKind, Dev, Ns};
use scenario::Tag;

/// A command of its own: how it is sent, and how far it has come.
#[derive(Clone, Copy)]
pub struct Mine {
    /// Its number among all commands, from 1.
    pub number: u16,
    /// The initiator.
    pub host: Dev,
    /// The target.
    pub target: Dev,
    /// The unit.
    pub unit: u8,
    /// How it is queued.
    pub tag: Tag,
    /// When the initiator begins to want it, in ns.
    pub at: Ns,
    /// Whether it was sent.
    pub sent: bool,
    /// Whether it is over.
    pub over: bool,
    /// Whether it ended with CHECK CONDITION.
    pub checked: bool,
    /// Whether its automatic REQUEST SENSE was sent.
    pub sense_sent: bool,
    /// Whether that is over.
    pub sense_over: bool,
    /// How many of its callings had no answer, at most 255.
    pub tries: u8,
}

/// An abort line of its own.
#[derive(Clone, Copy)]
pub struct MyAbort {
    /// Its number among all abort lines, from 1.
    pub number: u16,
    /// The target.
    pub target: Dev,
    /// The unit.
    pub unit: u8,
    /// What it aborts.
    pub what: AbortKind,
    /// When it falls due, in ns.
    pub at: Ns,
    /// Whether it was sent or given up.
    pub done: bool,
    /// How many of its callings had no answer, at most 255.
    pub tries: u8,
}

/// What an initiator sends: a command or the automatic REQUEST SENSE after it, by the number of the command among all,
/// or an abort, by that of its line; both from 1.
#[derive(Clone, Copy)]
pub enum OwnItem {
    /// A command.
    Command(u16),
    /// The automatic REQUEST SENSE after this command.
    Sense(u16),
    /// An abort.
    Abort(u16),
}
