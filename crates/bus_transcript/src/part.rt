//! What a connection carries.
use bus_base::Octets;
use msg_grammar::{MsgIn, MsgOut};

/// A message to the initiator.
#[derive(Clone, Copy)]
pub enum Incoming {
    /// It came whole.
    Whole(MsgIn),
    /// Its phase was left before it was whole.
    Broken,
}

/// A part of what a connection carries, before its process is known.
#[derive(Drop)]
pub enum Part {
    /// A message to the target.
    Out(MsgOut),
    /// A message to the initiator.
    In(MsgIn),
    /// A message to the initiator that was broken off.
    BrokenOff,
    /// The bytes of a COMMAND phase; whether a fault struck one of them; and whether the phase was left by its lines.
    Command(Octets, bool, bool),
    /// The bytes of a DATA phase, to the target or not.
    Data(bool, Octets),
    /// A STATUS phase begins.
    StatusPhase,
    /// A byte of STATUS.
    Status(u8),
    /// The initiator takes COMMAND COMPLETE.
    Completion,
}
