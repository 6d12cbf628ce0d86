//! What a message says, as far as the rules ask (ANSI X3.131-1994, 6.6).
ghost use Rattle.std.specs.Prelude.{◌≡◌};
ghost use Rattle.bus_phases.specs.Dialogue.{word_out, word_in, is_same_end};

use bus_trace::Agreement;
use msg_grammar::{MsgIn, MsgOut};

/// An end of a connection.
#[derive(Clone, Copy, Debug, PartialEq, Eq)]
pub enum End {
    Initiator,
    Target,
}

/// What a message says, as far as the rules ask.
#[derive(Clone, Copy)]
pub enum Word {
    /// A synchronous data transfer request.
    Offer(Agreement),
    /// MESSAGE REJECT.
    Reject,
    /// RESTORE POINTERS.
    Restore,
    /// BUS DEVICE RESET.
    DeviceReset,
    /// MESSAGE PARITY ERROR.
    ParityError,
    /// Any other message.
    Other,
}

/// Whether the two are the same end.
pub fn is_same_end(a: End, b: End) -> bool
    ensures { result ≡ is_same_end a b }
{
    match (a, b) {
        (End::Initiator, End::Initiator) | (End::Target, End::Target) => true,
        (End::Initiator, End::Target) | (End::Target, End::Initiator) => false,
    }
}

/// What a message to the target says.
pub fn word_out(message: MsgOut) -> Word
    ensures { result ≡ word_out message }
{
    match message {
        MsgOut::Sdtr(offer) => Word::Offer(offer),
        MsgOut::Reject => Word::Reject,
        MsgOut::DeviceReset => Word::DeviceReset,
        MsgOut::ParityError => Word::ParityError,
        _ => Word::Other,
    }
}

/// What a message to the initiator says.
pub fn word_in(message: MsgIn) -> Word
    ensures { result ≡ word_in message }
{
    match message {
        MsgIn::Sdtr(offer) => Word::Offer(offer),
        MsgIn::Reject => Word::Reject,
        MsgIn::RestorePointers => Word::Restore,
        _ => Word::Other,
    }
}
