//! What a byte makes of the bytes of a message, as they cross (ANSI X3.131-1994, 6.6).
ghost use Rattle.std.specs.Prelude.{◌≡◌};
ghost use Rattle.bus_phases.specs.Reading.{reading_of_out, reading_of_in, reading_out, reading_in};

use msg_grammar::{Got, MsgIn, MsgOut};

/// What a byte makes of the bytes of a message.
#[derive(Clone, Copy, Debug, PartialEq, Eq)]
pub enum Reading {
    /// No byte of a message crosses.
    NoMessage,
    /// The message is still half sent.
    Half,
    /// No message begins so.
    Unknown,
    /// A message that may come first in a connection.
    Opens,
    /// Any other message.
    Other,
}

fn reading_of_out(message: MsgOut) -> Reading
    ensures { result ≡ reading_of_out message }
{
    match message {
        MsgOut::Identify { .. } | MsgOut::Abort | MsgOut::DeviceReset => Reading::Opens,
        _ => Reading::Other,
    }
}

fn reading_of_in(message: MsgIn) -> Reading
    ensures { result ≡ reading_of_in message }
{
    match message {
        MsgIn::Identify { .. } => Reading::Opens,
        _ => Reading::Other,
    }
}

/// What bytes to the target make.
pub fn reading_out(got: Got<MsgOut>) -> Reading
    ensures { result ≡ reading_out got }
{
    match got {
        Got::Whole(message, _) => reading_of_out(message),
        Got::More => Reading::Half,
        Got::Unknown => Reading::Unknown,
    }
}

/// What bytes to the initiator make.
pub fn reading_in(got: Got<MsgIn>) -> Reading
    ensures { result ≡ reading_in got }
{
    match got {
        Got::Whole(message, _) => reading_of_in(message),
        Got::More => Reading::Half,
        Got::Unknown => Reading::Unknown,
    }
}
