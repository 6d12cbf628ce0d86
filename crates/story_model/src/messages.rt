//! The message that a byte makes whole.
ghost use Rattle.std.specs.Prelude.{◌≡◌};
ghost use Rattle.bus_phases.specs.msg_grammar.specs.declared.message.Got.{Got};
ghost use Rattle.bus_phases.specs.Dialogue.{fresh_bytes};
ghost use Rattle.story_model.specs.BusState.{whole_out, whole_in, message_out, message_in};
ghost use Rattle.story_model.specs.CarriedBytes.{is_status_phase};
ghost use Rattle.story_model.specs.TraceHistory.{is_parity_error};

use bus_phases::the_bus_trace::{Change, Lines, is_message_in, is_message_out};
use bus_phases::the_msg_grammar::{Got, MsgIn, MsgOut};
use bus_phases::{Dialogue, Half};

fn whole_out(got: Got<MsgOut>) -> Option<MsgOut>
    ensures { result ≡ whole_out got }
{
    match got {
        Got::Whole(message, _) => Some(message),
        Got::More | Got::Unknown => None,
    }
}

fn whole_in(got: Got<MsgIn>) -> Option<MsgIn>
    ensures { result ≡ whole_in got }
{
    match got {
        Got::Whole(message, _) => Some(message),
        Got::More | Got::Unknown => None,
    }
}

// The bytes of MESSAGE OUT that a byte follows: none where the one before it was the last.
fn fresh_bytes(dialogue: &Dialogue) -> Half
    ensures { result ≡ fresh_bytes dialogue.now }
{
    if dialogue.is_last {
        Half::new()
    } else {
        dialogue.fresh.copy()
    }
}

/// The message to the target that a byte makes whole by this change of the bus (6.6.1), `None` where none crosses, or
/// not in MESSAGE OUT, or where more bytes are to follow.
pub fn message_out(dialogue: &Dialogue, change: &Change, crosses: bool) -> Option<MsgOut>
    ensures { result ≡ message_out dialogue.now change.now crosses }
{
    if !crosses || !is_message_out(change.before) {
        return None;
    }
    let mut bytes = fresh_bytes(dialogue);
    whole_out(bytes.take_out(change.after.data()))
}

/// The message to the initiator that a byte makes whole, likewise in MESSAGE IN.
pub fn message_in(dialogue: &Dialogue, change: &Change, crosses: bool) -> Option<MsgIn>
    ensures { result ≡ message_in dialogue.now change.now crosses }
{
    if !crosses || !is_message_in(change.before) {
        return None;
    }
    let mut bytes = dialogue.half.copy();
    whole_in(bytes.take_in(change.after.data()))
}

/// Whether it is MESSAGE PARITY ERROR (6.6.13).
pub fn is_parity_error(message: MsgOut) -> bool
    ensures { result ≡ is_parity_error message }
{
    match message {
        MsgOut::ParityError => true,
        _ => false,
    }
}

/// Whether these lines are those of a STATUS phase.
pub fn is_status_phase(lines: Lines) -> bool
    ensures { result ≡ is_status_phase lines }
{
    !lines.msg() && lines.cd() && lines.io()
}
