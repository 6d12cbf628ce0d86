//! Attention (ANSI X3.131-1994, 6.2.1).
ghost use Rattle.std.specs.Prelude.{◌≡◌};
ghost use Rattle.bus_phases.specs.Phases.{duty_if_held, duty_left, is_attention_held, duty_after};

use bus_base::Ns;
use bus_trace::{
    Change, Connection, Lines, TWO_DESKEW, changes_phase, falls, is_message_in, is_message_out,
    rises,
};

/// What ATN asks of the target.
#[derive(Clone, Copy, Debug, PartialEq, Eq)]
pub enum Duty {
    /// Nothing.
    Nothing,
    /// MESSAGE OUT, once the present phase is left.
    Asked,
    /// The next REQ in MESSAGE OUT.
    Owed,
}

fn duty_if_held(duty: Duty, lines: Lines) -> Duty
    ensures { result ≡ duty_if_held duty lines }
{
    if is_message_in(lines) {
        Duty::Owed
    } else if is_message_out(lines) {
        duty
    } else {
        Duty::Asked
    }
}

fn duty_left(duty: Duty) -> Duty
    ensures { result ≡ duty_left duty }
{
    match duty {
        Duty::Nothing => Duty::Nothing,
        Duty::Asked | Duty::Owed => Duty::Owed,
    }
}

/// Whether ATN is true before and after a row, and has been so for two deskew delays.
pub fn is_attention_held(change: &Change, since: Ns, time: Ns) -> bool
    ensures { result ≡ is_attention_held change.now since time }
{
    change.before.atn() && change.after.atn() && time.saturating_sub(since) >= TWO_DESKEW
}

/// What ATN asks after a row, after which this connection stands.
pub fn duty_after(duty: Duty, connection: Option<Connection>, change: &Change, held: bool) -> Duty
    ensures { result ≡ duty_after duty connection change.now held }
{
    let (before, after) = (change.before, change.after);
    match connection {
        None => Duty::Nothing,
        Some(_) => {
            if falls(before.atn(), after.atn()) || rises(before.req(), after.req()) {
                Duty::Nothing
            } else if falls(before.ack(), after.ack()) && held {
                duty_if_held(duty, before)
            } else if changes_phase(change) {
                duty_left(duty)
            } else {
                duty
            }
        }
    }
}
