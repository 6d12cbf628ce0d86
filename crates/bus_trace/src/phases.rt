//! The information transfer phases, by the lines MSG, C/D and I/O (ANSI X3.131-1994, 6.1.5).
ghost use Rattle.std.specs.Prelude.{◌≡◌};
ghost use Rattle.bus_trace.specs.Phases.{is_data, is_reserved, is_command, is_message_out, is_message_in, changes_phase};

use crate::changes::{Change, same_phase};
use crate::line_set::Lines;

/// Whether the phase is DATA OUT or DATA IN.
pub fn is_data(lines: Lines) -> bool
    ensures { result ≡ is_data lines }
{
    !lines.msg() && !lines.cd()
}

/// Whether the phase is one of the two that are reserved.
pub fn is_reserved(lines: Lines) -> bool
    ensures { result ≡ is_reserved lines }
{
    lines.msg() && !lines.cd()
}

/// Whether the phase is COMMAND.
pub fn is_command(lines: Lines) -> bool
    ensures { result ≡ is_command lines }
{
    !lines.msg() && lines.cd() && !lines.io()
}

/// Whether the phase is MESSAGE OUT.
pub fn is_message_out(lines: Lines) -> bool
    ensures { result ≡ is_message_out lines }
{
    lines.msg() && lines.cd() && !lines.io()
}

/// Whether the phase is MESSAGE IN.
pub fn is_message_in(lines: Lines) -> bool
    ensures { result ≡ is_message_in lines }
{
    lines.msg() && lines.cd() && lines.io()
}

/// Whether the phase lines change.
pub fn changes_phase(change: &Change) -> bool
    ensures { result ≡ changes_phase change.now }
{
    !same_phase(change.before, change.after)
}
