// The rows of a trace.

ghost use Rattle.std.specs.Prelude.{◌≡◌};
ghost use Rattle.bus_trace.specs.Trace.{driven_after};

use crate::line_set::Lines;
use bus_base::{Dev, Ns};

/// What a row says of its device.
#[derive(Clone, Copy, Debug)]
pub enum Kind {
    /// It drives exactly these lines from now on.
    Drives(Lines),
    /// A fault of this code happens to it. It changes no lines.
    Fault(u8),
}

/// One row of a trace.
#[derive(Clone, Copy, Debug)]
pub struct Row {
    /// When, in nanoseconds.
    pub time: Ns,
    /// The device, below 8.
    pub dev: Dev,
    /// What it does.
    pub kind: Kind,
}

impl Kind {
    /// What the device of the row drives afterwards, when it drove these lines before.
    pub fn driven_after(self, before: Lines) -> Lines
        ensures { result ≡ driven_after self before }
    {
        match self {
            Kind::Drives(lines) => lines,
            Kind::Fault(_) => before,
        }
    }
}
