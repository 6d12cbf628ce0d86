//! What a row changes.
ghost use Rattle.std.specs.Prelude.{◌≡◌};
ghost use Rattle.bus_trace.specs.Changes.{rises, falls, is_within, raises_none, raises_only, adds, releases_bsy, same_hold, same_phase, same_stage, same_transfer, same_control, releases_data, drives_data};

use crate::line_set::Lines;

/// What a row changes, on the bus and at its device.
#[derive(Clone, Copy)]
pub struct Change {
    /// What is on the bus before the row.
    pub before: Lines,
    /// What is on the bus after it.
    pub after: Lines,
    /// What the device of the row drove.
    pub own: Lines,
    /// What it drives from then on.
    pub next: Lines,
}

/// Whether a line goes from false to true.
pub fn rises(before: bool, after: bool) -> bool
    ensures { result ≡ rises before after }
{
    !before && after
}

/// Whether a line goes from true to false.
pub fn falls(before: bool, after: bool) -> bool
    ensures { result ≡ falls before after }
{
    before && !after
}

/// Whether each line of the first set is one of the second.
pub fn is_within(a: Lines, b: Lines) -> bool
    ensures { result ≡ is_within a b }
{
    b.with(a).same(b)
}

impl Change {
    /// Whether the device raises no line.
    pub fn raises_none(&self) -> bool
        ensures { result ≡ raises_none self.now }
    {
        is_within(self.next, self.own)
    }

    /// Whether the device raises no line but these.
    pub fn raises_only(&self, lines: Lines) -> bool
        ensures { result ≡ raises_only lines self.now }
    {
        is_within(self.next, lines.with(self.own))
    }

    /// Whether the device adds just these lines.
    pub fn adds(&self, lines: Lines) -> bool
        ensures { result ≡ adds lines self.now }
    {
        self.next.same(lines.with(self.own))
    }

    /// Whether the device releases BSY and nothing else.
    pub fn releases_bsy(&self) -> bool
        ensures { result ≡ releases_bsy self.now }
    {
        falls(self.own.bsy(), self.next.bsy()) && Lines::BSY.with(self.next).same(self.own)
    }

    /// Whether the device releases all data lines, of which it drove some, and changes nothing else.
    pub fn releases_data(&self) -> bool
        ensures { result ≡ releases_data self.now }
    {
        self.own.data_bits() != 0 && self.next.data_bits() == 0 && same_control(self.own, self.next)
    }
}

/// Whether the lines that hold the bus are the same.
pub fn same_hold(a: Lines, b: Lines) -> bool
    ensures { result ≡ same_hold a b }
{
    a.bsy() == b.bsy() && a.sel() == b.sel() && a.rst() == b.rst()
}

/// Whether the lines of the phase are the same.
pub fn same_phase(a: Lines, b: Lines) -> bool
    ensures { result ≡ same_phase a b }
{
    a.msg() == b.msg() && a.cd() == b.cd() && a.io() == b.io()
}

/// Whether all lines but REQ, ACK and the data lines are the same.
pub fn same_stage(a: Lines, b: Lines) -> bool
    ensures { result ≡ same_stage a b }
{
    same_hold(a, b) && same_phase(a, b) && a.atn() == b.atn()
}

// Whether the lines of the transfer are the same.
fn same_transfer(a: Lines, b: Lines) -> bool
    ensures { result ≡ same_transfer a b }
{
    a.req() == b.req() && a.ack() == b.ack() && a.atn() == b.atn()
}

// Whether all lines but the data lines are the same.
fn same_control(a: Lines, b: Lines) -> bool
    ensures { result ≡ same_control a b }
{
    same_hold(a, b) && same_phase(a, b) && same_transfer(a, b)
}

/// Whether some data line is true.
pub fn drives_data(lines: Lines) -> bool
    ensures { result ≡ drives_data lines }
{
    lines.data_bits() != 0
}
