//! What the last row did (ANSI X3.131-1994, 6.1).
ghost use Rattle.std.specs.Prelude.{◌≡◌};
ghost use Rattle.bus_lines.specs.Effect.{no_effect, effect_of, IsOneConnection};

use bus_trace::{Change, Connection, Lines, Row, ScsiId, is_fault, receiver_of};

/// What a row did, on the bus and to the connection.
#[derive(Clone, Copy)]
pub struct RowEffect {
    /// What it changed.
    pub change: Change,
    /// The connection that stood before it.
    pub before: Option<Connection>,
    /// The connection that stands after it.
    pub after: Option<Connection>,
    /// The device that received the byte that crossed in it (6.1.5.1), if one did.
    pub receiver: Option<ScsiId>,
    /// Whether it tells a fault, which changes no line.
    pub fault: bool,
}

/// Before any row: nothing.
pub fn no_effect() -> RowEffect
    ensures { result ≡ no_effect }
{
    RowEffect {
        change: Change {
            before: Lines::none(),
            after: Lines::none(),
            own: Lines::none(),
            next: Lines::none(),
        },
        before: None,
        after: None,
        receiver: None,
        fault: false,
    }
}

/// What a row did that changed this, before and after which these connections stood.
pub fn effect_of(
    before: Option<Connection>,
    after: Option<Connection>,
    change: Change,
    row: &Row,
) -> RowEffect
    ensures { result ≡ effect_of before after change row.now }
{
    RowEffect {
        receiver: receiver_of(&before, &change),
        change,
        before,
        after,
        fault: is_fault(row.kind),
    }
}

impl RowEffect {
    // The next row, which changes this, and after which this connection stands, in place of the last. In most rows
    // the connection stands that stood before and after the last, so that it is told already.
    pub(crate) fn step(&mut self, after: &Option<Connection>, change: &Change, row: &Row)
        ensures { IsOneConnection self.old.before self.old.after after.now
            → self.new ≡ effect_of self.old.after after.now change.now row.now }
    {
        if self.before.is_some() && self.after.is_some() && after.is_some() {
            self.change = *change;
            self.receiver = receiver_of(&self.before, change);
            self.fault = is_fault(row.kind);
        } else {
            self.renew(after, *change, row);
        }
    }

    // A function of its own, since few rows pay for its copies.
    #[inline(never)]
    fn renew(&mut self, after: &Option<Connection>, change: Change, row: &Row)
        ensures { self.new ≡ effect_of self.old.after after.now change row.now }
    {
        *self = effect_of(self.after, *after, change, row);
    }
}
