// What a device makes next, and from what.

ghost use Rattle.std.specs.Prelude.{◌≡◌};
ghost use Rattle.reaction_model.specs.Reactions.{due_at};

use bus_lines::the_bus_base::{Dev, Ns};
use bus_lines::the_bus_trace::{Kind, Lines};

/// The row that a device makes next, and when.
#[derive(Clone, Copy, Debug)]
pub struct Due {
    /// The time of the row, in ns.
    pub time: Ns,
    /// What the row says.
    pub kind: Kind,
}

/// The device that reacts.
#[derive(Clone, Copy)]
pub struct Myself {
    /// Its ID.
    pub dev: Dev,
    /// Its latency, which is added to the least delay of each reaction.
    pub latency: Ns,
    /// What it drives.
    pub own: Lines,
    /// When it made its last row of lines.
    pub since: Ns,
}

/// What a device wants of the bus.
#[derive(Clone, Copy)]
pub struct Want {
    /// Since when it wants the bus.
    pub since: Option<Ns>,
    /// Whom it calls.
    pub callee: Option<Dev>,
    /// Whether it reselects: whether it is a target.
    pub reselects: bool,
    /// The first byte that it sends after a reselection.
    pub first: u8,
}

/// At this time it drives these lines.
pub fn due_at(time: Ns, lines: Lines) -> Option<Due>
    ensures { result ≡ due_at time lines }
{
    Some(Due {
        time,
        kind: Kind::Drives(lines),
    })
}
