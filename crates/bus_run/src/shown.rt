//! The events that a row shows.
ghost use Rattle.std.specs.Prelude.{◌≡◌};

use bus_base::Event;

/// The events that a row shows: none, one or two, the newest first.
#[derive(Clone, Copy)]
pub enum Shown {
    /// None.
    Nothing,
    /// One.
    One([Event; 1]),
    /// Two.
    Two([Event; 2]),
}

impl Shown {
    ghost use Rattle.bus_run.specs.Shown.{shown_events};

    /// The newest first.
    pub fn as_slice(&self) -> &[Event]
        ensures { result.now ≡ shown_events self.now }
    {
        match self {
            Shown::Nothing => &[],
            Shown::One(events) => events.as_slice(),
            Shown::Two(events) => events.as_slice(),
        }
    }
}
