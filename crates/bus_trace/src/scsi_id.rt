//! The number of a device, as what stands on the bus keeps it (ANSI X3.131-1994, 6.1.2).
ghost use Rattle.std.specs.Prelude.{◌≡◌, ◌<◌};

use bus_base::Dev;
use std::marker::Model;

/// The SCSI ID of a device of the bus: one of eight numbers, of which each has a data line of its own. As a value it
/// is that number, which is below 8 wherever there is one of these.
#[derive(Clone, Copy, Debug)]
pub struct ScsiId {
    number: u8,
}

impl Model for ScsiId {
    ghost use Rattle.std.specs.Prelude.{ℕ, ◌<◌};

    ghost Value = { ℕ };

    ghost view = { λ a. a.number };

    ghost invariant = { λ a. a.number < 8 };

    ghost inverse = { λ n. record { number = n } };
}

impl ScsiId {
    /// The ID of a device of the bus.
    pub fn new(dev: Dev) -> ScsiId
        requires { dev < 8 }
        ensures { result ≡ dev }
    {
        ScsiId { number: dev }
    }

    /// Its number.
    pub fn get(self) -> Dev
        ensures number { result ≡ self }
        ensures small { result < 8 }
    {
        self.number
    }
}
