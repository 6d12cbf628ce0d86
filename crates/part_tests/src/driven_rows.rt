//! Rows by which a device drives lines, for the tests of several crates.
ghost use Rattle.std.specs.Prelude.{◌≡◌, ◌<◌};
ghost use Rattle.bus_trace.specs.OfTrace.{IsRow};

use bitflags::Flags;
use bus_base::{Dev, Ns};
use bus_trace::{Kind, Lines, Row};

/// From this time on, in ns, the device drives the lines of these bits.
pub fn drive(time: Ns, dev: Dev, bits: u32) -> Row
    requires { dev < 8 }
    ensures row { IsRow result }
    ensures time { result.time ≡ time }
{
    Row {
        time,
        dev,
        kind: Kind::Drives(Lines::from_bits_retain(bits)),
    }
}
