//! When each device last raised a line.
ghost use Rattle.std.specs.Prelude.{◌≡◌, ◌<◌, [], ◌∷◌, Bool, List, slice_index};
ghost use Rattle.bus_trace.specs.LineSet.{LineSet};
ghost use Rattle.bus_trace.specs.declared.Row.{Row};
ghost use Rattle.bus_trace.specs.Trace.{drives, driven_after};
ghost use Rattle.bus_trace.specs.Changes.{rises};
ghost use Rattle.bus_trace.specs.Terms.{raised, raised_next};

use bus_base::{Dev, Ns};
use bus_trace::rises;

/// When each of the eight devices last raised a line, or 0, in ns.
#[repr(C)]
#[derive(Clone, Copy)]
pub struct Raises {
    times: [Ns; 8],
}

impl Raises {
    ghost use Rattle.bus_phases.specs.Tables.{IsRaisesOf};

    /// No device has raised it.
    pub fn new() -> Raises
        ensures { (line : LineSet → Bool) → IsRaisesOf line [] result }
    {
        Raises { times: [0; 8] }
    }

    /// When this device last raised it.
    pub fn of(&self, dev: Dev) -> Ns
        requires { dev < 8 }
        ensures { (line : LineSet → Bool) (rows : List Row) → IsRaisesOf line rows self.now
            → result ≡ raised line rows dev }
    {
        self.times[dev as usize]
    }

    /// One row more, of this device, which drove the line or not, and drives it now or not.
    pub fn step(&mut self, dev: Dev, time: Ns, own: bool, next: bool)
        requires { dev < 8 }
        ensures { (line : LineSet → Bool) (rows : List Row) (row : Row) → IsRaisesOf line rows self.old → row.dev ≡ dev
            → row.time ≡ time → line (drives rows dev) ≡ own → line (driven_after row.kind (drives rows dev)) ≡ next
            → IsRaisesOf line (row ∷ rows) self.new }
    {
        if rises(own, next) {
            self.times[dev as usize] = time;
        }
    }
}
