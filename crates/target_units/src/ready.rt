//! A unit that is ready for a reselection (ANSI X3.131-1994, 6.1.4).
use bus_base::{Dev, Ns};

/// A unit whose current process is ready for a reselection.
#[derive(Clone, Copy)]
pub struct Ready {
    /// From when on, in ns.
    pub time: Ns,
    /// The initiator of the process.
    pub initiator: Dev,
    /// The unit, 0 to 7.
    pub unit: u8,
}
