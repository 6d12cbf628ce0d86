//! The rises of REQ and ACK in a phase (ANSI X3.131-1994, 6.1.5.2).
ghost use Rattle.std.specs.Prelude.{◌≡◌};
ghost use Rattle.bus_phases.specs.Phases.{count_after, no_pulses, pulses_on, pulses_after, turned_after};

use bus_base::Ns;
use bus_trace::{Change, Connection, changes_phase, rises, when};

/// How often REQ and ACK have risen in the present phase, and when they last did, in ns. A count stays at the
/// last u64.
#[derive(Clone, Copy)]
pub struct Pulses {
    /// How often REQ rose.
    pub req: u64,
    /// How often ACK rose.
    pub ack: u64,
    /// When REQ last rose.
    pub last_req: Option<Ns>,
    /// When ACK last rose.
    pub last_ack: Option<Ns>,
}

/// No pulse yet.
pub fn no_pulses() -> Pulses
    ensures { result ≡ no_pulses }
{
    Pulses {
        req: 0,
        ack: 0,
        last_req: None,
        last_ack: None,
    }
}

/// A count with one more, where it happens now; it stays at the last u64.
pub fn count_after(now: bool, count: u64) -> u64
    ensures { result ≡ count_after now count }
{
    if now { count.saturating_add(1) } else { count }
}

impl Pulses {
    /// One row more of the same phase.
    pub fn count(&mut self, change: &Change, time: Ns)
        ensures { self.new ≡ pulses_on self.old change.now time }
    {
        if rises(change.before.req(), change.after.req()) {
            self.req = self.req.saturating_add(1);
            self.last_req = Some(time);
        }
        if rises(change.before.ack(), change.after.ack()) {
            self.ack = self.ack.saturating_add(1);
            self.last_ack = Some(time);
        }
    }
}

fn pulses_on(old: Pulses, change: &Change, time: Ns) -> Pulses
    ensures { result ≡ pulses_on old change.now time }
{
    let req = rises(change.before.req(), change.after.req());
    let ack = rises(change.before.ack(), change.after.ack());
    Pulses {
        req: count_after(req, old.req),
        ack: count_after(ack, old.ack),
        last_req: when(req, time, old.last_req),
        last_ack: when(ack, time, old.last_ack),
    }
}

/// The pulses after a row, after which this connection stands.
pub fn pulses_after(
    old: Pulses,
    connection: Option<Connection>,
    change: &Change,
    time: Ns,
) -> Pulses
    ensures { result ≡ pulses_after old connection change.now time }
{
    match connection {
        None => no_pulses(),
        Some(_) => {
            if changes_phase(change) {
                no_pulses()
            } else {
                pulses_on(old, change, time)
            }
        }
    }
}

/// Whether I/O became true in the connection that stood before the row.
pub fn turned_after(turned: bool, connection: Option<Connection>, change: &Change) -> bool
    ensures { result ≡ turned_after turned connection change.now }
{
    match connection {
        None => false,
        Some(_) => turned || rises(change.before.io(), change.after.io()),
    }
}
