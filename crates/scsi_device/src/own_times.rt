//! When a device made its own rows of lines.
ghost use Rattle.std.specs.Prelude.{◌≡◌, ◌<◌, ◌^◌};
ghost use Rattle.due_model.specs.Own.{idle_device, own_after, own_next};

use bus_base::Ns;
use bus_trace::{Change, Kind, falls, rises};
use std::marker::Model;

/// When a device made its last row of lines, when it last raised ACK and RST, and when it last released RST, in ns.
#[derive(Drop)]
pub struct OwnTimes {
    row: Ns,
    ack: Ns,
    rst: Ns,
    released: Option<Ns>,
}

impl Model for OwnTimes {
    ghost use Rattle.std.specs.Prelude.{◌<◌, ◌^◌};
    ghost use Rattle.due_model.specs.Own.{Own};

    ghost Value = { Own };

    ghost view = { λ a. record { row = a.row; ack = a.ack; rst = a.rst; released = a.released } };

    ghost invariant = { λ a. (a.row < 2 ^ 63) × (a.ack < 2 ^ 63) × (a.rst < 2 ^ 63) };
}

impl OwnTimes {
    /// Those of a device that has made no row.
    pub fn new() -> OwnTimes
        ensures { result ≡ idle_device }
    {
        OwnTimes {
            row: 0,
            ack: 0,
            rst: 0,
            released: None,
        }
    }

    /// When it made its last row of lines.
    pub fn row(&self) -> Ns
        ensures value { result ≡ self.now.row }
        ensures bound { result < 2 ^ 63 }
    {
        self.row
    }

    /// When it last raised ACK.
    pub fn ack(&self) -> Ns
        ensures value { result ≡ self.now.ack }
        ensures bound { result < 2 ^ 63 }
    {
        self.ack
    }

    /// When it last raised RST.
    pub fn rst(&self) -> Ns
        ensures value { result ≡ self.now.rst }
        ensures bound { result < 2 ^ 63 }
    {
        self.rst
    }

    /// When it last released RST, if it did.
    pub fn released(&self) -> Option<Ns>
        ensures { result ≡ self.now.released }
    {
        self.released
    }

    fn after(&mut self, change: &Change, time: Ns)
        requires { time < 2 ^ 63 }
        ensures { self.new ≡ own_after self.old change.now time }
    {
        self.row = time;
        if rises(change.own.ack(), change.next.ack()) {
            self.ack = time;
        }
        if rises(change.own.rst(), change.next.rst()) {
            self.rst = time;
        }
        if falls(change.own.rst(), change.next.rst()) {
            self.released = Some(time);
        }
    }

    /// It made this row, of this time, which changed this; a fault row drives no lines.
    pub fn see(&mut self, kind: Kind, change: &Change, time: Ns)
        requires { time < 2 ^ 63 }
        ensures { self.new ≡ own_next kind self.old change.now time }
    {
        if let Kind::Drives(_) = kind {
            self.after(change, time);
        }
    }
}
