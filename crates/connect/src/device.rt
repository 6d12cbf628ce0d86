// A device on its way to a connection: what it knows of itself, and what it wants.
ghost use Rattle.std.specs.Prelude.{◌≡◌, ◌<◌, ◌≤◌};
ghost use Rattle.bus_lines.specs.Timely.{IsBefore};
ghost use Rattle.connect.specs.Ready.{IsReady, latency_limit, time_limit};
ghost use Rattle.connect.specs.Devices.{no_want, new_device, device_wanting, device_calling, device_without_want, device_driving, device_at};

use bus_base::{Dev, Ns};
use bus_trace::Lines;
use reaction_model::{Myself, Want};
use std::marker::Model;

/// What a device knows of itself, and what it wants of the bus.
#[derive(Drop)]
pub struct Device {
    me: Myself,
    want: Want,
}

impl Model for Device {
    ghost use Rattle.bus_lines.specs.Timely.{IsBefore};
    ghost use Rattle.connect.specs.Ready.{IsReady, time_limit};
    ghost use Rattle.connect.specs.DeviceValue.{DeviceValue};

    ghost Value = { DeviceValue };

    ghost view = { λ d. record { me = d.me; want = d.want } };

    ghost invariant = { λ d. IsReady d.me × IsBefore time_limit d.want.since };
}

/// It wants nothing of the bus.
fn no_want() -> Want
    ensures { result ≡ no_want }
{
    Want {
        since: None,
        callee: None,
        reselects: false,
        first: 0,
    }
}

impl Device {
    /// A device that drives nothing and wants nothing.
    pub fn new(dev: Dev, latency: Ns) -> Device
        requires dev { dev < 8 }
        requires latency { latency ≤ latency_limit }
        ensures { result ≡ new_device dev latency }
    {
        Device {
            me: Myself {
                dev,
                latency,
                own: Lines::none(),
                since: 0,
            },
            want: no_want(),
        }
    }

    /// What it knows of itself.
    pub fn myself(&self) -> Myself
        ensures exact { result ≡ self.now.me }
        ensures ready { IsReady self.now.me }
    {
        self.me
    }

    /// What it wants.
    pub fn want(&self) -> Want
        ensures exact { result ≡ self.now.want }
        ensures since { IsBefore time_limit self.now.want.since }
    {
        self.want
    }

    /// It wants the bus from now on.
    pub fn with_want(self, callee: Dev, reselects: bool, now: Ns) -> Device
        requires { now < time_limit }
        ensures { result ≡ device_wanting self callee reselects now }
    {
        Device {
            me: self.me,
            want: Want {
                since: Some(now),
                callee: Some(callee),
                reselects,
                first: 0,
            },
        }
    }

    /// It calls another device.
    pub fn with_callee(self, callee: Dev) -> Device
        ensures { result ≡ device_calling self callee }
    {
        Device {
            me: self.me,
            want: Want {
                callee: Some(callee),
                ..self.want
            },
        }
    }

    /// It wants nothing any more.
    pub fn without_want(self) -> Device
        ensures { result ≡ device_without_want self }
    {
        Device {
            me: self.me,
            want: no_want(),
        }
    }

    /// It drives these lines, as the rows say.
    pub fn driving(self, own: Lines) -> Device
        ensures { result ≡ device_driving self own }
    {
        Device {
            me: Myself { own, ..self.me },
            want: self.want,
        }
    }

    /// It drives these lines, since now.
    pub fn driving_since(self, own: Lines, now: Ns) -> Device
        requires { now < time_limit }
        ensures { result ≡ device_at self own now }
    {
        Device {
            me: Myself {
                own,
                since: now,
                ..self.me
            },
            want: self.want,
        }
    }
}
