// The seven states of a device on its way to a connection (6.1.1 to 6.1.4).
ghost use Rattle.std.specs.Prelude.{◌≡◌, ◌≢◌, ◌<◌, ◌≤◌};
ghost use Rattle.bus_lines.specs.Timely.{IsBefore};
ghost use Rattle.connect.specs.Ready.{IsReady, latency_limit, time_limit};
ghost use Rattle.connect.specs.Devices.{new_device, device_wanting, device_calling, device_without_want, freed_device};
ghost use Rattle.connect.specs.Links.{device_of, myself, want_of};
ghost use Rattle.connect.specs.declared.states.Link.TheVariants as in_state;

use crate::device::Device;
use bus_base::{Dev, Ns};
use bus_trace::{Lines, ScsiId};
use reaction_model::{Myself, Want};

/// It wants nothing, and has no part in a call or a connection. It drives nothing, but what it has still to release
/// where RST cut its connection.
#[derive(Drop)]
pub struct Idle {
    pub(crate) device: Device,
}

/// It wants the bus, and drives nothing.
#[derive(Drop)]
pub struct Waiting {
    pub(crate) device: Device,
}

/// It drives BSY and its ID since its entry into the arbitration (6.1.2).
#[derive(Drop)]
pub struct Contending {
    pub(crate) device: Device,
}

/// It has won, and drives SEL too, since then (6.1.2).
#[derive(Drop)]
pub struct Won {
    pub(crate) device: Device,
}

/// It calls another device: it drives SEL with both IDs, or SEL without them once it has withdrawn, and of BSY, ATN
/// and I/O what its last row says, since then (6.1.3, 6.1.4).
#[derive(Drop)]
pub struct Calling {
    pub(crate) device: Device,
}

/// It has answered, and drives BSY since then (6.1.3, 6.1.4).
#[derive(Drop)]
pub struct Answering {
    pub(crate) device: Device,
}

/// It is an end of the connection that stands, and drives what the rows say (6.1.5).
#[derive(Drop)]
pub struct Linked {
    pub(crate) device: Device,
    pub(crate) peer: ScsiId,
    pub(crate) is_target: bool,
}

/// Where a device stands on its way to a connection.
#[derive(Drop)]
pub enum Link {
    /// It wants nothing.
    Idle(Idle),
    /// It wants the bus.
    Waiting(Waiting),
    /// It takes part in an arbitration.
    Contending(Contending),
    /// It has won the arbitration.
    Won(Won),
    /// It calls another device.
    Calling(Calling),
    /// It has answered.
    Answering(Answering),
    /// It is connected.
    Linked(Linked),
}

/// What a step of a device does.
#[derive(Drop)]
pub struct Step<N> {
    /// The state afterwards.
    pub next: N,
    /// The lines that it drives from now on, where it makes a row.
    pub drives: Option<Lines>,
    /// When its next row is due, in ns, where one is due later.
    pub wake: Option<Ns>,
    /// Whether it samples the IDs now.
    pub sampled: bool,
}

impl Idle {
    /// An idle device of this ID, 0 to 7, with a latency of at most 100 ns.
    pub fn new(dev: Dev, latency: Ns) -> Idle
        requires dev { dev < 8 }
        requires latency { latency ≤ latency_limit }
        ensures { device_of (in_state.Idle result) ≡ new_device dev latency }
    {
        Idle {
            device: Device::new(dev, latency),
        }
    }

    /// From `now` on, in ns, it wants the bus to call this other device, by a reselection or by a selection.
    pub fn want(self, call: Dev, reselect: bool, now: Ns) -> Waiting
        requires call { call < 8 }
        requires other { call ≢ (myself (in_state.Idle self)).dev }
        requires now { now < time_limit }
        ensures { device_of (in_state.Waiting result)
            ≡ device_wanting (device_of (in_state.Idle self)) call reselect now }
    {
        Waiting {
            device: self.device.with_want(call, reselect, now),
        }
    }
}

impl Waiting {
    /// It wants to call this other device, since when it wanted the bus before.
    pub fn recall(self, call: Dev) -> Waiting
        requires call { call < 8 }
        requires other { call ≢ (myself (in_state.Waiting self)).dev }
        ensures { device_of (in_state.Waiting result) ≡ device_calling (device_of (in_state.Waiting self)) call }
    {
        Waiting {
            device: self.device.with_callee(call),
        }
    }

    /// It wants the bus no more.
    pub fn unwant(self) -> Idle
        ensures { device_of (in_state.Idle result) ≡ device_without_want (device_of (in_state.Waiting self)) }
    {
        Idle {
            device: self.device.without_want(),
        }
    }
}

impl Linked {
    /// The other end.
    pub fn peer(&self) -> Dev
        ensures exact { result ≡ self.now.peer }
        ensures device { result < 8 }
    {
        self.peer.get()
    }

    /// Whether it is the target.
    pub fn is_target(&self) -> bool
        ensures { result ≡ self.now.is_target }
    {
        self.is_target
    }

    /// The connection is over: it has released all its lines.
    pub fn free(self) -> Idle
        ensures { device_of (in_state.Idle result) ≡ freed_device (device_of (in_state.Linked self)) }
    {
        Idle {
            device: self.device.without_want().driving(Lines::none()),
        }
    }
}

impl Link {
    pub(crate) fn device(&self) -> &Device
        ensures { result.now ≡ device_of self.now }
    {
        match self {
            Link::Idle(link) => &link.device,
            Link::Waiting(link) => &link.device,
            Link::Contending(link) => &link.device,
            Link::Won(link) => &link.device,
            Link::Calling(link) => &link.device,
            Link::Answering(link) => &link.device,
            Link::Linked(link) => &link.device,
        }
    }

    pub(crate) fn into_device(self) -> Device
        ensures { result ≡ device_of self }
    {
        match self {
            Link::Idle(link) => link.device,
            Link::Waiting(link) => link.device,
            Link::Contending(link) => link.device,
            Link::Won(link) => link.device,
            Link::Calling(link) => link.device,
            Link::Answering(link) => link.device,
            Link::Linked(link) => link.device,
        }
    }

    /// Its ID.
    pub fn dev(&self) -> Dev
        ensures exact { result ≡ (myself self.now).dev }
        ensures device { result < 8 }
    {
        self.device().myself().dev
    }

    /// Who it is, what it drives and since when, in ns.
    pub fn myself(&self) -> Myself
        ensures exact { result ≡ myself self.now }
        ensures ready { IsReady (myself self.now) }
    {
        self.device().myself()
    }

    /// What it wants of the bus.
    pub fn want(&self) -> Want
        ensures exact { result ≡ want_of self.now }
        ensures since { IsBefore time_limit (want_of self.now).since }
    {
        self.device().want()
    }
}
