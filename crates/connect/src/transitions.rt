// To which state the view and a row of its own lead.
ghost use Rattle.std.specs.Prelude.{◌≡◌, ◌<◌};
ghost use Rattle.connect.specs.Ready.{time_limit};
ghost use Rattle.connect.specs.Devices.{device_at};
ghost use Rattle.connect.specs.Links.{device_of, myself, linked_state, link_apart, link_in_connection, present_link, released_link, driving_link, link_by_row, link_after_row, next_link};

use crate::device::Device;
use crate::states::{Answering, Calling, Contending, Idle, Link, Linked, Waiting, Won};
use bus_base::Ns;
use bus_lines::Stage;
use bus_trace::{Connection, Lines, ScsiId};

fn linked_state(device: Device, peer: ScsiId, is_target: bool) -> Link
    ensures { result ≡ linked_state device peer is_target }
{
    Link::Linked(Linked {
        device: device.without_want(),
        peer,
        is_target,
    })
}

fn link_apart(own: Lines, link: Link) -> Link
    ensures { result ≡ link_apart own link }
{
    match link {
        Link::Idle(link) => Link::Idle(Idle {
            device: link.device.driving(own),
        }),
        Link::Waiting(link) => Link::Waiting(Waiting {
            device: link.device.driving(own),
        }),
        Link::Contending(link) => Link::Contending(Contending {
            device: link.device.driving(own),
        }),
        Link::Won(link) => Link::Won(Won {
            device: link.device.driving(own),
        }),
        Link::Calling(link) => Link::Calling(Calling {
            device: link.device.driving(own),
        }),
        Link::Answering(link) => Link::Answering(Answering {
            device: link.device.driving(own),
        }),
        Link::Linked(link) => Link::Idle(Idle {
            device: link.device.driving(own),
        }),
    }
}

fn link_in_connection(own: Lines, link: Link, connection: Connection) -> Link
    ensures { result ≡ link_in_connection own link connection }
{
    let dev = link.myself().dev;
    if connection.initiator.get() == dev {
        linked_state(link.into_device().driving(own), connection.target, false)
    } else if connection.target.get() == dev {
        linked_state(link.into_device().driving(own), connection.initiator, true)
    } else {
        link_apart(own, link)
    }
}

/// The state by the stage of the bus, where the device drives these lines.
pub fn present_link(own: Lines, link: Link, stage: Stage) -> Link
    ensures { result ≡ present_link own link stage }
{
    match stage {
        Stage::InConnection(connection) => link_in_connection(own, link, connection),
        _ => link_apart(own, link),
    }
}

fn released_link(device: Device) -> Link
    ensures { result ≡ released_link device }
{
    if device.want().since.is_some() {
        Link::Waiting(Waiting { device })
    } else {
        Link::Idle(Idle { device })
    }
}

fn driving_link(contends: bool, device: Device, stage: Stage) -> Link
    ensures { result ≡ driving_link contends device stage }
{
    match stage {
        Stage::OnFreeBus(_) => Link::Contending(Contending { device }),
        Stage::InArbitration(_) => {
            if contends {
                Link::Won(Won { device })
            } else {
                Link::Contending(Contending { device })
            }
        }
        Stage::InCalling(call) => {
            if call.caller.get() == device.myself().dev {
                Link::Calling(Calling { device })
            } else {
                Link::Answering(Answering { device })
            }
        }
        Stage::InAnswer(_, _, _) => Link::Calling(Calling { device }),
        Stage::InConnection(_) => Link::Idle(Idle { device }),
        Stage::InReset(_) => Link::Idle(Idle { device }),
    }
}

fn link_by_row(contends: bool, device: Device, stage: Stage) -> Link
    ensures { result ≡ link_by_row contends device stage }
{
    if device.myself().own.is_none() {
        released_link(device)
    } else {
        driving_link(contends, device, stage)
    }
}

fn link_after_row(link: Link, lines: Lines, now: Ns, stage: Stage) -> Link
    requires { now < time_limit }
    ensures { result ≡ link_after_row link (device_at (device_of link) lines now) stage }
{
    match link {
        Link::Linked(link) => Link::Linked(Linked {
            device: link.device.driving_since(lines, now),
            peer: link.peer,
            is_target: link.is_target,
        }),
        link => {
            let contends = link.myself().own.bsy();
            link_by_row(
                contends,
                link.into_device().driving_since(lines, now),
                stage,
            )
        }
    }
}

/// The state after a row of these lines, if it makes one.
pub fn next_link(link: Link, now: Ns, stage: Stage, lines: &Option<Lines>) -> Link
    requires { now < time_limit }
    ensures { result ≡ next_link link now stage lines.now }
{
    match lines {
        None => link,
        Some(lines) => link_after_row(link, *lines, now, stage),
    }
}
