// What a target does next, by what it drives itself and by what it sees of the bus.
ghost use Rattle.std.specs.Prelude.{◌≡◌, ◌<◌, ◌≤◌, ◌^◌, ◌&&◌, List};
ghost use Rattle.bus_trace.specs.declared.Row.{Row};
ghost use Rattle.bus_trace.specs.Terms.{connection};
ghost use Rattle.bus_trace.specs.Trace.{bus, drives};
ghost use Rattle.bus_lines.specs.BusView.{IsBusViewOf};
ghost use Rattle.bus_lines.specs.Timely.{IsTimely};
ghost use Rattle.handshake.specs.Bounds.{IsReady};
ghost use Rattle.connect.specs.Ready as link;
ghost use Rattle.scenario.specs.declared.value.TargetDef.{TargetDef};
ghost use Rattle.due_model.specs.dialogue_model.specs.Observer.{IsObserverOf};
ghost use Rattle.target_course.specs.scsi_device.specs.Told.{told};
ghost use Rattle.target_course.specs.Alike.{is_driven};
ghost use Rattle.target_course.specs.Dues.{link_by, myself_by, want_of_ready};
ghost use Rattle.target_course.specs.States.{TargetState, IsReadyWithin};
ghost use Rattle.disk_target.specs.Bytes.{stands_calm};
ghost use Rattle.disk_target.specs.Needs.{goes_on_in, going_on};
ghost use Rattle.disk_target.specs.Waits.{drives_pulse, waits, is_in_pulse, is_waiting};

use bus_base::{Dev, Ns};
use bus_lines::BusView;
use bus_trace::{Connection, Lines};
use connect::{link_due, sample_time};
use due_model::the_dialogue_model::Observer;
use reaction_model::{Due, Myself, Offering, Want};
use scenario::{FaultDef, TargetDef};
use target_course::the_scsi_device::{Itself, flip, is_pulsed};
use target_course::the_target_units::Ready;

/// What a target of this line is, by what the view shows of it.
pub fn myself(def: &TargetDef, itself: &Itself, view: &BusView) -> Myself
    requires below { def.now.dev < 8 }
    requires latency { def.now.latency ≤ 100 }
    ensures exact { (rows : List Row) → IsBusViewOf rows view.now
        → result ≡ record {
          dev = def.now.dev;
          latency = def.now.latency;
          own = drives rows def.now.dev;
          since = itself.now.own.row;
        } }
    ensures ready { IsReady result }
    ensures linkable { link.IsReady result }
{
    Myself {
        dev: def.dev,
        latency: Ns::from(def.latency),
        own: view.drives(def.dev),
        since: itself.own().row(),
    }
}

/// The connection that stands, while RST is false.
pub fn calm_connection(view: &BusView) -> Option<Connection>
    ensures { (rows : List Row) → IsBusViewOf rows view.now → result ≡ stands_calm (bus rows).rst (connection rows) }
{
    if view.bus().rst() {
        None
    } else {
        view.connection()
    }
}

// ---- on its way to a connection

// What a target wants of the bus: to reselect the initiator of the process that is ready first, since its time. The
// first byte that it sends then is IDENTIFY with the unit (6.1.4, 6.6.7).
fn want_of_ready(ready: Option<Ready>) -> Want
    requires { IsReadyWithin ready }
    ensures { result ≡ want_of_ready ready }
{
    match ready {
        None => Want {
            since: None,
            callee: None,
            reselects: true,
            first: 0x80,
        },
        Some(ready) => Want {
            since: Some(ready.time),
            callee: Some(ready.initiator),
            reselects: true,
            first: 0x80 + ready.unit,
        },
    }
}

/// What a target that is this does next on its way to a connection, and while another device drives RST, by the unit
/// that is ready first (6.1.1 to 6.1.4).
pub fn link_due_of(
    observer: &Observer,
    me: &Myself,
    ready: Option<Ready>,
    fault: Option<FaultDef>,
) -> Option<Due>
    requires timely { IsTimely (2 ^ 63) observer.now.view }
    requires linkable { link.IsReady me.now }
    requires within { IsReadyWithin ready }
    ensures { (rows : List Row) (d : TargetDef) (i : TargetState) → IsObserverOf rows observer.now
        → me.now ≡ myself_by d (told rows d.dev) i → ready ≡ i.ready
        → result ≡ link_by d (told rows d.dev) fault i }
{
    let view = observer.view();
    let sampled_at = sample_time(view, me);
    link_due(view, me, &want_of_ready(ready), flip(fault, sampled_at))
}

// ---- in a connection of its own

// By REQ and ACK, where the first phase of the connection has begun, and bytes cross by pulses or not.
fn waits(req: bool, ack: bool, begun: bool, pulsed: bool) -> bool
    ensures { result ≡ waits req ack begun pulsed }
{
    let differ = if req { !ack } else { ack };
    differ && begun && !pulsed
}

/// Whether the target of a connection waits for ACK to follow REQ, byte by byte (6.1.5.1).
pub fn is_waiting(observer: &Observer, dev: Dev) -> bool
    requires { dev < 8 }
    ensures { (rows : List Row) → IsObserverOf rows observer.now → result ≡ is_waiting (told rows dev) }
{
    let view = observer.view();
    waits(
        view.drives(dev).req(),
        view.bus().ack(),
        observer.begun(),
        is_pulsed(observer),
    )
}

/// Whether the target of a connection drives a REQ pulse (6.1.5.2).
pub fn is_in_pulse(observer: &Observer, dev: Dev) -> bool
    requires { dev < 8 }
    ensures { (rows : List Row) → IsObserverOf rows observer.now → result ≡ is_in_pulse (told rows dev) }
{
    let req = observer.view().drives(dev).req();
    drives_pulse(req, observer.begun(), is_pulsed(observer))
}

// By its REQ, where the first phase of the connection has begun, and bytes cross by pulses or not.
fn drives_pulse(req: bool, begun: bool, pulsed: bool) -> bool
    ensures { result ≡ drives_pulse req begun pulsed }
{
    req && begun && pulsed
}

/// Whether the target of a connection goes on in the phase: while it drives REQ, `asks`, where a byte follows, and
/// before the first REQ.
pub fn goes_on_in(asks: bool, follows: bool, bare: bool) -> bool
    ensures { result ≡ goes_on_in asks follows bare }
{
    asks || follows || bare
}

/// Whether it drives a byte of its own next, in a phase to the initiator, `io`: the first one before the first REQ,
/// then one that follows, as it negates REQ, and by pulses (6.1.5.1, 6.1.5.2).
pub fn is_driven(io: bool, bare: bool, follows: bool, asks: bool, pulsed: bool) -> bool
    ensures { result ≡ (io && is_driven bare follows asks pulsed) }
{
    io && (bare || (follows && (asks || pulsed)))
}

/// What it has to do that goes on in the phase with this byte, where one follows.
pub fn going_on(byte: u8, follows: bool) -> Offering
    ensures { result ≡ going_on byte follows }
{
    Offering {
        byte,
        follows,
        to: Lines::none(),
        wait: 0,
    }
}
