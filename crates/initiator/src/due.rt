// What an initiator does next, and when.
ghost use Rattle.std.specs.Prelude.{ℕ, ◌≡◌, ◌<◌, ◌≤◌, ◌^◌, true, false, slice_index_or, List, Option, Some, if◌then◌else◌};
ghost use Rattle.bus_trace.specs.declared.Row.{Row};
ghost use Rattle.bus_trace.specs.Trace.{bus, drives};
ghost use Rattle.bus_trace.specs.Phases.{is_command};
ghost use Rattle.bus_trace.specs.Terms.{connection};
ghost use Rattle.bus_lines.specs.BusView.{IsBusViewOf};
ghost use Rattle.bus_lines.specs.Timely.{IsTimely, IsBefore};
ghost use Rattle.connect.specs.Ready as link;
ghost use Rattle.handshake.specs.Bounds.{IsReady};
ghost use Rattle.bus_phases.specs.declared.words.End.TheVariants.{Initiator};
ghost use Rattle.bus_phases.specs.Dialogue.{is_of_other};
ghost use Rattle.scenario.specs.Value.{ScenarioValue};
ghost use Rattle.due_model.specs.dialogue_model.specs.Observer.{IsObserverOf};
ghost use Rattle.due_model.specs.dialogue_model.specs.Sending.{byte_to_send};
ghost use Rattle.due_model.specs.Next.{due};
ghost use Rattle.due_model.specs.Plain.{AreOfDevices};
ghost use Rattle.due_model.specs.RunSteps.{run_state};
ghost use Rattle.initiator_books.specs.scsi_device.specs.Told.{told, first_fault};
ghost use Rattle.scenario.specs.declared.value.FaultDef.{FaultDef};
ghost use Rattle.initiator.specs.OwnBytes.{sending_from};
ghost use Rattle.initiator.specs.States.{state_known, IsInitiatorOf, IsHostOf, IsNoTarget};
ghost use Rattle.initiator.specs.Waits.{waits};
ghost use Rattle.initiator.specs.Dues.{stands_calm, drives_byte, with_byte_if, myself_by, want_by, link_by, answering_of_host, plain_by, hand_by, calm_by, initiator_next};

use crate::laws::dues_are_of_initiators;
use crate::own_bytes::{CommandBytes, OwnBytes};
use crate::speech::Speech;
use crate::transfers::Transfers;
use bus_base::{Dev, Ns};
use bus_lines::BusView;
use bus_phases::End;
use bus_trace::{Connection, Lines, is_command, is_message_out};
use connect::{due_with_reset, link_due, sample_time};
use due_model::the_dialogue_model::Observer;
use handshake::initiator_due;
use initiator_books::the_io_pointers::Place;
use initiator_books::the_scsi_device::{OwnTimes, flip, is_pulsed, lines_seen, pace, sampled};
use reaction_model::{Answering, Due, Myself, Want};
use scenario::{FaultDef, HostDef};

/// What an initiator knows itself.
#[derive(Clone, Copy)]
pub struct Knowledge<'a> {
    /// When it made its rows.
    pub own: &'a OwnTimes,
    /// When it drives RST next, in ns.
    pub reset: Option<Ns>,
    /// Since when it wants the bus, in ns.
    pub since: Option<Ns>,
    /// Whom it calls.
    pub callee: Option<Dev>,
    /// What it says in MESSAGE OUT.
    pub speech: &'a Speech,
    /// What it sends else of its processes.
    pub bytes: &'a OwnBytes,
    /// To which of them its connection belongs, and their pointers.
    pub transfers: &'a Transfers,
}

fn byte_at(bytes: &[u8], place: usize) -> u8
    ensures { result ≡ slice_index_or bytes.now place 0 }
{
    match bytes.get(place) {
        Some(byte) => *byte,
        None => 0,
    }
}

// The byte of a command block in COMMAND, and else of its data.
fn process_byte(bus: Lines, bytes: &CommandBytes, place: Place) -> u8
    ensures { result ≡ (if is_command bus then slice_index_or bytes.now.cdb place.command 0
        else slice_index_or bytes.now.sent place.payload 0) }
{
    if is_command(bus) {
        byte_at(bytes.cdb(), place.command as usize)
    } else {
        byte_at(bytes.sent(), place.payload as usize)
    }
}

// The byte that it gives next in the phase of these lines.
fn byte_to_send(bus: Lines, known: &Knowledge<'_>) -> u8
    ensures { result ≡ byte_to_send bus known.now.speech.now (state_known known.now).sending }
{
    if is_message_out(bus) {
        return known.speech.next_word();
    }
    let bytes = known.bytes.of(known.transfers.process());
    process_byte(bus, bytes, known.transfers.pointers())
}

// Whether it may drive a byte next: on REQ, or by pulses, in a phase to the target.
fn drives_byte(own: Lines, bus: Lines, pulsed: bool) -> bool
    ensures { result ≡ drives_byte own bus pulsed }
{
    !bus.io() && !own.ack() && (pulsed || (bus.req() && own.data_bits() == 0))
}

fn byte_if(drives: bool, bus: Lines, known: &Knowledge<'_>) -> u8
    ensures { result ≡ (if drives then byte_to_send bus known.now.speech.now (state_known known.now).sending else 0) }
{
    if drives { byte_to_send(bus, known) } else { 0 }
}

// What an initiator of this line is, by what the view shows of it.
fn myself(host: &HostDef, view: &BusView, own: &OwnTimes) -> Myself
    requires below { host.now.dev < 8 }
    requires latency { host.now.latency ≤ 100 }
    ensures exact { (rows : List Row) → IsBusViewOf rows view.now
        → result ≡ record {
          dev = host.now.dev;
          latency = host.now.latency;
          own = drives rows host.now.dev;
          since = own.now.row;
        } }
    ensures ready { IsReady result }
    ensures linkable { link.IsReady result }
{
    Myself {
        dev: host.dev,
        latency: Ns::from(host.latency),
        own: view.drives(host.dev),
        since: own.row(),
    }
}

fn want(known: &Knowledge<'_>) -> Want
    ensures { result ≡ record { since = known.now.since; callee = known.now.callee; reselects = false; first = 0x80 } }
{
    Want {
        since: known.since,
        callee: known.callee,
        reselects: false,
        first: 0x80,
    }
}

// It asks for MESSAGE OUT where a request of the target is open.
fn speaks(offer: Option<End>) -> bool
    ensures { result ≡ is_of_other offer Initiator }
{
    match offer {
        Some(End::Target) => true,
        Some(End::Initiator) | None => false,
    }
}

// Whether it waits, by what it drives of the bus, which has these lines: for REQ to follow ACK, byte by byte, or for
// the first REQ of a phase (6.1.5.1).
fn waits(own: Lines, bus: Lines, begun: bool, pulsed: bool) -> bool
    ensures { result ≡ waits own bus begun pulsed }
{
    let alike = if own.ack() { bus.req() } else { !bus.req() };
    let owes = bus.io() && own.data_bits() != 0;
    alike && begun && !pulsed && !own.bsy() && !owes
}

// What it has to do in the phase, where it drives these lines. The byte is looked up only where it may drive it.
fn answering(observer: &Observer, known: &Knowledge<'_>, own: Lines, pulsed: bool) -> Answering
    ensures exact { (rows : List Row) (dev : ℕ) → IsObserverOf rows observer.now
        → result
        ≡ with_byte_if (drives_byte own (bus rows) pulsed) (answering_of_host (told rows dev) (state_known known.now)) }
    ensures raised { result.raised < 2 ^ 63 }
{
    let bus = observer.view().bus();
    Answering {
        byte: byte_if(drives_byte(own, bus, pulsed), bus, known),
        attends: known.speech.attends(),
        speaks: speaks(observer.offer()),
        raised: known.own.ack(),
    }
}

// By REQ and ACK, where it takes no fault.
fn acting_due(
    host: &HostDef,
    observer: &Observer,
    known: &Knowledge<'_>,
    me: &Myself,
) -> Option<Due>
    requires timely { IsTimely (2 ^ 63) observer.now.view }
    requires ready { IsReady me.now }
    ensures { (rows : List Row) → IsObserverOf rows observer.now
        → me.now ≡ myself_by host.now (told rows host.now.dev) (state_known known.now)
        → result ≡ plain_by host.now (told rows host.now.dev) (state_known known.now) }
{
    let view = observer.view();
    let pace = pace(observer, host.lag);
    initiator_due(
        observer.begun(),
        &lines_seen(view),
        view.handshakes(),
        me,
        &pace,
        &answering(observer, known, me.own, pace.pulsed),
    )
}

// The same. It does nothing while it waits for REQ.
fn plain_due(host: &HostDef, observer: &Observer, known: &Knowledge<'_>, me: &Myself) -> Option<Due>
    requires timely { IsTimely (2 ^ 63) observer.now.view }
    requires ready { IsReady me.now }
    ensures { (rows : List Row) → IsObserverOf rows observer.now
        → me.now ≡ myself_by host.now (told rows host.now.dev) (state_known known.now)
        → result ≡ plain_by host.now (told rows host.now.dev) (state_known known.now) }
{
    let view = observer.view();
    if waits(me.own, view.bus(), observer.begun(), is_pulsed(observer)) {
        return None;
    }
    acting_due(host, observer, known, me)
}

// In a connection of its own.
fn hand_due(
    host: &HostDef,
    observer: &Observer,
    known: &Knowledge<'_>,
    me: &Myself,
    fault: Option<FaultDef>,
) -> Option<Due>
    requires timely { IsTimely (2 ^ 63) observer.now.view }
    requires ready { IsReady me.now }
    ensures { (rows : List Row) → IsObserverOf rows observer.now
        → me.now ≡ myself_by host.now (told rows host.now.dev) (state_known known.now)
        → result ≡ hand_by host.now (told rows host.now.dev) fault (state_known known.now) }
{
    let plain = plain_due(host, observer, known, me);
    sampled(observer, host.dev, fault, plain)
}

// On its way to a connection, and while another device drives RST.
fn link_due_of(
    host: &HostDef,
    observer: &Observer,
    known: &Knowledge<'_>,
    fault: Option<FaultDef>,
) -> Option<Due>
    requires timely { IsTimely (2 ^ 63) observer.now.view }
    requires below { host.now.dev < 8 }
    requires latency { host.now.latency ≤ 100 }
    requires since { IsBefore (2 ^ 63) known.now.since }
    ensures { (rows : List Row) → IsObserverOf rows observer.now
        → result ≡ link_by host.now (told rows host.now.dev) fault (state_known known.now) }
{
    let view = observer.view();
    let me = myself(host, view, known.own);
    let sampled_at = sample_time(view, &me);
    link_due(view, &me, &want(known), flip(fault, sampled_at))
}

// The connection that stands, while RST is false.
fn calm_connection(view: &BusView) -> Option<Connection>
    ensures { (rows : List Row) → IsBusViewOf rows view.now → result ≡ stands_calm (bus rows).rst (connection rows) }
{
    if view.bus().rst() {
        None
    } else {
        view.connection()
    }
}

// Without a reset of its own.
fn calm_due(
    host: &HostDef,
    observer: &Observer,
    known: &Knowledge<'_>,
    me: &Myself,
    fault: Option<FaultDef>,
) -> Option<Due>
    requires timely { IsTimely (2 ^ 63) observer.now.view }
    requires below { host.now.dev < 8 }
    requires latency { host.now.latency ≤ 100 }
    requires ready { IsReady me.now }
    requires since { IsBefore (2 ^ 63) known.now.since }
    ensures { (rows : List Row) → IsObserverOf rows observer.now
        → me.now ≡ myself_by host.now (told rows host.now.dev) (state_known known.now)
        → result
        ≡ calm_by host.now (told rows host.now.dev) fault (state_known known.now) (bus rows).rst (connection rows) }
{
    match calm_connection(observer.view()) {
        Some(connection) if connection.initiator.get() == host.dev => {
            hand_due(host, observer, known, me, fault)
        }
        Some(_) => None,
        None => link_due_of(host, observer, known, fault),
    }
}

// A reset of its own goes before all that.
fn next_by(
    host: &HostDef,
    observer: &Observer,
    known: &Knowledge<'_>,
    fault: Option<FaultDef>,
) -> Option<Due>
    requires timely { IsTimely (2 ^ 63) observer.now.view }
    requires below { host.now.dev < 8 }
    requires latency { host.now.latency ≤ 100 }
    requires since { IsBefore (2 ^ 63) known.now.since }
    ensures { (rows : List Row) → IsObserverOf rows observer.now
        → result ≡ initiator_next host.now (told rows host.now.dev) fault (state_known known.now) }
{
    let me = myself(host, observer.view(), known.own);
    let calm = calm_due(host, observer, known, &me, fault);
    due_with_reset(&me, known.own.rst(), known.reset, calm)
}

/// What an initiator does next, and when, in ns, by what all devices are told, by what it knows itself, and by the
/// first fault that has not struck yet. It is exactly what is due of it, where it knows what the rows so far made known
/// to it. A reset of its own goes before all else, then RST of others; in a connection of its own it goes by REQ and
/// ACK, in one of others it does nothing, and else by what it wants of the bus.
pub fn initiator_next(
    host: &HostDef,
    observer: &Observer,
    known: &Knowledge<'_>,
    fault: Option<FaultDef>,
) -> Option<Due>
    requires timely { IsTimely (2 ^ 63) observer.now.view }
    requires below { host.now.dev < 8 }
    requires latency { host.now.latency ≤ 100 }
    requires since { IsBefore (2 ^ 63) known.now.since }
    ensures exact { (rows : List Row) → IsObserverOf rows observer.now
        → result ≡ initiator_next host.now (told rows host.now.dev) fault (state_known known.now) }
    ensures due { (s : ScenarioValue) (rows : List Row) → IsObserverOf rows observer.now
        → IsHostOf s host.now → AreOfDevices rows → IsNoTarget s rows host.now.dev
        → IsInitiatorOf s rows host.now (state_known known.now) → fault ≡ first_fault (run_state s rows).faults
        → result ≡ due s rows host.now.dev }
{
    dues_are_of_initiators();
    next_by(host, observer, known, fault)
}
