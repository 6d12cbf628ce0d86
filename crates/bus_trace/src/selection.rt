//! Selection and reselection (ANSI X3.131-1994, 6.1.3 and 6.1.4).
ghost use Rattle.std.specs.Prelude.{◌≡◌, ◌<◌};
ghost use Rattle.bus_trace.specs.Terms.{is_fault, drives_two_ids, is_other_id, other_id, new_calling, when, caller_goes_on, called_goes_on, calling_after, call_goes_on, call_after};

use crate::changes::{Change, falls, rises};
use crate::line_set::Lines;
use crate::rows::{Kind, Row};
use crate::scsi_id::ScsiId;
use bus_base::{Dev, Ns};

/// The caller's row that drives two IDs, and what came of it. Times are in ns.
#[derive(Clone, Copy, Debug)]
pub struct Calling {
    /// The device that is called.
    pub called: ScsiId,
    /// Whether the caller reselects: I/O is true in the calling.
    pub reselects: bool,
    /// The time of the calling.
    pub at: Ns,
    /// When the caller last released BSY.
    pub released: Option<Ns>,
    /// When the caller last released the IDs.
    pub withdrawn: Option<Ns>,
    /// When the caller last raised BSY again.
    pub resumed: Option<Ns>,
    /// When the called device last raised BSY: its answer.
    pub answered: Option<Ns>,
    /// Whether a fault struck the called device.
    pub struck: bool,
}

/// While SEL is true: who raised it, and what came of it.
#[derive(Clone, Copy, Debug)]
pub struct Call {
    /// The device whose row raised SEL.
    pub caller: ScsiId,
    /// When SEL rose, in ns.
    pub at: Ns,
    /// The calling, once it has come.
    pub calling: Option<Calling>,
}

/// Whether a row tells a fault.
pub fn is_fault(kind: Kind) -> bool
    ensures { result ≡ is_fault kind }
{
    match kind {
        Kind::Drives(_) => false,
        Kind::Fault(_) => true,
    }
}

/// Whether two IDs are on the data lines, of which one is this device's.
pub fn drives_two_ids(caller: ScsiId, lines: Lines) -> bool
    ensures { result ≡ drives_two_ids caller lines }
{
    lines.number_of_ids() == 2 && lines.has_id(caller.get())
}

fn is_other_id(lines: Lines, own: ScsiId, dev: Dev) -> bool
    requires { dev < 8 }
    ensures { result ≡ is_other_id lines own dev }
{
    dev != own.get() && lines.has_id(dev)
}

// The lowest ID on the data lines but this one.
fn other_id(lines: Lines, own: ScsiId) -> ScsiId
    ensures { result ≡ other_id lines own }
{
    if is_other_id(lines, own, 0) {
        ScsiId::new(0)
    } else if is_other_id(lines, own, 1) {
        ScsiId::new(1)
    } else if is_other_id(lines, own, 2) {
        ScsiId::new(2)
    } else if is_other_id(lines, own, 3) {
        ScsiId::new(3)
    } else if is_other_id(lines, own, 4) {
        ScsiId::new(4)
    } else if is_other_id(lines, own, 5) {
        ScsiId::new(5)
    } else if is_other_id(lines, own, 6) {
        ScsiId::new(6)
    } else {
        ScsiId::new(7)
    }
}

fn new_calling(caller: ScsiId, lines: Lines, time: Ns) -> Calling
    ensures { result ≡ new_calling caller lines time }
{
    Calling {
        called: other_id(lines, caller),
        reselects: lines.io(),
        at: time,
        released: None,
        withdrawn: None,
        resumed: None,
        answered: None,
        struck: false,
    }
}

/// The time, where it happens now; else what stood before.
pub fn when(now: bool, time: Ns, was: Option<Ns>) -> Option<Ns>
    ensures { result ≡ when now time was }
{
    if now { Some(time) } else { was }
}

fn caller_goes_on(old: Calling, change: &Change, time: Ns) -> Calling
    ensures { result ≡ caller_goes_on old change.now time }
{
    let (own, next) = (change.own, change.next);
    let withdraws = own.data_bits() != 0 && next.data_bits() == 0;
    Calling {
        released: when(falls(own.bsy(), next.bsy()), time, old.released),
        withdrawn: when(withdraws, time, old.withdrawn),
        resumed: when(rises(own.bsy(), next.bsy()), time, old.resumed),
        ..old
    }
}

fn called_goes_on(old: Calling, change: &Change, row: &Row) -> Calling
    ensures { result ≡ called_goes_on old change.now row.now }
{
    Calling {
        answered: when(
            rises(change.own.bsy(), change.next.bsy()),
            row.time,
            old.answered,
        ),
        struck: old.struck || is_fault(row.kind),
        ..old
    }
}

fn calling_after(
    caller: ScsiId,
    old: Option<Calling>,
    change: &Change,
    row: &Row,
) -> Option<Calling>
    ensures { result ≡ calling_after caller old change.now row.now }
{
    match old {
        None => {
            if row.dev == caller.get() && drives_two_ids(caller, change.next) {
                Some(new_calling(caller, change.next, row.time))
            } else {
                None
            }
        }
        Some(calling) => {
            if row.dev == caller.get() {
                Some(caller_goes_on(calling, change, row.time))
            } else if row.dev == calling.called.get() {
                Some(called_goes_on(calling, change, row))
            } else {
                Some(calling)
            }
        }
    }
}

fn call_goes_on(old: Option<Call>, change: &Change, row: &Row) -> Option<Call>
    ensures { result ≡ call_goes_on old change.now row.now }
{
    let call = old?;
    Some(Call {
        calling: calling_after(call.caller, call.calling, change, row),
        ..call
    })
}

/// The call after a row.
pub fn call_after(old: Option<Call>, change: &Change, row: &Row) -> Option<Call>
    requires { row.now.dev < 8 }
    ensures { result ≡ call_after old change.now row.now }
{
    if !change.after.sel() {
        None
    } else if rises(change.before.sel(), change.after.sel()) {
        Some(Call {
            caller: ScsiId::new(row.dev),
            at: row.time,
            calling: None,
        })
    } else {
        call_goes_on(old, change, row)
    }
}

/// The same in place. Where no call stands before the row and SEL is false after it, there is none.
pub fn see_call(call: &mut Option<Call>, change: &Change, row: &Row)
    requires { row.now.dev < 8 }
    ensures { call.new ≡ call_after call.old change.now row.now }
{
    if call.is_some() || change.after.sel() {
        renew_call(call, *change, row);
    }
}

// A function of its own, since each call pays for the room of its copies; of the change too, which else has to stand in
// memory for all rows.
fn renew_call(call: &mut Option<Call>, change: Change, row: &Row)
    requires { row.now.dev < 8 }
    ensures { call.new ≡ call_after call.old change row.now }
{
    *call = call_after(*call, &change, row);
}
