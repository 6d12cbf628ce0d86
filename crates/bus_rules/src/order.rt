//! Rules 1 and 2: what holds of any row.
ghost use Rattle.std.specs.Prelude.{◌≡◌, ◌<◌, Some};
ghost use Rattle.bus_rules.specs.Order.{is_in_order, is_of_device, strikes_byte, strikes_ids, strikes_ids_of, is_news};

use crate::seen::Seen;
use bus_base::{Dev, Ns};
use bus_trace::{BUS_SETTLE_DELAY, Calling, Kind, Row, ScsiId};

/// Rule 1: a time is not below that of the row before.
pub fn is_in_order(seen: &Seen, time: Ns) -> bool
    ensures { result ≡ is_in_order seen.now time }
{
    seen.last <= time
}

/// Whether there is a device, and it is this one.
pub fn is_of_device(device: Option<ScsiId>, dev: Dev) -> bool
    ensures { result ≡ is_of_device device dev }
{
    match device {
        None => false,
        Some(device) => device.get() == dev,
    }
}

fn strikes_byte(seen: &Seen, row: &Row) -> bool
    ensures { result ≡ strikes_byte seen.now row.now }
{
    is_of_device(seen.receiver, row.dev) && seen.last == row.time
}

fn strikes_ids_of(seen: &Seen, row: &Row, calling: Calling) -> bool
    ensures { result ≡ strikes_ids_of seen.now row.now (Some calling) }
{
    let bus = seen.change.before;
    let is_called = row.dev == calling.called.get()
        && calling.answered.is_none()
        && !calling.struck;
    let has_ids = bus.sel() && bus.has_id(calling.called.get()) && !bus.bsy();
    is_called && has_ids && row.time.saturating_sub(seen.times.bsy) >= BUS_SETTLE_DELAY
}

fn strikes_ids(seen: &Seen, row: &Row) -> bool
    ensures { result ≡ strikes_ids seen.now row.now seen.now.call }
{
    match seen.call {
        None => false,
        Some(call) => match call.calling {
            None => false,
            Some(calling) => strikes_ids_of(seen, row, calling),
        },
    }
}

/// Rule 2: a row of lines differs from what the device drove; a fault row names a byte, or IDs, that no
/// fault named before.
pub fn is_news(seen: &Seen, row: &Row) -> bool
    ensures { result ≡ is_news seen.now row.now }
{
    match row.kind {
        Kind::Drives(_) => !seen.change.own.same(seen.change.next),
        Kind::Fault(_) => strikes_byte(seen, row) || strikes_ids(seen, row),
    }
}
