//! Connections, and the bytes that cross in them (ANSI X3.131-1994, 6.1.3 to 6.1.5).
ghost use Rattle.std.specs.Prelude.{◌≡◌, None};
ghost use Rattle.bus_trace.specs.Terms.{connected, connection_of, connection_after, receiver_in, receiver_of};

use crate::changes::{Change, falls, rises};
use crate::rows::Row;
use crate::scsi_id::ScsiId;
use crate::selection::{Call, Calling};
use bus_base::Ns;

/// A connection that stands.
#[derive(Clone, Copy, Debug)]
pub struct Connection {
    /// Its initiator.
    pub initiator: ScsiId,
    /// Its target.
    pub target: ScsiId,
    /// The time of the row in which it began, in ns.
    pub began: Ns,
    /// Whether a reselection began it.
    pub reselected: bool,
}

fn connected(caller: ScsiId, calling: Calling, time: Ns) -> Connection
    ensures { result ≡ connected caller calling time }
{
    let (initiator, target) = if calling.reselects {
        (calling.called, caller)
    } else {
        (caller, calling.called)
    };
    Connection {
        initiator,
        target,
        began: time,
        reselected: calling.reselects,
    }
}

fn connection_of(call: Option<Call>, time: Ns) -> Option<Connection>
    ensures { result ≡ connection_of call time }
{
    let call = call?;
    let calling = call.calling?;
    calling.answered?;
    Some(connected(call.caller, calling, time))
}

/// The connection after a row.
pub fn connection_after(
    old: Option<Connection>,
    call: Option<Call>,
    change: &Change,
    row: &Row,
) -> Option<Connection>
    ensures { result ≡ connection_after old call change.now row.now }
{
    match old {
        None => {
            let ends_call = falls(change.before.sel(), change.after.sel());
            if ends_call && change.after.bsy() && !change.after.rst() {
                connection_of(call, row.time)
            } else {
                None
            }
        }
        Some(connection) => {
            if change.after.bsy() {
                Some(connection)
            } else {
                None
            }
        }
    }
}

// The connection that a row begins, if it does.
fn new_connection(call: &Option<Call>, change: &Change, row: &Row) -> Option<Connection>
    ensures { result ≡ connection_after None call.now change.now row.now }
{
    connection_after(None, *call, change, row)
}

/// The same in place. While a connection stands, only BSY ends it.
pub fn see_connection(
    connection: &mut Option<Connection>,
    call: &Option<Call>,
    change: &Change,
    row: &Row,
)
    ensures { connection.new ≡ connection_after connection.old call.now change.now row.now }
{
    match connection {
        None => *connection = new_connection(call, change, row),
        Some(_) => {
            if !change.after.bsy() {
                *connection = None;
            }
        }
    }
}

fn receiver_in(connection: &Connection, change: &Change) -> Option<ScsiId>
    ensures { result ≡ receiver_in connection.now change.now }
{
    let (before, after) = (change.before, change.after);
    if before.io() {
        if rises(before.req(), after.req()) {
            Some(connection.initiator)
        } else {
            None
        }
    } else if rises(before.ack(), after.ack()) {
        Some(connection.target)
    } else {
        None
    }
}

/// The device that receives the byte that crosses in a row, if one does.
pub fn receiver_of(connection: &Option<Connection>, change: &Change) -> Option<ScsiId>
    ensures { result ≡ receiver_of connection.now change.now }
{
    match connection {
        None => None,
        Some(connection) => receiver_in(connection, change),
    }
}
