//! Rules 14 to 16 and 27: who drives what in a connection, and its end (ANSI X3.131-1994, 6.1.5 to 6.1.9).
ghost use Rattle.std.specs.Prelude.{◌≡◌};
ghost use Rattle.bus_rules.specs.Connected.{connection_ends, has_no_target_line, has_no_initiator_line, keeps_sides, changes_well, asks_well, keeps_lines, raises_data, raises_in_turn, initiator_released, keeps_data_direction, io_true_since, waits_for_turn, target_released, keeps_direction_delay, keeps_freeing};

use crate::seen::Seen;
use bus_base::{Dev, Ns};
use bus_phases::turned_after;
use bus_trace::{
    BUS_SETTLE_DELAY, Change, Connection, DATA_RELEASE_DELAY, DESKEW_DELAY, Lines, Row, TURN_DELAY,
    changes_phase, connection_after, drives_data, falls, is_reserved, rises,
};

// The connection that stands before the row, or that begins with it.
fn connection_ends(seen: &Seen, row: &Row) -> Option<Connection>
    ensures { result ≡ connection_ends seen.now row.now }
{
    match seen.connection {
        Some(connection) => Some(connection),
        None => connection_after(seen.connection, seen.call, &seen.change, row),
    }
}

/// Whether no line of the target is driven.
pub fn has_no_target_line(lines: Lines) -> bool
    ensures { result ≡ has_no_target_line lines }
{
    !(lines.cd() || lines.io() || lines.msg() || lines.req())
}

/// Whether no line of the initiator is driven.
pub fn has_no_initiator_line(lines: Lines) -> bool
    ensures { result ≡ has_no_initiator_line lines }
{
    !(lines.ack() || lines.atn())
}

fn keeps_sides(connection: &Connection, dev: Dev, lines: Lines) -> bool
    ensures { result ≡ keeps_sides connection.now dev lines }
{
    if dev == connection.target.get() {
        has_no_initiator_line(lines)
    } else if dev == connection.initiator.get() {
        has_no_target_line(lines)
    } else {
        lines.is_none()
    }
}

fn changes_well(change: &Change) -> bool
    ensures { result ≡ changes_well change.now }
{
    !changes_phase(change) || (!change.before.req() && !change.before.ack())
}

fn asks_well(connection: &Connection, seen: &Seen, time: Ns) -> bool
    ensures { result ≡ asks_well connection.now seen.now time }
{
    let (before, after) = (seen.change.before, seen.change.after);
    let since = seen.times.phase().max(connection.began);
    !rises(before.req(), after.req())
        || (!changes_phase(&seen.change)
            && !is_reserved(before)
            && time.saturating_sub(since) >= BUS_SETTLE_DELAY)
}

/// Rule 14: each line is driven by the end that it belongs to, the phase changes while REQ and ACK are false, and
/// REQ comes once it has settled.
pub fn keeps_lines(seen: &Seen, row: &Row) -> bool
    ensures { result ≡ keeps_lines seen.now row.now }
{
    match &connection_ends(seen, row) {
        None => true,
        Some(connection) => {
            keeps_sides(connection, row.dev, seen.change.next)
                && changes_well(&seen.change)
                && asks_well(connection, seen, row.time)
        }
    }
}

/// Whether the device raises a data line.
pub fn raises_data(change: &Change) -> bool
    ensures { result ≡ raises_data change.now }
{
    change.own.data_bits() | change.next.data_bits() != change.own.data_bits()
}

fn raises_in_turn(connection: &Connection, seen: &Seen, dev: Dev) -> bool
    ensures { result ≡ raises_in_turn connection.now seen.now dev }
{
    if !raises_data(&seen.change) {
        return true;
    }
    if dev == connection.target.get() {
        seen.change.before.io()
    } else if dev == connection.initiator.get() {
        !seen.change.before.io()
    } else {
        true
    }
}

/// The latest time of rule 15: the initiator drives no data lines where I/O has been true for longer than a data
/// release delay.
pub fn initiator_released(seen: &Seen, time: Ns) -> bool
    ensures { result ≡ initiator_released seen.now time }
{
    match seen.connection {
        None => true,
        Some(_) => {
            !seen.change.before.io()
                || (time.saturating_sub(seen.times.io) <= DATA_RELEASE_DELAY
                    || !seen.initiator_data)
        }
    }
}

/// Rule 15: the data lines are raised by the end whose turn I/O says, and the initiator releases them in time.
pub fn keeps_data_direction(seen: &Seen, row: &Row) -> bool
    ensures { result ≡ keeps_data_direction seen.now row.now }
{
    let in_turn = match &seen.connection {
        None => true,
        Some(connection) => raises_in_turn(connection, seen, row.dev),
    };
    in_turn && initiator_released(seen, row.time)
}

fn io_true_since(seen: &Seen, time: Ns) -> Ns
    ensures { result ≡ io_true_since seen.now time }
{
    if rises(seen.change.before.io(), seen.change.after.io()) {
        time
    } else {
        seen.times.io
    }
}

fn waits_for_turn(seen: &Seen, row: &Row) -> bool
    ensures { result ≡ waits_for_turn seen.now row.now seen.now.connection }
{
    match seen.connection {
        None => true,
        Some(connection) => {
            let turned = turned_after(seen.turned, seen.connection, &seen.change);
            let is_target = row.dev == connection.target.get();
            !(seen.change.after.io() && turned && is_target && drives_data(seen.change.next))
                || row.time.saturating_sub(io_true_since(seen, row.time)) >= TURN_DELAY
        }
    }
}

/// The latest time of rule 16: the target drives no data lines where I/O has been false for longer than a deskew
/// delay.
pub fn target_released(seen: &Seen, time: Ns) -> bool
    ensures { result ≡ target_released seen.now time }
{
    match seen.connection {
        None => true,
        Some(_) => {
            seen.change.before.io()
                || (time.saturating_sub(seen.times.io) <= DESKEW_DELAY || !seen.target_data)
        }
    }
}

/// Rule 16: the target drives data lines once the initiator has had time to release them, and releases them in
/// time.
pub fn keeps_direction_delay(seen: &Seen, row: &Row) -> bool
    ensures { result ≡ keeps_direction_delay seen.now row.now }
{
    waits_for_turn(seen, row) && target_released(seen, row.time)
}

/// Rule 27: the target releases BSY while REQ and ACK are false, and raises no line with it.
pub fn keeps_freeing(seen: &Seen, row: &Row) -> bool
    ensures { result ≡ keeps_freeing seen.now row.now }
{
    let change = &seen.change;
    match seen.connection {
        None => true,
        Some(connection) => {
            !(row.dev == connection.target.get() && falls(change.own.bsy(), change.next.bsy()))
                || (!change.before.req() && !change.before.ack() && change.raises_none())
        }
    }
}
