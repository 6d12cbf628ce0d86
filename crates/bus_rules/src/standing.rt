//! What stands before a row, as the rules and the short test ask for it one by one: in the terms' own form or in words.
ghost use Rattle.std.specs.Prelude.{◌≡◌, ◌<◌, ◌&&◌, not, List, is_none, is_some};
ghost use Rattle.bus_trace.specs.LineSet.{line_of};
ghost use Rattle.bus_trace.specs.declared.Row.{Row};
ghost use Rattle.bus_trace.specs.Terms.{raised};
ghost use Rattle.bus_trace.specs.Trace.{IsViewOf, drives, since};
ghost use Rattle.bus_phases.specs.Half.{is_nil};
ghost use Rattle.bus_phases.specs.Tables.{IsRaisesOf};
ghost use Rattle.bus_rules.specs.Judging.{Running};
ghost use Rattle.bus_rules.specs.Seen.{drives_bsy, initiator_data, initiator_of, target_data};

use bus_base::{Dev, Ns};
use bus_phases::{CommandBytes, Duty, Pulses};
use bus_trace::{Agreement, Arbitration, Call, Connection, LineTimes, Lines, ScsiId, drives_data};

/// What keeps the terms of the rules after some rows. Times are in ns.
pub trait Standing {
    // The terms.
    ghost terms: { Self → Running };

    /// The time of the last row, or 0.
    fn last_time(&self) -> Ns
        ensures { result ≡ (terms self.now).view.last };

    /// What is on the bus.
    fn bus(&self) -> Lines
        ensures { result ≡ (terms self.now).view.present };

    /// What this device drives.
    fn drives(&self, dev: Dev) -> Lines
        requires { dev < 8 }
        ensures { (rows : List Row) → IsViewOf rows (terms self.now).view → result ≡ drives rows dev };

    /// Since when each line but the data lines stands as it does.
    fn times(&self) -> LineTimes
        ensures { result ≡ (terms self.now).view.times };

    /// When a data line last changed.
    fn data_since(&self) -> Ns
        ensures { result ≡ (terms self.now).view.data_changed };

    /// Since when the ID of this device stands as it does.
    fn id_since(&self, id: ScsiId) -> Ns
        ensures { (rows : List Row) → IsViewOf rows (terms self.now).view → result ≡ since (line_of id) rows };

    /// When this device last raised BSY.
    fn bsy_raised(&self, dev: Dev) -> Ns
        requires { dev < 8 }
        ensures { (rows : List Row) → IsRaisesOf (λ s. s.bsy) rows (terms self.now).course.bsy_raised
            → result ≡ raised (λ s. s.bsy) rows dev };

    /// When this device last raised RST.
    fn rst_raised(&self, dev: Dev) -> Ns
        requires { dev < 8 }
        ensures { (rows : List Row) → IsRaisesOf (λ s. s.rst) rows (terms self.now).course.rst_raised
            → result ≡ raised (λ s. s.rst) rows dev };

    /// The receiver of the byte that crossed in the last row.
    fn receiver(&self) -> Option<ScsiId>
        ensures { result ≡ (terms self.now).course.receiver };

    /// The arbitration that stands.
    fn arbitration(&self) -> Option<Arbitration>
        ensures { result ≡ (terms self.now).course.arbitration };

    /// The call that stands.
    fn call(&self) -> Option<Call>
        ensures { result ≡ (terms self.now).course.call };

    /// Whether neither a call nor an arbitration stands.
    fn is_alone(&self) -> bool
        ensures { result ≡ is_none (terms self.now).course.call && is_none (terms self.now).course.arbitration };

    /// The connection that stands.
    fn connection(&self) -> Option<Connection>
        ensures { result ≡ (terms self.now).course.connection };

    /// The initiator of the connection, or of a reselection that is not one yet.
    fn initiator(&self) -> Option<ScsiId>
        ensures { result ≡ initiator_of (terms self.now).course.call (terms self.now).course.connection };

    /// The pulses in the present phase.
    fn pulses(&self) -> Pulses
        ensures { result ≡ (terms self.now).course.pulses };

    /// Whether I/O became true in the connection.
    fn turned(&self) -> bool
        ensures { result ≡ (terms self.now).course.turned };

    /// What ATN asks of the target.
    fn duty(&self) -> Duty
        ensures { result ≡ (terms self.now).course.duty };

    /// The agreement of the connection.
    fn agreement(&self) -> Agreement
        ensures { result ≡ (terms self.now).course.dialogue.heard.now.agreement };

    /// Whether a synchronous data transfer request is open.
    fn is_open(&self) -> bool
        ensures { result ≡ is_some (terms self.now).course.dialogue.heard.now.offer };

    /// The bytes of the command.
    fn command(&self) -> CommandBytes
        ensures { result ≡ (terms self.now).course.dialogue.heard.now.command };

    /// Whether a message is half sent in this phase.
    fn is_half(&self) -> bool
        ensures { result ≡ not (is_nil (terms self.now).course.dialogue.half) };

    /// Whether a byte has crossed in the connection.
    fn begun(&self) -> bool
        ensures { result ≡ (terms self.now).course.dialogue.begun };
}

/// Whether the initiator drives BSY.
#[inline(always)]
pub fn initiator_bsy<S: Standing>(stands: &S) -> bool
    ensures { (rows : List Row) → IsViewOf rows (S.terms stands.now).view
        → result ≡ drives_bsy (drives rows)
        (initiator_of (S.terms stands.now).course.call (S.terms stands.now).course.connection) }
{
    match stands.initiator() {
        None => false,
        Some(initiator) => stands.drives(initiator.get()).bsy(),
    }
}

/// Whether the initiator of the connection drives data lines.
#[inline(always)]
pub fn initiator_data<S: Standing>(stands: &S) -> bool
    ensures { (rows : List Row) → IsViewOf rows (S.terms stands.now).view
        → result ≡ initiator_data (drives rows) (S.terms stands.now).course.connection }
{
    match stands.connection() {
        None => false,
        Some(connection) => drives_data(stands.drives(connection.initiator.get())),
    }
}

/// Whether the target of the connection drives data lines.
#[inline(always)]
pub fn target_data<S: Standing>(stands: &S) -> bool
    ensures { (rows : List Row) → IsViewOf rows (S.terms stands.now).view
        → result ≡ target_data (drives rows) (S.terms stands.now).course.connection }
{
    match stands.connection() {
        None => false,
        Some(connection) => drives_data(stands.drives(connection.target.get())),
    }
}
