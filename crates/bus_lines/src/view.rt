//! The running view of the bus, as devices have it.
ghost use Rattle.std.specs.Prelude.{ℕ, ◌≡◌, ◌<◌, ◌∷◌, [], List, None};
ghost use Rattle.bus_trace.specs.declared.Row.{Row};
ghost use Rattle.bus_trace.specs.LineSet.{line_of};
ghost use Rattle.bus_trace.specs.Trace.{IsViewOf, bus, drives, since, last_time};
ghost use Rattle.bus_trace.specs.Changes.{change_of};
ghost use Rattle.bus_trace.specs.Terms.{connection, arbitration_after, free_since};
ghost use Rattle.bus_lines.specs.Stage.{stage};
ghost use Rattle.bus_lines.specs.Effect.{effect};
ghost use Rattle.bus_lines.specs.Handshakes.{handshakes};
ghost use Rattle.bus_lines.specs.BusView.{IsBusViewOf};
ghost use Rattle.bus_trace.specs.View.{AreBefore};
ghost use Rattle.bus_lines.specs.Timely.{IsTimely, IsConnectionBefore, IsStageBefore, AreHandshakesBefore};

use crate::effect::{RowEffect, no_effect};
use crate::handshakes::Handshakes;
use crate::stage::{Stage, call_stage};
use bus_trace::the_bus_base::{Dev, Ns};
use bus_trace::{
    Arbitration, Call, Change, Connection, LineView, Lines, Row, arbitration_after, see_call,
    see_connection,
};
use std::marker::Model;

/// What any device knows of the bus after the rows of a trace so far: the lines and since when they stand as they
/// do, the stage of the bus, what the last row did, and the handshakes of the present phase. It is the same for all
/// devices, whatever the rows are.
#[derive(Drop)]
pub struct BusView {
    lines: LineView,
    arbitration: Option<Arbitration>,
    call: Option<Call>,
    connection: Option<Connection>,
    effect: RowEffect,
    handshakes: Handshakes,
}

impl Model for BusView {
    ghost use Rattle.bus_lines.specs.BusView.{BusViewValue};

    ghost Value = { BusViewValue };

    ghost view = { λ a. record {
      lines = a.lines;
      arbitration = a.arbitration;
      call = a.call;
      connection = a.connection;
      effect = a.effect;
      handshakes = a.handshakes;
    } };
}

impl BusView {
    /// The view before any row: a free bus, on which every line has been false since 0.
    pub fn new() -> BusView
        ensures trace { IsBusViewOf [] result }
    {
        BusView {
            lines: LineView::new(),
            arbitration: None,
            call: None,
            connection: None,
            effect: no_effect(),
            handshakes: Handshakes::new(),
        }
    }

    /// The view of the lines, with the times since which each stands as it does.
    pub fn lines(&self) -> &LineView
        ensures value { result.now ≡ self.now.lines }
        ensures trace { (rows : List Row) → IsBusViewOf rows self.now → IsViewOf rows result.now }
        ensures timely { (end : ℕ) → IsTimely end self.now → AreBefore end result.now }
    {
        &self.lines
    }

    /// What is on the bus.
    pub fn bus(&self) -> Lines
        ensures value { result ≡ self.now.lines.present }
        ensures trace { (rows : List Row) → IsBusViewOf rows self.now → result ≡ bus rows }
    {
        self.lines.bus()
    }

    /// What this device drives.
    pub fn drives(&self, dev: Dev) -> Lines
        requires { dev < 8 }
        ensures trace { (rows : List Row) → IsBusViewOf rows self.now → result ≡ drives rows dev }
    {
        self.lines.drives(dev)
    }

    /// When the line of this number last changed on the bus, in ns, or 0.
    pub fn since(&self, line: u8) -> Ns
        requires { line < 18 }
        ensures trace { (rows : List Row) → IsBusViewOf rows self.now → result ≡ since (line_of line) rows }
        ensures timely { (end : ℕ) → IsTimely end self.now → result < end }
    {
        self.lines.since(line)
    }

    /// The time of the last row, in ns, or 0.
    pub fn last_time(&self) -> Ns
        ensures trace { (rows : List Row) → IsBusViewOf rows self.now → result ≡ last_time rows }
        ensures timely { (end : ℕ) → IsTimely end self.now → result < end }
    {
        self.lines.last_time()
    }

    /// The stage of the bus (6.1, 6.2.2).
    pub fn stage(&self) -> Stage
        ensures trace { (rows : List Row) → IsBusViewOf rows self.now → result ≡ stage rows }
        ensures timely { (end : ℕ) → IsTimely end self.now → IsStageBefore end result }
    {
        if self.lines.bus().rst() {
            return Stage::InReset(self.lines.times().rst);
        }
        if let Some(connection) = self.connection {
            return Stage::InConnection(connection);
        }
        if let Some(call) = self.call {
            return call_stage(call);
        }
        if let Some(arbitration) = self.arbitration {
            return Stage::InArbitration(arbitration);
        }
        Stage::OnFreeBus(self.lines.free_since())
    }

    /// The connection that stands (6.1.3, 6.1.4).
    pub fn connection(&self) -> Option<Connection>
        ensures value { result ≡ self.now.connection }
        ensures trace { (rows : List Row) → IsBusViewOf rows self.now → result ≡ connection rows }
        ensures timely { (end : ℕ) → IsTimely end self.now → IsConnectionBefore end result }
    {
        self.connection
    }

    /// What the last row did; nothing before any row.
    pub fn effect(&self) -> &RowEffect
        ensures value { result.now ≡ self.now.effect }
        ensures trace { (rows : List Row) → IsBusViewOf rows self.now → result.now ≡ effect rows }
    {
        &self.effect
    }

    /// The rises of REQ and ACK in the present phase (6.1.5).
    pub fn handshakes(&self) -> &Handshakes
        ensures value { result.now ≡ self.now.handshakes }
        ensures trace { (rows : List Row) → IsBusViewOf rows self.now → result.now ≡ handshakes rows }
        ensures timely { (end : ℕ) → IsTimely end self.now → AreHandshakesBefore end result.now }
    {
        &self.handshakes
    }

    /// One more row. Its time may be any, also before that of the last row.
    pub fn step(&mut self, row: &Row)
        requires { row.now.dev < 8 }
        ensures trace { (rows : List Row) → IsBusViewOf rows self.old → IsBusViewOf (row.now ∷ rows) self.new }
    {
        let change = change_by(&self.lines, row);
        see_arbitration(&mut self.arbitration, &self.lines, &change, row);
        self.lines.step_to(row, change.after);
        see_connection(&mut self.connection, &self.call, &change, row);
        see_call(&mut self.call, &change, row);
        self.handshakes.step(self.connection, &change, row);
        self.effect.step(&self.connection, &change, row);
    }
}

// What one more row changes.
#[inline]
fn change_by(lines: &LineView, row: &Row) -> Change
    requires { row.now.dev < 8 }
    ensures { (rows : List Row) → IsViewOf rows lines.now → result ≡ change_of rows row.now }
{
    let own = lines.drives(row.dev);
    let next = row.kind.driven_after(own);
    Change {
        before: lines.bus(),
        after: lines.bus_with(row.dev, next),
        own,
        next,
    }
}

// The arbitration after a row of these lines. Where none stands and BSY is true before the row, none begins.
fn see_arbitration(
    arbitration: &mut Option<Arbitration>,
    lines: &LineView,
    change: &Change,
    row: &Row,
)
    ensures { (rows : List Row) → IsViewOf rows lines.now
        → arbitration.new ≡ arbitration_after arbitration.old (free_since rows) change.now row.now }
{
    if arbitration.is_some() || !change.before.bsy() {
        renew_arbitration(arbitration, lines.free_since(), change, row);
    }
}

// The same, where this was the time since which the bus was free.
fn renew_arbitration(arbitration: &mut Option<Arbitration>, free: Ns, change: &Change, row: &Row)
    ensures { arbitration.new ≡ arbitration_after arbitration.old free change.now row.now }
{
    *arbitration = arbitration_after(*arbitration, free, change, row);
}
