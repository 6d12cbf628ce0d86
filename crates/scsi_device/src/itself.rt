//! What a device knows of its own rows.
ghost use Rattle.std.specs.Prelude.{◌≡◌, ◌<◌, ◌^◌, [], ◌∷◌, List, IfOk};
ghost use Rattle.bus_trace.specs.declared.rows.Row.{Row};
ghost use Rattle.bus_lines.specs.BusView.{IsBusViewOf};
ghost use Rattle.bus_lines.specs.Timely.{IsTimely};
ghost use Rattle.scenario.specs.Value.{ScenarioValue};
ghost use Rattle.due_model.specs.Own.{own_next};
ghost use Rattle.scsi_device.specs.Itself.{IsItselfOf, itself, itself_with};

use crate::own_times::OwnTimes;
use crate::resets::next_reset;
use bus_base::{Dev, NoMemory, Ns};
use bus_lines::BusView;
use bus_trace::{Change, Kind, Row};
use scenario::{ResetDef, Scenario};
use std::alloc::Global;
use std::marker::Model;

/// What a device knows of its own rows: when it made them, and when it drives RST next.
#[derive(Drop)]
pub struct Itself {
    dev: Dev,
    own: OwnTimes,
    resets: Vec<ResetDef>,
    reset: Option<Ns>,
}

impl Model for Itself {
    ghost use Rattle.scsi_device.specs.Itself.{ItselfValue};

    ghost Value = { ItselfValue };

    ghost view = { λ a. record { dev = a.dev; own = a.own; resets = a.resets.items; reset = a.reset } };
}

impl Itself {
    /// Before any row. It takes the memory of the reset lines of the scenario.
    pub fn new(alloc: Global, scenario: &Scenario, dev: Dev) -> Result<Itself, NoMemory>
        ensures exact { IfOk result (λ made. made ≡ itself dev scenario.now.resets) }
        ensures trace { IfOk result (λ made. IsItselfOf scenario.now [] made) }
    {
        let resets = Vec::from_slice(alloc, scenario.resets.as_slice())?;
        let own = OwnTimes::new();
        let reset = next_reset(dev, own.released(), resets.as_slice());
        Ok(Itself {
            dev,
            own,
            resets,
            reset,
        })
    }

    /// When it made its rows.
    pub fn own(&self) -> &OwnTimes
        ensures { result.now ≡ self.now.own }
    {
        &self.own
    }

    /// When it drives RST next, in ns.
    pub fn reset(&self) -> Option<Ns>
        ensures { result ≡ self.now.reset }
    {
        self.reset
    }

    // A row of its own, of this time, which changed this.
    fn see_own(&mut self, kind: Kind, change: &Change, time: Ns)
        requires { time < 2 ^ 63 }
        ensures { self.new ≡ itself_with self.old (own_next kind self.old.own change.now time) }
    {
        self.own.see(kind, change, time);
        self.reset = next_reset(self.dev, self.own.released(), self.resets.as_slice());
    }

    /// One more row, of any device; the view is that after it. A row of another device tells it nothing.
    pub fn see(&mut self, view: &BusView, row: &Row)
        requires { IsTimely (2 ^ 63) view.now }
        ensures dev { self.new.dev ≡ self.old.dev }
        ensures trace { (s : ScenarioValue) (rows : List Row) → IsBusViewOf (row.now ∷ rows) view.now
            → IsItselfOf s rows self.old → IsItselfOf s (row.now ∷ rows) self.new }
    {
        if row.dev != self.dev {
            return;
        }
        self.see_own(row.kind, &view.effect().change, view.last_time());
    }
}
