//! With which targets an initiator has had the connection in which the two may negotiate (ANSI X3.131-1994, 6.6.21).
ghost use Rattle.std.specs.Prelude.{◌≡◌, ◌<◌, ◌≤◌, [], ◌∷◌, List, Option, false, slice_set, slice_index_or};
ghost use Rattle.bus_trace.specs.declared.Row.{Row};
ghost use Rattle.bus_trace.specs.Terms.{connection};
ghost use Rattle.scenario.specs.Value.{ScenarioValue};
ghost use Rattle.due_model.specs.LastingState.{has_negotiated};
ghost use Rattle.due_model.specs.Plain.{AreOfDevices};
ghost use Rattle.due_model.specs.RunSteps.{run_state, events_of_row};
ghost use Rattle.initiator.specs.Negotiations.{no_negotiations, had_by_connection, had_after_event, had_after_events, negotiations_after, IsNegotiationsOf};
ghost use Rattle.initiator_books.specs.Intents.{aims_at_process};

use bus_base::{AbortKind, Dev, Event};
use bus_trace::{Connection, ScsiId};
use due_model::kept_is_plain;
use std::marker::Model;

/// With which targets this initiator has had the connection in which the two may negotiate: the first one for a
/// process that the initiator began, since the last reset of either. In a scenario of version 1 nobody negotiates after
/// a reset.
#[derive(Drop)]
pub struct Negotiations {
    dev: Dev,
    version: u8,
    // By target.
    had: [bool; 8],
}

impl Model for Negotiations {
    ghost use Rattle.initiator.specs.Negotiations.{NegotiationsValue};

    ghost Value = { NegotiationsValue };

    ghost view = { λ a. record { dev = a.dev; version = a.version; had = a.had } };
}

impl Negotiations {
    /// Of this initiator, in a scenario of this version, before any row.
    pub fn new(dev: Dev, version: u8) -> Negotiations
        ensures exact { result ≡ no_negotiations dev version }
        ensures trace { (s : ScenarioValue) → version ≡ s.version → IsNegotiationsOf s [] result }
    {
        Negotiations {
            dev,
            version,
            had: [false; 8],
        }
    }

    /// Whether it has had that connection with this target.
    pub fn includes(&self, target: ScsiId) -> bool
        ensures value { result ≡ slice_index_or self.now.had target false }
        ensures trace { (s : ScenarioValue) (rows : List Row) → IsNegotiationsOf s rows self.now
            → result ≡ has_negotiated (run_state s rows).negotiated self.now.dev target }
    {
        self.had[target.get() as usize]
    }

    fn set(&mut self, target: Dev, had: bool)
        ensures { self.new ≡ record self.old { had = slice_set self.old.had target had } }
    {
        if target < 8 {
            self.had[target as usize] = had;
        }
    }

    fn see_connection(
        &mut self,
        process: bool,
        before: Option<Connection>,
        after: Option<Connection>,
    )
        ensures { self.new ≡ had_by_connection self.old process before after }
    {
        if let (None, Some(connection)) = (before, after) {
            if !connection.reselected && connection.initiator.get() == self.dev && process {
                self.set(connection.target.get(), true);
            }
        }
    }

    fn see_event(&mut self, event: &Event)
        ensures { self.new ≡ had_after_event self.old event.now }
    {
        match event {
            Event::Reset(_) => self.had = [self.version == 1; 8],
            Event::Aborted(_, target, _, AbortKind::Device) => self.set(*target, self.version == 1),
            _ => {}
        }
    }

    fn see_all(&mut self, shown: &[Event])
        ensures { self.new ≡ had_after_events self.old shown.now }
    {
        let mut left = shown.len();
        while left > 0 {
            left -= 1;
            self.see_event(&shown[left]);
        }
    }

    /// A row was made: the connection before and after it, and the events that it shows, the newest first. `process`
    /// says whether the initiator last entered arbitration for a process before it.
    pub fn see(
        &mut self,
        process: bool,
        before: Option<Connection>,
        after: Option<Connection>,
        shown: &[Event],
    )
        ensures dev { self.new.dev ≡ self.old.dev }
        ensures exact { self.new ≡ negotiations_after self.old process before after shown.now }
        ensures trace { (s : ScenarioValue) (rows : List Row) (row : Row) → AreOfDevices (row ∷ rows)
            → before ≡ connection rows → after ≡ connection (row ∷ rows)
            → process ≡ aims_at_process s rows self.old.dev → shown.now ≡ events_of_row s rows row
            → IsNegotiationsOf s rows self.old → IsNegotiationsOf s (row ∷ rows) self.new }
    {
        kept_is_plain();
        self.see_connection(process, before, after);
        self.see_all(shown);
    }
}
