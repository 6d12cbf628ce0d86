//! With which initiators a target has had the connection in which the two may negotiate (ANSI X3.131-1994, 6.6.21).
ghost use Rattle.std.specs.Prelude.{◌≡◌, ◌<◌, ◌≤◌, ◌&&◌, ◌||◌, [], ◌∷◌, List, Option, Some, None, true, false, length, slice_index_or};
ghost use Rattle.bus_trace.specs.declared.Row.{Row};
ghost use Rattle.bus_trace.specs.Terms.{connection};
ghost use Rattle.scenario.specs.Value.{ScenarioValue};
ghost use Rattle.due_model.specs.dialogue_model.specs.Hearing.{hearing as hearing_in};
ghost use Rattle.due_model.specs.LastingState.{has_negotiated};
ghost use Rattle.due_model.specs.Plain.{AreOfDevices};
ghost use Rattle.due_model.specs.RunSteps.{run_state, is_for_process, events_of_row};
ghost use Rattle.target_units.specs.scsi_device.specs.Heard.{heard};
ghost use Rattle.target_course.specs.Negotiated.{nobody_met, opened_in, met_by_opening, is_opening_left, met_by_connection, met_after_reset, met_after_event, met_after_events, negotiated_seen, is_open_to, IsNegotiatedOf, IsHeardSo};

use crate::progress::is_phase_left;
use bus_base::{AbortKind, Dev, Event};
use bus_trace::{Connection, ScsiId, lines_on_the_bus};
use due_model::the_dialogue_model::Hearing;
use due_model::{hearings_are_plain, kept_is_plain};
use std::marker::Model;

/// With which initiators this target has had the connection in which the two may negotiate: the first one for a
/// process in which it was selected, since the last reset of either. Of the connection that stands it learns as its
/// opening is left: an abort is no process. In a scenario of version 1 nobody negotiates after a reset.
#[derive(Drop)]
pub struct Negotiated {
    dev: Dev,
    version: u8,
    // By initiator.
    had: [bool; 8],
    // The initiator of the connection whose opening lasts.
    opening: Option<Dev>,
}

impl Model for Negotiated {
    ghost use Rattle.target_course.specs.Negotiated.{NegotiatedValue};

    ghost Value = { NegotiatedValue };

    ghost view = { λ a. record { dev = a.dev; version = a.version; had = a.had; opening = a.opening } };
}

fn is_opening_left(hearing: &Hearing, after: Option<Connection>) -> bool
    ensures { result ≡ is_opening_left hearing.now after }
{
    match after {
        None => true,
        Some(_) => is_phase_left(hearing),
    }
}

impl Negotiated {
    /// Of this target, in a scenario of this version, before any row.
    pub fn new(dev: Dev, version: u8) -> Negotiated
        ensures exact { result ≡ nobody_met dev version }
        ensures trace { (s : ScenarioValue) → version ≡ s.version → IsNegotiatedOf s [] result }
    {
        Negotiated {
            dev,
            version,
            had: [false; 8],
            opening: None,
        }
    }

    /// Whether it has had that connection with this initiator, where no connection stands; and in one whose opening
    /// lasts, whether it had had it before (`during`).
    pub fn includes(&self, initiator: ScsiId) -> bool
        ensures value { result ≡ slice_index_or self.now.had initiator false }
        ensures free { (s : ScenarioValue) (rows : List Row) → IsNegotiatedOf s rows self.now → connection rows ≡ None
            → result ≡ has_negotiated (run_state s rows).negotiated initiator self.now.dev }
        ensures during { (s : ScenarioValue) (rows : List Row) → IsNegotiatedOf s rows self.now
            → has_negotiated (run_state s rows).negotiated initiator self.now.dev
            ≡ (result || is_open_to self.now.opening initiator && is_for_process (run_state s rows).served) }
    {
        self.had[initiator.get() as usize]
    }

    fn open(&mut self, connection: Connection)
        ensures { self.new ≡ opened_in self.old connection }
    {
        if !connection.reselected && connection.target.get() == self.dev {
            self.opening = Some(connection.initiator.get());
        }
    }

    fn set(&mut self, initiator: Dev)
        ensures { self.new ≡ met_by_opening self.old false (Some initiator) }
    {
        if initiator < 8 {
            self.had[initiator as usize] = true;
        }
        self.opening = None;
    }

    fn leave(&mut self, aborts: bool)
        ensures { self.new ≡ met_by_opening self.old aborts self.old.opening }
    {
        if let Some(initiator) = self.opening {
            if aborts {
                self.opening = None;
            } else {
                self.set(initiator);
            }
        }
    }

    fn see_connection(
        &mut self,
        aborts: bool,
        hearing: &Hearing,
        before: Option<Connection>,
        after: Option<Connection>,
    )
        ensures { self.new ≡ met_by_connection self.old aborts hearing.now before after }
    {
        match (before, after) {
            (None, None) => {}
            (None, Some(connection)) => self.open(connection),
            (Some(_), after) => {
                if is_opening_left(hearing, after) {
                    self.leave(aborts);
                }
            }
        }
    }

    fn reset(&mut self)
        ensures { self.new ≡ met_after_reset self.old }
    {
        self.had = [self.version == 1; 8];
        self.opening = None;
    }

    fn see_event(&mut self, event: &Event)
        ensures { self.new ≡ met_after_event self.old event.now }
    {
        match event {
            Event::Reset(_) => self.reset(),
            Event::Aborted(_, target, _, AbortKind::Device) => {
                if *target == self.dev {
                    self.reset();
                }
            }
            _ => {}
        }
    }

    fn see_all(&mut self, shown: &[Event])
        ensures { self.new ≡ met_after_events self.old shown.now }
    {
        let mut left = shown.len();
        while left > 0 {
            left -= 1;
            self.see_event(&shown[left]);
        }
    }

    /// A row was made, of any device, that told this, and before and after which these connections stand; it shows
    /// these events, the newest first. `aborts` says whether the target has heard an abort before it in the MESSAGE OUT
    /// phase that stands.
    pub fn see(
        &mut self,
        aborts: bool,
        hearing: &Hearing,
        before: Option<Connection>,
        after: Option<Connection>,
        shown: &[Event],
    )
        ensures dev { self.new.dev ≡ self.old.dev }
        ensures exact { self.new ≡ negotiated_seen self.old aborts hearing.now before after shown.now }
        ensures trace { (s : ScenarioValue) (rows : List Row) (row : Row) → AreOfDevices (row ∷ rows)
            → hearing.now ≡ hearing_in rows row → before ≡ connection rows → after ≡ connection (row ∷ rows)
            → shown.now ≡ events_of_row s rows row → heard s (row ∷ rows) ≡ true
            → IsHeardSo s rows self.old.dev aborts
            → IsNegotiatedOf s rows self.old → IsNegotiatedOf s (row ∷ rows) self.new }
    {
        kept_is_plain();
        hearings_are_plain();
        lines_on_the_bus();
        self.see_connection(aborts, hearing, before, after);
        self.see_all(shown);
    }
}
