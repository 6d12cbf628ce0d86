//! A device of a scenario.
ghost use Rattle.std.specs.Prelude.{ℕ, ◌≡◌, ◌≤◌, ◌+◌, List, Option, Some, true};
ghost use Rattle.bus_trace.specs.declared.Row.{Row};
ghost use Rattle.scenario.specs.declared.value.CmdDef.{CmdDef};
ghost use Rattle.scenario.specs.Value.{ScenarioValue};
ghost use Rattle.array_model.specs.Processes.{command_at};
ghost use Rattle.array_model.specs.Seats.{is_initiator};
ghost use Rattle.due_model.specs.story_model.specs.Outcomes.{outcome_of};
ghost use Rattle.due_model.specs.RunSteps.{run_state};
ghost use Rattle.initiator.specs.Outcomes.{told_outcome_if};
ghost use Rattle.initiator.specs.Received.{undoes_no_byte};
ghost use Rattle.disk_target.specs.target_course.specs.Shown.{shown_list};
ghost use Rattle.bus_run.specs.Shown.{shown_events};
ghost use Rattle.bus_run.specs.Places.{IsIn};
ghost use Rattle.bus_engine.specs.Answers.{is_answered};
ghost use Rattle.bus_engine.specs.Members.{IsMember};
ghost use Rattle.bus_engine.specs.Over.{IsMemberOver, IsPlaceOver, AreUnitsIf};
ghost use Rattle.bus_engine.specs.declared.member.Member.{Member as MemberValue};
ghost use Rattle.due_model.specs.dialogue_model.specs.Events.{event_if};

use bus_base::{Event, ProcId};
use bus_run::{Device, Shown, rows_tie_devices};
use bus_trace::Row;
use disk_target::Target;
use disk_target::the_target_units::Units;
use due_model::the_dialogue_model::Observer;
use due_model::{hearings_are_plain, kept_is_plain};
use initiator::Host;
use reaction_model::Due;
use run_record::Outcome;
use scenario::FaultDef;
use std::alloc::Global;

/// A device of a scenario.
#[derive(Drop)]
pub enum Member {
    /// An initiator.
    Initiator(Host),
    /// A target.
    Target(Target),
}

// One event or none.
fn shown_if(event: Option<Event>) -> Shown
    ensures { shown_events result ≡ event_if event }
{
    match event {
        None => Shown::Nothing,
        Some(event) => Shown::One([event]),
    }
}

// One event, or two in their order, or none.
fn shown_by(shown: disk_target::the_target_course::Shown) -> Shown
    ensures { shown_events result ≡ shown_list shown }
{
    match (shown.event, shown.second) {
        (event, None) => shown_if(event),
        (None, second) => shown_if(second),
        (Some(event), Some(second)) => Shown::Two([second, event]),
    }
}

impl Device for Member {
    ghost IsOf = { IsMember };

    fn due(&self, observer: &Observer, fault: Option<FaultDef>) -> Option<Due> {
        rows_tie_devices();
        match self {
            Member::Initiator(host) => host.due(observer, fault),
            Member::Target(target) => target.due(observer, fault),
        }
    }

    fn shown(&self, observer: &Observer) -> Shown {
        rows_tie_devices();
        kept_is_plain();
        hearings_are_plain();
        match self {
            Member::Initiator(host) => shown_if(host.completion(observer)),
            Member::Target(target) => shown_by(target.shown(observer)),
        }
    }

    fn process(&self) -> ProcId {
        match self {
            Member::Initiator(host) => host.process(),
            Member::Target(_) => ProcId {
                command: 0,
                sense: false,
            },
        }
    }

    fn see(&mut self, observer: &Observer, row: &Row, label: ProcId, shown: &[Event]) {
        match self {
            Member::Initiator(host) => host.see(observer, row, shown),
            Member::Target(target) => target.see(observer, row, label, shown),
        }
    }

    fn see_in_others(&mut self, observer: &Observer, row: &Row) {
        match self {
            Member::Initiator(host) => host.see_in_others(observer, row),
            Member::Target(target) => target.see_in_others(observer),
        }
    }
}

impl Member {
    /// The outcome of a command of its own as an initiator, once it is known. It is handed out once; those of other
    /// commands stay.
    pub fn take_outcome(&mut self, alloc: Global, number: u16) -> Option<Outcome>
        ensures told { (s : ScenarioValue) (rows : List Row) (dev : ℕ) (c : CmdDef)
            → IsMemberOver s rows dev number self.old → command_at s.commands number ≡ Some c → c.host ≡ dev
            → is_initiator s.hosts dev ≡ true → undoes_no_byte s rows ≡ true
            → is_answered s (run_state s rows).story number c ≡ true
            → told_outcome_if result ≡ outcome_of s (run_state s rows).story number }
        ensures over { (s : ScenarioValue) (rows : List Row) (dev first : ℕ) → first ≤ number + 1
            → IsMemberOver s rows dev first self.old → IsMemberOver s rows dev (number + 1) self.new }
    {
        match self {
            Member::Initiator(host) => host.take_outcome(alloc, number),
            Member::Target(_) => None,
        }
    }

    /// Its units, where it is a target; it is over.
    pub fn into_units(self) -> Option<Units>
        ensures { (s : ScenarioValue) (rows : List Row) (dev first : ℕ) → IsMemberOver s rows dev first self
            → AreUnitsIf s rows dev result }
    {
        match self {
            Member::Initiator(_) => None,
            Member::Target(target) => Some(target.into_units()),
        }
    }
}

/// After its rows a run is over, and no outcome was taken yet.
pub fn runs_end()
    ensures { (s : ScenarioValue) (rows : List Row) (dev : ℕ) (place : Option MemberValue)
        → IsIn IsMember s rows dev place → IsPlaceOver s rows dev 0 place }
{}
