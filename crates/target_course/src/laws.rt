// Laws of a target, each named by the contract of a function that does nothing.
ghost use Rattle.std.specs.Prelude.{◌≡◌, List, ◌∷◌, Option, Some, None};
ghost use Rattle.bus_trace.specs.declared.Row.{Row};
ghost use Rattle.scenario.specs.declared.value.FaultDef.{FaultDef};
ghost use Rattle.scenario.specs.declared.value.TargetDef.{TargetDef};
ghost use Rattle.scenario.specs.Value.{ScenarioValue};
ghost use Rattle.due_model.specs.Next.{due};
ghost use Rattle.due_model.specs.Plain.{AreOfDevices};
ghost use Rattle.due_model.specs.RunSteps.{run_state};
ghost use Rattle.target_units.specs.scsi_device.specs.Told.{told, first_fault};
ghost use Rattle.target_course.specs.States.{TargetState, IsTargetOf, IsTargetLine, IsNoInitiator};
ghost use Rattle.target_course.specs.Dues.{target_next};
ghost use Rattle.target_course.specs.Plans.{plan_at, leaving_after, plan_begun};
ghost use Rattle.bus_trace.specs.declared.connection.Connection.{Connection};
ghost use Rattle.bus_trace.specs.Terms.{connection};
ghost use Rattle.due_model.specs.dialogue_model.specs.Planning.{plan_after};
ghost use Rattle.due_model.specs.dialogue_model.specs.Hearing.{hearing};

use due_model::{end_reactions_are_due, hearings_are_plain, kept_is_plain};
use target_units::the_scsi_device::devices_know_enough;

/// What is due of a target is what it does next by what all devices are told, by what it knows itself, and by the first
/// fault that has not struck yet.
pub fn dues_are_of_targets()
    ensures { (s : ScenarioValue) (rows : List Row) (d : TargetDef) (i : TargetState) (f : Option FaultDef)
        → IsTargetLine s d → AreOfDevices rows → IsNoInitiator rows d.dev → IsTargetOf s rows d i
        → f ≡ first_fault (run_state s rows).faults
        → due s rows d.dev ≡ target_next d (told rows d.dev) f i }
{
    end_reactions_are_due();
    kept_is_plain();
    devices_know_enough();
}

/// What the target of a connection plans goes on by what each row tells it and by how it leaves the phase that stands
/// (`plan_after`, `leaving_by`), whatever the rows of the eight devices are, and begins with the names of the process
/// after a reselection, and with whether it may negotiate after a selection (`first_plan`).
pub fn plans_are_heard()
    ensures more { (s : ScenarioValue) (rows : List Row) (row : Row) (m n : Connection) → AreOfDevices (row ∷ rows)
        → connection rows ≡ Some m → connection (row ∷ rows) ≡ Some n
        → plan_at s (row ∷ rows) ≡ plan_after (hearing rows row) (leaving_after s rows m.target) (plan_at s rows) }
    ensures first { (s : ScenarioValue) (rows : List Row) (row : Row) (n : Connection) → AreOfDevices (row ∷ rows)
        → connection rows ≡ None → connection (row ∷ rows) ≡ Some n
        → plan_at s (row ∷ rows) ≡ plan_begun s rows n }
{
    kept_is_plain();
    hearings_are_plain();
}
