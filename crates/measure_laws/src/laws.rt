//! The law of how long a run may be: the contract of a function that only cites another law.
ghost use Rattle.std.specs.Prelude.{◌<◌, ◌/◌, ◌^◌, ◌-◌, List, length};
ghost use Rattle.due_model.specs.bus_trace.specs.declared.Row.{Row};
ghost use Rattle.due_model.specs.scenario.specs.Value.{ScenarioValue};
ghost use Rattle.due_model.specs.scenario.specs.Writing.{Obeys};
ghost use Rattle.due_model.specs.story_model.specs.Budget.{budget};
ghost use Rattle.due_model.specs.Goals.{RunsEnd, StaysWithin};
ghost use Rattle.due_model.specs.Next.{IsPrompt};
ghost use Rattle.measure_laws.specs.Measure.{Falls, StartsWithin};

use due_model::runs_are_prompt;

/// The measure of a run is within the eighth part of its budget at its start, and falls with each row of a prompt
/// trace. So a prompt trace has fewer rows than that part, a device being asked eight times for each of them, and
/// fewer than 2^32 - 1; and the run of each scenario ends.
pub fn runs_stay_within_budget()
    ensures starts { StartsWithin }
    ensures falls { Falls }
    ensures few { (s : ScenarioValue) (rows : List Row) → Obeys s → IsPrompt s rows → length rows < budget s / 8 }
    ensures small { (s : ScenarioValue) (rows : List Row) → Obeys s → IsPrompt s rows → length rows < 2 ^ 32 - 1 }
    ensures within { StaysWithin }
    ensures ends { RunsEnd }
{
    runs_are_prompt()
}
