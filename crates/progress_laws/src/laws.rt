// Laws of prompt traces, each named by the contract of a function that does nothing.

ghost use Rattle.std.specs.Prelude.{ℕ, ◌≡◌, ◌<◌, true, is_some, List, Option, Some, None};
ghost use Rattle.std.specs.List.{list_all};
ghost use Rattle.due_model.specs.bus_trace.specs.LineSet.{none};
ghost use Rattle.due_model.specs.bus_trace.specs.Trace.{bus, last_time};
ghost use Rattle.due_model.specs.bus_trace.specs.declared.Row.{Row};
ghost use Rattle.due_model.specs.bus_rules.specs.Lawful.{IsLawful};
ghost use Rattle.due_model.specs.scenario.specs.Value.{ScenarioValue};
ghost use Rattle.due_model.specs.scenario.specs.Writing.{Obeys};
ghost use Rattle.due_model.specs.story_model.specs.Outcomes.{Outcome, outcomes};
ghost use Rattle.due_model.specs.story_model.specs.Samples.{latency_of};
ghost use Rattle.due_model.specs.story_model.specs.TraceHistory.{story};
ghost use Rattle.due_model.specs.Next.{IsEnded, IsPrompt};
ghost use Rattle.due_model.specs.RunSteps.{run_state};
ghost use Rattle.due_model.specs.Wants.{want_time};

use due_model::wants_are_items;

/// A prompt trace that has ended is quiet: where nothing is due of any device, no line is true (`quiet`), the end obeys
/// every rule of the bus, as each row does (`lawful`), and no device wants the bus any more (`unwanted`). So no prompt
/// trace stalls: in a connection, in an arbitration, in a selection or reselection and under RST some device is due to
/// act.
pub fn ended_traces_are_quiet()
    ensures quiet { (s : ScenarioValue) (rows : List Row) → Obeys s → IsPrompt s rows → IsEnded s rows
        → bus rows ≡ none }
    ensures lawful { (s : ScenarioValue) (rows : List Row) → Obeys s → IsPrompt s rows → IsEnded s rows
        → IsLawful rows (last_time rows) }
    ensures unwanted { (s : ScenarioValue) (rows : List Row) → Obeys s → IsPrompt s rows → IsEnded s rows
        → (dev latency : ℕ) → dev < 8 → latency_of s dev ≡ Some latency → want_time s (run_state s rows) dev ≡ None }
{
    wants_are_items();
}

/// Each command has its outcome in a prompt trace that has ended: an open command without a connection stands in a
/// queue of the plain disk array, for which its target would want to reselect, and to those in a hold the sense of a
/// command is owed, for which they would want the bus.
pub fn ended_traces_have_outcomes()
    ensures answered { (s : ScenarioValue) (rows : List Row) → Obeys s → IsPrompt s rows → IsEnded s rows
        → list_all (λ (o : Option Outcome). is_some o) (outcomes s (story s rows)) ≡ true }
{
    wants_are_items();
}
