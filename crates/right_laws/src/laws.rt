// Laws of prompt traces, each named by the contract of a function that does nothing.

ghost use Rattle.std.specs.Prelude.{◌≡◌, true, is_some, List, reverse};
ghost use Rattle.due_model.specs.bus_trace.specs.declared.Row.{Row};
ghost use Rattle.due_model.specs.scenario.specs.Value.{ScenarioValue};
ghost use Rattle.due_model.specs.scenario.specs.Writing.{Obeys};
ghost use Rattle.due_model.specs.array_model.specs.ArrayHistory.{array_after, disks_of, tapes_of};
ghost use Rattle.due_model.specs.story_model.specs.Outcomes.{outcomes};
ghost use Rattle.due_model.specs.story_model.specs.Right.{Right, all_carried};
ghost use Rattle.due_model.specs.story_model.specs.TraceHistory.{story, trace_history};
ghost use Rattle.due_model.specs.Next.{IsPrompt};

/// The plain disk array permits the history of every prompt trace, however long it is (`permitted`). Each process
/// that ran and ended carried exactly its command block, the bytes that it moves and its status (`carried`), and so the
/// trace, its history, the outcomes, the blocks and the tapes belong together (`right`).
pub fn prompt_traces_are_right()
    ensures permitted { (s : ScenarioValue) (rows : List Row) → Obeys s → IsPrompt s rows
        → is_some (array_after s (trace_history s rows)) ≡ true }
    ensures carried { (s : ScenarioValue) (rows : List Row) → Obeys s → IsPrompt s rows
        → all_carried s (story s rows) (trace_history s rows) ≡ true }
    ensures right { (s : ScenarioValue) (rows : List Row) → Obeys s → IsPrompt s rows
        → Right s (reverse rows) (reverse (trace_history s rows)) (outcomes s (story s rows))
        (disks_of (array_after s (trace_history s rows))) (tapes_of (array_after s (trace_history s rows))) }
{}
