// The law of the fault rows, named by the contract of a function that does nothing.

ghost use Rattle.std.specs.Prelude.{◌≡◌, List, reverse};
ghost use Rattle.due_model.specs.bus_trace.specs.declared.Row.{Row};
ghost use Rattle.due_model.specs.scenario.specs.Value.{ScenarioValue};
ghost use Rattle.due_model.specs.scenario.specs.Writing.{Obeys};
ghost use Rattle.due_model.specs.story_model.specs.Samples.{expected_strikes, row_strikes};
ghost use Rattle.due_model.specs.Next.{IsPrompt, IsEnded};
ghost use Rattle.right_laws.specs.SoFar.{StrikesSoFar};

/// The fault rows of a prompt trace that has ended are those of the scenario: each fault strikes its bit of the first
/// sample at or after its time that no earlier fault took, a byte at its receiver or the IDs at a called device, with
/// RST taking away what was to be sampled later; and no other sample is struck (`struck`). After any rows of such a
/// trace the same holds of all samples but for the one that comes next; and the faults that have not struck yet are
/// those that are left of the scenario's (`so_far`).
pub fn fault_rows_are_of_the_scenario()
    ensures struck { (s : ScenarioValue) (rows : List Row) → Obeys s → IsPrompt s rows → IsEnded s rows
        → expected_strikes s rows ≡ row_strikes (reverse rows) }
    ensures so_far { (s : ScenarioValue) (rows : List Row) → Obeys s → IsPrompt s rows → StrikesSoFar s rows }
{}
