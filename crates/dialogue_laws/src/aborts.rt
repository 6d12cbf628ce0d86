// The law of the abort lines, named by the contract of a function that does nothing.

ghost use Rattle.std.specs.Prelude.{ℕ, ◌≡◌, ◌⊎◌, true, List, Some};
ghost use Rattle.due_model.specs.bus_base.specs.declared.Event.TheVariants as events;
ghost use Rattle.due_model.specs.bus_trace.specs.declared.Row.{Row};
ghost use Rattle.due_model.specs.scenario.specs.Value.{ScenarioValue};
ghost use Rattle.due_model.specs.scenario.specs.Writing.{Obeys};
ghost use Rattle.due_model.specs.scenario.specs.declared.value.AbortDef.{AbortDef};
ghost use Rattle.due_model.specs.story_model.specs.HistoryEvents.{abort_line_at};
ghost use Rattle.due_model.specs.story_model.specs.Items.{abort, has_item};
ghost use Rattle.due_model.specs.Next.{IsEnded, IsPrompt};
ghost use Rattle.due_model.specs.RunSteps.{run_state};
ghost use Rattle.progress_laws.specs.book_laws.specs.FullQueues.{has_event};
ghost use Rattle.dialogue_laws.specs.AbortLines.{AbortEnd, IsToSend, is_cut};

use due_model::wants_are_items;
use progress_laws::ended_traces_are_quiet;

/// After any rows of a prompt trace each abort line is sent, dropped or still to be sent (`so_far`), and once the trace
/// has ended none is to be sent any more (`ended`): a connection began for it, or its initiator dropped it with the
/// first calling in vain beyond its retries; never both. Of a line for which a
/// connection began the history has the abort, with the row with which its target went to BUS FREE, or RST cut that
/// connection (`told`).
pub fn abort_lines_are_over()
    ensures so_far { (s : ScenarioValue) (rows : List Row) (n : ℕ) (a : AbortDef) → Obeys s → IsPrompt s rows
        → abort_line_at s.aborts n ≡ Some a
        → AbortEnd s (run_state s rows).story.sent n a ⊎ IsToSend s (run_state s rows).story.sent n a }
    ensures ended { (s : ScenarioValue) (rows : List Row) (n : ℕ) (a : AbortDef) → Obeys s → IsPrompt s rows
        → IsEnded s rows → abort_line_at s.aborts n ≡ Some a → AbortEnd s (run_state s rows).story.sent n a }
    ensures told { (s : ScenarioValue) (rows : List Row) (n : ℕ) (a : AbortDef) → Obeys s → IsPrompt s rows
        → IsEnded s rows → abort_line_at s.aborts n ≡ Some a
        → has_item (run_state s rows).story.sent.sent (abort n) ≡ true
        → (has_event (run_state s rows).story.history (events.Aborted a.host a.target a.unit a.what) ≡ true)
        ⊎ (is_cut s rows n ≡ true) }
{
    wants_are_items();
    ended_traces_are_quiet();
}
