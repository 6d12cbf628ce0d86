// The law of the causes of endings, named by the contract of a function that does nothing.
ghost use Rattle.std.specs.Prelude.{ℕ, ◌≡◌, true, false, nat_lt, List, Option, Some};
ghost use Rattle.bus_trace.specs.declared.Row.{Row};
ghost use Rattle.scenario.specs.declared.value.CmdDef.{CmdDef};
ghost use Rattle.scenario.specs.Value.{ScenarioValue};
ghost use Rattle.due_model.specs.array_model.specs.Processes.{command_at};
ghost use Rattle.story_model.specs.Items.{command_item, sense_item, has_item, count_item, sense_id, command_id};
ghost use Rattle.story_model.specs.Outcomes.{ending_of, has_end};
ghost use Rattle.story_model.specs.Story.{by_status, by_loss, by_reset, by_abort, unanswered};
ghost use Rattle.story_model.specs.TraceHistory.{retries_of};
ghost use Rattle.due_model.specs.Plain.{AreOfDevices};
ghost use Rattle.due_model.specs.RunSteps.{run_state};
ghost use Rattle.initiator.specs.Causes.{has_status, has_loss, has_bus_reset, has_command_abort, has_sense_stop};
/// How a command ended has its cause in what the rows tell, lawful or not: the history has its end with that status
/// (`status`), its loss (`loss`), a reset (`reset`) or an abort that concerns it (`abort`), or its initiator called for
/// it in vain more often than it tries again (`unanswered`). Where its automatic REQUEST SENSE is over without an end,
/// so that a CHECK CONDITION stays without sense, the history has its loss, a reset or an abort that stops it
/// (`stopped`).
pub fn endings_have_causes()
    ensures status { (s : ScenarioValue) (rows : List Row) (n status : ℕ)
        → ending_of (run_state s rows).story.ended n ≡ Some (by_status status)
        → has_status (run_state s rows).story.history (command_id n) status ≡ true }
    ensures loss { (s : ScenarioValue) (rows : List Row) (n : ℕ)
        → ending_of (run_state s rows).story.ended n ≡ Some by_loss
        → has_loss (run_state s rows).story.history (command_id n) ≡ true }
    ensures reset { (s : ScenarioValue) (rows : List Row) (n : ℕ)
        → ending_of (run_state s rows).story.ended n ≡ Some by_reset
        → has_bus_reset (run_state s rows).story.history ≡ true }
    ensures abort { (s : ScenarioValue) (rows : List Row) (n : ℕ) (c : CmdDef)
        → command_at s.commands n ≡ Some c → ending_of (run_state s rows).story.ended n ≡ Some by_abort
        → has_command_abort (run_state s rows).story.history c ≡ true }
    ensures unanswered { (s : ScenarioValue) (rows : List Row) (n : ℕ) (c : CmdDef) → AreOfDevices rows
        → command_at s.commands n ≡ Some c → ending_of (run_state s rows).story.ended n ≡ Some unanswered
        → nat_lt (retries_of s.hosts c.host) (count_item (run_state s rows).story.sent.tries (command_item n)) ≡ true }
    ensures stopped { (s : ScenarioValue) (rows : List Row) (n : ℕ) (c : CmdDef) → command_at s.commands n ≡ Some c
        → has_item (run_state s rows).story.sent.over (sense_item n) ≡ true
        → has_end (run_state s rows).story.history (sense_id n) ≡ false
        → has_sense_stop (run_state s rows).story.history n c ≡ true }
{}
