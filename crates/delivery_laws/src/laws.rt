// Laws of prompt traces, each named by the contract of a function that does nothing.

ghost use Rattle.std.specs.Prelude.{ℕ, ◌≡◌, ◌≤◌, ◌⊎◌, length, nat_le, nat_lt, not, true, false, List, [], Some};
ghost use Rattle.due_model.specs.bus_trace.specs.declared.Row.{Row};
ghost use Rattle.due_model.specs.bus_base.specs.declared.Event.TheVariants as events;
ghost use Rattle.due_model.specs.Goals.{EndsRight, is_good};
ghost use Rattle.due_model.specs.Next.{IsPrompt, IsEnded};
ghost use Rattle.progress_laws.specs.book_laws.specs.FullQueues.{has_event};
ghost use Rattle.due_model.specs.RunSteps.{run_state};
ghost use Rattle.std.specs.List.{list_any};
ghost use Rattle.due_model.specs.bus_base.specs.declared.Event.{Event};
ghost use Rattle.due_model.specs.bus_base.specs.declared.ProcId.{ProcId};
ghost use Rattle.due_model.specs.scenario.specs.declared.value.CmdDef.{CmdDef};
ghost use Rattle.due_model.specs.scenario.specs.Value.{ScenarioValue};
ghost use Rattle.due_model.specs.scenario.specs.Writing.{Obeys};
ghost use Rattle.due_model.specs.array_model.specs.ArrayHistory.{array_after, reply_in, reply_of};
ghost use Rattle.due_model.specs.array_model.specs.Execution.{Reply, aborted_reply, queue_full};
ghost use Rattle.due_model.specs.array_model.specs.Processes.{command_at};
ghost use Rattle.due_model.specs.array_model.specs.Units.{Array};
ghost use Rattle.due_model.specs.cdb_codec.specs.declared.status.TheConstants.{GOOD};
ghost use Rattle.due_model.specs.story_model.specs.Items.{command_id, command_item, open_from, open_limit_of};
ghost use Rattle.due_model.specs.story_model.specs.Outcomes.{ending_of, is_roomy, is_valid, outcome_of};
ghost use Rattle.due_model.specs.story_model.specs.Story.{unanswered};
ghost use Rattle.due_model.specs.story_model.specs.TraceHistory.{retries_of, story, trace_history};
ghost use Rattle.due_model.specs.scenario.specs.Lookups.{has_target, is_tape};
ghost use Rattle.delivery_laws.specs.Endings.{AreExact, arrive_by_room};
ghost use Rattle.delivery_laws.specs.Openings.{AreAnsweredOffers, AreOfferReplies, AreOpenings};
ghost use Rattle.delivery_laws.specs.Recoveries.{AreRecoveries};
ghost use Rattle.delivery_laws.specs.Delivery.{AreAnswered, AreCaused, AreChecked, AreOwnSenses, AreStoppedSenses, Delivers, HasRun, IsGiven};
ghost use Rattle.delivery_laws.specs.Delivery.{calling_faults, command_faults, fault_limit, is_calm_event, is_checked, is_given_up_by};
ghost use Rattle.delivery_laws.specs.Resets.{are_lines, are_releases, has_line};
ghost use Rattle.due_model.specs.scenario.specs.declared.value.ResetDef.{ResetDef};
ghost use Rattle.std.specs.List.{list_all};

use due_model::wants_are_items;
use initiator::endings_have_causes;
use progress_laws::the_book_laws::{
    give_ups_have_causes, refusals_have_causes, replies_have_causes,
};
use progress_laws::the_trace_laws::{
    connections_are_of_the_scenario, ends_know_what_rows_tell, limits_are_kept,
};
use progress_laws::{ended_traces_are_quiet, ended_traces_have_outcomes};
use right_laws::{fault_rows_are_of_the_scenario, prompt_traces_are_right};

/// In a history without resets and aborts a valid command is answered GOOD, unless it was refused or failed.
pub fn valid_commands_run_good()
    ensures { (s : ScenarioValue) (h : List Event) (a : Array) (n : ℕ) (c : CmdDef) (r : Reply) → Obeys s
        → array_after s h ≡ Some a → list_all (λ (e : Event). is_calm_event e) h ≡ true
        → command_at s.commands n ≡ Some c → is_valid s c ≡ true → reply_in a.replies (command_id n) ≡ Some r
        → (r.status ≡ GOOD) ⊎ (list_any (λ (e : Event). is_given_up_by (command_id n) e) h ≡ true) }
{}

/// In a scenario without resets and aborts the history of a prompt trace has neither.
pub fn calm_scenarios_have_calm_histories()
    ensures { (s : ScenarioValue) (rows : List Row) → Obeys s → s.resets ≡ [] → s.aborts ≡ [] → IsPrompt s rows
        → list_all (λ (e : Event). is_calm_event e) (run_state s rows).story.history ≡ true }
{}

/// A command for a target that is there ends unanswered only where faults struck more of its callings than its
/// initiator tries again.
pub fn unanswered_commands_were_struck()
    ensures { (s : ScenarioValue) (rows : List Row) (n : ℕ) (c : CmdDef) → Obeys s → IsPrompt s rows
        → command_at s.commands n ≡ Some c → has_target s c.target ≡ true
        → ending_of (run_state s rows).story.ended n ≡ Some unanswered
        → nat_lt (retries_of s.hosts c.host) (calling_faults s rows (command_item n)) ≡ true }
{
    endings_have_causes();
}

/// A valid command that was not refused, in a scenario without resets and aborts, ends GOOD where no more faults struck
/// it than it bears.
pub fn unrefused_commands_are_delivered()
    ensures { (s : ScenarioValue) (rows : List Row) (n : ℕ) (c : CmdDef) → Obeys s → s.resets ≡ [] → s.aborts ≡ []
        → IsPrompt s rows → IsEnded s rows → command_at s.commands n ≡ Some c → is_valid s c ≡ true
        → nat_le (command_faults s rows n) (fault_limit s c) ≡ true
        → has_event (run_state s rows).story.history (events.Refuse (command_id n)) ≡ false
        → is_good (outcome_of s (story s rows) n) ≡ true }
{
    valid_commands_run_good();
    calm_scenarios_have_calm_histories();
    unanswered_commands_were_struck();
    endings_have_causes();
    limits_are_kept();
    ended_traces_have_outcomes();
}

/// No initiator has more commands open than its limit.
pub fn open_commands_are_within_limits()
    ensures { (s : ScenarioValue) (rows : List Row) (dev : ℕ) → Obeys s → IsPrompt s rows
        → length (open_from (run_state s rows).story.sent dev 1 s.commands) ≤ open_limit_of s.hosts dev }
{}

/// Where each queue has room for all commands that the initiators may have open at once, no command is refused.
pub fn roomy_scenarios_refuse_nothing()
    ensures { (s : ScenarioValue) (rows : List Row) (id : ProcId) → Obeys s → is_roomy s ≡ true → IsPrompt s rows
        → has_event (run_state s rows).story.history (events.Refuse id) ≡ false }
{}

/// Where each queue has room for all commands that the initiators may have open at once, and there is no reset and no
/// abort, every valid command that no more faults struck than it bears ends GOOD.
pub fn valid_commands_are_delivered()
    ensures { Delivers }
{
    roomy_scenarios_refuse_nothing();
    unrefused_commands_are_delivered();
}

/// A prompt trace that has ended is right: every row and the end obey every rule of the bus; no line is true; the
/// trace, its history, the outcomes and the blocks belong together, and each process that ran and ended carried exactly
/// its own bytes; each command has its outcome; and the fault rows are those of the scenario.
pub fn ended_traces_are_right()
    ensures { EndsRight }
{
    ended_traces_are_quiet();
    ended_traces_have_outcomes();
    prompt_traces_are_right();
    fault_rows_are_of_the_scenario();
}

/// Why a command ends otherwise than GOOD, in any prompt trace: it is lost, or fails with SCSI PARITY ERROR or
/// INITIATOR DETECTED ERROR MESSAGE RECEIVED, only where more faults struck it than it bears, and ends unanswered only
/// there or where its target is absent; it ends with QUEUE FULL only where it was refused at a full queue, and by a
/// reset or an abort only where the history has one.
pub fn outcomes_have_causes()
    ensures { (s : ScenarioValue) (rows : List Row) → Obeys s → IsPrompt s rows → AreCaused s rows }
{
    endings_have_causes();
    limits_are_kept();
    replies_have_causes();
}

/// In a prompt trace that has ended a command is without the sense of its CHECK CONDITION only where its automatic
/// REQUEST SENSE was stopped, by a reset or an abort, or was lost.
pub fn senseless_checks_were_stopped()
    ensures { (s : ScenarioValue) (rows : List Row) → Obeys s → IsPrompt s rows → IsEnded s rows
        → AreStoppedSenses s rows }
{
    wants_are_items();
    endings_have_causes();
}

/// After every history that the plain disk array permits each process has its reply because it ran, and was carried out
/// so at that moment, or because it failed or was refused.
pub fn replies_are_given()
    ensures { (s : ScenarioValue) (h : List Event) (a : Array) (id : ProcId) (r : Reply) → Obeys s
        → array_after s h ≡ Some a → reply_in a.replies id ≡ Some r → IsGiven s h id r }
{}

/// In every prompt trace the sense with which a command ends is that of its own reply: with SCSI PARITY ERROR or
/// INITIATOR DETECTED ERROR MESSAGE RECEIVED the command itself failed so, and more faults struck it than it bears; any
/// other sense is what the plain disk array answered as this command ran.
pub fn senses_are_their_own()
    ensures { (s : ScenarioValue) (rows : List Row) → Obeys s → IsPrompt s rows → AreOwnSenses s rows }
{
    limits_are_kept();
    replies_have_causes();
}

/// At a disk, and where there is no unit, something is wrong with just the commands that are not valid.
pub fn disks_check_what_is_not_valid()
    ensures { (s : ScenarioValue) (c : CmdDef) → is_tape s c.target c.unit ≡ false → has_target s c.target ≡ true
        → is_checked s c ≡ not (is_valid s c) }
{}

/// In a scenario without resets and aborts, at the end of a prompt trace: a command whose target is absent ended
/// unanswered; and where each queue has room for all commands that the initiators may have open at once, one with which
/// something is wrong, and that no more faults struck than it bears, ended with CHECK CONDITION and the sense of what
/// is wrong with it first. At a disk or an absent unit that is each that is not valid
/// (`disks_check_what_is_not_valid`), and at a tape each whose block has a fault: any other may end GOOD there, by what
/// stands on the tape.
pub fn invalid_commands_are_checked()
    ensures { (s : ScenarioValue) (rows : List Row) → Obeys s → s.resets ≡ [] → s.aborts ≡ [] → IsPrompt s rows
        → IsEnded s rows → AreChecked s rows }
{
    wants_are_items();
    endings_have_causes();
    limits_are_kept();
    ended_traces_have_outcomes();
    roomy_scenarios_refuse_nothing();
}

/// The resets of a prompt trace, by its rows alone: a row with which a device begins to drive RST is that of a reset
/// line (`begins`); while a device drives RST its next row releases it, a reset hold time and its latency after it
/// began (`ends`); and at the end of a trace each reset line has had its row, of its device and at its time, or its
/// device drove RST then, or released it (`lines`).
pub fn resets_are_by_lines()
    ensures begins { (s : ScenarioValue) (rows : List Row) → Obeys s → IsPrompt s rows → are_lines s rows ≡ true }
    ensures ends { (s : ScenarioValue) (rows : List Row) → Obeys s → IsPrompt s rows → are_releases s rows ≡ true }
    ensures lines { (s : ScenarioValue) (rows : List Row) → Obeys s → IsPrompt s rows → IsEnded s rows
        → list_all (λ (r : ResetDef). has_line rows r) s.resets ≡ true }
{}

/// In a prompt trace a process is answered once: one that ran has the reply that it got as it ran (`ran`), one that
/// failed that of its failure (`failed`), and one that was refused QUEUE FULL (`refused`); so a command that ran with
/// CHECK CONDITION, and that neither was lost nor ended by a reset or an abort, ends with CHECK CONDITION
/// and this sense, or without sense (`checked`).
pub fn replies_last()
    ensures ran { (s : ScenarioValue) (rows : List Row) (id : ProcId) (r : Reply) → Obeys s → IsPrompt s rows
        → HasRun s (trace_history s rows) id r → reply_of (array_after s (trace_history s rows)) id ≡ Some r }
    ensures failed { (s : ScenarioValue) (rows : List Row) (id : ProcId) (code : ℕ) → Obeys s → IsPrompt s rows
        → has_event (trace_history s rows) (events.Fail id code) ≡ true
        → reply_of (array_after s (trace_history s rows)) id ≡ Some (aborted_reply code) }
    ensures refused { (s : ScenarioValue) (rows : List Row) (id : ProcId) → Obeys s → IsPrompt s rows
        → has_event (trace_history s rows) (events.Refuse id) ≡ true
        → reply_of (array_after s (trace_history s rows)) id ≡ Some queue_full }
    ensures checked { (s : ScenarioValue) (rows : List Row) → Obeys s → IsPrompt s rows → AreAnswered s rows }
{
    endings_have_causes();
}

/// In a prompt trace each command that arrives is refused exactly where it finds the queue of its unit full.
pub fn arrivals_are_by_room()
    ensures { (s : ScenarioValue) (rows : List Row) → Obeys s → IsPrompt s rows
        → arrive_by_room s (trace_history s rows) ≡ true }
{
    refusals_have_causes();
}

/// How each command of a prompt trace that has ended has ended, exactly: its outcome is that of the first row that ends
/// it, with the bytes, or the sense, of its own reply, unless its automatic REQUEST SENSE was stopped; it ends
/// unanswered exactly where its initiator called for it in vain more often than it tries again, and with QUEUE FULL
/// exactly where it was refused at a full queue and its first end has that status; the status with which it ended is
/// that of its reply; and a process has a reply exactly as it ran, failed, or was refused.
pub fn outcomes_are_exact()
    ensures { (s : ScenarioValue) (rows : List Row) → Obeys s → IsPrompt s rows → IsEnded s rows → AreExact s rows }
{
    wants_are_items();
    endings_have_causes();
    outcomes_have_causes();
    replies_are_given();
    replies_last();
}

/// At each row of a prompt trace: a phase with wrong parity is left for the recovery exactly where it is tried again,
/// by the target's limit, and else to give up; and a process fails, or is lost, only so.
pub fn recoveries_are_due()
    ensures { (s : ScenarioValue) (rows : List Row) → Obeys s → IsPrompt s rows → AreRecoveries s rows }
{
    ends_know_what_rows_tell();
    connections_are_of_the_scenario();
    give_ups_have_causes();
    refusals_have_causes();
}

/// What an initiator says first in a connection that it began is the opening that is due to it, whole, as its target
/// leaves the first phase (`said`): IDENTIFY, the tag, and an offer where its ends may negotiate, or IDENTIFY and the
/// message of an abort. After one with an offer the target goes to MESSAGE IN, to say its answer (`replied`); and while
/// COMMAND, data or STATUS stands no request for synchronous transfer is open (`answered`).
pub fn openings_are_said()
    ensures said { (s : ScenarioValue) (rows : List Row) → Obeys s → IsPrompt s rows → AreOpenings s rows }
    ensures replied { (s : ScenarioValue) (rows : List Row) → Obeys s → IsPrompt s rows → AreOfferReplies s rows }
    ensures answered { (s : ScenarioValue) (rows : List Row) → Obeys s → IsPrompt s rows → AreAnsweredOffers rows }
{}
