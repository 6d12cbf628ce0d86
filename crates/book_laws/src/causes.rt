// Laws of what a command ends by, each named by the contract of a function that does nothing.
ghost use Rattle.std.specs.Prelude.{ℕ, ◌≡◌, ◌≤◌, ◌==◌, ◌&&◌, true, is_some, List, ◌∷◌, Option, Some, None};
ghost use Rattle.due_model.specs.bus_base.specs.declared.ProcId.{ProcId};
ghost use Rattle.due_model.specs.bus_base.specs.declared.Event.{Event};
ghost use Rattle.due_model.specs.bus_base.specs.declared.Event.TheVariants as events;
ghost use Rattle.due_model.specs.bus_trace.specs.declared.Row.{Row};
ghost use Rattle.due_model.specs.bus_trace.specs.declared.connection.Connection.{Connection};
ghost use Rattle.due_model.specs.cdb_codec.specs.declared.Sense.{Sense};
ghost use Rattle.due_model.specs.cdb_codec.specs.declared.sense.TheConstants.{ABORTED_COMMAND};
ghost use Rattle.due_model.specs.cdb_codec.specs.declared.status.TheConstants.{QUEUE_FULL};
ghost use Rattle.due_model.specs.scenario.specs.declared.value.Policy.{Policy};
ghost use Rattle.due_model.specs.scenario.specs.Value.{ScenarioValue};
ghost use Rattle.due_model.specs.array_model.specs.Processes.{Process, process_of};
ghost use Rattle.due_model.specs.array_model.specs.Execution.{Reply};
ghost use Rattle.due_model.specs.array_model.specs.SoundArray.{HasSeats};
ghost use Rattle.due_model.specs.array_model.specs.Units.{Nexus, Array, sense_of_nexus};
ghost use Rattle.due_model.specs.array_model.specs.Steps.{event_step};
ghost use Rattle.due_model.specs.array_model.specs.ArrayHistory.{array_after, reply_in};
ghost use Rattle.due_model.specs.story_model.specs.BusState.{row_reading};
ghost use Rattle.due_model.specs.story_model.specs.HistoryEvents.{row_events_by};
ghost use Rattle.due_model.specs.story_model.specs.TraceHistory.{trace_history};
ghost use Rattle.due_model.specs.dialogue_model.specs.NextPhase.{phase_of};
ghost use Rattle.due_model.specs.Allowed.{allowed};
ghost use Rattle.due_model.specs.Faithful.{faithful};
ghost use Rattle.due_model.specs.LastingState.{progress_in};
ghost use Rattle.due_model.specs.RunState.{RunState, array_of, bus_of, process_served};
ghost use Rattle.due_model.specs.RunSteps.{run_state};
ghost use Rattle.due_model.specs.Sights.{leaving};
ghost use Rattle.due_model.specs.Tasks.{arrival_of};
ghost use Rattle.due_model.specs.Telling.{is_true_telling, telling};
ghost use Rattle.book_laws.specs.FullQueues.{has_event, finds_full_queue, is_refusal, lacks_room, was_refused, has_cause, has_failure_at};
ghost use Rattle.book_laws.specs.Strikes.{has_strike};
ghost use Rattle.book_laws.specs.WrongParity.{is_struck_phase, wrong_phases, is_failure, is_loss, gives_up, left_as_due, has_passed_limit, fault_rows, complains_truly, has_more_faults};

/// The plain disk array refuses a command exactly where it finds the queue of its unit full: as many wait there, the
/// current one included, as its depth (`array`). A target plans to refuse a command exactly where there is no room for
/// it (`planned`). A REQUEST SENSE is never refused, nor is a command at a unit that is not there.
pub fn refusals_have_causes()
    ensures array { (s : ScenarioValue) (a : Array) (id : ProcId)
        → is_some (event_step s a (events.Refuse id)) ≡ finds_full_queue a (process_of s id) }
    ensures planned { (s : ScenarioValue) (k : RunState) (policy : Policy) (p : Process)
        → process_served s k ≡ Some p → is_refusal (arrival_of s k policy) ≡ lacks_room (array_of s k) p }
{}

/// After every history that the plain disk array permits each reply that was given has its cause in it (`replies`): a
/// command has the status QUEUE FULL only where it was refused, the queue of its unit being full as it arrived, and the
/// sense key ABORTED COMMAND only where it failed, with the code of that failure. Nor is a sense with that key stored
/// for an initiator, for REQUEST SENSE to bring, but where a process of it failed so at that unit (`senses`). So a
/// command ends with QUEUE FULL only where it was refused at a full queue (`full`), and so it is in every history that
/// rows tell and the array permits (`trace`).
pub fn replies_have_causes()
    ensures replies { (s : ScenarioValue) (history : List Event) (a : Array) (id : ProcId) (reply : Reply)
        → array_after s history ≡ Some a → reply_in a.replies id ≡ Some reply
        → has_cause s history id reply ≡ true }
    ensures senses { (s : ScenarioValue) (history : List Event) (a : Array) (q : Nexus) (sense : Sense) → HasSeats s
        → array_after s history ≡ Some a → sense_of_nexus a.senses q ≡ Some sense
        → (sense.key == ABORTED_COMMAND) ≡ true → has_failure_at s history q sense.asc ≡ true }
    ensures full { (s : ScenarioValue) (history : List Event) (a : Array) (id : ProcId)
        → array_after s history ≡ Some a → has_event history (events.End id QUEUE_FULL) ≡ true
        → was_refused s history id ≡ true }
    ensures trace { (s : ScenarioValue) (rows : List Row) (id : ProcId) → allowed s rows ≡ true
        → has_event (run_state s rows).story.history (events.End id QUEUE_FULL) ≡ true
        → was_refused s (run_state s rows).story.history id ≡ true }
{}

/// Of any rows, lawful or not: what a target takes for a struck phase has a fault row in it (`struck`), and a process
/// has no more counted recoveries than phases with wrong parity that were left in its connections (`counted`). A row
/// with which the target shows that a command fails is of COMMAND or DATA OUT with SCSI PARITY ERROR, or of MESSAGE OUT
/// after DATA IN with INITIATOR DETECTED ERROR MESSAGE RECEIVED, and of a process that has had more such phases than
/// the target's limit (`failure`). A row with which it goes to BUS FREE, as it is due to, and loses a process of the
/// scenario, is of MESSAGE OUT after MESSAGE IN or STATUS, and of such a process (`loss`).
pub fn give_ups_have_causes()
    ensures struck { (s : ScenarioValue) (rows : List Row) → (run_state s rows).exchange.plan.struck ≡ true
        → is_struck_phase s rows ≡ true }
    ensures counted { (s : ScenarioValue) (rows : List Row) (id : ProcId)
        → (progress_in (run_state s rows).progress id).recoveries ≤ wrong_phases s rows id }
    ensures failure { (s : ScenarioValue) (rows : List Row) (row : Row) (n : Connection) (id : ProcId) (code : ℕ)
        → (run_state s rows).story.bus_state.connection ≡ Some n
        → is_true_telling s (run_state s rows) row (row_reading (run_state s rows).story.bus_state row) ≡ true
        → has_event (row_events_by s (run_state s rows).story
        (row_reading (run_state s rows).story.bus_state row) row) (events.Fail id code) ≡ true
        → (is_failure (run_state s rows).exchange.plan.cause code (phase_of (bus_of (run_state s rows)))
        && gives_up s rows row n id) ≡ true }
    ensures loss { (s : ScenarioValue) (rows : List Row) (row : Row) (n : Connection) (p : Process)
        → (run_state s rows).story.bus_state.connection ≡ Some n
        → is_true_telling s (run_state s rows) row (row_reading (run_state s rows).story.bus_state row) ≡ true
        → process_of s p.id ≡ Some p → (leaving s (run_state s rows) n.target).to ≡ None
        → has_event (row_events_by s (run_state s rows).story
        (row_reading (run_state s rows).story.bus_state row) row) (events.Lost p.id) ≡ true
        → (is_loss (run_state s rows).exchange.plan.cause (phase_of (bus_of (run_state s rows)))
        && gives_up s rows row n p.id) ≡ true }
{}

/// After any rows, lawful or not, a command fails with the sense of ABORTED COMMAND only where a fault row struck a
/// byte of it: of COMMAND or DATA OUT, with SCSI PARITY ERROR, or of DATA IN, with INITIATOR DETECTED ERROR MESSAGE
/// RECEIVED.
pub fn failures_have_strikes()
    ensures { (s : ScenarioValue) (rows : List Row) (id : ProcId) (code : ℕ)
        → has_event (trace_history s rows) (events.Fail id code) ≡ true → has_strike s rows id code ≡ true }
{}

/// So in a trace that tells what its devices know (`faithful`, `telling`) a command fails with the sense of ABORTED
/// COMMAND only where it has had more phases with wrong parity than the limit of its target (`failures`), and it is
/// lost only there, if the target goes to BUS FREE only where it is due to (`losses`, `left_as_due`). Where the
/// initiator complains only of phases in which a byte was struck (`complains_truly`), these are no more than the fault
/// rows in connections of the process, which so are more than the limit (`counted`, `faults`).
pub fn limits_are_passed()
    ensures failures { (s : ScenarioValue) (rows : List Row) (p : Process) (code : ℕ) → faithful s rows ≡ true
        → telling s rows ≡ true → process_of s p.id ≡ Some p
        → has_event (run_state s rows).story.history (events.Fail p.id code) ≡ true
        → has_passed_limit s rows p ≡ true }
    ensures losses { (s : ScenarioValue) (rows : List Row) (p : Process) → faithful s rows ≡ true
        → telling s rows ≡ true → left_as_due s rows ≡ true → process_of s p.id ≡ Some p
        → has_event (run_state s rows).story.history (events.Lost p.id) ≡ true
        → has_passed_limit s rows p ≡ true }
    ensures counted { (s : ScenarioValue) (rows : List Row) (id : ProcId) → complains_truly s rows ≡ true
        → wrong_phases s rows id ≤ fault_rows s rows id }
    ensures faults { (s : ScenarioValue) (rows : List Row) (p : Process) → complains_truly s rows ≡ true
        → has_passed_limit s rows p ≡ true → has_more_faults s rows p ≡ true }
{}
