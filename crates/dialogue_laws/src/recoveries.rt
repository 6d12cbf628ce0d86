// The laws of complaints and recoveries, each named by the contract of a function that does nothing.

ghost use Rattle.std.specs.Prelude.{ℕ, ◌≡◌, ◌&&◌, true, false, List, ◌∷◌, Some, None};
ghost use Rattle.due_model.specs.bus_base.specs.declared.Event.TheVariants as events;
ghost use Rattle.due_model.specs.bus_base.specs.declared.ProcId.{ProcId};
ghost use Rattle.due_model.specs.bus_trace.specs.Terms.{connection};
ghost use Rattle.due_model.specs.bus_trace.specs.Trace.{bus};
ghost use Rattle.due_model.specs.bus_trace.specs.declared.Row.{Row};
ghost use Rattle.due_model.specs.bus_trace.specs.declared.connection.Connection.{Connection};
ghost use Rattle.due_model.specs.bus_lines.specs.Handshakes.{handshakes};
ghost use Rattle.due_model.specs.cdb_codec.specs.declared.sense.TheConstants.{INITIATOR_DETECTED_ERROR, PARITY_ERROR};
ghost use Rattle.due_model.specs.msg_grammar.specs.declared.message.MsgIn.TheVariants as to_initiator;
ghost use Rattle.due_model.specs.scenario.specs.Value.{ScenarioValue};
ghost use Rattle.due_model.specs.scenario.specs.Writing.{Obeys};
ghost use Rattle.due_model.specs.array_model.specs.Processes.{Process, process_of};
ghost use Rattle.due_model.specs.dialogue_model.specs.Exchange.{one_message};
ghost use Rattle.due_model.specs.dialogue_model.specs.NextPhase.{phase_of};
ghost use Rattle.due_model.specs.dialogue_model.specs.Words.{detected_error, is_naming, parity_error};
ghost use Rattle.due_model.specs.dialogue_model.specs.declared.exchange.Cause.TheVariants as causes;
ghost use Rattle.due_model.specs.dialogue_model.specs.declared.exchange.Next.TheVariants as nexts;
ghost use Rattle.due_model.specs.dialogue_model.specs.declared.exchange.Phase.TheVariants as phases;
ghost use Rattle.due_model.specs.Next.{IsPrompt};
ghost use Rattle.due_model.specs.RunState.{bus_of, carried_here};
ghost use Rattle.due_model.specs.RunSteps.{events_of_row, run_state};
ghost use Rattle.progress_laws.specs.book_laws.specs.FullQueues.{has_event};
ghost use Rattle.progress_laws.specs.book_laws.specs.Hearing.{is_out_phase};
ghost use Rattle.progress_laws.specs.book_laws.specs.WrongParity.{gives_up, is_complaint, is_failure, is_loss, is_refusing, is_struck_phase};
ghost use Rattle.progress_laws.specs.row_laws.specs.Tells.{IsLeaving, code_if};
ghost use Rattle.dialogue_laws.specs.Recoveries.{Complains, FailsWith, HasTakenAll, IsAsked, IsLost, IsWithin, LeavesPhase, Recovers, RecoversUnless, Repeats, is_spent};

/// As the target leaves a phase in which parity was wrong it recovers, or gives up the process, and that exactly where
/// the recovery would count and as many were counted as its limit; in a connection of an initiator that stands in the
/// hold of the unit none counts. Where a byte of COMMAND (`command`) or of DATA OUT (`data_out`) was struck, and where
/// the initiator complains of DATA IN (`data_in`) or of STATUS (`status`), it says RESTORE POINTERS and means to go
/// through the phase again; a message of which the initiator complains is said again, with those after it (`message`).
/// It gives up with STATUS, as the process fails, or with BUS FREE, as it is lost. The messages that name a reselected
/// process come again without limit (`names`), and MESSAGE OUT is left with all its bytes taken in good order, whatever
/// the target serves (`out`): as another phase is left it serves a process (`serves`).
pub fn wrong_parity_is_recovered()
    ensures command { (s : ScenarioValue) (rows : List Row) (row : Row) (n : Connection) (p : Process) → Obeys s
        → IsPrompt s (row ∷ rows) → LeavesPhase s rows row n p → phase_of (bus rows) ≡ phases.Command
        → is_struck_phase s rows ≡ true → RecoversUnless (is_spent s (run_state s rows) n p)
        (Recovers s rows row p (one_message to_initiator.RestorePointers) nexts.Command)
        (FailsWith s rows row p PARITY_ERROR) }
    ensures data_out { (s : ScenarioValue) (rows : List Row) (row : Row) (n : Connection) (p : Process) → Obeys s
        → IsPrompt s (row ∷ rows) → LeavesPhase s rows row n p → phase_of (bus rows) ≡ phases.DataOut
        → is_struck_phase s rows ≡ true → RecoversUnless (is_spent s (run_state s rows) n p)
        (Recovers s rows row p (one_message to_initiator.RestorePointers) nexts.GoOn)
        (FailsWith s rows row p PARITY_ERROR) }
    ensures data_in { (s : ScenarioValue) (rows : List Row) (row : Row) (n : Connection) (p : Process) → Obeys s
        → IsPrompt s (row ∷ rows) → LeavesPhase s rows row n p → IsAsked s rows causes.InData
        → RecoversUnless (is_spent s (run_state s rows) n p)
        (Recovers s rows row p (one_message to_initiator.RestorePointers) nexts.GoOn)
        (FailsWith s rows row p INITIATOR_DETECTED_ERROR) }
    ensures status { (s : ScenarioValue) (rows : List Row) (row : Row) (n : Connection) (p : Process) → Obeys s
        → IsPrompt s (row ∷ rows) → LeavesPhase s rows row n p → IsAsked s rows causes.InStatus
        → RecoversUnless (is_spent s (run_state s rows) n p)
        (Recovers s rows row p (one_message to_initiator.RestorePointers) nexts.Status) (IsLost s rows row p) }
    ensures message { (s : ScenarioValue) (rows : List Row) (row : Row) (n : Connection) (p : Process) → Obeys s
        → IsPrompt s (row ∷ rows) → LeavesPhase s rows row n p → IsAsked s rows causes.InMessage
        → (run_state s rows).exchange.plan.said.offer ≡ None
        → is_naming (run_state s rows).exchange.plan.messages.first ≡ false
        → RecoversUnless (is_spent s (run_state s rows) n p)
        (Recovers s rows row p (run_state s rows).exchange.plan.messages (run_state s rows).exchange.plan.next)
        (IsLost s rows row p) }
    ensures names { (s : ScenarioValue) (rows : List Row) (row : Row) (n : Connection) (p : Process) → Obeys s
        → IsPrompt s (row ∷ rows) → LeavesPhase s rows row n p → IsAsked s rows causes.InMessage
        → (run_state s rows).exchange.plan.said.offer ≡ None
        → is_naming (run_state s rows).exchange.plan.messages.first ≡ true
        → Repeats s rows row p (run_state s rows).exchange.plan.messages (run_state s rows).exchange.plan.next false }
    ensures out { (s : ScenarioValue) (rows : List Row) (row : Row) (n : Connection) → Obeys s
        → IsPrompt s (row ∷ rows) → IsLeaving s rows row n → phase_of (bus rows) ≡ phases.MessageOut
        → HasTakenAll (run_state s rows) }
    ensures serves { (s : ScenarioValue) (rows : List Row) (row : Row) (n : Connection) → Obeys s
        → IsPrompt s (row ∷ rows) → IsLeaving s rows row n → is_out_phase (phase_of (bus rows)) ≡ false
        → (p : Process) × LeavesPhase s rows row n p }
{}

/// As the target leaves a phase to the initiator with ATN true MESSAGE OUT follows, and the initiator says what it
/// complains of: INITIATOR DETECTED ERROR after DATA IN (`data_in`) and after STATUS (`status`), MESSAGE PARITY ERROR
/// where the last byte of MESSAGE IN was struck (`message`). In DATA IN ATN is true then exactly where a byte of the
/// run was struck, so that the process would fail (`struck`). Where a fault row stands in DATA IN (`struck_data`),
/// STATUS (`struck_status`) or MESSAGE IN (`struck_message`), whichever byte it struck, the phase is left so; MESSAGE
/// IN ends with that byte. As the MESSAGE OUT after such a phase is left, the target has heard the complaint (`heard`),
/// and why it was asked for stays while a phase lasts (`same`).
pub fn complaints_follow()
    ensures data_in { (s : ScenarioValue) (rows : List Row) (row : Row) (n : Connection) (p : Process) → Obeys s
        → IsPrompt s (row ∷ rows) → LeavesPhase s rows row n p → phase_of (bus rows) ≡ phases.DataIn
        → (bus rows).atn ≡ true → Complains s rows row causes.InData detected_error }
    ensures status { (s : ScenarioValue) (rows : List Row) (row : Row) (n : Connection) (p : Process) → Obeys s
        → IsPrompt s (row ∷ rows) → LeavesPhase s rows row n p → phase_of (bus rows) ≡ phases.Status
        → (bus rows).atn ≡ true → Complains s rows row causes.InStatus detected_error }
    ensures message { (s : ScenarioValue) (rows : List Row) (row : Row) (n : Connection) (p : Process) → Obeys s
        → IsPrompt s (row ∷ rows) → LeavesPhase s rows row n p → phase_of (bus rows) ≡ phases.MessageIn
        → (bus rows).atn ≡ true → (handshakes rows).struck ≡ true
        → Complains s rows row causes.InMessage parity_error }
    ensures struck { (s : ScenarioValue) (rows : List Row) (row : Row) (n : Connection) (p : Process) → Obeys s
        → IsPrompt s (row ∷ rows) → LeavesPhase s rows row n p → phase_of (bus rows) ≡ phases.DataIn
        → (carried_here (run_state s rows) p.id).failure ≡ code_if (bus rows).atn INITIATOR_DETECTED_ERROR }
    ensures struck_data { (s : ScenarioValue) (rows : List Row) (row : Row) (n : Connection) (p : Process) → Obeys s
        → IsPrompt s (row ∷ rows) → LeavesPhase s rows row n p → phase_of (bus rows) ≡ phases.DataIn
        → is_struck_phase s rows ≡ true → Complains s rows row causes.InData detected_error }
    ensures struck_status { (s : ScenarioValue) (rows : List Row) (row : Row) (n : Connection) (p : Process) → Obeys s
        → IsPrompt s (row ∷ rows) → LeavesPhase s rows row n p → phase_of (bus rows) ≡ phases.Status
        → is_struck_phase s rows ≡ true → Complains s rows row causes.InStatus detected_error }
    ensures struck_message { (s : ScenarioValue) (rows : List Row) (row : Row) (n : Connection) (p : Process) → Obeys s
        → IsPrompt s (row ∷ rows) → LeavesPhase s rows row n p → phase_of (bus rows) ≡ phases.MessageIn
        → is_struck_phase s rows ≡ true → Complains s rows row causes.InMessage parity_error }
    ensures heard { (s : ScenarioValue) (rows : List Row) (row : Row) (n : Connection) (p : Process) → Obeys s
        → IsPrompt s (row ∷ rows) → LeavesPhase s rows row n p → phase_of (bus rows) ≡ phases.MessageOut
        → is_refusing s rows ≡ true
        → is_complaint (run_state s rows).exchange.plan (run_state s rows).exchange.plan.cause ≡ true }
    ensures same { (s : ScenarioValue) (rows : List Row) (row : Row) (n : Connection) → Obeys s
        → IsPrompt s (row ∷ rows) → IsWithin rows row n
        → (run_state s (row ∷ rows)).exchange.plan.cause ≡ (run_state s rows).exchange.plan.cause }
{}

/// Nothing else gives up a process: with a row of a connection it fails (`fails`), or is lost (`lost`), only where its
/// target leaves a phase with wrong parity after which it gives up so (`is_failure`, `is_loss`), the limit being spent,
/// and where more such phases than the limit were left in its connections (`gives_up`).
pub fn nothing_else_is_given_up()
    ensures fails { (s : ScenarioValue) (rows : List Row) (row : Row) (n : Connection) (id : ProcId) (code : ℕ)
        → Obeys s → IsPrompt s (row ∷ rows) → connection rows ≡ Some n
        → has_event (events_of_row s rows row) (events.Fail id code) ≡ true
        → (is_failure (run_state s rows).exchange.plan.cause code (phase_of (bus_of (run_state s rows)))
        && gives_up s rows row n id) ≡ true }
    ensures lost { (s : ScenarioValue) (rows : List Row) (row : Row) (n : Connection) (p : Process) → Obeys s
        → IsPrompt s (row ∷ rows) → connection rows ≡ Some n → process_of s p.id ≡ Some p
        → has_event (events_of_row s rows row) (events.Lost p.id) ≡ true
        → (is_loss (run_state s rows).exchange.plan.cause (phase_of (bus_of (run_state s rows)))
        && gives_up s rows row n p.id) ≡ true }
{}
