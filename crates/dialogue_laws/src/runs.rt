// The laws of data runs and disconnections, each named by the contract of a function that does nothing.

ghost use Rattle.std.specs.Prelude.{ℕ, ◌+◌, ◌≡◌, true, false, List, [], ◌∷◌, Some, None, nat_lt};
ghost use Rattle.due_model.specs.bus_base.specs.declared.Event.TheVariants as events;
ghost use Rattle.due_model.specs.bus_trace.specs.Trace.{bus};
ghost use Rattle.due_model.specs.bus_trace.specs.declared.Row.{Row};
ghost use Rattle.due_model.specs.bus_trace.specs.declared.connection.Connection.{Connection};
ghost use Rattle.due_model.specs.bus_lines.specs.Handshakes.{handshakes};
ghost use Rattle.due_model.specs.msg_grammar.specs.declared.message.MsgIn.TheVariants as to_initiator;
ghost use Rattle.due_model.specs.scenario.specs.Value.{ScenarioValue};
ghost use Rattle.due_model.specs.scenario.specs.Writing.{Obeys};
ghost use Rattle.due_model.specs.array_model.specs.Processes.{Process};
ghost use Rattle.due_model.specs.dialogue_model.specs.DataRuns.{run_length};
ghost use Rattle.due_model.specs.dialogue_model.specs.Exchange.{one_message};
ghost use Rattle.due_model.specs.dialogue_model.specs.NextPhase.{disconnect_messages, phase_of};
ghost use Rattle.due_model.specs.dialogue_model.specs.declared.exchange.Arrival.TheVariants as arrivals;
ghost use Rattle.due_model.specs.dialogue_model.specs.declared.exchange.Next.TheVariants as nexts;
ghost use Rattle.due_model.specs.dialogue_model.specs.declared.exchange.Phase.{Phase};
ghost use Rattle.due_model.specs.dialogue_model.specs.declared.exchange.Phase.TheVariants as phases;
ghost use Rattle.due_model.specs.Next.{IsPrompt};
ghost use Rattle.due_model.specs.RunSteps.{run_state};
ghost use Rattle.progress_laws.specs.book_laws.specs.WrongParity.{is_struck_phase};
ghost use Rattle.dialogue_laws.specs.Recoveries.{LeavesPhase, present_phase};
ghost use Rattle.dialogue_laws.specs.Runs.{Arrives, Disconnects, EndsRun, Follows, GoesOnAtOnce, HasSaid, all_runs, data_phase, has_data_left, policy_at, runs_of, task_at};

/// As a data run is done its process has made one run more. While more are left it is disconnected, with SAVE DATA
/// POINTER before DISCONNECT where the policy of the target cuts data into bursts, and else with DISCONNECT alone
/// (`pauses`); after the last STATUS follows, and the process runs (`finishes`). Just the bytes of the run have crossed
/// then: in DATA OUT as many as it has were answered (`bytes_out`), in DATA IN as many were asked for (`bytes_in`).
pub fn data_runs_follow_the_policy()
    ensures pauses { (s : ScenarioValue) (rows : List Row) (row : Row) (n : Connection) (p : Process) → Obeys s
        → IsPrompt s (row ∷ rows) → LeavesPhase s rows row n p → EndsRun s rows
        → nat_lt (runs_of (run_state s rows) p + 1) (all_runs s (run_state s rows) n p) ≡ true
        → Disconnects s rows row (disconnect_messages (policy_at s n)) []
        × (runs_of (run_state s (row ∷ rows)) p ≡ runs_of (run_state s rows) p + 1) }
    ensures finishes { (s : ScenarioValue) (rows : List Row) (row : Row) (n : Connection) (p : Process) → Obeys s
        → IsPrompt s (row ∷ rows) → LeavesPhase s rows row n p → EndsRun s rows
        → nat_lt (runs_of (run_state s rows) p + 1) (all_runs s (run_state s rows) n p) ≡ false
        → Follows s rows row phases.Status (events.Run p.id ∷ [])
        × (runs_of (run_state s (row ∷ rows)) p ≡ runs_of (run_state s rows) p + 1) }
    ensures bytes_out { (s : ScenarioValue) (rows : List Row) (row : Row) (n : Connection) (p : Process) (next : Phase)
        → Obeys s → IsPrompt s (row ∷ rows) → LeavesPhase s rows row n p → present_phase (row ∷ rows) ≡ Some next
        → phase_of (bus rows) ≡ phases.DataOut → is_struck_phase s rows ≡ false
        → (handshakes rows).answers ≡ run_length (policy_at s n) (task_at s (run_state s rows) p) }
    ensures bytes_in { (s : ScenarioValue) (rows : List Row) (row : Row) (n : Connection) (p : Process) → Obeys s
        → IsPrompt s (row ∷ rows) → LeavesPhase s rows row n p → phase_of (bus rows) ≡ phases.DataIn
        → (handshakes rows).requests ≡ run_length (policy_at s n) (task_at s (run_state s rows) p) }
{}

/// As COMMAND is left, and no byte of it was struck, a command that is queued is disconnected by DISCONNECT (`queued`),
/// one for which its queue is full is refused, and STATUS follows (`refused`). Any other goes on in this connection:
/// with its data (`data`), or with STATUS where it has none to move (`status`).
pub fn commands_arrive_by_the_policy()
    ensures queued { (s : ScenarioValue) (rows : List Row) (row : Row) (n : Connection) (p : Process) → Obeys s
        → IsPrompt s (row ∷ rows) → LeavesPhase s rows row n p → Arrives s rows n arrivals.Queued
        → Disconnects s rows row (one_message to_initiator.Disconnect) (events.Accept p.id ∷ []) }
    ensures refused { (s : ScenarioValue) (rows : List Row) (row : Row) (n : Connection) (p : Process) → Obeys s
        → IsPrompt s (row ∷ rows) → LeavesPhase s rows row n p → Arrives s rows n arrivals.Refused
        → Follows s rows row phases.Status (events.Refuse p.id ∷ []) }
    ensures data { (s : ScenarioValue) (rows : List Row) (row : Row) (n : Connection) (p : Process) → Obeys s
        → IsPrompt s (row ∷ rows) → LeavesPhase s rows row n p → GoesOnAtOnce s rows n
        → has_data_left s (run_state s rows) n p ≡ true
        → Follows s rows row (data_phase (task_at s (run_state s rows) p)) (events.Accept p.id ∷ []) }
    ensures status { (s : ScenarioValue) (rows : List Row) (row : Row) (n : Connection) (p : Process) → Obeys s
        → IsPrompt s (row ∷ rows) → LeavesPhase s rows row n p → GoesOnAtOnce s rows n
        → has_data_left s (run_state s rows) n p ≡ false
        → Follows s rows row phases.Status (events.Run p.id ∷ (events.Accept p.id ∷ [])) }
{}

/// As MESSAGE IN is left, and the initiator does not complain, what the target means to do follows: COMMAND
/// (`command`), STATUS (`status`), BUS FREE (`free`), or the data of a process that has a run left (`data`), as after a
/// reselection and after RESTORE POINTERS, and STATUS of one that has none (`ends`).
pub fn messages_lead_on()
    ensures command { (s : ScenarioValue) (rows : List Row) (row : Row) (n : Connection) (p : Process) → Obeys s
        → IsPrompt s (row ∷ rows) → LeavesPhase s rows row n p → HasSaid s rows nexts.Command
        → present_phase (row ∷ rows) ≡ Some phases.Command }
    ensures status { (s : ScenarioValue) (rows : List Row) (row : Row) (n : Connection) (p : Process) → Obeys s
        → IsPrompt s (row ∷ rows) → LeavesPhase s rows row n p → HasSaid s rows nexts.Status
        → present_phase (row ∷ rows) ≡ Some phases.Status }
    ensures free { (s : ScenarioValue) (rows : List Row) (row : Row) (n : Connection) (p : Process) → Obeys s
        → IsPrompt s (row ∷ rows) → LeavesPhase s rows row n p → HasSaid s rows nexts.FreeBus
        → present_phase (row ∷ rows) ≡ None }
    ensures data { (s : ScenarioValue) (rows : List Row) (row : Row) (n : Connection) (p : Process) → Obeys s
        → IsPrompt s (row ∷ rows) → LeavesPhase s rows row n p → HasSaid s rows nexts.GoOn
        → has_data_left s (run_state s rows) n p ≡ true
        → present_phase (row ∷ rows) ≡ Some (data_phase (task_at s (run_state s rows) p)) }
    ensures ends { (s : ScenarioValue) (rows : List Row) (row : Row) (n : Connection) (p : Process) → Obeys s
        → IsPrompt s (row ∷ rows) → LeavesPhase s rows row n p → HasSaid s rows nexts.GoOn
        → has_data_left s (run_state s rows) n p ≡ false → present_phase (row ∷ rows) ≡ Some phases.Status }
{}
