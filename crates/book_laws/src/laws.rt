// Laws of what is said, given and carried, each named by the contract of a function that does nothing.

ghost use Rattle.std.specs.Prelude.{ℕ, ◌≡◌, ◌<◌, ◌%◌, ◌&&◌, true, false, is_some, List, [], ◌∷◌, length, slice_index_or, Some};
ghost use Rattle.due_model.specs.bus_trace.specs.declared.Row.{Row};
ghost use Rattle.due_model.specs.bus_trace.specs.declared.changes.Change.{Change};
ghost use Rattle.due_model.specs.bus_trace.specs.declared.connection.Connection.{Connection};
ghost use Rattle.due_model.specs.bus_trace.specs.Phases.{is_command, is_data, is_message_out, is_message_in};
ghost use Rattle.due_model.specs.bus_trace.specs.Terms.{connection, receiver_in};
ghost use Rattle.due_model.specs.bus_phases.specs.Reading.{reading_of};
ghost use Rattle.due_model.specs.bus_rules.specs.Messages.{is_unknown, opens_well, leaves_message_well, settles_offers, keeps_messages};
ghost use Rattle.due_model.specs.bus_rules.specs.Seen.{seen};
ghost use Rattle.due_model.specs.cdb_codec.specs.Cdb.{has_group_len};
ghost use Rattle.due_model.specs.scenario.specs.Value.{ScenarioValue};
ghost use Rattle.due_model.specs.array_model.specs.Processes.{Process, process_of};
ghost use Rattle.due_model.specs.story_model.specs.Items.{Item};
ghost use Rattle.due_model.specs.array_model.specs.SoundArray.{IsSound};
ghost use Rattle.due_model.specs.array_model.specs.Seats.{is_initiator};
ghost use Rattle.due_model.specs.story_model.specs.TraceHistory.{aim_of};
ghost use Rattle.due_model.specs.dialogue_model.specs.Exchange.{bytes_of_messages};
ghost use Rattle.due_model.specs.dialogue_model.specs.NextPhase.{phase_of};
ghost use Rattle.due_model.specs.dialogue_model.specs.Wants.{Ready};
ghost use Rattle.due_model.specs.Wants.{ready_of, callee};
ghost use Rattle.due_model.specs.bus_trace.specs.Phases.{changes_phase};
ghost use Rattle.due_model.specs.story_model.specs.BusState.{row_reading};
ghost use Rattle.due_model.specs.Faithful.{is_opening_named, is_block_of_process, is_faithful, faithful};
ghost use Rattle.due_model.specs.RunState.{RunState, array_of, bus_of, item_of, process_here, process_served, carried_here};
ghost use Rattle.due_model.specs.RunSteps.{run_state};
ghost use Rattle.due_model.specs.Plain.{AreOfDevices};
ghost use Rattle.scsi_device.specs.Lines.{AreUnits};
ghost use Rattle.book_laws.specs.Items.{IsItem, AimsAreItems};
ghost use Rattle.book_laws.specs.Rows.{IsRowIn, IsFirstRow};
ghost use Rattle.book_laws.specs.Speaking.{Speaks, SaysNext};
ghost use Rattle.book_laws.specs.Giving.{Gives, GivesNext};
ghost use Rattle.book_laws.specs.Carrying.{AllCarryOwn, AllSendOwn, SendsOwn};
ghost use Rattle.book_laws.specs.Knowing.{Knows, NamesServed};
ghost use Rattle.book_laws.specs.Hearing.{HasPhase, LeavesWhole, MovesRuns, is_in_phase, is_out_phase};
ghost use Rattle.book_laws.specs.Reactions.{IsAnswered, IsOffered, IsOver, HasMessage};
ghost use Rattle.book_laws.specs.RowTests.{is_row_of};
ghost use Rattle.book_laws.specs.Traces.{IsAimedAt, IsReadyFor, RowOf, AreRowsOf, Books, GoesOn, Ends};

/// After any rows, what a device calls for is an item of the scenario: a command of it, the automatic REQUEST SENSE
/// of one, or an abort.
pub fn aims_are_items()
    ensures { (s : ScenarioValue) (rows : List Row) → AimsAreItems s (run_state s rows) }
{}

/// What the initiator of a connection says in MESSAGE OUT is what it was asked for: after a selection the opening of
/// the item for which it was made, later MESSAGE PARITY ERROR, its answer to a request, or INITIATOR DETECTED ERROR;
/// and the target has heard what stands before the place of the next byte (6.6). It is so when a connection begins
/// (`first`), and each row of the connection keeps it, whatever it does (`next`), where a byte that crosses in
/// MESSAGE OUT is the one at the place, with ATN true while one follows.
pub fn initiators_say_what_is_asked()
    ensures first { (s : ScenarioValue) (rows : List Row) (row : Row) (n : Connection) → AreUnits s
        → IsFirstRow (run_state s rows) row n
        → (n.reselected ≡ false → (item : Item) × (aim_of (run_state s rows).story.aims n.initiator ≡ Some item))
        → Speaks s (run_state s (row ∷ rows)) n }
    ensures next { (s : ScenarioValue) (rows : List Row) (row : Row) (n : Connection) (c : Change)
        → IsRowIn (run_state s rows) row n c → SaysNext (run_state s rows) n c → Speaks s (run_state s rows) n
        → Speaks s (run_state s (row ∷ rows)) n }
{}

/// So after a byte with ATN false, with which MESSAGE OUT ends, the target has heard the unit and the tag of the
/// process, or what an abort names (`named`), and no message half (`whole`); and no byte of it makes an unknown
/// message (`known`).
pub fn openings_are_heard()
    ensures named { (s : ScenarioValue) (k : RunState) (n : Connection) → AreUnits s → Speaks s k n
        → k.exchange.begun ≡ true → is_message_out (bus_of k) ≡ true → k.story.bus_state.dialogue.is_last ≡ true
        → is_opening_named s k.exchange.plan k.served k.exchange.plan.cause ≡ true }
    ensures whole { (s : ScenarioValue) (k : RunState) (n : Connection) → Speaks s k n
        → k.exchange.begun ≡ true → is_message_out (bus_of k) ≡ true → k.story.bus_state.dialogue.is_last ≡ true
        → k.story.bus_state.dialogue.half ≡ [] }
    ensures known { (s : ScenarioValue) (k : RunState) (n : Connection) (c : Change) → Speaks s k n
        → k.exchange.begun ≡ true → bus_of k ≡ c.before → is_message_out c.before ≡ true → SaysNext k n c
        → is_unknown (reading_of k.story.bus_state.dialogue.half (Some n) c) ≡ false }
{}

/// What the target of a connection gives in MESSAGE IN are the bytes of the messages that it plans, one after the
/// other from the first, and the initiator has heard those that crossed (6.6). It is so when a connection begins
/// (`first`), and each row of the connection keeps it (`next`), where a byte that crosses in MESSAGE IN is the next
/// one.
pub fn targets_give_what_they_plan()
    ensures first { (s : ScenarioValue) (rows : List Row) (row : Row) (n : Connection)
        → IsFirstRow (run_state s rows) row n
        → (n.reselected ≡ true → (r : Ready) → ready_of s (run_state s rows) n.target ≡ Some r → r.process.unit < 8)
        → Gives (run_state s (row ∷ rows)) }
    ensures next { (s : ScenarioValue) (rows : List Row) (row : Row) (n : Connection) (c : Change)
        → IsRowIn (run_state s rows) row n c → GivesNext (run_state s rows) n c → Gives (run_state s rows)
        → Gives (run_state s (row ∷ rows)) }
{}

/// So after the last byte of MESSAGE IN the initiator has heard no message half (`whole`), and no byte of it makes an
/// unknown message (`known`).
pub fn messages_are_given_whole()
    ensures whole { (k : RunState) → Gives k → k.exchange.begun ≡ true → is_message_in (bus_of k) ≡ true
        → k.handshakes.requests ≡ length (bytes_of_messages k.exchange.plan.messages)
        → k.story.bus_state.dialogue.half ≡ [] }
    ensures known { (k : RunState) (n : Connection) (c : Change) → Gives k → k.exchange.begun ≡ true
        → bus_of k ≡ c.before → is_message_in c.before ≡ true → is_message_out c.before ≡ false → GivesNext k n c
        → is_unknown (reading_of k.story.bus_state.dialogue.half (Some n) c) ≡ false }
{}

/// After any rows, lawful or not, each process has carried its own bytes alone, in COMMAND and in what it writes, and
/// its pointers stand in them, where each byte that crosses is the one at the pointer of the process of the
/// connection (`rows`, `next`). A block of the length of its group is then that of the process (`block`), and while
/// it is shorter a byte of it follows (`follows`).
pub fn processes_carry_their_own_bytes()
    ensures rows { (s : ScenarioValue) (rows : List Row) → AllSendOwn s rows → AllCarryOwn s (run_state s rows) }
    ensures next { (s : ScenarioValue) (rows : List Row) (row : Row) → SendsOwn s (run_state s rows) row
        → AllCarryOwn s (run_state s rows) → AllCarryOwn s (run_state s (row ∷ rows)) }
    ensures block { (s : ScenarioValue) (k : RunState) (p : Process) → AllCarryOwn s k → process_served s k ≡ Some p
        → has_group_len p.cdb ≡ true
        → (k.exchange.plan.struck ≡ false → has_group_len (carried_here k p.id).block ≡ true)
        → is_block_of_process s k (Some p) ≡ true }
    ensures follows { (s : ScenarioValue) (k : RunState) (p : Process) → AllCarryOwn s k → process_of s p.id ≡ Some p
        → has_group_len p.cdb ≡ true → has_group_len (carried_here k p.id).block ≡ false
        → (carried_here k p.id).command.active < length p.cdb }
{}

/// The initiator of a connection knows the process that the target serves: after a selection from the first, for the
/// target says no name then; after a reselection, once a name was heard, where each names that process (6.1.4, 6.6.7,
/// 6.6.17). It is so when a connection begins (`first`), and each row of the connection keeps it (`next`).
pub fn initiators_know_the_process()
    ensures first { (s : ScenarioValue) (rows : List Row) (row : Row) (n : Connection)
        → IsFirstRow (run_state s rows) row n → Knows s (run_state s (row ∷ rows)) n }
    ensures next { (s : ScenarioValue) (rows : List Row) (row : Row) (n : Connection) (c : Change)
        → IsRowIn (run_state s rows) row n c → Gives (run_state s rows) → GivesNext (run_state s rows) n c
        → NamesServed s (run_state s rows) row n → Knows s (run_state s rows) n
        → Knows s (run_state s (row ∷ rows)) n }
{}

/// A row with which a connection goes on or ends tells what was to be said: a byte of DATA OUT is the one that the
/// process sends there; as a phase is left both ends know the process, an unstruck block is that of the process, and
/// the opening names what is served. So it is by the books, where the bytes that cross are those at the pointers, a
/// phase is left as the target is due to leave it, and the data pointer stands as far in the run as bytes were
/// answered.
pub fn rows_of_connections_are_faithful()
    ensures { (s : ScenarioValue) (rows : List Row) (row : Row) (n : Connection) → AreUnits s
        → Speaks s (run_state s rows) n → Knows s (run_state s rows) n → AllCarryOwn s (run_state s rows)
        → HasPhase (run_state s rows) → (run_state s rows).story.bus_state.connection ≡ Some n
        → SendsOwn s (run_state s rows) row
        → ((row_reading (run_state s rows).story.bus_state row).crosses ≡ true → MovesRuns s (run_state s rows) n)
        → (changes_phase (row_reading (run_state s rows).story.bus_state row).change ≡ true
        → LeavesWhole s (run_state s rows) n)
        → is_faithful s (run_state s rows) (row_reading (run_state s rows).story.bus_state row) ≡ true }
{}

/// These books hold together after all rows of a trace (`rows`), since each row keeps them (`next`), where each row
/// is one of these: outside a connection; the first of one, made for the item of its initiator or the process that
/// its target has ready; one of a connection, with the bytes that its ends are due to drive; its last; or a row after
/// which RST is true. Then what crosses in the trace is what was to be said (`faithful`). A test decides that a row
/// is one of these (`tested`).
pub fn books_hold_after_all_rows()
    ensures rows { (s : ScenarioValue) (rows : List Row) → AreUnits s → AreRowsOf s rows → Books s (run_state s rows) }
    ensures next { (s : ScenarioValue) (rows : List Row) (row : Row) → AreUnits s → RowOf s (run_state s rows) row
        → Books s (run_state s rows) → Books s (run_state s (row ∷ rows)) }
    ensures faithful { (s : ScenarioValue) (rows : List Row) → AreUnits s → AreRowsOf s rows
        → faithful s rows ≡ true }
    ensures tested { (s : ScenarioValue) (k : RunState) (row : Row) → is_row_of s k row ≡ true → RowOf s k row }
{}

/// What the rows are asked above is what the two ends are due to do. A byte that the initiator drives when it is due,
/// with ATN as it is due, is the next of MESSAGE OUT (`says`), and in COMMAND and DATA OUT that at the pointer of the
/// process (`sends`); a byte of MESSAGE IN that the target drives when it is due is the next of its messages
/// (`gives`). Where the target leaves a phase as no byte follows, MESSAGE OUT was left after a byte with ATN false
/// (`out`), and COMMAND struck or with a block of the length of its group (`command`); so every phase is left whole
/// (`leaves`).
pub fn bytes_that_are_due_are_next()
    ensures says { (s : ScenarioValue) (k : RunState) (n : Connection) (c : Change) → bus_of k ≡ c.before
        → IsAnswered s k n c → SaysNext k n c }
    ensures sends { (s : ScenarioValue) (k : RunState) (n : Connection) (c : Change) (p : Process) → bus_of k ≡ c.before
        → IsAnswered s k n c → process_here s k ≡ Some p → is_some (receiver_in n c) ≡ true → c.before.io ≡ false
        → ((is_command c.before ≡ true
        → c.after.data_bits % 256 ≡ slice_index_or p.cdb (carried_here k p.id).command.active 0)
        × (is_data c.before ≡ true
        → c.after.data_bits % 256 ≡ slice_index_or p.sent (carried_here k p.id).moved.active 0)) }
    ensures gives { (s : ScenarioValue) (k : RunState) (n : Connection) (c : Change) → bus_of k ≡ c.before
        → IsOffered s k n c → GivesNext k n c }
    ensures out { (s : ScenarioValue) (k : RunState) (n : Connection) → is_message_out (bus_of k) ≡ true
        → IsOver s k n → k.story.bus_state.dialogue.is_last ≡ true }
    ensures command { (s : ScenarioValue) (k : RunState) (n : Connection) (p : Process) → is_command (bus_of k) ≡ true
        → IsOver s k n → process_served s k ≡ Some p → k.exchange.plan.struck ≡ false
        → has_group_len (carried_here k p.id).block ≡ true }
    ensures leaves { (s : ScenarioValue) (k : RunState) (n : Connection) → Gives k → HasPhase k → IsOver s k n
        → HasMessage k
        → (n.reselected ≡ true → is_out_phase (phase_of (bus_of k)) ≡ false
        → (is_in_phase (phase_of (bus_of k)) && (bus_of k).atn) ≡ false → is_some (item_of k.story.link) ≡ true)
        → ((p : Process) → process_served s k ≡ Some p → has_group_len p.cdb ≡ true) → LeavesWhole s k n }
{}

/// So of the rule of messages (6.6) a row of a connection keeps that the first byte after a selection begins an
/// IDENTIFY in MESSAGE OUT, after a reselection one in MESSAGE IN (`opens`), that no byte of a message phase makes an
/// unknown message (`known`), and that such a phase is left with no message half sent, but for MESSAGE IN with ATN
/// true (`left`). Where no request is open as data cross, that is all of the rule (`keeps`); and the last row of a
/// connection keeps it (`ends`).
pub fn message_phases_are_whole()
    ensures known { (s : ScenarioValue) (rows : List Row) (row : Row) (n : Connection) (c : Change) → AreOfDevices rows
        → row.dev < 8 → Books s (run_state s rows) → GoesOn s (run_state s rows) row n c
        → is_unknown (seen rows row).reading ≡ false }
    ensures left { (s : ScenarioValue) (rows : List Row) (row : Row) (n : Connection) (c : Change) → AreOfDevices rows
        → row.dev < 8 → Books s (run_state s rows) → GoesOn s (run_state s rows) row n c
        → leaves_message_well (seen rows row) ≡ true }
    ensures opens { (s : ScenarioValue) (rows : List Row) (row : Row) (n : Connection) (c : Change) → AreOfDevices rows
        → row.dev < 8 → Books s (run_state s rows) → GoesOn s (run_state s rows) row n c
        → opens_well (seen rows row) (connection rows) ≡ true }
    ensures keeps { (s : ScenarioValue) (rows : List Row) (row : Row) (n : Connection) (c : Change) → AreOfDevices rows
        → row.dev < 8 → Books s (run_state s rows) → GoesOn s (run_state s rows) row n c
        → settles_offers (seen rows row) ≡ true → keeps_messages (seen rows row) ≡ true }
    ensures ends { (s : ScenarioValue) (rows : List Row) (row : Row) (n : Connection) → AreOfDevices rows → row.dev < 8
        → Ends s (run_state s rows) row n → keeps_messages (seen rows row) ≡ true }
{}

/// A connection is made for the item of its initiator, and its target, where this called the device that it is due to
/// call (`selects`); and for the process that its target has ready, which is of the scenario and of both ends
/// (`reselects`).
pub fn callees_are_the_other_end()
    ensures selects { (s : ScenarioValue) (k : RunState) (n : Connection) → is_initiator s.hosts n.initiator ≡ true
        → callee s k n.initiator (aim_of k.story.aims n.initiator) ≡ Some n.target → IsAimedAt s k n }
    ensures reselects { (s : ScenarioValue) (k : RunState) (n : Connection) → AreUnits s → IsSound s (array_of s k)
        → is_initiator s.hosts n.target ≡ false → callee s k n.target (aim_of k.story.aims n.target) ≡ Some n.initiator
        → IsReadyFor s k n }
{}
