// Laws of what is due, each named by the contract of a function that does nothing.

ghost use Rattle.std.specs.Prelude.{ℕ, ◌≡◌, ◌≢◌, ◌<◌, ◌==◌, ◌&&◌, true, false, is_some, List, ◌∷◌, length, Some, None};
ghost use Rattle.bus_rules.specs.bus_trace.specs.declared.Row.{Row};
ghost use Rattle.bus_rules.specs.bus_trace.specs.declared.Kind.TheVariants.{Drives};
ghost use Rattle.bus_rules.specs.bus_trace.specs.LineSet.{LineSet};
ghost use Rattle.dialogue_model.specs.reaction_model.specs.declared.due.Myself.{Myself};
ghost use Rattle.bus_rules.specs.bus_trace.specs.Trace.{bus};
ghost use Rattle.bus_rules.specs.bus_trace.specs.declared.connection.Connection.{Connection};
ghost use Rattle.bus_rules.specs.bus_trace.specs.Terms.{connection};
ghost use Rattle.due_model.specs.Sights.{hearing_of, leaving_at, byte_of_phase};
ghost use Rattle.due_model.specs.Due.{self_of};
ghost use Rattle.dialogue_model.specs.scenario.specs.Value.{ScenarioValue};
ghost use Rattle.due_model.specs.Least.{IsLeast};
ghost use Rattle.due_model.specs.RunSteps.{run_state};
ghost use Rattle.due_model.specs.Next.{due, next, IsPrompt, IsEnded};
ghost use Rattle.due_model.specs.Wishes.{IsStill, is_entry_row, wishes_of};
ghost use Rattle.dialogue_model.specs.Wants.{is_reached, item_by};
ghost use Rattle.due_model.specs.Wants.{book_of, item_want_time, want_time, callee};
ghost use Rattle.due_model.specs.Plain.{AreOfDevices, IsPlain};
ghost use Rattle.due_model.specs.PlainDue.{IsThere, IsLinked, under_reset, link_reaction, target_reaction, initiator_reaction};
ghost use Rattle.dialogue_model.specs.story_model.specs.Items.{Sent, item_at};
ghost use Rattle.dialogue_model.specs.declared.exchange.Phase.{Phase};
ghost use Rattle.dialogue_model.specs.declared.exchange.Messages.{Messages};
ghost use Rattle.due_model.specs.RunState.{bus_of};
ghost use Rattle.dialogue_model.specs.story_model.specs.TraceHistory.{aim_of};
ghost use Rattle.due_model.specs.Run.{run_by_due};
ghost use Rattle.dialogue_model.specs.story_model.specs.BusState.{row_reading};
ghost use Rattle.dialogue_model.specs.Hearing.{begun, hearing};

/// The next row is the first that any of the eight devices is due to make, and of several at one time that of the
/// highest ID; where there is none, nothing is due.
pub fn next_is_least()
    ensures least { (s : ScenarioValue) (rows : List Row) (row : Row) → next s rows ≡ Some row
        → IsLeast (due s rows) 8 row }
    ensures none { (s : ScenarioValue) (rows : List Row) → next s rows ≡ None → (dev : ℕ) → dev < 8
        → due s rows dev ≡ None }
{}

/// The scenario determines a prompt trace: two of one length are equal, and two after which nothing is due.
pub fn traces_are_determined()
    ensures length { (s : ScenarioValue) (rows others : List Row) → IsPrompt s rows → IsPrompt s others
        → length rows ≡ length others → rows ≡ others }
    ensures ended { (s : ScenarioValue) (rows others : List Row) → IsPrompt s rows → IsEnded s rows → IsPrompt s others
        → IsEnded s others → rows ≡ others }
{}

/// A run by what is due is a prompt trace, with its history; where it says that it is over, nothing is due after it.
pub fn runs_are_prompt()
    ensures prompt { (s : ScenarioValue) (fuel : ℕ) → IsPrompt s (run_by_due s fuel).rows }
    ensures ended { (s : ScenarioValue) (fuel : ℕ) → (run_by_due s fuel).ended ≡ true
        → IsEnded s (run_by_due s fuel).rows }
    ensures kept { (s : ScenarioValue) (fuel : ℕ) → (run_by_due s fuel).kept ≡ run_state s (run_by_due s fuel).rows }
{}

/// A row that begins, carries and tells nothing keeps every wish: since when a device wants the bus; whom it
/// calls, and for what it last entered arbitration, unless it enters with this row; how the target leaves a
/// phase, ATN being as it was; and the bytes that it gives.
pub fn still_rows_keep_wishes()
    ensures all { (s : ScenarioValue) (rows : List Row) (row : Row) → IsStill s rows row
        → wishes_of (run_state s (row ∷ rows)) ≡ wishes_of (run_state s rows) }
    ensures wants { (s : ScenarioValue) (rows : List Row) (row : Row) → IsStill s rows row → (dev : ℕ)
        → want_time s (run_state s (row ∷ rows)) dev ≡ want_time s (run_state s rows) dev }
    ensures aims { (s : ScenarioValue) (rows : List Row) (row : Row) → IsStill s rows row
        → is_entry_row s rows row ≡ false → (run_state s (row ∷ rows)).story.aims ≡ (run_state s rows).story.aims }
    ensures callees { (s : ScenarioValue) (rows : List Row) (row : Row) → IsStill s rows row → (dev : ℕ)
        → (is_entry_row s rows row && row.dev == dev) ≡ false
        → callee s (run_state s (row ∷ rows)) dev (aim_of (run_state s (row ∷ rows)).story.aims dev)
        ≡ callee s (run_state s rows) dev (aim_of (run_state s rows).story.aims dev) }
    ensures leaving { (s : ScenarioValue) (rows : List Row) (row : Row) → IsStill s rows row
        → (bus_of (run_state s (row ∷ rows))).atn ≡ (bus_of (run_state s rows)).atn → (dev : ℕ) (phase : Phase)
        → leaving_at s (run_state s (row ∷ rows)) dev phase ≡ leaving_at s (run_state s rows) dev phase }
    ensures bytes { (s : ScenarioValue) (rows : List Row) (row : Row) → IsStill s rows row
        → (dev : ℕ) (phase : Phase) (messages : Messages) (more place : ℕ)
        → byte_of_phase s (run_state s (row ∷ rows)) dev phase messages more place
        ≡ byte_of_phase s (run_state s rows) dev phase messages more place }
{}

/// What is kept row by row is what the plain terms of the bus and of the story say of the rows, where these are of the
/// eight devices; and those of a prompt trace are.
pub fn kept_is_plain()
    ensures rows { (s : ScenarioValue) (rows : List Row) → AreOfDevices rows → IsPlain s rows (run_state s rows) }
    ensures prompt { (s : ScenarioValue) (rows : List Row) → IsPrompt s rows → IsPlain s rows (run_state s rows) }
{}

/// What a row of one of the eight devices tells the two ends of a connection, and whether a phase has begun in
/// it, are told by the rows alone, so that one observer can tell them to all devices.
pub fn hearings_are_plain()
    ensures begun { (s : ScenarioValue) (rows : List Row) → AreOfDevices rows
        → (run_state s rows).exchange.begun ≡ begun rows }
    ensures hearing { (s : ScenarioValue) (rows : List Row) (row : Row) → AreOfDevices rows → row.dev < 8
        → hearing_of (run_state s rows) row (row_reading (run_state s rows).story.bus_state row)
        ≡ hearing rows row }
{}

/// An initiator wants the bus exactly from the time on at which it has something to send, and its own book
/// tells what that is.
pub fn wants_are_items()
    ensures items { (s : ScenarioValue) (sent : Sent) (dev time : ℕ)
        → item_at s sent dev time ≡ item_by (book_of s sent dev) time }
    ensures wants { (s : ScenarioValue) (sent : Sent) (dev time : ℕ)
        → is_some (item_at s sent dev time) ≡ is_reached (item_want_time s sent dev) time }
{}

/// What is due of a device is its reaction under RST: where no connection stands, on its way to one, from what
/// any device knows of the bus, what it knows of itself, and what it wants.
pub fn link_reactions_are_due()
    ensures { (s : ScenarioValue) (rows : List Row) (dev latency : ℕ) → IsThere s rows dev latency
        → connection rows ≡ None
        → due s rows dev ≡ under_reset s rows dev latency (link_reaction s rows dev latency) }
{}

/// Where a connection stands and RST is false, at its ends by REQ and ACK: from what they see of the lines, the
/// account of REQ and ACK in the phase, what they know of themselves, and what they have to do in the phase.
pub fn end_reactions_are_due()
    ensures target { (s : ScenarioValue) (rows : List Row) (dev latency : ℕ) (n : Connection)
        → IsThere s rows dev latency → IsLinked rows n → (n.initiator == dev) ≡ false → (n.target == dev) ≡ true
        → due s rows dev ≡ under_reset s rows dev latency (target_reaction s rows dev latency) }
    ensures initiator { (s : ScenarioValue) (rows : List Row) (dev latency : ℕ) (n : Connection)
        → IsThere s rows dev latency → IsLinked rows n → (n.initiator == dev) ≡ true
        → due s rows dev ≡ under_reset s rows dev latency (initiator_reaction s rows dev latency) }
{}

/// What a device knows of itself changes by its own rows of lines alone.
pub fn devices_know_themselves()
    ensures other { (s : ScenarioValue) (rows : List Row) (row : Row) (dev latency : ℕ) → row.dev ≢ dev
        → self_of (run_state s (row ∷ rows)) dev latency ≡ self_of (run_state s rows) dev latency }
    ensures own { (s : ScenarioValue) (rows : List Row) (row : Row) (latency : ℕ) (lines : LineSet) → row.dev < 8
        → row.kind ≡ Drives lines
        → self_of (run_state s (row ∷ rows)) row.dev latency
        ≡ (let me : Myself = record { dev = row.dev; latency = latency; own = lines; since = row.time } in me) }
{}
