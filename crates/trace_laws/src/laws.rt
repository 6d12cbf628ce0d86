// Laws of prompt traces, each named by the contract of a function that does nothing.

ghost use Rattle.std.specs.Prelude.{ℕ, ◌≡◌, ◌<◌, ◌≤◌, true, List, ◌∷◌, Some};
ghost use Rattle.due_model.specs.bus_base.specs.declared.Event.TheVariants as events;
ghost use Rattle.due_model.specs.bus_trace.specs.declared.Row.{Row};
ghost use Rattle.due_model.specs.bus_trace.specs.declared.connection.Connection.{Connection};
ghost use Rattle.due_model.specs.bus_trace.specs.Trace.{last_time};
ghost use Rattle.due_model.specs.bus_rules.specs.Lawful.{AreLawful};
ghost use Rattle.due_model.specs.scenario.specs.Value.{ScenarioValue};
ghost use Rattle.due_model.specs.scenario.specs.Writing.{Obeys};
ghost use Rattle.due_model.specs.reaction_model.specs.declared.due.Due.{Due};
ghost use Rattle.due_model.specs.array_model.specs.Processes.{process_of, Process};
ghost use Rattle.story_laws.specs.book_laws.specs.FullQueues.{has_event};
ghost use Rattle.due_model.specs.Allowed.{allowed};
ghost use Rattle.due_model.specs.Faithful.{faithful};
ghost use Rattle.due_model.specs.Next.{due, IsPrompt};
ghost use Rattle.due_model.specs.Plain.{AreOfDevices};
ghost use Rattle.due_model.specs.RunSteps.{run_state};
ghost use Rattle.story_laws.specs.scsi_device.specs.Heard.{heard};
ghost use Rattle.story_laws.specs.scsi_device.specs.Writes.{written};
ghost use Rattle.story_laws.specs.book_laws.specs.WrongParity.{complains_truly, has_more_faults, left_as_due};
ghost use Rattle.story_laws.specs.book_laws.specs.Traces.{AreRowsOf, Books};
ghost use Rattle.due_model.specs.Telling.{telling};
ghost use Rattle.story_laws.specs.row_laws.specs.ByteValues.{HasByteValues};
ghost use Rattle.story_laws.specs.row_laws.specs.Ends.{AreEnds};
ghost use Rattle.story_laws.specs.RowAttendance.{IsAttended};

use story_laws::the_book_laws::limits_are_passed;

/// A prompt trace, whatever connections, faults and resets it has and however long it is, obeys every rule of the bus
/// (`lawful`), and nothing that is due after it lies in the past (`ahead`).
pub fn prompt_traces_are_lawful()
    ensures lawful { (s : ScenarioValue) (rows : List Row) → Obeys s → IsPrompt s rows → AreLawful rows }
    ensures ahead { (s : ScenarioValue) (rows : List Row) → Obeys s → IsPrompt s rows → (dev : ℕ) → dev < 8
        → (x : Due) → due s rows dev ≡ Some x → last_time rows ≤ x.time }
{}

/// Each row of such a trace is of one of the five kinds of which the books are kept (`rows`): what an end drives it
/// drives until the byte crosses, so that each byte is the one that its sender is due to give, with odd parity, and ATN
/// is as it is due with it; and a phase is left where no byte follows. So the books hold after it (`books`), and what
/// crosses is what was to be said (`faithful`). That what the ends of a connection are due to give are bytes holds
/// after any rows of the eight devices (`bytes`).
pub fn prompt_traces_keep_the_books()
    ensures rows { (s : ScenarioValue) (rows : List Row) → Obeys s → IsPrompt s rows → AreRowsOf s rows }
    ensures books { (s : ScenarioValue) (rows : List Row) → Obeys s → IsPrompt s rows → Books s (run_state s rows) }
    ensures faithful { (s : ScenarioValue) (rows : List Row) → Obeys s → IsPrompt s rows → faithful s rows ≡ true }
    ensures bytes { (s : ScenarioValue) (rows : List Row) (n : Connection) → Obeys s → AreOfDevices rows
        → HasByteValues s (run_state s rows) n }
{}

/// The events that the two ends of a connection show, each by what it knows itself, are those that the rows show
/// (`telling`), and the plain disk array permits them (`allowed`). The target hears in a connection what is of the
/// process that it serves, which stands in the array where the phase says (`heard`); the bytes of a write come in their
/// order, and a write that runs and would end GOOD has come whole (`written`); and the events of a row in a connection
/// are of that process, or of an abort that came in it (`attended`).
pub fn ends_know_what_rows_tell()
    ensures telling { (s : ScenarioValue) (rows : List Row) → Obeys s → IsPrompt s rows → telling s rows ≡ true }
    ensures allowed { (s : ScenarioValue) (rows : List Row) → Obeys s → IsPrompt s rows → allowed s rows ≡ true }
    ensures heard { (s : ScenarioValue) (rows : List Row) → Obeys s → IsPrompt s rows → heard s rows ≡ true }
    ensures written { (s : ScenarioValue) (rows : List Row) → Obeys s → IsPrompt s rows → written s rows ≡ true }
    ensures attended { (s : ScenarioValue) (rows : List Row) (row : Row) → Obeys s → IsPrompt s (row ∷ rows)
        → IsAttended s rows row }
{}

/// The two ends of a connection are an initiator and a target of the scenario (`ends`), and a target goes to BUS FREE
/// only where it is due to (`left`).
pub fn connections_are_of_the_scenario()
    ensures ends { (s : ScenarioValue) (rows : List Row) → Obeys s → IsPrompt s rows → AreEnds s rows }
    ensures left { (s : ScenarioValue) (rows : List Row) → Obeys s → IsPrompt s rows → left_as_due s rows ≡ true }
{}

/// So a command fails with the sense of ABORTED COMMAND (`failures`), or is lost (`losses`), only where more fault rows
/// stand in the connections of its process than the limit of its target. The initiator complains only of a phase in
/// which a byte was struck (`complains`).
pub fn limits_are_kept()
    ensures failures { (s : ScenarioValue) (rows : List Row) (p : Process) (code : ℕ) → Obeys s → IsPrompt s rows
        → process_of s p.id ≡ Some p → has_event (run_state s rows).story.history (events.Fail p.id code) ≡ true
        → has_more_faults s rows p ≡ true }
    ensures losses { (s : ScenarioValue) (rows : List Row) (p : Process) → Obeys s → IsPrompt s rows
        → process_of s p.id ≡ Some p → has_event (run_state s rows).story.history (events.Lost p.id) ≡ true
        → has_more_faults s rows p ≡ true }
    ensures complains { (s : ScenarioValue) (rows : List Row) → Obeys s → IsPrompt s rows
        → complains_truly s rows ≡ true }
{
    limits_are_passed();
}
