// Laws of connections, each named by the contract of a function that does nothing.

ghost use Rattle.std.specs.Prelude.{ℕ, ◌≡◌, ◌<◌, ◌≤◌, List, [], Some, true};
ghost use Rattle.due_model.specs.bus_trace.specs.declared.Row.{Row};
ghost use Rattle.due_model.specs.bus_trace.specs.declared.connection.Connection.{Connection};
ghost use Rattle.due_model.specs.bus_trace.specs.Trace.{last_time};
ghost use Rattle.due_model.specs.bus_rules.specs.Lawful.{AreLawful};
ghost use Rattle.due_model.specs.scenario.specs.Value.{ScenarioValue};
ghost use Rattle.due_model.specs.scenario.specs.Writing.{Obeys};
ghost use Rattle.due_model.specs.reaction_model.specs.declared.due.Due.{Due};
ghost use Rattle.due_model.specs.Next.{due, next, IsPrompt};
ghost use Rattle.bus_laws.specs.Ends.{EndLines, Linked};
ghost use Rattle.bus_laws.specs.Stages.{Standing};
ghost use Rattle.link_laws.specs.Books.{
  KeepsBooksIn,
  have_odd_bytes,
  have_whole_messages,
  have_whole_commands,
  free_in_time,
};
ghost use Rattle.link_laws.specs.LinkStages.{LinkStage, AnyStage, NextAny};

/// What stands on the bus goes on from stage to stage, those of a connection included: its beginning after a selection
/// and after a reselection, the beginning of a phase with and without a turn of I/O, bytes one by one and by pulses in
/// either direction, what the initiator still drives of a data phase that was left, the end of a phase and of the
/// connection, faults and RST (6.1.1 to 6.1.10, 6.2.2). The next row, whichever it is, obeys all 28 rules, one of these
/// stages holds after it, and nothing that is due lies in the past (`next`), where a row of a connection keeps the
/// books: what its bytes say is not told by the lines. In a connection its two ends drive the lines of their own side,
/// and no third device drives a line (`sides`).
pub fn connections_go_on()
    ensures start { (s : ScenarioValue) → Standing s [] × AnyStage s [] }
    ensures next { (s : ScenarioValue) (rows : List Row) (row : Row) → Obeys s → Standing s rows → AnyStage s rows
        → KeepsBooksIn rows row → next s rows ≡ Some row → NextAny s rows row }
    ensures sides { (s : ScenarioValue) (rows : List Row) (n : Connection) → LinkStage s rows n
        → (e : EndLines) × Linked rows n e }
{}

/// A prompt trace, whatever connections, faults and resets it has and however long it is, obeys every rule of the bus
/// (`lawful`), and nothing that is due after it lies in the past (`ahead`), where of the rows of its connections this
/// is so: each byte that crosses has odd parity; the bytes of message phases form messages, are left whole, and leave
/// no request open as data crosses; as many bytes of COMMAND cross as the command has, and data once it is whole; and
/// the bus is not freed in a data phase.
pub fn traces_are_lawful()
    ensures lawful { (s : ScenarioValue) (rows : List Row) → Obeys s → IsPrompt s rows → have_odd_bytes rows ≡ true
        → have_whole_messages rows ≡ true → have_whole_commands rows ≡ true → free_in_time rows ≡ true
        → AreLawful rows }
    ensures ahead { (s : ScenarioValue) (rows : List Row) → Obeys s → IsPrompt s rows → have_odd_bytes rows ≡ true
        → have_whole_messages rows ≡ true → have_whole_commands rows ≡ true → free_in_time rows ≡ true
        → (dev : ℕ) → dev < 8 → (x : Due) → due s rows dev ≡ Some x → last_time rows ≤ x.time }
{}
