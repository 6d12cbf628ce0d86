// Laws of prompt traces, each named by the contract of a function that does nothing.

ghost use Rattle.std.specs.Prelude.{ℕ, ◌≡◌, ◌<◌, ◌≤◌, ◌+◌, ◌*◌, ◌^◌, false, List, [], ◌∷◌, length, Some, None};
ghost use Rattle.std.specs.List.{AllByRecursion};
ghost use Rattle.due_model.specs.bus_trace.specs.declared.Row.{Row};
ghost use Rattle.due_model.specs.bus_trace.specs.Trace.{bus, last_time};
ghost use Rattle.due_model.specs.bus_trace.specs.declared.Kind.TheVariants.{Drives};
ghost use Rattle.due_model.specs.bus_rules.specs.Reset.{only_rst};
ghost use Rattle.due_model.specs.bus_rules.specs.Lawful.{AreLawful};
ghost use Rattle.due_model.specs.bus_rules.specs.Rules.{broken_rule};
ghost use Rattle.due_model.specs.scenario.specs.Value.{ScenarioValue};
ghost use Rattle.due_model.specs.scenario.specs.Writing.{Obeys};
ghost use Rattle.due_model.specs.reaction_model.specs.declared.due.Due.{Due};
ghost use Rattle.due_model.specs.Next.{due, next, IsPrompt};
ghost use Rattle.bus_laws.specs.Stages.{BusStage, Standing, NextRow, is_connected, HaveNoConnection};

/// What stands on the bus goes on from stage to stage: the free bus, arbitration, the rise of SEL, selection and
/// reselection with and without an answer, and the reset condition (6.1.1 to 6.1.4, 6.2.2). Before any row the bus is
/// free (`start`). As long as no connection stands, the next row, of whichever device and whatever faults and resets
/// the scenario has, obeys all 28 rules, comes no sooner than the last, and leaves one of these stages, or the
/// beginning of a connection; and nothing that is due lies in the past (`next`). So does a row that raises RST, a
/// connection or not (`reset`). What held before such a row holds after it (`holds`).
pub fn stages_go_on()
    ensures start { (s : ScenarioValue) → Standing s [] × BusStage s [] }
    ensures next { (s : ScenarioValue) (rows : List Row) (row : Row) → Obeys s → Standing s rows → BusStage s rows
        → is_connected rows ≡ false → next s rows ≡ Some row → NextRow s rows row }
    ensures reset { (s : ScenarioValue) (rows : List Row) (row : Row) → Standing s rows → (bus rows).rst ≡ false
        → next s rows ≡ Some row → row.kind ≡ Drives only_rst → NextRow s rows row }
    ensures holds { (s : ScenarioValue) (rows : List Row) (row : Row) → Standing s rows → next s rows ≡ Some row
        → NextRow s rows row → is_connected (row ∷ rows) ≡ false → Standing s (row ∷ rows) }
{}

/// Up to its first connection a prompt trace obeys every rule of the bus (`lawful`), and nothing that is due after it
/// lies in the past (`ahead`); the row that begins the connection obeys every rule, too (`next`).
pub fn traces_are_lawful_up_to_a_connection()
    ensures lawful { (s : ScenarioValue) (rows : List Row) → Obeys s → IsPrompt s rows → HaveNoConnection rows
        → AreLawful rows }
    ensures ahead { (s : ScenarioValue) (rows : List Row) → Obeys s → IsPrompt s rows → HaveNoConnection rows
        → (dev : ℕ) → dev < 8 → (x : Due) → due s rows dev ≡ Some x → last_time rows ≤ x.time }
    ensures next { (s : ScenarioValue) (rows : List Row) (row : Row) → Obeys s → IsPrompt s rows → HaveNoConnection rows
        → next s rows ≡ Some row → broken_rule rows row ≡ None }
{}

/// A row of a prompt trace comes within 1,000,100,000 ns of the rows before it or, where that is later, of 10^12 ns,
/// the last time that a scenario may name (`each`). So a trace of at most 2^32 rows ends before 2^62 ns (`far`).
pub fn rows_come_in_time()
    ensures each { (s : ScenarioValue) (rows : List Row) → Obeys s → IsPrompt s rows
        → AllByRecursion (λ (row : Row). row.time < 1000000000001 + length rows * 1000100000) rows }
    ensures far { (s : ScenarioValue) (rows : List Row) → Obeys s → IsPrompt s rows → length rows ≤ 2 ^ 32
        → AllByRecursion (λ (row : Row). row.time < 2 ^ 62) rows }
{}
