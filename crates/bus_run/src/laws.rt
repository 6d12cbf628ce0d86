// What devices may rest on, named by the contract of a function that does nothing.
ghost use Rattle.std.specs.Prelude.{◌≡◌, ◌==◌, true, false, is_some, List, ◌∷◌, Some};
ghost use Rattle.bus_trace.specs.declared.Row.{Row};
ghost use Rattle.bus_trace.specs.declared.connection.Connection.{Connection};
ghost use Rattle.bus_trace.specs.Terms.{connection};
ghost use Rattle.scenario.specs.declared.value.HostDef.{HostDef};
ghost use Rattle.scenario.specs.declared.value.TargetDef.{TargetDef};
ghost use Rattle.scenario.specs.Value.{ScenarioValue};
ghost use Rattle.due_model.specs.Allowed.{allowed};
ghost use Rattle.due_model.specs.Defs.{host_of, target_def_of};
ghost use Rattle.due_model.specs.Faithful.{faithful};
ghost use Rattle.due_model.specs.Telling.{telling};
ghost use Rattle.bus_laws.specs.scsi_device.specs.Heard.{heard};
ghost use Rattle.bus_laws.specs.scsi_device.specs.Lines.{IsHostLine, IsTargetLine};
ghost use Rattle.bus_laws.specs.scsi_device.specs.Writes.{written};
ghost use Rattle.disk_target.specs.Attended.{attended};
ghost use Rattle.bus_run.specs.Seams.{seams};

/// What rows tie of devices to what they tell: what crossed is what was to be said (`faithful`), the two ends of a
/// connection show the events that the rows show (`telling`), the plain disk array permits them (`allowed`), the target
/// hears what is of the process that it serves (`heard`), the bytes of a write come in their order (`written`), the
/// events of a row in a connection are of that process (`attended`), and the two ends are an initiator and a target of
/// the scenario (`initiators`, `targets`). So no initiator is called, and no target calls as an initiator
/// (`not_called`, `not_calling`). It holds of the rows before, too (`before`).
pub fn rows_tie_devices()
    ensures faithful { (s : ScenarioValue) (rows : List Row) → seams s rows ≡ true → faithful s rows ≡ true }
    ensures telling { (s : ScenarioValue) (rows : List Row) → seams s rows ≡ true → telling s rows ≡ true }
    ensures allowed { (s : ScenarioValue) (rows : List Row) → seams s rows ≡ true → allowed s rows ≡ true }
    ensures heard { (s : ScenarioValue) (rows : List Row) → seams s rows ≡ true → heard s rows ≡ true }
    ensures written { (s : ScenarioValue) (rows : List Row) → seams s rows ≡ true → written s rows ≡ true }
    ensures attended { (s : ScenarioValue) (rows : List Row) → seams s rows ≡ true → attended s rows ≡ true }
    ensures before { (s : ScenarioValue) (rows : List Row) (row : Row) → seams s (row ∷ rows) ≡ true
        → seams s rows ≡ true }
    ensures initiators { (s : ScenarioValue) (rows : List Row) (n : Connection) → seams s rows ≡ true
        → connection rows ≡ Some n → is_some (host_of s n.initiator) ≡ true }
    ensures targets { (s : ScenarioValue) (rows : List Row) (n : Connection) → seams s rows ≡ true
        → connection rows ≡ Some n → is_some (target_def_of s n.target) ≡ true }
    ensures not_called { (s : ScenarioValue) (rows : List Row) (h : HostDef) (n : Connection) → IsHostLine s h
        → seams s rows ≡ true → connection rows ≡ Some n → (n.target == h.dev) ≡ false }
    ensures not_calling { (s : ScenarioValue) (rows : List Row) (t : TargetDef) (n : Connection) → IsTargetLine s t
        → seams s rows ≡ true → connection rows ≡ Some n → (n.initiator == t.dev) ≡ false }
{}
