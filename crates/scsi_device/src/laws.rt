// Laws of any device, each named by the contract of a function that does nothing.
ghost use Rattle.std.specs.Prelude.{ℕ, ◌≡◌, ◌^◌, ◌==◌, false, List, Option, Some, None};
ghost use Rattle.bus_trace.specs.declared.Row.{Row};
ghost use Rattle.bus_trace.specs.declared.connection.Connection.{Connection};
ghost use Rattle.bus_trace.specs.Terms.{receiver};
ghost use Rattle.bus_lines.specs.Effect.{effect};
ghost use Rattle.bus_lines.specs.Timely.{IsBefore};
ghost use Rattle.reaction_model.specs.declared.due.Myself.{Myself};
ghost use Rattle.scenario.specs.declared.value.AbortDef.{AbortDef};
ghost use Rattle.scenario.specs.declared.value.CmdDef.{CmdDef};
ghost use Rattle.scenario.specs.declared.value.FaultDef.{FaultDef};
ghost use Rattle.scenario.specs.declared.value.HostDef.{HostDef};
ghost use Rattle.scenario.specs.declared.value.TapeDef.{TapeDef};
ghost use Rattle.scenario.specs.declared.value.TargetDef.{TargetDef};
ghost use Rattle.scenario.specs.declared.value.UnitDef.{UnitDef};
ghost use Rattle.scenario.specs.Lookups.{disk_of, tape_of, unit_of};
ghost use Rattle.scenario.specs.Value.{ScenarioValue};
ghost use Rattle.scenario.specs.Writing.{Obeys};
ghost use Rattle.due_model.specs.array_model.specs.Processes.{command_at};
ghost use Rattle.due_model.specs.array_model.specs.SoundArray.{HasSeats};
ghost use Rattle.due_model.specs.story_model.specs.HistoryEvents.{abort_line_at};
ghost use Rattle.due_model.specs.Connected.{connected_due};
ghost use Rattle.due_model.specs.Defs.{host_of, target_def_of};
ghost use Rattle.due_model.specs.Due.{reset_from};
ghost use Rattle.due_model.specs.RunState.{RunState};
ghost use Rattle.due_model.specs.RunSteps.{run_state};
ghost use Rattle.due_model.specs.Sights.{flip_of};
ghost use Rattle.due_model.specs.Wants.{item_want_time};
ghost use Rattle.scsi_device.specs.Lines.{IsHostLine, IsTargetLine, IsUnitLine, IsTapeLine, IsLogicalUnit, IsCommandLine};
ghost use Rattle.scsi_device.specs.Lines.{IsAbortLine, FitsBus, AreUnits};
ghost use Rattle.scsi_device.specs.Told.{first_fault, flip_by};

/// Of all faults that have not struck yet a device needs the first (`faults`); the receiver of the byte of the last row
/// is the one that the view of the bus tells (`receivers`); and in a connection of others a device does nothing
/// (`others`).
pub fn devices_know_enough()
    ensures faults { (faults : List FaultDef) (f : Option FaultDef) (time : ℕ) → f ≡ first_fault faults
        → flip_of faults time ≡ flip_by f time }
    ensures receivers { (rows : List Row) → (effect rows).receiver ≡ receiver rows }
    ensures others { (s : ScenarioValue) (k : RunState) (me : Myself) (n : Connection)
        → (n.initiator == me.dev) ≡ false → (n.target == me.dev) ≡ false → connected_due s k me n ≡ None }
{}

/// What a scenario that obeys the rules of its text says of its devices, units, commands and aborts (`lines`): so its
/// commands are of initiators 0 to 7 and its units stand once (`seats`), units are 0 to 7 (`units`), each command and
/// each abort is that of its line, by its number (`commands`, `aborts`), and so is each device, each disk, each tape
/// and each unit that is found (`found_hosts`, `found_targets`, `found_disks`, `found_tapes`, `found_units`). Before
/// 2^63 ns lies since when an initiator wants the bus, after whatever rows, and when a device drives RST next
/// (`times`).
pub fn scenarios_fit_the_bus()
    ensures lines { (s : ScenarioValue) → Obeys s → FitsBus s }
    ensures seats { (s : ScenarioValue) → FitsBus s → HasSeats s }
    ensures units { (s : ScenarioValue) → FitsBus s → AreUnits s }
    ensures commands { (s : ScenarioValue) (n : ℕ) (c : CmdDef) → FitsBus s → command_at s.commands n ≡ Some c
        → IsCommandLine s c }
    ensures aborts { (s : ScenarioValue) (n : ℕ) (a : AbortDef) → FitsBus s → abort_line_at s.aborts n ≡ Some a
        → IsAbortLine s a }
    ensures found_hosts { (s : ScenarioValue) (dev : ℕ) (h : HostDef) → FitsBus s → host_of s dev ≡ Some h
        → IsHostLine s h × (h.dev ≡ dev) }
    ensures found_targets { (s : ScenarioValue) (dev : ℕ) (t : TargetDef) → FitsBus s → target_def_of s dev ≡ Some t
        → IsTargetLine s t × (t.dev ≡ dev) }
    ensures found_disks { (s : ScenarioValue) (target unit : ℕ) (u : UnitDef) → FitsBus s
        → disk_of s target unit ≡ Some u → IsUnitLine s u × (u.target ≡ target) × (u.unit ≡ unit) }
    ensures found_tapes { (s : ScenarioValue) (target unit : ℕ) (t : TapeDef) → FitsBus s
        → tape_of s target unit ≡ Some t → IsTapeLine s t × (t.target ≡ target) × (t.unit ≡ unit) }
    ensures found_units { (s : ScenarioValue) (target unit : ℕ) (u : UnitDef) → FitsBus s
        → unit_of s target unit ≡ Some u → IsLogicalUnit s u × (u.target ≡ target) × (u.unit ≡ unit) }
    ensures times { (s : ScenarioValue) (rows : List Row) (dev : ℕ) (released : Option ℕ) → FitsBus s
        → IsBefore (2 ^ 63) (item_want_time s (run_state s rows).story.sent dev)
        × IsBefore (2 ^ 63) (reset_from dev released s.resets) }
{}
