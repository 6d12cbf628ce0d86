//! What the units of a target rest on, and what they are of the plain disk array.
ghost use Rattle.std.specs.Prelude.{◌≡◌, ◌<◌, ◌≤◌, ◌*◌, ℕ, true, false, List, length, Some};
ghost use Rattle.bus_base.specs.declared.Event.{Event};
ghost use Rattle.bus_base.specs.declared.Event.TheVariants as events;
ghost use Rattle.bus_base.specs.declared.ProcId.{ProcId};
ghost use Rattle.cdb_codec.specs.Cdb.{command_of};
ghost use Rattle.cdb_codec.specs.declared.status.TheConstants.{GOOD};
ghost use Rattle.scenario.specs.declared.value.TargetDef.{TargetDef};
ghost use Rattle.scenario.specs.Needs.{is_write};
ghost use Rattle.scenario.specs.Value.{ScenarioValue};
ghost use Rattle.due_model.specs.Defs.{target_def_of};
ghost use Rattle.array_model.specs.ArrayHistory.{array_after};
ghost use Rattle.array_model.specs.Order.{range_in, count_in};
ghost use Rattle.array_model.specs.Processes.{Process, process_of};
ghost use Rattle.array_model.specs.Seats.{is_elsewhere};
ghost use Rattle.array_model.specs.Steps.{step};
ghost use Rattle.array_model.specs.Units.{Array, unit_state_at};
ghost use Rattle.scsi_device.specs.Lines.{FitsBus};
ghost use Rattle.target_units.specs.Units.{AreUnitsOf, AreUnitsAfter, IsStep, unit_in, contents_in, state_contents};
ghost use Rattle.target_units.specs.Rooms.{AreOfKinds, AreOfLines};
ghost use Rattle.target_units.specs.declared.logical.LogicalUnit.{LogicalUnit};
ghost use Rattle.due_model.specs.Tasks.{size_of, reply_now};

/// What the units hold that are there, before their disks and tapes are handed out, is what the units of the array
/// hold.
pub fn units_hold_their_blocks()
    ensures { (s : ScenarioValue) (a : Array) (times : List ℕ) (dev n : ℕ) (units : List LogicalUnit)
        → AreUnitsOf s a times dev units → n < 8
        → contents_in (unit_in units n) ≡ state_contents (unit_state_at a.units dev n) }
{}

/// The array has of each unit as many blocks, of as many bytes, as its line says, after every history that is allowed
/// (`always`) and after each step (`goes_on`); and a unit is a tape exactly where its line is that of one
/// (`kinds_always`, `kinds_go_on`). So a write at a disk whose reply would be GOOD names blocks of as many bytes as its
/// process sends (`sends`), which are few (`few`).
pub fn units_are_of_their_lines()
    ensures always { (s : ScenarioValue) (history : List Event) (a : Array) → array_after s history ≡ Some a
        → AreOfLines s a }
    ensures goes_on { (s : ScenarioValue) (a b : Array) (event : Event) → AreOfLines s a → step s event a ≡ Some b
        → AreOfLines s b }
    ensures kinds_always { (s : ScenarioValue) (history : List Event) (a : Array) → array_after s history ≡ Some a
        → AreOfKinds s a }
    ensures kinds_go_on { (s : ScenarioValue) (a b : Array) (event : Event) → AreOfKinds s a
        → step s event a ≡ Some b → AreOfKinds s b }
    ensures sends { (s : ScenarioValue) (a : Array) (p : Process) (def : TargetDef) → FitsBus s → AreOfLines s a
        → AreOfKinds s a → target_def_of s p.target ≡ Some def → process_of s p.id ≡ Some p → p.serial ≡ false
        → is_write (command_of p.cdb) ≡ true → (reply_now a p).status ≡ GOOD
        → count_in (range_in (command_of p.cdb)) * size_of (unit_state_at a.units p.target p.unit) ≡ length p.sent }
    ensures few { (s : ScenarioValue) (p : Process) → FitsBus s → process_of s p.id ≡ Some p
        → length p.sent ≤ 65536 }
{}

/// A command that arrives gives no reply, so that its process may run as it arrives (`Units::run`).
pub fn arrivals_give_no_reply()
    ensures { (s : ScenarioValue) (a b : Array) (id : ProcId) → step s (events.Accept id) a ≡ Some b
        → b.replies ≡ a.replies }
{}

/// An event of a process of another target, or an abort there, changes nothing of the units of a target.
pub fn units_stay()
    ensures { (s : ScenarioValue) (event : Event) (a b : Array) (times : List ℕ) (now dev : ℕ)
        (units : List LogicalUnit) → IsStep s event a b → AreUnitsOf s a times dev units
        → ((n : ℕ) → n < 8 → is_elsewhere s event dev n ≡ true) → AreUnitsAfter s a b times now dev units }
{}
