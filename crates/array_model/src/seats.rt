//! The array at one seat: what each event leaves of a unit of a target, there or not.
ghost use Rattle.std.specs.Prelude.{◌≡◌, ℕ, List, Bool, true, Option, Some};
ghost use Rattle.bus_base.specs.declared.AbortKind.{AbortKind};
ghost use Rattle.bus_base.specs.declared.AbortKind.TheVariants as aborts;
ghost use Rattle.bus_base.specs.declared.Event.{Event};
ghost use Rattle.bus_base.specs.declared.Event.TheVariants as events;
ghost use Rattle.cdb_codec.specs.declared.sense.TheConstants.{ABORTED_COMMAND};
ghost use Rattle.scenario.specs.Value.{ScenarioValue};
ghost use Rattle.scenario.specs.Lookups.{is_tape};
ghost use Rattle.array_model.specs.Contents.{is_reeled};
ghost use Rattle.array_model.specs.Processes.{Process, process_of};
ghost use Rattle.array_model.specs.Execution.{check_condition, sense_of};
ghost use Rattle.array_model.specs.Units.{Array, UnitState, starting_array, settled_array, unit_state_at};
ghost use Rattle.array_model.specs.Steps.{step, has_ended};
ghost use Rattle.array_model.specs.ArrayHistory.{array_after};
ghost use Rattle.array_model.specs.Seats.{seat_of, seat_if, settled_seat, settled_seat_if, seat_after_accept, seat_after_refuse, seat_after_run, seat_after_failure, seat_after_end, seat_after_loss, seat_after_aborted, seat_after_reset, is_elsewhere};
ghost use Rattle.array_model.specs.SoundArray.{IsSound, HasSeats};
ghost use Rattle.array_model.specs.SeatReplies.{HaveReplies, ArrivesOnce};

/// After every history that is allowed each process is of its unit and of the scenario, only initiators 0 to 7 stand in
/// a hold, units stand once, and no unit still has to choose.
pub fn arrays_are_sound()
    ensures always { (s : ScenarioValue) (history : List Event) (a : Array) → HasSeats s
        → array_after s history ≡ Some a → IsSound s a }
    ensures goes_on { (s : ScenarioValue) (a b : Array) (event : Event) → HasSeats s → IsSound s a
        → step s event a ≡ Some b → IsSound s b }
{}

/// What the event of a process leaves of the seat to which it belongs follows from this seat alone, and so does whether
/// the event is allowed; but for whether the process has ended. The choice comes after it.
pub fn processes_change_their_seat()
    ensures accept { (s : ScenarioValue) (a : Array) (p : Process) → HasSeats s → IsSound s a
        → process_of s p.id ≡ Some p
        → seat_if (step s (events.Accept p.id) a) p.target p.unit
        ≡ settled_seat_if (seat_after_accept p (seat_of a p.target p.unit)) }
    ensures refuse { (s : ScenarioValue) (a : Array) (p : Process) → HasSeats s → IsSound s a
        → process_of s p.id ≡ Some p
        → seat_if (step s (events.Refuse p.id) a) p.target p.unit
        ≡ settled_seat_if (seat_after_refuse p (seat_of a p.target p.unit)) }
    ensures run { (s : ScenarioValue) (a : Array) (p : Process) → HasSeats s → IsSound s a
        → process_of s p.id ≡ Some p
        → seat_if (step s (events.Run p.id) a) p.target p.unit
        ≡ settled_seat_if (seat_after_run p.id (seat_of a p.target p.unit)) }
    ensures failure { (s : ScenarioValue) (a : Array) (p : Process) (code : ℕ) → HasSeats s → IsSound s a
        → process_of s p.id ≡ Some p
        → seat_if (step s (events.Fail p.id code) a) p.target p.unit
        ≡ settled_seat_if (seat_after_failure (has_ended a p.id) p
        (check_condition (sense_of ABORTED_COMMAND code 0x00)) (seat_of a p.target p.unit)) }
    ensures end { (s : ScenarioValue) (a : Array) (p : Process) (status : ℕ) → HasSeats s → IsSound s a
        → process_of s p.id ≡ Some p
        → seat_if (step s (events.End p.id status) a) p.target p.unit
        ≡ settled_seat_if (seat_after_end p.id status (seat_of a p.target p.unit)) }
    ensures loss { (s : ScenarioValue) (a : Array) (p : Process) → HasSeats s → IsSound s a
        → process_of s p.id ≡ Some p
        → seat_if (step s (events.Lost p.id) a) p.target p.unit
        ≡ settled_seat_if (seat_after_loss (has_ended a p.id) p.id (seat_of a p.target p.unit)) }
{}

/// What an abort leaves of the seat to which it is sent, BUS DEVICE RESET of each seat of the target, and RST of any
/// seat, follows from this seat alone and the initiators that there are.
pub fn aborts_change_their_seat()
    ensures abort { (s : ScenarioValue) (a : Array) (initiator target unit : ℕ) (what : AbortKind) → HasSeats s
        → IsSound s a
        → seat_if (step s (events.Aborted initiator target unit what) a) target unit
        ≡ Some (settled_seat (seat_after_aborted s.hosts initiator what (seat_of a target unit))) }
    ensures device { (s : ScenarioValue) (a : Array) (initiator target to_unit unit : ℕ) → HasSeats s → IsSound s a
        → seat_if (step s (events.Aborted initiator target to_unit aborts.Device) a) target unit
        ≡ Some (settled_seat (seat_after_reset s.hosts (seat_of a target unit))) }
    ensures reset { (s : ScenarioValue) (a : Array) (dev target unit : ℕ) → HasSeats s → IsSound s a
        → seat_if (step s (events.Reset dev) a) target unit
        ≡ Some (settled_seat (seat_after_reset s.hosts (seat_of a target unit))) }
{}

/// An event of a process of another seat, or an abort there, changes nothing of a seat.
pub fn other_seats_stay()
    ensures stay { (s : ScenarioValue) (a b : Array) (event : Event) (target unit : ℕ) → HasSeats s → IsSound s a
        → is_elsewhere s event target unit ≡ true → step s event a ≡ Some b
        → seat_of b target unit ≡ seat_of a target unit }
{}

/// Of the replies of the array the last one of a process that runs, current or guest, is the one that it has, if any,
/// and a process that waits has none: after any events of which each that lets a process arrive is the first of it
/// (`ArrivesOnce`).
pub fn replies_are_of_those_that_run()
    ensures start { (s : ScenarioValue) → HaveReplies (settled_array (starting_array s)) }
    ensures goes_on { (s : ScenarioValue) (a b : Array) (event : Event) → HasSeats s → IsSound s a
        → ArrivesOnce s a event → step s event a ≡ Some b → HaveReplies a → HaveReplies b }
{}

/// After every history that is allowed a unit is a tape exactly where its line is that of a tape, whatever commands,
/// aborts and resets there were.
pub fn units_keep_their_kind()
    ensures { (s : ScenarioValue) (history : List Event) (a : Array) (target unit : ℕ) (u : UnitState)
        → array_after s history ≡ Some a → unit_state_at a.units target unit ≡ Some u
        → is_reeled u.contents ≡ is_tape s target unit }
{}
