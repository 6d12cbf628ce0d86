//! The logical units of a target, each at its seat of the plain disk array.
ghost use Rattle.std.specs.Prelude.{◌≡◌, ◌<◌, ◌≤◌, ◌+◌, ◌==◌, ℕ, true, false, List, length, Option, Some, None, is_some, replicate, take, drop, IfOk};
ghost use Rattle.bus_base.specs.declared.AbortKind.TheVariants as aborts;
ghost use Rattle.bus_base.specs.declared.Event.TheVariants as events;
ghost use Rattle.cdb_codec.specs.Cdb.{command_of};
ghost use Rattle.cdb_codec.specs.declared.status.TheConstants.{GOOD};
ghost use Rattle.scenario.specs.Lookups.{has_target, is_tape, unit_of, units_of};
ghost use Rattle.scenario.specs.Needs.{is_write};
ghost use Rattle.scenario.specs.Value.{ScenarioValue};
ghost use Rattle.scenario.specs.Writing.{Obeys};
ghost use Rattle.due_model.specs.Defs.{target_def_of};
ghost use Rattle.array_model.specs.ArrayHistory.{reply_in};
ghost use Rattle.array_model.specs.Execution.{Reply as ArrayReply, is_request_sense};
ghost use Rattle.array_model.specs.Processes.{Process, process_of};
ghost use Rattle.array_model.specs.Seats.{seat_of, current_of, in_hold, nexus_at, is_initiator};
ghost use Rattle.array_model.specs.SoundArray.{IsOwn, IsSound, HasSeats};
ghost use Rattle.array_model.specs.Steps.{step};
ghost use Rattle.array_model.specs.Units.{Array, RunningProcess, guest_at, unit_state_at, starting_array, settled_array};
ghost use Rattle.scsi_device.specs.Lines.{FitsBus};
ghost use Rattle.disk_unit.specs.Plans.{plan_of};
ghost use Rattle.disk_unit.specs.Units.{told_of};
ghost use Rattle.disk_unit.specs.declared.unit.Accepted.TheVariants as accepted;
ghost use Rattle.target_units.specs.Seated.{IsKnownAs, IsNew, HasSent, IsSensing, running_id, running_entry, running_block, current_reply};
ghost use Rattle.target_units.specs.Units.{IsUnitOf, AreUnitsOf, AreUnitsAfter, AreEarly, IsStep, unit_in, unit_after_reset, is_of_one, first_unit, reply_at, taken_by, taken_of, spare_of, no_unit, contents_in, contents_handed, state_contents, is_before as is_before_unit};
ghost use Rattle.target_units.specs.Fillings.{blocks_at};
ghost use Rattle.target_units.specs.Readies.{ready_unit};
ghost use Rattle.due_model.specs.Wants.{ready_at, ready_among};
ghost use Rattle.due_model.specs.Tasks.{room_of, size_of, reply_now};

use crate::logical::LogicalUnit;
use crate::ready::Ready;
use crate::served::Served;
use bus_base::{AbortKind, Dev, NoMemory, Ns, ProcId};
use disk_unit::{Accepted, Plan, Reply};
use due_model::the_dialogue_model::Room;
use scenario::{Scenario, TargetDef};
use scsi_device::scenarios_fit_the_bus;
use std::alloc::Global;
use std::marker::Model;
use tag_queue::Entry;
use tape_unit::Drive;

/// The logical units of a target, by number.
#[derive(Drop)]
pub struct Units {
    dev: Dev,
    seek: u32,
    units: [LogicalUnit; 8],
}

impl Model for Units {
    ghost use Rattle.target_units.specs.Units.{UnitsState};

    ghost Value = { UnitsState };

    ghost view = { λ u. record { dev = u.dev; seek = u.seek; units = u.units } };
}

// There are eight of them.
fn are_eight(units: &[LogicalUnit; 8])
    ensures { length units.now ≡ 8 }
{
    let _ = units.len();
}

fn reset_each(units: &mut [LogicalUnit; 8], now: Ns)
    ensures eight { length units.new ≡ 8 }
    ensures each { (n : ℕ) → n < 8 → unit_in units.new n ≡ unit_after_reset now (unit_in units.old n) }
{
    for n in 0..8 {
        units[n].reset(now);
    }
}

fn is_before(one: Ready, other: Ready) -> bool
    ensures { result ≡ is_before_unit one other }
{
    one.time < other.time || (one.time == other.time && one.unit < other.unit)
}

fn first(one: Option<Ready>, other: Option<Ready>) -> Option<Ready>
    ensures { result ≡ first_unit one other }
{
    match (one, other) {
        (None, other) => other,
        (one, None) => one,
        (Some(one), Some(other)) => {
            if is_before(other, one) {
                Some(other)
            } else {
                Some(one)
            }
        }
    }
}

impl Units {
    /// The units of a target with this seek time, by number.
    pub fn new(dev: Dev, seek: u32, units: [LogicalUnit; 8]) -> Units
        ensures exact { result ≡ record { dev = dev; seek = seek; units = units } }
        ensures start { (s : ScenarioValue) → FitsBus s → has_target s dev ≡ true
            → ((n : ℕ) → n < 8 → IsUnitOf s.hosts (seat_of (starting_array s) dev n) 0 (unit_in units n))
            → ((n : ℕ) → n < 8 → blocks_at s (unit_of s dev n) ≤ spare_of (unit_in units n))
            → AreUnitsOf s (settled_array (starting_array s)) (replicate (length (units_of s)) 0) dev result.units }
    {
        are_eight(&units);
        Units { dev, seek, units }
    }

    /// The units of a target of a scenario that obeys the rules of its text, before any event. They take all the memory
    /// that they ever have.
    pub fn of(alloc: Global, scenario: &Scenario, def: &TargetDef) -> Result<Units, NoMemory>
        requires lawful { Obeys scenario.now }
        requires target { target_def_of scenario.now def.now.dev ≡ Some def.now }
        ensures dev { IfOk result (λ made. made.dev ≡ def.now.dev) }
        ensures seek { IfOk result (λ made. made.seek ≡ def.now.seek) }
        ensures start { IfOk result (λ made. AreUnitsOf scenario.now
            (settled_array (starting_array scenario.now)) (replicate (length (units_of scenario.now)) 0) def.now.dev
            made.units) }
        ensures spare { IfOk result (λ made. (n : ℕ) → n < 8
            → blocks_at scenario.now (unit_of scenario.now def.now.dev n) ≤ spare_of (unit_in made.units n)) }
    {
        scenarios_fit_the_bus();
        let units = [
            LogicalUnit::of(alloc, scenario, def, 0)?,
            LogicalUnit::of(alloc, scenario, def, 1)?,
            LogicalUnit::of(alloc, scenario, def, 2)?,
            LogicalUnit::of(alloc, scenario, def, 3)?,
            LogicalUnit::of(alloc, scenario, def, 4)?,
            LogicalUnit::of(alloc, scenario, def, 5)?,
            LogicalUnit::of(alloc, scenario, def, 6)?,
            LogicalUnit::of(alloc, scenario, def, 7)?,
        ];
        Ok(Units::new(def.dev, def.seek, units))
    }

    /// The current process of a unit.
    pub fn current(&self, unit: u8) -> Option<ProcId>
        requires unit { unit < 8 }
        ensures { (s : ScenarioValue) (a : Array) (times : List ℕ)
            → AreUnitsOf s a times self.now.dev self.now.units
            → result ≡ running_id (current_of (unit_state_at a.units self.now.dev unit)) }
    {
        self.units[unit as usize].current()
    }

    /// How many bytes a block of a unit has; 0 where it is not there.
    pub fn block_size(&self, unit: u8) -> usize
        requires unit { unit < 8 }
        ensures { (s : ScenarioValue) (a : Array) (times : List ℕ)
            → AreUnitsOf s a times self.now.dev self.now.units
            → result ≡ size_of (unit_state_at a.units self.now.dev unit) }
    {
        self.units[unit as usize].block_size()
    }

    /// Whether a unit is a tape, so that its commands conflict with one another and name no blocks.
    pub fn is_serial(&self, unit: u8) -> bool
        requires unit { unit < 8 }
        ensures { (s : ScenarioValue) (a : Array) (times : List ℕ)
            → AreUnitsOf s a times self.now.dev self.now.units → result ≡ is_tape s self.now.dev unit }
    {
        self.units[unit as usize].is_serial()
    }

    /// The queue of a unit that is there: whether it is full, and whether the unit is idle.
    pub fn room(&self, unit: u8) -> Option<Room>
        requires unit { unit < 8 }
        ensures { (s : ScenarioValue) (a : Array) (times : List ℕ) → IsSound s a
            → AreUnitsOf s a times self.now.dev self.now.units
            → result ≡ room_of a (unit_state_at a.units self.now.dev unit) }
    {
        self.units[unit as usize].room()
    }

    /// Whether an initiator stands in the hold of a unit.
    pub fn holds(&self, unit: u8, from: Dev) -> bool
        requires unit { unit < 8 }
        requires device { from < 8 }
        ensures { (s : ScenarioValue) (a : Array) (times : List ℕ)
            → AreUnitsOf s a times self.now.dev self.now.units
            → result ≡ in_hold a.holds (nexus_at self.now.dev unit from) }
    {
        self.units[unit as usize].holds(from)
    }

    /// How a command of an initiator would end if it ran now, whether or not it has arrived.
    pub fn plan(&self, unit: u8, from: Dev, cdb: &[u8]) -> Plan
        requires unit { unit < 8 }
        requires device { from < 8 }
        ensures exact { result ≡ plan_of (reply_at (unit_in self.now.units unit) from cdb.now)
            (taken_by (unit_in self.now.units unit) from cdb.now) }
        ensures array { (s : ScenarioValue) (a : Array) (times : List ℕ) (p : Process)
            → AreUnitsOf s a times self.now.dev self.now.units → is_initiator s.hosts from ≡ true
            → p.target ≡ self.now.dev → p.unit ≡ unit → p.initiator ≡ from → p.cdb ≡ cdb.now
            → result ≡ plan_of (reply_now a p) (taken_of a p) }
        ensures taken { (s : ScenarioValue) (a : Array) (times : List ℕ) (p : Process)
            → AreUnitsOf s a times self.now.dev self.now.units → is_initiator s.hosts from ≡ true
            → p.target ≡ self.now.dev → p.unit ≡ unit → p.initiator ≡ from → p.cdb ≡ cdb.now
            → process_of s p.id ≡ Some p → is_write (command_of p.cdb) ≡ true → (reply_now a p).status ≡ GOOD
            → result.out_len ≡ length p.sent }
    {
        self.units[unit as usize].plan(from, cdb)
    }

    /// The bytes of the reply that a command of an initiator would have now, from `at` on, as many as `into` has.
    pub fn fetch(&self, unit: u8, from: Dev, cdb: &[u8], at: u32, into: &mut [u8])
        requires unit { unit < 8 }
        requires device { from < 8 }
        requires within { at + length into.old
            ≤ length (reply_at (unit_in self.now.units unit) from cdb.now).bytes }
        ensures { (s : ScenarioValue) (a : Array) (times : List ℕ) (p : Process)
            → AreUnitsOf s a times self.now.dev self.now.units → is_initiator s.hosts from ≡ true
            → p.target ≡ self.now.dev → p.unit ≡ unit → p.initiator ≡ from → p.cdb ≡ cdb.now
            → into.new ≡ take (length into.old) (drop at (reply_now a p).bytes) }
    {
        self.units[unit as usize].fetch(from, cdb, at, into);
    }

    /// What the queue of a unit keeps of the current process: its number, its initiator, its tag and its class among
    /// others.
    pub fn current_command(&self, unit: u8) -> Option<Entry>
        requires unit { unit < 8 }
        ensures { (s : ScenarioValue) (a : Array) (times : List ℕ)
            → AreUnitsOf s a times self.now.dev self.now.units
            → result ≡ running_entry (current_of (unit_state_at a.units self.now.dev unit)) }
    {
        self.units[unit as usize].command()
    }

    /// The command descriptor block of the current process of a unit; no bytes where there is none.
    pub fn current_block(&self, unit: u8) -> &[u8]
        requires unit { unit < 8 }
        ensures { (s : ScenarioValue) (a : Array) (times : List ℕ)
            → AreUnitsOf s a times self.now.dev self.now.units
            → result.now ≡ running_block (current_of (unit_state_at a.units self.now.dev unit)) }
    {
        self.units[unit as usize].block()
    }

    /// The reply of the current process of a unit, once it has one.
    pub fn reply(&self, unit: u8) -> Option<Reply>
        requires unit { unit < 8 }
        ensures { (s : ScenarioValue) (a : Array) (times : List ℕ)
            → AreUnitsOf s a times self.now.dev self.now.units
            → result ≡ current_reply (current_of (unit_state_at a.units self.now.dev unit)) }
    {
        self.units[unit as usize].reply()
    }

    // The unit of this number.
    fn ready_at(&self, unit: u8) -> Option<Ready>
        requires unit { unit < 8 }
        ensures { (s : ScenarioValue) (a : Array) (times : List ℕ) → IsSound s a
            → AreUnitsOf s a times self.now.dev self.now.units → AreEarly a times self.now.dev self.now.seek
            → result ≡ ready_unit (ready_at a times self.now.seek self.now.dev unit) }
    {
        self.units[unit as usize].ready(unit, self.seek)
    }

    // Of these units from this one on.
    fn ready_upper(&self) -> Option<Ready>
        ensures { (s : ScenarioValue) (a : Array) (times : List ℕ) → IsSound s a
            → AreUnitsOf s a times self.now.dev self.now.units → AreEarly a times self.now.dev self.now.seek
            → result ≡ first_unit (ready_unit (ready_at a times self.now.seek self.now.dev 4))
            (first_unit (ready_unit (ready_at a times self.now.seek self.now.dev 5))
            (first_unit (ready_unit (ready_at a times self.now.seek self.now.dev 6))
            (first_unit (ready_unit (ready_at a times self.now.seek self.now.dev 7)) None))) }
    {
        first(
            self.ready_at(4),
            first(
                self.ready_at(5),
                first(self.ready_at(6), first(self.ready_at(7), None)),
            ),
        )
    }

    fn ready_lower(&self, upper: Option<Ready>) -> Option<Ready>
        ensures { (s : ScenarioValue) (a : Array) (times : List ℕ) → IsSound s a
            → AreUnitsOf s a times self.now.dev self.now.units → AreEarly a times self.now.dev self.now.seek
            → result ≡ first_unit (ready_unit (ready_at a times self.now.seek self.now.dev 0))
            (first_unit (ready_unit (ready_at a times self.now.seek self.now.dev 1))
            (first_unit (ready_unit (ready_at a times self.now.seek self.now.dev 2))
            (first_unit (ready_unit (ready_at a times self.now.seek self.now.dev 3)) upper))) }
    {
        first(
            self.ready_at(0),
            first(
                self.ready_at(1),
                first(self.ready_at(2), first(self.ready_at(3), upper)),
            ),
        )
    }

    /// The unit whose current process is ready first for a reselection.
    pub fn ready(&self) -> Option<Ready>
        ensures { (s : ScenarioValue) (a : Array) (times : List ℕ) → IsSound s a
            → AreUnitsOf s a times self.now.dev self.now.units → AreEarly a times self.now.dev self.now.seek
            → result ≡ ready_unit (ready_among a times self.now.seek self.now.dev) }
    {
        self.ready_lower(self.ready_upper())
    }

    /// The command of a process arrives at `now`, in ns (`LogicalUnit::accept`).
    pub fn accept(&mut self, served: &Served<'_>, now: Ns) -> Accepted
        requires unit { served.now.unit < 8 }
        requires device { served.now.from < 8 }
        requires most { length served.now.cdb.now ≤ 10 }
        ensures array { (s : ScenarioValue) (a b : Array) (times : List ℕ) (p : Process)
            → AreUnitsOf s a times self.old.dev self.old.units → IsOwn s self.old.dev served.now.unit p
            → IsKnownAs p served.now → IsNew s.hosts (seat_of a self.old.dev served.now.unit) p
            → IsStep s (events.Accept served.now.id) a b → AreUnitsAfter s a b times now self.old.dev self.new.units }
        ensures full { (s : ScenarioValue) (a : Array) (times : List ℕ) (p : Process)
            → AreUnitsOf s a times self.old.dev self.old.units → IsOwn s self.old.dev served.now.unit p
            → IsKnownAs p served.now → IsNew s.hosts (seat_of a self.old.dev served.now.unit) p
            → HasSeats s → IsSound s a → result ≡ accepted.Full → step s (events.Accept served.now.id) a ≡ None }
        ensures refused { (s : ScenarioValue) (a b : Array) (times : List ℕ) (p : Process)
            → AreUnitsOf s a times self.old.dev self.old.units → IsOwn s self.old.dev served.now.unit p
            → IsKnownAs p served.now → IsStep s (events.Refuse served.now.id) a b → result ≡ accepted.Full }
        ensures refuses { (s : ScenarioValue) (a b : Array) (times : List ℕ) (p : Process)
            → AreUnitsOf s a times self.old.dev self.old.units → IsOwn s self.old.dev served.now.unit p
            → IsKnownAs p served.now → IsNew s.hosts (seat_of a self.old.dev served.now.unit) p
            → IsStep s (events.Refuse served.now.id) a b → AreUnitsAfter s a b times now self.old.dev self.new.units }
        ensures dev { self.new.dev ≡ self.old.dev }
        ensures seek { self.new.seek ≡ self.old.seek }
    {
        let unit = served.unit;
        self.units[unit as usize].accept(served, now)
    }

    /// A process runs at `now`, in ns, with the bytes that it sent (`LogicalUnit::run`). A process of the queue whose
    /// run the array allows, and which had no reply before, always runs: the blocks that it writes have memory.
    pub fn run(&mut self, unit: u8, id: ProcId, sent: &[u8], now: Ns) -> Option<Reply>
        requires unit { unit < 8 }
        ensures array { (s : ScenarioValue) (a b : Array) (times : List ℕ) (p : Process)
            → AreUnitsOf s a times self.old.dev self.old.units → IsOwn s self.old.dev unit p → p.id ≡ id
            → guest_at (seat_of a self.old.dev unit).guests id ≡ None → HasSent (seat_of a self.old.dev unit) p sent.now
            → reply_in a.replies id ≡ None → IsStep s (events.Run id) a b
            → AreUnitsAfter s a b times now self.old.dev self.new.units }
        ensures reply { (s : ScenarioValue) (a b : Array) (times : List ℕ) (p : Process)
            → AreUnitsOf s a times self.old.dev self.old.units → IsOwn s self.old.dev unit p → p.id ≡ id
            → guest_at (seat_of a self.old.dev unit).guests id ≡ None → HasSent (seat_of a self.old.dev unit) p sent.now
            → reply_in a.replies id ≡ None → IsStep s (events.Run id) a b → result ≡ Some (told_of (reply_now a p)) }
        ensures guest { (s : ScenarioValue) (a b : Array) (times : List ℕ) (p : Process) (r : RunningProcess)
            → AreUnitsOf s a times self.old.dev self.old.units → IsOwn s self.old.dev unit p → p.id ≡ id
            → guest_at (seat_of a self.old.dev unit).guests id ≡ Some r
            → (is_some (unit_state_at a.units self.old.dev unit) ≡ true
            → is_request_sense (command_of r.process.cdb) ≡ true) → IsStep s (events.Run id) a b
            → AreUnitsAfter s a b times now self.old.dev self.new.units }
        ensures dev { self.new.dev ≡ self.old.dev }
        ensures seek { self.new.seek ≡ self.old.seek }
    {
        self.units[unit as usize].run(id, sent, now)
    }

    /// A process fails at `now`, in ns, with this code.
    pub fn fail(&mut self, unit: u8, id: ProcId, code: u8, now: Ns)
        requires unit { unit < 8 }
        ensures array { (s : ScenarioValue) (a b : Array) (times : List ℕ) (p : Process)
            → AreUnitsOf s a times self.old.dev self.old.units → IsOwn s self.old.dev unit p → p.id ≡ id
            → IsStep s (events.Fail id code) a b → AreUnitsAfter s a b times now self.old.dev self.new.units }
        ensures dev { self.new.dev ≡ self.old.dev }
        ensures seek { self.new.seek ≡ self.old.seek }
    {
        self.units[unit as usize].fail(id, code, now);
    }

    /// A process of the queue ends at `now`, in ns.
    pub fn end(&mut self, unit: u8, id: ProcId, now: Ns)
        requires unit { unit < 8 }
        ensures array { (s : ScenarioValue) (a b : Array) (times : List ℕ) (p : Process) (status : ℕ)
            → AreUnitsOf s a times self.old.dev self.old.units → IsOwn s self.old.dev unit p → p.id ≡ id
            → guest_at (seat_of a self.old.dev unit).guests id ≡ None → IsStep s (events.End id status) a b
            → AreUnitsAfter s a b times now self.old.dev self.new.units }
        ensures dev { self.new.dev ≡ self.old.dev }
        ensures seek { self.new.seek ≡ self.old.seek }
    {
        self.units[unit as usize].end(id, now);
    }

    /// A process outside the queue ends at `now`, in ns, with this reply (`LogicalUnit::end_guest`).
    pub fn end_guest(&mut self, unit: u8, from: Dev, reply: &Reply, senses: bool, now: Ns)
        requires unit { unit < 8 }
        requires device { from < 8 }
        ensures array { (s : ScenarioValue) (a b : Array) (times : List ℕ) (p : Process) (given : ArrayReply)
            (status : ℕ) → AreUnitsOf s a times self.old.dev self.old.units → IsOwn s self.old.dev unit p
            → guest_at (seat_of a self.old.dev unit).guests p.id ≡ Some (record { process = p; reply = Some given })
            → p.initiator ≡ from → reply.now ≡ told_of given → IsSensing given p senses
            → IsStep s (events.End p.id status) a b → AreUnitsAfter s a b times now self.old.dev self.new.units }
        ensures dev { self.new.dev ≡ self.old.dev }
        ensures seek { self.new.seek ≡ self.old.seek }
    {
        self.units[unit as usize].end_guest(from, reply, senses, now);
    }

    /// A process is lost at `now`, in ns.
    pub fn lose(&mut self, unit: u8, id: ProcId, now: Ns)
        requires unit { unit < 8 }
        ensures array { (s : ScenarioValue) (a b : Array) (times : List ℕ) (p : Process)
            → AreUnitsOf s a times self.old.dev self.old.units → IsOwn s self.old.dev unit p → p.id ≡ id
            → IsStep s (events.Lost id) a b → AreUnitsAfter s a b times now self.old.dev self.new.units }
        ensures dev { self.new.dev ≡ self.old.dev }
        ensures seek { self.new.seek ≡ self.old.seek }
    {
        self.units[unit as usize].lose(id, now);
    }

    /// ABORT, ABORT TAG or CLEAR QUEUE of this initiator ended at `now`, in ns, at a unit.
    pub fn abort(&mut self, unit: u8, kind: AbortKind, by: Dev, now: Ns)
        requires unit { unit < 8 }
        requires device { by < 8 }
        ensures array { (s : ScenarioValue) (a b : Array) (times : List ℕ)
            → AreUnitsOf s a times self.old.dev self.old.units → is_of_one kind ≡ true
            → IsStep s (events.Aborted by self.old.dev unit kind) a b
            → AreUnitsAfter s a b times now self.old.dev self.new.units }
        ensures dev { self.new.dev ≡ self.old.dev }
        ensures seek { self.new.seek ≡ self.old.seek }
    {
        self.units[unit as usize].abort(kind, by, now);
    }

    fn clear(&mut self, now: Ns)
        ensures eight { length self.new.units ≡ 8 }
        ensures each { (n : ℕ) → n < 8 → unit_in self.new.units n ≡ unit_after_reset now (unit_in self.old.units n) }
        ensures dev { self.new.dev ≡ self.old.dev }
        ensures seek { self.new.seek ≡ self.old.seek }
    {
        reset_each(&mut self.units, now);
    }

    /// RST, or BUS DEVICE RESET of this target, at `now`, in ns.
    pub fn reset(&mut self, now: Ns)
        ensures reset { (s : ScenarioValue) (a b : Array) (times : List ℕ) (by : ℕ)
            → AreUnitsOf s a times self.old.dev self.old.units → IsStep s (events.Reset by) a b
            → AreUnitsAfter s a b times now self.old.dev self.new.units }
        ensures device { (s : ScenarioValue) (a b : Array) (times : List ℕ) (by unit : ℕ)
            → AreUnitsOf s a times self.old.dev self.old.units
            → IsStep s (events.Aborted by self.old.dev unit aborts.Device) a b
            → AreUnitsAfter s a b times now self.old.dev self.new.units }
        ensures dev { self.new.dev ≡ self.old.dev }
        ensures seek { self.new.seek ≡ self.old.seek }
    {
        self.clear(now);
    }

    /// Hands out the disk or tape of a unit, where it is there, and leaves one in its place that is not. The other
    /// units stay as they were.
    pub fn take_drive(&mut self, unit: u8) -> Option<Drive>
        requires unit { unit < 8 }
        ensures exact { contents_handed result ≡ contents_in (unit_in self.old.units unit) }
        ensures array { (s : ScenarioValue) (a : Array) (times : List ℕ)
            → AreUnitsOf s a times self.old.dev self.old.units
            → contents_handed result ≡ state_contents (unit_state_at a.units self.old.dev unit) }
        ensures left { unit_in self.new.units unit ≡ no_unit }
        ensures others { (n : ℕ) → n < 8 → (n == unit) ≡ false
            → unit_in self.new.units n ≡ unit_in self.old.units n }
        ensures dev { self.new.dev ≡ self.old.dev }
        ensures seek { self.new.seek ≡ self.old.seek }
    {
        self.units[unit as usize].take_drive()
    }
}
