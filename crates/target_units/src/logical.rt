//! A logical unit of a target, there or not, at its seat of the plain disk array.
ghost use Rattle.std.specs.Prelude.{◌≡◌, ◌<◌, ◌≤◌, ◌+◌, ◌^◌, ℕ, Bool, true, List, length, Option, Some, None, is_some, take, drop, ◌==◌, ◌&&◌, IfOk};
ghost use Rattle.std.specs.List.{find};
ghost use Rattle.cdb_codec.specs.Cdb.{command_of};
ghost use Rattle.scenario.specs.declared.value.HostDef.{HostDef};
ghost use Rattle.scenario.specs.declared.value.UnitDef.{UnitDef as UnitLine};
ghost use Rattle.scenario.specs.Lookups.{disk_of, unit_of};
ghost use Rattle.array_model.specs.Contents.{is_reeled};
ghost use Rattle.scsi_device.specs.Lines.{FitsBus};
ghost use Rattle.due_model.specs.Defs.{target_def_of};
ghost use Rattle.array_model.specs.Execution.{Reply as ArrayReply, execution, is_request_sense, queue_full, aborted_reply};
ghost use Rattle.array_model.specs.Processes.{Process};
ghost use Rattle.array_model.specs.Units.{RunningProcess, guest_at, starting_array};
ghost use Rattle.array_model.specs.Seats.{Seat, seat_of, settled_seat, seat_after_accept, seat_after_refuse, seat_after_run, seat_after_failure, seat_after_end, seat_after_loss, seat_after_aborted, current_of, running_at, context_of, contents_of, is_any_held, is_initiator};
ghost use Rattle.due_model.specs.dialogue_model.specs.Wants.{ready_in};
ghost use Rattle.disk_unit.specs.Held.{cost_by, kind_of};
ghost use Rattle.disk_unit.specs.Units.{told_of};
ghost use Rattle.disk_unit.specs.Plans.{plan_of};
ghost use Rattle.disk_unit.specs.declared.unit.Accepted.TheVariants as accepted;
ghost use Rattle.target_units.specs.Seated.{seat_time, running_id, running_entry, running_block, current_reply, IsKnownAs, IsNew, HasSent, IsSensing, taken_in};
ghost use Rattle.target_units.specs.Readies.{ready_unit};
ghost use Rattle.target_units.specs.Rooms.{HasRoomFor, IsOfKind};
ghost use Rattle.target_units.specs.Fillings.{blocks_at};
ghost use Rattle.target_units.specs.Units.{IsUnitOf, reply_at, taken_by, room_if, spare_of, unit_after_reset, no_unit, contents_in, contents_handed};

use crate::absent::AbsentUnit;
use crate::ready::Ready;
use crate::seated::SeatedUnit;
use crate::served::Served;
use bus_base::{AbortKind, Dev, NoMemory, Ns, ProcId};
use disk_unit::{Accepted, Plan, Reply};
use due_model::the_dialogue_model::Room;
use scenario::{Scenario, TapeDef, TargetDef, UnitDef, tape_line, unit_line};
use std::alloc::Global;
use std::mem::replace;
use tag_queue::Entry;
use tape_unit::Drive;

/// A logical unit of a target.
#[derive(Drop)]
pub enum LogicalUnit {
    /// It is there.
    There(SeatedUnit),
    /// It is not there (ANSI X3.131-1994, 7.5.3).
    Absent(AbsentUnit),
}

impl LogicalUnit {
    /// The unit of this number of a target of a scenario, before any event: there where the scenario has a line of it,
    /// with memory for the blocks that its commands write. It takes all the memory that it ever has.
    pub fn of(
        alloc: Global,
        scenario: &Scenario,
        def: &TargetDef,
        number: u8,
    ) -> Result<LogicalUnit, NoMemory>
        requires fits { FitsBus scenario.now }
        requires target { target_def_of scenario.now def.now.dev ≡ Some def.now }
        ensures start { IfOk result (λ made. IsUnitOf scenario.now.hosts
            (seat_of (starting_array scenario.now) def.now.dev number) 0 made) }
        ensures spare { IfOk result (λ made. blocks_at scenario.now (unit_of scenario.now def.now.dev number)
            ≤ spare_of made) }
    {
        match unit_line(scenario.units.as_slice(), def.dev, number) {
            Some(line) => {
                let fills = scenario.fills.as_slice();
                let commands = scenario.commands.as_slice();
                let seated = SeatedUnit::new(alloc, &line, def.pick, fills, commands)?;
                Ok(LogicalUnit::There(seated))
            }
            None => LogicalUnit::of_tape(alloc, scenario, def, number),
        }
    }

    // The same where the scenario has no line of a disk of this number.
    fn of_tape(
        alloc: Global,
        scenario: &Scenario,
        def: &TargetDef,
        number: u8,
    ) -> Result<LogicalUnit, NoMemory>
        requires fits { FitsBus scenario.now }
        requires target { target_def_of scenario.now def.now.dev ≡ Some def.now }
        requires no_disk { disk_of scenario.now def.now.dev number ≡ None }
        ensures start { IfOk result (λ made. IsUnitOf scenario.now.hosts
            (seat_of (starting_array scenario.now) def.now.dev number) 0 made) }
        ensures spare { IfOk result (λ made. blocks_at scenario.now (unit_of scenario.now def.now.dev number)
            ≤ spare_of made) }
    {
        match tape_line(scenario.tapes.as_slice(), def.dev, number) {
            Some(line) => {
                let loads = scenario.loads.as_slice();
                let commands = scenario.commands.as_slice();
                let seated = SeatedUnit::tape(alloc, &line, def.pick, loads, commands)?;
                Ok(LogicalUnit::There(seated))
            }
            None => Ok(LogicalUnit::Absent(AbsentUnit::new())),
        }
    }
}

// ---- what it tells

impl LogicalUnit {
    /// The current process.
    pub fn current(&self) -> Option<ProcId>
        ensures { (hosts : List HostDef) (seat : Seat) (time : ℕ) → IsUnitOf hosts seat time self.now
            → result ≡ running_id (current_of seat.unit) }
    {
        match self {
            LogicalUnit::There(seated) => seated.current(),
            LogicalUnit::Absent(_) => None,
        }
    }

    /// What the queue keeps of the current process.
    pub fn command(&self) -> Option<Entry>
        ensures { (hosts : List HostDef) (seat : Seat) (time : ℕ) → IsUnitOf hosts seat time self.now
            → result ≡ running_entry (current_of seat.unit) }
    {
        match self {
            LogicalUnit::There(seated) => seated.command(),
            LogicalUnit::Absent(_) => None,
        }
    }

    /// The command descriptor block of the current process; no bytes where there is none.
    pub fn block(&self) -> &[u8]
        ensures { (hosts : List HostDef) (seat : Seat) (time : ℕ) → IsUnitOf hosts seat time self.now
            → result.now ≡ running_block (current_of seat.unit) }
    {
        match self {
            LogicalUnit::There(seated) => seated.block(),
            LogicalUnit::Absent(_) => &[],
        }
    }

    /// The reply of the current process, once it has one.
    pub fn reply(&self) -> Option<Reply>
        ensures { (hosts : List HostDef) (seat : Seat) (time : ℕ) → IsUnitOf hosts seat time self.now
            → result ≡ current_reply (current_of seat.unit) }
    {
        match self {
            LogicalUnit::There(seated) => seated.reply(),
            LogicalUnit::Absent(_) => None,
        }
    }

    /// How many bytes a block has; 0 where it is not there.
    pub fn block_size(&self) -> usize
        ensures { (hosts : List HostDef) (seat : Seat) (time : ℕ) → IsUnitOf hosts seat time self.now
            → result ≡ (contents_of seat.unit).size }
    {
        match self {
            LogicalUnit::There(seated) => seated.block_size(),
            LogicalUnit::Absent(_) => 0,
        }
    }

    /// Whether it is a tape, so that its commands conflict with one another.
    pub fn is_serial(&self) -> bool
        ensures { (hosts : List HostDef) (seat : Seat) (time : ℕ) → IsUnitOf hosts seat time self.now
            → result ≡ is_reeled (contents_of seat.unit) }
    {
        match self {
            LogicalUnit::There(seated) => seated.is_serial(),
            LogicalUnit::Absent(_) => false,
        }
    }

    /// The queue, where it is there: whether it is full, and whether the unit is idle.
    pub fn room(&self) -> Option<Room>
        ensures { (hosts : List HostDef) (seat : Seat) (time : ℕ) → IsUnitOf hosts seat time self.now
            → result ≡ room_if (is_any_held seat.hold) seat.unit }
    {
        match self {
            LogicalUnit::There(seated) => Some(seated.room()),
            LogicalUnit::Absent(_) => None,
        }
    }

    /// Whether an initiator stands in the hold.
    pub fn holds(&self, from: Dev) -> bool
        requires device { from < 8 }
        ensures { (hosts : List HostDef) (seat : Seat) (time : ℕ) → IsUnitOf hosts seat time self.now
            → result ≡ seat.hold from }
    {
        match self {
            LogicalUnit::There(seated) => seated.holds(from),
            LogicalUnit::Absent(absent) => absent.holds(from),
        }
    }

    /// The unit of this number, where its current process is ready for a reselection (`SeatedUnit::ready`).
    pub fn ready(&self, number: u8, seek: u32) -> Option<Ready>
        ensures { (hosts : List HostDef) (seat : Seat) (time : ℕ) → IsUnitOf hosts seat time self.now
            → time + seek < 2 ^ 64 → ((r : RunningProcess) → current_of seat.unit ≡ Some r → r.process.unit ≡ number)
            → result ≡ ready_unit (ready_in (is_any_held seat.hold) (current_of seat.unit) (time + seek)) }
    {
        match self {
            LogicalUnit::There(seated) => seated.ready(number, seek),
            LogicalUnit::Absent(_) => None,
        }
    }

    /// How a command of an initiator would end if it ran now, whether or not it has arrived.
    pub fn plan(&self, from: Dev, cdb: &[u8]) -> Plan
        requires device { from < 8 }
        ensures exact { result ≡ plan_of (reply_at self.now from cdb.now) (taken_by self.now from cdb.now) }
        ensures seat { (hosts : List HostDef) (seat : Seat) (time : ℕ) (sent : List ℕ)
            → IsUnitOf hosts seat time self.now → is_initiator hosts from ≡ true
            → result ≡ plan_of (execution (context_of seat from) cdb.now sent).reply
            (taken_in (context_of seat from) cdb.now) }
    {
        match self {
            LogicalUnit::There(seated) => seated.plan(from, cdb),
            LogicalUnit::Absent(absent) => absent.plan(from, cdb),
        }
    }

    /// The bytes of the reply that a command of an initiator would have now, from `at` on, as many as `into` has.
    pub fn fetch(&self, from: Dev, cdb: &[u8], at: u32, into: &mut [u8])
        requires device { from < 8 }
        requires within { at + length into.old ≤ length (reply_at self.now from cdb.now).bytes }
        ensures { (hosts : List HostDef) (seat : Seat) (time : ℕ) (sent : List ℕ)
            → IsUnitOf hosts seat time self.now → is_initiator hosts from ≡ true
            → into.new ≡ take (length into.old) (drop at
            (execution (context_of seat from) cdb.now sent).reply.bytes) }
    {
        match self {
            LogicalUnit::There(seated) => seated.fetch(from, cdb, at, into),
            LogicalUnit::Absent(absent) => absent.fetch(from, cdb, at, into),
        }
    }
}

// ---- what happens to it

impl LogicalUnit {
    /// The command of a process arrives at `now`, in ns (`SeatedUnit::accept`). At a unit that is not there it runs at
    /// once, outside every queue.
    pub fn accept(&mut self, served: &Served<'_>, now: Ns) -> Accepted
        requires device { served.now.from < 8 }
        requires most { length served.now.cdb.now ≤ 10 }
        ensures accepts { (hosts : List HostDef) (seat after : Seat) (time : ℕ) (p : Process)
            → IsUnitOf hosts seat time self.old → IsKnownAs p served.now
            → IsOfKind p.serial seat.unit → IsNew hosts seat p → seat_after_accept p seat ≡ Some after
            → IsUnitOf hosts (settled_seat after) (seat_time seat (settled_seat after) time now) self.new }
        ensures refused { (hosts : List HostDef) (seat after : Seat) (time : ℕ) (p : Process)
            → IsUnitOf hosts seat time self.old → IsKnownAs p served.now
            → seat_after_refuse p seat ≡ Some after → result ≡ accepted.Full }
        ensures refuses { (hosts : List HostDef) (seat after : Seat) (time : ℕ) (p : Process)
            → IsUnitOf hosts seat time self.old → IsKnownAs p served.now → IsNew hosts seat p
            → seat_after_refuse p seat ≡ Some after
            → IsUnitOf hosts (settled_seat after) (seat_time seat (settled_seat after) time now) self.new }
        ensures full { (hosts : List HostDef) (seat : Seat) (time : ℕ) (p : Process)
            → IsUnitOf hosts seat time self.old → IsKnownAs p served.now → IsNew hosts seat p
            → result ≡ accepted.Full → seat_after_accept p seat ≡ None }
        ensures spare { spare_of self.new ≡ spare_of self.old }
    {
        match self {
            LogicalUnit::There(seated) => seated.accept(served, now),
            LogicalUnit::Absent(_) => Accepted::AtOnce,
        }
    }

    /// A process runs at `now`, in ns, with the bytes that it sent (`SeatedUnit::run`). At a unit that is not there it
    /// changes nothing.
    pub fn run(&mut self, id: ProcId, sent: &[u8], now: Ns) -> Option<Reply>
        ensures seat { (hosts : List HostDef) (seat after : Seat) (time : ℕ) (p : Process)
            → IsUnitOf hosts seat time self.old → p.id ≡ id → guest_at seat.guests id ≡ None
            → running_at seat id ≡ Some (record { process = p; reply = None }) → HasSent seat p sent.now
            → HasRoomFor seat p (spare_of self.old) → seat_after_run id seat ≡ Some after
            → IsUnitOf hosts (settled_seat after) (seat_time seat (settled_seat after) time now) self.new
            × (result ≡ Some (told_of (execution (context_of seat p.initiator) p.cdb p.sent).reply))
            × (spare_of self.old ≤ spare_of self.new + cost_by (kind_of (contents_of seat.unit)) p.cdb) }
        ensures guest { (hosts : List HostDef) (seat after : Seat) (time : ℕ) (r : RunningProcess)
            → IsUnitOf hosts seat time self.old → guest_at seat.guests id ≡ Some r
            → (is_some seat.unit ≡ true → is_request_sense (command_of r.process.cdb) ≡ true)
            → seat_after_run id seat ≡ Some after
            → IsUnitOf hosts (settled_seat after) (seat_time seat (settled_seat after) time now) self.new
            × (spare_of self.new ≡ spare_of self.old) }
    {
        match self {
            LogicalUnit::There(seated) => seated.run(id, sent, now),
            LogicalUnit::Absent(_) => None,
        }
    }

    /// A process fails at `now`, in ns, with CHECK CONDITION, ABORTED COMMAND and this code.
    pub fn fail(&mut self, id: ProcId, code: u8, now: Ns)
        ensures seat { (hosts : List HostDef) (seat after : Seat) (time : ℕ) (ended : Bool) (p : Process)
            → IsUnitOf hosts seat time self.old → p.id ≡ id
            → seat_after_failure ended p (aborted_reply code) seat ≡ Some after
            → IsUnitOf hosts (settled_seat after) (seat_time seat (settled_seat after) time now) self.new }
        ensures spare { spare_of self.new ≡ spare_of self.old }
    {
        match self {
            LogicalUnit::There(seated) => seated.fail(id, code, now),
            LogicalUnit::Absent(_) => {}
        }
    }

    /// The current process ends at `now`, in ns.
    pub fn end(&mut self, id: ProcId, now: Ns)
        ensures seat { (hosts : List HostDef) (seat after : Seat) (time status : ℕ)
            → IsUnitOf hosts seat time self.old → guest_at seat.guests id ≡ None
            → seat_after_end id status seat ≡ Some after
            → IsUnitOf hosts (settled_seat after) (seat_time seat (settled_seat after) time now) self.new }
        ensures spare { spare_of self.new ≡ spare_of self.old }
    {
        match self {
            LogicalUnit::There(seated) => seated.end(id, now),
            LogicalUnit::Absent(_) => {}
        }
    }

    /// A process of this initiator that stands outside the queue ends at `now`, in ns, with this reply; `senses` says
    /// whether it is a REQUEST SENSE. A sense is stored; a REQUEST SENSE that ends GOOD takes one away.
    pub fn end_guest(&mut self, from: Dev, reply: &Reply, senses: bool, now: Ns)
        requires device { from < 8 }
        ensures seat { (hosts : List HostDef) (seat after : Seat) (time status : ℕ) (id : ProcId) (p : Process)
            (given : ArrayReply) → IsUnitOf hosts seat time self.old
            → guest_at seat.guests id ≡ Some (record { process = p; reply = Some given })
            → p.initiator ≡ from → reply.now ≡ told_of given → IsSensing given p senses
            → seat_after_end id status seat ≡ Some after
            → IsUnitOf hosts (settled_seat after) (seat_time seat (settled_seat after) time now) self.new }
        ensures spare { spare_of self.new ≡ spare_of self.old }
    {
        match self {
            LogicalUnit::There(seated) => seated.end_guest(from, reply, senses, now),
            LogicalUnit::Absent(absent) => absent.end_guest(from, reply, senses),
        }
    }

    /// A process is lost at `now`, in ns.
    pub fn lose(&mut self, id: ProcId, now: Ns)
        ensures seat { (hosts : List HostDef) (seat after : Seat) (time : ℕ) (ended : Bool)
            → IsUnitOf hosts seat time self.old → seat_after_loss ended id seat ≡ Some after
            → IsUnitOf hosts (settled_seat after) (seat_time seat (settled_seat after) time now) self.new }
        ensures spare { spare_of self.new ≡ spare_of self.old }
    {
        match self {
            LogicalUnit::There(seated) => seated.lose(id, now),
            LogicalUnit::Absent(_) => {}
        }
    }

    /// An abort message of this initiator ended at `now`, in ns.
    pub fn abort(&mut self, kind: AbortKind, by: Dev, now: Ns)
        requires device { by < 8 }
        ensures seat { (hosts : List HostDef) (seat : Seat) (time : ℕ) → IsUnitOf hosts seat time self.old
            → IsUnitOf hosts (settled_seat (seat_after_aborted hosts by kind seat))
            (seat_time seat (settled_seat (seat_after_aborted hosts by kind seat)) time now) self.new }
        ensures spare { spare_of self.new ≡ spare_of self.old }
    {
        match self {
            LogicalUnit::There(seated) => seated.abort(kind, by, now),
            LogicalUnit::Absent(absent) => absent.abort(kind, by),
        }
    }

    /// A reset at `now`, in ns: by RST, or of the target by BUS DEVICE RESET.
    pub fn reset(&mut self, now: Ns)
        ensures { self.new ≡ unit_after_reset now self.old }
    {
        match self {
            LogicalUnit::There(seated) => seated.reset(now),
            LogicalUnit::Absent(absent) => absent.reset(),
        }
    }

    /// Hands out its disk or tape, where it is there, and leaves a unit in its place that is not.
    pub fn take_drive(&mut self) -> Option<Drive>
        ensures exact { contents_handed result ≡ contents_in self.old }
        ensures left { self.new ≡ no_unit }
    {
        match replace(self, LogicalUnit::Absent(AbsentUnit::new())) {
            LogicalUnit::There(seated) => Some(seated.into_drive()),
            LogicalUnit::Absent(_) => None,
        }
    }
}
