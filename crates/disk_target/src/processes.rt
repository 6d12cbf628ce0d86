//! The units of a target, and the process of its connection.
ghost use Rattle.std.specs.Prelude.{◌≡◌, ℕ, ◌<◌, ◌≤◌, ◌==◌, ◌||◌, ◌&&◌, not, true, false, List, [], ◌∷◌, Option, Some, None, length, replicate, is_some, slice_get, IfOk};
ghost use Rattle.bus_base.specs.declared.Event.{Event as EventValue};
ghost use Rattle.bus_base.specs.declared.Event.TheVariants.{Accept, Refuse, Run, Fail, End, Lost, Aborted, Reset};
ghost use Rattle.cdb_codec.specs.Cdb.{command_of};
ghost use Rattle.cdb_codec.specs.declared.status.TheConstants.{GOOD};
ghost use Rattle.scenario.specs.Value.{ScenarioValue};
ghost use Rattle.array_model.specs.Execution.{is_request_sense, queue_full, aborted_reply};
ghost use Rattle.array_model.specs.Processes.{Process};
ghost use Rattle.array_model.specs.Seats.{seat_of, current_of};
ghost use Rattle.array_model.specs.Units.{Array, RunningProcess, guest_at, starting_array, settled_array};
ghost use Rattle.disk_unit.specs.Units.{told_of, planned_reply};
ghost use Rattle.target_course.specs.target_units.specs.Seated.{HasSent};
ghost use Rattle.target_course.specs.target_units.specs.Units.{UnitsState, AreUnitsOf, AreUnitsAfter, IsStep, is_of_one, unit_in, spare_of};
ghost use Rattle.target_course.specs.target_units.specs.Fillings.{blocks_at};
ghost use Rattle.scenario.specs.Lookups.{unit_of, units_of};
ghost use Rattle.scenario.specs.Writing.{Obeys};
ghost use Rattle.bus_trace.specs.declared.Row.{Row};
ghost use Rattle.due_model.specs.Allowed.{allowed};
ghost use Rattle.due_model.specs.Defs.{target_def_of};
ghost use Rattle.due_model.specs.RunState.{array_of};
ghost use Rattle.due_model.specs.RunSteps.{run_state, events_of_row};
ghost use Rattle.array_model.specs.SoundArray.{HasSeats};
ghost use Rattle.disk_unit.specs.declared.unit.Reply.{Reply};
ghost use Rattle.target_course.specs.scsi_device.specs.Heard.{is_new};
ghost use Rattle.disk_target.specs.Standings.{IsServed, IsStanding, HasBlock, standing_on_arrival, standing_on_failure, is_guest, outcome_of, standing_at_first};
ghost use Rattle.disk_target.specs.Processes.{AreProcessesAt, AreProcessesAfter, IsOwnEvent, AreOwnEvents, AreProcessesOf, AreKeptOf, AreOutside, IsRunInside};
ghost use Rattle.disk_target.specs.declared.standing.Standing.{Standing as StandingValue};
ghost use Rattle.disk_target.specs.declared.standing.Standing.TheVariants.{Nowhere, Guest};

use crate::standing::Standing;
use bus_base::{AbortKind, Dev, Event, NoMemory, Ns, ProcId};
use cdb_codec::{Command, from_cdb};
use disk_unit::{Accepted, Plan, Reply, aborted_reply, planned_reply, refusal};
use due_model::the_dialogue_model::Room;
use scenario::{Scenario, TargetDef};
use std::alloc::Global;
use std::marker::Model;
use target_course::the_target_units::{Served, Units};

/// The units of a target, and where the process of its connection stands.
#[derive(Drop)]
pub struct Processes {
    units: Units,
    standing: Standing,
}

impl Model for Processes {
    ghost use Rattle.disk_target.specs.Processes.{ProcessesState};

    ghost Value = { ProcessesState };

    ghost view = { λ p. record { units = p.units; standing = p.standing } };
}

// Whether it is a REQUEST SENSE without fault (ANSI X3.131-1994, 7.5).
fn is_request_sense(cdb: &[u8]) -> bool
    ensures { result ≡ is_request_sense (command_of cdb.now) }
{
    matches!(from_cdb(cdb), Ok(Command::RequestSense { room: _ }))
}

// Whether a command stands outside the queue of its unit: that is not there, or it is a REQUEST SENSE.
fn is_outside(room: Option<Room>, cdb: &[u8]) -> bool
    ensures { result ≡ (not (is_some room) || is_request_sense (command_of cdb.now)) }
{
    room.is_none() || is_request_sense(cdb)
}

fn standing_on_arrival(outside: bool) -> Standing
    ensures { result ≡ standing_on_arrival outside }
{
    if outside {
        Standing::Guest(None)
    } else {
        Standing::Queued
    }
}

fn standing_on_failure(before: Standing, reply: Reply) -> Standing
    ensures { result ≡ standing_on_failure before reply }
{
    match before {
        Standing::Queued => Standing::Queued,
        Standing::Nowhere | Standing::Guest(_) => Standing::Guest(Some(reply)),
    }
}

// Whether it stands outside the queue of its unit.
fn is_guest(standing: Standing) -> bool
    ensures { result ≡ is_guest standing }
{
    matches!(standing, Standing::Guest(_))
}

// The reply that it has there.
fn outcome_of(standing: Standing) -> Option<Reply>
    ensures { result ≡ outcome_of standing }
{
    match standing {
        Standing::Guest(reply) => reply,
        Standing::Nowhere | Standing::Queued => None,
    }
}

/// The event at a place of those that a row shows.
pub fn event_at(shown: &[Event], place: usize) -> Option<Event>
    ensures { result ≡ slice_get shown.now place }
{
    match shown.get(place) {
        None => None,
        Some(event) => Some(*event),
    }
}

fn standing_at_first(reselected: bool) -> Standing
    ensures { result ≡ standing_at_first reselected }
{
    if reselected {
        Standing::Queued
    } else {
        Standing::Nowhere
    }
}

// Whether an abort is of one unit.
fn is_of_one(kind: AbortKind) -> bool
    ensures { result ≡ is_of_one kind }
{
    !matches!(kind, AbortKind::Device)
}

impl Processes {
    // The command of a process arrives at `now`, in ns.
    fn accept(&mut self, served: &Served, now: Ns)
        requires unit { served.now.unit < 8 }
        requires device { served.now.from < 8 }
        requires most { length served.now.cdb.now ≤ 10 }
        ensures array { (s : ScenarioValue) (a b : Array) (times : List ℕ) (p : Process)
            → IsServed s self.old.units.dev p served.now → AreProcessesAt s a times p served.now.unit self.old
            → self.old.standing ≡ Nowhere → HasBlock p served.now → IsStep s (Accept p.id) a b
            → AreProcessesAfter s a b times now p served.now.unit self.new }
        ensures dev { self.new.units.dev ≡ self.old.units.dev }
        ensures seek { self.new.units.seek ≡ self.old.units.seek }
    {
        let outside = is_outside(self.units.room(served.unit), served.cdb);
        self.units.accept(served, now);
        self.standing = standing_on_arrival(outside);
    }

    // The command of a process is refused at `now`, in ns.
    fn refuse(&mut self, served: &Served, now: Ns)
        requires unit { served.now.unit < 8 }
        requires device { served.now.from < 8 }
        requires most { length served.now.cdb.now ≤ 10 }
        ensures array { (s : ScenarioValue) (a b : Array) (times : List ℕ) (p : Process)
            → IsServed s self.old.units.dev p served.now → AreProcessesAt s a times p served.now.unit self.old
            → self.old.standing ≡ Nowhere → HasBlock p served.now → IsStep s (Refuse p.id) a b
            → AreProcessesAfter s a b times now p served.now.unit self.new }
        ensures dev { self.new.units.dev ≡ self.old.units.dev }
        ensures seek { self.new.units.seek ≡ self.old.units.seek }
    {
        self.units.accept(served, now);
        self.standing = Standing::Guest(Some(refusal()));
    }

    // A process fails at `now`, in ns, with this code.
    fn fail(&mut self, served: &Served, code: u8, now: Ns)
        requires unit { served.now.unit < 8 }
        ensures array { (s : ScenarioValue) (a b : Array) (times : List ℕ) (p : Process)
            → IsServed s self.old.units.dev p served.now → AreProcessesAt s a times p served.now.unit self.old
            → IsStep s (Fail p.id code) a b → AreProcessesAfter s a b times now p served.now.unit self.new }
        ensures dev { self.new.units.dev ≡ self.old.units.dev }
        ensures seek { self.new.units.seek ≡ self.old.units.seek }
    {
        self.units.fail(served.unit, served.id, code, now);
        self.standing = standing_on_failure(self.standing, aborted_reply(code));
    }

    // A process that stands in the queue of its unit runs at `now`, in ns.
    fn run_inside(&mut self, served: &Served, now: Ns)
        requires unit { served.now.unit < 8 }
        ensures array { (s : ScenarioValue) (a b : Array) (times : List ℕ) (p : Process)
            → IsServed s self.old.units.dev p served.now → AreProcessesAt s a times p served.now.unit self.old
            → is_guest self.old.standing ≡ false
            → IsRunInside a self.old.units.dev served.now.unit p served.now
            → IsStep s (Run p.id) a b → AreProcessesAfter s a b times now p served.now.unit self.new }
        ensures dev { self.new.units.dev ≡ self.old.units.dev }
        ensures seek { self.new.units.seek ≡ self.old.units.seek }
    {
        self.units.run(served.unit, served.id, served.sent, now);
    }

    // A process outside the queue of its unit runs at `now`, in ns.
    fn run_outside(&mut self, served: &Served, now: Ns)
        requires unit { served.now.unit < 8 }
        requires device { served.now.from < 8 }
        ensures array { (s : ScenarioValue) (a b : Array) (times : List ℕ) (p : Process)
            → IsServed s self.old.units.dev p served.now → AreProcessesAt s a times p served.now.unit self.old
            → is_guest self.old.standing ≡ true → HasBlock p served.now → IsStep s (Run p.id) a b
            → AreProcessesAfter s a b times now p served.now.unit self.new }
        ensures dev { self.new.units.dev ≡ self.old.units.dev }
        ensures seek { self.new.units.seek ≡ self.old.units.seek }
    {
        let plan = self.units.plan(served.unit, served.from, served.cdb);
        self.units.run(served.unit, served.id, served.sent, now);
        self.standing = Standing::Guest(Some(planned_reply(plan)));
    }

    // A process runs at `now`, in ns.
    fn run(&mut self, served: &Served, now: Ns)
        requires unit { served.now.unit < 8 }
        requires device { served.now.from < 8 }
        ensures array { (s : ScenarioValue) (a b : Array) (times : List ℕ) (p : Process)
            → IsServed s self.old.units.dev p served.now → AreProcessesAt s a times p served.now.unit self.old
            → HasBlock p served.now → (is_guest self.old.standing ≡ false
            → IsRunInside a self.old.units.dev served.now.unit p served.now)
            → IsStep s (Run p.id) a b → AreProcessesAfter s a b times now p served.now.unit self.new }
        ensures dev { self.new.units.dev ≡ self.old.units.dev }
        ensures seek { self.new.units.seek ≡ self.old.units.seek }
    {
        if is_guest(self.standing) {
            self.run_outside(served, now);
        } else {
            self.run_inside(served, now);
        }
    }

    // A process that stands in the queue of its unit ends at `now`, in ns.
    fn end_inside(&mut self, served: &Served, now: Ns)
        requires unit { served.now.unit < 8 }
        ensures array { (s : ScenarioValue) (a b : Array) (times : List ℕ) (p : Process) (status : ℕ)
            → IsServed s self.old.units.dev p served.now → AreProcessesAt s a times p served.now.unit self.old
            → outcome_of self.old.standing ≡ None → IsStep s (End p.id status) a b
            → AreProcessesAfter s a b times now p served.now.unit self.new }
        ensures standing { self.new.standing ≡ Nowhere }
        ensures dev { self.new.units.dev ≡ self.old.units.dev }
        ensures seek { self.new.units.seek ≡ self.old.units.seek }
    {
        self.units.end(served.unit, served.id, now);
        self.standing = Standing::Nowhere;
    }

    // A process that stands outside it ends at `now`, in ns, with this reply.
    fn end_outside(&mut self, served: &Served, reply: &Reply, now: Ns)
        requires unit { served.now.unit < 8 }
        requires device { served.now.from < 8 }
        ensures array { (s : ScenarioValue) (a b : Array) (times : List ℕ) (p : Process) (status : ℕ)
            → IsServed s self.old.units.dev p served.now → AreProcessesAt s a times p served.now.unit self.old
            → self.old.standing ≡ Guest (Some reply.now)
            → ((status == GOOD) ≡ true → HasBlock p served.now) → IsStep s (End p.id status) a b
            → AreProcessesAfter s a b times now p served.now.unit self.new }
        ensures standing { self.new.standing ≡ Nowhere }
        ensures dev { self.new.units.dev ≡ self.old.units.dev }
        ensures seek { self.new.units.seek ≡ self.old.units.seek }
    {
        let senses = is_request_sense(served.cdb);
        self.units
            .end_guest(served.unit, served.from, reply, senses, now);
        self.standing = Standing::Nowhere;
    }

    // A process ends at `now`, in ns, with the reply that it has.
    fn end(&mut self, served: &Served, now: Ns)
        requires unit { served.now.unit < 8 }
        requires device { served.now.from < 8 }
        ensures array { (s : ScenarioValue) (a b : Array) (times : List ℕ) (p : Process) (status : ℕ)
            → IsServed s self.old.units.dev p served.now → AreProcessesAt s a times p served.now.unit self.old
            → ((status == GOOD) ≡ true → HasBlock p served.now) → IsStep s (End p.id status) a b
            → AreProcessesAfter s a b times now p served.now.unit self.new }
        ensures standing { self.new.standing ≡ Nowhere }
        ensures dev { self.new.units.dev ≡ self.old.units.dev }
        ensures seek { self.new.units.seek ≡ self.old.units.seek }
    {
        match outcome_of(self.standing) {
            Some(reply) => self.end_outside(served, &reply, now),
            None => self.end_inside(served, now),
        }
    }

    // A process is lost at `now`, in ns.
    fn lose(&mut self, served: &Served, now: Ns)
        requires unit { served.now.unit < 8 }
        ensures array { (s : ScenarioValue) (a b : Array) (times : List ℕ) (p : Process)
            → IsServed s self.old.units.dev p served.now → AreProcessesAt s a times p served.now.unit self.old
            → IsStep s (Lost p.id) a b → AreProcessesAfter s a b times now p served.now.unit self.new }
        ensures dev { self.new.units.dev ≡ self.old.units.dev }
        ensures seek { self.new.units.seek ≡ self.old.units.seek }
    {
        self.units.lose(served.unit, served.id, now);
        self.standing = Standing::Nowhere;
    }

    // An event of the process of the connection, at `now`, in ns.
    fn take(&mut self, event: &Event, served: &Served, now: Ns)
        requires unit { served.now.unit < 8 }
        requires device { served.now.from < 8 }
        requires most { length served.now.cdb.now ≤ 10 }
        ensures array { (s : ScenarioValue) (a b : Array) (times : List ℕ) (p : Process)
            → IsServed s self.old.units.dev p served.now → AreProcessesAt s a times p served.now.unit self.old
            → IsOwnEvent a self.old.units.dev served.now.unit p served.now self.old.standing event.now
            → IsStep s event.now a b
            → AreProcessesAfter s a b times now p served.now.unit self.new }
        ensures dev { self.new.units.dev ≡ self.old.units.dev }
        ensures seek { self.new.units.seek ≡ self.old.units.seek }
    {
        match *event {
            Event::Accept(_) => self.accept(served, now),
            Event::Refuse(_) => self.refuse(served, now),
            Event::Run(_) => self.run(served, now),
            Event::Fail(_, code) => self.fail(served, code, now),
            Event::End(_, _) => self.end(served, now),
            Event::Lost(_) => self.lose(served, now),
            Event::Aborted(_, _, _, _) | Event::Reset(_) => {}
        }
    }

    fn cut(&mut self, unit: u8, kind: AbortKind, by: Dev, now: Ns)
        requires unit { unit < 8 }
        requires device { by < 8 }
        ensures array { (s : ScenarioValue) (a b : Array) (times : List ℕ)
            → AreUnitsOf s a times self.old.units.dev self.old.units.units
            → IsStep s (Aborted by self.old.units.dev unit kind) a b
            → AreUnitsAfter s a b times now self.old.units.dev self.new.units.units }
        ensures dev { self.new.units.dev ≡ self.old.units.dev }
        ensures seek { self.new.units.seek ≡ self.old.units.seek }
    {
        if is_of_one(kind) {
            self.units.abort(unit, kind, by, now);
        } else {
            self.units.reset(now);
        }
    }

    fn clear(&mut self, now: Ns)
        ensures array { (s : ScenarioValue) (a b : Array) (times : List ℕ) (by : ℕ)
            → AreUnitsOf s a times self.old.units.dev self.old.units.units → IsStep s (Reset by) a b
            → AreUnitsAfter s a b times now self.old.units.dev self.new.units.units }
        ensures standing { self.new.standing ≡ Nowhere }
        ensures dev { self.new.units.dev ≡ self.old.units.dev }
        ensures seek { self.new.units.seek ≡ self.old.units.seek }
    {
        self.units.reset(now);
        self.standing = Standing::Nowhere;
    }

    /// An abort of this initiator ended at `now`, in ns, at a unit of this target; BUS DEVICE RESET concerns each.
    pub fn abort(&mut self, unit: u8, kind: AbortKind, by: Dev, now: Ns)
        requires unit { unit < 8 }
        requires device { by < 8 }
        ensures trace { (s : ScenarioValue) (rows : List Row) (row : Row) → HasSeats s
            → allowed s (row ∷ rows) ≡ true → now ≡ row.time
            → events_of_row s rows row ≡ Aborted by self.old.units.dev unit kind ∷ []
            → AreKeptOf s rows self.old.units → AreKeptOf s (row ∷ rows) self.new.units }
        ensures dev { self.new.units.dev ≡ self.old.units.dev }
        ensures seek { self.new.units.seek ≡ self.old.units.seek }
    {
        self.cut(unit, kind, by, now);
    }

    /// RST, at `now`, in ns.
    pub fn reset(&mut self, now: Ns)
        ensures trace { (s : ScenarioValue) (rows : List Row) (row : Row) (by : ℕ) → HasSeats s
            → allowed s (row ∷ rows) ≡ true → now ≡ row.time → events_of_row s rows row ≡ Reset by ∷ []
            → AreKeptOf s rows self.old.units → AreKeptOf s (row ∷ rows) self.new.units }
        ensures standing { self.new.standing ≡ Nowhere }
        ensures dev { self.new.units.dev ≡ self.old.units.dev }
        ensures seek { self.new.units.seek ≡ self.old.units.seek }
    {
        self.clear(now);
    }

    /// Of a target of a scenario that obeys the rules of its text, before any event. They take all the memory that they
    /// ever have.
    pub fn new(alloc: Global, scenario: &Scenario, def: &TargetDef) -> Result<Processes, NoMemory>
        requires lawful { Obeys scenario.now }
        requires target { target_def_of scenario.now def.now.dev ≡ Some def.now }
        ensures dev { IfOk result (λ made. made.units.dev ≡ def.now.dev) }
        ensures seek { IfOk result (λ made. made.units.seek ≡ def.now.seek) }
        ensures start { IfOk result (λ made. AreUnitsOf scenario.now
            (settled_array (starting_array scenario.now)) (replicate (length (units_of scenario.now)) 0) def.now.dev
            made.units.units) }
        ensures spare { IfOk result (λ made. (n : ℕ) → n < 8
            → blocks_at scenario.now (unit_of scenario.now def.now.dev n) ≤ spare_of (unit_in made.units.units n)) }
        ensures standing { IfOk result (λ made. made.standing ≡ Nowhere) }
    {
        let units = Units::of(alloc, scenario, def)?;
        Ok(Processes {
            units,
            standing: Standing::Nowhere,
        })
    }

    /// The units.
    pub fn units(&self) -> &Units
        ensures { result.now ≡ self.now.units }
    {
        &self.units
    }

    /// The units, as the target is over.
    pub fn into_units(self) -> Units
        ensures { result ≡ self.units }
    {
        self.units
    }

    /// Where the process of the connection stands.
    pub fn standing(&self) -> Standing
        ensures { result ≡ self.now.standing }
    {
        self.standing
    }

    /// A connection of this target begins: of a process that has not arrived by a selection, of the current process of
    /// a unit by a reselection.
    pub fn begin(&mut self, reselected: bool)
        ensures exact { self.new ≡ record self.old { standing = standing_at_first reselected } }
        ensures selected { (a : Array) (p : Process) (unit : ℕ) → reselected ≡ false → is_new a p ≡ true
            → IsStanding (seat_of a self.old.units.dev unit) p self.new.standing }
        ensures reselected { (a : Array) (p : Process) (unit : ℕ) (r : RunningProcess) → reselected ≡ true
            → guest_at a.guests p.id ≡ None
            → current_of (seat_of a self.old.units.dev unit).unit ≡ Some r → r.process ≡ p
            → IsStanding (seat_of a self.old.units.dev unit) p self.new.standing }
    {
        self.standing = standing_at_first(reselected);
    }

    // The event, where there is one.
    fn take_if(&mut self, event: Option<Event>, served: &Served, now: Ns)
        requires unit { served.now.unit < 8 }
        requires device { served.now.from < 8 }
        requires most { length served.now.cdb.now ≤ 10 }
        ensures none { event ≡ None → self.new ≡ self.old }
        ensures array { (s : ScenarioValue) (a b : Array) (times : List ℕ) (p : Process) (it : EventValue)
            → event ≡ Some it → IsServed s self.old.units.dev p served.now
            → AreProcessesAt s a times p served.now.unit self.old
            → IsOwnEvent a self.old.units.dev served.now.unit p served.now self.old.standing it
            → IsStep s it a b → AreProcessesAfter s a b times now p served.now.unit self.new }
        ensures dev { self.new.units.dev ≡ self.old.units.dev }
        ensures seek { self.new.units.seek ≡ self.old.units.seek }
    {
        match event {
            None => {}
            Some(event) => self.take(&event, served, now),
        }
    }

    // The newest first: none, one, or two of which the first is that its command arrives.
    fn take_all(&mut self, shown: &[Event], served: &Served, now: Ns)
        requires unit { served.now.unit < 8 }
        requires device { served.now.from < 8 }
        requires most { length served.now.cdb.now ≤ 10 }
        ensures nothing { shown.now ≡ [] → self.new ≡ self.old }
        ensures one { (s : ScenarioValue) (a b : Array) (times : List ℕ) (p : Process) (it : EventValue)
            → shown.now ≡ it ∷ [] → IsServed s self.old.units.dev p served.now
            → AreProcessesAt s a times p served.now.unit self.old
            → IsOwnEvent a self.old.units.dev served.now.unit p served.now self.old.standing it
            → IsStep s it a b → AreProcessesAfter s a b times now p served.now.unit self.new }
        ensures two { (s : ScenarioValue) (a b d : Array) (times : List ℕ) (p : Process) (it : EventValue)
            → shown.now ≡ it ∷ Accept p.id ∷ [] → IsServed s self.old.units.dev p served.now
            → AreProcessesAt s a times p served.now.unit self.old → self.old.standing ≡ Nowhere
            → HasBlock p served.now → ((v : StandingValue)
            → IsOwnEvent b self.old.units.dev served.now.unit p served.now v it)
            → IsStep s (Accept p.id) a b → IsStep s it b d
            → AreProcessesAfter s a d times now p served.now.unit self.new }
        ensures dev { self.new.units.dev ≡ self.old.units.dev }
        ensures seek { self.new.units.seek ≡ self.old.units.seek }
    {
        self.take_if(event_at(shown, 1), served, now);
        self.take_if(event_at(shown, 0), served, now);
    }

    /// The events that a row shows of the process of the connection, at `now`, in ns, the newest first: none, one, or
    /// two of which the first is that its command arrives.
    pub fn see(&mut self, shown: &[Event], served: &Served, now: Ns)
        requires unit { served.now.unit < 8 }
        requires device { served.now.from < 8 }
        requires most { length served.now.cdb.now ≤ 10 }
        ensures nothing { shown.now ≡ [] → self.new ≡ self.old }
        ensures trace { (s : ScenarioValue) (rows : List Row) (row : Row) (p : Process) → HasSeats s
            → allowed s (row ∷ rows) ≡ true → shown.now ≡ events_of_row s rows row → now ≡ row.time
            → IsServed s self.old.units.dev p served.now
            → AreOwnEvents s (array_of s (run_state s rows)) self.old.units.dev served.now.unit p served.now
            self.old.standing shown.now → AreProcessesOf s rows p served.now.unit self.old
            → AreProcessesOf s (row ∷ rows) p served.now.unit self.new }
        ensures dev { self.new.units.dev ≡ self.old.units.dev }
        ensures seek { self.new.units.seek ≡ self.old.units.seek }
    {
        self.take_all(shown, served, now);
    }
}

/// A row that shows nothing of the units of a target changes nothing of them.
pub fn units_stay_by_row()
    ensures { (s : ScenarioValue) (rows : List Row) (row : Row) (v : UnitsState) → HasSeats s
        → allowed s (row ∷ rows) ≡ true → AreOutside s v.dev (events_of_row s rows row)
        → AreKeptOf s rows v → AreKeptOf s (row ∷ rows) v }
{}
