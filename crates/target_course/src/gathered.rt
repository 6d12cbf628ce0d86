//! The bytes that came to a target of the data of writes (ANSI X3.131-1994, 6.1.5.1 and 6.4).
ghost use Rattle.std.specs.Prelude.{ℕ, ◌≡◌, ◌<◌, ◌≤◌, ◌+◌, [], ◌∷◌, List, Some, true, length, take, IfOk};
ghost use Rattle.bus_trace.specs.declared.Row.{Row};
ghost use Rattle.bus_trace.specs.Terms.{connection as connection_after};
ghost use Rattle.scenario.specs.Needs.{is_write, sent_count};
ghost use Rattle.scenario.specs.Value.{ScenarioValue};
ghost use Rattle.array_model.specs.Processes.{Process, process_of};
ghost use Rattle.due_model.specs.dialogue_model.specs.Hearing.{hearing as hearing_in};
ghost use Rattle.due_model.specs.Faithful.{faithful};
ghost use Rattle.due_model.specs.LastingState.{progress_in};
ghost use Rattle.due_model.specs.Plain.{AreOfDevices};
ghost use Rattle.due_model.specs.RunSteps.{run_state};
ghost use Rattle.target_units.specs.scsi_device.specs.Lines.{FitsBus};
ghost use Rattle.target_units.specs.scsi_device.specs.Writes.{is_data_out, brings_byte, written, start_of_run};
ghost use Rattle.target_course.specs.Gathered.{empty_gathering, gathering_of, gathering_with, bytes_of, gathering_at, gathered_with, write_room, unit_room, empty_unit, nothing_gathered, gathered_seen, place_in_run, IsRunningIn, IsGatheredOf, AreAllGathered, IsSentSo, IsAtUnit};
ghost use Rattle.target_units.specs.Seated.{is_same_process};

use crate::data_runs::run_start;
use crate::next_phase::phase_of;
use bus_base::{Dev, NoMemory, ProcId};
use bus_trace::{Connection, rows_change_one_device};
use cdb_codec::{CdbFault, Command, from_cdb};
use due_model::the_dialogue_model::{Hearing, Phase, Task};
use due_model::{hearings_are_plain, kept_is_plain};
use scenario::{CmdDef, Policy, Scenario, need, sent_count};
use std::alloc::Global;
use std::marker::Model;
use target_units::the_scsi_device::scenarios_fit_the_bus;

// What came to a unit of one process, from the first byte on, as far as there is room.
#[derive(Drop)]
struct Gathering {
    owner: Option<ProcId>,
    bytes: Vec<u8>,
    count: usize,
}

impl Model for Gathering {
    ghost use Rattle.std.specs.Prelude.{◌≤◌, length, take};
    ghost use Rattle.target_course.specs.Gathered as gathered;

    ghost Value = { gathered.Gathering };

    ghost view = { λ a. record { owner = a.owner; bytes = take a.count a.bytes.items; room = length a.bytes.items } };

    ghost invariant = { λ a. a.count ≤ length a.bytes.items };
}

/// The bytes that came to a target of the data of writes: of each unit those of the process that last sent it some.
#[derive(Drop)]
pub struct Gathered {
    dev: Dev,
    // By the number of the unit.
    units: [Gathering; 8],
}

impl Model for Gathered {
    ghost use Rattle.target_course.specs.Gathered.{GatheredValue};

    ghost Value = { GatheredValue };

    ghost view = { λ a. record { dev = a.dev; units = a.units } };
}

fn is_owner(owner: Option<ProcId>, id: ProcId) -> bool
    ensures { result ≡ is_same_process owner (Some id) }
{
    match owner {
        None => false,
        Some(owner) => owner.command == id.command && owner.sense == id.sense,
    }
}

fn write_room(scenario: &Scenario, dev: Dev, unit: u8, def: &CmdDef) -> u32
    ensures { result ≡ write_room scenario.now dev unit def.now }
{
    if def.target == dev && def.unit == unit {
        sent_count(scenario, def)
    } else {
        0
    }
}

// The bytes of the longest write of the scenario at this unit.
fn unit_room(scenario: &Scenario, dev: Dev, unit: u8) -> u32
    ensures { result ≡ unit_room scenario.now dev unit }
{
    let mut most = 0;
    for def in scenario.commands.as_slice() {
        most = most.max(write_room(scenario, dev, unit, def));
    }
    most
}

impl Gathering {
    fn new(alloc: Global, room: usize) -> Result<Gathering, NoMemory>
        ensures { IfOk result (λ made. made ≡ empty_gathering room) }
    {
        let bytes = vec![in alloc; 0; room]?;
        Ok(Gathering {
            owner: None,
            bytes,
            count: 0,
        })
    }

    fn of_unit(
        alloc: Global,
        scenario: &Scenario,
        dev: Dev,
        unit: u8,
    ) -> Result<Gathering, NoMemory>
        ensures { IfOk result (λ made. made ≡ empty_unit scenario.now dev unit) }
    {
        Gathering::new(alloc, unit_room(scenario, dev, unit) as usize)
    }

    // Those of a process: none yet, where they were those of another.
    fn own(&mut self, id: ProcId)
        ensures { self.new ≡ gathering_of self.old id }
    {
        if !is_owner(self.owner, id) {
            self.owner = Some(id);
            self.count = 0;
        }
    }

    // A byte comes to the place of one that came before, or to the next.
    fn put(&mut self, place: u64, byte: u8)
        ensures { self.new ≡ gathering_with self.old place byte }
    {
        if place < self.count as u64 {
            self.bytes[place as usize] = byte;
        } else if place == self.count as u64 && place < self.bytes.len() as u64 {
            self.bytes[place as usize] = byte;
            self.count += 1;
        }
    }

    // What came of a process, so many bytes at most.
    fn of(&self, id: ProcId, count: u64) -> &[u8]
        ensures { result.now ≡ bytes_of self.now id count }
    {
        if !is_owner(self.owner, id) {
            return &[];
        }
        if count < self.count as u64 {
            &self.bytes[..count as usize]
        } else {
            &self.bytes[..self.count]
        }
    }
}

fn is_data_out(phase: Phase) -> bool
    ensures { result ≡ is_data_out phase }
{
    match phase {
        Phase::DataOut => true,
        _ => false,
    }
}

/// Whether a byte of DATA OUT came to the target of a connection, after which RST is false.
pub fn brings_byte(hearing: &Hearing) -> bool
    ensures { result ≡ brings_byte hearing.now }
{
    hearing.crosses && is_data_out(phase_of(hearing.change.before)) && !hearing.change.after.rst()
}

/// At which place of the data of the process that is served, counted from 0, stands the next byte of its present run,
/// so many bytes of which came.
pub fn place_in_run(policy: Policy, task: &Option<Task>, answers: u64) -> u64
    ensures { result ≡ place_in_run policy task.now answers }
{
    match task {
        None => 0,
        Some(task) => run_start(policy, task, task.runs).saturating_add(answers),
    }
}

// There are eight of them.
fn are_eight(units: &[Gathering; 8])
    ensures { length units.now ≡ 8 }
{
    let _ = units.len();
}

impl Gathered {
    fn empty(alloc: Global, scenario: &Scenario, dev: Dev) -> Result<Gathered, NoMemory>
        ensures { IfOk result (λ made. made ≡ nothing_gathered scenario.now dev) }
    {
        let units = [
            Gathering::of_unit(alloc, scenario, dev, 0)?,
            Gathering::of_unit(alloc, scenario, dev, 1)?,
            Gathering::of_unit(alloc, scenario, dev, 2)?,
            Gathering::of_unit(alloc, scenario, dev, 3)?,
            Gathering::of_unit(alloc, scenario, dev, 4)?,
            Gathering::of_unit(alloc, scenario, dev, 5)?,
            Gathering::of_unit(alloc, scenario, dev, 6)?,
            Gathering::of_unit(alloc, scenario, dev, 7)?,
        ];
        Ok(Gathered { dev, units })
    }

    /// Of this target, before any row. It takes all its memory here: of each unit room for the longest write of the
    /// scenario there.
    pub fn new(alloc: Global, scenario: &Scenario, dev: Dev) -> Result<Gathered, NoMemory>
        ensures exact { IfOk result (λ made. made ≡ nothing_gathered scenario.now dev) }
        ensures trace { IfOk result (λ made. IsGatheredOf scenario.now made) }
        ensures whole { IfOk result (λ made. AreAllGathered scenario.now [] made) }
    {
        Gathered::empty(alloc, scenario, dev)
    }

    fn held(&self, unit: u8, id: ProcId, count: u64) -> &[u8]
        requires unit { unit < 8 }
        ensures { result.now ≡ bytes_of (gathering_at self.now.units unit) id count }
    {
        self.units[unit as usize].of(id, count)
    }

    /// What came of this process to its unit, from the first byte on, and of that so many bytes at most: the bytes that
    /// the process sends, as many as these are; and all of them, in DATA OUT where the last byte of its last run came.
    pub fn bytes(&self, unit: u8, id: ProcId, count: u64) -> &[u8]
        requires unit { unit < 8 }
        ensures value { result.now ≡ bytes_of (gathering_at self.now.units unit) id count }
        ensures sent { (s : ScenarioValue) (p : Process) → IsGatheredOf s self.now → process_of s id ≡ Some p
            → length result.now ≤ length p.sent → result.now ≡ take (length result.now) p.sent }
        ensures whole { (s : ScenarioValue) (rows : List Row) (p : Process) (n : Connection) → IsGatheredOf s self.now
            → AreAllGathered s rows self.now → IsRunningIn s rows self.now.dev p n → p.target ≡ self.now.dev
            → unit ≡ p.unit → id ≡ p.id → count ≡ length p.sent → 0 < (run_state s rows).handshakes.answers
            → length p.sent ≤ start_of_run s p (progress_in (run_state s rows).progress p.id).runs
            + (run_state s rows).handshakes.answers → result.now ≡ p.sent }
    {
        self.held(unit, id, count)
    }

    fn put(&mut self, unit: u8, id: ProcId, place: u64, byte: u8)
        ensures { self.new ≡ record self.old { units = gathered_with self.old.units unit id place byte } }
    {
        are_eight(&self.units);
        if unit < 8 {
            let gathering = &mut self.units[unit as usize];
            gathering.own(id);
            gathering.put(place, byte);
        }
    }

    fn after_row(
        &mut self,
        process: Option<ProcId>,
        unit: u8,
        place: u64,
        hearing: &Hearing,
        before: Option<Connection>,
    )
        ensures { self.new ≡ gathered_seen self.old process unit place hearing.now before }
    {
        if let (Some(id), Some(connection)) = (process, before) {
            if connection.target.get() == self.dev && brings_byte(hearing) {
                self.put(unit, id, place, hearing.change.after.data());
            }
        }
    }

    /// A row was made, of any device, that told this, and before which this connection stands. `process` is the process
    /// that the target serves before it, `unit` the unit of that, and `place` the place of its next byte
    /// ([`place_in_run`]).
    pub fn see(
        &mut self,
        process: Option<ProcId>,
        unit: u8,
        place: u64,
        hearing: &Hearing,
        before: Option<Connection>,
    )
        ensures dev { self.new.dev ≡ self.old.dev }
        ensures exact { self.new ≡ gathered_seen self.old process unit place hearing.now before }
        ensures trace { (s : ScenarioValue) (rows : List Row) (row : Row) → AreOfDevices (row ∷ rows)
            → hearing.now ≡ hearing_in rows row → before ≡ connection_after rows → faithful s (row ∷ rows) ≡ true
            → IsSentSo s rows self.old.dev hearing.now process place
            → IsGatheredOf s self.old → IsGatheredOf s self.new }
        ensures whole { (s : ScenarioValue) (rows : List Row) (row : Row) → FitsBus s → AreOfDevices (row ∷ rows)
            → hearing.now ≡ hearing_in rows row → before ≡ connection_after rows → faithful s (row ∷ rows) ≡ true
            → written s (row ∷ rows) ≡ true → IsSentSo s rows self.old.dev hearing.now process place
            → IsAtUnit s rows self.old.dev hearing.now unit → IsGatheredOf s self.old
            → AreAllGathered s rows self.old → AreAllGathered s (row ∷ rows) self.new }
    {
        kept_is_plain();
        hearings_are_plain();
        rows_change_one_device();
        scenarios_fit_the_bus();
        self.after_row(process, unit, place, hearing, before);
    }
}
