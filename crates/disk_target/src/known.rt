//! What a target decides by in a connection of its own.
ghost use Rattle.std.specs.Prelude.{ℕ, ◌≡◌, ◌<◌, ◌==◌, ◌^◌, true, false, List, [], length, Option, Some, None};
ghost use Rattle.bus_trace.specs.declared.Row.{Row};
ghost use Rattle.scenario.specs.Value.{ScenarioValue};
ghost use Rattle.array_model.specs.ArrayHistory.{reply_in};
ghost use Rattle.array_model.specs.Processes.{Process, process_of};
ghost use Rattle.array_model.specs.Seats.{is_initiator};
ghost use Rattle.due_model.specs.RunState.{array_of};
ghost use Rattle.due_model.specs.RunSteps.{run_state};
ghost use Rattle.target_course.specs.Courses.{IsStateOf, IsOutlookOf};
ghost use Rattle.target_course.specs.Progress.{is_phase_left};
ghost use Rattle.target_course.specs.Shown.{shown_list};
ghost use Rattle.target_course.specs.target_units.specs.Seated.{reply_told};
ghost use Rattle.target_course.specs.target_units.specs.Units.{reply_at, taken_by, unit_in};
ghost use Rattle.disk_target.specs.Knowns.{AreSourcesOf, IsKnownBy, IsKnownIf, IsQuiet, IsStill, hears_message, knows_command, refreshed};

use crate::bytes::{status_in, unit_named};
use crate::turn::Turn;
use bus_base::{Dev, Event};
use bus_trace::{Connection, changes_phase, is_message_out};
use disk_unit::Reply;
use due_model::the_dialogue_model::Hearing;
use scenario::TargetDef;
use target_course::the_scsi_device::scenarios_fit_the_bus;
use target_course::the_target_units::Units;
use target_course::{Course, ProcessState, Progress, Serving, is_phase_left};

/// What a target decides by in a connection of its own with an initiator, as long as neither its units nor what it has
/// heard of the process change.
#[derive(Clone, Copy)]
pub struct Known {
    /// The unit of the process, once it is named; 0 before.
    pub unit: u8,
    /// The initiator.
    pub from: Dev,
    /// What its units and its counts tell of the process.
    pub state: ProcessState,
    /// What it decides by.
    pub serving: Serving,
}

/// From what a target decides in a connection of its own, beside what it has heard in it.
#[derive(Clone, Copy)]
pub struct Sources<'a> {
    /// Its line of the scenario.
    pub def: &'a TargetDef,
    /// Its units.
    pub units: &'a Units,
    /// How far its processes have come.
    pub progress: &'a Progress,
    /// The reply of the process that it serves.
    pub reply: Option<Reply>,
}

// What the units and the counts of a target tell of the process of this course, which is of this unit and of this
// initiator.
fn state_of(sources: &Sources<'_>, unit: u8, from: Dev, course: &Course) -> ProcessState
    requires unit { unit < 8 }
    requires device { from < 8 }
    ensures state { (s : ScenarioValue) (rows : List Row) (d : TargetDef) (p : Process)
        → AreSourcesOf s rows d sources.now.units.now sources.now.progress.now
        → length rows < 2 ^ 64 → process_of s course.now.id ≡ Some p → course.now.id ≡ p.id
        → p.target ≡ d.dev → p.unit ≡ unit → p.initiator ≡ from
        → sources.now.reply ≡ reply_told (reply_in (array_of s (run_state s rows)).replies p.id)
        → IsStateOf s (run_state s rows) p result }
    ensures outlook { (s : ScenarioValue) (rows : List Row) (d : TargetDef) (p : Process)
        → AreSourcesOf s rows d sources.now.units.now sources.now.progress.now
        → is_initiator s.hosts from ≡ true → p.target ≡ d.dev → p.unit ≡ unit → p.initiator ≡ from
        → p.cdb ≡ course.now.block → process_of s p.id ≡ Some p → IsOutlookOf s (run_state s rows) p result }
    ensures count { result.plan.in_len
        ≡ length (reply_at (unit_in sources.now.units.now.units unit) from course.now.block).bytes }
    ensures taken { result.plan.out_len
        ≡ taken_by (unit_in sources.now.units.now.units unit) from course.now.block }
{
    let units = sources.units;
    let counts = sources.progress.counts(course.id());
    let size = units.block_size(unit) as u64;
    let plan = units.plan(unit, from, course.block());
    ProcessState {
        in_hold: units.holds(unit, from),
        runs: counts.runs,
        recoveries: counts.recoveries,
        serial: units.is_serial(unit),
        size,
        room: units.room(unit),
        plan,
        reply: status_in(sources.reply),
    }
}

/// What a target decides by in a connection of its own with this initiator, in which it has heard this.
pub fn known_of(sources: &Sources<'_>, from: Dev, course: &Course) -> Known
    requires device { from < 8 }
    ensures from { result.from ≡ from }
    ensures known { IsKnownBy sources.now.def.now sources.now.units.now sources.now.progress.now sources.now.reply
        course.now result }
{
    scenarios_fit_the_bus();
    let unit = unit_named(course);
    let state = state_of(sources, unit, from, course);
    let serving = course.serving(sources.def, &state);
    Known {
        unit,
        from,
        state,
        serving,
    }
}

fn is_nothing(turn: &Turn) -> bool
    ensures { result ≡ true → shown_list turn.now.shown ≡ [] }
{
    turn.shown.event.is_none() && turn.shown.second.is_none()
}

fn knows_command(course: &Option<Course>) -> bool
    ensures { result ≡ knows_command course.now }
{
    match course {
        None => false,
        Some(course) => course.is_command_known(),
    }
}

/// Whether a row changes nothing by which a target decides in a connection of its own but its plan: the connection
/// stands before and after it, the command is known, no phase is left, and nothing is shown.
pub fn is_still(
    turn: &Turn,
    hearing: &Hearing,
    before: Option<Connection>,
    own: Option<Connection>,
    course: &Option<Course>,
    shown: &[Event],
) -> bool
    ensures { result ≡ true → IsStill turn.now hearing.now before own course.now shown.now }
{
    before.is_some()
        && own.is_some()
        && knows_command(course)
        && shown.is_empty()
        && is_nothing(turn)
        && !is_phase_left(hearing)
}

fn hears_message(hearing: &Hearing) -> bool
    ensures { result ≡ hears_message hearing.now }
{
    hearing.crosses && is_message_out(hearing.change.before)
}

/// Whether a row tells a target no more than a byte of data, where a connection of its own stands before and after it:
/// no byte of a message comes, no phase changes, no fault strikes, nothing is shown, and where a byte crosses, the
/// command is known.
pub fn is_quiet(hearing: &Hearing, course: &Option<Course>, shown: &[Event]) -> bool
    ensures { result ≡ true → IsQuiet hearing.now course.now shown.now }
{
    shown.is_empty()
        && !changes_phase(&hearing.change)
        && !hears_message(hearing)
        && !hearing.fault
        && (!hearing.crosses || knows_command(course))
}

// The plan has gone on.
fn refresh(known: &mut Option<Known>, course: &Option<Course>)
    ensures { known.new ≡ refreshed known.old course.now }
{
    match (known, course) {
        (Some(known), Some(course)) => known.serving.plan = *course.plan(),
        _ => {}
    }
}

// In a connection of its own, with this initiator.
fn known_if(
    sources: &Sources<'_>,
    course: &Option<Course>,
    own: Option<Connection>,
) -> Option<Known>
    ensures { IsKnownIf sources.now.def.now sources.now.units.now sources.now.progress.now sources.now.reply course.now
        result }
{
    match (own, course) {
        (Some(connection), Some(course)) => {
            Some(known_of(sources, connection.initiator.get(), course))
        }
        _ => None,
    }
}

/// What a target decides by after a row, where this connection of its own stands then: `still` says that it is as it
/// was but for the plan.
pub fn see_known(
    known: &mut Option<Known>,
    still: bool,
    sources: &Sources<'_>,
    course: &Option<Course>,
    own: Option<Connection>,
)
    requires still { still ≡ true → IsKnownIf sources.now.def.now sources.now.units.now sources.now.progress.now
        sources.now.reply course.now (refreshed known.old course.now) }
    ensures { IsKnownIf sources.now.def.now sources.now.units.now sources.now.progress.now sources.now.reply course.now
        known.new }
{
    if still {
        refresh(known, course);
    } else {
        *known = known_if(sources, course, own);
    }
}
