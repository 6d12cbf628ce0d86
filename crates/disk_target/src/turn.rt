//! What a target has of a connection of its own before a row.
ghost use Rattle.std.specs.Prelude.{ℕ, ◌≡◌, ◌≤◌, ◌<◌, [], ◌∷◌, List, length, take, is_some, true, false, Some, None};
ghost use Rattle.bus_base.specs.declared.Event.TheVariants.{Aborted};
ghost use Rattle.bus_trace.specs.declared.Row.{Row};
ghost use Rattle.bus_trace.specs.declared.connection.Connection.{Connection as ConnectionValue};
ghost use Rattle.bus_trace.specs.Terms.{connection};
ghost use Rattle.bus_trace.specs.Trace.{bus};
ghost use Rattle.due_model.specs.dialogue_model.specs.Hearing.{hearing as hearing_in};
ghost use Rattle.due_model.specs.dialogue_model.specs.Wants.{Ready};
ghost use Rattle.due_model.specs.Allowed.{allowed};
ghost use Rattle.due_model.specs.Faithful.{faithful};
ghost use Rattle.due_model.specs.Plain.{AreOfDevices};
ghost use Rattle.due_model.specs.RunSteps.{run_state, events_of_row};
ghost use Rattle.due_model.specs.Wants.{ready_of};
ghost use Rattle.scenario.specs.declared.value.TargetDef.{TargetDef};
ghost use Rattle.scenario.specs.Value.{ScenarioValue};
ghost use Rattle.array_model.specs.SoundArray.{HasSeats};
ghost use Rattle.target_course.specs.scsi_device.specs.Heard.{heard, is_opening_in};
ghost use Rattle.target_course.specs.scsi_device.specs.Lines.{FitsBus, IsTargetLine};
ghost use Rattle.target_course.specs.Courses.{course_after, course_reselected, id_known, CourseState, IsCourseOf, IsReadyProcess};
ghost use Rattle.target_course.specs.Fits.{AreFit};
ghost use Rattle.target_course.specs.Gathered.{bytes_of, gathering_at, AreAllGathered, IsGatheredOf};
ghost use Rattle.target_course.specs.Progress.{IsUncounted};
ghost use Rattle.target_course.specs.Replies.{IsReplyOf};
ghost use Rattle.target_course.specs.Shown.{shown_list};
ghost use Rattle.target_course.specs.States.{IsOwnConnection};
ghost use Rattle.disk_target.specs.Bytes.{IsOwnIf};
ghost use Rattle.disk_target.specs.Processes.{AreKeptOf};
ghost use Rattle.disk_target.specs.Standings.{standing_at_first};
ghost use Rattle.disk_target.specs.Targets.{AreTied, IsCourseIf, IsStandingOf};
ghost use Rattle.disk_target.specs.Turns.{abort_if, abort_of, count_sent, is_opening_by, is_reset, is_reset_if, AreAttendedOf, AreAttendedOn, GathersOn, IsSentIf, IsRowFor, IsTurnIf, IsTurnOf, IsTurnShown};

use crate::processes::{Processes, event_at};
use bus_base::{AbortKind, Dev, Event, Ns, ProcId};
use bus_trace::{Connection, rows_change_one_device};
use cdb_codec::from_cdb;
use disk_unit::{Plan, Reply};
use due_model::the_dialogue_model::{Cause, Hearing, Leaving, Messages, Next, Phase};
use due_model::{hearings_are_plain, kept_is_plain};
use tag_queue::Entry;
use target_course::the_scsi_device::scenarios_fit_the_bus;
use target_course::the_target_units::Served;
use target_course::{
    Course, Gathered, Name, Shown, is_write, phase_of, replies_come_later, reply_after,
};

/// What a target has of a connection of its own before a row: as which process it is known there, its unit and its
/// initiator, whether an abort was heard, how the phase that stands is left, where the next byte of its data stands,
/// how its command would end, and what the target shows with the row.
#[derive(Clone, Copy)]
pub struct Turn {
    /// The process, as it is named in events.
    pub process: Option<ProcId>,
    /// Its unit.
    pub unit: u8,
    /// Its initiator.
    pub from: Dev,
    /// Whether an abort was heard in the present MESSAGE OUT phase.
    pub aborts: bool,
    /// How the phase is left.
    pub leaving: Leaving,
    /// The place of the next byte of its data in DATA OUT.
    pub place: u64,
    /// Whether the opening after a selection stands, so that the process is not named.
    pub opening: bool,
    /// How its command would end.
    pub plan: Plan,
    /// What the row shows.
    pub shown: Shown,
}

/// The byte of DATA OUT that comes next in a connection of its own.
#[derive(Clone, Copy)]
pub struct Sent {
    /// The process that sends it, as it is named in events.
    pub process: Option<ProcId>,
    /// The unit of that.
    pub unit: u8,
    /// Its place among the data of the process.
    pub place: u64,
}

/// Where no connection of its own stands.
pub fn no_turn() -> Turn
    ensures unit { result.unit < 8 }
    ensures device { result.from < 8 }
    ensures fits { AreFit result.leaving.messages }
    ensures uncounted { IsUncounted result.leaving }
{
    Turn {
        process: None,
        unit: 0,
        from: 0,
        aborts: false,
        leaving: Leaving {
            to: None,
            messages: Messages {
                first: None,
                second: None,
            },
            next: Next::FreeBus,
            counts: false,
            done: false,
        },
        place: 0,
        opening: false,
        plan: Plan {
            status: 0,
            sense: None,
            in_len: 0,
            out_len: 0,
        },
        shown: Shown {
            event: None,
            second: None,
        },
    }
}

/// As which the process of a connection is named in events; none where its command is 0.
pub fn process_known(course: &Course) -> Option<ProcId>
    ensures { result ≡ id_known course.now.id }
{
    let id = course.id();
    if id.command == 0 { None } else { Some(id) }
}

// Of the bytes of a command block so many as it can have.
fn first_ten(block: &[u8]) -> &[u8]
    ensures value { result.now ≡ take 10 block.now }
    ensures most { length result.now ≤ 10 }
{
    if block.len() > 10 {
        &block[..10]
    } else {
        block
    }
}

// Whether it stands in this phase, which has begun.
fn is_opening_in(phase: Phase, cause: Cause) -> bool
    ensures { result ≡ is_opening_in phase cause }
{
    match phase {
        Phase::MessageOut => matches!(cause, Cause::Selected),
        Phase::MessageIn | Phase::Command | Phase::Status | Phase::DataIn | Phase::DataOut => false,
    }
}

/// Whether the opening after a selection stands, as long as no other phase has begun than the first MESSAGE OUT
/// (6.1.3, 6.6).
pub fn is_opening(connection: &Connection, hearing: &Hearing, course: &Course) -> bool
    ensures { result ≡ is_opening_by connection.now hearing.now course.now }
{
    !connection.reselected
        && (!hearing.begun || is_opening_in(phase_of(hearing.change.before), course.plan().cause))
}

/// The course of a connection that a reselection begins, of the process that a queue keeps so, with this command block.
pub fn course_of(entry: &Entry, unit: u8, block: &[u8]) -> Course
    requires { unit < 8 }
    ensures { (s : ScenarioValue) (rows : List Row) (row : Row) (n : ConnectionValue) (dev : ℕ)
        → AreOfDevices (row ∷ rows) → connection rows ≡ None → connection (row ∷ rows) ≡ Some n
        → n.reselected ≡ true → faithful s (row ∷ rows) ≡ true → heard s (row ∷ rows) ≡ true
        → ((r : Ready) → ready_of s (run_state s rows) n.target ≡ Some r → IsReadyProcess s r entry.now.id
        (record { unit = unit; tag = entry.now.tag; class = entry.now.class }) (take 10 block.now))
        → IsCourseOf s (row ∷ rows) dev result }
{
    let name = Name {
        unit,
        tag: entry.tag,
        class: entry.class,
    };
    Course::reselected(entry.id, name, first_ten(block))
}

// How many bytes the process of a connection sends, as its command says; none where it does not write.
fn count_sent(turn: &Turn, course: &Course) -> u64
    ensures { result ≡ count_sent turn.now course.now }
{
    if is_write(&from_cdb(course.block())) {
        u64::from(turn.plan.out_len)
    } else {
        0
    }
}

// The process of a connection, once the opening named it.
fn served<'a>(gathered: &'a Gathered, turn: &Turn, course: &'a Course, name: &Name) -> Served<'a>
    requires unit { turn.now.unit < 8 }
    ensures unit { result.unit ≡ turn.now.unit }
    ensures id { result.id ≡ course.now.id }
    ensures from { result.from ≡ turn.now.from }
    ensures tag { result.tag ≡ name.now.tag }
    ensures class { result.class ≡ name.now.class }
    ensures cdb { result.cdb.now ≡ take 10 course.now.block }
    ensures most { length result.cdb.now ≤ 10 }
    ensures sent { result.sent.now ≡ bytes_of (gathering_at gathered.now.units turn.now.unit) course.now.id
        (count_sent turn.now course.now) }
{
    Served {
        unit: turn.unit,
        id: course.id(),
        from: turn.from,
        tag: name.tag,
        class: name.class,
        cdb: first_ten(course.block()),
        sent: gathered.bytes(turn.unit, course.id(), count_sent(turn, course)),
    }
}

/// The events that a row shows, and its time.
#[derive(Clone, Copy)]
pub struct RowEvents<'a> {
    /// The events, the newest first.
    pub shown: &'a [Event],
    /// The time, in ns.
    pub time: Ns,
}

// The events that a row shows of the process of a connection.
fn see_served(
    processes: &mut Processes,
    gathered: &Gathered,
    turn: &Turn,
    course: &Course,
    events: &RowEvents<'_>,
)
    requires unit { turn.now.unit < 8 }
    requires device { turn.now.from < 8 }
    ensures trace { (s : ScenarioValue) (rows : List Row) (row : Row) (d : TargetDef) (n : ConnectionValue)
        → IsRowFor s rows row d (Some course.now) turn.now gathered.now events.now.shown.now events.now.time
        → IsOwnConnection rows d.dev n → (bus rows).rst ≡ false → is_reset events.now.shown.now ≡ false
        → abort_of events.now.shown.now ≡ None → turn.now.opening ≡ false
        → AreAttendedOf s rows d.dev processes.old → AreAttendedOn s rows row d.dev processes.new }
    ensures nothing { events.now.shown.now ≡ [] → processes.new ≡ processes.old }
    ensures dev { processes.new.units.dev ≡ processes.old.units.dev }
    ensures seek { processes.new.units.seek ≡ processes.old.units.seek }
{
    kept_is_plain();
    hearings_are_plain();
    scenarios_fit_the_bus();
    match course.name() {
        None => {}
        Some(name) => {
            let served = served(gathered, turn, course, &name);
            processes.see(events.shown, &served, events.time);
        }
    }
}

/// An abort at a unit of a target.
#[derive(Clone, Copy)]
pub struct Abort {
    /// The unit.
    pub unit: u8,
    /// What is aborted.
    pub kind: AbortKind,
    /// By this initiator.
    pub by: Dev,
}

// The abort that this event is.
fn abort_if(event: Option<Event>) -> Option<Abort>
    ensures { result ≡ abort_if event }
{
    match event {
        Some(Event::Aborted(by, _, unit, kind)) => Some(Abort { unit, kind, by }),
        _ => None,
    }
}

fn is_reset_if(event: Option<Event>) -> bool
    ensures { result ≡ is_reset_if event }
{
    matches!(event, Some(Event::Reset(_)))
}

// An abort in a connection of this target.
fn see_abort(processes: &mut Processes, abort: &Abort, now: Ns)
    ensures trace { (s : ScenarioValue) (rows : List Row) (row : Row) → HasSeats s → allowed s (row ∷ rows) ≡ true
        → now ≡ row.time → abort.now.unit < 8 → abort.now.by < 8 → events_of_row s rows row
        ≡ Aborted abort.now.by processes.old.units.dev abort.now.unit abort.now.kind ∷ []
        → AreKeptOf s rows processes.old.units → AreKeptOf s (row ∷ rows) processes.new.units }
    ensures dev { processes.new.units.dev ≡ processes.old.units.dev }
    ensures seek { processes.new.units.seek ≡ processes.old.units.seek }
{
    if abort.unit < 8 && abort.by < 8 {
        processes.abort(abort.unit, abort.kind, abort.by, now);
    }
}

// The events of a connection of this target: an abort, or those of the process that it serves.
fn see_own(
    processes: &mut Processes,
    gathered: &Gathered,
    turn: &Turn,
    course: &Course,
    events: &RowEvents<'_>,
)
    requires unit { turn.now.unit < 8 }
    requires device { turn.now.from < 8 }
    ensures trace { (s : ScenarioValue) (rows : List Row) (row : Row) (d : TargetDef) (n : ConnectionValue)
        → IsRowFor s rows row d (Some course.now) turn.now gathered.now events.now.shown.now events.now.time
        → IsOwnConnection rows d.dev n → (bus rows).rst ≡ false → is_reset events.now.shown.now ≡ false
        → AreAttendedOf s rows d.dev processes.old → AreAttendedOn s rows row d.dev processes.new }
    ensures nothing { events.now.shown.now ≡ [] → processes.new ≡ processes.old }
    ensures dev { processes.new.units.dev ≡ processes.old.units.dev }
    ensures seek { processes.new.units.seek ≡ processes.old.units.seek }
{
    kept_is_plain();
    hearings_are_plain();
    scenarios_fit_the_bus();
    match abort_if(event_at(events.shown, 0)) {
        Some(abort) => see_abort(processes, &abort, events.time),
        None if turn.opening => {}
        None => see_served(processes, gathered, turn, course, events),
    }
}

/// The events that a row shows: a reset; and in a connection of this target, which stood before the row, an abort at
/// one of its units, or those of the process that it serves.
pub fn see_events(
    processes: &mut Processes,
    gathered: &Gathered,
    turn: &Turn,
    before: Option<Connection>,
    course: &Option<Course>,
    events: &RowEvents<'_>,
)
    requires unit { turn.now.unit < 8 }
    requires device { turn.now.from < 8 }
    ensures trace { (s : ScenarioValue) (rows : List Row) (row : Row) (d : TargetDef)
        → IsRowFor s rows row d course.now turn.now gathered.now events.now.shown.now events.now.time
        → IsOwnIf rows d.dev before
        → AreAttendedOf s rows d.dev processes.old → AreAttendedOn s rows row d.dev processes.new }
    ensures nothing { events.now.shown.now ≡ [] → processes.new ≡ processes.old }
    ensures dev { processes.new.units.dev ≡ processes.old.units.dev }
    ensures seek { processes.new.units.seek ≡ processes.old.units.seek }
{
    kept_is_plain();
    scenarios_fit_the_bus();
    if is_reset_if(event_at(events.shown, 0)) {
        processes.reset(events.time);
        return;
    }
    match before {
        None => {}
        Some(_) => match course {
            None => {}
            Some(course) => see_own(processes, gathered, turn, course, events),
        },
    }
}

/// Where the process stands in this connection of its own, if the row began it.
pub fn see_beginning(processes: &mut Processes, before: Option<Connection>, own: Option<Connection>)
    ensures units { processes.new.units ≡ processes.old.units }
    ensures trace { (s : ScenarioValue) (rows : List Row) (row : Row) (dev : ℕ) → AreOfDevices (row ∷ rows)
        → AreTied s (row ∷ rows) → before ≡ connection rows → IsOwnIf (row ∷ rows) dev own
        → AreAttendedOn s rows row dev processes.old → AreAttendedOf s (row ∷ rows) dev processes.new }
{
    kept_is_plain();
    match before {
        Some(_) => {}
        None => match own {
            None => {}
            Some(connection) => processes.begin(connection.reselected),
        },
    }
}

// The course, where the connection of its own goes on.
fn go_on(course: &mut Option<Course>, hearing: &Hearing, turn: &Turn)
    requires fits { AreFit turn.now.leaving.messages }
    ensures exact { (c : CourseState) → course.old ≡ Some c
        → course.new ≡ Some (course_after hearing.now turn.now.leaving c) }
    ensures trace { (s : ScenarioValue) (rows : List Row) (row : Row) (d : TargetDef) (m : ConnectionValue)
        → AreOfDevices (row ∷ rows) → AreTied s (row ∷ rows) → IsTargetLine s d → hearing.now ≡ hearing_in rows row
        → IsOwnConnection rows d.dev m → (bus rows).rst ≡ false → IsTurnIf s rows row d course.old turn.now
        → IsCourseIf s rows d.dev course.old → IsCourseIf s (row ∷ rows) d.dev course.new }
{
    match course {
        None => {}
        Some(course) => course.see(hearing, &turn.leaving),
    }
}

/// The course, by what a row told: the connections of its own before it and after it are these, and the row began one
/// with this course.
pub fn see_course(
    course: &mut Option<Course>,
    begun: Option<Course>,
    hearing: &Hearing,
    turn: &Turn,
    before: Option<Connection>,
    own: Option<Connection>,
)
    requires fits { AreFit turn.now.leaving.messages }
    ensures goes_on { (c : CourseState) → is_some before ≡ true → is_some own ≡ true → course.old ≡ Some c
        → course.new ≡ Some (course_after hearing.now turn.now.leaving c) }
    ensures trace { (s : ScenarioValue) (rows : List Row) (row : Row) (d : TargetDef) → AreOfDevices (row ∷ rows)
        → AreTied s (row ∷ rows) → IsTargetLine s d → hearing.now ≡ hearing_in rows row → before ≡ connection rows
        → IsOwnIf (row ∷ rows) d.dev own → IsTurnOf s rows row d course.old turn.now
        → (before ≡ None → IsCourseIf s (row ∷ rows) d.dev begun)
        → IsCourseIf s rows d.dev course.old → IsCourseIf s (row ∷ rows) d.dev course.new }
{
    kept_is_plain();
    match before {
        None => *course = begun,
        Some(_) => match own {
            None => *course = None,
            Some(_) => go_on(course, hearing, turn),
        },
    }
}

/// What came to a target, after a row in a connection of its own, which stood before it, and in which that byte of DATA
/// OUT came with it, if one did.
pub fn see_sent(
    gathered: &mut Gathered,
    sent: Option<Sent>,
    hearing: &Hearing,
    before: Option<Connection>,
)
    ensures dev { gathered.new.dev ≡ gathered.old.dev }
    ensures trace { (s : ScenarioValue) (rows : List Row) (row : Row) → FitsBus s → AreOfDevices (row ∷ rows)
        → AreTied s (row ∷ rows) → hearing.now ≡ hearing_in rows row → before ≡ connection rows
        → IsSentIf s rows row gathered.old.dev sent → IsGatheredOf s gathered.old
        → AreAllGathered s rows gathered.old → GathersOn s rows row gathered.new }
{
    kept_is_plain();
    hearings_are_plain();
    rows_change_one_device();
    scenarios_fit_the_bus();
    match sent {
        None => {}
        Some(sent) => gathered.see(sent.process, sent.unit, sent.place, hearing, before),
    }
}

/// The reply of the process that is served after a row; it was this one before.
pub fn reply_seen(
    was: Option<Reply>,
    turn: &Turn,
    before: Option<Connection>,
    own: Option<Connection>,
) -> Option<Reply>
    ensures nothing { is_some before ≡ true → is_some own ≡ true → shown_list turn.now.shown ≡ []
        → result ≡ was }
    ensures trace { (s : ScenarioValue) (rows : List Row) (row : Row) (d : TargetDef) → FitsBus s
        → AreOfDevices (row ∷ rows) → AreTied s (row ∷ rows) → before ≡ connection rows
        → IsOwnIf (row ∷ rows) d.dev own → ((n : ConnectionValue) → IsOwnConnection rows d.dev n
        → (bus rows).rst ≡ false → (bus (row ∷ rows)).rst ≡ false
        → IsTurnShown s rows row n turn.now) → IsReplyOf s rows d.dev was → IsReplyOf s (row ∷ rows) d.dev result }
{
    kept_is_plain();
    scenarios_fit_the_bus();
    replies_come_later();
    match before {
        None => None,
        Some(_) => match own {
            None => None,
            Some(_) => reply_after(was, &turn.shown, &turn.plan),
        },
    }
}
