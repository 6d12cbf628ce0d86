//! A target of a scenario: what it knows, row by row, and what it does next (ANSI X3.131-1994, 6 and 7).
ghost use Rattle.std.specs.Prelude.{ℕ, ◌≡◌, ◌≢◌, ◌<◌, ◌≤◌, ◌^◌, ◌==◌, [], ◌∷◌, List, length, Option, Some, None, is_some, true, false, IfOk};
ghost use Rattle.std.specs.List.{find};
ghost use Rattle.bus_trace.specs.declared.Row.{Row};
ghost use Rattle.bus_trace.specs.declared.connection.Connection.{Connection};
ghost use Rattle.bus_trace.specs.Terms.{connection};
ghost use Rattle.bus_trace.specs.Trace.{bus};
ghost use Rattle.bus_lines.specs.BusView.{IsBusViewOf};
ghost use Rattle.bus_lines.specs.Timely.{IsTimely};
ghost use Rattle.handshake.specs.Bounds.{IsReady};
ghost use Rattle.connect.specs.Ready as link;
ghost use Rattle.cdb_codec.specs.declared.status.TheConstants.{GOOD};
ghost use Rattle.scenario.specs.declared.value.TargetDef.{TargetDef};
ghost use Rattle.scenario.specs.Value.{ScenarioValue};
ghost use Rattle.scenario.specs.Writing.{Obeys};
ghost use Rattle.array_model.specs.ArrayHistory.{reply_in};
ghost use Rattle.array_model.specs.Processes.{Process, process_of};
ghost use Rattle.array_model.specs.Seats.{is_initiator};
ghost use Rattle.array_model.specs.Units.{Array, unit_state_at};
ghost use Rattle.due_model.specs.dialogue_model.specs.Hearing.{hearing as hearing_in};
ghost use Rattle.due_model.specs.dialogue_model.specs.PhaseBytes.{data_byte, one_if};
ghost use Rattle.due_model.specs.dialogue_model.specs.Observer.{IsObserverOf};
ghost use Rattle.due_model.specs.Defs.{target_def_of};
ghost use Rattle.due_model.specs.Next.{due};
ghost use Rattle.due_model.specs.Plain.{AreOfDevices};
ghost use Rattle.due_model.specs.RunState.{array_of, item_of};
ghost use Rattle.due_model.specs.RunSteps.{run_state, events_of_row};
ghost use Rattle.due_model.specs.Sights.{serving_of};
ghost use Rattle.due_model.specs.Tasks.{size_of, reply_now, is_writing};
ghost use Rattle.due_model.specs.Wants.{ready_of};
ghost use Rattle.target_course.specs.scsi_device.specs.Acts.{act_of};
ghost use Rattle.target_course.specs.scsi_device.specs.Heard.{heard};
ghost use Rattle.target_course.specs.scsi_device.specs.Itself.{IsItselfOf};
ghost use Rattle.target_course.specs.scsi_device.specs.Lines.{FitsBus, IsTargetLine};
ghost use Rattle.target_course.specs.scsi_device.specs.Told.{told, pace_of, first_fault};
ghost use Rattle.target_course.specs.Courses.{events_of_target, id_known, AreToldOf, IsCourseOf, IsLabelOf, IsStateOf, IsOutlookOf};
ghost use Rattle.target_course.specs.Dues.{calm_by, myself_by};
ghost use Rattle.target_course.specs.Fits.{AreFit};
ghost use Rattle.target_course.specs.target_units.specs.Seated.{reply_told};
ghost use Rattle.target_course.specs.Servings.{byte_if};
ghost use Rattle.target_course.specs.Shown.{shown_list};
ghost use Rattle.target_course.specs.States.{TargetState, AreAlikeIn, IsNoInitiator, IsOwnConnection, IsReadyWithin, offering_in};
ghost use Rattle.target_course.specs.target_units.specs.Readies.{ready_unit};
ghost use Rattle.target_course.specs.target_units.specs.Units.{AreUnitsOf, reply_at, unit_in};
ghost use Rattle.target_course.specs.declared.course.Name.{Name as NameValue};
ghost use Rattle.disk_target.specs.Bytes.{IsOthers, IsOwnIf, StandsInOwn};
ghost use Rattle.disk_target.specs.Needs.{DrivesAs, GivesAs, LeavesAs};
ghost use Rattle.disk_target.specs.Knowns.{IsKnownBy, IsKnownIf, IsQuiet, knows_command};
ghost use Rattle.disk_target.specs.Targets.{AreInTime, AreTied, IsCourseIf, IsServable, IsTargetAfter, KnowsRows};
ghost use Rattle.disk_target.specs.Turns.{IsSentIf, IsSentOf, IsTurnOf};
ghost use Rattle.disk_target.specs.Waits.{DoesAlike, DoesAs, KnowsAll};

use crate::bytes::{
    bounded, connection_before, gives_now, own_before, own_connection, stands_in_own,
};
use crate::due::{
    calm_connection, goes_on_in, going_on, is_driven, is_in_pulse, is_waiting, link_due_of, myself,
};
use crate::known::{Known, Sources, is_quiet, is_still, known_of, see_known};
use crate::processes::{Processes, units_stay_by_row};
use crate::turn::{
    RowEvents, Sent, Turn, course_of, is_opening, no_turn, process_known, reply_seen,
    see_beginning, see_course, see_events, see_sent,
};
use array_model::arrays_are_sound;
use bus_base::{Dev, Event, NoMemory, Ns, ProcId};
use bus_lines::BusView;
use bus_trace::{Connection, Row, lines_on_the_bus, rows_change_one_device};
use connect::due_with_reset;
use disk_unit::Reply;
use due_model::the_dialogue_model::{Hearing, Observer};
use due_model::{hearings_are_plain, kept_is_plain};
use handshake::target_due;
use reaction_model::{Due, Myself, Offering};
use scenario::{FaultDef, Scenario, TargetDef, target_line};
use std::alloc::Global;
use std::marker::Model;
use target_course::the_scsi_device::{
    Act, Itself, lines_seen, pace, sampled, scenarios_fit_the_bus,
};
use target_course::the_target_units::{Ready, Units};
use target_course::{
    Course, Gathered, Negotiated, Progress, Shown, brings_byte, dues_are_of_targets, follows_by,
    leaving_by, lines_by, phase_byte, phase_of, place_in_run, process_byte_place, seek_before,
};

/// A target of a scenario.
#[derive(Drop)]
pub struct Target {
    def: TargetDef,
    itself: Itself,
    processes: Processes,
    progress: Progress,
    negotiated: Negotiated,
    gathered: Gathered,
    // In a connection of its own: what it has heard in it, and the reply of the process that it serves.
    course: Option<Course>,
    reply: Option<Reply>,
    // How often ACK had risen in the present phase as of the last row.
    answers: u64,
    // In a connection of its own: what it decides by, as long as none of all that changes.
    known: Option<Known>,
}

impl Model for Target {
    ghost use Rattle.std.specs.Prelude.{◌<◌, ◌≤◌};
    ghost use Rattle.disk_target.specs.Targets.{TargetValue};
    ghost use Rattle.disk_target.specs.Knowns.{IsKnownIf};

    ghost Value = { TargetValue };

    ghost view = { λ a. record {
      def = a.def;
      itself = a.itself;
      units = a.processes.units;
      standing = a.processes.standing;
      progress = a.progress;
      negotiated = a.negotiated;
      gathered = a.gathered;
      course = a.course;
      reply = a.reply;
      answers = a.answers;
    } };

    ghost invariant = { λ a. (a.def.dev < 8) × (a.def.latency ≤ 100)
        × IsKnownIf a.def a.processes.units a.progress a.reply a.course a.known };
}

impl Target {
    // Of this line of the scenario.
    fn of_line(alloc: Global, scenario: &Scenario, def: TargetDef) -> Result<Target, NoMemory>
        requires lawful { Obeys scenario.now }
        requires target { target_def_of scenario.now def.dev ≡ Some def }
        requires below { def.dev < 8 }
        requires latency { def.latency ≤ 100 }
        ensures named { IfOk result (λ made. made.def ≡ def) }
        ensures trace { FitsBus scenario.now → IsTargetLine scenario.now def
            → IfOk result (λ made. IsTargetAfter scenario.now [] made) }
    {
        arrays_are_sound();
        scenarios_fit_the_bus();
        let itself = Itself::new(alloc, scenario, def.dev)?;
        let processes = Processes::new(alloc, scenario, &def)?;
        let progress = Progress::new(alloc, scenario, def.dev)?;
        let gathered = Gathered::new(alloc, scenario, def.dev)?;
        Ok(Target {
            def,
            itself,
            processes,
            progress,
            negotiated: Negotiated::new(def.dev, scenario.version),
            gathered,
            course: None,
            reply: None,
            answers: 0,
            known: None,
        })
    }

    /// The target `dev` of a scenario that obeys the rules of its text, before any row. It takes all memory that it
    /// ever has.
    pub fn new(alloc: Global, scenario: &Scenario, dev: Dev) -> Result<Target, NoMemory>
        requires lawful { Obeys scenario.now }
        requires target { is_some (target_def_of scenario.now dev) ≡ true }
        ensures named { IfOk result (λ made. made.def.dev ≡ dev) }
        ensures trace { IfOk result (λ made. IsTargetAfter scenario.now [] made) }
    {
        scenarios_fit_the_bus();
        match target_line(scenario.targets.as_slice(), dev) {
            Some(def) => Target::of_line(alloc, scenario, def),
            None => unreachable!(),
        }
    }

    // What it decides by in this connection of its own, where it has not kept it since the last row. Few rows need it.
    #[inline(never)]
    fn known_anew(&self, from: Dev, course: &Course) -> Known
        requires device { from < 8 }
        ensures from { result.from ≡ from }
        ensures known { IsKnownBy self.now.def self.now.units self.now.progress self.now.reply course.now result }
    {
        let sources = Sources {
            def: &self.def,
            units: self.processes.units(),
            progress: &self.progress,
            reply: self.reply,
        };
        known_of(&sources, from, course)
    }

    // The byte at a place of those that a command would give, which are so many.
    fn byte_at(&self, unit: u8, from: Dev, cdb: &[u8], count: u32, place: Option<u64>) -> u8
        requires unit { unit < 8 }
        requires device { from < 8 }
        requires count { count ≡ length (reply_at (unit_in self.now.units.units unit) from cdb.now).bytes }
        ensures { (s : ScenarioValue) (a : Array) (times : List ℕ) (p : Process)
            → AreUnitsOf s a times self.now.units.dev self.now.units.units → is_initiator s.hosts from ≡ true
            → p.target ≡ self.now.units.dev → p.unit ≡ unit → p.initiator ≡ from → p.cdb ≡ cdb.now
            → count ≡ length (reply_now a p).bytes → result ≡ byte_if (reply_now a p).bytes place }
    {
        match place {
            Some(place) if place < u64::from(count) => {
                let mut byte = [0];
                self.processes
                    .units()
                    .fetch(unit, from, cdb, place as u32, &mut byte);
                byte[0]
            }
            _ => 0,
        }
    }

    // The byte at a place of those that the command would give, which are so many: of its present run, or with `done`
    // of the run after that.
    fn run_byte(&self, course: &Course, known: &Known, count: u32, done: bool, place: u64) -> u8
        requires unit { known.now.unit < 8 }
        requires device { known.now.from < 8 }
        requires count { count
            ≡ length (reply_at (unit_in self.now.units.units known.now.unit) known.now.from course.now.block).bytes }
        ensures { (s : ScenarioValue) (a : Array) (times : List ℕ) (p : Process)
            → AreUnitsOf s a times self.now.units.dev self.now.units.units → is_initiator s.hosts known.now.from ≡ true
            → p.target ≡ self.now.units.dev → p.unit ≡ known.now.unit → p.initiator ≡ known.now.from
            → p.cdb ≡ course.now.block → count ≡ length (reply_now a p).bytes → result
            ≡ data_byte known.now.serving.def.disc known.now.serving.task (reply_now a p).bytes (one_if done) place }
    {
        let serving = &known.serving;
        let at = process_byte_place(serving.def.disc, &serving.task, done, place);
        self.byte_at(known.unit, known.from, course.block(), count, at)
    }

    // The same, where the phase that stands gives data; else 0.
    fn given_byte(
        &self,
        observer: &Observer,
        course: &Course,
        known: &Known,
        done: bool,
        place: u64,
    ) -> u8
        requires known { IsKnownBy self.now.def self.now.units self.now.progress self.now.reply course.now known.now }
        ensures { (s : ScenarioValue) (rows : List Row) (n : Connection) → FitsBus s
            → IsObserverOf rows observer.now → AreOfDevices rows → heard s rows ≡ true
            → IsServable s rows self.now.def → KnowsRows s rows self.now
            → IsCourseOf s rows self.now.def.dev course.now → IsOwnConnection rows self.now.def.dev n
            → (bus rows).rst ≡ false → n.initiator ≡ known.now.from
            → GivesAs s rows self.now.def.dev known.now.serving done place result }
    {
        scenarios_fit_the_bus();
        kept_is_plain();
        if gives_now(observer, course) {
            self.run_byte(course, known, known.state.plan.in_len, done, place)
        } else {
            0
        }
    }

    // The byte that it drives next, if it drives one.
    fn next_byte(&self, observer: &Observer, course: &Course, known: &Known, driven: bool) -> u8
        requires known { IsKnownBy self.now.def self.now.units self.now.progress self.now.reply course.now known.now }
        ensures { (s : ScenarioValue) (rows : List Row) (n : Connection) → FitsBus s
            → IsObserverOf rows observer.now → AreOfDevices rows → heard s rows ≡ true
            → IsServable s rows self.now.def → KnowsRows s rows self.now
            → IsCourseOf s rows self.now.def.dev course.now → IsOwnConnection rows self.now.def.dev n
            → (bus rows).rst ≡ false → n.initiator ≡ known.now.from
            → DrivesAs s rows self.now.def.dev known.now.serving driven result }
    {
        kept_is_plain();
        if driven {
            let view = observer.view();
            let place = view.handshakes().requests();
            let given = self.given_byte(observer, course, known, false, place);
            let serving = &known.serving;
            phase_byte(
                serving,
                phase_of(view.bus()),
                &serving.plan.messages,
                given,
                place,
            )
        } else {
            0
        }
    }

    // What it has to do where it leaves the phase.
    fn leaving(&self, observer: &Observer, course: &Course, known: &Known) -> Offering
        requires known { IsKnownBy self.now.def self.now.units self.now.progress self.now.reply course.now known.now }
        ensures trace { (s : ScenarioValue) (rows : List Row) (n : Connection) → FitsBus s
            → IsObserverOf rows observer.now → AreOfDevices rows → heard s rows ≡ true
            → IsServable s rows self.now.def → KnowsRows s rows self.now
            → IsCourseOf s rows self.now.def.dev course.now → IsOwnConnection rows self.now.def.dev n
            → (bus rows).rst ≡ false → n.initiator ≡ known.now.from
            → LeavesAs s rows self.now.def.dev known.now.serving result }
        ensures wait { result.wait < 2 ^ 62 }
    {
        let bus = observer.view().bus();
        let serving = &known.serving;
        let leaving = leaving_by(serving, observer.begun(), bus);
        let first = self.given_byte(observer, course, known, leaving.done, 0);
        Offering {
            byte: 0,
            follows: false,
            to: lines_by(serving, bus.io(), &leaving, first),
            wait: seek_before(serving, bus),
        }
    }

    // What it has to do in the phase, as far as what it does next tells, by what it knows in this connection of its
    // own: which byte follows, or how it leaves the phase.
    fn offering_by(
        &self,
        observer: &Observer,
        course: &Course,
        known: &Known,
        pulsed: bool,
    ) -> Offering
        requires known { IsKnownBy self.now.def self.now.units self.now.progress self.now.reply course.now known.now }
        ensures trace { (s : ScenarioValue) (rows : List Row) (n : Connection) → FitsBus s
            → IsObserverOf rows observer.now → AreOfDevices rows → heard s rows ≡ true
            → IsServable s rows self.now.def → KnowsRows s rows self.now
            → IsCourseOf s rows self.now.def.dev course.now → IsOwnConnection rows self.now.def.dev n
            → (bus rows).rst ≡ false → n.initiator ≡ known.now.from
            → pulsed ≡ (pace_of (told rows 0) None).pulsed → AreAlikeIn rows self.now.def.dev result
            (offering_in rows (serving_of s (run_state s rows) self.now.def.dev)) }
        ensures wait { result.wait < 2 ^ 62 }
    {
        let view = observer.view();
        let bus = view.bus();
        let handshakes = view.handshakes();
        let asks = view.drives(self.def.dev).req();
        let bare = handshakes.requests() == 0;
        let follows = follows_by(&known.serving, pulsed, bus, handshakes);
        if goes_on_in(asks, follows, bare) {
            let driven = is_driven(bus.io(), bare, follows, asks, pulsed);
            going_on(self.next_byte(observer, course, known, driven), follows)
        } else {
            self.leaving(observer, course, known)
        }
    }

    // The same, with this initiator.
    fn offering_in(&self, observer: &Observer, from: Dev, course: &Course, pulsed: bool) -> Offering
        requires device { from < 8 }
        requires course { self.now.course ≡ Some course.now }
        ensures trace { (s : ScenarioValue) (rows : List Row) (n : Connection) → FitsBus s
            → IsObserverOf rows observer.now → AreOfDevices rows → heard s rows ≡ true
            → IsServable s rows self.now.def → KnowsRows s rows self.now
            → IsCourseOf s rows self.now.def.dev course.now → IsOwnConnection rows self.now.def.dev n
            → (bus rows).rst ≡ false → n.initiator ≡ from
            → pulsed ≡ (pace_of (told rows 0) None).pulsed → AreAlikeIn rows self.now.def.dev result
            (offering_in rows (serving_of s (run_state s rows) self.now.def.dev)) }
        ensures wait { result.wait < 2 ^ 62 }
    {
        match &self.known {
            Some(known) if known.from == from => self.offering_by(observer, course, known, pulsed),
            _ => self.offering_by(observer, course, &self.known_anew(from, course), pulsed),
        }
    }

    // What it has to do in the phase, in a connection of its own with this initiator. It ends each pulse, whatever that
    // is.
    fn offering(&self, observer: &Observer, from: Dev, pulsed: bool) -> Offering
        requires device { from < 8 }
        ensures trace { (s : ScenarioValue) (rows : List Row) (n : Connection) → FitsBus s
            → IsObserverOf rows observer.now → AreOfDevices rows → heard s rows ≡ true
            → IsServable s rows self.now.def → KnowsRows s rows self.now
            → IsOwnConnection rows self.now.def.dev n → (bus rows).rst ≡ false → n.initiator ≡ from
            → pulsed ≡ (pace_of (told rows 0) None).pulsed → DoesAlike rows self.now.def result
            (offering_in rows (serving_of s (run_state s rows) self.now.def.dev)) }
        ensures wait { result.wait < 2 ^ 62 }
    {
        if is_in_pulse(observer, self.def.dev) {
            return going_on(0, false);
        }
        match &self.course {
            None => going_on(0, false),
            Some(course) => self.offering_in(observer, from, course, pulsed),
        }
    }

    // By REQ and ACK, in a connection of its own with this initiator, where it takes no fault. While it waits for ACK
    // to follow REQ it does nothing, whatever it has to do.
    fn plain_due(&self, observer: &Observer, me: &Myself, from: Dev) -> Option<Due>
        requires timely { IsTimely (2 ^ 63) observer.now.view }
        requires ready { IsReady me.now }
        requires device { from < 8 }
        ensures { (s : ScenarioValue) (rows : List Row) (n : Connection) → FitsBus s
            → IsObserverOf rows observer.now → AreOfDevices rows → heard s rows ≡ true
            → IsServable s rows self.now.def → KnowsRows s rows self.now
            → IsOwnConnection rows self.now.def.dev n → (bus rows).rst ≡ false → n.initiator ≡ from
            → DoesAs s rows self.now.def me.now result }
    {
        if is_waiting(observer, self.def.dev) {
            return None;
        }
        let view = observer.view();
        let pace = pace(observer, 0);
        let offering = self.offering(observer, from, pace.pulsed);
        target_due(
            observer.begun(),
            &lines_seen(view),
            view.handshakes(),
            me,
            &pace,
            &offering,
        )
    }

    // The unit that is ready first.
    fn ready(&self) -> Option<Ready>
        ensures within { IsReadyWithin result }
        ensures trace { (s : ScenarioValue) (rows : List Row) → IsServable s rows self.now.def
            → KnowsRows s rows self.now → result ≡ ready_unit (ready_of s (run_state s rows) self.now.def.dev) }
    {
        bounded(self.processes.units().ready())
    }

    // Without a reset of its own: in a connection of its own by REQ and ACK, in one of others nothing, and else what it
    // does on its way to one.
    fn calm_due(&self, observer: &Observer, me: &Myself, fault: Option<FaultDef>) -> Option<Due>
        requires timely { IsTimely (2 ^ 63) observer.now.view }
        requires ready { IsReady me.now }
        requires linkable { link.IsReady me.now }
        ensures { (s : ScenarioValue) (rows : List Row) (i : TargetState) → FitsBus s → IsObserverOf rows observer.now
            → AreOfDevices rows → heard s rows ≡ true → IsServable s rows self.now.def → KnowsRows s rows self.now
            → me.now ≡ myself_by self.now.def (told rows self.now.def.dev) i → KnowsAll s rows self.now.def.dev i
            → result ≡ calm_by self.now.def (told rows self.now.def.dev) fault i (bus rows).rst (connection rows) }
    {
        match calm_connection(observer.view()) {
            Some(connection) if connection.target.get() == self.def.dev => {
                let from = connection.initiator.get();
                let plain = self.plain_due(observer, me, from);
                sampled(observer, self.def.dev, fault, plain)
            }
            Some(_) => None,
            None => link_due_of(observer, me, self.ready(), fault),
        }
    }

    /// What it does next, and when, in ns, by the first fault that has not struck yet: exactly what is due of it after
    /// the rows that it was told of. It changes nothing. A reset of its own goes before all else, then RST of others.
    pub fn due(&self, observer: &Observer, fault: Option<FaultDef>) -> Option<Due>
        requires timely { IsTimely (2 ^ 63) observer.now.view }
        ensures { (s : ScenarioValue) (rows : List Row) → FitsBus s → IsObserverOf rows observer.now
            → AreOfDevices rows → IsTargetAfter s rows self.now
            → fault ≡ first_fault (run_state s rows).faults → result ≡ due s rows self.now.def.dev }
    {
        dues_are_of_targets();
        let me = myself(&self.def, &self.itself, observer.view());
        let calm = self.calm_due(observer, &me, fault);
        due_with_reset(&me, self.itself.own().rst(), self.itself.reset(), calm)
    }

    /// What it does at this moment, in ns: the row that is due by then, or when its next one is. It changes nothing. A
    /// run asks `due`; a step serves a caller that has one device and a clock.
    pub fn step(&self, observer: &Observer, now: Ns, fault: Option<FaultDef>) -> Act
        requires timely { IsTimely (2 ^ 63) observer.now.view }
        ensures { (s : ScenarioValue) (rows : List Row) → FitsBus s → IsObserverOf rows observer.now
            → AreOfDevices rows → IsTargetAfter s rows self.now
            → fault ≡ first_fault (run_state s rows).faults → result ≡ act_of (due s rows self.now.def.dev) now }
    {
        Act::of(self.due(observer, fault), now)
    }

    // By what it knows in this connection of its own.
    fn shown_by(
        &self,
        observer: &Observer,
        connection: &Connection,
        course: &Course,
        known: &Known,
    ) -> Shown
        requires known { IsKnownBy self.now.def self.now.units self.now.progress self.now.reply course.now known.now }
        ensures { (s : ScenarioValue) (rows : List Row) (row : Row) → FitsBus s
            → IsObserverOf (row ∷ rows) observer.now → AreOfDevices (row ∷ rows) → heard s (row ∷ rows) ≡ true
            → IsServable s rows self.now.def → KnowsRows s rows self.now
            → IsCourseOf s rows self.now.def.dev course.now
            → IsOwnConnection rows self.now.def.dev connection.now → (bus rows).rst ≡ false
            → (bus (row ∷ rows)).rst ≡ false → connection.now.initiator ≡ known.now.from
            → shown_list result ≡ events_of_target s rows row connection.now }
    {
        let after = observer.view().connection();
        course.shown(&known.serving, connection, observer.hearing(), after)
    }

    fn shown_in(&self, observer: &Observer, connection: &Connection, course: &Course) -> Shown
        requires course { self.now.course ≡ Some course.now }
        ensures { (s : ScenarioValue) (rows : List Row) (row : Row) → FitsBus s
            → IsObserverOf (row ∷ rows) observer.now → AreOfDevices (row ∷ rows) → heard s (row ∷ rows) ≡ true
            → IsServable s rows self.now.def → KnowsRows s rows self.now
            → IsCourseOf s rows self.now.def.dev course.now
            → IsOwnConnection rows self.now.def.dev connection.now → (bus rows).rst ≡ false
            → (bus (row ∷ rows)).rst ≡ false → shown_list result ≡ events_of_target s rows row connection.now }
    {
        let from = connection.initiator.get();
        match &self.known {
            Some(known) if known.from == from => self.shown_by(observer, connection, course, known),
            _ => self.shown_by(observer, connection, course, &self.known_anew(from, course)),
        }
    }

    // By what it knows.
    fn shown_known(&self, observer: &Observer) -> Shown
        ensures { (s : ScenarioValue) (rows : List Row) (row : Row) (n : Connection) → FitsBus s
            → IsObserverOf (row ∷ rows) observer.now → AreOfDevices (row ∷ rows) → heard s (row ∷ rows) ≡ true
            → IsServable s rows self.now.def → KnowsRows s rows self.now
            → IsOwnConnection rows self.now.def.dev n → (bus rows).rst ≡ false → (bus (row ∷ rows)).rst ≡ false
            → shown_list result ≡ events_of_target s rows row n }
    {
        match (observer.view().effect().before, &self.course) {
            (Some(connection), Some(course)) => self.shown_in(observer, &connection, course),
            _ => Shown {
                event: None,
                second: None,
            },
        }
    }

    /// The events that it shows with the last row, which the observer has seen and it has not, in a connection of which
    /// it is the target: those of the row that leaves a phase, or the bus, and none with another.
    pub fn shown(&self, observer: &Observer) -> Shown
        ensures { (s : ScenarioValue) (rows : List Row) (row : Row) (n : Connection) → FitsBus s
            → IsObserverOf (row ∷ rows) observer.now → AreOfDevices (row ∷ rows) → heard s (row ∷ rows) ≡ true
            → IsTargetAfter s rows self.now
            → IsOwnConnection rows self.now.def.dev n → (bus rows).rst ≡ false → (bus (row ∷ rows)).rst ≡ false
            → shown_list result ≡ events_of_target s rows row n }
    {
        self.shown_known(observer)
    }

    // The byte of DATA OUT that comes next in this connection of its own, by what it knows in it.
    fn sent_by(&self, course: &Course, known: &Known) -> Sent
        requires known { IsKnownBy self.now.def self.now.units self.now.progress self.now.reply course.now known.now }
        ensures process { result.process ≡ id_known course.now.id }
        ensures unit { result.unit ≡ known.now.unit }
        ensures trace { (s : ScenarioValue) (rows : List Row) (row : Row) (n : Connection) → FitsBus s
            → AreOfDevices (row ∷ rows) → AreTied s (row ∷ rows) → AreInTime (row ∷ rows) → KnowsRows s rows self.now
            → IsOwnConnection rows self.now.def.dev n → (bus rows).rst ≡ false
            → self.now.course ≡ Some course.now → n.initiator ≡ known.now.from
            → IsSentOf s rows row self.now.def.dev result }
    {
        kept_is_plain();
        hearings_are_plain();
        scenarios_fit_the_bus();
        Sent {
            process: process_known(course),
            unit: known.unit,
            place: place_in_run(self.def.disc, &known.serving.task, self.answers),
        }
    }

    fn sent_in(&self, connection: &Connection, course: &Course) -> Sent
        requires course { self.now.course ≡ Some course.now }
        ensures { (s : ScenarioValue) (rows : List Row) (row : Row) → FitsBus s
            → AreOfDevices (row ∷ rows) → AreTied s (row ∷ rows) → AreInTime (row ∷ rows) → KnowsRows s rows self.now
            → IsOwnConnection rows self.now.def.dev connection.now → (bus rows).rst ≡ false
            → IsSentOf s rows row self.now.def.dev result }
    {
        let from = connection.initiator.get();
        match &self.known {
            Some(known) if known.from == from => self.sent_by(course, known),
            _ => self.sent_by(course, &self.known_anew(from, course)),
        }
    }

    // The byte of DATA OUT that came with the last row in this connection of its own, if one did.
    fn sent(&self, hearing: &Hearing, before: &Option<Connection>) -> Option<Sent>
        ensures { (s : ScenarioValue) (rows : List Row) (row : Row) → FitsBus s
            → AreOfDevices (row ∷ rows) → AreTied s (row ∷ rows) → AreInTime (row ∷ rows) → KnowsRows s rows self.now
            → hearing.now ≡ hearing_in rows row → IsOwnIf rows self.now.def.dev before.now
            → is_some before.now ≡ true → (hearing.now.crosses ≡ true → knows_command self.now.course ≡ true)
            → IsSentIf s rows row self.now.def.dev result }
    {
        if !brings_byte(hearing) {
            return None;
        }
        match (before, &self.course) {
            (Some(connection), Some(course)) => Some(self.sent_in(connection, course)),
            _ => None,
        }
    }

    // What it has of this connection of its own before the last row, which the observer has seen and it has not, by
    // what it knows in it.
    fn turn_by(
        &self,
        observer: &Observer,
        connection: &Connection,
        course: &Course,
        known: &Known,
    ) -> Turn
        requires known { IsKnownBy self.now.def self.now.units self.now.progress self.now.reply course.now known.now }
        ensures unit { result.unit < 8 }
        ensures device { result.from < 8 }
        ensures fits { AreFit result.leaving.messages }
        ensures trace { (s : ScenarioValue) (rows : List Row) (row : Row) → FitsBus s
            → IsObserverOf (row ∷ rows) observer.now → AreOfDevices (row ∷ rows) → AreTied s (row ∷ rows)
            → AreInTime (row ∷ rows) → KnowsRows s rows self.now
            → IsOwnConnection rows self.now.def.dev connection.now → (bus rows).rst ≡ false
            → self.now.course ≡ Some course.now → connection.now.initiator ≡ known.now.from
            → IsTurnOf s rows row self.now.def self.now.course result }
    {
        kept_is_plain();
        hearings_are_plain();
        scenarios_fit_the_bus();
        let serving = &known.serving;
        let hearing = observer.hearing();
        let after = observer.view().connection();
        let sent = self.sent_by(course, known);
        Turn {
            process: sent.process,
            unit: sent.unit,
            from: known.from,
            aborts: course.plan().said.aborts.is_some(),
            leaving: leaving_by(serving, hearing.begun, hearing.change.before),
            place: sent.place,
            opening: is_opening(connection, hearing, course),
            plan: known.state.plan,
            shown: course.shown(serving, connection, hearing, after),
        }
    }

    fn turn_in(&self, observer: &Observer, connection: &Connection, course: &Course) -> Turn
        requires course { self.now.course ≡ Some course.now }
        ensures unit { result.unit < 8 }
        ensures device { result.from < 8 }
        ensures fits { AreFit result.leaving.messages }
        ensures trace { (s : ScenarioValue) (rows : List Row) (row : Row) → FitsBus s
            → IsObserverOf (row ∷ rows) observer.now → AreOfDevices (row ∷ rows) → AreTied s (row ∷ rows)
            → AreInTime (row ∷ rows) → KnowsRows s rows self.now
            → IsOwnConnection rows self.now.def.dev connection.now → (bus rows).rst ≡ false
            → IsTurnOf s rows row self.now.def self.now.course result }
    {
        let from = connection.initiator.get();
        match &self.known {
            Some(known) if known.from == from => self.turn_by(observer, connection, course, known),
            _ => self.turn_by(observer, connection, course, &self.known_anew(from, course)),
        }
    }

    fn turn(&self, observer: &Observer) -> Turn
        ensures unit { result.unit < 8 }
        ensures device { result.from < 8 }
        ensures fits { AreFit result.leaving.messages }
        ensures trace { (s : ScenarioValue) (rows : List Row) (row : Row) → FitsBus s
            → IsObserverOf (row ∷ rows) observer.now → AreOfDevices (row ∷ rows) → AreTied s (row ∷ rows)
            → AreInTime (row ∷ rows) → KnowsRows s rows self.now
            → IsTurnOf s rows row self.now.def self.now.course result }
    {
        kept_is_plain();
        hearings_are_plain();
        match (own_before(observer.view(), self.def.dev), &self.course) {
            (Some(connection), Some(course)) => self.turn_in(observer, &connection, course),
            _ => no_turn(),
        }
    }

    // The course of a connection of its own that a reselection begins: of the current process of the unit that is ready
    // first.
    fn course_reselected(&self) -> Option<Course>
        ensures { (s : ScenarioValue) (rows : List Row) (row : Row) (n : Connection) → FitsBus s
            → AreOfDevices (row ∷ rows) → AreTied s (row ∷ rows) → AreInTime (row ∷ rows)
            → KnowsRows s rows self.now → connection rows ≡ None
            → IsOwnConnection (row ∷ rows) self.now.def.dev n → (bus (row ∷ rows)).rst ≡ false → n.reselected ≡ true
            → IsCourseIf s (row ∷ rows) self.now.def.dev result }
    {
        kept_is_plain();
        scenarios_fit_the_bus();
        let units = self.processes.units();
        match bounded(units.ready()) {
            None => None,
            Some(ready) => match units.current_command(ready.unit) {
                None => None,
                Some(entry) => Some(course_of(&entry, ready.unit, units.current_block(ready.unit))),
            },
        }
    }

    // The course of this connection of its own that begins, of this process as its initiator knows it.
    fn course_begun(&self, begun: &Connection, label: ProcId) -> Option<Course>
        ensures { (s : ScenarioValue) (rows : List Row) (row : Row) → FitsBus s
            → AreOfDevices (row ∷ rows) → AreTied s (row ∷ rows) → AreInTime (row ∷ rows)
            → KnowsRows s rows self.now → connection rows ≡ None
            → IsOwnConnection (row ∷ rows) self.now.def.dev begun.now → (bus (row ∷ rows)).rst ≡ false
            → IsLabelOf (item_of (run_state s (row ∷ rows)).story.link) label
            → IsCourseIf s (row ∷ rows) self.now.def.dev result }
    {
        if begun.reselected {
            self.course_reselected()
        } else {
            let negotiates = !self.negotiated.includes(begun.initiator);
            Some(Course::selected(label, negotiates))
        }
    }

    // The course of the connection of its own that the last row began, if it did.
    fn beginning(&self, observer: &Observer, label: ProcId) -> Option<Course>
        ensures { (s : ScenarioValue) (rows : List Row) (row : Row) → FitsBus s
            → IsObserverOf (row ∷ rows) observer.now → AreOfDevices (row ∷ rows) → AreTied s (row ∷ rows)
            → AreInTime (row ∷ rows) → KnowsRows s rows self.now → connection rows ≡ None
            → ((n : Connection) → IsOwnConnection (row ∷ rows) self.now.def.dev n
            → IsLabelOf (item_of (run_state s (row ∷ rows)).story.link) label)
            → IsCourseIf s (row ∷ rows) self.now.def.dev result }
    {
        let view = observer.view();
        match connection_before(view) {
            Some(_) => None,
            None => match own_connection(view, self.def.dev) {
                None => None,
                Some(connection) => self.course_begun(&connection, label),
            },
        }
    }

    // A row that tells it no more than a byte of data, in a connection of its own that stands before and after it.
    fn follow_quiet(&mut self, observer: &Observer, row: &Row)
        requires device { row.now.dev < 8 }
        requires timely { IsTimely (2 ^ 63) observer.now.view }
        ensures def { self.new.def ≡ self.old.def }
        ensures trace { (s : ScenarioValue) (rows : List Row) → FitsBus s
            → IsObserverOf (row.now ∷ rows) observer.now
            → AreOfDevices (row.now ∷ rows) → AreTied s (row.now ∷ rows) → AreInTime (row.now ∷ rows)
            → StandsInOwn rows row.now self.old.def.dev
            → IsQuiet (hearing_in rows row.now) self.old.course (events_of_row s rows row.now)
            → KnowsRows s rows self.old → KnowsRows s (row.now ∷ rows) self.new }
    {
        kept_is_plain();
        hearings_are_plain();
        lines_on_the_bus();
        scenarios_fit_the_bus();
        let view = observer.view();
        let hearing = observer.hearing();
        let sent = self.sent(hearing, &connection_before(view));
        see_sent(&mut self.gathered, sent, hearing, connection_before(view));
        self.itself.see(view, row);
        self.answers = view.handshakes().answers();
    }

    // One more row. It takes the room of many copies, and most rows do not need it.
    #[inline(never)]
    fn follow_own(&mut self, observer: &Observer, row: &Row, label: ProcId, shown: &[Event])
        requires device { row.now.dev < 8 }
        requires timely { IsTimely (2 ^ 63) observer.now.view }
        ensures def { self.new.def ≡ self.old.def }
        ensures trace { (s : ScenarioValue) (rows : List Row) → FitsBus s → IsObserverOf (row.now ∷ rows) observer.now
            → AreOfDevices (row.now ∷ rows) → AreTied s (row.now ∷ rows) → AreInTime (row.now ∷ rows)
            → (connection rows ≡ None → (n : Connection) → IsOwnConnection (row.now ∷ rows) self.old.def.dev n
            → IsLabelOf (item_of (run_state s (row.now ∷ rows)).story.link) label)
            → shown.now ≡ events_of_row s rows row.now
            → KnowsRows s rows self.old → KnowsRows s (row.now ∷ rows) self.new }
    {
        scenarios_fit_the_bus();
        let view = observer.view();
        let hearing = observer.hearing();
        let turn = self.turn(observer);
        let begun = self.beginning(observer, label);
        let still = is_still(
            &turn,
            hearing,
            connection_before(view),
            own_connection(view, self.def.dev),
            &self.course,
            shown,
        );
        let events = RowEvents {
            shown,
            time: row.time,
        };
        see_events(
            &mut self.processes,
            &self.gathered,
            &turn,
            own_before(view, self.def.dev),
            &self.course,
            &events,
        );
        see_beginning(
            &mut self.processes,
            connection_before(view),
            own_connection(view, self.def.dev),
        );
        see_course(
            &mut self.course,
            begun,
            hearing,
            &turn,
            connection_before(view),
            own_connection(view, self.def.dev),
        );
        self.reply = reply_seen(
            self.reply,
            &turn,
            connection_before(view),
            own_connection(view, self.def.dev),
        );
        self.progress.see(
            turn.process,
            &turn.leaving,
            hearing,
            connection_before(view),
            view.connection(),
        );
        self.gathered.see(
            turn.process,
            turn.unit,
            turn.place,
            hearing,
            connection_before(view),
        );
        self.negotiated.see(
            turn.aborts,
            hearing,
            connection_before(view),
            view.connection(),
            shown,
        );
        self.itself.see(view, row);
        self.answers = view.handshakes().answers();
        let sources = Sources {
            def: &self.def,
            units: self.processes.units(),
            progress: &self.progress,
            reply: self.reply,
        };
        see_known(
            &mut self.known,
            still,
            &sources,
            &self.course,
            own_connection(view, self.def.dev),
        );
    }

    // The same. Most rows of a connection of its own tell it no more than a byte of data.
    fn follow(&mut self, observer: &Observer, row: &Row, label: ProcId, shown: &[Event])
        requires device { row.now.dev < 8 }
        requires timely { IsTimely (2 ^ 63) observer.now.view }
        ensures def { self.new.def ≡ self.old.def }
        ensures trace { (s : ScenarioValue) (rows : List Row) → FitsBus s → IsObserverOf (row.now ∷ rows) observer.now
            → AreOfDevices (row.now ∷ rows) → AreTied s (row.now ∷ rows) → AreInTime (row.now ∷ rows)
            → (connection rows ≡ None → (n : Connection) → IsOwnConnection (row.now ∷ rows) self.old.def.dev n
            → IsLabelOf (item_of (run_state s (row.now ∷ rows)).story.link) label)
            → shown.now ≡ events_of_row s rows row.now
            → KnowsRows s rows self.old → KnowsRows s (row.now ∷ rows) self.new }
    {
        if is_quiet(observer.hearing(), &self.course, shown)
            && stands_in_own(observer.view(), self.def.dev)
        {
            self.follow_quiet(observer, row);
        } else {
            self.follow_own(observer, row, label, shown);
        }
    }

    /// One more row, of any device, which shows these events, the newest first; the observer has seen it. Where it
    /// begins a connection, `label` is the process of that, as the initiator of the connection knows it. The target is
    /// no initiator of it.
    pub fn see(&mut self, observer: &Observer, row: &Row, label: ProcId, shown: &[Event])
        requires device { row.now.dev < 8 }
        requires timely { IsTimely (2 ^ 63) observer.now.view }
        ensures def { self.new.def ≡ self.old.def }
        ensures trace { (s : ScenarioValue) (rows : List Row) → FitsBus s → IsObserverOf (row.now ∷ rows) observer.now
            → AreOfDevices (row.now ∷ rows) → AreTied s (row.now ∷ rows) → AreInTime (row.now ∷ rows)
            → IsNoInitiator (row.now ∷ rows) self.old.def.dev
            → (connection rows ≡ None → (n : Connection) → IsOwnConnection (row.now ∷ rows) self.old.def.dev n
            → IsLabelOf (item_of (run_state s (row.now ∷ rows)).story.link) label)
            → shown.now ≡ events_of_row s rows row.now
            → IsTargetAfter s rows self.old → IsTargetAfter s (row.now ∷ rows) self.new }
    {
        self.follow(observer, row, label, shown);
    }

    /// One more row, of another device, in a connection of others that stands before and after it, while RST was and is
    /// false, which shows nothing; the observer has seen it.
    pub fn see_in_others(&mut self, observer: &Observer)
        ensures def { self.new.def ≡ self.old.def }
        ensures trace { (s : ScenarioValue) (rows : List Row) (row : Row) (m n : Connection) → FitsBus s
            → IsObserverOf (row ∷ rows) observer.now → AreOfDevices (row ∷ rows)
            → AreTied s (row ∷ rows) → AreInTime (row ∷ rows)
            → IsNoInitiator (row ∷ rows) self.old.def.dev
            → IsOthers rows self.old.def.dev m → IsOthers (row ∷ rows) self.old.def.dev n
            → row.dev ≢ self.old.def.dev → events_of_row s rows row ≡ []
            → IsTargetAfter s rows self.old → IsTargetAfter s (row ∷ rows) self.new }
    {
        kept_is_plain();
        hearings_are_plain();
        lines_on_the_bus();
        rows_change_one_device();
        scenarios_fit_the_bus();
        units_stay_by_row();
        self.answers = observer.view().handshakes().answers();
    }

    /// What it keeps of its units.
    pub fn units(&self) -> &Units
        ensures value { result.now ≡ self.now.units }
        ensures array { (s : ScenarioValue) (rows : List Row) → IsTargetAfter s rows self.now
            → AreUnitsOf s (array_of s (run_state s rows)) (run_state s rows).current_since self.now.def.dev
            result.now.units }
    {
        self.processes.units()
    }

    /// What it keeps of its units, as it is over.
    pub fn into_units(self) -> Units
        ensures value { result ≡ self.units }
        ensures array { (s : ScenarioValue) (rows : List Row) → IsTargetAfter s rows self
            → AreUnitsOf s (array_of s (run_state s rows)) (run_state s rows).current_since self.def.dev
            result.units }
    {
        self.processes.into_units()
    }
}
