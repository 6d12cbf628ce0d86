//! The course of a connection at its target: what it has heard in it, and what it decides by (ANSI X3.131-1994, 6.1.6
//! and 6.6).
ghost use Rattle.std.specs.Prelude.{ℕ, ◌≡◌, ◌≤◌, ◌<◌, ◌||◌, not, true, false, List, [], ◌∷◌, length, Some, None, is_some, if◌then◌else◌};
ghost use Rattle.bus_trace.specs.declared.Row.{Row};
ghost use Rattle.bus_trace.specs.declared.connection.Connection.{Connection};
ghost use Rattle.bus_trace.specs.Terms.{connection as connection_after};
ghost use Rattle.bus_trace.specs.Trace.{bus};
ghost use Rattle.scenario.specs.Value.{ScenarioValue};
ghost use Rattle.scenario.specs.declared.value.TargetDef.{TargetDef};
ghost use Rattle.array_model.specs.Order.{class_of, range_in, tag_number};
ghost use Rattle.due_model.specs.dialogue_model.specs.Exchange.{no_messages};
ghost use Rattle.due_model.specs.dialogue_model.specs.Hearing.{begun, hearing as hearing_in};
ghost use Rattle.due_model.specs.dialogue_model.specs.NextPhase.{leaving_by};
ghost use Rattle.due_model.specs.dialogue_model.specs.Wants.{Ready};
ghost use Rattle.due_model.specs.Defs.{target_def_of};
ghost use Rattle.due_model.specs.Faithful.{faithful};
ghost use Rattle.due_model.specs.LastingState.{has_negotiated};
ghost use Rattle.due_model.specs.Plain.{AreOfDevices};
ghost use Rattle.due_model.specs.RunState.{item_of};
ghost use Rattle.due_model.specs.RunSteps.{run_state};
ghost use Rattle.due_model.specs.Sights.{serving_of};
ghost use Rattle.due_model.specs.Tasks.{blocks_in, given_of};
ghost use Rattle.due_model.specs.Wants.{ready_of};
ghost use Rattle.target_units.specs.scsi_device.specs.Heard.{heard, leaves_opening, leaves_command};
ghost use Rattle.target_course.specs.Fits.{AreFit};
ghost use Rattle.target_course.specs.Servings.{serving_with};
ghost use Rattle.target_course.specs.Shown.{shown_list};
ghost use Rattle.target_course.specs.States.{AreAlikeIn, IsOwnConnection, offering_in};
ghost use Rattle.target_course.specs.Courses.{name_in, naming, tag_message, course_selected, course_reselected, block_with, block_kept, course_told, course_after, course_events, events_of_target, id_known, moved_by, status_known, task_by, serving_by, IsLabelOf, IsReadyProcess, IsCourseOf, AreToldOf};

use crate::arrivals::arrival_by;
use crate::commands::{blocks_named, is_request_sense, is_whole, is_write};
use crate::events::{Shown, leaving_shown, nothing_shown};
use crate::plans::{first_plan, no_messages, plan_after};
use crate::serving::Serving;
use array_model::tag_number;
use arrayvec::ArrayVec;
use bus_base::{Class, ProcId};
use bus_trace::{Connection, changes_phase, is_command, is_message_out};
use cdb_codec::{CdbFault, Command, GOOD, from_cdb};
use due_model::the_dialogue_model::{Cause, Hearing, Leaving, Messages, Plan, Room, Said, Task};
use due_model::{hearings_are_plain, kept_is_plain};
use msg_grammar::MsgIn;
use scenario::{Tag, TargetDef};
use std::marker::Model;

/// What names a process at its target, beside its initiator.
#[derive(Clone, Copy)]
pub struct Name {
    /// The logical unit.
    pub unit: u8,
    /// The number of its queue tag message.
    pub tag: Option<u8>,
    /// How it is queued.
    pub class: Class,
}

/// What the unit and the counts of a target tell of the process of its connection.
#[derive(Clone, Copy)]
pub struct ProcessState {
    /// Whether its initiator stands in the hold of the unit.
    pub in_hold: bool,
    /// How many data runs it has made.
    pub runs: u64,
    /// How many recoveries were counted for it.
    pub recoveries: u64,
    /// Whether its commands name no blocks, as those of a tape.
    pub serial: bool,
    /// The bytes of a block of the unit.
    pub size: u64,
    /// The queue of the unit, where the unit is there.
    pub room: Option<Room>,
    /// How its command would end if it ran now.
    pub plan: disk_unit::Plan,
    /// The status of its reply, once it has one.
    pub reply: Option<u8>,
}

/// What the target of a connection has heard in it: what it plans, how the opening named the process, and the command
/// block. It takes no memory.
#[derive(Drop)]
pub struct Course {
    id: ProcId,
    plan: Plan,
    named: Option<Name>,
    block: ArrayVec<u8, 11>,
    known: bool,
}

impl Model for Course {
    ghost use Rattle.std.specs.Prelude.{◌≤◌, length};
    ghost use Rattle.target_course.specs.Courses.{CourseState};
    ghost use Rattle.target_course.specs.Fits.{AreFit};

    ghost Value = { CourseState };

    ghost view = { λ c. record { id = c.id; plan = c.plan; named = c.named; block = c.block.items; known = c.known } };

    ghost invariant = { λ c. (length c.block.items ≤ 11) × AreFit c.plan.messages };
}

fn class_of(tag: Tag) -> Class
    ensures { result ≡ class_of tag }
{
    match tag {
        Tag::Untagged | Tag::Simple(_) => Class::Simple,
        Tag::Ordered(_) => Class::Ordered,
        Tag::Head(_) => Class::Head,
    }
}

// How the opening names the process.
fn name_in(said: &Said) -> Option<Name>
    ensures { result ≡ name_in said.now }
{
    match said.unit {
        None => None,
        Some(unit) => Some(Name {
            unit,
            tag: tag_number(said.tag),
            class: class_of(said.tag),
        }),
    }
}

fn tag_message(tag: Option<u8>) -> Option<MsgIn>
    ensures { result ≡ tag_message tag }
{
    match tag {
        None => None,
        Some(number) => Some(MsgIn::SimpleTag(number)),
    }
}

// A reselection names the process so (6.6.7, 6.6.17).
fn naming(name: Name) -> Messages
    ensures { result ≡ naming name }
{
    Messages {
        first: Some(MsgIn::Identify { lun: name.unit }),
        second: tag_message(name.tag),
    }
}

// The first MESSAGE OUT phase after a selection is left with this row.
fn leaves_opening(hearing: &Hearing, plan: &Plan) -> bool
    ensures { result ≡ leaves_opening hearing.now plan.now }
{
    hearing.begun
        && changes_phase(&hearing.change)
        && is_message_out(hearing.change.before)
        && matches!(plan.cause, Cause::Selected)
}

// COMMAND is left with this row, and no byte of it was struck.
fn leaves_command(hearing: &Hearing, plan: &Plan) -> bool
    ensures { result ≡ leaves_command hearing.now plan.now }
{
    hearing.begun
        && changes_phase(&hearing.change)
        && is_command(hearing.change.before)
        && !plan.struck
}

// How many bytes it moves: what a write sends, where it ends GOOD; of any other what its reply gives.
fn moved_by(plan: &disk_unit::Plan, writes: bool) -> u64
    ensures { result ≡ moved_by plan.now writes }
{
    if !writes {
        u64::from(plan.in_len)
    } else if plan.status == GOOD {
        u64::from(plan.out_len)
    } else {
        0
    }
}

// How many blocks it names, at a unit that is serial or not.
fn blocks_at(serial: bool, command: &Result<Command, CdbFault>) -> Option<u32>
    ensures { result ≡ blocks_in (if serial then None else range_in command.now) }
{
    if serial { None } else { blocks_named(command) }
}

fn status_known(plan: &disk_unit::Plan, reply: Option<u8>) -> u8
    ensures { result ≡ status_known plan.now reply }
{
    match reply {
        None => plan.status,
        Some(status) => status,
    }
}

impl Course {
    fn of_selection(id: ProcId, negotiates: bool) -> Course
        ensures { result ≡ course_selected id negotiates }
    {
        Course {
            id,
            plan: first_plan(false, negotiates, no_messages()),
            named: None,
            block: ArrayVec::new(),
            known: false,
        }
    }

    fn of_reselection(id: ProcId, name: Name, cdb: &[u8]) -> Course
        requires unit { name.unit < 8 }
        requires most { length cdb.now ≤ 10 }
        ensures { result ≡ course_reselected id name cdb.now }
    {
        let mut block = ArrayVec::new();
        let _ = block.try_extend_from_slice(cdb);
        Course {
            id,
            plan: first_plan(true, false, naming(name)),
            named: Some(name),
            block,
            known: true,
        }
    }

    /// A selection begins the connection, of this process as its initiator knows it; `negotiates` says that
    /// synchronous transfer may be negotiated in it, unless it is for an abort (6.6.21).
    pub fn selected(id: ProcId, negotiates: bool) -> Course
        ensures exact { result ≡ course_selected id negotiates }
        ensures trace { (s : ScenarioValue) (rows : List Row) (row : Row) (n : Connection) (dev : ℕ)
            → AreOfDevices (row ∷ rows) → connection_after rows ≡ None → connection_after (row ∷ rows) ≡ Some n
            → n.reselected ≡ false → faithful s (row ∷ rows) ≡ true → heard s (row ∷ rows) ≡ true
            → IsLabelOf (item_of (run_state s (row ∷ rows)).story.link) id
            → negotiates ≡ not (has_negotiated (run_state s rows).negotiated n.initiator n.target)
            → IsCourseOf s (row ∷ rows) dev result }
    {
        kept_is_plain();
        Course::of_selection(id, negotiates)
    }

    /// A reselection begins the connection, of this process with this command block (6.1.4).
    pub fn reselected(id: ProcId, name: Name, cdb: &[u8]) -> Course
        requires unit { name.unit < 8 }
        requires most { length cdb.now ≤ 10 }
        ensures exact { result ≡ course_reselected id name cdb.now }
        ensures trace { (s : ScenarioValue) (rows : List Row) (row : Row) (n : Connection) (dev : ℕ)
            → AreOfDevices (row ∷ rows) → connection_after rows ≡ None → connection_after (row ∷ rows) ≡ Some n
            → n.reselected ≡ true → faithful s (row ∷ rows) ≡ true → heard s (row ∷ rows) ≡ true
            → ((r : Ready) → ready_of s (run_state s rows) n.target ≡ Some r → IsReadyProcess s r id name cdb.now)
            → IsCourseOf s (row ∷ rows) dev result }
    {
        kept_is_plain();
        Course::of_reselection(id, name, cdb)
    }

    /// The process; its command is 0 for none.
    pub fn id(&self) -> ProcId
        ensures { result ≡ self.now.id }
    {
        self.id
    }

    /// What it plans in the connection.
    pub fn plan(&self) -> &Plan
        ensures { result.now ≡ self.now.plan }
    {
        &self.plan
    }

    /// How the process is named, once the opening was left.
    pub fn name(&self) -> Option<Name>
        ensures { result ≡ self.now.named }
    {
        self.named
    }

    /// The bytes of its command block so far, at most eleven.
    pub fn block(&self) -> &[u8]
        ensures value { result.now ≡ self.now.block }
        ensures most { length result.now ≤ 11 }
    {
        self.block.as_slice()
    }

    /// Whether these are the command: COMMAND was left with no byte struck, or a reselection began the connection.
    pub fn is_command_known(&self) -> bool
        ensures { result ≡ self.now.known }
    {
        self.known
    }

    fn take_byte(&mut self, byte: u8)
        ensures { self.new ≡ record self.old { block = block_with self.old.block byte } }
    {
        if self.block.len() < 11 {
            self.block.push(byte);
        }
    }

    // The command block, by what a row told.
    fn hear_command(&mut self, hearing: &Hearing)
        ensures { self.new ≡ record self.old { block = block_kept hearing.now self.old.block } }
    {
        let change = &hearing.change;
        if changes_phase(change) {
            if is_command(change.after) {
                self.block.clear();
            }
        } else if hearing.crosses && is_command(change.before) {
            self.take_byte(change.after.data());
        }
    }

    // What a row told, as long as the command is not known.
    fn hear(&mut self, hearing: &Hearing)
        ensures { self.new ≡ course_told hearing.now self.old }
    {
        self.hear_command(hearing);
        if leaves_opening(hearing, &self.plan) {
            self.named = name_in(&self.plan.said);
        }
        self.known = leaves_command(hearing, &self.plan);
    }

    fn go_on(&mut self, hearing: &Hearing, leaving: &Leaving)
        requires fits { AreFit leaving.now.messages }
        ensures { self.new ≡ course_after hearing.now leaving.now self.old }
    {
        if !self.known {
            self.hear(hearing);
        }
        self.plan = plan_after(hearing, leaving, &self.plan);
    }

    /// A row of the connection told this, with which the phase that stood before it was left so, as the target decided
    /// before the row.
    pub fn see(&mut self, hearing: &Hearing, leaving: &Leaving)
        requires fits { AreFit leaving.now.messages }
        ensures exact { self.new ≡ course_after hearing.now leaving.now self.old }
        ensures trace { (s : ScenarioValue) (rows : List Row) (row : Row) (m : Connection) (d : TargetDef)
            (f : ProcessState) → AreOfDevices (row ∷ rows) → hearing.now ≡ hearing_in rows row
            → IsOwnConnection rows d.dev m → target_def_of s d.dev ≡ Some d → heard s (row ∷ rows) ≡ true
            → AreToldOf s rows self.old f
            → leaving.now ≡ leaving_by (serving_by d self.old f (given_of s (run_state s rows))) (begun rows) (bus rows)
            → IsCourseOf s rows d.dev self.old → IsCourseOf s (row ∷ rows) d.dev self.new }
    {
        kept_is_plain();
        hearings_are_plain();
        self.go_on(hearing, leaving);
    }

    // The process that it serves, where it knows of one.
    fn task(&self, state: &ProcessState) -> Task
        ensures { result ≡ task_by self.now state.now }
    {
        let command = from_cdb(self.block.as_slice());
        let writes = is_write(&command);
        Task {
            writes,
            moved: moved_by(&state.plan, writes),
            blocks: blocks_at(state.serial, &command),
            size: state.size,
            runs: state.runs,
            recoveries: state.recoveries,
            in_hold: state.in_hold,
            whole: is_whole(self.block.as_slice()),
            replied: state.reply.is_some(),
            status: status_known(&state.plan, state.reply),
        }
    }

    fn task_if(&self, state: &ProcessState) -> Option<Task>
        ensures { result ≡ (if is_some self.now.named then Some (task_by self.now state.now) else None) }
    {
        match self.named {
            None => None,
            Some(_) => Some(self.task(state)),
        }
    }

    fn serving_with(&self, def: &TargetDef, state: &ProcessState) -> Serving
        ensures exact { (given : List ℕ) → serving_with result given ≡ serving_by def.now self.now state.now given }
        ensures fits { AreFit result.plan.messages }
    {
        let command = from_cdb(self.block.as_slice());
        Serving {
            def: *def,
            plan: self.plan,
            task: self.task_if(state),
            arrival: arrival_by(def.disc, is_request_sense(&command), state.room),
        }
    }

    /// What the target decides by, with what its unit and its counts tell of the process. What it has to do in the
    /// phase is that which the rows have it do.
    pub fn serving(&self, def: &TargetDef, state: &ProcessState) -> Serving
        ensures exact { (given : List ℕ) → serving_with result given ≡ serving_by def.now self.now state.now given }
        ensures fits { AreFit result.plan.messages }
        ensures trace { (s : ScenarioValue) (rows : List Row) (n : Connection) → AreOfDevices rows → def.now.dev < 8
            → target_def_of s def.now.dev ≡ Some def.now → heard s rows ≡ true → AreToldOf s rows self.now state.now
            → IsCourseOf s rows def.now.dev self.now → IsOwnConnection rows def.now.dev n → (bus rows).rst ≡ false
            → AreAlikeIn rows def.now.dev (offering_in rows (serving_with result (given_of s (run_state s rows))))
            (offering_in rows (serving_of s (run_state s rows) def.now.dev)) }
    {
        kept_is_plain();
        self.serving_with(def, state)
    }

    // As which the process is named in events; none where its command is 0.
    fn id_known(&self) -> Option<ProcId>
        ensures { result ≡ id_known self.now.id }
    {
        if self.id.command == 0 {
            None
        } else {
            Some(self.id)
        }
    }

    fn shown_by(
        &self,
        serving: &Serving,
        connection: &Connection,
        hearing: &Hearing,
        after: Option<Connection>,
    ) -> Shown
        ensures { (given : List ℕ) → shown_list result
            ≡ course_events self.now (serving_with serving.now given) connection.now hearing.now after }
    {
        if changes_phase(&hearing.change) || after.is_none() {
            leaving_shown(
                serving,
                connection,
                hearing,
                after.is_some(),
                self.id_known(),
            )
        } else {
            nothing_shown()
        }
    }

    /// What the target shows with a row that told this, in this connection of its own, by what it decided by before the
    /// row; `after` is the connection after it. It has not seen the row itself.
    pub fn shown(
        &self,
        serving: &Serving,
        connection: &Connection,
        hearing: &Hearing,
        after: Option<Connection>,
    ) -> Shown
        ensures exact { (given : List ℕ) → shown_list result
            ≡ course_events self.now (serving_with serving.now given) connection.now hearing.now after }
        ensures trace { (s : ScenarioValue) (rows : List Row) (row : Row) (d : TargetDef) (f : ProcessState)
            → AreOfDevices (row ∷ rows) → hearing.now ≡ hearing_in rows row → after ≡ connection_after (row ∷ rows)
            → IsOwnConnection rows d.dev connection.now → target_def_of s d.dev ≡ Some d
            → heard s (row ∷ rows) ≡ true → (bus rows).rst ≡ false → (bus (row ∷ rows)).rst ≡ false
            → AreToldOf s rows self.now f
            → serving_with serving.now (given_of s (run_state s rows))
            ≡ serving_by d self.now f (given_of s (run_state s rows)) → IsCourseOf s rows d.dev self.now
            → shown_list result ≡ events_of_target s rows row connection.now }
    {
        kept_is_plain();
        hearings_are_plain();
        self.shown_by(serving, connection, hearing, after)
    }
}
