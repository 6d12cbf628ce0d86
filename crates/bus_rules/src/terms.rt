//! The terms of the rules, row by row.
ghost use Rattle.std.specs.Prelude.{true, ◌≡◌, ◌<◌, ◌∷◌, [], List};
ghost use Rattle.bus_trace.specs.declared.Row.{Row};
ghost use Rattle.bus_trace.specs.Trace.{IsViewOf, drives, since};
ghost use Rattle.bus_rules.specs.Judging.{IsTermsOf};
ghost use Rattle.bus_trace.specs.Changes.{change_of};
ghost use Rattle.bus_rules.specs.Rules.{broken_rule};
ghost use Rattle.bus_rules.specs.DataRows.{standing_after, passes};
ghost use Rattle.bus_rules.specs.Seen.{seen, seen_with, other_drives, others_drive, others_in_call, id_since, initiator_of};

use crate::course::Course;
use crate::data_rows::passes;
use crate::rules::lowest_broken;
use crate::saved::SavedCourse;
use crate::saved_terms::SavedTerms;
use crate::seen::Seen;
use crate::standing::{Standing, initiator_bsy, initiator_data, target_data};
use crate::verdict::RuleNo;
use bus_base::{Dev, Ns};
use bus_phases::{CommandBytes, Duty, Pulses, Reading, is_attention_held};
use bus_trace::{
    Agreement, Arbitration, Call, Change, Connection, LineTimes, LineView, Lines, Row, ScsiId,
};
use std::marker::Model;

/// The terms of the rules after the rows of a trace so far, whatever they are.
#[derive(Drop)]
pub struct Terms {
    view: LineView,
    course: Course,
}

impl Model for Terms {
    ghost use Rattle.bus_rules.specs.Judging.{Running};

    ghost Value = { Running };

    ghost view = { λ a. record { view = a.view; course = a.course } };
}

fn other_drives<S: Standing>(stands: &S, dev: Dev, other: Dev) -> bool
    requires { other < 8 }
    ensures { (rows : List Row) → IsViewOf rows (S.terms stands.now).view
        → result ≡ other_drives (drives rows) dev other }
{
    other != dev && !stands.drives(other).is_none()
}

// Whether a device but this one drives a line.
fn others_drive<S: Standing>(stands: &S, dev: Dev) -> bool
    ensures { (rows : List Row) → IsViewOf rows (S.terms stands.now).view
        → result ≡ others_drive (drives rows) dev }
{
    other_drives(stands, dev, 0)
        || other_drives(stands, dev, 1)
        || other_drives(stands, dev, 2)
        || other_drives(stands, dev, 3)
        || other_drives(stands, dev, 4)
        || other_drives(stands, dev, 5)
        || other_drives(stands, dev, 6)
        || other_drives(stands, dev, 7)
}

fn others_in_call<S: Standing>(stands: &S, call: &Option<Call>) -> bool
    ensures { (rows : List Row) → IsViewOf rows (S.terms stands.now).view
        → result ≡ others_in_call (drives rows) call.now }
{
    match call {
        None => false,
        Some(call) => others_drive(stands, call.caller.get()),
    }
}

// Since when the ID of the called device stands as it does.
fn id_since<S: Standing>(stands: &S, call: &Option<Call>) -> Ns
    ensures { (rows : List Row) → IsViewOf rows (S.terms stands.now).view → result ≡ id_since rows call.now }
{
    match call {
        None => 0,
        Some(call) => match call.calling {
            None => 0,
            Some(calling) => stands.id_since(calling.called),
        },
    }
}

/// The initiator of the connection, or of a reselection that is not one yet.
#[inline(always)]
pub fn initiator_of(call: Option<Call>, connection: Option<Connection>) -> Option<ScsiId>
    ensures { result ≡ initiator_of call connection }
{
    if let Some(connection) = connection {
        return Some(connection.initiator);
    }
    let calling = call?.calling?;
    if calling.reselects {
        Some(calling.called)
    } else {
        None
    }
}

impl Standing for Terms {
    ghost terms = { λ t. t };

    #[inline(always)]
    fn last_time(&self) -> Ns {
        self.view.last_time()
    }

    #[inline(always)]
    fn bus(&self) -> Lines {
        self.view.bus()
    }

    #[inline(always)]
    fn drives(&self, dev: Dev) -> Lines {
        self.view.drives(dev)
    }

    #[inline(always)]
    fn times(&self) -> LineTimes {
        self.view.times()
    }

    #[inline(always)]
    fn data_since(&self) -> Ns {
        self.view.data_since()
    }

    #[inline(always)]
    fn id_since(&self, id: ScsiId) -> Ns {
        self.view.since(id.get())
    }

    #[inline(always)]
    fn bsy_raised(&self, dev: Dev) -> Ns {
        self.course.bsy_raised.of(dev)
    }

    #[inline(always)]
    fn rst_raised(&self, dev: Dev) -> Ns {
        self.course.rst_raised.of(dev)
    }

    #[inline(always)]
    fn receiver(&self) -> Option<ScsiId> {
        self.course.receiver
    }

    #[inline(always)]
    fn arbitration(&self) -> Option<Arbitration> {
        self.course.arbitration
    }

    #[inline(always)]
    fn call(&self) -> Option<Call> {
        self.course.call
    }

    #[inline(always)]
    fn is_alone(&self) -> bool {
        self.course.call.is_none() && self.course.arbitration.is_none()
    }

    #[inline(always)]
    fn connection(&self) -> Option<Connection> {
        self.course.connection
    }

    #[inline(always)]
    fn initiator(&self) -> Option<ScsiId> {
        initiator_of(self.course.call, self.course.connection)
    }

    #[inline(always)]
    fn pulses(&self) -> Pulses {
        self.course.pulses
    }

    #[inline(always)]
    fn turned(&self) -> bool {
        self.course.turned
    }

    #[inline(always)]
    fn duty(&self) -> Duty {
        self.course.duty
    }

    #[inline(always)]
    fn agreement(&self) -> Agreement {
        self.course.dialogue.heard.now.agreement
    }

    #[inline(always)]
    fn is_open(&self) -> bool {
        self.course.dialogue.heard.now.offer.is_some()
    }

    #[inline(always)]
    fn command(&self) -> CommandBytes {
        self.course.dialogue.heard.now.command
    }

    #[inline(always)]
    fn is_half(&self) -> bool {
        !self.course.dialogue.half.is_empty()
    }

    #[inline(always)]
    fn begun(&self) -> bool {
        self.course.dialogue.begun
    }
}

impl Terms {
    ghost use Rattle.bus_rules.specs.Saved.{terms_in};

    /// The terms before any row.
    pub fn new() -> Terms
        ensures { IsTermsOf [] result }
    {
        Terms {
            view: LineView::new(),
            course: Course::new(),
        }
    }

    /// The terms as plain words.
    pub fn saved(&self) -> SavedTerms
        ensures { terms_in result ≡ self.now }
    {
        SavedTerms {
            view: self.view.saved(),
            course: SavedCourse::of(&self.course),
        }
    }

    /// The terms that plain words say.
    pub fn restored(saved: &SavedTerms) -> Terms
        ensures { result ≡ terms_in saved.now }
    {
        Terms {
            view: LineView::restored(&saved.view),
            course: saved.course.get(),
        }
    }

    // One row more, which passes the short test.
    #[inline(always)]
    fn transfer(&mut self, change: &Change, row: &Row)
        requires { row.now.dev < 8 }
        ensures kept { (rows : List Row) → IsTermsOf rows self.old → change.now ≡ change_of rows row.now
            → passes (standing_after rows) change.now row.now ≡ true → IsTermsOf (row.now ∷ rows) self.new }
    {
        let held = is_attention_held(change, self.view.times().atn, row.time);
        self.course.transfer(held, change, row.time);
        self.view.transfer(row, change.next, change.after);
    }

    /// One row more: the lowest rule that it breaks. Its time may be any, also before that of the last row.
    #[inline(always)]
    pub fn judge(&mut self, row: &Row) -> Option<RuleNo>
        requires { row.now.dev < 8 }
        ensures kept { (rows : List Row) → IsTermsOf rows self.old → IsTermsOf (row.now ∷ rows) self.new }
        ensures broken { (rows : List Row) → IsTermsOf rows self.old → result ≡ broken_rule rows row.now }
    {
        let own = self.view.drives(row.dev);
        let next = row.kind.driven_after(own);
        let change = Change {
            before: self.view.bus(),
            after: self.view.bus_with(row.dev, next),
            own,
            next,
        };
        if passes(self, &change, row) {
            self.transfer(&change, row);
            return None;
        }
        self.judge_by_rules(row)
    }

    // The same with no short test before it.
    #[inline(never)]
    fn judge_by_rules(&mut self, row: &Row) -> Option<RuleNo>
        requires { row.now.dev < 8 }
        ensures kept { (rows : List Row) → IsTermsOf rows self.old → IsTermsOf (row.now ∷ rows) self.new }
        ensures broken { (rows : List Row) → IsTermsOf rows self.old → result ≡ broken_rule rows row.now }
    {
        let seen = self.step(row);
        lowest_broken(&seen, row)
    }

    /// One row more: what it meets. Its time may be any, also before that of the last row.
    pub fn step(&mut self, row: &Row) -> Seen
        requires { row.now.dev < 8 }
        ensures kept { (rows : List Row) → IsTermsOf rows self.old → IsTermsOf (row.now ∷ rows) self.new }
        ensures seen { (rows : List Row) → IsTermsOf rows self.old → result ≡ seen rows row.now }
    {
        let before = self.view.bus();
        let own = self.view.drives(row.dev);
        let next = row.kind.driven_after(own);
        let quiet = Change {
            before,
            after: before,
            own,
            next,
        };
        let mut seen = met(self, row.dev, quiet);
        self.view.step(row);
        let change = Change {
            before,
            after: self.view.bus(),
            own,
            next,
        };
        let held = is_attention_held(&change, seen.times.atn, row.time);
        seen.reading = self.course.step(seen.times.free(), held, &change, row);
        seen.change = change;
        seen
    }
}

/// What a row of this device meets that changes this.
pub fn met<S: Standing>(stands: &S, dev: Dev, change: Change) -> Seen
    requires { dev < 8 }
    ensures { (rows : List Row) → IsTermsOf rows (S.terms stands.now)
        → result ≡ seen_with rows dev change Reading.NoMessage }
{
    let call = stands.call();
    Seen {
        change,
        last: stands.last_time(),
        times: stands.times(),
        id_since: id_since(stands, &call),
        bsy_raised: stands.bsy_raised(dev),
        rst_raised: stands.rst_raised(dev),
        others_drive: others_in_call(stands, &call),
        initiator_bsy: initiator_bsy(stands),
        initiator_data: initiator_data(stands),
        target_data: target_data(stands),
        receiver: stands.receiver(),
        arbitration: stands.arbitration(),
        call,
        connection: stands.connection(),
        data_since: stands.data_since(),
        pulses: stands.pulses(),
        turned: stands.turned(),
        duty: stands.duty(),
        agreement: stands.agreement(),
        is_open: stands.is_open(),
        command: stands.command(),
        is_half: stands.is_half(),
        begun: stands.begun(),
        reading: Reading::NoMessage,
    }
}
