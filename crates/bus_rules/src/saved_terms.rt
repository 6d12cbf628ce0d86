//! The terms of the rules as plain words, which can be copied, written to a file and read back, row by row.
//!
//! Any words say some terms: what is out of range is cut to its range. What is saved and read back is the same. Rows
//! are judged on the words as they stand: each reads and writes those that it needs, and no other form is made of
//! them.
ghost use Rattle.std.specs.Prelude.{true, false, ◌≡◌, ◌<◌, ◌∷◌, List, None};
ghost use Rattle.bus_trace.specs.declared.Row.{Row};
ghost use Rattle.bus_trace.specs.Changes.{change_of};
ghost use Rattle.bus_rules.specs.DataRows.{standing_after, passes};
ghost use Rattle.bus_rules.specs.Judging.{IsTermsOf};
ghost use Rattle.bus_rules.specs.Rules.{broken_rule};
ghost use Rattle.bus_rules.specs.Seen.{seen};

use crate::data_rows::passes;
use crate::rules::lowest_broken;
use crate::saved::SavedCourse;
use crate::saved_course::{connection_in, step_course, transfer_course};
use crate::saved_view::{bus_with, step_lines, transfer_lines};
use crate::seen::Seen;
use crate::standing::Standing;
use crate::terms::{initiator_of, met};
use crate::verdict::RuleNo;
use bus_base::{Dev, Ns};
use bus_phases::{CommandBytes, Duty, Pulses, duty_in, is_attention_held};
use bus_trace::{
    Agreement, Arbitration, Call, Change, Connection, LineTimes, Lines, Row, SavedView, ScsiId,
    byte_in, id_or_none_in, is_yes, lines_in,
};

/// The terms of the rules after some rows.
#[repr(C)]
#[derive(Clone, Copy)]
pub struct SavedTerms {
    /// The view of the lines.
    pub view: SavedView,
    /// What stands on the bus.
    pub course: SavedCourse,
}

impl Standing for SavedTerms {
    ghost use Rattle.bus_rules.specs.Saved.{terms_in};

    ghost terms = { λ s. terms_in s };

    #[inline(always)]
    fn last_time(&self) -> Ns {
        self.view.last
    }

    #[inline(always)]
    fn bus(&self) -> Lines {
        lines_in(self.view.present)
    }

    #[inline(always)]
    fn drives(&self, dev: Dev) -> Lines {
        lines_in(self.view.driven[dev as usize])
    }

    #[inline(always)]
    fn times(&self) -> LineTimes {
        self.view.times
    }

    #[inline(always)]
    fn data_since(&self) -> Ns {
        self.view.data_changed
    }

    #[inline(always)]
    fn id_since(&self, id: ScsiId) -> Ns {
        self.view.data_lines[id.get() as usize]
    }

    #[inline(always)]
    fn bsy_raised(&self, dev: Dev) -> Ns {
        self.course.bsy_raised.of(dev)
    }

    #[inline(always)]
    fn rst_raised(&self, dev: Dev) -> Ns {
        self.course.rst_raised.of(dev)
    }

    #[inline(always)]
    fn receiver(&self) -> Option<ScsiId> {
        id_or_none_in(self.course.receiver)
    }

    #[inline(always)]
    fn arbitration(&self) -> Option<Arbitration> {
        self.course.arbitration.get()
    }

    #[inline(always)]
    fn call(&self) -> Option<Call> {
        self.course.call.get()
    }

    #[inline(always)]
    fn is_alone(&self) -> bool {
        !is_yes(self.course.call.is_some) && !is_yes(self.course.arbitration.is_some)
    }

    #[inline(always)]
    fn connection(&self) -> Option<Connection> {
        connection_in(&self.course.connection)
    }

    #[inline(always)]
    fn initiator(&self) -> Option<ScsiId> {
        // Of the call nothing is read where a connection stands, as it does for the short test.
        match connection_in(&self.course.connection) {
            Some(connection) => Some(connection.initiator),
            None => initiator_of(self.course.call.get(), None),
        }
    }

    #[inline(always)]
    fn pulses(&self) -> Pulses {
        self.course.pulses.get()
    }

    #[inline(always)]
    fn turned(&self) -> bool {
        is_yes(self.course.turned)
    }

    #[inline(always)]
    fn duty(&self) -> Duty {
        duty_in(self.course.duty)
    }

    #[inline(always)]
    fn agreement(&self) -> Agreement {
        let said = &self.course.dialogue.heard.said;
        Agreement {
            period: byte_in(said.period),
            offset: byte_in(said.offset),
        }
    }

    #[inline(always)]
    fn is_open(&self) -> bool {
        is_yes(self.course.dialogue.heard.said.offer)
    }

    #[inline(always)]
    fn command(&self) -> CommandBytes {
        let said = &self.course.dialogue.heard.said;
        CommandBytes {
            first: byte_in(said.first),
            count: said.count,
        }
    }

    #[inline(always)]
    fn is_half(&self) -> bool {
        let half = &self.course.dialogue.half;
        !half.bytes[..(half.length % 5) as usize].is_empty()
    }

    #[inline(always)]
    fn begun(&self) -> bool {
        is_yes(self.course.dialogue.begun)
    }
}

impl SavedTerms {
    ghost use Rattle.bus_rules.specs.Saved.{terms_in};

    // One row more, which passes the short test.
    #[inline(always)]
    fn transfer(&mut self, change: &Change, row: &Row)
        requires { row.now.dev < 8 }
        ensures kept { (rows : List Row) → IsTermsOf rows (terms_in self.old) → change.now ≡ change_of rows row.now
            → passes (standing_after rows) change.now row.now ≡ true → IsTermsOf (row.now ∷ rows) (terms_in self.new) }
    {
        let held = is_attention_held(change, self.view.times.atn, row.time);
        transfer_course(&mut self.course, held, change, row.time);
        transfer_lines(&mut self.view, row, change.next, change.after);
    }

    /// One row more where it passes the short test, so that it breaks no rule, and whether it does. Most rows do, and
    /// change few words. Any other changes nothing, and is for [`SavedTerms::judge`].
    #[inline(always)]
    pub fn pass(&mut self, row: &Row) -> bool
        requires { row.now.dev < 8 }
        ensures exact { (rows : List Row) → IsTermsOf rows (terms_in self.old)
            → result ≡ passes (standing_after rows) (change_of rows row.now) row.now }
        ensures kept { (rows : List Row) → IsTermsOf rows (terms_in self.old) → result ≡ true
            → IsTermsOf (row.now ∷ rows) (terms_in self.new) }
        ensures lawful { (rows : List Row) → IsTermsOf rows (terms_in self.old) → result ≡ true
            → broken_rule rows row.now ≡ None }
        ensures other { result ≡ false → self.new ≡ self.old }
    {
        let own = self.drives(row.dev);
        let next = row.kind.driven_after(own);
        let change = Change {
            before: self.bus(),
            after: bus_with(&self.view, row.dev, next),
            own,
            next,
        };
        if passes(self, &change, row) {
            self.transfer(&change, row);
            return true;
        }
        false
    }

    /// One row more, by the rules: the lowest that it breaks. Its time may be any, also before that of the last row.
    #[inline(never)]
    pub fn judge(&mut self, row: &Row) -> Option<RuleNo>
        requires { row.now.dev < 8 }
        ensures kept { (rows : List Row) → IsTermsOf rows (terms_in self.old)
            → IsTermsOf (row.now ∷ rows) (terms_in self.new) }
        ensures broken { (rows : List Row) → IsTermsOf rows (terms_in self.old) → result ≡ broken_rule rows row.now }
    {
        let seen = self.step(row);
        lowest_broken(&seen, row)
    }

    // One row more: what it meets.
    fn step(&mut self, row: &Row) -> Seen
        requires { row.now.dev < 8 }
        ensures kept { (rows : List Row) → IsTermsOf rows (terms_in self.old)
            → IsTermsOf (row.now ∷ rows) (terms_in self.new) }
        ensures seen { (rows : List Row) → IsTermsOf rows (terms_in self.old) → result ≡ seen rows row.now }
    {
        let own = self.drives(row.dev);
        let next = row.kind.driven_after(own);
        let change = Change {
            before: self.bus(),
            after: bus_with(&self.view, row.dev, next),
            own,
            next,
        };
        let mut seen = met(self, row.dev, change);
        let held = is_attention_held(&change, seen.times.atn, row.time);
        step_lines(&mut self.view, row, next, change.after);
        seen.reading = step_course(&mut self.course, seen.times.free(), held, &change, row);
        seen
    }
}
