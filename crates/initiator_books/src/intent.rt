//! What an initiator wants of the bus, row by row.
ghost use Rattle.std.specs.Prelude.{◌≡◌, ◌<◌, [], ◌∷◌, List, length, is_some, true, if◌then◌else◌, IfOk};
ghost use Rattle.bus_trace.specs.Terms.{call_after, connection};
ghost use Rattle.initiator_books.specs.Books.{my_since};
ghost use Rattle.bus_trace.specs.declared.rows.Row.{Row};
ghost use Rattle.bus_lines.specs.BusView.{IsBusViewOf};
ghost use Rattle.scenario.specs.Value.{ScenarioValue};
ghost use Rattle.due_model.specs.Plain.{AreOfDevices};
ghost use Rattle.due_model.specs.RunSteps.{run_state, events_of_row};
ghost use Rattle.due_model.specs.Wants.{item_want_time, target_of};
ghost use Rattle.story_model.specs.TraceHistory.{aim_of};
ghost use Rattle.initiator_books.specs.Wishes.{target_by};
ghost use Rattle.initiator_books.specs.Intents.{IsInitiator, IsIntentOf, is_news, news_in, wish_next, is_for_own_process};
ghost use Rattle.initiator_books.specs.Intents.{aims_at_process};
ghost use Rattle.initiator_books.specs.Openings.{opening_by};
ghost use Rattle.scsi_device.specs.Lines.{AreUnits};
ghost use Rattle.due_model.specs.Defs.{host_of, opening};

use crate::book::Book;
use crate::mine::OwnItem;
use crate::openings::{Words, item_opening};
use crate::wish::{Caller, Wish, is_entry};
use bus_base::{Dev, Event, NoMemory, Ns};
use bus_lines::{BusView, RowEffect, see_call};
use bus_trace::{Call, Change, Connection, Row, falls};
use due_model::{hearings_are_plain, kept_is_plain, wants_are_items};
use scenario::{HostDef, Scenario};
use std::alloc::Global;
use std::marker::Model;

/// What an initiator wants of the bus, and since when.
#[derive(Drop)]
pub struct Intent {
    dev: Dev,
    retries: u8,
    wish: Wish,
    call: Option<Call>,
    since: Option<Ns>,
    callee: Option<Dev>,
}

impl Model for Intent {
    ghost use Rattle.initiator_books.specs.Intents.{IntentValue};

    ghost Value = { IntentValue };

    ghost view = { λ a. record {
      dev = a.dev;
      retries = a.retries;
      wish = a.wish;
      call = a.call;
      since = a.since;
      callee = a.callee;
    } };
}

// A row may change what it wants.
fn is_news(
    change: &Change,
    before: Option<Connection>,
    after: Option<Connection>,
    shown: &[Event],
) -> bool
    ensures { result ≡ is_news change.now before after shown.now }
{
    is_entry(change, before)
        || !shown.is_empty()
        || (before.is_none() && (after.is_some() || falls(change.before.sel(), change.after.sel())))
}

// A command or an automatic REQUEST SENSE, and no abort.
fn is_process(aim: Option<OwnItem>) -> bool
    ensures { result ≡ is_for_own_process aim }
{
    matches!(aim, Some(OwnItem::Command(_) | OwnItem::Sense(_)))
}

impl Intent {
    /// Of this initiator, which tries again so often, before any row. It takes all its memory here.
    pub fn new(
        alloc: Global,
        scenario: &Scenario,
        dev: Dev,
        retries: u8,
    ) -> Result<Intent, NoMemory>
        requires commands { length scenario.now.commands < 0xffff }
        requires aborts { length scenario.now.aborts < 0xffff }
        ensures named { IfOk result (λ made. made.dev ≡ dev) }
        ensures tries { IfOk result (λ made. made.retries ≡ retries) }
        ensures trace { IfOk result (λ made. IsIntentOf scenario.now [] made) }
    {
        let wish = Wish::new(alloc, scenario, dev)?;
        let since = wish.book().since();
        Ok(Intent {
            dev,
            retries,
            wish,
            call: None,
            since,
            callee: None,
        })
    }

    /// Since when it wants to send something, in ns.
    pub fn since(&self) -> Option<Ns>
        ensures value { result ≡ self.now.since }
        ensures trace { (s : ScenarioValue) (rows : List Row) → IsIntentOf s rows self.now
            → result ≡ item_want_time s (run_state s rows).story.sent self.now.dev }
    {
        self.since
    }

    /// The target of what it last entered arbitration for.
    pub fn callee(&self) -> Option<Dev>
        ensures value { result ≡ self.now.callee }
        ensures trace { (s : ScenarioValue) (rows : List Row) → AreOfDevices rows → self.now.dev < 8
            → IsIntentOf s rows self.now
            → result ≡ target_of s (aim_of (run_state s rows).story.aims self.now.dev) }
    {
        self.callee
    }

    /// Its own commands and aborts, and how far each has come.
    pub fn book(&self) -> &Book
        ensures { result.now ≡ self.now.wish.book }
    {
        self.wish.book()
    }

    /// For what it last entered arbitration.
    pub fn aim(&self) -> Option<OwnItem>
        ensures { result ≡ self.now.wish.aim }
    {
        self.wish.aim()
    }

    /// Whether it last entered arbitration for a process, and not for an abort.
    pub fn is_for_process(&self) -> bool
        ensures value { result ≡ is_for_own_process self.now.wish.aim }
        ensures trace { (s : ScenarioValue) (rows : List Row) → IsIntentOf s rows self.now
            → result ≡ aims_at_process s rows self.now.dev }
    {
        is_process(self.wish.aim())
    }

    /// What it says first in a connection that it begins for that; `negotiates` says whether the two may negotiate.
    pub fn opening(&self, host: &HostDef, negotiates: bool) -> Words
        ensures value { result.items ≡ opening_by (Some host.now) negotiates self.now.wish.book self.now.wish.aim }
        ensures trace { (s : ScenarioValue) (rows : List Row) → AreOfDevices rows → self.now.dev < 8 → AreUnits s
            → host_of s self.now.dev ≡ Some host.now → IsIntentOf s rows self.now
            → result.items ≡ opening s self.now.dev negotiates (aim_of (run_state s rows).story.aims self.now.dev) }
    {
        item_opening(host, negotiates, self.wish.book(), self.wish.aim())
    }

    // What it wants after a row that did this; the call that stands has not gone on yet.
    fn see_news(&mut self, effect: &RowEffect, row: &Row, shown: &[Event])
        ensures dev { self.new.dev ≡ self.old.dev }
        ensures retries { self.new.retries ≡ self.old.retries }
        ensures wish { self.new.wish ≡ wish_next self.old effect.now row.now shown.now }
        ensures call { self.new.call ≡ self.old.call }
        ensures since { self.new.since ≡ (if news_in effect.now shown.now then my_since self.new.wish.book
            else self.old.since) }
        ensures callee { self.new.callee ≡ (if news_in effect.now shown.now
            then target_by self.new.wish.book self.new.wish.aim else self.old.callee) }
    {
        if is_news(&effect.change, effect.before, effect.after, shown) {
            let caller = Caller {
                dev: self.dev,
                retries: self.retries,
                call: self.call,
            };
            self.wish.see(&caller, effect, row, shown);
            self.since = self.wish.book().since();
            self.callee = self.wish.book().target_by(self.wish.aim());
        }
    }

    // What it wants after a row that did this.
    fn after_effect(&mut self, effect: &RowEffect, row: &Row, shown: &[Event])
        requires { row.now.dev < 8 }
        ensures dev { self.new.dev ≡ self.old.dev }
        ensures retries { self.new.retries ≡ self.old.retries }
        ensures wish { self.new.wish ≡ wish_next self.old effect.now row.now shown.now }
        ensures call { self.new.call ≡ call_after self.old.call effect.now.change row.now }
        ensures since { self.new.since ≡ (if news_in effect.now shown.now then my_since self.new.wish.book
            else self.old.since) }
        ensures callee { self.new.callee ≡ (if news_in effect.now shown.now
            then target_by self.new.wish.book self.new.wish.aim else self.old.callee) }
    {
        self.see_news(effect, row, shown);
        see_call(&mut self.call, &effect.change, row);
    }

    /// One more row, of any device, which shows these events, the newest first; the view is that after it.
    pub fn see(&mut self, view: &BusView, row: &Row, shown: &[Event])
        requires { row.now.dev < 8 }
        ensures dev { self.new.dev ≡ self.old.dev }
        ensures retries { self.new.retries ≡ self.old.retries }
        ensures trace { (s : ScenarioValue) (rows : List Row) → IsBusViewOf (row.now ∷ rows) view.now
            → AreOfDevices (row.now ∷ rows) → IsInitiator s self.old.dev self.old.retries
            → shown.now ≡ events_of_row s rows row.now
            → IsIntentOf s rows self.old → IsIntentOf s (row.now ∷ rows) self.new }
    {
        kept_is_plain();
        hearings_are_plain();
        wants_are_items();
        self.after_effect(view.effect(), row, shown);
    }

    /// One more row, of any device, in a connection that stands before it, which shows no event: only the call that
    /// stands goes on. The view is that after it.
    pub fn see_in_connection(&mut self, view: &BusView, row: &Row)
        requires { row.now.dev < 8 }
        ensures dev { self.new.dev ≡ self.old.dev }
        ensures retries { self.new.retries ≡ self.old.retries }
        ensures trace { (s : ScenarioValue) (rows : List Row) → IsBusViewOf (row.now ∷ rows) view.now
            → AreOfDevices (row.now ∷ rows) → IsInitiator s self.old.dev self.old.retries
            → is_some (connection rows) ≡ true → events_of_row s rows row.now ≡ []
            → IsIntentOf s rows self.old → IsIntentOf s (row.now ∷ rows) self.new }
    {
        kept_is_plain();
        hearings_are_plain();
        wants_are_items();
        see_call(&mut self.call, &view.effect().change, row);
    }
}
