//! The queue of a logical unit (ANSI X3.131-1994, 6.6.17 and 7.8).
ghost use Rattle.std.specs.Prelude.{◌≡◌, ◌+◌, ◌<◌, ◌==◌, not, nat_lt, ◌⊎◌, true, false, [], ◌∷◌, ◌++◌, length, Some, None, IfNone, IfSome, IfOk, OnOk, OnErr, slice_index_or};
ghost use Rattle.array_model.specs.Order.{chosen_place};
ghost use Rattle.tag_queue.specs.Queue.{queued, empty_queue, queue_with, queue_started, queue_left, queue_without, queue_cleared_of, those_of, has_any as any_of, with_held, with_none_held, is_current as is_current_key, is_held, has_key, entry_at, without_key, waiting_of, entries_in, key_at_if, chosen_key, may_run_key, key_of as first_key_of, key_of_process as first_of_process};
ghost use Rattle.tag_queue.specs.Stored.{AreOf};

use super::arrivals::{
    Arrival, Key, earlier_conflicts, first_of, is_current, key_at, key_of, key_of_process,
    last_head, lower_later, place_standing, runnable_place,
};
use super::those::Those;
use array_model::{Dev, Entry, Pick, ProcId};
use bus_base::NoMemory;
use slab::Slab;
use std::alloc::Global;
use std::error::Error;
use std::fmt;
use std::marker::Model;

/// The queue is at its depth.
#[derive(Clone, Copy, Debug, PartialEq, Eq)]
pub struct Full;

impl fmt::Display for Full {
    ghost use Rattle.std.specs.Prelude.{Some, codes};

    ghost output = { λ _. Some (codes "the queue is at its depth") };

    fn fmt<W: fmt::Write>(&self, f: &mut fmt::Formatter<W>) -> fmt::Result {
        f.write_str("the queue is at its depth")
    }
}

impl Error for Full {}

/// The commands of a logical unit that wait or are current, and the initiators that stand in its hold.
#[derive(Drop)]
pub struct Queue {
    entries: Slab<Entry>,
    // In order of arrival.
    arrivals: Vec<Arrival>,
    current: Option<Key>,
    hold: [bool; 8],
    depth: usize,
}

impl Model for Queue {
    ghost use Rattle.std.specs.Prelude.{vec_capacity};
    ghost use Rattle.tag_queue.specs.Queue.{QueueState};

    ghost Value = { QueueState };

    ghost use Rattle.tag_queue.specs.Stored.{queued_at, IsSound};

    ghost view = { λ q. record {
      depth = q.depth;
      keys = q.entries.capacity;
      arrived = queued_at q.entries q.arrivals.items;
      current = q.current;
      hold = q.hold;
    } };

    ghost invariant = { λ q. IsSound q.entries q.arrivals.items q.current q.depth (vec_capacity q.arrivals) };
}

impl Queue {
    /// An empty queue for `depth` commands, the current one among them. It takes all the memory that it ever has.
    pub fn new(alloc: Global, depth: usize) -> Result<Queue, NoMemory>
        ensures { IfOk result (λ made. made ≡ empty_queue depth made.keys) }
    {
        let entries = Slab::with_capacity(alloc, depth)?;
        let arrivals = Vec::with_capacity(alloc, depth)?;
        Ok(Queue {
            entries,
            arrivals,
            current: None,
            hold: [false; 8],
            depth,
        })
    }

    /// A command arrives, and waits as the last one. Its key is that of no live command.
    pub fn enter(&mut self, p: Entry) -> Result<Key, Full>
        ensures full { OnErr result (length self.old.arrived ≡ self.old.depth) }
        ensures unchanged { OnErr result (self.new ≡ self.old) }
        ensures below { OnOk result (length self.old.arrived < self.old.depth) }
        ensures fresh { IfOk result (λ key. has_key self.old.arrived key ≡ false) }
        ensures low { IfOk result (λ key. key < self.old.keys) }
        ensures entered { IfOk result (λ key. self.new ≡ queue_with self.old key p) }
        ensures waiting { IfOk result (λ key. waiting_of self.new ≡ waiting_of self.old ++ queued key p ∷ []) }
    {
        if self.arrivals.len() == self.depth {
            return Err(Full);
        }
        let earlier = earlier_conflicts(&self.entries, self.arrivals.as_slice(), self.current, &p);
        let key = self.entries.insert_reserved(p);
        self.arrivals.push_reserved(Arrival { key, earlier });
        Ok(key)
    }

    /// The key of the current command.
    pub fn current(&self) -> Option<Key>
        ensures exact { result ≡ self.now.current }
        ensures live { IfSome result (λ key. has_key self.now.arrived key ≡ true) }
    {
        self.current
    }

    /// Every key is below this number.
    pub fn keys(&self) -> usize
        ensures { result ≡ self.now.keys }
    {
        self.entries.capacity()
    }

    /// The key of the waiting command that the unit chooses: of those that may run the first or the last that arrived.
    /// `None` where nothing waits, and while the hold has a member.
    pub fn choose(&self, pick: Pick) -> Option<Key>
        ensures exact { result ≡ chosen_key self.now pick }
        ensures none { IfNone result ((is_held self.now.hold ≡ true) ⊎ (waiting_of self.now ≡ [])) }
    {
        if self.held() {
            return None;
        }
        self.waiting_choice(pick)
    }

    fn waiting_choice(&self, pick: Pick) -> Option<Key>
        ensures { result ≡ key_at_if (waiting_of self.now) (chosen_place pick (entries_in (waiting_of self.now))) }
    {
        let arrivals = self.arrivals.as_slice();
        let place = runnable_place(&self.entries, arrivals, self.current, pick)?;
        key_at(&self.entries, arrivals, self.current, place)
    }

    /// Whether the waiting command of this key may run.
    pub fn may_run(&self, key: Key) -> bool
        ensures { result ≡ may_run_key self.now key }
    {
        let arrivals = self.arrivals.as_slice();
        let standing = place_standing(&self.entries, arrivals, self.current, key);
        match last_head(&self.entries, arrivals, self.current) {
            Some(head) => head == standing.place,
            None => standing.runs,
        }
    }

    /// The waiting command of this key becomes the current one, where there is none.
    pub fn start(&mut self, key: Key)
        requires live { has_key self.old.arrived key ≡ true }
        requires none { self.old.current ≡ None }
        ensures exact { self.new ≡ queue_started self.old key }
        ensures waiting { waiting_of self.new ≡ without_key (waiting_of self.old) key }
    {
        lower_later(&self.entries, self.arrivals.as_mut_slice(), key);
        self.current = Some(key);
    }

    /// The live command of this key leaves.
    pub fn remove(&mut self, key: Key) -> Entry
        requires live { has_key self.old.arrived key ≡ true }
        ensures entry { entry_at self.old.arrived key ≡ Some result }
        ensures exact { self.new ≡ queue_without self.old key }
        ensures waiting { waiting_of self.new ≡ without_key (waiting_of self.old) key }
        ensures one { length self.new.arrived + 1 ≡ length self.old.arrived }
    {
        if is_current(self.current, key) {
            self.remove_current(key)
        } else {
            self.remove_waiting(key)
        }
    }

    fn remove_current(&mut self, key: Key) -> Entry
        requires current { self.old.current ≡ Some key }
        ensures entry { entry_at self.old.arrived key ≡ Some result }
        ensures exact { self.new ≡ queue_left self.old key None }
        ensures one { length self.new.arrived + 1 ≡ length self.old.arrived }
    {
        self.current = None;
        self.arrivals.retain(|arrival| arrival.key != key);
        self.entries.remove(key)
    }

    fn remove_waiting(&mut self, key: Key) -> Entry
        requires live { has_key self.old.arrived key ≡ true }
        requires waits { is_current_key self.old.current key ≡ false }
        ensures entry { entry_at self.old.arrived key ≡ Some result }
        ensures exact { self.new ≡ queue_left self.old key self.old.current }
        ensures one { length self.new.arrived + 1 ≡ length self.old.arrived }
    {
        lower_later(&self.entries, self.arrivals.as_mut_slice(), key);
        self.arrivals.retain(|arrival| arrival.key != key);
        self.entries.remove(key)
    }

    /// The live commands of one initiator leave, or all; returns how many they were.
    pub fn clear_of(&mut self, who: Option<Dev>) -> usize
        ensures exact { self.new ≡ queue_cleared_of self.old (those_of who) }
        ensures count { result + length self.new.arrived ≡ length self.old.arrived }
    {
        match who {
            Some(dev) => self.clear(Those::Of(dev)),
            None => self.clear(Those::All),
        }
    }

    /// These live commands leave; returns how many they were.
    #[tactic(auto, using(crate::proofs::Clearing::cleared_without))]
    pub fn clear(&mut self, who: Those) -> usize
        ensures exact { self.new ≡ queue_cleared_of self.old who }
        ensures count { result + length self.new.arrived ≡ length self.old.arrived }
    {
        let before = self.live_count();
        while let Some(key) = self.first_of(who) {
            self.remove(key);
        }
        before - self.live_count()
    }

    fn live_count(&self) -> usize
        ensures { result ≡ length self.now.arrived }
    {
        self.arrivals.len()
    }

    fn first_of(&self, who: Those) -> Option<Key>
        ensures live { IfSome result (λ key. has_key self.now.arrived key ≡ true) }
        ensures theirs { IfSome result (λ key. AreOf who key self.now.arrived) }
        ensures none { IfNone result (queue_cleared_of self.now who ≡ self.now) }
    {
        first_of(&self.entries, self.arrivals.as_slice(), who)
    }

    /// Whether one of the live commands is such a one.
    pub fn has_any(&self, who: Those) -> bool
        ensures { result ≡ any_of who self.now.arrived }
    {
        first_of(&self.entries, self.arrivals.as_slice(), who).is_some()
    }

    /// An initiator enters the hold.
    pub fn hold(&mut self, dev: Dev)
        requires device { dev < 8 }
        ensures { self.new ≡ with_held self.old dev true }
    {
        self.hold[dev as usize] = true;
    }

    /// An initiator leaves the hold.
    pub fn release(&mut self, dev: Dev)
        requires device { dev < 8 }
        ensures { self.new ≡ with_held self.old dev false }
    {
        self.hold[dev as usize] = false;
    }

    /// Every initiator leaves the hold.
    pub fn release_all(&mut self)
        ensures { self.new ≡ with_none_held self.old }
    {
        self.hold = [false; 8];
    }

    /// Whether an initiator stands in the hold.
    pub fn holds(&self, dev: Dev) -> bool
        requires device { dev < 8 }
        ensures { result ≡ slice_index_or self.now.hold dev false }
    {
        self.hold[dev as usize]
    }

    /// Whether any initiator stands in the hold.
    pub fn held(&self) -> bool
        ensures { result ≡ is_held self.now.hold }
    {
        self.hold.iter().any(|held| *held)
    }

    /// The live command of this key.
    pub fn entry(&self, key: Key) -> &Entry
        requires live { has_key self.now.arrived key ≡ true }
        ensures { entry_at self.now.arrived key ≡ Some result.now }
    {
        &self.entries[key]
    }

    /// The key of the first live command, in order of arrival, of an initiator and with this tag, or without one.
    pub fn find(&self, from: Dev, tag: Option<u8>) -> Option<Key>
        ensures { result ≡ first_key_of self.now.arrived from tag }
    {
        key_of(&self.entries, self.arrivals.as_slice(), from, tag)
    }

    /// Whether there are as many live commands as its depth.
    pub fn is_full(&self) -> bool
        ensures { result ≡ not (nat_lt (length self.now.arrived) self.now.depth) }
    {
        !(self.live_count() < self.depth)
    }

    /// Whether there is no live command.
    pub fn is_empty(&self) -> bool
        ensures { result ≡ (length self.now.arrived == 0) }
    {
        self.live_count() == 0
    }

    /// The key of the first live command of a process.
    pub fn find_process(&self, id: ProcId) -> Option<Key>
        ensures { result ≡ first_of_process self.now.arrived id }
    {
        key_of_process(&self.entries, self.arrivals.as_slice(), id)
    }
}
