//! A logical unit: its medium, its queue, and what it keeps for each initiator.
ghost use Rattle.std.specs.Prelude.{◌≡◌, ℕ, ◌+◌, ◌*◌, ◌<◌, ◌≤◌, ◌==◌, not, nat_lt, Bool, true, false, List, [], length, take, drop, Option, Some, None, IfOk, IfSome, is_some, slice_index_or, if◌then◌else◌};
ghost use Rattle.cdb_codec.specs.Cdb.{command_of};
ghost use Rattle.array_model.specs.declared.entries.Entry.{Entry};
ghost use Rattle.array_model.specs.Execution.{Reply as ArrayReply, aborted_reply, check_condition, queue_full, is_request_sense as requests_sense, heeds_attention as heeds};
ghost use Rattle.tag_queue.specs.Queue.{has_key, entry_at, is_held, key_of_process};
ghost use Rattle.disk_unit.specs.Plans.{plan_of};
ghost use Rattle.disk_unit.specs.Books.{UnitBooks, empty_books, block_at, books_with, choice_of, books_after_choice, books_without, books_with_sense, books_without_sense, sense_or_none, books_after_end, books_without_attention, books_after_abort, books_after_reset, initiator_at, attention_at};
ghost use Rattle.disk_unit.specs.Units.{is_reported, reply_with, entry_with, told_of, planned_reply, IsAccepted, books_if_reported, unit_reply, unit_plan, bytes_taken, plan_for, IsAborted};

use super::books::Books;
use super::media::{Extent, Medium, Plan};
use bus_base::{AbortKind, NoMemory};
use cdb_codec::{
    ABORTED_COMMAND, CHECK_CONDITION, CdbFault, Command, INQUIRY, NO_ADDITIONAL_SENSE, NO_SENSE,
    QUEUE_FULL, REQUEST_SENSE, Sense, from_cdb,
};
use std::alloc::Global;
use tag_queue::{Class, Dev, Entry, Full, Key, Pick, ProcId};

/// How a command arrived.
#[derive(Clone, Copy, Debug, PartialEq, Eq)]
pub enum Accepted {
    /// It is in the queue, under this key.
    Queued(Key),
    /// It is a REQUEST SENSE, which runs at once.
    AtOnce,
    /// The queue is at its depth.
    Full,
}

/// How a command ended.
#[derive(Clone, Copy, Debug, PartialEq, Eq)]
pub struct Reply {
    /// Its status (ANSI X3.131-1994, 7.3).
    pub status: u8,
    /// How many bytes it gave.
    pub len: usize,
    /// Its sense, exactly where the status is CHECK CONDITION.
    pub sense: Option<Sense>,
}

/// A logical unit over a medium.
#[derive(Drop)]
pub struct Unit<M> {
    medium: M,
    books: Books,
}

// REQUEST SENSE without fault.
fn is_request_sense(command: Result<Command, CdbFault>) -> bool
    ensures { result ≡ requests_sense command }
{
    matches!(command, Ok(Command::RequestSense { room: _ }))
}

/// Every command but INQUIRY and REQUEST SENSE reports an attention.
pub fn heeds_attention(cdb: &[u8]) -> bool
    ensures { result ≡ heeds cdb.now }
{
    match cdb.first() {
        Some(code) => *code != INQUIRY && *code != REQUEST_SENSE,
        None => true,
    }
}

// The attention that the command reports.
fn reported(attention: Option<Sense>, cdb: &[u8]) -> Option<Sense>
    ensures { result ≡ (if is_reported attention cdb.now then attention else None) }
{
    let attention = attention?;
    if heeds_attention(cdb) {
        Some(attention)
    } else {
        None
    }
}

fn entry_of(id: ProcId, from: Dev, tag: Option<u8>, class: Class, extent: Extent) -> Entry
    ensures { result ≡ entry_with id from tag class extent }
{
    Entry {
        id,
        from,
        tag,
        class,
        first: extent.first,
        count: extent.count,
        writes: extent.writes,
    }
}

impl<M: Medium + Drop> Unit<M> {
    /// A unit over this medium, whose queue has room for `depth` commands. It takes all the memory that it ever has.
    pub fn new(alloc: Global, medium: M, depth: usize) -> Result<Unit<M>, NoMemory>
        ensures medium { IfOk result (λ made. made.medium ≡ medium) }
        ensures books { IfOk result (λ made. made.books ≡ empty_books depth made.books.queue.keys made.books.blocks) }
    {
        let books = Books::new(alloc, depth)?;
        Ok(Unit { medium, books })
    }
}

/// The reply of a command that ends by its plan.
pub fn planned_reply(plan: Plan) -> Reply
    ensures { result ≡ planned_reply plan }
{
    Reply {
        status: plan.status,
        len: plan.in_len as usize,
        sense: plan.sense,
    }
}

/// The reply of a command that its target aborts, with this additional sense code (8.2.14.3).
pub fn aborted_reply(code: u8) -> Reply
    ensures { result ≡ told_of (aborted_reply code) }
{
    Reply {
        status: CHECK_CONDITION,
        len: 0,
        sense: Some(Sense::plain(ABORTED_COMMAND, code, 0x00)),
    }
}

/// The reply of a command for which the queue has no room (7.3, 7.8.2).
pub fn refusal() -> Reply
    ensures { result ≡ told_of queue_full }
{
    Reply {
        status: QUEUE_FULL,
        len: 0,
        sense: None,
    }
}

// How a command ends that reports this attention.
fn attention_plan(attention: Sense) -> Plan
    ensures { result ≡ plan_of (check_condition attention) 0 }
{
    Plan {
        status: CHECK_CONDITION,
        sense: Some(attention),
        in_len: 0,
        out_len: 0,
    }
}

impl<M: Medium> Unit<M> {
    /// A command arrives: it waits as the last one, or is a REQUEST SENSE that runs at once, or the queue is at its
    /// depth.
    pub fn accept(
        &mut self,
        id: ProcId,
        from: Dev,
        tag: Option<u8>,
        class: Class,
        cdb: &[u8],
    ) -> Accepted
        requires device { from < 8 }
        requires most { length cdb.now ≤ 10 }
        ensures books { IsAccepted (requests_sense (command_of cdb.now)) self.old.books
            (entry_with id from tag class (M.named_by self.old.medium cdb.now)) cdb.now self.new.books result }
        ensures medium { self.new.medium ≡ self.old.medium }
    {
        if is_request_sense(from_cdb(cdb)) {
            return Accepted::AtOnce;
        }
        let entry = entry_of(id, from, tag, class, self.medium.extent(cdb));
        match self.books.enter(entry, cdb) {
            Ok(key) => Accepted::Queued(key),
            Err(_) => Accepted::Full,
        }
    }

    // The attention that the live command of this key reports.
    fn reported_by(&self, key: Key) -> Option<Sense>
        requires live { has_key self.now.books.queue.arrived key ≡ true }
        ensures { result ≡ (if is_reported (attention_at self.now.books key) (block_at self.now.books key)
            then attention_at self.now.books key else None) }
    {
        let attention = self.books.attention(self.books.initiator(key));
        reported(attention, self.books.block(key))
    }

    /// How the live command of this key would end if it ran now.
    pub fn plan(&self, key: Key) -> Plan
        requires live { has_key self.now.books.queue.arrived key ≡ true }
        ensures { result ≡ unit_plan self.now.books key (M.reply_to self.now.medium (block_at self.now.books key))
            (M.taken_by self.now.medium (block_at self.now.books key)) }
    {
        match self.reported_by(key) {
            Some(attention) => attention_plan(attention),
            None => self.medium.plan(self.books.block(key)),
        }
    }

    /// The bytes of the reply that the live command of this key would have now, from `at` on, as many as `into` has.
    pub fn fetch(&self, key: Key, at: u32, into: &mut [u8])
        requires live { has_key self.now.books.queue.arrived key ≡ true }
        requires within { at + length into.old ≤ length (unit_reply self.now.books key
            (M.reply_to self.now.medium (block_at self.now.books key))).bytes }
        ensures { into.new ≡ take (length into.old) (drop at (unit_reply self.now.books key
            (M.reply_to self.now.medium (block_at self.now.books key))).bytes) }
    {
        if self.reported_by(key).is_none() {
            self.medium.fetch(self.books.block(key), at, into);
        }
    }

    /// The live command of this key runs: the attention of its initiator is reported, or the medium changes as the
    /// command says, with the bytes that it sent.
    pub fn run(&mut self, key: Key, sent: &[u8]) -> Reply
        requires live { has_key self.old.books.queue.arrived key ≡ true }
        requires whole { length sent.now ≡ bytes_taken self.old.books key
            (M.taken_by self.old.medium (block_at self.old.books key)) }
        requires room { M.written_by self.old.medium (block_at self.old.books key) ≤ M.spare_blocks self.old.medium }
        ensures reply { result ≡ told_of (unit_reply self.old.books key
            (M.reply_to self.old.medium (block_at self.old.books key))) }
        ensures books { self.new.books ≡ books_if_reported self.old.books
            (is_reported (attention_at self.old.books key)
            (block_at self.old.books key)) (initiator_at self.old.books key) }
        ensures reported { is_reported (attention_at self.old.books key) (block_at self.old.books key) ≡ true
            → self.new.medium ≡ self.old.medium }
        ensures unchanged { M.is_changed_by self.old.medium (block_at self.old.books key) ≡ false
            → self.new.medium ≡ self.old.medium }
        ensures changed { is_reported (attention_at self.old.books key) (block_at self.old.books key) ≡ false
            → M.is_changed_by self.old.medium (block_at self.old.books key) ≡ true
            → M.Becomes self.old.medium (block_at self.old.books key) sent.now self.new.medium }
        ensures lowered { M.spare_blocks self.old.medium
            ≤ M.spare_blocks self.new.medium + M.written_by self.old.medium (block_at self.old.books key) }
    {
        match self.reported_by(key) {
            Some(attention) => {
                self.books.clear_attention(self.books.initiator(key));
                planned_reply(attention_plan(attention))
            }
            None => {
                let reply = planned_reply(self.medium.plan(self.books.block(key)));
                self.commit(key, sent);
                reply
            }
        }
    }

    fn commit(&mut self, key: Key, sent: &[u8])
        requires live { has_key self.old.books.queue.arrived key ≡ true }
        requires whole { length sent.now ≡ M.taken_by self.old.medium (block_at self.old.books key) }
        requires room { M.written_by self.old.medium (block_at self.old.books key) ≤ M.spare_blocks self.old.medium }
        ensures books { self.new.books ≡ self.old.books }
        ensures unchanged { M.is_changed_by self.old.medium (block_at self.old.books key) ≡ false
            → self.new.medium ≡ self.old.medium }
        ensures changed { M.is_changed_by self.old.medium (block_at self.old.books key) ≡ true
            → M.Becomes self.old.medium (block_at self.old.books key) sent.now self.new.medium }
        ensures lowered { M.spare_blocks self.old.medium
            ≤ M.spare_blocks self.new.medium + M.written_by self.old.medium (block_at self.old.books key) }
    {
        let cdb = self.books.block(key);
        if self.medium.changes(cdb) {
            self.medium.commit(cdb, sent);
        }
    }

    /// The live command of this key ends with this reply: it leaves, and its sense, where it has one, is stored.
    pub fn end(&mut self, key: Key, reply: &Reply)
        requires live { has_key self.old.books.queue.arrived key ≡ true }
        ensures books { self.new.books
            ≡ books_after_end self.old.books key (initiator_at self.old.books key) reply.now.sense }
        ensures medium { self.new.medium ≡ self.old.medium }
    {
        let entry = self.books.remove(key);
        if let Some(sense) = reply.sense {
            self.books.store_sense(entry.from, sense);
        }
    }

    /// An abort message of this initiator.
    pub fn abort(&mut self, kind: AbortKind, by: Dev)
        requires device { by < 8 }
        ensures books { IsAborted kind by self.old.books self.new.books }
        ensures medium { self.new.medium ≡ self.old.medium }
    {
        match kind {
            AbortKind::All => self.books.abort(by),
            AbortKind::Tag(tag) => self.books.abort_tag(by, tag),
            AbortKind::WholeQueue => self.books.clear_queue(by),
            AbortKind::Device => self.books.reset(),
        }
    }

    /// RST, or BUS DEVICE RESET: commands, senses and holds go, and every initiator has the attention of a reset.
    pub fn reset(&mut self)
        ensures books { self.new.books ≡ books_after_reset self.old.books }
        ensures medium { self.new.medium ≡ self.old.medium }
    {
        self.books.reset();
    }

    /// The waiting command that is chosen becomes current; returns its key. `None` where one is current, nothing
    /// waits, or the hold has a member.
    pub fn choose(&mut self, pick: Pick) -> Option<Key>
        ensures key { result ≡ choice_of self.old.books pick }
        ensures books { self.new.books ≡ books_after_choice self.old.books pick }
        ensures medium { self.new.medium ≡ self.old.medium }
    {
        self.books.choose(pick)
    }

    /// The key of the current command.
    pub fn current(&self) -> Option<Key>
        ensures exact { result ≡ self.now.books.queue.current }
        ensures live { IfSome result (λ key. has_key self.now.books.queue.arrived key ≡ true) }
    {
        self.books.current()
    }

    /// Whether there are as many live commands as the depth of the queue.
    pub fn is_full(&self) -> bool
        ensures { result ≡ not (nat_lt (length self.now.books.queue.arrived) self.now.books.queue.depth) }
    {
        self.books.is_full()
    }

    /// Whether there is no live command.
    pub fn is_empty(&self) -> bool
        ensures { result ≡ (length self.now.books.queue.arrived == 0) }
    {
        self.books.is_empty()
    }

    /// The command descriptor block of the live command of this key.
    pub fn block(&self, key: Key) -> &[u8]
        requires live { has_key self.now.books.queue.arrived key ≡ true }
        ensures { result.now ≡ block_at self.now.books key }
    {
        self.books.block(key)
    }

    /// How many blocks the live command of this key writes at most.
    pub fn cost(&self, key: Key) -> u64
        requires live { has_key self.now.books.queue.arrived key ≡ true }
        ensures { result ≡ M.written_by self.now.medium (block_at self.now.books key) }
    {
        self.medium.cost(self.books.block(key))
    }

    /// How a command of an initiator would end if it ran now, whether or not it has arrived.
    pub fn plan_for(&self, dev: Dev, cdb: &[u8]) -> Plan
        requires device { dev < 8 }
        ensures { result ≡ plan_for (slice_index_or self.now.books.attentions dev None) cdb.now
            (M.reply_to self.now.medium cdb.now) (M.taken_by self.now.medium cdb.now) }
    {
        match reported(self.books.attention(dev), cdb) {
            Some(attention) => attention_plan(attention),
            None => self.medium.plan(cdb),
        }
    }

    /// The bytes of the reply that a command of an initiator would have now, from `at` on, as many as `into` has.
    pub fn fetch_for(&self, dev: Dev, cdb: &[u8], at: u32, into: &mut [u8])
        requires device { dev < 8 }
        requires within { at + length into.old ≤ length (reply_with
            (slice_index_or self.now.books.attentions dev None) cdb.now (M.reply_to self.now.medium cdb.now)).bytes }
        ensures { into.new ≡ take (length into.old) (drop at (reply_with
            (slice_index_or self.now.books.attentions dev None) cdb.now (M.reply_to self.now.medium cdb.now)).bytes) }
    {
        if reported(self.books.attention(dev), cdb).is_none() {
            self.medium.fetch(cdb, at, into);
        }
    }

    /// The key of the first live command of a process.
    pub fn find(&self, id: ProcId) -> Option<Key>
        ensures { result ≡ key_of_process self.now.books.queue.arrived id }
    {
        self.books.find(id)
    }

    /// What the queue keeps of the live command of this key.
    pub fn entry(&self, key: Key) -> &Entry
        requires live { has_key self.now.books.queue.arrived key ≡ true }
        ensures { entry_at self.now.books.queue.arrived key ≡ Some result.now }
    {
        self.books.entry(key)
    }

    /// The live command of this key is lost.
    pub fn lose(&mut self, key: Key)
        requires live { has_key self.old.books.queue.arrived key ≡ true }
        ensures books { self.new.books ≡ books_without self.old.books key }
        ensures medium { self.new.medium ≡ self.old.medium }
    {
        let _ = self.books.remove(key);
    }

    /// A guest of this initiator ended with CHECK CONDITION: its sense is stored, and the initiator enters the hold.
    pub fn check_guest(&mut self, dev: Dev, sense: &Sense)
        requires device { dev < 8 }
        ensures books { self.new.books ≡ books_with_sense self.old.books dev sense.now }
        ensures medium { self.new.medium ≡ self.old.medium }
    {
        self.books.store_sense(dev, *sense);
    }

    /// A REQUEST SENSE of this initiator ended with GOOD: its sense goes, and it leaves the hold.
    pub fn sense_ended(&mut self, dev: Dev)
        requires device { dev < 8 }
        ensures books { self.new.books ≡ books_without_sense self.old.books dev }
        ensures medium { self.new.medium ≡ self.old.medium }
    {
        self.books.clear_sense(dev);
    }

    /// The stored sense of an initiator, of key NO SENSE where none is stored.
    pub fn sense_for(&self, dev: Dev) -> Sense
        requires device { dev < 8 }
        ensures { result ≡ sense_or_none (slice_index_or self.now.books.senses dev None) }
    {
        match self.books.sense(dev) {
            Some(sense) => sense,
            None => Sense::plain(NO_SENSE, NO_ADDITIONAL_SENSE, 0x00),
        }
    }

    /// Whether an initiator stands in the hold.
    pub fn holds(&self, dev: Dev) -> bool
        requires device { dev < 8 }
        ensures { result ≡ slice_index_or self.now.books.queue.hold dev false }
    {
        self.books.holds(dev)
    }

    /// Whether any does.
    pub fn held(&self) -> bool
        ensures { result ≡ is_held self.now.books.queue.hold }
    {
        self.books.held()
    }

    /// The medium.
    pub fn medium(&self) -> &M
        ensures { result.now ≡ self.now.medium }
    {
        &self.medium
    }

    /// The medium, handed out.
    pub fn into_medium(self) -> M
        ensures { result ≡ self.medium }
    {
        self.medium
    }
}
