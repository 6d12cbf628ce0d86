//! What a logical unit keeps of its commands, and for each initiator.
ghost use Rattle.std.specs.Prelude.{◌≡◌, ℕ, ◌⊎◌, ◌+◌, ◌==◌, not, nat_lt, ◌<◌, ◌≤◌, Bool, true, false, [], length, Some, None, IfOk, IfSome, IfNone, OnOk, OnErr, slice_index_or, slice_set, replicate, is_some};
ghost use Rattle.tag_queue.specs.Queue.{has_key, entry_at, is_held, key_of, key_of_process as first_of_process, waiting_of};
ghost use Rattle.disk_unit.specs.Books.{empty_books, block_at, books_with, choice_of, books_after_choice, books_without, books_with_sense, books_without_sense, sense_or_none, books_with_status, books_after_end, books_without_attention, books_after_abort, books_after_abort_tag, books_after_reset, books_without_those, initiator_at, IsCleared, is_told};
ghost use Rattle.array_model.specs.Steps.{is_reset_pending as reset_pending};
ghost use Rattle.array_model.specs.Seats.{attention_if_told};

use super::command_block::CommandBlock;
use bus_base::NoMemory;
use cdb_codec::{COMMANDS_CLEARED, RESET_OCCURRED, Sense, UNIT_ATTENTION};
use std::alloc::Global;
use std::marker::Model;
use tag_queue::{Dev, Entry, Full, Key, Pick, ProcId, Queue, Those};

/// The commands that wait or are current, with their command descriptor blocks, the hold, and for each of the eight
/// initiators its stored sense and its pending attention.
#[derive(Drop)]
pub struct Books {
    queue: Queue,
    // By key.
    blocks: Vec<CommandBlock>,
    // By initiator.
    senses: [Option<Sense>; 8],
    attentions: [Option<Sense>; 8],
}

impl Model for Books {
    ghost use Rattle.std.specs.Prelude.{length, ◌≤◌};
    ghost use Rattle.disk_unit.specs.Books.{UnitBooks};

    ghost Value = { UnitBooks };

    ghost use Rattle.disk_unit.specs.Books.{blocks_of, AreBounded};

    ghost view = { λ b. record {
      queue = b.queue;
      blocks = blocks_of b.blocks.items;
      senses = b.senses;
      attentions = b.attentions;
    } };

    ghost invariant = { λ b. (b.queue.keys ≤ length b.blocks.items) × AreBounded b.queue.keys b.queue.arrived };
}

impl Books {
    /// Nothing, for `depth` commands. It takes all the memory that it ever has.
    pub fn new(alloc: Global, depth: usize) -> Result<Books, NoMemory>
        ensures { IfOk result (λ made. made ≡ empty_books depth made.queue.keys made.blocks) }
    {
        let queue = Queue::new(alloc, depth)?;
        let blocks = vec![in alloc; CommandBlock::empty(); queue.keys()]?;
        Ok(Books {
            queue,
            blocks,
            senses: [None; 8],
            attentions: [None; 8],
        })
    }

    /// A command arrives, and waits as the last one.
    pub fn enter(&mut self, entry: Entry, cdb: &[u8]) -> Result<Key, Full>
        requires device { entry.from < 8 }
        requires most { length cdb.now ≤ 10 }
        ensures full { OnErr result (length self.old.queue.arrived ≡ self.old.queue.depth) }
        ensures unchanged { OnErr result (self.new ≡ self.old) }
        ensures below { OnOk result (length self.old.queue.arrived < self.old.queue.depth) }
        ensures fresh { IfOk result (λ key. has_key self.old.queue.arrived key ≡ false) }
        ensures place { IfOk result (λ key. key < length self.old.blocks) }
        ensures entered { IfOk result (λ key. self.new ≡ books_with self.old key entry cdb.now) }
    {
        let key = self.queue.enter(entry)?;
        self.blocks[key] = CommandBlock::new(cdb);
        Ok(key)
    }

    /// The waiting command that is chosen becomes current; returns its key.
    pub fn choose(&mut self, pick: Pick) -> Option<Key>
        ensures key { result ≡ choice_of self.old pick }
        ensures exact { self.new ≡ books_after_choice self.old pick }
    {
        if self.queue.current().is_some() {
            return None;
        }
        let key = self.queue.choose(pick)?;
        self.queue.start(key);
        Some(key)
    }

    /// The key of the current command.
    pub fn current(&self) -> Option<Key>
        ensures exact { result ≡ self.now.queue.current }
        ensures live { IfSome result (λ key. has_key self.now.queue.arrived key ≡ true) }
    {
        self.queue.current()
    }

    /// Whether there are as many live commands as the depth of the queue.
    pub fn is_full(&self) -> bool
        ensures { result ≡ not (nat_lt (length self.now.queue.arrived) self.now.queue.depth) }
    {
        self.queue.is_full()
    }

    /// Whether there is no live command.
    pub fn is_empty(&self) -> bool
        ensures { result ≡ (length self.now.queue.arrived == 0) }
    {
        self.queue.is_empty()
    }

    /// The key of the first live command of a process.
    pub fn find(&self, id: ProcId) -> Option<Key>
        ensures { result ≡ first_of_process self.now.queue.arrived id }
    {
        self.queue.find_process(id)
    }

    /// What the queue keeps of the live command of this key.
    pub fn entry(&self, key: Key) -> &Entry
        requires live { has_key self.now.queue.arrived key ≡ true }
        ensures { entry_at self.now.queue.arrived key ≡ Some result.now }
    {
        self.queue.entry(key)
    }

    /// The command descriptor block of the live command of this key.
    pub fn block(&self, key: Key) -> &[u8]
        requires live { has_key self.now.queue.arrived key ≡ true }
        ensures { result.now ≡ block_at self.now key }
    {
        self.blocks[key].as_slice()
    }

    /// The live command of this key leaves.
    pub fn remove(&mut self, key: Key) -> Entry
        requires live { has_key self.old.queue.arrived key ≡ true }
        ensures entry { entry_at self.old.queue.arrived key ≡ Some result }
        ensures device { result.from < 8 }
        ensures exact { self.new ≡ books_without self.old key }
    {
        self.queue.remove(key)
    }

    /// A sense is stored for an initiator, which enters the hold.
    pub fn store_sense(&mut self, dev: Dev, sense: Sense)
        requires device { dev < 8 }
        ensures { self.new ≡ books_with_sense self.old dev sense }
    {
        self.senses[dev as usize] = Some(sense);
        self.queue.hold(dev);
    }

    /// The sense of an initiator goes, and the initiator leaves the hold.
    pub fn clear_sense(&mut self, dev: Dev)
        requires device { dev < 8 }
        ensures { self.new ≡ books_without_sense self.old dev }
    {
        self.senses[dev as usize] = None;
        self.queue.release(dev);
    }

    /// The stored sense of an initiator.
    pub fn sense(&self, dev: Dev) -> Option<Sense>
        requires device { dev < 8 }
        ensures { result ≡ slice_index_or self.now.senses dev None }
    {
        self.senses[dev as usize]
    }

    /// The pending attention of an initiator.
    pub fn attention(&self, dev: Dev) -> Option<Sense>
        requires device { dev < 8 }
        ensures { result ≡ slice_index_or self.now.attentions dev None }
    {
        self.attentions[dev as usize]
    }

    /// The attention of an initiator was reported.
    pub fn clear_attention(&mut self, dev: Dev)
        requires device { dev < 8 }
        ensures { self.new ≡ books_without_attention self.old dev }
    {
        self.attentions[dev as usize] = None;
    }

    /// Whether an initiator stands in the hold.
    pub fn holds(&self, dev: Dev) -> bool
        requires device { dev < 8 }
        ensures { result ≡ slice_index_or self.now.queue.hold dev false }
    {
        self.queue.holds(dev)
    }

    /// Whether any does.
    pub fn held(&self) -> bool
        ensures { result ≡ is_held self.now.queue.hold }
    {
        self.queue.held()
    }

    /// ABORT of an initiator: its commands and its sense go, and it leaves the hold.
    pub fn abort(&mut self, dev: Dev)
        requires device { dev < 8 }
        ensures { self.new ≡ books_after_abort self.old dev }
    {
        self.clear(Those::Of(dev));
        self.clear_sense(dev);
    }

    /// ABORT TAG of an initiator: its commands with this tag go.
    pub fn abort_tag(&mut self, dev: Dev, tag: u8)
        ensures { self.new ≡ books_after_abort_tag self.old dev tag }
    {
        self.clear(Those::Tagged(dev, tag));
    }

    fn clear(&mut self, who: Those)
        ensures { self.new ≡ books_without_those self.old who }
    {
        let _ = self.queue.clear(who);
    }

    /// CLEAR QUEUE of an initiator: all commands go, and each other initiator that lost one is told of it.
    pub fn clear_queue(&mut self, by: Dev)
        ensures { IsCleared by self.old self.new }
    {
        tell_all(&self.queue, by, &mut self.attentions);
        self.clear(Those::All);
    }

    /// The initiator of the live command of this key.
    pub fn initiator(&self, key: Key) -> Dev
        requires live { has_key self.now.queue.arrived key ≡ true }
        ensures exact { result ≡ initiator_at self.now key }
        ensures device { result < 8 }
    {
        self.queue.entry(key).from
    }

    /// All commands, senses and holds go, and every initiator has the attention of a reset.
    pub fn reset(&mut self)
        ensures { self.new ≡ books_after_reset self.old }
    {
        self.clear(Those::All);
        self.queue.release_all();
        self.senses = [None; 8];
        self.attentions = [Some(RESET); 8];
    }
}

/// The attention of a reset.
const RESET: Sense = Sense {
    key: UNIT_ATTENTION,
    asc: RESET_OCCURRED,
    ascq: 0x00,
    marks: 0x00,
    residue: None,
};

// Each other initiator that has a command in the queue is told that it is cleared.
fn tell_all(queue: &Queue, by: Dev, attentions: &mut [Option<Sense>; 8])
    ensures eight { length attentions.new ≡ 8 }
    ensures told { (dev : ℕ) → dev < 8 → slice_index_or attentions.new dev None
        ≡ attention_if_told (is_told by queue.now.arrived dev) (slice_index_or attentions.old dev None) }
{
    for dev in 0..8 {
        let attention = attentions[dev as usize];
        attentions[dev as usize] = attention_told(queue, by, dev, attention);
    }
}

// The attention of an initiator, once it is told where it has a command in the queue.
fn attention_told(queue: &Queue, by: Dev, dev: Dev, attention: Option<Sense>) -> Option<Sense>
    ensures { result ≡ attention_if_told (is_told by queue.now.arrived dev) attention }
{
    after_clear(queue.has_any(Those::Of(dev)) && dev != by, attention)
}

// What an attention is after a clearing, of which its initiator is told or not.
fn after_clear(told: bool, attention: Option<Sense>) -> Option<Sense>
    ensures { result ≡ attention_if_told told attention }
{
    if told && !is_reset_pending(attention) {
        Some(Sense::plain(UNIT_ATTENTION, COMMANDS_CLEARED, 0x00))
    } else {
        attention
    }
}

fn is_reset_pending(attention: Option<Sense>) -> bool
    ensures { result ≡ reset_pending attention }
{
    match attention {
        Some(sense) => sense.asc == RESET_OCCURRED,
        None => false,
    }
}
