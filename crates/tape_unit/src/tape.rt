//! A tape, and what its commands are made of.
ghost use Rattle.std.specs.Prelude.{◌≡◌, ℕ, ◌+◌, ◌-◌, ◌*◌, ◌<◌, ◌≤◌, [], ◌∷◌, ◌++◌, List, None, Some, IfOk, MatchOption, length, take, drop, vec_len, vec_capacity};
ghost use Rattle.array_model.specs.Reels.{block, filemarks, blocks_of, block_at, bytes_from, way_from, AreWhole, over_blocks as blocks_passed, over_filemarks as filemarks_passed};
ghost use Rattle.tape_unit.specs.Tape.{blank_tape, at, cut, with_objects};
ghost use Rattle.tape_unit.specs.Stored.{Store, seen, with_tape, with_blocks, block_entries, filemark_entries};

use super::stored::{StoredObject, add_blocks, add_bytes, add_filemarks, bytes_before, part};
use super::walk::{over_blocks, over_filemarks};
use array_model::Walk;
use bus_base::NoMemory;
use disk_unit::copy_from;
use std::alloc::Global;
use std::marker::Model;

/// A tape with blocks of one size. It has room for its objects from the beginning.
#[derive(Drop)]
pub struct TapeMedium {
    capacity: u32,
    size: usize,
    // How many objects stand before the position.
    position: u32,
    // How many blocks may still be added.
    spare: u32,
    objects: Vec<StoredObject>,
    // The bytes of all blocks, one after the other.
    bytes: Vec<u8>,
}

impl Model for TapeMedium {
    ghost use Rattle.std.specs.Prelude.{vec_capacity};
    ghost use Rattle.tape_unit.specs.Stored.{Store, IsStored, objects_of};

    ghost Value = { Store };

    ghost view = { λ t. record {
      tape = record {
        capacity = t.capacity;
        size = t.size;
        reel = record { objects = objects_of t.size t.objects.items t.bytes.items; position = t.position };
      };
      spare = t.spare;
    } };

    ghost invariant = { λ t. IsStored t.capacity t.size t.spare t.position t.objects.items t.bytes.items
        (vec_capacity t.objects) (vec_capacity t.bytes) };
}

impl TapeMedium {
    /// A tape with nothing on it, at its beginning: for so many objects at most, all of which may be filemarks, and
    /// with memory for so many blocks of this size, or as many as it can hold.
    pub fn new(
        alloc: Global,
        objects: u32,
        size: usize,
        marks: u32,
        blocks: u32,
    ) -> Result<TapeMedium, NoMemory>
        requires all_marks { marks ≡ objects }
        requires some { 1 ≤ objects }
        requires most { objects ≤ 65536 }
        requires least_size { 16 ≤ size }
        requires most_size { size ≤ 2048 }
        ensures { IfOk result (λ made. made ≡ record { tape = blank_tape objects size; spare = blocks }) }
    {
        Ok(TapeMedium {
            capacity: objects,
            size,
            position: 0,
            spare: blocks,
            objects: Vec::with_capacity(alloc, marks as usize)?,
            bytes: Vec::with_capacity(alloc, blocks.min(objects) as usize * size)?,
        })
    }

    /// For how many objects it has room in all.
    pub fn capacity(&self) -> u32
        ensures exact { result ≡ self.now.tape.capacity }
        ensures most { self.now.tape.capacity ≤ 65536 }
    {
        self.capacity
    }

    /// How many bytes a block has.
    pub fn size(&self) -> u32
        ensures exact { result ≡ self.now.tape.size }
        ensures most { self.now.tape.size ≤ 2048 }
        ensures whole { AreWhole self.now.tape.size self.now.tape.reel.objects }
        ensures few { length self.now.tape.reel.objects ≤ 65536 }
    {
        self.size as u32
    }

    /// How many objects stand before its position.
    pub fn position(&self) -> u32
        ensures exact { result ≡ self.now.tape.reel.position }
        ensures within { self.now.tape.reel.position ≤ length self.now.tape.reel.objects }
        ensures few { length self.now.tape.reel.objects ≤ 65536 }
    {
        self.position
    }

    /// How many objects stand on it.
    pub fn len(&self) -> u32
        ensures { result ≡ length self.now.tape.reel.objects }
    {
        self.objects.len() as u32
    }

    /// The bytes of a block, by the number of objects before it; none where a filemark stands there.
    pub fn object(&self, n: u32) -> Option<&[u8]>
        requires { n < length self.now.tape.reel.objects }
        ensures { MatchOption result (block_at self.now.tape.reel.objects n ≡ None)
            (λ bytes. block_at self.now.tape.reel.objects n ≡ Some bytes.now) }
    {
        let objects = self.objects.as_slice();
        let place = n as usize;
        if objects[place].is_filemark {
            return None;
        }
        let first = objects[place].before as usize * self.size;
        Some(part(self.bytes.as_slice(), first, self.size))
    }

    /// Adds a block behind the last object. The position stays.
    pub fn load_block(&mut self, bytes: &[u8])
        requires whole { length bytes.now ≡ self.old.tape.size }
        requires room { length self.old.tape.reel.objects < self.old.tape.capacity }
        requires spare { 1 ≤ self.old.spare }
        ensures { self.new ≡ with_blocks self.old 1 bytes.now }
    {
        self.add_blocks(1, bytes);
    }

    /// Adds a filemark behind the last object. The position stays.
    pub fn load_mark(&mut self)
        requires { length self.old.tape.reel.objects < self.old.tape.capacity }
        ensures { self.new ≡ with_tape self.old (with_objects self.old.tape (filemarks 1)) }
    {
        self.add_filemarks(1);
    }

    // How many objects may be added from the position on.
    pub(super) fn room(&self) -> u32
        ensures exact { result ≡ self.now.tape.capacity - self.now.tape.reel.position }
        ensures most { result ≤ 65536 }
        ensures within { self.now.tape.reel.position ≤ self.now.tape.capacity }
    {
        self.capacity - self.position
    }

    // How many blocks may still be added.
    pub(super) fn spare_blocks(&self) -> u32
        ensures { result ≡ self.now.spare }
    {
        self.spare
    }

    // What stands on one side of the position.
    fn side(&self, forward: bool) -> &[StoredObject]
        ensures seen { seen forward result.now ≡ way_from self.now.tape.reel forward }
        ensures few { length result.now ≤ 65536 }
    {
        let position = self.position as usize;
        if forward {
            &self.objects.as_slice()[position..]
        } else {
            &self.objects.as_slice()[..position]
        }
    }

    // A walk over so many blocks, from the position on or back from it.
    pub(super) fn over_blocks(&self, forward: bool, count: u32) -> Walk
        ensures exact { result ≡ blocks_passed (way_from self.now.tape.reel forward) count }
        ensures most { result.moved ≤ count }
        ensures within { result.passed ≤ length (way_from self.now.tape.reel forward) }
    {
        over_blocks(self.side(forward), forward, count)
    }

    // A walk over so many filemarks.
    pub(super) fn over_filemarks(&self, forward: bool, count: u32) -> Walk
        ensures exact { result ≡ filemarks_passed (way_from self.now.tape.reel forward) count }
        ensures most { result.moved ≤ count }
        ensures within { result.passed ≤ length (way_from self.now.tape.reel forward) }
    {
        over_filemarks(self.side(forward), forward, count)
    }

    // Some of the bytes of the blocks from the position on, those from `at` on.
    pub(super) fn copy_ahead(&self, at: u32, into: &mut [u8])
        requires { at + length into.old ≤ length (bytes_from self.now.tape.reel) }
        ensures { into.new ≡ take (length into.old) (drop at (bytes_from self.now.tape.reel)) }
    {
        let all = self.bytes.len();
        let first = bytes_before(self.objects.as_slice(), self.position, self.size, all);
        copy_from(self.bytes.as_slice(), first + at as usize, into);
    }

    // Moves to this position.
    pub(super) fn move_to(&mut self, position: u32)
        requires { position ≤ length self.old.tape.reel.objects }
        ensures { self.new ≡ with_tape self.old (at self.old.tape position) }
    {
        self.position = position;
    }

    // Takes off what stands behind the position.
    pub(super) fn cut(&mut self)
        ensures exact { self.new ≡ with_tape self.old (cut self.old.tape) }
        ensures within { self.old.tape.reel.position ≤ length self.old.tape.reel.objects }
    {
        let all = self.bytes.len();
        let first = bytes_before(self.objects.as_slice(), self.position, self.size, all);
        self.objects.truncate(self.position as usize);
        self.bytes.truncate(first);
    }

    // So many blocks more behind the last object.
    pub(super) fn add_blocks(&mut self, count: u32, bytes: &[u8])
        requires whole { length bytes.now ≡ count * self.old.tape.size }
        requires room { length self.old.tape.reel.objects + count ≤ self.old.tape.capacity }
        requires spare { count ≤ self.old.spare }
        ensures { self.new ≡ with_blocks self.old count bytes.now }
    {
        let before = (self.bytes.len() / self.size) as u32;
        add_blocks(&mut self.objects, before, count);
        add_bytes(&mut self.bytes, bytes);
        self.spare -= count;
    }

    // So many filemarks more behind the last object.
    pub(super) fn add_filemarks(&mut self, count: u32)
        requires { length self.old.tape.reel.objects + count ≤ self.old.tape.capacity }
        ensures { self.new ≡ with_tape self.old (with_objects self.old.tape (filemarks count)) }
    {
        let before = (self.bytes.len() / self.size) as u32;
        add_filemarks(&mut self.objects, before, count);
    }
}
