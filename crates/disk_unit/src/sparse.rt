//! Blocks of which those that were written alone take memory.
ghost use Rattle.std.specs.Prelude.{◌≡◌, ℕ, ◌+◌, ◌<◌, ◌≤◌, ◌&&◌, [], List, Option, None, IfOk, OnOk, OnErr, length, replicate, vec_len, vec_capacity, slice_index_or, slice_set};
ghost use Rattle.std.specs.Global.{Vec as Bytes};
ghost use Rattle.std.specs.List.{insert};
ghost use Rattle.array_model.specs.Contents.{blank_contents};
ghost use Rattle.disk_unit.specs.Sparse.{Store, place_in, is_at as is_number_at, AreRising, HaveSize, touched_from};

use super::blocks::{Blocks, copy_from};
use bus_base::NoMemory;
use std::alloc::Global;
use std::marker::Model;

/// Blocks of which those that were written alone take memory; any other is zero.
#[derive(Drop)]
pub struct SparseBlocks {
    alloc: Global,
    count: u64,
    size: usize,
    // The numbers of the blocks that were written, the lowest first, and beside them their bytes.
    numbers: Vec<u32>,
    blocks: Vec<Vec<u8>>,
    // The memory for blocks that are written for the first time.
    pool: Vec<Vec<u8>>,
}

impl Model for SparseBlocks {
    ghost use Rattle.std.specs.Prelude.{vec_capacity, length, None};
    ghost use Rattle.disk_unit.specs.Sparse.{Store};

    ghost Value = { Store };

    ghost use Rattle.disk_unit.specs.Sparse.{touched_of, IsSparse};

    ghost view = { λ s. record {
      contents = record {
        count = s.count;
        size = s.size;
        touched = touched_of s.numbers.items s.blocks.items;
        reel = None;
      };
      spare = length s.pool.items;
    } };

    ghost invariant = { λ s. IsSparse
        s.count s.size s.numbers.items s.blocks.items s.pool.items (vec_capacity s.numbers) (vec_capacity s.blocks) };
}

// How many of the numbers are below this one.
fn place_of(numbers: &[u32], from: u64) -> usize
    requires { AreRising 0 numbers.now }
    ensures exact { result ≡ place_in numbers.now from }
    ensures within { result ≤ length numbers.now }
{
    numbers.partition_point(|number| u64::from(*number) < from)
}

// With room the element stands there, and no memory is taken.
fn insert_within<T: Drop>(list: &mut Vec<T>, at: usize, element: T)
    requires place { at ≤ vec_len list.old }
    requires room { vec_len list.old < vec_capacity list.old }
    ensures items { list.new.items ≡ insert list.old.items at element }
    ensures capacity { vec_capacity list.old ≤ vec_capacity list.new }
{
    let _ = list.insert(at, element);
}

fn blank(into: &mut [u8])
    ensures { into.new ≡ replicate (length into.old) 0 }
{
    into.fill(0);
}

// Whether the number at this place is this one.
#[tactic(auto, using(crate::proofs::Touched::at_is))]
fn is_at(numbers: &[u32], place: usize, lba: u32) -> bool
    ensures { result ≡ is_number_at numbers.now place lba }
{
    if place < numbers.len() {
        numbers[place] == lba
    } else {
        false
    }
}

// The block at this place has these bytes.
fn overwrite(blocks: &mut Vec<Vec<u8>>, place: usize, from: &[u8])
    requires within { place < vec_len blocks.old }
    requires whole { (d : Bytes ℕ) → length (slice_index_or blocks.old.items place d).items ≡ length from.now }
    ensures written { (new : Bytes ℕ) × (new.items ≡ from.now)
        × (blocks.new.items ≡ slice_set blocks.old.items place new) }
    ensures capacity { vec_capacity blocks.new ≡ vec_capacity blocks.old }
{
    blocks[place].as_mut_slice().copy_from_slice(from);
}

fn with_bytes(mut block: Vec<u8>, from: &[u8]) -> Vec<u8>
    requires whole { length block.items ≡ length from.now }
    ensures { result.items ≡ from.now }
{
    block.as_mut_slice().copy_from_slice(from);
    block
}

// Memory for so many blocks of this size, or what there was.
fn fill_pool(
    alloc: Global,
    pool: &mut Vec<Vec<u8>>,
    blocks: usize,
    size: usize,
) -> Result<(), NoMemory>
    requires fewer { vec_len pool.old ≤ blocks }
    requires room { blocks ≤ vec_capacity pool.old }
    requires sized { HaveSize size pool.old.items }
    ensures sized { HaveSize size pool.new.items }
    ensures filled { OnOk result (length pool.new.items ≡ blocks) }
    ensures as_before { OnErr result (length pool.new.items ≡ length pool.old.items) }
{
    let before = pool.len();
    for _ in before..blocks {
        match vec![in alloc; 0; size] {
            Ok(block) => pool.push_reserved(block),
            Err(_) => {
                pool.truncate(before);
                return Err(NoMemory);
            }
        }
    }
    Ok(())
}

impl SparseBlocks {
    /// Blocks that are all zero, `count` of `size` bytes each. They take no memory until some are reserved.
    pub fn new(alloc: Global, count: u64, size: usize) -> Result<SparseBlocks, NoMemory>
        requires some { 1 ≤ count }
        requires most { count ≤ 4294967296 }
        requires least_size { 16 ≤ size }
        requires most_size { size ≤ 2048 }
        ensures { IfOk result (λ made. made ≡ record { contents = blank_contents count size; spare = 0 }) }
    {
        Ok(SparseBlocks {
            alloc,
            count,
            size,
            numbers: Vec::new(alloc),
            blocks: Vec::new(alloc),
            pool: Vec::new(alloc),
        })
    }

    /// The lowest block from `from` on that was written.
    #[tactic(auto, using(crate::proofs::Touched::next_is))]
    pub fn next_touched(&self, from: u64) -> Option<u32>
        ensures { result ≡ touched_from self.now.contents.touched from }
    {
        let place = place_of(self.numbers.as_slice(), from);
        if place < self.numbers.len() {
            Some(self.numbers[place])
        } else {
            None
        }
    }
}

impl Blocks for SparseBlocks {
    ghost contents = { λ s. s.contents };

    ghost spare_blocks = { λ s. s.spare };

    fn count(&self) -> u64 {
        self.count
    }

    fn size(&self) -> usize {
        self.size
    }

    fn spare(&self) -> u64 {
        self.pool.len() as u64
    }

    fn reserve(&mut self, blocks: usize) -> Result<(), NoMemory> {
        if blocks <= self.pool.len() {
            return Ok(());
        }
        self.numbers.reserve(blocks)?;
        self.blocks.reserve(blocks)?;
        self.pool.reserve(blocks)?;
        fill_pool(self.alloc, &mut self.pool, blocks, self.size)
    }

    fn read_block(&self, lba: u32, into: &mut [u8]) {
        let place = place_of(self.numbers.as_slice(), u64::from(lba));
        if is_at(self.numbers.as_slice(), place, lba) {
            into.copy_from_slice(self.blocks[place].as_slice());
        } else {
            blank(into);
        }
    }

    fn read_part(&self, lba: u32, offset: usize, into: &mut [u8]) {
        let place = place_of(self.numbers.as_slice(), u64::from(lba));
        if is_at(self.numbers.as_slice(), place, lba) {
            copy_from(self.blocks[place].as_slice(), offset, into);
        } else {
            blank(into);
        }
    }

    fn write_block(&mut self, lba: u32, from: &[u8]) {
        let place = place_of(self.numbers.as_slice(), u64::from(lba));
        if is_at(self.numbers.as_slice(), place, lba) {
            overwrite(&mut self.blocks, place, from);
        } else if let Some(block) = self.pool.pop() {
            insert_within(&mut self.numbers, place, lba);
            insert_within(&mut self.blocks, place, with_bytes(block, from));
        }
    }
}
