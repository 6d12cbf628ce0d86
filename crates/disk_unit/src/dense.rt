//! Blocks that all take memory.
ghost use Rattle.std.specs.Prelude.{◌≡◌, ℕ, ◌*◌, ◌<◌, ◌≤◌, IfOk};
ghost use Rattle.array_model.specs.Contents.{Contents, block_at, zero_block};

use super::blocks::{Blocks, copy_from};
use bus_base::NoMemory;
use std::alloc::Global;
use std::marker::Model;

/// Blocks that all take memory, one after the other.
#[derive(Drop)]
pub struct DenseBlocks {
    count: u64,
    size: usize,
    bytes: Vec<u8>,
}

impl Model for DenseBlocks {
    ghost use Rattle.std.specs.Prelude.{◌≡◌, ◌*◌, ◌≤◌, length, None};
    ghost use Rattle.array_model.specs.Contents.{Contents};

    ghost Value = { Contents };

    ghost use Rattle.disk_unit.specs.Dense.{blocks_in};

    ghost view = { λ d. record {
      count = d.count;
      size = d.size;
      touched = blocks_in d.size 0 d.count d.bytes.items;
      reel = None;
    } };

    ghost invariant = { λ d. (length d.bytes.items
        ≡ d.count * d.size) × (d.count ≤ 4294967296) × (d.size ≤ 2048) × (1 ≤ d.count) × (1 ≤ d.size) };
}

impl DenseBlocks {
    /// Blocks that are all zero, `count` of `size` bytes each.
    pub fn new(alloc: Global, count: u64, size: usize) -> Result<DenseBlocks, NoMemory>
        requires some { 1 ≤ count }
        requires most { count ≤ 4294967296 }
        requires least_size { 16 ≤ size }
        requires most_size { size ≤ 2048 }
        ensures count { IfOk result (λ made. made.count ≡ count) }
        ensures size { IfOk result (λ made. made.size ≡ size) }
        ensures zeros { IfOk result (λ made. (lba : ℕ) → block_at made lba ≡ zero_block size) }
    {
        let bytes = vec![in alloc; 0; count as usize * size]?;
        Ok(DenseBlocks { count, size, bytes })
    }
}

impl Blocks for DenseBlocks {
    ghost contents = { λ s. s };

    ghost spare_blocks = { λ s. 4294967296 };

    fn count(&self) -> u64 {
        self.count
    }

    fn size(&self) -> usize {
        self.size
    }

    fn spare(&self) -> u64 {
        4_294_967_296
    }

    fn reserve(&mut self, blocks: usize) -> Result<(), NoMemory> {
        Ok(())
    }

    fn read_block(&self, lba: u32, into: &mut [u8]) {
        let start = lba as usize * self.size;
        into.copy_from_slice(&self.bytes[start..start + self.size]);
    }

    fn read_part(&self, lba: u32, offset: usize, into: &mut [u8]) {
        let start = lba as usize * self.size;
        copy_from(&self.bytes[start..start + self.size], offset, into);
    }

    fn write_block(&mut self, lba: u32, from: &[u8]) {
        let start = lba as usize * self.size;
        let end = start + self.size;
        self.bytes[start..end].copy_from_slice(from);
    }
}
