//! What keeps the blocks of a disk.
ghost use Rattle.std.specs.Prelude.{◌≡◌, ℕ, ◌+◌, ◌<◌, ◌≤◌, length, take, drop, None, OnOk, OnErr};
ghost use Rattle.array_model.specs.Contents.{Contents, block_at, with_block};

use bus_base::NoMemory;

/// The blocks of a disk, all of one size.
pub trait Blocks {
    // How many blocks there are, of how many bytes, and the bytes of each. They are those of no tape.
    ghost contents: { Self → Contents };

    // How many blocks that were not written yet may be written without memory.
    ghost spare_blocks: { Self → ℕ };

    /// How many blocks there are.
    fn count(&self) -> u64
        ensures exact { result ≡ (contents self.now).count }
        ensures some { 1 ≤ (contents self.now).count }
        ensures most { (contents self.now).count ≤ 4294967296 }
        ensures disk { (contents self.now).reel ≡ None };

    /// How many bytes a block has.
    fn size(&self) -> usize
        ensures exact { result ≡ (contents self.now).size }
        ensures some { 1 ≤ (contents self.now).size }
        ensures most { (contents self.now).size ≤ 2048 }
        ensures whole { (lba : ℕ) → length (block_at (contents self.now) lba) ≡ (contents self.now).size };

    /// How many blocks may be written for the first time before more are reserved.
    fn spare(&self) -> u64
        ensures { result ≡ spare_blocks self.now };

    /// Takes the memory for so many blocks that are written for the first time. The contents stay.
    fn reserve(&mut self, blocks: usize) -> Result<(), NoMemory>
        requires most { blocks ≤ 4294967296 }
        ensures contents_stay { contents self.new ≡ contents self.old }
        ensures reserved { OnOk result (blocks ≤ spare_blocks self.new) }
        ensures as_before { OnErr result (spare_blocks self.new ≡ spare_blocks self.old) };

    /// Reads a block of this number into `into`, which has its size.
    fn read_block(&self, lba: u32, into: &mut [u8])
        requires within { lba < (contents self.now).count }
        requires whole { length into.old ≡ (contents self.now).size }
        ensures { into.new ≡ block_at (contents self.now) lba };

    /// Reads so many bytes of the block of this number as `into` has, those from `offset` on.
    fn read_part(&self, lba: u32, offset: usize, into: &mut [u8])
        requires within { lba < (contents self.now).count }
        requires part { offset + length into.old ≤ (contents self.now).size }
        ensures { into.new ≡ take (length into.old) (drop offset (block_at (contents self.now) lba)) };

    /// Writes the block of this number; the others stay.
    fn write_block(&mut self, lba: u32, from: &[u8])
        requires within { lba < (contents self.old).count }
        requires whole { length from.now ≡ (contents self.old).size }
        requires room { 1 ≤ spare_blocks self.old }
        ensures written { contents self.new ≡ with_block (contents self.old) lba from.now }
        ensures lowered { spare_blocks self.old ≤ spare_blocks self.new + 1 };
}

/// Some of these bytes, from `offset` on.
pub fn copy_from(bytes: &[u8], offset: usize, into: &mut [u8])
    requires within { offset + length into.old ≤ length bytes.now }
    ensures { into.new ≡ take (length into.old) (drop offset bytes.now) }
{
    into.copy_from_slice(&bytes[offset..offset + into.len()]);
}
