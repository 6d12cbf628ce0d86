//! The bytes of several blocks, read and written.
ghost use Rattle.std.specs.Prelude.{◌≡◌, ℕ, ◌+◌, ◌-◌, ◌*◌, ◌<◌, ◌≤◌, List, ◌++◌, length, take, drop};
ghost use Rattle.array_model.specs.Contents.{block_at, bytes_at, with_bytes};

use super::blocks::Blocks;

/// The bytes at `place` among those of `count` blocks from block `lba` on, to the end of their block; returns how many
/// they are.
fn read_rest<B: Blocks>(blocks: &B, lba: u32, count: u32, place: usize, into: &mut [u8]) -> usize
    requires within { lba + count ≤ (B.contents blocks.now).count }
    requires most { (B.contents blocks.now).count ≤ 4294967296 }
    requires part { place + length into.old ≤ length (bytes_at (B.contents blocks.now) lba count) }
    requires some { 0 < length into.old }
    ensures some { 0 < result }
    ensures within { result ≤ length into.old }
    ensures read { into.new
        ≡ take result (drop place (bytes_at (B.contents blocks.now) lba count)) ++ drop result into.old }
{
    let size = blocks.size();
    let offset = place % size;
    let part = if size - offset < into.len() {
        size - offset
    } else {
        into.len()
    };
    blocks.read_part(lba + (place / size) as u32, offset, &mut into[..part]);
    part
}

/// The bytes of `count` blocks from block `lba` on, those from `at` on.
pub fn read_bytes<B: Blocks>(blocks: &B, lba: u32, count: u32, at: u32, into: &mut [u8])
    requires within { lba + count ≤ (B.contents blocks.now).count }
    requires most { (B.contents blocks.now).count ≤ 4294967296 }
    requires part { at + length into.old ≤ length (bytes_at (B.contents blocks.now) lba count) }
    ensures { into.new ≡ take (length into.old) (drop at (bytes_at (B.contents blocks.now) lba count)) }
{
    let mut done = 0;
    while done < into.len() {
        done += read_rest(blocks, lba, count, at as usize + done, &mut into[done..]);
    }
}

/// `count` blocks from block `lba` on with these bytes.
pub fn write_bytes<B: Blocks>(blocks: &mut B, lba: u32, count: u32, sent: &[u8])
    requires within { lba + count ≤ (B.contents blocks.old).count }
    requires most { (B.contents blocks.old).count ≤ 4294967296 }
    requires whole { length sent.now ≡ count * (B.contents blocks.old).size }
    requires room { count ≤ B.spare_blocks blocks.old }
    ensures written { B.contents blocks.new ≡ with_bytes (B.contents blocks.old) lba count sent.now }
    ensures lowered { B.spare_blocks blocks.old ≤ B.spare_blocks blocks.new + count }
{
    let size = blocks.size();
    for i in 0..count {
        let from = i as usize * size;
        blocks.write_block(lba + i, &sent[from..from + size]);
    }
}
