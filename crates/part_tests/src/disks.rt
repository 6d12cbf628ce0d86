//! Tests of `disk_unit`: dense and sparse blocks answer alike, and the largest disk.
ghost use Rattle.std.specs.Prelude.{◌≡◌};

use bus_base::NoMemory;
use disk_unit::{Blocks, DenseBlocks, SparseBlocks};
use std::alloc::Global;

#[derive(Clone, Copy, Debug, PartialEq, Eq)]
enum Access {
    /// The block of this number.
    Read(u32),
    /// The block of this number, all of whose bytes become this one.
    Write(u32, u8),
}

const TABLE: [Access; 12] = [
    Access::Read(0),
    Access::Write(3, 0x33),
    Access::Read(3),
    Access::Write(0, 0x10),
    Access::Read(2),
    Access::Write(7, 0x77),
    Access::Write(3, 0x34),
    Access::Read(3),
    Access::Read(7),
    Access::Write(2, 0x22),
    Access::Read(0),
    Access::Read(2),
];

// What the blocks of the reads begin with.
const ANSWERS: [u8; 7] = [0x00, 0x33, 0x00, 0x34, 0x77, 0x10, 0x22];

fn answer<B: Blocks>(
    blocks: &mut B,
    access: Access,
    answers: &mut Vec<u8>,
) -> Result<(), NoMemory> {
    let mut block = [0u8; 16];
    match access {
        Access::Read(lba) => {
            if blocks.size() == 16 && u64::from(lba) < blocks.count() {
                blocks.read_block(lba, &mut block);
                answers.push(block[15])?;
            }
        }
        Access::Write(lba, byte) => {
            block = [byte; 16];
            if blocks.size() == 16 && u64::from(lba) < blocks.count() && 1 <= blocks.spare() {
                blocks.write_block(lba, &block);
            }
        }
    }
    Ok(())
}

fn answers<B: Blocks>(alloc: Global, blocks: &mut B) -> Result<Vec<u8>, NoMemory> {
    let mut answers = Vec::new(alloc);
    for access in TABLE.iter() {
        answer(blocks, *access, &mut answers)?;
    }
    Ok(answers)
}

#[test]
fn dense_and_sparse_blocks(rt: HostRuntime) -> Result<(), NoMemory> {
    let mut dense = DenseBlocks::new(rt.alloc(), 8, 16)?;
    let mut sparse = SparseBlocks::new(rt.alloc(), 8, 16)?;
    assert!(rt; sparse.spare() == 0);
    sparse.reserve(4)?;
    assert!(rt; sparse.spare() == 4);
    dense.reserve(4)?;
    let of_dense = answers(rt.alloc(), &mut dense)?;
    let of_sparse = answers(rt.alloc(), &mut sparse)?;
    assert!(rt; of_dense.as_slice() == ANSWERS.as_slice());
    assert!(rt; of_sparse.as_slice() == ANSWERS.as_slice());
    assert!(rt; sparse.spare() == 0);
    assert!(rt; sparse.next_touched(0) == Some(0));
    assert!(rt; sparse.next_touched(1) == Some(2));
    assert!(rt; sparse.next_touched(4) == Some(7));
    assert!(rt; sparse.next_touched(8) == None);
    Ok(())
}

#[test]
fn largest_disk(rt: HostRuntime) -> Result<(), NoMemory> {
    let mut disk = SparseBlocks::new(rt.alloc(), 4_294_967_296, 512)?;
    assert!(rt; disk.count() == 4_294_967_296);
    disk.reserve(1)?;
    disk.write_block(4_294_967_295, &[0xa5; 512]);
    let mut block = [0u8; 512];
    disk.read_block(4_294_967_295, &mut block);
    assert!(rt; block.as_slice() == [0xa5u8; 512].as_slice());
    disk.read_block(4_294_967_294, &mut block);
    assert!(rt; block.as_slice() == [0u8; 512].as_slice());
    assert!(rt; disk.next_touched(0) == Some(4_294_967_295));
    assert!(rt; disk.next_touched(4_294_967_296) == None);
    Ok(())
}
