//! What a disk holds at the start, and the memory that its commands need.
ghost use Rattle.std.specs.Prelude.{◌≡◌, ◌+◌, ◌-◌, ◌^◌, ◌≤◌, ◌==◌, ◌&&◌, true, [], ◌∷◌, min, if◌then◌else◌, IfOk};
ghost use Rattle.array_model.specs.Contents.{blank_contents, with_block, filled_contents};
ghost use Rattle.disk_unit.specs.Held.{disk_of};
ghost use Rattle.target_units.specs.Fillings.{is_filled_by, AreFilled, fill_count as fills_of, blocks_by, blocks_by_all as blocks_of_all};

use bus_base::NoMemory;
use disk_unit::{Blocks, DiskMedium, Medium, SparseBlocks};
use scenario::{CmdDef, FillDef, UnitDef};

fn is_of(def: &UnitDef, fill: &FillDef) -> bool
    ensures { result ≡ is_filled_by def.now fill.now }
{
    fill.target == def.target && fill.unit == def.unit
}

/// How many fills are of this unit.
pub fn fill_count(def: &UnitDef, fills: &[FillDef]) -> usize
    ensures { result ≡ fills_of def.now fills.now }
{
    let mut count = 0;
    for one in fills {
        if is_of(def, one) {
            count += 1;
        }
    }
    count
}

// How many blocks a command writes at this unit, over whose blank blocks this disk stands.
fn blocks_by(disk: &DiskMedium<SparseBlocks>, def: &UnitDef, command: &CmdDef) -> u64
    requires blank { disk.now.blocks.contents ≡ blank_contents def.now.blocks def.now.size }
    ensures { result ≡ blocks_by (disk_of def.now.blocks) def.now command.now }
{
    if command.target == def.target && command.unit == def.unit {
        disk.cost(command.cdb.as_slice())
    } else {
        0
    }
}

/// How many blocks the commands write at this unit at most, over whose blank blocks this disk stands.
pub fn blocks_by_all(disk: &DiskMedium<SparseBlocks>, def: &UnitDef, commands: &[CmdDef]) -> u64
    requires blank { disk.now.blocks.contents ≡ blank_contents def.now.blocks def.now.size }
    ensures { result ≡ min (blocks_of_all (disk_of def.now.blocks) def.now commands.now) (2 ^ 64 - 1) }
{
    let mut blocks: u64 = 0;
    for command in commands {
        blocks = blocks.saturating_add(blocks_by(disk, def, command));
    }
    blocks
}

/// So many blocks together, unless they are more than a unit can have.
pub fn blocks_in_all(filled: usize, written: u64) -> Result<usize, NoMemory>
    ensures sum { IfOk result (λ blocks. blocks ≡ filled + written) }
    ensures most { IfOk result (λ blocks. blocks ≤ 4294967296) }
{
    if filled <= 4294967296 && written <= 4294967296 - filled as u64 {
        Ok(filled + written as usize)
    } else {
        Err(NoMemory)
    }
}

// The block of a fill, where that is of this unit.
fn fill_block(blocks: &mut SparseBlocks, def: &UnitDef, fill: &FillDef)
    requires fits { AreFilled def.now (fill.now ∷ []) }
    requires count { blocks.old.contents.count ≡ def.now.blocks }
    requires size { blocks.old.contents.size ≡ def.now.size }
    requires room { fills_of def.now (fill.now ∷ []) ≤ blocks.old.spare }
    ensures contents { blocks.new.contents ≡ (if is_filled_by def.now fill.now
        then with_block blocks.old.contents fill.now.lba fill.now.bytes else blocks.old.contents) }
    ensures lowered { blocks.old.spare ≤ blocks.new.spare + fills_of def.now (fill.now ∷ []) }
{
    if is_of(def, fill) {
        blocks.write_block(fill.lba, fill.bytes.as_slice());
    }
}

/// The blocks of the fills that are of this unit are written.
pub fn fill(blocks: &mut SparseBlocks, def: &UnitDef, fills: &[FillDef])
    requires fits { AreFilled def.now fills.now }
    requires count { blocks.old.contents.count ≡ def.now.blocks }
    requires size { blocks.old.contents.size ≡ def.now.size }
    requires room { fills_of def.now fills.now ≤ blocks.old.spare }
    ensures contents { blocks.new.contents ≡ filled_contents def.now fills.now blocks.old.contents }
    ensures lowered { blocks.old.spare ≤ blocks.new.spare + fills_of def.now fills.now }
{
    for one in fills {
        fill_block(blocks, def, one);
    }
}
