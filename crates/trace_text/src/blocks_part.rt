//! The part of a report with the blocks.
ghost use Rattle.std.specs.Prelude.{ℕ, ◌≡◌, ◌≤◌, ◌<◌, ◌++◌, List, map, length};
ghost use Rattle.array_model.specs.Contents.{block_at};
ghost use Rattle.run_record.specs.Value.{held_by};
ghost use Rattle.trace_text.specs.BlockText.{is_zero, block_text, blocks_from, disk_text, disks_text};
ghost use Rattle.trace_text.specs.ReportText.{disk_name};
ghost use Rattle.text_pages.specs.Pages.{Prints};

use bus_base::{Dev, Sink};
use disk_unit::{Blocks, SparseBlocks};
use scenario::UnitDef;
use text_pages::{Page, put, put_hex, put_spaced};

/// No block has more bytes.
const SIZE_LIMIT: usize = 2048;

fn is_zero(bytes: &[u8]) -> bool
    ensures { result ≡ is_zero bytes.now }
{
    bytes.iter().all(|byte| *byte == 0)
}

fn put_block<K: Sink>(out: &mut K, page: &mut Page, target: Dev, unit: u8, lba: u32, bytes: &[u8])
    ensures { Prints K.written K.faults out.old out.new page.old page.new (block_text target unit lba bytes.now) }
{
    if is_zero(bytes) {
        return;
    }
    put(out, page, b"block ");
    put_spaced(out, page, target as u64);
    put_spaced(out, page, unit as u64);
    put_spaced(out, page, lba as u64);
    put_hex(out, page, bytes);
    put(out, page, b"\n");
}

// The block of this number, read into a place of its size.
fn put_read<K: Sink>(
    out: &mut K,
    page: &mut Page,
    target: Dev,
    unit: u8,
    disk: &SparseBlocks,
    lba: u32,
)
    requires { lba < disk.now.contents.count }
    ensures { Prints K.written K.faults out.old out.new page.old page.new
        (block_text target unit lba (block_at disk.now.contents lba)) }
{
    let mut bytes = [0; SIZE_LIMIT];
    let size = disk.size();
    disk.read_block(lba, &mut bytes[..size]);
    put_block(out, page, target, unit, lba, &bytes[..size]);
}

// The first touched block from this number on. Answers the number after it, or the number of blocks where there is
// none.
fn put_next<K: Sink>(
    out: &mut K,
    page: &mut Page,
    target: Dev,
    unit: u8,
    disk: &SparseBlocks,
    from: u64,
) -> u64
    requires { from < disk.now.contents.count }
    ensures text { (piece : List ℕ) × Prints K.written K.faults out.old out.new page.old page.new piece
        × (blocks_from target unit disk.now.contents from
        ≡ piece ++ blocks_from target unit disk.now.contents result) }
    ensures further { from < result }
    ensures within { result ≤ disk.now.contents.count }
{
    let count = disk.count();
    let Some(lba) = disk.next_touched(from) else {
        return count;
    };
    let number = lba as u64;
    if number >= count {
        return count;
    }
    put_read(out, page, target, unit, disk, lba);
    number + 1
}

fn put_disk<K: Sink>(out: &mut K, page: &mut Page, target: Dev, unit: u8, disk: &SparseBlocks)
    ensures { Prints K.written K.faults out.old out.new page.old page.new (disk_text target unit disk.now.contents) }
{
    let count = disk.count();
    let mut from = 0;
    while from < count {
        from = put_next(out, page, target, unit, disk, from);
    }
}

/// The disks, each at its target and unit.
pub(crate) fn put_disks<K: Sink>(
    out: &mut K,
    page: &mut Page,
    units: &[UnitDef],
    disks: &[SparseBlocks],
)
    requires { length disks.now ≡ length units.now }
    ensures { Prints K.written K.faults out.old out.new page.old page.new
        (disks_text (map disk_name units.now) (map held_by disks.now)) }
{
    for index in 0..units.len() {
        let unit = units[index];
        put_disk(out, page, unit.target, unit.unit, &disks[index]);
    }
}
