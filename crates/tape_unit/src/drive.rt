//! What a logical unit of a target stands over.
ghost use Rattle.std.specs.Prelude.{◌≡◌, None};
ghost use Rattle.array_model.specs.Contents.{is_reeled};
ghost use Rattle.disk_unit.specs.Held.{held_reply, held_extent, is_held_changed, kind_of, cost_by, taken_now};
ghost use Rattle.disk_unit.proofs.MediumFacts.{names_kept};
ghost use Rattle.tape_unit.specs.Drives.{drive_contents, drive_spare, IsAfter};

use super::tape::TapeMedium;
use disk_unit::{Blocks, DiskMedium, Extent, Medium, Plan, SparseBlocks};

/// A disk or a tape (ANSI X3.131-1994, clauses 9 and 10).
#[derive(Drop)]
pub enum Drive {
    /// A disk.
    Disk(DiskMedium<SparseBlocks>),
    /// A tape.
    Tape(TapeMedium),
}

// Blocks have no reel.
fn is_disk(disk: &DiskMedium<SparseBlocks>)
    ensures { disk.now.blocks.contents.reel ≡ None }
{
    let _ = disk.blocks().count();
}

impl Drive {
    /// How many bytes a block has.
    pub fn size(&self) -> usize
        ensures { result ≡ (drive_contents self.now).size }
    {
        match self {
            Drive::Disk(disk) => disk.blocks().size(),
            Drive::Tape(tape) => tape.size() as usize,
        }
    }

    /// Whether it is a tape.
    pub fn is_tape(&self) -> bool
        ensures { result ≡ is_reeled (drive_contents self.now) }
    {
        match self {
            Drive::Disk(disk) => {
                is_disk(disk);
                false
            }
            Drive::Tape(_) => true,
        }
    }
}

impl Medium for Drive {
    ghost spare_blocks = { λ m. drive_spare m };

    ghost reply_to = { λ m cdb. held_reply (drive_contents m) cdb };

    ghost taken_by = { λ m cdb. taken_now (drive_contents m) cdb };

    ghost written_by = { λ m cdb. cost_by (kind_of (drive_contents m)) cdb };

    ghost named_by = { λ m cdb. held_extent (drive_contents m) cdb };

    ghost is_changed_by = { λ m cdb. is_held_changed (drive_contents m) cdb };

    ghost Becomes = { λ m cdb sent new. IsAfter m cdb sent new };

    ghost names_stay = { λ before after cdb sent block h. names_kept
        (drive_contents before) (drive_contents after) cdb sent block h.contents };

    fn spare(&self) -> u64 {
        match self {
            Drive::Disk(disk) => disk.spare(),
            Drive::Tape(tape) => tape.spare(),
        }
    }

    fn cost(&self, cdb: &[u8]) -> u64 {
        match self {
            Drive::Disk(disk) => {
                is_disk(disk);
                disk.cost(cdb)
            }
            Drive::Tape(tape) => tape.cost(cdb),
        }
    }

    fn plan(&self, cdb: &[u8]) -> Plan {
        match self {
            Drive::Disk(disk) => {
                is_disk(disk);
                disk.plan(cdb)
            }
            Drive::Tape(tape) => tape.plan(cdb),
        }
    }

    fn extent(&self, cdb: &[u8]) -> Extent {
        match self {
            Drive::Disk(disk) => {
                is_disk(disk);
                disk.extent(cdb)
            }
            Drive::Tape(tape) => tape.extent(cdb),
        }
    }

    fn fetch(&self, cdb: &[u8], at: u32, into: &mut [u8]) {
        match self {
            Drive::Disk(disk) => {
                is_disk(disk);
                disk.fetch(cdb, at, into);
            }
            Drive::Tape(tape) => tape.fetch(cdb, at, into),
        }
    }

    fn commit(&mut self, cdb: &[u8], sent: &[u8]) {
        match self {
            Drive::Disk(disk) => {
                is_disk(disk);
                disk.commit(cdb, sent);
            }
            Drive::Tape(tape) => tape.commit(cdb, sent),
        }
    }

    fn changes(&self, cdb: &[u8]) -> bool {
        match self {
            Drive::Disk(disk) => {
                is_disk(disk);
                disk.changes(cdb)
            }
            Drive::Tape(tape) => tape.changes(cdb),
        }
    }
}
