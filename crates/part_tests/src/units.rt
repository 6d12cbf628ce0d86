//! A test of `disk_unit`: commands arrive at a unit of one place, and the first one is chosen.
ghost use Rattle.std.specs.Prelude.{◌≡◌, ◌<◌, ◌≤◌};

use bus_base::NoMemory;
use disk_unit::{Accepted, Blocks, DiskMedium, SparseBlocks, Unit};
use tag_queue::{Class, Pick, ProcId};

const TEST_UNIT_READY: [u8; 6] = [0x00; 6];

const REQUEST_SENSE: [u8; 6] = [0x03, 0x00, 0x00, 0x00, 0x12, 0x00];

fn id(command: u16) -> ProcId {
    ProcId {
        command,
        sense: false,
    }
}

#[test]
fn commands_of_a_unit(rt: HostRuntime) -> Result<(), NoMemory> {
    let blocks = SparseBlocks::new(rt.alloc(), 8, 16)?;
    let mut unit = Unit::new(rt.alloc(), DiskMedium::new(blocks), 1)?;
    let first = unit.accept(id(1), 7, None, Class::Simple, &TEST_UNIT_READY);
    let second = unit.accept(id(2), 6, None, Class::Simple, &TEST_UNIT_READY);
    let sense = unit.accept(id(3), 7, None, Class::Simple, &REQUEST_SENSE);
    assert!(rt; second == Accepted::Full);
    assert!(rt; sense == Accepted::AtOnce);
    let chosen = unit.choose(Pick::First);
    assert!(rt; chosen.is_some());
    assert!(rt; chosen.map(Accepted::Queued) == Some(first));
    assert!(rt; !unit.held());
    assert!(rt; unit.into_medium().into_blocks().spare() == 0);
    Ok(())
}
