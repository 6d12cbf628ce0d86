//! Walks over what stands on a tape (clauses 10.2.4 and 10.2.12).
ghost use Rattle.std.specs.Prelude.{◌≡◌, ◌<◌, ◌≤◌, false, length, slice_index_or};
ghost use Rattle.array_model.specs.Reels.{over_blocks, over_filemarks};
ghost use Rattle.tape_unit.specs.Stored.{seen};

use super::stored::StoredObject;
use array_model::{Stop, Walk};

// Whether the object at this place is a filemark, counted from the side where the walk begins.
fn is_filemark_at(objects: &[StoredObject], forward: bool, place: u32) -> bool
    requires { place < length objects.now }
    ensures { result ≡ slice_index_or (seen forward objects.now) place false }
{
    let place = place as usize;
    if forward {
        objects[place].is_filemark
    } else {
        objects[objects.len() - 1 - place].is_filemark
    }
}

/// Over so many blocks, to the first filemark at most.
pub fn over_blocks(objects: &[StoredObject], forward: bool, count: u32) -> Walk
    requires { length objects.now ≤ 65536 }
    ensures { result ≡ over_blocks (seen forward objects.now) count }
{
    let mut passed = 0;
    while passed < count {
        if passed as usize == objects.len() {
            return Walk {
                moved: passed,
                passed,
                stop: Stop::Edge,
            };
        }
        if is_filemark_at(objects, forward, passed) {
            return Walk {
                moved: passed,
                passed: passed + 1,
                stop: Stop::Filemark,
            };
        }
        passed += 1;
    }
    Walk {
        moved: passed,
        passed,
        stop: Stop::Count,
    }
}

/// Over so many filemarks, and the blocks between them.
pub fn over_filemarks(objects: &[StoredObject], forward: bool, count: u32) -> Walk
    requires { length objects.now ≤ 65536 }
    ensures { result ≡ over_filemarks (seen forward objects.now) count }
{
    let mut moved = 0;
    let mut passed = 0;
    while moved < count {
        if passed as usize == objects.len() {
            return Walk {
                moved,
                passed,
                stop: Stop::Edge,
            };
        }
        if is_filemark_at(objects, forward, passed) {
            moved += 1;
        }
        passed += 1;
    }
    Walk {
        moved,
        passed,
        stop: Stop::Count,
    }
}
