//! A test of `tape_unit`: commands of whole runs on a tape, against the replies, the objects and the position of
//! reports which an independent simulator printed. The runs are those of these names in `tools/tape_cases/`.

use bus_base::NoMemory;
use cdb_codec::{CHECK_CONDITION, GOOD, NO_ADDITIONAL_SENSE, Sense};
use disk_unit::{Medium, Plan};
use std::alloc::Global;
use tape_unit::TapeMedium;

const SIZE: usize = 16;

// A block by its first byte and its last, or a filemark.
type Object = Option<(u8, u8)>;

const A: Object = Some((0x41, 0x41));

const B: Object = Some((0x42, 0x42));

const C: Object = Some((0x43, 0x43));

const D: Object = Some((0x44, 0x44));

const MARK: Object = None;

// Blocks that a command writes which sends 00, 01, .. one after the other.
const FIRST: Object = Some((0x00, 0x0f));

const SECOND: Object = Some((0x10, 0x1f));

const THIRD: Object = Some((0x20, 0x2f));

// How a command ends: GOOD, or CHECK CONDITION with the sense key, the qualifier, the marks and the residue. Either
// with the blocks that it gives.
#[derive(Clone, Copy, Debug)]
enum End {
    Good(&'static [Object]),
    Check(&'static [Object], u8, u8, u8, u32),
}

use End::{Check, Good};

// A command, the first of the bytes that it sends, which rise by one, and its end.
#[derive(Clone, Copy, Debug)]
struct Step([u8; 6], u8, End);

// How many objects a tape has room for, what is loaded onto it, its commands, its position after them, and what is
// left.
#[derive(Clone, Copy, Debug)]
struct Lot(
    u32,
    &'static [Object],
    &'static [Step],
    u32,
    &'static [Object],
);

const LOADED: [Object; 7] = [A, B, MARK, C, MARK, MARK, D];

const READ: [Step; 8] = [
    Step([0x08, 1, 0, 0, 2, 0], 0, Good(&[A, B])),
    Step([0x08, 1, 0, 0, 1, 0], 0, Check(&[], 0, 1, 0x80, 1)),
    Step([0x08, 1, 0, 0, 1, 0], 0, Good(&[C])),
    Step([0x08, 1, 0, 0, 5, 0], 0, Check(&[], 0, 1, 0x80, 5)),
    Step([0x08, 1, 0, 0, 2, 0], 0, Check(&[], 0, 1, 0x80, 2)),
    Step([0x08, 1, 0, 0, 3, 0], 0, Check(&[D], 8, 5, 0, 2)),
    Step([0x08, 1, 0, 0, 1, 0], 0, Check(&[], 8, 5, 0, 1)),
    Step([0x08, 1, 0, 0, 0, 0], 0, Good(&[])),
];

const SPACE_OVER_BLOCKS: [Step; 10] = [
    Step([0x11, 0, 0, 0, 2, 0], 0, Good(&[])),
    Step([0x11, 0, 0, 0, 1, 0], 0, Check(&[], 0, 1, 0x80, 1)),
    Step([0x11, 0, 0, 0, 1, 0], 0, Good(&[])),
    Step([0x11, 0, 0xff, 0xff, 0xff, 0], 0, Good(&[])),
    Step([0x11, 0, 0xff, 0xff, 0xff, 0], 0, Check(&[], 0, 1, 0x80, 1)),
    Step([0x11, 0, 0xff, 0xff, 0xfd, 0], 0, Check(&[], 0, 4, 0x40, 1)),
    Step([0x11, 0, 0, 0, 0x14, 0], 0, Check(&[], 0, 1, 0x80, 18)),
    Step([0x11, 3, 0, 0, 0, 0], 0, Good(&[])),
    Step([0x11, 0, 0, 0, 1, 0], 0, Check(&[], 8, 5, 0, 1)),
    Step([0x11, 0, 0xff, 0xff, 0xfe, 0], 0, Check(&[], 0, 1, 0x80, 1)),
];

const SPACE_OVER_FILEMARKS: [Step; 8] = [
    Step([0x11, 1, 0, 0, 2, 0], 0, Good(&[])),
    Step([0x11, 1, 0, 0, 2, 0], 0, Check(&[], 8, 5, 0, 1)),
    Step([0x11, 1, 0xff, 0xff, 0xff, 0], 0, Good(&[])),
    Step([0x11, 1, 0xff, 0xff, 0xfd, 0], 0, Check(&[], 0, 4, 0x40, 1)),
    Step([0x11, 1, 0, 0, 0, 0], 0, Good(&[])),
    Step([0x11, 0, 0, 0, 0, 0], 0, Good(&[])),
    Step([0x11, 1, 0xff, 0xff, 0xff, 0], 0, Check(&[], 0, 4, 0x40, 1)),
    Step([0x11, 1, 0, 0, 9, 0], 0, Check(&[], 8, 5, 0, 6)),
];

const WRITE: [Step; 5] = [
    Step([0x11, 0, 0, 0, 1, 0], 0, Good(&[])),
    Step([0x0a, 1, 0, 0, 2, 0], 0x00, Good(&[])),
    Step([0x10, 0, 0, 0, 2, 0], 0, Good(&[])),
    Step([0x01, 0, 0, 0, 0, 0], 0, Good(&[])),
    Step(
        [0x08, 1, 0, 0, 4, 0],
        0,
        Check(&[A, FIRST, SECOND], 0, 1, 0x80, 1),
    ),
];

const END_OF_MEDIUM: [Step; 9] = [
    Step([0x0a, 1, 0, 0, 5, 0], 0x00, Check(&[], 0xd, 2, 0x40, 5)),
    Step([0x0a, 1, 0, 0, 4, 0], 0x00, Good(&[])),
    Step([0x0a, 1, 0, 0, 1, 0], 0x99, Check(&[], 0xd, 2, 0x40, 1)),
    Step([0x10, 0, 0, 0, 1, 0], 0, Check(&[], 0xd, 2, 0x40, 1)),
    Step([0x0a, 1, 0, 0, 0, 0], 0, Good(&[])),
    Step([0x10, 0, 0, 0, 0, 0], 0, Good(&[])),
    Step([0x11, 0, 0xff, 0xff, 0xff, 0], 0, Good(&[])),
    Step([0x10, 0, 0, 0, 1, 0], 0, Good(&[])),
    Step([0x08, 1, 0, 0, 1, 0], 0, Check(&[], 8, 5, 0, 1)),
];

const LOTS: [Lot; 5] = [
    Lot(12, &LOADED, &READ, 7, &LOADED),
    Lot(12, &LOADED, &SPACE_OVER_BLOCKS, 5, &LOADED),
    Lot(12, &LOADED, &SPACE_OVER_FILEMARKS, 7, &LOADED),
    Lot(12, &LOADED, &WRITE, 4, &[A, FIRST, SECOND, MARK, MARK]),
    Lot(4, &[], &END_OF_MEDIUM, 4, &[FIRST, SECOND, THIRD, MARK]),
];

fn load(tape: &mut TapeMedium, object: Object) {
    if tape.len() < tape.capacity() {
        match object {
            None => tape.load_mark(),
            Some((byte, _)) => {
                if tape.size() as usize == SIZE && 1 <= tape.spare() {
                    tape.load_block(&[byte; SIZE]);
                }
            }
        }
    }
}

fn rising(first: u8) -> [u8; 80] {
    let mut bytes = [first; 80];
    let mut next = first;
    for byte in bytes.iter_mut() {
        *byte = next;
        next = next.wrapping_add(1);
    }
    bytes
}

// Whether it ends so, and gives so many blocks.
fn ends(plan: Plan, end: End) -> bool {
    let (blocks, status, sense) = match end {
        Good(blocks) => (blocks.len(), GOOD, None),
        Check(blocks, key, ascq, marks, left) => (
            blocks.len(),
            CHECK_CONDITION,
            Some(Sense {
                key,
                asc: NO_ADDITIONAL_SENSE,
                ascq,
                marks,
                residue: Some(left),
            }),
        ),
    };
    plan.status == status
        && plan.sense == sense
        && plan.in_len % 16 == 0
        && (plan.in_len / 16) as usize == blocks
}

// Whether it gives these blocks, each fetched alone.
fn gives(tape: &TapeMedium, cdb: &[u8; 6], blocks: &[Object]) -> bool {
    let plan = tape.plan(cdb);
    for place in 0..plan.in_len / 16 {
        let mut block = [0u8; SIZE];
        tape.fetch(cdb, place * 16, &mut block);
        if blocks.get(place as usize) != Some(&Some((block[0], block[15]))) {
            return false;
        }
    }
    true
}

// Carries it out where it makes the tape new; whether there was memory for what it writes.
fn commits(tape: &mut TapeMedium, cdb: &[u8; 6], first: u8) -> bool {
    if !tape.changes(cdb) {
        return true;
    }
    let len = tape.plan(cdb).out_len as usize;
    let sent = rising(first);
    if len <= sent.len() && tape.cost(cdb) <= tape.spare() {
        tape.commit(cdb, &sent[..len]);
        return true;
    }
    false
}

fn runs(tape: &mut TapeMedium, step: Step) -> bool {
    let Step(cdb, first, end) = step;
    let blocks = match end {
        Good(blocks) => blocks,
        Check(blocks, _, _, _, _) => blocks,
    };
    ends(tape.plan(&cdb), end) && gives(tape, &cdb, blocks) && commits(tape, &cdb, first)
}

// Whether the object at this place is this one.
fn is_there(tape: &TapeMedium, place: u32, object: Option<&Object>) -> bool {
    if place < tape.len() {
        let bytes = tape.object(place);
        let stands = match bytes {
            None => MARK,
            Some(bytes) => bytes.first().copied().zip(bytes.last().copied()),
        };
        object == Some(&stands)
    } else {
        false
    }
}

fn is_left(tape: &TapeMedium, position: u32, left: &[Object]) -> bool {
    for place in 0..tape.len() {
        if !is_there(tape, place, left.get(place as usize)) {
            return false;
        }
    }
    tape.position() == position && tape.len() as usize == left.len()
}

fn plays(alloc: Global, lot: Lot) -> Result<bool, NoMemory> {
    let Lot(objects, loads, steps, position, left) = lot;
    if objects == 0 || objects > 65_536 {
        return Ok(false);
    }
    let mut tape = TapeMedium::new(alloc, objects, SIZE, objects, 16)?;
    for object in loads {
        load(&mut tape, *object);
    }
    for step in steps {
        if !runs(&mut tape, *step) {
            return Ok(false);
        }
    }
    Ok(is_left(&tape, position, left))
}

#[test]
fn commands_of_whole_runs(rt: HostRuntime) -> Result<(), NoMemory> {
    for lot in LOTS {
        assert!(rt; plays(rt.alloc(), lot)?);
    }
    Ok(())
}
