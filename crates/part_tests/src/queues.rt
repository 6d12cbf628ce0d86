//! Tests of `tag_queue`: commands of two initiators, as they arrive, are chosen and leave.
ghost use Rattle.std.specs.Prelude.{◌≡◌, ◌<◌};

use bus_base::NoMemory;
use tag_queue::{Class, Entry, Full, Pick, ProcId, Queue};

fn entry(command: u16, from: u8, tag: u8, class: Class, first: u32, writes: bool) -> Entry {
    Entry {
        id: ProcId {
            command,
            sense: false,
        },
        from,
        tag: Some(tag),
        class,
        first,
        count: 1,
        writes,
    }
}

#[test]
fn choices(rt: HostRuntime) -> Result<(), NoMemory> {
    let mut queue = Queue::new(rt.alloc(), 4)?;
    assert!(rt; queue.choose(Pick::First) == None);
    let read = entry(1, 7, 0, Class::Simple, 9, false);
    let write = entry(2, 7, 1, Class::Simple, 0, true);
    let again = entry(3, 7, 2, Class::Simple, 0, true);
    let other = entry(4, 6, 0, Class::Simple, 0, true);
    let one = queue.enter(read);
    let two = queue.enter(write);
    let three = queue.enter(again);
    let four = queue.enter(other);
    assert!(rt; queue.enter(other) == Err(Full));
    // The second write of initiator 7 waits for the first; the write of initiator 6 does not.
    assert!(rt; queue.choose(Pick::First).ok_or(Full) == one);
    assert!(rt; queue.choose(Pick::Last).ok_or(Full) == four);
    if let (Ok(two), Ok(three)) = (two, three) {
        assert!(rt; queue.may_run(two));
        assert!(rt; !queue.may_run(three));
    }
    assert!(rt; queue.find(7, Some(2)).ok_or(Full) == three);
    assert!(rt; queue.find(6, Some(2)) == None);
    queue.hold(7);
    assert!(rt; queue.holds(7));
    assert!(rt; queue.held());
    assert!(rt; queue.choose(Pick::First) == None);
    queue.release(7);
    assert!(rt; !queue.held());
    assert!(rt; queue.clear_of(Some(7)) == 3);
    assert!(rt; queue.choose(Pick::Last).ok_or(Full) == four);
    Ok(())
}

#[test]
fn one_command(rt: HostRuntime) -> Result<(), NoMemory> {
    let mut queue = Queue::new(rt.alloc(), 1)?;
    let head = entry(1, 7, 5, Class::Head, 0, false);
    if let Ok(key) = queue.enter(head) {
        assert!(rt; *queue.entry(key) == head);
        assert!(rt; queue.choose(Pick::Last) == Some(key));
        assert!(rt; queue.remove(key) == head);
    }
    assert!(rt; queue.clear_of(None) == 0);
    Ok(())
}
