//! Tests of `io_pointers`: the pointers over connections of one process, and what its buffer holds.
ghost use Rattle.std.specs.Prelude.{◌≡◌, ◌<◌, ◌≤◌, length};

use bus_base::NoMemory;
use io_pointers::{Area, HostBuffer, Place, Pointers};

fn place(command: u32, payload: u32, status: u32) -> Place
    ensures { result ≡ record { command = command; payload = payload; status = status } }
{
    Place {
        command,
        payload,
        status,
    }
}

#[test]
fn disconnected_without_save(rt: HostRuntime) {
    let mut pointers = Pointers::new();
    assert!(rt; pointers.active == place(0, 0, 0));
    assert!(rt; pointers.saved == place(0, 0, 0));
    pointers.advance(Area::Command);
    pointers.advance(Area::Payload);
    pointers.advance(Area::Payload);
    pointers.save_data();
    pointers.advance(Area::Payload);
    pointers.advance(Area::Status);
    assert!(rt; pointers.active == place(1, 3, 1));
    assert!(rt; pointers.saved == place(0, 2, 0));
    // The next connection goes on behind the bytes that were saved, and RESTORE POINTERS after one byte of it.
    pointers.connect();
    assert!(rt; pointers.active == place(0, 2, 0));
    pointers.advance(Area::Payload);
    pointers.restore();
    assert!(rt; pointers.active == place(0, 2, 0));
    assert!(rt; pointers.saved == place(0, 2, 0));
}

#[test]
fn bytes_at_their_places(rt: HostRuntime) -> Result<(), NoMemory> {
    let mut buffer = HostBuffer::new(rt.alloc(), 3)?;
    assert!(rt; buffer.take(2) == 0);
    buffer.put(0, 0xaa);
    buffer.put(1, 0xbb);
    buffer.put(0, 0xcc);
    assert!(rt; buffer.take(0) == 0xcc);
    assert!(rt; buffer.take(1) == 0xbb);
    assert!(rt; buffer.into_bytes().as_slice() == [0xccu8, 0xbb, 0x00].as_slice());
    Ok(())
}
