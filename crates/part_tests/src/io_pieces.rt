//! Tests of `bus_base`: each public function once, on its happy path and at its edges.
ghost use Rattle.std.specs.Prelude.{◌≡◌, ◌+◌, ◌<◌};

use bus_base::{
    Failed, MemSink, MemSource, NoMemory, Octets, ReadEnd, Sink, Source, StdSink, StdSource, Steps,
    read_all, write_all,
};
use std::alloc::{AllocError, Global};
use std::marker::Brand;
use std::sync::ledger::{Blank, Ledger};

#[test]
fn reads_all_up_to_the_limit(rt: HostRuntime) -> Result<(), NoMemory> {
    // Ten bytes in pieces of three: five calls, of which the last finds the end.
    for (limit, failing, want) in [
        (10usize, 6u64, None),
        (usize::MAX, 6, None),
        (9, 6, Some(ReadEnd::TooLong)),
        (10, 5, Some(ReadEnd::Fault)),
        (10, 1, Some(ReadEnd::Fault)),
    ] {
        let mut source = MemSource::new(rt.alloc(), b"0123456789", 3, &[failing])?;
        let is_wanted = match read_all(rt.alloc(), &mut source, limit) {
            Ok(read) => want.is_none() && read.as_slice() == b"0123456789".as_slice(),
            Err(end) => want == Some(end),
        };
        assert!(rt; is_wanted, "limit {limit}, failing {failing}");
    }
    Ok(())
}

#[test]
fn reads_in_pieces(rt: HostRuntime) -> Result<(), NoMemory> {
    let mut source = MemSource::new(rt.alloc(), b"abcd", 3, &[2])?;
    let mut buffer = [0u8; 8];
    assert!(rt; source.read(&mut buffer) == Ok(3));
    assert!(rt; source.read(&mut buffer) == Err(Failed));
    assert!(rt; source.read(&mut buffer[4..]) == Ok(1));
    assert!(rt; source.read(&mut buffer) == Ok(0));
    assert!(rt; &buffer[..] == b"abc\0d\0\0\0".as_slice());
    Ok(())
}

#[test]
fn writes_in_pieces(rt: HostRuntime) -> Result<(), NoMemory> {
    let mut sink = MemSink::new(rt.alloc(), 6, 2, &[3])?;
    assert!(rt; sink.write(b"abc") == Ok(2));
    assert!(rt; sink.write(b"c") == Ok(1));
    assert!(rt;
        write_all(&mut sink, b"def") == Err(Failed),
        "the third call fails"
    );
    assert!(rt; write_all(&mut sink, b"def") == Ok(()));
    assert!(rt;
        sink.write(b"") == Ok(0),
        "there is always room for nothing"
    );
    assert!(rt;
        write_all(&mut sink, b"g") == Err(Failed),
        "there is no room"
    );
    assert!(rt; sink.bytes() == b"abcdef".as_slice());
    Ok(())
}

#[test]
fn passes_bytes_through_std(rt: HostRuntime) -> Result<(), AllocError> {
    let mut source = StdSource::new(&b"through"[..]);
    match read_all(rt.alloc(), &mut source, 7) {
        Ok(read) => assert!(rt; read.as_slice() == b"through".as_slice()),
        Err(_) => panic!(rt; "it is read"),
    }
    let mut held = Vec::new(rt.alloc());
    let mut sink = StdSink::new(&mut held);
    assert!(rt; write_all(&mut sink, b"through") == Ok(()));
    assert!(rt; held.as_slice() == b"through".as_slice());
    Ok(())
}

#[test]
fn copies_octets(rt: HostRuntime) -> Result<(), NoMemory> {
    let octets = Octets::new(Vec::from_slice(rt.alloc(), b"\x12\0\xff")?);
    let copied = octets.copy(rt.alloc())?;
    assert!(rt; copied.as_slice() == b"\x12\0\xff".as_slice());
    Ok(())
}

fn two_steps<L: Ledger>(blank: Blank)
    requires name { blank.name ≡ L.name }
    requires parts { blank.parts ≡ L.parts }
    requires some { 0 < blank.parts }
{
    let mut steps = Steps::<L>::new(blank);
    steps.tick();
    steps.tick();
}

#[test]
fn counts_steps() {
    two_steps::<Brand>(Blank::new(1));
}
