//! Texts that are cut short or spoilt, and sources and sinks that fail, at every place.
use super::wholes::PLAIN;
use super::{ROOM, ended};
use bus_base::{MemSink, MemSource, NoMemory};
use bus_cli::Status;
use std::alloc::Global;

/// The number of the line in which the byte after these stands.
fn line_after(bytes: &[u8]) -> u32 {
    let mut line = 1u32;
    for byte in bytes {
        if *byte == b'\n' {
            line = line.saturating_add(1);
        }
    }
    line
}

/// The report's trace, to its end line.
fn plain_trace() -> &'static str {
    match PLAIN.1.split_once("history\n") {
        Some((trace, _)) => trace,
        None => "",
    }
}

/// These bytes with one of them replaced by 7f.
fn spoilt(alloc: Global, bytes: &[u8], at: usize) -> Result<Vec<u8>, NoMemory> {
    let mut spoilt = Vec::from_slice(alloc, bytes)?;
    if at < spoilt.len() {
        spoilt[at] = 0x7f;
    }
    Ok(spoilt)
}

/// How the program ends on these bytes.
pub fn ended_on(
    alloc: Global,
    word: &'static str,
    bytes: &[u8],
    out: &mut MemSink,
) -> Result<Status, NoMemory> {
    let mut input = MemSource::new(alloc, bytes, 64, &[])?;
    ended(alloc, &[word], &mut input, out)
}

#[test]
fn refuses_each_front_of_a_scenario(rt: HostRuntime) -> Result<(), NoMemory> {
    let whole = PLAIN.0.as_bytes();
    for at in 0..whole.len() {
        let front = &whole[..at];
        let mut out = MemSink::new(rt.alloc(), ROOM, ROOM, &[])?;
        let status = ended_on(rt.alloc(), "run", front, &mut out)?;
        let line = format!(in rt.alloc(); "scenario line {} reason 2\n", line_after(front))?;
        assert!(rt; status == Status::Refused, "{at}");
        assert!(rt; out.bytes() == line.as_str().as_bytes(), "{at}");
    }
    Ok(())
}

#[test]
fn refuses_each_spoilt_scenario(rt: HostRuntime) -> Result<(), NoMemory> {
    let whole = PLAIN.0.as_bytes();
    for at in 0..whole.len() {
        let bytes = spoilt(rt.alloc(), whole, at)?;
        let mut out = MemSink::new(rt.alloc(), ROOM, ROOM, &[])?;
        let status = ended_on(rt.alloc(), "run", &bytes, &mut out)?;
        let place = line_after(&whole[..at]);
        let line = format!(in rt.alloc(); "scenario line {place} reason 1\n")?;
        assert!(rt; status == Status::Refused, "{at}");
        assert!(rt; out.bytes() == line.as_str().as_bytes(), "{at}");
    }
    Ok(())
}

#[test]
fn refuses_each_front_of_a_trace(rt: HostRuntime) -> Result<(), NoMemory> {
    let whole = plain_trace().as_bytes();
    assert!(rt; whole.ends_with(b"end 9080\n"));
    for at in 0..whole.len() {
        let front = &whole[..at];
        let mut out = MemSink::new(rt.alloc(), ROOM, ROOM, &[])?;
        let status = ended_on(rt.alloc(), "judge", front, &mut out)?;
        let line = format!(in rt.alloc(); "trace line {}\n", line_after(front))?;
        assert!(rt; status == Status::BadTrace, "{at}");
        assert!(rt; out.bytes() == line.as_str().as_bytes(), "{at}");
    }
    Ok(())
}

#[test]
fn refuses_each_spoilt_trace(rt: HostRuntime) -> Result<(), NoMemory> {
    let whole = plain_trace().as_bytes();
    assert!(rt; whole.ends_with(b"end 9080\n"));
    for at in 0..whole.len() {
        let bytes = spoilt(rt.alloc(), whole, at)?;
        let mut out = MemSink::new(rt.alloc(), ROOM, ROOM, &[])?;
        let status = ended_on(rt.alloc(), "judge", &bytes, &mut out)?;
        let place = line_after(&whole[..at]);
        let line = format!(in rt.alloc(); "trace line {place}\n")?;
        assert!(rt; status == Status::BadTrace, "{at}");
        assert!(rt; out.bytes() == line.as_str().as_bytes(), "{at}");
    }
    Ok(())
}

#[test]
fn tells_each_failing_read(rt: HostRuntime) -> Result<(), NoMemory> {
    for call in 1..=257u64 {
        let mut input = MemSource::new(rt.alloc(), PLAIN.0.as_bytes(), 1, &[call])?;
        let mut out = MemSink::new(rt.alloc(), ROOM, ROOM, &[])?;
        let status = ended(rt.alloc(), &["run"], &mut input, &mut out)?;
        assert!(rt; status == Status::Read, "{call}");
        assert!(rt; out.bytes() == b"read fault\n".as_slice(), "{call}");
    }
    Ok(())
}

#[test]
fn tells_each_failing_write(rt: HostRuntime) -> Result<(), NoMemory> {
    for call in 1..=99u64 {
        let mut input = MemSource::new(rt.alloc(), PLAIN.0.as_bytes(), 64, &[])?;
        let mut out = MemSink::new(rt.alloc(), ROOM, 16, &[call])?;
        let status = ended(rt.alloc(), &["run"], &mut input, &mut out)?;
        assert!(rt; status == Status::Write, "{call}");
        assert!(rt; PLAIN.1.as_bytes().starts_with(out.bytes()), "{call}");
    }
    Ok(())
}
