//! A source and a sink in memory, which fail at chosen calls.
ghost use Rattle.std.specs.Prelude.{◌≡◌, ◌<◌, ◌≤◌, ◌++◌, take, Some, IfOk, OnErr, length};
ghost use Rattle.bus_base.specs.Faults.{HasRisen};
ghost use Rattle.bus_base.specs.Taken.{TakesFront};
ghost use Rattle.bus_base.specs.Memory.{new_source, read_result, read_into, read_state, new_sink, write_result, write_state};

use super::failures::{Failed, NoMemory};
use super::input::Source;
use super::output::Sink;
use std::alloc::Global;
use std::marker::Model;

/// A source in memory. It hands out at most `most` bytes a call, and the calls whose numbers,
/// from 1, stand in `fail` fail, and no others.
#[derive(Drop)]
pub struct MemSource {
    bytes: Vec<u8>,
    at: usize,
    most: usize,
    fail: Vec<u64>,
    calls: u64,
    faults: u64,
}

impl Model for MemSource {
    ghost use Rattle.std.specs.Prelude.{◌≤◌, length, drop};
    ghost use Rattle.bus_base.specs.Memory.{SourceState};

    ghost Value = { SourceState };

    ghost view = { λ s. record {
      bytes = drop s.at s.bytes.items;
      most = s.most;
      fail = s.fail.items;
      calls = s.calls;
      faults = s.faults;
    } };

    ghost invariant = { λ s. (s.at ≤ length s.bytes.items) × (1 ≤ s.most) };
}

impl MemSource {
    /// A source of `bytes`, `most` bytes a call at most, whose calls numbered in `fail` fail.
    pub fn new(
        alloc: Global,
        bytes: &[u8],
        most: usize,
        fail: &[u64],
    ) -> Result<MemSource, NoMemory>
        requires { 1 ≤ most }
        ensures { IfOk result (λ made. made ≡ new_source bytes.now most fail.now) }
    {
        let bytes = Vec::from_slice(alloc, bytes)?;
        let fail = Vec::from_slice(alloc, fail)?;
        Ok(MemSource {
            bytes,
            at: 0,
            most,
            fail,
            calls: 0,
            faults: 0,
        })
    }
}

impl Source for MemSource {
    ghost left = { λ s. Some s.bytes };

    ghost faults = { λ s. s.faults };

    fn read(&mut self, into: &mut [u8]) -> Result<usize, Failed>
        ensures never_falls { self.old.faults ≤ self.new.faults }
        ensures failed { OnErr result (HasRisen self.old.faults self.new.faults) }
        ensures kept { OnErr result (Some self.new.bytes ≡ Some self.old.bytes) }
        ensures within { IfOk result (λ n. n ≤ length into.new) }
        ensures taken { IfOk result (λ n. TakesFront self.old.bytes (Some self.new.bytes) into.new n) }

        // Exactly what the call does.
        ensures answer { result ≡ read_result self.old (length into.old) }
        ensures filled { into.new ≡ read_into self.old into.old }
        ensures state { self.new ≡ read_state self.old (length into.old) }
    {
        self.calls = self.calls.saturating_add(1);
        if self.fail.contains(&self.calls) {
            self.faults = self.faults.saturating_add(1);
            return Err(Failed);
        }
        let count = into.len().min(self.most).min(self.bytes.len() - self.at);
        into[..count].copy_from_slice(&self.bytes[self.at..self.at + count]);
        self.at += count;
        Ok(count)
    }
}

/// A sink in memory. It takes at most `most` bytes a call and `room` bytes in all, and the calls
/// whose numbers, from 1, stand in `fail` fail, as do those that find no room.
#[derive(Drop)]
pub struct MemSink {
    bytes: Vec<u8>,
    room: usize,
    most: usize,
    fail: Vec<u64>,
    calls: u64,
    faults: u64,
}

impl Model for MemSink {
    ghost use Rattle.std.specs.Prelude.{◌≤◌, length, vec_capacity};
    ghost use Rattle.bus_base.specs.Memory.{SinkState};

    ghost Value = { SinkState };

    ghost view = { λ s. record {
      bytes = s.bytes.items;
      room = s.room;
      most = s.most;
      fail = s.fail.items;
      calls = s.calls;
      faults = s.faults;
    } };

    ghost invariant = { λ s. (length s.bytes.items ≤ s.room) × (s.room ≤ vec_capacity s.bytes) × (1 ≤ s.most) };
}

impl MemSink {
    /// An empty sink with room for `room` bytes, which it takes at once, so that no write takes
    /// memory. It takes `most` bytes a call at most, and its calls numbered in `fail` fail.
    pub fn new(alloc: Global, room: usize, most: usize, fail: &[u64]) -> Result<MemSink, NoMemory>
        requires { 1 ≤ most }
        ensures { IfOk result (λ made. made ≡ new_sink room most fail.now) }
    {
        let bytes = Vec::with_capacity(alloc, room)?;
        let fail = Vec::from_slice(alloc, fail)?;
        Ok(MemSink {
            bytes,
            room,
            most,
            fail,
            calls: 0,
            faults: 0,
        })
    }

    /// The bytes written so far.
    pub fn bytes(&self) -> &[u8]
        ensures { result.now ≡ self.now.bytes }
    {
        self.bytes.as_slice()
    }
}

impl Sink for MemSink {
    ghost written = { λ s. Some s.bytes };

    ghost faults = { λ s. s.faults };

    fn write(&mut self, piece: &[u8]) -> Result<usize, Failed>
        ensures never_falls { self.old.faults ≤ self.new.faults }
        ensures failed { OnErr result (HasRisen self.old.faults self.new.faults) }
        ensures kept { OnErr result (Some self.new.bytes ≡ Some self.old.bytes) }
        ensures within { IfOk result (λ n. n ≤ length piece.now) }
        ensures moves { IfOk result (λ n. 0 < length piece.now → 0 < n) }
        ensures added { IfOk result (λ n. Some self.new.bytes ≡ Some (self.old.bytes ++ take n piece.now)) }

        // Exactly what the call does.
        ensures answer { result ≡ write_result self.old (length piece.now) }
        ensures state { self.new ≡ write_state self.old piece.now }
    {
        self.calls = self.calls.saturating_add(1);
        let left = self.room - self.bytes.len();
        if self.fail.contains(&self.calls) || (left == 0 && !piece.is_empty()) {
            self.faults = self.faults.saturating_add(1);
            return Err(Failed);
        }
        let count = piece.len().min(self.most).min(left);
        self.bytes.extend_from_slice(&piece[..count]).unwrap();
        Ok(count)
    }
}
