//! The trusted edge: std's readers and writers as sources and sinks. Generic callers are told
//! nothing of the bytes; a clause passes on what the reader or writer itself tells.
ghost use Rattle.std.specs.Prelude.{◌≡◌, ◌<◌, ◌≤◌, length, IfOk, OnErr, None};
ghost use Rattle.std.specs.Io.KnownBytes.{ReadConsumes, WriteAppends};
ghost use Rattle.bus_base.specs.Faults.{HasRisen, counted_after};
ghost use Rattle.bus_base.specs.Standard.{source_reader, source_faults, sink_writer, sink_faults};

use super::failures::Failed;
use super::input::Source;
use super::output::Sink;
use std::io::{Read, Write};

/// A source over any reader of std.
#[derive(Drop)]
pub struct StdSource<R> {
    inner: R,
    faults: u64,
}

impl<R: Read> StdSource<R> {
    /// A source over this reader, of which no read has failed yet.
    pub fn new(inner: R) -> StdSource<R>
        ensures count { ⟦<StdSource<R> as Source>⟧.faults result ≡ 0 }
        ensures reader { source_reader result ≡ inner }
    {
        StdSource { inner, faults: 0 }
    }
}

impl<R: Read> Source for StdSource<R> {
    ghost left = { λ _. None };

    ghost faults = { λ s. source_faults s };

    /// One read of the reader.
    fn read(&mut self, into: &mut [u8]) -> Result<usize, Failed>
        ensures never_falls { source_faults self.old ≤ source_faults self.new }
        ensures failed { OnErr result (HasRisen (source_faults self.old) (source_faults self.new)) }
        ensures within { IfOk result (λ n. n ≤ length into.new) }

        ensures count { source_faults self.new ≡ counted_after result (source_faults self.old) }
        ensures passed { ReadConsumes (R.remaining (source_reader self.old))
            (R.remaining (source_reader self.new)) result into.new }
    {
        match self.inner.read(into) {
            Ok(count) => Ok(count),
            Err(_) => {
                self.faults = self.faults.saturating_add(1);
                Err(Failed)
            }
        }
    }
}

/// A sink over any writer of std.
#[derive(Drop)]
pub struct StdSink<W> {
    inner: W,
    faults: u64,
}

impl<W: Write> StdSink<W> {
    /// A sink over this writer, to which no write has failed yet.
    pub fn new(inner: W) -> StdSink<W>
        ensures count { ⟦<StdSink<W> as Sink>⟧.faults result ≡ 0 }
        ensures writer { sink_writer result ≡ inner }
    {
        StdSink { inner, faults: 0 }
    }
}

impl<W: Write> Sink for StdSink<W> {
    ghost written = { λ _. None };

    ghost faults = { λ s. sink_faults s };

    /// One write to the writer. A write that takes nothing of a piece that is not empty is a
    /// failure.
    fn write(&mut self, piece: &[u8]) -> Result<usize, Failed>
        ensures never_falls { sink_faults self.old ≤ sink_faults self.new }
        ensures failed { OnErr result (HasRisen (sink_faults self.old) (sink_faults self.new)) }
        ensures within { IfOk result (λ n. n ≤ length piece.now) }
        ensures moves { IfOk result (λ n. 0 < length piece.now → 0 < n) }

        ensures count { sink_faults self.new ≡ counted_after result (sink_faults self.old) }
        ensures passed { WriteAppends (W.contents (sink_writer self.old))
            (W.contents (sink_writer self.new)) result piece.now }
    {
        match self.inner.write(piece) {
            Ok(count) if count > 0 || piece.is_empty() => Ok(count),
            _ => {
                self.faults = self.faults.saturating_add(1);
                Err(Failed)
            }
        }
    }
}
