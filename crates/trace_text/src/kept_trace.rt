//! A trace text whose rows are kept as its bytes come.
ghost use Rattle.std.specs.Prelude.{ℕ, ◌≡◌, ◌+◌, ◌<◌, ◌≤◌, [], ◌++◌, List, length, reverse, take, IfOk, OnOk};
ghost use Rattle.std.specs.List.{AllByRecursion};
ghost use Rattle.bus_trace.specs.OfTrace.{IsRow};
ghost use Rattle.trace_text.specs.declared.limit.TheConstants.{LIMIT as TRACE_LIMIT};
ghost use Rattle.trace_text.specs.Bytes.{rows_next};
ghost use Rattle.trace_text.specs.Whole.{kept_of, trace_told};

use crate::reader::TraceReader;
use crate::stages::Told;
use crate::whole::Trace;
use row_store::RowStore;
use std::alloc::{AllocError, Global};

/// A trace text that is read in pieces, of which the rows are kept and no text.
#[derive(Drop)]
pub struct KeptTrace {
    reader: TraceReader,
    rows: RowStore,
}

// The row that a byte told, if it told one.
fn keep(rows: &mut RowStore, told: Told) -> Result<(), AllocError>
    ensures { OnOk result (reverse rows.new ≡ rows_next told (reverse rows.old)) }
{
    match told {
        Told::RowRead(row) => rows.push(&row),
        Told::Quiet | Told::Bad(_) => Ok(()),
    }
}

impl KeptTrace {
    ghost use Rattle.trace_text.specs.Whole.{IsKeptOf};

    /// No byte has come.
    pub fn new(alloc: Global) -> KeptTrace
        ensures { IsKeptOf [] result }
    {
        KeptTrace {
            reader: TraceReader::new(),
            rows: RowStore::new(alloc),
        }
    }

    // The lines of rows that the piece begins with, where a line begins among the rows: how many bytes they were.
    #[inline(never)]
    fn take_rows(&mut self, piece: &[u8]) -> Result<usize, AllocError>
        ensures kept { IfOk result (λ n. (bytes : List ℕ) → IsKeptOf bytes self.old
            → length bytes + length piece.now ≤ TRACE_LIMIT
            → IsKeptOf (reverse (take n piece.now) ++ bytes) self.new) }
        ensures within { IfOk result (λ n. n ≤ length piece.now) }
    {
        let Some(mut rows) = self.reader.among_rows() else {
            return Ok(0);
        };
        let mut at = 0;
        while let Some((row, len)) = rows.take(&piece[at..]) {
            self.rows.push(&row)?;
            at += len;
        }
        self.reader = rows.reader();
        Ok(at)
    }

    // The first line of the piece more, or all of it where it has no line feed: how many bytes they were.
    fn take_line(&mut self, piece: &[u8]) -> Result<usize, AllocError>
        ensures kept { IfOk result (λ n. (bytes : List ℕ) → IsKeptOf bytes self.old
            → length bytes + length piece.now ≤ TRACE_LIMIT
            → IsKeptOf (reverse (take n piece.now) ++ bytes) self.new) }
        ensures some { 0 < length piece.now → IfOk result (λ n. 0 < n) }
        ensures within { IfOk result (λ n. n ≤ length piece.now) }
    {
        let (told, len) = self.reader.take(piece);
        keep(&mut self.rows, told)?;
        Ok(len)
    }

    // The lines of rows that the piece begins with; where there are none, its first line, or all of it where it has no
    // line feed: how many bytes they were.
    fn take(&mut self, piece: &[u8]) -> Result<usize, AllocError>
        ensures kept { IfOk result (λ n. (bytes : List ℕ) → IsKeptOf bytes self.old
            → length bytes + length piece.now ≤ TRACE_LIMIT
            → IsKeptOf (reverse (take n piece.now) ++ bytes) self.new) }
        ensures some { 0 < length piece.now → IfOk result (λ n. 0 < n) }
        ensures within { IfOk result (λ n. n ≤ length piece.now) }
    {
        let len = self.take_rows(piece)?;
        if len > 0 {
            return Ok(len);
        }
        let line = self.take_line(piece)?;
        Ok(line)
    }

    /// Some bytes more. In the clauses the bytes stand newest first.
    ///
    /// # Errors
    ///
    /// `AllocError` where there was no memory left; it is of no use then.
    pub fn take_all(&mut self, piece: &[u8]) -> Result<(), AllocError>
        ensures { OnOk result ((bytes : List ℕ) → IsKeptOf bytes self.old
            → length bytes + length piece.now ≤ TRACE_LIMIT → IsKeptOf (reverse piece.now ++ bytes) self.new) }
    {
        let mut at = 0;
        while at < piece.len() {
            at += self.take(&piece[at..])?;
        }
        Ok(())
    }

    /// The bytes are over: their rows and their end, or the first line that breaks the form.
    pub fn finish(self) -> Result<Trace, u32>
        ensures exact { (bytes : List ℕ) → IsKeptOf bytes self → length bytes ≤ TRACE_LIMIT
            → trace_told result ≡ kept_of bytes }
        // Each row is of one of the eight devices.
        ensures rows { (bytes : List ℕ) → IsKeptOf bytes self
            → IfOk result (λ trace. AllByRecursion IsRow trace.rows) }
    {
        match self.reader.finish() {
            Ok(end) => Ok(Trace {
                rows: self.rows,
                end,
            }),
            Err(line) => Err(line),
        }
    }
}
