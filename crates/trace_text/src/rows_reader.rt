//! A reader among the rows, where a line begins.
ghost use Rattle.std.specs.Prelude.{◌≡◌, ℕ, ◌+◌, ◌<◌, ◌≤◌, List, ◌∷◌, ◌++◌, length, reverse, take, None, IfSome};
ghost use Rattle.trace_text.specs.declared.limit.TheConstants.{LIMIT as TRACE_LIMIT};
ghost use Rattle.trace_text.specs.Pieces.{front_row};
ghost use Rattle.trace_text.specs.Bytes.{rows_of, reader_of, IsReaderOf};

use crate::line_front::LineFront;
use crate::reader::TraceReader;
use crate::stages::{Stage, State, row_front};
use bus_trace::Row;

/// What a [`TraceReader`] is among the rows, where a line begins: most lines of a long trace are rows of lines, which
/// it takes one after another. It leaves all others to the reader.
#[derive(Drop)]
pub struct RowsReader {
    pub(crate) count: u32,
}

impl RowsReader {
    /// Takes the line of a row of lines that the piece begins with: the row, and how many bytes its line has with its
    /// line feed. `None` changes nothing. In the clauses the bytes stand newest first.
    #[inline(always)]
    pub fn take(&mut self, piece: &[u8]) -> Option<(Row, usize)>
        ensures exact { result ≡ front_row piece.now }
        ensures none { result ≡ None → self.new ≡ self.old }
        ensures kept { IfSome result (λ x. (bytes : List ℕ) → IsReaderOf bytes (reader_of self.old)
            → length bytes + length piece.now ≤ TRACE_LIMIT
            → IsReaderOf (reverse (take x.1 piece.now) ++ bytes) (reader_of self.new)) }
        ensures rows { IfSome result (λ x. (bytes : List ℕ) → IsReaderOf bytes (reader_of self.old)
            → length bytes + length piece.now ≤ TRACE_LIMIT
            → rows_of (reverse (take x.1 piece.now) ++ bytes) ≡ x.0 ∷ rows_of bytes) }
        ensures some { IfSome result (λ x. 0 < x.1) }
        ensures within { IfSome result (λ x. x.1 ≤ length piece.now) }
        ensures device { IfSome result (λ x. x.0.dev < 8) }
    {
        let (row, len) = row_front(piece)?;
        self.count = self.count.wrapping_add(1);
        Some((row, len))
    }

    /// The reader after these rows.
    pub fn reader(self) -> TraceReader
        ensures { result ≡ reader_of self }
    {
        TraceReader {
            line: LineFront::new(),
            state: State::Open {
                stage: Stage::Rows,
                count: self.count,
            },
        }
    }
}
