//! A reader of single bytes.
ghost use Rattle.std.specs.Prelude.{◌≡◌, ℕ, ◌+◌, ◌<◌, ◌≤◌, ◌^◌, List, [], ◌∷◌, ◌++◌, length, reverse, take, None, IfSome};
ghost use Rattle.std.specs.List.{prefix_len};
ghost use Rattle.trace_text.specs.declared.limit.TheConstants.{LIMIT as TRACE_LIMIT};
ghost use Rattle.trace_text.specs.Lines.{count_of, stepped, TellsOfBus};
ghost use Rattle.trace_text.specs.Pieces.{is_inner, text_of, line_len, StartsWithRow};
ghost use Rattle.trace_text.specs.Bytes.{quiet, told_at, told_of, rows_next, rows_of, reader_of, end_told, end_of};
ghost use Rattle.trace_text.specs.declared.rows_reader.RowsReader.{RowsReader};

use crate::line_front::LineFront;
use crate::rows_reader::RowsReader;
use crate::stages::{Stage, State, Told, row_front, stepped};
use bus_base::Ns;
use bus_trace::Row;

/// Reads a trace text byte by byte or in pieces, and keeps no row. However a text is cut into pieces, each row is told
/// with the line feed that ends its line, and the first line that breaks the form with its own, if it has
/// one. Texts have at most 1,073,741,824 bytes.
#[derive(Drop)]
pub struct TraceReader {
    pub(crate) line: LineFront,
    pub(crate) state: State,
}

fn quiet(state: State) -> Told
    ensures exact { result ≡ quiet state }
    ensures device { TellsOfBus result }
{
    match state {
        State::Bad(at) => Told::Bad(at),
        State::Open { .. } => Told::Quiet,
    }
}

fn end_told(state: State, rest: &[u8]) -> Result<Ns, u32>
    ensures { count_of state < 2 ^ 31 → result ≡ end_told state rest.now }
{
    match state {
        State::Bad(at) => Err(at),
        State::Open {
            stage: Stage::History(end),
            ..
        } => Ok(end),
        State::Open {
            stage: Stage::Ended(end),
            count,
        } => {
            if rest.is_empty() {
                Ok(end)
            } else {
                Err(count.saturating_add(1))
            }
        }
        State::Open { count, .. } => Err(count.saturating_add(1)),
    }
}

// How many bytes the first line has without its line feed, or all of them where it has none.
fn text_len(piece: &[u8]) -> usize
    ensures exact { result ≡ prefix_len is_inner piece.now }
    ensures within { result ≤ length piece.now }
{
    piece.iter().take_while(|b| **b != b'\n').count()
}

impl TraceReader {
    ghost use Rattle.trace_text.specs.Bytes.{IsReaderOf, IsRowTaken};

    /// A reader that has taken no byte.
    pub fn new() -> TraceReader
        ensures { IsReaderOf [] result }
    {
        TraceReader {
            line: LineFront::new(),
            state: State::Open {
                stage: Stage::Start,
                count: 0,
            },
        }
    }

    /// Takes one byte more, and says what it told. In the clauses the bytes stand newest first.
    pub fn push(&mut self, byte: u8) -> Told
        ensures kept { (bytes : List ℕ) → IsReaderOf bytes self.old → length bytes < TRACE_LIMIT
            → IsReaderOf (byte ∷ bytes) self.new }
        ensures device { TellsOfBus result }
        ensures told { (bytes : List ℕ) → IsReaderOf bytes self.old → length bytes < TRACE_LIMIT
            → result ≡ told_at bytes byte }
    {
        if byte == b'\n' {
            let (state, told) = stepped(self.state, self.line.text());
            self.line.clear();
            self.state = state;
            told
        } else {
            self.line.push(byte);
            quiet(self.state)
        }
    }

    // The state after the line that these bytes end, and what its line feed tells. A line that came whole is
    // not copied.
    fn stepped_by(&mut self, text: &[u8]) -> (State, Told)
        ensures exact { count_of self.old.state + 1 < 2 ^ 32
            → result ≡ stepped self.old.state (take 28 (self.old.line ++ text.now)) }
        ensures device { TellsOfBus result.1 }
    {
        if self.line.is_empty() {
            return stepped(self.state, text);
        }
        self.line.push_all(text);
        stepped(self.state, self.line.text())
    }

    // Takes the first line of the piece, or all of it where it has no line feed.
    #[inline(always)]
    fn take_line(&mut self, piece: &[u8]) -> (Told, usize)
        ensures kept { (bytes : List ℕ) → IsReaderOf bytes self.old → length bytes + length piece.now ≤ TRACE_LIMIT
            → IsReaderOf (reverse (take result.1 piece.now) ++ bytes) self.new }
        ensures told { (bytes : List ℕ) → IsReaderOf bytes self.old → length bytes + length piece.now ≤ TRACE_LIMIT
            → result.0 ≡ told_of bytes piece.now }
        ensures len { result.1 ≡ line_len piece.now }
        ensures device { TellsOfBus result.0 }
    {
        let len = text_len(piece);
        let text = &piece[..len];
        if len == piece.len() {
            self.line.push_all(text);
            (quiet(self.state), len)
        } else {
            let (state, told) = self.stepped_by(text);
            self.line.clear();
            self.state = state;
            (told, len + 1)
        }
    }

    // Takes the line of a row that the piece begins with, where a line begins among the rows: the row, and how many
    // bytes its line has. `None` changes nothing.
    #[inline(always)]
    fn take_row(&mut self, piece: &[u8]) -> Option<(Row, usize)>
        ensures none { result ≡ None → self.new ≡ self.old }
        ensures some { IfSome result (λ x. IsRowTaken self.old self.new piece.now x.0 x.1) }
    {
        if !self.line.is_empty() {
            return None;
        }
        match &mut self.state {
            State::Open {
                stage: Stage::Rows,
                count,
            } => {
                let (row, len) = row_front(piece)?;
                *count = count.saturating_add(1);
                Some((row, len))
            }
            _ => None,
        }
    }

    /// What it is among the rows, where a line begins.
    pub fn among_rows(&self) -> Option<RowsReader>
        ensures some { IfSome result (λ r. self.now ≡ reader_of r) }
        ensures none { result ≡ None → (r : RowsReader) → self.now ≡ reader_of r → ⊥ }
    {
        if !self.line.is_empty() {
            return None;
        }
        match self.state {
            State::Open {
                stage: Stage::Rows,
                count,
            } => Some(RowsReader { count }),
            _ => None,
        }
    }

    /// Takes the bytes of the piece up to and with its first line feed, or all of them where it has none: what they
    /// told, which is what the last of them does, and how many they were. In the clauses the bytes stand newest first.
    #[inline(always)]
    pub fn take(&mut self, piece: &[u8]) -> (Told, usize)
        ensures kept { (bytes : List ℕ) → IsReaderOf bytes self.old → length bytes + length piece.now ≤ TRACE_LIMIT
            → IsReaderOf (reverse (take result.1 piece.now) ++ bytes) self.new }
        ensures told { (bytes : List ℕ) → IsReaderOf bytes self.old → length bytes + length piece.now ≤ TRACE_LIMIT
            → result.0 ≡ told_of bytes piece.now }
        ensures rows { (bytes : List ℕ) → IsReaderOf bytes self.old → length bytes + length piece.now ≤ TRACE_LIMIT
            → rows_of (reverse (take result.1 piece.now) ++ bytes) ≡ rows_next result.0 (rows_of bytes) }
        ensures len { result.1 ≡ line_len piece.now }
        ensures some { 0 < length piece.now → 0 < result.1 }
        ensures within { result.1 ≤ length piece.now }
        ensures device { TellsOfBus result.0 }
    {
        match self.take_row(piece) {
            Some((row, len)) => (Told::RowRead(row), len),
            None => self.take_line(piece),
        }
    }

    /// The text is over: the time of its end, or the first line that breaks the form.
    pub fn finish(self) -> Result<Ns, u32>
        ensures { (bytes : List ℕ) → IsReaderOf bytes self → length bytes ≤ TRACE_LIMIT → result ≡ end_of bytes }
    {
        end_told(self.state, self.line.text())
    }
}
