//! A trace text that is judged as its bytes come, with no memory.
ghost use Rattle.std.specs.Prelude.{ℕ, ◌≡◌, ◌+◌, ◌<◌, ◌≤◌, [], ◌∷◌, ◌++◌, List, length, reverse, take};
ghost use Rattle.trace_text.specs.declared.limit.TheConstants.{LIMIT as TRACE_LIMIT};
ghost use Rattle.bus_cli.specs.Hearing.{heard_verdict};

use bus_rules::Verdict;
use trace_checker::Judge;
use trace_text::{Told, TraceReader};

/// A trace text that is judged as its bytes come.
#[derive(Drop)]
pub struct Hearing {
    reader: TraceReader,
    judge: Judge,
}

impl Hearing {
    ghost use Rattle.bus_cli.specs.Hearing.{IsHearingOf};

    /// No byte has come.
    pub fn new() -> Hearing
        ensures { IsHearingOf [] result }
    {
        Hearing {
            reader: TraceReader::new(),
            judge: Judge::new(),
        }
    }

    // The lines of rows that the piece begins with, where a line begins among the rows: how many bytes they were.
    #[inline(never)]
    fn take_rows(&mut self, piece: &[u8]) -> usize
        ensures kept { (bytes : List ℕ) → IsHearingOf bytes self.old → length bytes + length piece.now ≤ TRACE_LIMIT
            → IsHearingOf (reverse (take result piece.now) ++ bytes) self.new }
        ensures within { result ≤ length piece.now }
    {
        let Some(mut rows) = self.reader.among_rows() else {
            return 0;
        };
        let mut at = 0;
        while let Some((row, len)) = rows.take(&piece[at..]) {
            self.judge.take(&row);
            at += len;
        }
        self.reader = rows.reader();
        at
    }

    // The first line of the piece more, or all of it where it has no line feed: how many bytes they were.
    fn take_line(&mut self, piece: &[u8]) -> usize
        ensures kept { (bytes : List ℕ) → IsHearingOf bytes self.old → length bytes + length piece.now ≤ TRACE_LIMIT
            → IsHearingOf (reverse (take result piece.now) ++ bytes) self.new }
        ensures some { 0 < length piece.now → 0 < result }
        ensures within { result ≤ length piece.now }
    {
        let (told, len) = self.reader.take(piece);
        match told {
            Told::RowRead(row) => {
                self.judge.take(&row);
                len
            }
            Told::Quiet | Told::Bad(_) => len,
        }
    }

    // The lines of rows that the piece begins with; where there are none, its first line, or all of it where it has no
    // line feed: how many bytes they were.
    fn take(&mut self, piece: &[u8]) -> usize
        ensures kept { (bytes : List ℕ) → IsHearingOf bytes self.old → length bytes + length piece.now ≤ TRACE_LIMIT
            → IsHearingOf (reverse (take result piece.now) ++ bytes) self.new }
        ensures some { 0 < length piece.now → 0 < result }
        ensures within { result ≤ length piece.now }
    {
        let len = self.take_rows(piece);
        if len > 0 {
            return len;
        }
        self.take_line(piece)
    }

    /// Some bytes more. In the clauses the bytes stand newest first.
    pub fn take_all(&mut self, piece: &[u8])
        ensures { (bytes : List ℕ) → IsHearingOf bytes self.old → length bytes + length piece.now ≤ TRACE_LIMIT
            → IsHearingOf (reverse piece.now ++ bytes) self.new }
    {
        let mut at = 0;
        while at < piece.len() {
            at += self.take(&piece[at..]);
        }
    }

    /// The bytes are over: the verdict on their trace, or the first line that breaks the form.
    pub fn finish(self) -> Result<Verdict, u32>
        ensures { (bytes : List ℕ) → IsHearingOf bytes self → length bytes ≤ TRACE_LIMIT
            → result ≡ heard_verdict bytes }
    {
        match self.reader.finish() {
            Ok(end) => Ok(self.judge.finish(end)),
            Err(line) => Err(line),
        }
    }
}
