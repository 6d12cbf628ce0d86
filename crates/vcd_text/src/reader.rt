//! A reader of a dump, piece by piece.
ghost use Rattle.std.specs.Prelude.{◌≡◌, ◌<◌, ◌≤◌, ◌++◌, length, take, reverse, not, None, IfOk, OnOk, if◌then◌else◌};
ghost use Rattle.std.specs.List.{AllByRecursion, prefix_len};
ghost use Rattle.bus_trace.specs.OfTrace.{IsRow};
ghost use Rattle.std.specs.Option.{is_some};
ghost use Rattle.vcd_text.specs.Tokens.{is_space, is_token};
ghost use Rattle.vcd_text.specs.Steps.{step, Steps};
ghost use Rattle.vcd_text.specs.Kept.{ReadsAs, IsShort};
ghost use Rattle.vcd_text.specs.Reading.{no_bytes, token_ended, line_after, spaced, taken, is_whole, read_by, read_of, Answers};

use crate::awaits::Awaits;
use crate::dump::{Dump, no_dump};
use crate::kept::keep_all;
use crate::steps::step;
use crate::tokens::{is_space, is_token};
use crate::whole::{VcdBad, VcdRows};
use crate::word::Word;
use std::alloc::{AllocError, Global};

/// Reads a dump in pieces, and keeps its rows and the codes of its variables.
#[derive(Drop)]
pub struct VcdReader {
    dump: Dump,
    /// The line of the first token that breaks the form.
    bad: Option<u32>,
    /// What has come of the next token.
    word: Word,
    line: u32,
}

// A token that has ended, and whether it is one that the form allows.
fn end(alloc: Global, dump: &mut Dump, token: &[u8]) -> Result<bool, AllocError>
    ensures { IfOk result (λ ok. Steps ok dump.old dump.new
        (if is_token token.now then step dump.old token.now else None)) }
{
    if is_token(token) {
        step(alloc, dump, token)
    } else {
        Ok(false)
    }
}

// How many bytes of a token the piece begins with.
fn inner_len(piece: &[u8]) -> usize
    ensures exact { result ≡ prefix_len (λ b. not (is_space b)) piece.now }
    ensures within { result ≤ length piece.now }
{
    piece.iter().take_while(|b| !is_space(**b)).count()
}

fn line_after(line: u32, byte: u8) -> u32
    ensures { result ≡ line_after line byte }
{
    if byte == b'\n' {
        line.saturating_add(1)
    } else {
        line
    }
}

fn is_whole(awaits: Awaits) -> bool
    ensures { result ≡ is_whole awaits }
{
    matches!(awaits, Awaits::Change)
}

fn rows_of(dump: Dump) -> VcdRows
    ensures rows { result.rows ≡ reverse dump.rows }
    ensures named { AllByRecursion IsRow result.rows }
    ensures end { result.end ≡ dump.time }
{
    let Dump { rows, time, .. } = dump;
    VcdRows {
        rows: rows.into_rows(),
        end: time,
    }
}

impl VcdReader {
    /// A reader that has taken no byte.
    pub fn new(alloc: Global) -> VcdReader
        ensures { result ≡ no_bytes }
    {
        VcdReader {
            dump: no_dump(alloc),
            bad: None,
            word: Word::new(alloc),
            line: 1,
        }
    }

    // The word has ended.
    fn end_word(&mut self, alloc: Global) -> Result<(), AllocError>
        ensures { OnOk result (self.new ≡ token_ended self.old self.old.word) }
    {
        if self.word.is_empty() {
            return Ok(());
        }
        if !end(alloc, &mut self.dump, self.word.as_slice())? {
            self.bad = Some(self.line);
        }
        Ok(())
    }

    // These bytes are a token, where there are any.
    fn end_text(&mut self, alloc: Global, text: &[u8]) -> Result<(), AllocError>
        ensures { OnOk result (self.new ≡ token_ended self.old text.now) }
    {
        if text.is_empty() {
            return Ok(());
        }
        if !end(alloc, &mut self.dump, text)? {
            self.bad = Some(self.line);
        }
        Ok(())
    }

    // The token that the word and these bytes are has ended. A token that came whole is not copied.
    fn end_token(&mut self, alloc: Global, text: &[u8]) -> Result<(), AllocError>
        ensures { OnOk result (self.new
            ≡ token_ended (record self.old { word = self.new.word }) (self.old.word ++ text.now)) }
    {
        if self.word.is_empty() {
            return self.end_text(alloc, text);
        }
        if keep_all(&self.dump, &mut self.word, text)? {
            return self.end_word(alloc);
        }
        self.bad = Some(self.line);
        Ok(())
    }

    // These bytes are within a token.
    fn grow(&mut self, text: &[u8]) -> Result<(), AllocError>
        requires open { self.old.bad ≡ None }
        ensures read { OnOk result (ReadsAs self.new (record self.old { word = self.old.word ++ text.now })) }
        ensures short { OnOk result (IsShort self.old.dump self.old.word → IsShort self.new.dump self.new.word) }
    {
        if !keep_all(&self.dump, &mut self.word, text)? {
            self.bad = Some(self.line);
        }
        Ok(())
    }

    // A byte between tokens.
    fn space(&mut self, byte: u8)
        ensures { self.new ≡ spaced self.old byte }
    {
        self.word.clear();
        self.line = line_after(self.line, byte);
    }

    // Takes the bytes of the piece up to and with the first that ends a token, or all where there is none.
    fn take(&mut self, alloc: Global, piece: &[u8]) -> Result<usize, AllocError>
        requires open { self.old.bad ≡ None }
        requires some { 0 < length piece.now }
        ensures taken { IfOk result (λ n. ReadsAs self.new (taken self.old (take n piece.now))) }
        ensures short { OnOk result (IsShort self.old.dump self.old.word → IsShort self.new.dump self.new.word) }
        ensures some { IfOk result (λ n. 0 < n) }
        ensures within { IfOk result (λ n. n ≤ length piece.now) }
    {
        let len = inner_len(piece);
        if len == piece.len() {
            self.grow(piece)?;
            return Ok(len);
        }
        self.end_token(alloc, &piece[..len])?;
        self.space(piece[len]);
        Ok(len + 1)
    }

    // Whether a token has broken the form.
    fn is_bad(&self) -> bool
        ensures { result ≡ is_some self.now.bad }
    {
        self.bad.is_some()
    }

    /// Takes these bytes more. Of a token that has not ended it keeps at most 24 bytes more than the longest code of a
    /// variable and the longest of a device have, and a new code whole.
    pub fn take_all(&mut self, alloc: Global, piece: &[u8]) -> Result<(), AllocError>
        ensures read { OnOk result (ReadsAs self.new (taken self.old piece.now)) }
        ensures short { OnOk result (IsShort self.old.dump self.old.word → IsShort self.new.dump self.new.word) }
    {
        let mut at = 0;
        while at < piece.len() {
            if self.is_bad() {
                return Ok(());
            }
            at += self.take(alloc, &piece[at..])?;
        }
        Ok(())
    }

    /// The text is over: its rows and its end, or the line of the first token that breaks the form.
    pub fn finish(self, alloc: Global) -> Result<VcdRows, VcdBad>
        ensures exact { Answers result (read_of self) }
        // Each row is of one of the eight devices.
        ensures rows { IfOk result (λ dump. AllByRecursion IsRow dump.rows) }
    {
        let mut reader = self;
        if !reader.is_bad() {
            reader.end_word(alloc)?;
        }
        reader.into_rows()
    }

    // The last token has ended.
    fn into_rows(self) -> Result<VcdRows, VcdBad>
        ensures exact { Answers result (read_by self.bad self) }
        ensures rows { IfOk result (λ dump. AllByRecursion IsRow dump.rows) }
    {
        let VcdReader {
            dump,
            bad,
            line,
            ..
        } = self;
        if let Some(line) = bad {
            return Err(VcdBad::At { line });
        }
        if is_whole(dump.awaits) {
            Ok(rows_of(dump))
        } else {
            Err(VcdBad::At { line })
        }
    }
}
