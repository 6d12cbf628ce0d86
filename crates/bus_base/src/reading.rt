//! The bytes of a source: a piece of them, and all.
ghost use Rattle.std.specs.Prelude.{◌≡◌, ◌+◌, ◌≤◌, IfOk, IsErrOf, vec_len};
ghost use Rattle.bus_base.specs.Faults.{HasRisen};
ghost use Rattle.bus_base.specs.Pieces.{ReadsPiece, end_of};
ghost use Rattle.bus_base.specs.Whole.{ReadsAll, TakesAtMost};
ghost use Rattle.bus_base.specs.declared.reading.Cut.TheVariants as cuts;
ghost use Rattle.bus_base.specs.declared.reading.TheConstants.{BUFFER};
ghost use Rattle.bus_base.specs.declared.reading.ReadEnd.TheVariants.{NoMemory as no_memory};

use super::failures::Failed;
use super::input::Source;
use std::alloc::{AllocError, Global};
use std::error::Error;
use std::fmt;

/// How many bytes the buffer holds through which a source is read.
pub const BUFFER: usize = 65_536;

/// Why a source is not read on.
#[derive(Clone, Copy, Debug, PartialEq, Eq)]
pub enum Cut {
    /// The source has more bytes than the limit.
    TooLong,
    /// A read failed.
    Fault,
}

impl fmt::Display for Cut {
    ghost use Rattle.std.specs.Prelude.{Some};
    ghost use Rattle.bus_base.specs.ReadingText.{cut_text};

    ghost output = { λ e. Some (cut_text e) };

    fn fmt<W: fmt::Write>(&self, f: &mut fmt::Formatter<W>) -> fmt::Result {
        match self {
            Cut::TooLong => f.write_str("more bytes than the limit"),
            Cut::Fault => f.write_str("a read failed"),
        }
    }
}

impl Error for Cut {}

impl From<Failed> for Cut {
    ghost from_gives = { λ _ e. e ≡ cuts.Fault };

    fn from(_e: Failed) -> Cut {
        Cut::Fault
    }
}

/// Why not all bytes of a source were read.
#[derive(Clone, Copy, Debug, PartialEq, Eq)]
pub enum ReadEnd {
    /// The source has more bytes than the limit.
    TooLong,
    /// A read failed.
    Fault,
    /// There was no memory left.
    NoMemory,
}

impl fmt::Display for ReadEnd {
    ghost use Rattle.std.specs.Prelude.{Some};
    ghost use Rattle.bus_base.specs.ReadingText.{read_end_text};

    ghost output = { λ e. Some (read_end_text e) };

    fn fmt<W: fmt::Write>(&self, f: &mut fmt::Formatter<W>) -> fmt::Result {
        match self {
            ReadEnd::TooLong => f.write_str("more bytes than the limit"),
            ReadEnd::Fault => f.write_str("a read failed"),
            ReadEnd::NoMemory => f.write_str("no memory"),
        }
    }
}

impl Error for ReadEnd {}

impl From<Cut> for ReadEnd {
    ghost from_gives = { λ cut e. e ≡ end_of cut };

    fn from(cut: Cut) -> ReadEnd {
        match cut {
            Cut::TooLong => ReadEnd::TooLong,
            Cut::Fault => ReadEnd::Fault,
        }
    }
}

impl From<AllocError> for ReadEnd {
    ghost from_gives = { λ _ e. e ≡ no_memory };

    fn from(_e: AllocError) -> ReadEnd {
        ReadEnd::NoMemory
    }
}

/// Reads bytes that `src` has left into the front of `buffer`, and returns how many: at most `spare`, and 0 at
/// the end alone.
///
/// # Errors
///
/// `TooLong` where one byte more than `spare` came, which is taken; `Fault` where the read failed, and took none.
pub fn read_piece<S: Source>(
    src: &mut S,
    buffer: &mut [u8; BUFFER],
    spare: usize,
) -> Result<usize, Cut>
    ensures piece { ReadsPiece (S.left src.old) (S.left src.new) buffer.new spare result }
    ensures spare { IfOk result (λ n. n ≤ spare) }
    ensures within { IfOk result (λ n. n ≤ BUFFER) }
    ensures fault { IsErrOf result cuts.Fault → HasRisen (S.faults src.old) (S.faults src.new) }
    ensures never_falls { S.faults src.old ≤ S.faults src.new }
{
    let room = spare.min(BUFFER - 1) + 1;
    let count = src.read(&mut buffer[..room])?;
    if count > spare {
        return Err(Cut::TooLong);
    }
    Ok(count)
}

/// Reads all bytes that `src` has left, at most `limit` bytes. Whatever it returns, it takes at
/// most `limit + 1` bytes of `src`: the last one tells that there are too many.
pub fn read_all<S: Source>(alloc: Global, src: &mut S, limit: usize) -> Result<Vec<u8>, ReadEnd>
    ensures whole { ReadsAll (S.left src.old) (S.left src.new) limit result }
    ensures taken { TakesAtMost (S.left src.old) (S.left src.new) (limit + 1) }
    ensures limit { IfOk result (λ v. vec_len v ≤ limit) }
    ensures fault { IsErrOf result ReadEnd.Fault → HasRisen (S.faults src.old) (S.faults src.new) }
    ensures never_falls { S.faults src.old ≤ S.faults src.new }
{
    let mut bytes = Vec::new(alloc);
    let mut buffer = [0u8; BUFFER];
    loop {
        let count = read_piece(src, &mut buffer, limit - bytes.len())?;
        if count == 0 {
            return Ok(bytes);
        }
        bytes.extend_from_slice(&buffer[..count])?;
    }
}
