//! A whole dump.
ghost use Rattle.std.specs.Prelude.{◌≡◌, IfOk};
ghost use Rattle.std.specs.List.{AllByRecursion};
ghost use Rattle.bus_trace.specs.OfTrace.{IsRow};
ghost use Rattle.vcd_text.specs.Reading.{vcd_of, Answers};
ghost use Rattle.vcd_text.specs.declared.whole.VcdBad.TheVariants.{NoMemory};

use crate::reader::VcdReader;
use bus_base::Ns;
use row_store::RowStore;
use std::alloc::{AllocError, Global};
use std::error::Error;
use std::fmt;

/// What a dump says.
#[derive(Drop)]
pub struct VcdRows {
    /// The rows, the oldest first.
    pub rows: RowStore,
    /// The time of the end, in ns.
    pub end: Ns,
}

/// Why a text is no dump of the profile.
#[derive(Clone, Copy, Debug, PartialEq, Eq)]
pub enum VcdBad {
    /// The first token that breaks the form stands in this line, the first being 1. A text that is over too
    /// early breaks it in the line after its last line feed. A line above the last u32 is told as that.
    At { line: u32 },
    /// Memory ran out.
    NoMemory,
}

impl fmt::Display for VcdBad {
    ghost use Rattle.std.specs.Prelude.{Some};
    ghost use Rattle.vcd_text.specs.BadText.{vcd_bad_text};

    ghost output = { λ e. Some (vcd_bad_text e) };

    fn fmt<W: fmt::Write>(&self, f: &mut fmt::Formatter<W>) -> fmt::Result {
        match *self {
            VcdBad::At { line } => write!(f, "line {line} breaks the form of a dump"),
            VcdBad::NoMemory => f.write_str("no memory"),
        }
    }
}

impl Error for VcdBad {}

impl From<AllocError> for VcdBad {
    ghost from_gives = { λ _ e. e ≡ NoMemory };

    fn from(_e: AllocError) -> VcdBad {
        VcdBad::NoMemory
    }
}

/// The rows and the end that a dump says, or the line of its first token that breaks the form. Memory is linear in
/// the rows and the codes of the variables.
pub fn read_vcd(alloc: Global, bytes: &[u8]) -> Result<VcdRows, VcdBad>
    ensures exact { Answers result (vcd_of bytes.now) }
    // Each row is of one of the eight devices.
    ensures rows { IfOk result (λ dump. AllByRecursion IsRow dump.rows) }
{
    let mut reader = VcdReader::new(alloc);
    reader.take_all(alloc, bytes)?;
    reader.finish(alloc)
}
