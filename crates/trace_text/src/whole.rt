//! A whole trace text.
ghost use Rattle.std.specs.Prelude.{◌≤◌, length, IfOk};
ghost use Rattle.std.specs.List.{AllByRecursion};
ghost use Rattle.bus_trace.specs.OfTrace.{IsRow};
ghost use Rattle.trace_text.specs.declared.limit.TheConstants.{LIMIT as TRACE_LIMIT};
ghost use Rattle.trace_text.specs.Whole.{trace_of, Answers};

use crate::kept_trace::KeptTrace;
use crate::limit::LIMIT;
use bus_base::Ns;
use row_store::RowStore;
use std::alloc::Global;
use std::error::Error;
use std::fmt;

/// What a trace text says.
#[derive(Drop)]
pub struct Trace {
    /// The rows, the oldest first.
    pub rows: RowStore,
    /// The time of the end, in ns.
    pub end: Ns,
}

/// Why a text is no trace text.
#[derive(Clone, Copy, Debug, PartialEq, Eq)]
pub enum TraceBad {
    /// This line, the first being 1, is the first that breaks the form. A text that is over too early
    /// breaks it in the line after its last, and a text that is too long in line 0.
    At { line: u32 },
    /// Memory ran out.
    NoMemory,
}

impl fmt::Display for TraceBad {
    ghost use Rattle.std.specs.Prelude.{Some};
    ghost use Rattle.trace_text.specs.BadText.{trace_bad_text};

    ghost output = { λ e. Some (trace_bad_text e) };

    fn fmt<W: fmt::Write>(&self, f: &mut fmt::Formatter<W>) -> fmt::Result {
        match *self {
            TraceBad::At { line } => {
                if line == 0 {
                    f.write_str("a text of more than 1,073,741,824 bytes")
                } else {
                    write!(f, "line {line} breaks the form of a trace")
                }
            }
            TraceBad::NoMemory => f.write_str("no memory"),
        }
    }
}

impl Error for TraceBad {}

/// The trace that the text says, or its first line that breaks the form.
pub fn read_trace(alloc: Global, bytes: &[u8]) -> Result<Trace, TraceBad>
    ensures exact { Answers result (trace_of bytes.now) }
    // Each row is of one of the eight devices.
    ensures rows { IfOk result (λ trace. AllByRecursion IsRow trace.rows) }
{
    if bytes.len() > LIMIT {
        return Err(TraceBad::At { line: 0 });
    }
    read_bytes(alloc, bytes)
}

// The trace that a text within the limit says.
fn read_bytes(alloc: Global, bytes: &[u8]) -> Result<Trace, TraceBad>
    requires { length bytes.now ≤ TRACE_LIMIT }
    ensures { Answers result (trace_of bytes.now) }
{
    let mut kept = KeptTrace::new(alloc);
    if kept.take_all(bytes).is_err() {
        return Err(TraceBad::NoMemory);
    }
    match kept.finish() {
        Ok(trace) => Ok(trace),
        Err(line) => Err(TraceBad::At { line }),
    }
}
