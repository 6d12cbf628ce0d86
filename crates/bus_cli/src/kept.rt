//! A trace that is read through a buffer, of which the rows are kept and no text.
ghost use Rattle.std.specs.Prelude.{◌+◌, ◌≤◌, IfOk, IsErrOf};
ghost use Rattle.std.specs.List.{AllByRecursion};
ghost use Rattle.bus_base.specs.Faults.{HasRisen};
ghost use Rattle.bus_base.specs.Whole.{TakesAtMost};
ghost use Rattle.bus_base.specs.declared.reading.ReadEnd.TheVariants as ends;
ghost use Rattle.bus_trace.specs.OfTrace.{IsRow};
ghost use Rattle.trace_text.specs.declared.limit.TheConstants.{LIMIT as TRACE_LIMIT};
ghost use Rattle.bus_cli.specs.Kept.{KeepsAll};

use bus_base::{BUFFER, ReadEnd, Source, read_piece};
use std::alloc::Global;
use trace_text::{KeptTrace, LIMIT, Trace};

/// Reads all bytes of the input, at most the limit, through a buffer: the trace that they say, or their first line that
/// breaks the form. It reads on after a line that breaks it.
pub fn read_kept<S: Source>(alloc: Global, input: &mut S) -> Result<Result<Trace, u32>, ReadEnd>
    ensures whole { KeepsAll (S.left input.old) (S.left input.new) result }
    ensures rows { IfOk result (λ read. IfOk read (λ trace. AllByRecursion IsRow trace.rows)) }
    ensures taken { TakesAtMost (S.left input.old) (S.left input.new) (TRACE_LIMIT + 1) }
    ensures fault { IsErrOf result ends.Fault → HasRisen (S.faults input.old) (S.faults input.new) }
    ensures never_falls { S.faults input.old ≤ S.faults input.new }
{
    let mut kept = KeptTrace::new(alloc);
    let mut count = 0;
    let mut buffer = [0u8; BUFFER];
    loop {
        let more = read_piece(input, &mut buffer, LIMIT - count)?;
        if more == 0 {
            return Ok(kept.finish());
        }
        kept.take_all(&buffer[..more])?;
        count += more;
    }
}
