//! A line to the sink, and how a text ended there.
ghost use Rattle.std.specs.Prelude.{◌≡◌, ◌≤◌};
ghost use Rattle.bus_cli.specs.Lines.{IfTold, SaysLine};
ghost use Rattle.bus_cli.specs.Texts.{status_written};

use crate::status::Status;
use bus_base::{Failed, Sink, write_all};

/// Writes a line. A fault there changes nothing: whoever says it has its status already.
pub fn say<K: Sink>(out: &mut K, line: &[u8])
    ensures said { IfTold K.written K.faults out.old out.new (SaysLine line.now) }
    ensures never_falls { K.faults out.old ≤ K.faults out.new }
{
    let _ = write_all(out, line);
}

/// The status of a text that was written to its end, or not.
pub fn status_written(text: Result<(), Failed>) -> Status
    ensures { result ≡ status_written text }
{
    match text {
        Ok(()) => Status::Done,
        Err(_) => Status::Write,
    }
}
