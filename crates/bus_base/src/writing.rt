//! A whole piece into a sink.
ghost use Rattle.std.specs.Prelude.{◌≤◌, OnErr};
ghost use Rattle.bus_base.specs.Faults.{HasRisen};
ghost use Rattle.bus_base.specs.Whole.{WritesAll};

use super::failures::Failed;
use super::output::Sink;

/// Writes all bytes of `piece` to `sink`. Where a write fails, the bytes before it are written.
pub fn write_all<K: Sink>(sink: &mut K, piece: &[u8]) -> Result<(), Failed>
    ensures whole { WritesAll (K.written sink.old) (K.written sink.new) piece.now result }
    ensures failed { OnErr result (HasRisen (K.faults sink.old) (K.faults sink.new)) }
    ensures never_falls { K.faults sink.old ≤ K.faults sink.new }
{
    let mut done = 0;
    while done < piece.len() {
        done += sink.write(&piece[done..])?;
    }
    Ok(())
}
