//! The text of a trace, on its own.
ghost use Rattle.std.specs.Prelude.{◌≡◌, ◌≤◌, OnErr};
ghost use Rattle.std.specs.List.{AllByRecursion};
ghost use Rattle.bus_base.specs.Faults.{HasRisen};
ghost use Rattle.bus_base.specs.Whole.{WritesAll};
ghost use Rattle.trace_text.specs.RowText.{trace_text};
ghost use Rattle.bus_trace.specs.OfTrace.{IsRow};

use crate::trace_part::put_trace;
use bus_base::{Failed, Ns, Sink};
use row_store::RowStore;
use text_pages::{flush, is_failed, new_page};

/// Writes the text of a trace. It takes no memory, and the sink gets it in pieces of up to some KiB.
///
/// # Errors
///
/// `Failed` where the sink failed, whose count of faults then rose; a front of the text was written.
pub fn write_trace<K: Sink>(rows: &RowStore, end: Ns, out: &mut K) -> Result<(), Failed>
    requires { AllByRecursion IsRow rows.now }
    ensures whole { WritesAll (K.written out.old) (K.written out.new) (trace_text rows.now end) result }
    ensures failed { OnErr result (HasRisen (K.faults out.old) (K.faults out.new)) }
    ensures never_falls { K.faults out.old ≤ K.faults out.new }
{
    let mut page = new_page();
    put_trace(out, &mut page, rows, end);
    flush(out, &mut page);
    if is_failed(&page) {
        Err(Failed)
    } else {
        Ok(())
    }
}
