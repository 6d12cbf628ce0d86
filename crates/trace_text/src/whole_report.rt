//! The report of a run.
ghost use Rattle.std.specs.Prelude.{◌≡◌, ◌≤◌, length, OnErr};
ghost use Rattle.std.specs.List.{AllByRecursion};
ghost use Rattle.bus_base.specs.Faults.{HasRisen};
ghost use Rattle.bus_base.specs.Whole.{WritesAll};
ghost use Rattle.trace_text.specs.ReportText.{report_of};
ghost use Rattle.text_pages.specs.Pages.{Prints};
ghost use Rattle.bus_trace.specs.OfTrace.{IsOfDevice};

use crate::blocks_part::put_disks;
use crate::history_part::put_history;
use crate::replies_part::put_replies;
use crate::tapes_part::put_tapes;
use crate::trace_part::put_trace;
use bus_base::{Failed, Sink};
use run_record::Run;
use scenario::Scenario;
use text_pages::{Page, flush, is_failed, new_page, put};

fn put_report<K: Sink>(out: &mut K, page: &mut Page, s: &Scenario, run: &Run)
    requires disks { length run.now.disks ≡ length s.now.units }
    requires tapes { length run.now.tapes ≡ length s.now.tapes }
    requires rows { AllByRecursion IsOfDevice run.now.rows }
    ensures { Prints K.written K.faults out.old out.new page.old page.new (report_of s.now run.now) }
{
    put_trace(out, page, &run.rows, run.end);
    put(out, page, b"history\n");
    put_history(out, page, &run.history);
    put(out, page, b"replies\n");
    put_replies(out, page, &run.replies);
    put(out, page, b"blocks\n");
    put_disks(out, page, &s.units, &run.disks);
    put_tapes(out, page, &s.tapes, &run.tapes);
    put(out, page, b"done\n");
}

/// Writes the report of a run of this scenario. It takes no memory, and the sink gets it in pieces of up to
/// some KiB.
///
/// # Errors
///
/// `Failed` where the sink failed, whose count of faults then rose; a front of the report was written.
pub fn report<K: Sink>(s: &Scenario, run: &Run, out: &mut K) -> Result<(), Failed>
    requires replies { length run.now.replies ≡ length s.now.commands }
    requires disks { length run.now.disks ≡ length s.now.units }
    requires tapes { length run.now.tapes ≡ length s.now.tapes }
    requires rows { AllByRecursion IsOfDevice run.now.rows }
    ensures whole { WritesAll (K.written out.old) (K.written out.new) (report_of s.now run.now) result }
    ensures failed { OnErr result (HasRisen (K.faults out.old) (K.faults out.new)) }
    ensures never_falls { K.faults out.old ≤ K.faults out.new }
{
    let mut page = new_page();
    put_report(out, &mut page, s, run);
    flush(out, &mut page);
    if is_failed(&page) {
        Err(Failed)
    } else {
        Ok(())
    }
}
