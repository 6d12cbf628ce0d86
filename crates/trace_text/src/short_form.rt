//! The short report of a run.
ghost use Rattle.std.specs.Prelude.{◌≡◌, ◌≤◌, OnErr, count_by};
ghost use Rattle.bus_base.specs.Faults.{HasRisen};
ghost use Rattle.bus_base.specs.Whole.{WritesAll};
ghost use Rattle.trace_text.specs.ShortText.{has_ended, count_text, ending_text, endings_text, short_text};
ghost use Rattle.text_pages.specs.Pages.{Prints};

use bus_base::{Failed, Sink};
use run_record::{Outcome, Run};
use text_pages::{Page, flush, is_failed, new_page, put, put_number};

/// How a command ended, without what came with it.
#[derive(Clone, Copy)]
pub(crate) enum Ending {
    Good,
    Check,
    QFull,
    SelTimeout,
    Lost,
    Reset,
    Aborted,
}

fn has_ended(outcome: &Outcome, ending: Ending) -> bool
    ensures { result ≡ has_ended ending outcome.now }
{
    match ending {
        Ending::Good => matches!(outcome, Outcome::Good(_)),
        Ending::Check => matches!(outcome, Outcome::Check(_)),
        Ending::QFull => matches!(outcome, Outcome::QFull),
        Ending::SelTimeout => matches!(outcome, Outcome::SelTimeout),
        Ending::Lost => matches!(outcome, Outcome::Lost),
        Ending::Reset => matches!(outcome, Outcome::Reset),
        Ending::Aborted => matches!(outcome, Outcome::Aborted),
    }
}

// How many commands ended so.
fn count(replies: &[Outcome], ending: Ending) -> usize
    ensures { result ≡ count_by (has_ended ending) replies.now }
{
    replies
        .iter()
        .filter(|reply| has_ended(reply, ending))
        .count()
}

fn put_count<K: Sink>(out: &mut K, page: &mut Page, name: &[u8], number: u64)
    ensures { Prints K.written K.faults out.old out.new page.old page.new (count_text name.now number) }
{
    put(out, page, name);
    put(out, page, b" ");
    put_number(out, page, number);
    put(out, page, b"\n");
}

fn put_ending<K: Sink>(
    out: &mut K,
    page: &mut Page,
    name: &[u8],
    ending: Ending,
    replies: &[Outcome],
)
    ensures { Prints K.written K.faults out.old out.new page.old page.new (ending_text name.now ending replies.now) }
{
    put_count(out, page, name, count(replies, ending) as u64);
}

fn put_endings<K: Sink>(out: &mut K, page: &mut Page, replies: &[Outcome])
    ensures { Prints K.written K.faults out.old out.new page.old page.new (endings_text replies.now) }
{
    put_ending(out, page, b"good", Ending::Good, replies);
    put_ending(out, page, b"check", Ending::Check, replies);
    put_ending(out, page, b"qfull", Ending::QFull, replies);
    put_ending(out, page, b"seltimeout", Ending::SelTimeout, replies);
    put_ending(out, page, b"lost", Ending::Lost, replies);
    put_ending(out, page, b"reset", Ending::Reset, replies);
    put_ending(out, page, b"aborted", Ending::Aborted, replies);
}

fn put_short<K: Sink>(out: &mut K, page: &mut Page, run: &Run)
    ensures { Prints K.written K.faults out.old out.new page.old page.new (short_text run.now) }
{
    put(out, page, b"short 1\n");
    put_count(out, page, b"rows", run.rows.len() as u64);
    put_count(out, page, b"end", run.end);
    put_endings(out, page, &run.replies);
}

/// Writes the short report of a run: how many rows it has, its end, and how many commands ended in each way. It takes
/// no memory.
///
/// # Errors
///
/// `Failed` where the sink failed, whose count of faults then rose; a front of the report was written.
pub fn short_report<K: Sink>(run: &Run, out: &mut K) -> Result<(), Failed>
    ensures whole { WritesAll (K.written out.old) (K.written out.new) (short_text run.now) result }
    ensures failed { OnErr result (HasRisen (K.faults out.old) (K.faults out.new)) }
    ensures never_falls { K.faults out.old ≤ K.faults out.new }
{
    let mut page = new_page();
    put_short(out, &mut page, run);
    flush(out, &mut page);
    if is_failed(&page) {
        Err(Failed)
    } else {
        Ok(())
    }
}
