//! The part of a report with the history.
ghost use Rattle.std.specs.Prelude.{◌++◌, ◌∷◌, [], decimal};
ghost use Rattle.std.specs.List.{flat_map};
ghost use Rattle.text_words.specs.Spelling.{byte_text};
ghost use Rattle.trace_text.specs.EventText.{process_text, event_words, event_text};
ghost use Rattle.text_pages.specs.Pages.{Prints};

use bus_base::{AbortKind, Dev, Event, ProcId, Sink};
use text_pages::{Page, put, put_abort, put_byte, put_number, put_spaced};

fn put_process<K: Sink>(out: &mut K, page: &mut Page, process: ProcId)
    ensures { Prints K.written K.faults out.old out.new page.old page.new (process_text process) }
{
    put_number(out, page, process.command as u64);
    if process.sense {
        put(out, page, b"S");
    }
}

// What became of a process.
fn put_named<K: Sink>(out: &mut K, page: &mut Page, name: &[u8], process: ProcId)
    ensures { Prints K.written K.faults out.old out.new page.old page.new (name.now ++ process_text process) }
{
    put(out, page, name);
    put_process(out, page, process);
}

// What became of a process, and the byte that goes with it.
fn put_coded<K: Sink>(out: &mut K, page: &mut Page, name: &[u8], process: ProcId, code: u8)
    ensures { Prints K.written K.faults out.old out.new page.old page.new
        (name.now ++ (process_text process ++ (32 ∷ [] ++ byte_text code))) }
{
    put(out, page, name);
    put_process(out, page, process);
    put(out, page, b" ");
    put_byte(out, page, code);
}

fn put_aborted<K: Sink>(
    out: &mut K,
    page: &mut Page,
    initiator: Dev,
    target: Dev,
    unit: u8,
    what: AbortKind,
)
    ensures { Prints K.written K.faults out.old out.new page.old page.new
        (event_words (Event.Aborted initiator target unit what)) }
{
    put(out, page, b"abort ");
    put_spaced(out, page, initiator as u64);
    put_spaced(out, page, target as u64);
    put_spaced(out, page, unit as u64);
    put_abort(out, page, what);
}

fn put_reset<K: Sink>(out: &mut K, page: &mut Page, dev: Dev)
    ensures { Prints K.written K.faults out.old out.new page.old page.new (event_words (Event.Reset dev)) }
{
    put(out, page, b"reset ");
    put_number(out, page, dev as u64);
}

fn put_event_words<K: Sink>(out: &mut K, page: &mut Page, event: Event)
    ensures { Prints K.written K.faults out.old out.new page.old page.new (event_words event) }
{
    match event {
        Event::Accept(process) => put_named(out, page, b"accept ", process),
        Event::Run(process) => put_named(out, page, b"run ", process),
        Event::End(process, status) => put_coded(out, page, b"end ", process, status),
        Event::Refuse(process) => put_named(out, page, b"refuse ", process),
        Event::Fail(process, code) => put_coded(out, page, b"fail ", process, code),
        Event::Lost(process) => put_named(out, page, b"lost ", process),
        Event::Aborted(initiator, target, unit, what) => {
            put_aborted(out, page, initiator, target, unit, what)
        }
        Event::Reset(dev) => put_reset(out, page, dev),
    }
}

fn put_event<K: Sink>(out: &mut K, page: &mut Page, event: Event)
    ensures { Prints K.written K.faults out.old out.new page.old page.new (event_text event) }
{
    put_event_words(out, page, event);
    put(out, page, b"\n");
}

pub(crate) fn put_history<K: Sink>(out: &mut K, page: &mut Page, events: &[Event])
    ensures { Prints K.written K.faults out.old out.new page.old page.new (flat_map event_text events.now) }
{
    for event in events {
        put_event(out, page, *event);
    }
}
