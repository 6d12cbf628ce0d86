//! The part of a report with the tapes.
ghost use Rattle.std.specs.Prelude.{ℕ, ◌≡◌, ◌<◌, ◌++◌, List, Some, map, length, get_or};
ghost use Rattle.array_model.specs.Reels.{filemark};
ghost use Rattle.run_record.specs.Value.{reeled_by};
ghost use Rattle.trace_text.specs.TapeText.{held_text, object_text, objects_text, position_text, reel_text, tapes_text};
ghost use Rattle.trace_text.specs.ReportText.{tape_name};
ghost use Rattle.text_pages.specs.Pages.{Prints};

use bus_base::{Dev, Sink};
use scenario::TapeDef;
use tape_unit::TapeMedium;
use text_pages::{Page, put, put_hex, put_number, put_spaced};

// What stands behind n objects of a tape.
fn put_held<K: Sink>(out: &mut K, page: &mut Page, tape: &TapeMedium, n: u32)
    requires { n < length tape.now.tape.reel.objects }
    ensures { Prints K.written K.faults out.old out.new page.old page.new
        (held_text (get_or tape.now.tape.reel.objects n filemark)) }
{
    match tape.object(n) {
        None => put(out, page, b"mark"),
        Some(bytes) => put_hex(out, page, bytes),
    }
}

fn put_object<K: Sink>(
    out: &mut K,
    page: &mut Page,
    target: Dev,
    unit: u8,
    tape: &TapeMedium,
    n: u32,
)
    requires { n < length tape.now.tape.reel.objects }
    ensures { Prints K.written K.faults out.old out.new page.old page.new
        (object_text target unit n (get_or tape.now.tape.reel.objects n filemark)) }
{
    put(out, page, b"object ");
    put_spaced(out, page, target as u64);
    put_spaced(out, page, unit as u64);
    put_spaced(out, page, n as u64);
    put_held(out, page, tape, n);
    put(out, page, b"\n");
}

fn put_objects<K: Sink>(out: &mut K, page: &mut Page, target: Dev, unit: u8, tape: &TapeMedium)
    ensures { Prints K.written K.faults out.old out.new page.old page.new
        (objects_text target unit 0 tape.now.tape.reel.objects) }
{
    let count = tape.len();
    for n in 0..count {
        put_object(out, page, target, unit, tape, n);
    }
}

fn put_position<K: Sink>(out: &mut K, page: &mut Page, target: Dev, unit: u8, position: u32)
    ensures { Prints K.written K.faults out.old out.new page.old page.new (position_text target unit position) }
{
    put(out, page, b"tape ");
    put_spaced(out, page, target as u64);
    put_spaced(out, page, unit as u64);
    put_number(out, page, position as u64);
    put(out, page, b"\n");
}

fn put_tape<K: Sink>(out: &mut K, page: &mut Page, target: Dev, unit: u8, tape: &TapeMedium)
    ensures { Prints K.written K.faults out.old out.new page.old page.new
        (reel_text target unit (Some tape.now.tape.reel)) }
{
    let position = tape.position();
    put_position(out, page, target, unit, position);
    put_objects(out, page, target, unit, tape);
}

/// The tapes, each at its target and unit.
pub(crate) fn put_tapes<K: Sink>(
    out: &mut K,
    page: &mut Page,
    lines: &[TapeDef],
    tapes: &[TapeMedium],
)
    requires { length tapes.now ≡ length lines.now }
    ensures { Prints K.written K.faults out.old out.new page.old page.new
        (tapes_text (map tape_name lines.now) (map reeled_by tapes.now)) }
{
    for index in 0..lines.len() {
        let line = lines[index];
        put_tape(out, page, line.target, line.unit, &tapes[index]);
    }
}
