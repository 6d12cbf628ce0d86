//! The part of a report with the trace.
ghost use Rattle.std.specs.Prelude.{◌≡◌, ◌+◌, ◌<◌, ◌^◌, ◌++◌, ◌∷◌, [], decimal};
ghost use Rattle.std.specs.List.{AllByRecursion, flat_map};
ghost use Rattle.trace_text.specs.RowText.{lines_text, kind_text, row_text, trace_text};
ghost use Rattle.bus_trace.specs.declared.Kind.TheVariants.{Fault};
ghost use Rattle.bus_trace.specs.OfTrace.{IsOfDevice};
ghost use Rattle.text_pages.specs.Pages.{Prints};

use crate::row_line::line_end;
use bitflags::Flags;
use bus_base::{Dev, Ns, Sink};
use bus_trace::{Kind, Row};
use row_store::RowStore;
use text_pages::{Page, SPAN, UpperDigits, put, put_number, put_short};

// The line of a fault row.
fn put_fault<K: Sink>(out: &mut K, page: &mut Page, time: Ns, dev: Dev, bit: u8)
    requires { dev < 8 }
    ensures { Prints K.written K.faults out.old out.new page.old page.new
        (decimal time ++ (32 ∷ (48 + dev) ∷ 32 ∷ [] ++ kind_text (Fault bit) ++ 10 ∷ [])) }
{
    put_number(out, page, time);
    put(out, page, &[b' ', b'0' + dev, b' ', b'f']);
    put_number(out, page, bit as u64);
    put(out, page, b"\n");
}

// The line of a row that drives lines.
fn put_driven<K: Sink>(
    out: &mut K,
    page: &mut Page,
    upper: &mut UpperDigits,
    time: Ns,
    dev: Dev,
    lines: u32,
)
    requires device { dev < 8 }
    requires few { lines < 2 ^ 18 }
    ensures { Prints K.written K.faults out.old out.new page.old page.new
        (decimal time ++ (32 ∷ (48 + dev) ∷ 32 ∷ [] ++ lines_text lines ++ 10 ∷ [])) }
{
    if time < SPAN {
        put_number(out, page, time);
        put(out, page, &line_end(0, dev, lines)[4..]);
        return;
    }
    upper.set_upper(time);
    put_short(out, page, upper.text(), upper.len());
    // Straight to the page: what was just written byte by byte is slow to read as a whole.
    put(out, page, &line_end(upper.low(time), dev, lines));
}

fn put_row<K: Sink>(out: &mut K, page: &mut Page, upper: &mut UpperDigits, row: &Row)
    requires { IsOfDevice row.now }
    ensures { Prints K.written K.faults out.old out.new page.old page.new (row_text row.now) }
{
    match row.kind {
        Kind::Drives(lines) => put_driven(out, page, upper, row.time, row.dev, lines.bits()),
        Kind::Fault(bit) => put_fault(out, page, row.time, row.dev, bit),
    }
}

fn put_rows<K: Sink>(out: &mut K, page: &mut Page, rows: &RowStore)
    requires { AllByRecursion IsOfDevice rows.now }
    ensures { Prints K.written K.faults out.old out.new page.old page.new (flat_map row_text rows.now) }
{
    let mut upper = UpperDigits::begun(0);
    for row in rows.iter() {
        put_row(out, page, &mut upper, &row);
    }
}

pub(crate) fn put_trace<K: Sink>(out: &mut K, page: &mut Page, rows: &RowStore, end: Ns)
    requires { AllByRecursion IsOfDevice rows.now }
    ensures { Prints K.written K.faults out.old out.new page.old page.new (trace_text rows.now end) }
{
    put(out, page, b"trace 1\n");
    put_rows(out, page, rows);
    put(out, page, b"end ");
    put_number(out, page, end);
    put(out, page, b"\n");
}
