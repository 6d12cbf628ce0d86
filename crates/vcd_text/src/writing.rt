//! The dump of a trace.
ghost use Rattle.std.specs.Prelude.{◌≡◌, ◌≤◌, ◌<◌, ◌+◌, ◌/◌, ◌%◌, ◌++◌, ◌∷◌, [], OnErr, decimal};
ghost use Rattle.std.specs.List.{AllByRecursion};
ghost use Rattle.bus_base.specs.Faults.{HasRisen};
ghost use Rattle.bus_base.specs.Whole.{WritesAll};
ghost use Rattle.bus_trace.specs.OfTrace.{IsRow};
ghost use Rattle.text_pages.specs.Pages.{Prints};
ghost use Rattle.vcd_text.specs.DumpText.{head_text, bit_text, nibble_text, value_text, time_text, later, change_text, time_after, rows_text, time_written, dump_text};

use bitflags::Flags;
use bus_base::{Dev, Failed, Ns, Sink};
use bus_trace::{Kind, Row};
use row_store::RowStore;
use text_pages::{
    Page, SPAN, UpperDigits, flush, is_failed, new_page, put, put_marked, put_number, two_digits,
};

fn put_head<K: Sink>(out: &mut K, page: &mut Page)
    ensures { Prints K.written K.faults out.old out.new page.old page.new head_text }
{
    put(
        out,
        page,
        b"$timescale 1 ns $end\n$scope module scsi $end\n",
    );
    put(
        out,
        page,
        b"$var wire 18 a d0 $end\n$var wire 18 b d1 $end\n$var wire 18 c d2 $end\n$var wire 18 d d3 $end\n",
    );
    put(
        out,
        page,
        b"$var wire 18 e d4 $end\n$var wire 18 f d5 $end\n$var wire 18 g d6 $end\n$var wire 18 h d7 $end\n",
    );
    put(
        out,
        page,
        b"$upscope $end\n$enddefinitions $end\n#0\n$dumpvars\n",
    );
    put(
        out,
        page,
        b"b000000000000000000 a\nb000000000000000000 b\nb000000000000000000 c\nb000000000000000000 d\n",
    );
    put(
        out,
        page,
        b"b000000000000000000 e\nb000000000000000000 f\nb000000000000000000 g\nb000000000000000000 h\n$end\n",
    );
}

// The binary digit of this weight.
fn bit(lines: u32, weight: u32) -> u8
    requires { 0 < weight }
    ensures { result ≡ bit_text lines weight }
{
    b'0' + (lines / weight % 2) as u8
}

/// The four binary digits of each number below 16.
static NIBBLES: [u8; 64] = *b"0000000100100011010001010110011110001001101010111100110111101111";

// The four binary digits of a number below 16.
fn nibble(number: u32) -> [u8; 4]
    requires { number < 16 }
    ensures { result ≡ nibble_text number }
{
    let at = number as usize * 4;
    [
        NIBBLES[at],
        NIBBLES[at + 1],
        NIBBLES[at + 2],
        NIBBLES[at + 3],
    ]
}

// What the change of a device is in a dump.
#[inline(always)]
fn value_line(dev: Dev, lines: u32) -> [u8; 22]
    requires { dev < 8 }
    ensures { result ≡ value_text dev lines }
{
    let (p, q) = (nibble(lines / 0x1000 % 16), nibble(lines / 0x100 % 16));
    let (r, s) = (nibble(lines / 0x10 % 16), nibble(lines % 16));
    [
        b'b',
        bit(lines, 0x2_0000),
        bit(lines, 0x1_0000),
        p[0],
        p[1],
        p[2],
        p[3],
        q[0],
        q[1],
        q[2],
        q[3],
        r[0],
        r[1],
        r[2],
        r[3],
        s[0],
        s[1],
        s[2],
        s[3],
        b' ',
        b'a' + dev,
        b'\n',
    ]
}

// The last four digits of a time, and the change of a device at it.
#[inline(always)]
fn change_end(low: u32, dev: Dev, lines: u32) -> [u8; 27]
    requires low { low < 10000 }
    requires device { dev < 8 }
    ensures { result ≡ (48 + low / 100 / 10) ∷ (48 + low / 100 % 10) ∷ (48 + low % 100 / 10) ∷ (48 + low % 100 % 10)
        ∷ 10 ∷ value_text dev lines }
{
    let high = two_digits((low / 100) as u8);
    let last = two_digits((low % 100) as u8);
    let line = value_line(dev, lines);
    [
        high[0], high[1], last[0], last[1], b'\n', line[0], line[1], line[2], line[3], line[4],
        line[5], line[6], line[7], line[8], line[9], line[10], line[11], line[12], line[13],
        line[14], line[15], line[16], line[17], line[18], line[19], line[20], line[21],
    ]
}

// The time, where it is above the last that was written; and the last then.
fn put_time<K: Sink>(out: &mut K, page: &mut Page, last: Ns, time: Ns) -> Ns
    ensures text { Prints K.written K.faults out.old out.new page.old page.new (time_text last time) }
    ensures last { result ≡ later last time }
{
    if last >= time {
        return last;
    }
    put(out, page, b"#");
    put_number(out, page, time);
    put(out, page, b"\n");
    time
}

// A time, and the change of a device at it.
fn put_later<K: Sink>(
    out: &mut K,
    page: &mut Page,
    upper: &mut UpperDigits,
    time: Ns,
    dev: Dev,
    lines: u32,
)
    requires { dev < 8 }
    ensures { Prints K.written K.faults out.old out.new page.old page.new
        (35 ∷ decimal time ++ 10 ∷ [] ++ value_text dev lines) }
{
    if time < SPAN {
        put(out, page, b"#");
        put_number(out, page, time);
        put(out, page, &change_end(0, dev, lines)[4..]);
        return;
    }
    upper.set_upper(time);
    put_marked(
        out,
        page,
        b'#',
        upper.text(),
        upper.len(),
        &change_end(upper.low(time), dev, lines),
    );
}

// The change of the device of a row to these lines, after its time where that is above the last that was written; and
// the last then.
fn put_change<K: Sink>(
    out: &mut K,
    page: &mut Page,
    upper: &mut UpperDigits,
    last: Ns,
    row: &Row,
    lines: u32,
) -> Ns
    requires { row.now.dev < 8 }
    ensures text { Prints K.written K.faults out.old out.new page.old page.new
        (time_text last row.now.time ++ value_text row.now.dev lines) }
    ensures last { result ≡ later last row.now.time }
{
    if last >= row.time {
        put(out, page, &value_line(row.dev, lines));
        return last;
    }
    put_later(out, page, upper, row.time, row.dev, lines);
    row.time
}

// What a row writes after this time, and the last time then.
fn put_row<K: Sink>(
    out: &mut K,
    page: &mut Page,
    upper: &mut UpperDigits,
    last: Ns,
    row: &Row,
) -> Ns
    requires { row.now.dev < 8 }
    ensures text { Prints K.written K.faults out.old out.new page.old page.new
        (change_text last row.now.time row.now.dev row.now.kind) }
    ensures last { result ≡ time_after last row.now.time row.now.kind }
{
    match row.kind {
        Kind::Drives(lines) => put_change(out, page, upper, last, row, lines.bits()),
        Kind::Fault(_) => last,
    }
}

fn put_rows<K: Sink>(out: &mut K, page: &mut Page, rows: &RowStore) -> Ns
    requires { AllByRecursion IsRow rows.now }
    ensures text { Prints K.written K.faults out.old out.new page.old page.new (rows_text 0 rows.now) }
    ensures last { result ≡ time_written 0 rows.now }
{
    let mut last = 0;
    let mut upper = UpperDigits::begun(0);
    for row in rows.iter() {
        last = put_row(out, page, &mut upper, last, &row);
    }
    last
}

fn put_dump<K: Sink>(out: &mut K, page: &mut Page, rows: &RowStore, end: Ns)
    requires { AllByRecursion IsRow rows.now }
    ensures { Prints K.written K.faults out.old out.new page.old page.new (dump_text rows.now end) }
{
    put_head(out, page);
    let last = put_rows(out, page, rows);
    let _ = put_time(out, page, last, end);
}

/// Writes the dump of these rows, the oldest first, and this end. It takes no memory, and the sink gets it in
/// pieces of up to some KiB.
///
/// # Errors
///
/// `Failed` where the sink failed, whose count of faults then rose; a front of the dump was written.
pub fn write_vcd<K: Sink>(rows: &RowStore, end: Ns, out: &mut K) -> Result<(), Failed>
    requires { AllByRecursion IsRow rows.now }
    ensures whole { WritesAll (K.written out.old) (K.written out.new) (dump_text rows.now end) result }
    ensures failed { OnErr result (HasRisen (K.faults out.old) (K.faults out.new)) }
    ensures never_falls { K.faults out.old ≤ K.faults out.new }
{
    let mut page = new_page();
    put_dump(out, &mut page, rows, end);
    flush(out, &mut page);
    if is_failed(&page) {
        Err(Failed)
    } else {
        Ok(())
    }
}
