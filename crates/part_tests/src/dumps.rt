//! Tests of `vcd_text` and `text_pages`: each public function once, pieces of every length, and sinks that fail at
//! every call.
ghost use Rattle.std.specs.Prelude.{◌<◌, IfOk};
ghost use Rattle.std.specs.List.{AllByRecursion};
ghost use Rattle.bus_trace.specs.OfTrace.{IsRow};

use crate::driven_rows::drive;
use bus_base::MemSink;
use row_store::RowStore;
use std::alloc::{AllocError, Global};
use std::test::Fail;
use text_pages::{SHORT, flush, is_failed, new_page, put, put_number, put_short};
use vcd_text::{VcdBad, VcdReader, VcdRows, read_vcd, write_vcd};

// One of each word that a dump may have.
const MIXED: &'static str =
    "$comment a $end $timescale 1 ns $end $scope module x $end $var wire 18 a d3 $end \
    $var real 64 r t $end $upscope $end $enddefinitions $end $dumpall b1 a r1.5e3 r $end #5 B010 a $comment b $end \
    bx1z r 0r #007";

// Dumps, each with how many rows it has and its end, or the line of the first token that breaks the form.
const DUMPS: [(&'static str, Result<(usize, u64), u32>); 10] = [
    (MIXED, Ok((2, 7))),
    ("$timescale 1ns $end $enddefinitions $end", Ok((0, 0))),
    ("", Err(1)),
    ("\n\n$end\n", Err(3)),
    ("$timescale 1us $end", Err(1)),
    ("$timescale 1ns $end\n$enddefinitions\n$end\n#", Err(4)),
    (
        "$timescale 1ns $end\n$enddefinitions\n$end\n$dumpoff $end",
        Err(4),
    ),
    ("$timescale 1ns $end $enddefinitions $end\n#5\n#4", Err(3)),
    (
        "$timescale 1ns $end $var wire 18 a d0 $end $enddefinitions $end\nb2 a",
        Err(2),
    ),
    (
        "$timescale 1ns $end $var wire 18 a d0 $end $enddefinitions $end\nb1\nb",
        Err(3),
    ),
];

fn is_as_wanted(read: &Result<VcdRows, VcdBad>, wanted: Result<(usize, u64), u32>) -> bool {
    match (read, wanted) {
        (Ok(dump), Ok((count, end))) => dump.rows.len() == count && dump.end == end,
        (Err(VcdBad::At { line }), Err(at)) => *line == at,
        _ => false,
    }
}

#[test]
fn reads_dumps(rt: HostRuntime) -> Result<(), Fail> {
    for (text, wanted) in DUMPS {
        let read = read_vcd(rt.alloc(), text.as_bytes());
        assert!(rt; is_as_wanted(&read, wanted), "{text:?}");
    }
    Ok(())
}

#[test]
fn reads_pieces(rt: HostRuntime) -> Result<(), Fail> {
    for len in 1..40 {
        let mut reader = VcdReader::new(rt.alloc());
        for piece in MIXED.as_bytes().chunks(len) {
            reader.take_all(rt.alloc(), piece)?;
        }
        let read = reader.finish(rt.alloc());
        assert!(rt; is_as_wanted(&read, Ok((2, 7))), "{len}");
    }
    Ok(())
}

// What stands before a long token, the byte that it repeats, what stands after it, and what is read.
const LONG: [(&'static str, u8, &'static str, Result<(usize, u64), u32>); 9] = [
    (
        "$comment ",
        b'x',
        " $end $timescale 1ns $end $enddefinitions $end",
        Ok((0, 0)),
    ),
    ("$comment ", b'x', "\x7f $end", Err(1)),
    ("\n", b'$', " $end", Err(2)),
    (DECLARED, b'0', "7\n", Ok((0, 7))),
    (DECLARED, b'0', "x\n", Err(2)),
    (DECLARED, b'9', "\n", Err(2)),
    (DECLARED_VALUE, b'z', "1 ! #3", Ok((0, 3))),
    (DECLARED_VALUE, b'z', "2 !", Err(2)),
    (DECLARED_CODE, b'!', "", Err(2)),
];

const DECLARED: &'static str = "$timescale 1ns $end $var wire 1 ! clk $end $enddefinitions $end\n#";

const DECLARED_VALUE: &'static str =
    "$timescale 1ns $end $var wire 1 ! clk $end $enddefinitions $end\nb";

const DECLARED_CODE: &'static str =
    "$timescale 1ns $end $var wire 1 ! clk $end $enddefinitions $end\n0";

// Reads a dump with a token of a million bytes that comes in pieces.
fn read_long(alloc: Global, before: &str, byte: u8, after: &str) -> Result<VcdRows, VcdBad> {
    let mut reader = VcdReader::new(alloc);
    reader.take_all(alloc, before.as_bytes())?;
    let piece = [byte; 1000];
    for _ in 0..1000 {
        reader.take_all(alloc, &piece)?;
    }
    reader.take_all(alloc, after.as_bytes())?;
    reader.finish(alloc)
}

#[test]
fn reads_long_tokens(rt: HostRuntime) -> Result<(), Fail> {
    for (before, byte, after, wanted) in LONG {
        let read = read_long(rt.alloc(), before, byte, after);
        assert!(rt; is_as_wanted(&read, wanted), "{before:?} {byte}");
    }
    Ok(())
}

fn two_rows(alloc: Global) -> Result<RowStore, AllocError>
    ensures { IfOk result (λ rows. AllByRecursion IsRow rows) }
{
    let mut rows = RowStore::new(alloc);
    rows.push(&drive(1200, 7, 0x280))?;
    rows.push(&drive(1200, 7, 0x680))?;
    Ok(rows)
}

#[test]
fn writes_dumps(rt: HostRuntime) -> Result<(), Fail> {
    let rows = two_rows(rt.alloc())?;
    let mut out = MemSink::new(rt.alloc(), 8192, 100, &[])?;
    assert!(rt; write_vcd(&rows, 1300, &mut out).is_ok());
    let end = b"#1200\nb000000001010000000 h\nb000000011010000000 h\n#1300\n";
    assert!(rt; out.bytes().ends_with(end));
    let read = read_vcd(rt.alloc(), out.bytes());
    assert!(rt; is_as_wanted(&read, Ok((2, 1300))));
    Ok(())
}

#[test]
fn fails_with_the_sink(rt: HostRuntime) -> Result<(), Fail> {
    let rows = two_rows(rt.alloc())?;
    for bad in 1..6 {
        let mut out = MemSink::new(rt.alloc(), 8192, 100, &[bad])?;
        assert!(rt; write_vcd(&rows, 1200, &mut out).is_err(), "{bad}");
    }
    Ok(())
}

#[test]
fn puts_past_a_page(rt: HostRuntime) -> Result<(), Fail> {
    let mut out = MemSink::new(rt.alloc(), 16384, 5000, &[])?;
    let mut page = new_page();
    put(&mut out, &mut page, b"ab");
    put_number(&mut out, &mut page, 12);
    put_short(&mut out, &mut page, &[b'd'; SHORT], 3);
    put(&mut out, &mut page, &[b'c'; 5000]);
    flush(&mut out, &mut page);
    assert!(rt; !is_failed(&page));
    assert!(rt; out.bytes().len() == 5007);
    assert!(rt; out.bytes().starts_with(b"ab12dddc"));
    Ok(())
}
