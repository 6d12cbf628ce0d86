//! Tests of `trace_text`: each public function once, and reports to sinks that fail at every call.
ghost use Rattle.std.specs.Prelude.{◌≡◌, length, IfOk};
ghost use Rattle.std.specs.List.{AllByRecursion};
ghost use Rattle.bus_trace.specs.OfTrace.{IsOfDevice};

use bitflags::Flags;
use bus_base::{AbortKind, Event, Failed, MemSink, NoMemory, Octets, ProcId};
use bus_trace::{Kind, Lines, Row};
use disk_unit::{Blocks, SparseBlocks};
use run_record::{Outcome, RowStore, Run, TapeMedium};
use scenario::read;
use std::alloc::Global;
use std::test::Fail;
use trace_text::{Told, TraceBad, TraceReader, print_row, read_trace, report, short_report};

#[test]
fn prints_rows(rt: HostRuntime) -> Result<(), Fail> {
    let driven = Row {
        time: 4800,
        dev: 7,
        kind: Kind::Drives(Lines::from_bits_retain(0x1_0781)),
    };
    assert!(rt; print_row(&driven).as_str() == "4800 7 10781\n");
    let fault = Row {
        time: 7055,
        dev: 0,
        kind: Kind::Fault(8),
    };
    assert!(rt; print_row(&fault).as_str() == "7055 0 f8\n");
    Ok(())
}

// Trace texts, each with how many rows it has and its end, or the first line that breaks the form.
const TEXTS: [(&str, Result<(usize, u64), u32>); 22] = [
    ("trace 1\nend 0\n", Ok((0, 0))),
    (
        "trace 1\n1200 7 00280\n3600 7 f8\nend 3600\nhistory\nx",
        Ok((2, 3600)),
    ),
    ("trace 1\nend 5\nhistory\n", Ok((0, 5))),
    (
        "trace 1\n9223372036854775807 7 3ffff\nend 9223372036854775807\n",
        Ok((1, 9223372036854775807)),
    ),
    ("", Err(1)),
    ("trace 1", Err(1)),
    ("trace 2\nend 0\n", Err(1)),
    ("trace 1\n", Err(2)),
    ("trace 1\n01 7 00280\nend 1\n", Err(2)),
    ("trace 1\n1 8 00280\nend 1\n", Err(2)),
    ("trace 1\n1 7 40000\nend 1\n", Err(2)),
    ("trace 1\n1 7 f9\nend 1\n", Err(2)),
    ("trace 1\n1 7 0028\nend 1\n", Err(2)),
    ("trace 1\n1 7 0028A\nend 1\n", Err(2)),
    ("trace 1\nend 0\nwalk\n", Err(3)),
    ("trace 1\nend 0\nhistory", Err(3)),
    ("trace 1\nend 0", Err(2)),
    ("trace 1\nend 00\n", Err(2)),
    ("trace 1\n9223372036854775808 7 00000\nend 1\n", Err(2)),
    ("trace 1\n\nend 0\n", Err(2)),
    ("trace 1\n1200 7 00280\n1 7 f\nbad\n", Err(3)),
    (
        "trace 1\n1200 7 00000000000000000000000000280\nend 0\n",
        Err(2),
    ),
];

fn told(alloc: Global, text: &[u8]) -> Result<(usize, u64), u32> {
    match read_trace(alloc, text) {
        Ok(trace) => Ok((trace.rows.len(), trace.end)),
        Err(TraceBad::At { line }) => Err(line),
        Err(TraceBad::NoMemory) => Err(0),
    }
}

#[test]
fn reads_traces(rt: HostRuntime) {
    for (text, want) in TEXTS {
        assert!(rt; told(rt.alloc(), text.as_bytes()) == want, "{text}");
    }
}

// Pieces of a trace text, one after the other: how many bytes are taken of each, and the row that they tell.
const PIECES: [(&str, usize, Option<(u64, u8)>); 8] = [
    ("trace 1\n1200", 8, None),
    ("1200 7 00280\n1", 13, Some((1200, 7))),
    ("", 0, None),
    ("3600 7 f", 8, None),
    ("8\n", 2, Some((3600, 7))),
    ("4800 0 10", 9, None),
    ("781\nend 4800\n", 4, Some((4800, 0))),
    ("4800 8 10781\n4800", 13, None),
];

#[test]
fn takes_pieces(rt: HostRuntime) {
    let mut reader = TraceReader::new();
    for (piece, want_len, want) in PIECES {
        let (told, len) = reader.take(piece.as_bytes());
        let row = match told {
            Told::RowRead(row) => Some((row.time, row.dev)),
            Told::Quiet | Told::Bad(_) => None,
        };
        assert!(rt; len == want_len, "{piece}");
        assert!(rt; row == want, "{piece}");
    }
    assert!(rt; reader.finish() == Err(5));
}

const SCENARIO: &str = "scsi 3
initiator 7 latency 0 open 1 retries 2 sync 0 0 lag 0 offers yes
target 0 latency 0 retries 2 disc never pick first seek 0 sync 0 0 begins no
unit 0 3 blocks 3 size 16 depth 1
tape 0 4 objects 4 size 16 depth 1
cmd 7 0 3 at 0 untagged cdb 080000010100 none
end
";

const REPORT: &str = "trace 1
4800 7 10781
7055 0 f8
end 7055
history
end 1S 28
abort 7 0 3 tag 20
replies
cmd 1 GOOD f7
blocks
block 0 3 1 30313233343536373839616263646566
tape 0 4 0
object 0 4 0 mark
object 0 4 1 30313233343536373839616263646566
done
";

// Two rows, two events, a reply, a disk of which one block is shown, and a tape at its beginning.
fn sample_run(alloc: Global) -> Result<Run, NoMemory>
    ensures rows { IfOk result (λ run. AllByRecursion IsOfDevice run.rows) }
    ensures replies { IfOk result (λ run. length run.replies ≡ 1) }
    ensures disks { IfOk result (λ run. length run.disks ≡ 1) }
    ensures tapes { IfOk result (λ run. length run.tapes ≡ 1) }
{
    let driven = Row {
        time: 4800,
        dev: 7,
        kind: Kind::Drives(Lines::from_bits_retain(0x1_0781)),
    };
    let fault = Row {
        time: 7055,
        dev: 0,
        kind: Kind::Fault(8),
    };
    let mut rows = RowStore::new(alloc);
    rows.push(&driven)?;
    rows.push(&fault)?;
    let process = ProcId {
        command: 1,
        sense: true,
    };
    let ended = Event::End(process, 0x28);
    let aborted = Event::Aborted(7, 0, 3, AbortKind::Tag(20));
    let history = vec![in alloc; ended, aborted]?;
    let bytes = Octets::new(Vec::from_slice(alloc, b"\xf7")?);
    let mut replies = Vec::new(alloc);
    replies.push(Outcome::Good(bytes))?;
    let mut disk = SparseBlocks::new(alloc, 3, 16)?;
    disk.reserve(2)?;
    disk.write_block(1, b"0123456789abcdef");
    disk.write_block(0, &[0; 16]);
    let mut disks = Vec::new(alloc);
    disks.push(disk)?;
    let mut tape = TapeMedium::new(alloc, 4, 16, 4, 1)?;
    tape.load_mark();
    tape.load_block(b"0123456789abcdef");
    let mut tapes = Vec::new(alloc);
    tapes.push(tape)?;
    Ok(Run {
        rows,
        end: 7055,
        history,
        replies,
        disks,
        tapes,
    })
}

#[test]
fn prints_reports(rt: HostRuntime) -> Result<(), NoMemory> {
    let run = sample_run(rt.alloc())?;
    let Ok(scenario) = read(rt.alloc(), SCENARIO.as_bytes()) else {
        panic!(rt; "the scenario is not read");
    };
    if scenario.units.len() != 1 || scenario.commands.len() != 1 || scenario.tapes.len() != 1 {
        panic!(rt; "the scenario has other units, tapes or commands");
    }
    // Calls are numbered from 1, and each but the last takes `most` bytes.
    for most in [1usize, 3, 64] {
        let mut sink = MemSink::new(rt.alloc(), 4096, most, &[])?;
        assert!(rt; report(&scenario, &run, &mut sink) == Ok(()));
        assert!(rt;
            sink.bytes() == REPORT.as_bytes(),
            "at most {most} bytes a call"
        );
        for call in 1..=REPORT.len().div_ceil(most) {
            let mut sink = MemSink::new(rt.alloc(), 4096, most, &[call as u64])?;
            assert!(rt;
                report(&scenario, &run, &mut sink) == Err(Failed),
                "call {call}"
            );
            let taken = sink.bytes();
            assert!(rt; taken.len() == (call - 1) * most, "call {call}");
            assert!(rt; REPORT.as_bytes().starts_with(taken), "call {call}");
        }
    }
    Ok(())
}

const SHORT_REPORT: &str =
    "short 1\nrows 2\nend 7055\ngood 1\ncheck 0\nqfull 0\nseltimeout 0\nlost 0\nreset 0\naborted 0\n";

#[test]
fn prints_short_reports(rt: HostRuntime) -> Result<(), NoMemory> {
    let run = sample_run(rt.alloc())?;
    let mut sink = MemSink::new(rt.alloc(), 4096, 3, &[])?;
    assert!(rt; short_report(&run, &mut sink) == Ok(()));
    assert!(rt; sink.bytes() == SHORT_REPORT.as_bytes());
    let mut sink = MemSink::new(rt.alloc(), 4096, 3, &[2])?;
    assert!(rt; short_report(&run, &mut sink) == Err(Failed));
    Ok(())
}
