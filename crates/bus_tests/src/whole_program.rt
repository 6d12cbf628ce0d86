//! Tests of `bus_cli`: the program from end to end, over sources and sinks in memory.
ghost use Rattle.std.specs.Prelude.{◌≡◌, ◌<◌};

mod cut;
mod disturbed;
mod makes;
mod runs;
mod small_runs;
pub mod wholes;

use bus_base::{MemSink, MemSource, NoMemory, Steps};
use bus_cli::{Status, bus_main};
use std::alloc::Global;
use std::marker::Brand;
use std::sync::ledger::{Blank, Ledger};
use wholes::{BLANK, LOW, MIDDLE, PLAIN};

/// The words, the input, which read and which write fails, from 1; the status and the text that are
/// wanted.
type Case = (
    &'static [&'static str],
    &'static str,
    u64,
    u64,
    Status,
    &'static str,
);

/// How much room the sinks have, in bytes.
const ROOM: usize = 8192;

/// A scenario in which nothing happens, and its report.
const NOTHING: &'static str = "scsi 1\n# nothing happens\n\nend\n";

/// A scenario with a tape, and its report.
const TAPED: &'static str =
    "scsi 3\ntarget 0 latency 0 retries 2 disc never pick first seek 0 sync 0 0 begins no\n\
    tape 0 0 objects 2 size 16 depth 1\nload 0 0 mark\nend\n";

const TAPE_LEFT: &'static str =
    "trace 1\nend 0\nhistory\nreplies\nblocks\ntape 0 0 0\nobject 0 0 0 mark\ndone\n";

const NOTHING_HAPPENED: &'static str = "trace 1\nend 0\nhistory\nreplies\nblocks\ndone\n";

/// A trace, its dump, and a dump of one line with a clock beside the device.
const SHORT_TRACE: &'static str = "trace 1\n1200 7 00280\n3600 7 00680\nend 3600\n";

/// What the report of the first scenario carried.
const PLAIN_TRANSCRIPT: &'static str =
    "transcript 1\nconnect 5380 7.0.0.-.1 first\nout c0\ncommand 080000000100\n\
    arrive 7.0.0.-.1\ndatain 0 000102030405060708090a0b0c0d0e0f\nready 7.0.0.-.1\nstatus 00\nin 00\n\
    end 7.0.0.-.1 00\nfree 9080\ndone\n";

const SHORT_DUMP: &'static str =
    "$timescale 1 ns $end\n$scope module scsi $end\n$var wire 18 a d0 $end\n\
    $var wire 18 b d1 $end\n$var wire 18 c d2 $end\n$var wire 18 d d3 $end\n$var wire 18 e d4 $end\n\
    $var wire 18 f d5 $end\n$var wire 18 g d6 $end\n$var wire 18 h d7 $end\n\
    $upscope $end\n$enddefinitions $end\n#0\n$dumpvars\n\
    b000000000000000000 a\nb000000000000000000 b\nb000000000000000000 c\nb000000000000000000 d\nb000000000000000000 e\n\
    b000000000000000000 f\nb000000000000000000 g\nb000000000000000000 h\n$end\n#1200\nb000000001010000000 h\n\
    #3600\nb000000011010000000 h\n";

const ONE_LINE: &'static str =
    "$timescale 1ns $end $var reg 18 ! d7 [17:0] $end $var wire 1 % clk $end \
    $enddefinitions $end #0 0% b0 ! #1200 1% b1010000000 !";

/// The number of a call that is never reached.
const NEVER: u64 = u64::MAX;

fn strings(alloc: Global, words: &[&'static str]) -> Result<Vec<String>, NoMemory> {
    let mut strings = Vec::new(alloc);
    for word in words {
        strings.push(String::from_str(alloc, *word)?)?;
    }
    Ok(strings)
}

fn end_of<L: Ledger>(
    alloc: Global,
    blank: Blank,
    words: &[&'static str],
    input: &mut MemSource,
    out: &mut MemSink,
) -> Result<Status, NoMemory>
    requires name { blank.name ≡ L.name }
    requires parts { blank.parts ≡ L.parts }
    requires some { 0 < blank.parts }
{
    let words = strings(alloc, words)?;
    let mut steps = Steps::<L>::new(blank);
    Ok(bus_main(alloc, &words, input, out, &mut steps))
}

/// How the program ends with these words, this input and this sink.
fn ended(
    alloc: Global,
    words: &[&'static str],
    input: &mut MemSource,
    out: &mut MemSink,
) -> Result<Status, NoMemory> {
    end_of::<Brand>(alloc, Blank::new(1), words, input, out)
}

#[test]
fn ends_with_each_status(rt: HostRuntime) -> Result<(), NoMemory> {
    let usage =
        "usage: scsibus run [--short|--transcript] | judge | make SEED N | transcript | vcd | unvcd\n";
    let run: &'static [&'static str] = &["run"];
    let judge: &'static [&'static str] = &["judge"];
    let cases: [Case; 31] = [
        (run, PLAIN.0, NEVER, NEVER, Status::Done, PLAIN.1),
        (run, BLANK.0, NEVER, NEVER, Status::Done, BLANK.1),
        (run, LOW.0, NEVER, NEVER, Status::Done, LOW.1),
        (run, MIDDLE.0, NEVER, NEVER, Status::Done, MIDDLE.1),
        (&[], PLAIN.0, NEVER, NEVER, Status::Words, usage),
        (&["walk"], PLAIN.0, 1, NEVER, Status::Words, usage),
        (&["run", "run"], PLAIN.0, NEVER, NEVER, Status::Words, usage),
        (
            &["judge", "judge"],
            PLAIN.1,
            NEVER,
            NEVER,
            Status::Words,
            usage,
        ),
        (
            run,
            "scsi 1\n",
            NEVER,
            NEVER,
            Status::Refused,
            "scenario line 2 reason 2\n",
        ),
        (run, NOTHING, NEVER, NEVER, Status::Done, NOTHING_HAPPENED),
        (run, NOTHING, NEVER, 1, Status::Write, ""),
        (run, TAPED, NEVER, NEVER, Status::Done, TAPE_LEFT),
        (run, TAPED, NEVER, 1, Status::Write, ""),
        (run, PLAIN.0, 3, NEVER, Status::Read, "read fault\n"),
        (run, PLAIN.0, NEVER, 1, Status::Write, ""),
        (&["walk"], PLAIN.0, NEVER, 1, Status::Words, ""),
        (judge, PLAIN.1, NEVER, NEVER, Status::Done, "lawful\n"),
        (judge, BLANK.1, NEVER, NEVER, Status::Done, "lawful\n"),
        (judge, LOW.1, NEVER, NEVER, Status::Done, "lawful\n"),
        (judge, MIDDLE.1, NEVER, NEVER, Status::Done, "lawful\n"),
        (
            judge,
            "trace 1\nend 5\n",
            NEVER,
            NEVER,
            Status::Done,
            "lawful\n",
        ),
        (
            judge,
            "trace 1\n1200 6 00240\n3000 7 00280\nend 3000\n",
            NEVER,
            NEVER,
            Status::Done,
            "lawful\n",
        ),
        (
            judge,
            "trace 1\n1200 6 00240\n3001 7 00280\nend 3001\n",
            NEVER,
            NEVER,
            Status::Broken,
            "broken 2 4\n",
        ),
        (
            judge,
            "trace 1\n1200 7 00280\n3500 7 00680\nend 3500\n",
            NEVER,
            NEVER,
            Status::Broken,
            "broken 2 5\n",
        ),
        (
            judge,
            "trace 1\n1200 7 00280\n1200 6 00240\n3600 7 00680\n4400 6 00000\nend 4400\n",
            NEVER,
            NEVER,
            Status::Done,
            "lawful\n",
        ),
        (
            judge,
            "trace 1\n1200 7 00280\n1200 6 00240\n3600 7 00680\n4401 6 00000\nend 4401\n",
            NEVER,
            NEVER,
            Status::Broken,
            "broken 4 7\n",
        ),
        (
            judge,
            "trace 1\n12 8 00000\nend 12\n",
            NEVER,
            NEVER,
            Status::BadTrace,
            "trace line 2\n",
        ),
        (judge, PLAIN.1, 3, NEVER, Status::Read, "read fault\n"),
        (judge, PLAIN.1, NEVER, 1, Status::Write, ""),
        (
            judge,
            "trace 1\n1200 7 00280\n3500 7 00680\nend 3500\n",
            NEVER,
            1,
            Status::Broken,
            "",
        ),
        (judge, "walk\n", NEVER, 1, Status::BadTrace, ""),
    ];
    for (words, input, bad_read, bad_write, status, text) in cases {
        let mut out = MemSink::new(rt.alloc(), ROOM, ROOM, &[bad_write])?;
        let mut input = MemSource::new(rt.alloc(), input.as_bytes(), 64, &[bad_read])?;
        let ended = ended(rt.alloc(), words, &mut input, &mut out)?;
        assert!(rt; ended == status, "{words:?}");
        assert!(rt; out.bytes() == text.as_bytes(), "{words:?}");
    }
    Ok(())
}

#[test]
fn ends_with_each_status_of_dumps(rt: HostRuntime) -> Result<(), NoMemory> {
    let vcd: &'static [&'static str] = &["vcd"];
    let unvcd: &'static [&'static str] = &["unvcd"];
    let cases: [Case; 11] = [
        (vcd, SHORT_TRACE, NEVER, NEVER, Status::Done, SHORT_DUMP),
        (vcd, SHORT_TRACE, NEVER, 1, Status::Write, ""),
        (vcd, SHORT_TRACE, 2, NEVER, Status::Read, "read fault\n"),
        (
            vcd,
            "trace 1\n1200 6 00240\n3001 7 00280\nend 3001\n",
            NEVER,
            NEVER,
            Status::Broken,
            "broken 2 4\n",
        ),
        (
            vcd,
            "trace 1\n12 8 00000\nend 12\n",
            NEVER,
            NEVER,
            Status::BadTrace,
            "trace line 2\n",
        ),
        (unvcd, SHORT_DUMP, NEVER, NEVER, Status::Done, SHORT_TRACE),
        (unvcd, SHORT_DUMP, NEVER, 1, Status::Write, ""),
        (unvcd, SHORT_DUMP, 3, NEVER, Status::Read, "read fault\n"),
        (
            unvcd,
            ONE_LINE,
            NEVER,
            NEVER,
            Status::Done,
            "trace 1\n1200 7 00280\nend 1200\n",
        ),
        (
            unvcd,
            "walk\n",
            NEVER,
            NEVER,
            Status::BadDump,
            "vcd line 1\n",
        ),
        (unvcd, "\n\nwalk\n", NEVER, 1, Status::BadDump, ""),
    ];
    for (words, input, bad_read, bad_write, status, text) in cases {
        let mut out = MemSink::new(rt.alloc(), ROOM, ROOM, &[bad_write])?;
        let mut input = MemSource::new(rt.alloc(), input.as_bytes(), 64, &[bad_read])?;
        let ended = ended(rt.alloc(), words, &mut input, &mut out)?;
        assert!(rt; ended == status, "{words:?}");
        assert!(rt; out.bytes() == text.as_bytes(), "{words:?}");
    }
    Ok(())
}

#[test]
fn ends_with_each_status_of_transcripts(rt: HostRuntime) -> Result<(), NoMemory> {
    let transcript: &'static [&'static str] = &["transcript"];
    let cases: [Case; 6] = [
        (
            transcript,
            PLAIN.1,
            NEVER,
            NEVER,
            Status::Done,
            PLAIN_TRANSCRIPT,
        ),
        (transcript, PLAIN.1, NEVER, 1, Status::Write, ""),
        (transcript, PLAIN.1, 2, NEVER, Status::Read, "read fault\n"),
        (
            transcript,
            "trace 1\n1200 7 00280\n3500 7 00680\nend 3500\n",
            NEVER,
            NEVER,
            Status::Broken,
            "broken 2 5\n",
        ),
        (
            transcript,
            "trace 1\n12 8 00000\nend 12\n",
            NEVER,
            NEVER,
            Status::BadTrace,
            "trace line 2\n",
        ),
        (
            &["transcript", "transcript"],
            PLAIN.1,
            NEVER,
            NEVER,
            Status::Words,
            "usage: scsibus run [--short|--transcript] | judge | make SEED N | transcript | vcd | unvcd\n",
        ),
    ];
    for (words, input, bad_read, bad_write, status, text) in cases {
        let mut out = MemSink::new(rt.alloc(), ROOM, ROOM, &[bad_write])?;
        let mut input = MemSource::new(rt.alloc(), input.as_bytes(), 64, &[bad_read])?;
        let ended = ended(rt.alloc(), words, &mut input, &mut out)?;
        assert!(rt; ended == status, "{words:?}");
        assert!(rt; out.bytes() == text.as_bytes(), "{words:?}");
    }
    Ok(())
}

#[test]
fn has_exit_statuses(rt: HostRuntime) {
    let codes = [
        (Status::Done, 0),
        (Status::Words, 1),
        (Status::Refused, 2),
        (Status::Read, 3),
        (Status::Write, 4),
        (Status::Memory, 5),
        (Status::Broken, 6),
        (Status::BadTrace, 7),
        (Status::BadDump, 10),
    ];
    for (status, code) in codes {
        assert!(rt; status.code() == code);
    }
}
