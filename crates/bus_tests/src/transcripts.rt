//! Tests of `bus_transcript`: traces of devices that do what no device of ours does, as
//! `tools/comparisons/random_trace.py` makes
//! them, and sinks that fail at every call. The transcripts are those of an independent simulator.
use bus_base::{MemSink, NoMemory};
use bus_transcript::{Transcriber, Transcript, print_transcript, transcribe};
use run_record::RowStore;
use std::alloc::Global;
use trace_text::read_trace;

// A message that is void, an end of a connection without a message, and two processes of one nexus.
const VOID_TRACE: &'static str =
    "trace 1\n1300 6 00240\n3700 6 00640\n4900 6 10741\n4990 6 10541\n5440 0 00200\n\
    5540 6 10000\n6040 0 02a00\n6490 0 06a00\n6590 6 00000\n6790 6 001c0\n6890 6 081c0\n\
    6940 0 02a00\n7040 6 00000\n7540 0 03a00\n8440 0 03a20\n8540 0 07a20\n8590 6 08000\n\
    8640 0 03a00\n8760 6 00000\n9660 0 03b00\n9760 0 07b00\n9810 6 08000\n9860 0 03a00\n\
    9980 6 00000\n10880 0 03a07\n10980 0 07a07\n11030 6 18000\n11080 0 03a00\n\
    11200 6 10000\n11700 0 02a00\n12150 0 06a00\n12350 6 10109\n12450 6 18109\n\
    12500 0 02a00\n12600 6 10000\n13050 0 06a00\n13250 6 10109\n13350 6 18109\n\
    13400 0 02a00\n13500 6 10000\n13950 0 06a00\n14150 6 101c0\n14250 6 181c0\n\
    14300 0 02a00\n14400 6 10000\n14900 0 00000\n15000 6 00000\n16300 7 00280\n\
    18700 7 00680\n19900 7 10781\n19990 7 10581\n20440 0 00200\n20540 7 10000\n\
    21040 0 00000\n21140 7 00000\n22440 7 00280\n24840 7 00680\n26040 7 10781\n\
    26130 7 10581\n26580 0 00200\n26680 7 10000\n27180 0 00000\n27280 7 00000\nend 27290\n";

const VOID_TRANSCRIPT: &'static str =
    "transcript 1\nconnect 5540 6.0.0.-.1 first\nout c0\nin 2000\nout 09\nout 09\nout c0\n\
    lost 6.0.0.-.1\nfree 14900\nconnect 20540 7.0.-.-.1 first\nlost 7.0.-.-.1\nfree 21040\n\
    connect 26680 7.0.-.-.2 first\nlost 7.0.-.-.2\nfree 27180\ndone\n";

// A calling without an answer; and a connection with data, a void message, and bytes begun anew, an abort message
// among them.
const CALLING_TRACE: &'static str =
    "trace 1\n1300 7 00280\n3700 7 00680\n4900 7 10782\n4990 7 10582\n250004990 7 10400\n\
    250205080 7 00000\n250206380 7 00280\n250208780 7 00680\n250209980 7 10781\n\
    250210070 7 10581\n250210520 0 00200\n250210620 7 10000\n250211120 0 02a00\n\
    250211570 0 06a00\n250211770 7 10106\n250211870 7 18106\n250211920 0 02a00\n\
    250212020 7 10000\n250212470 0 06a00\n250212570 7 00000\n250212770 7 00109\n\
    250212870 7 08109\n250212920 0 02a00\n250213020 7 00000\n250213470 0 06a00\n\
    250213770 7 00080\n250213870 7 08080\n250213920 0 02a00\n250214020 7 00000\n\
    250214520 0 01200\n250215420 0 012a4\n250215520 0 052a4\n250215570 7 08000\n\
    250215620 0 01200\n250215740 7 00000\n250216740 0 03a00\n250217640 0 03a20\n\
    250217740 0 07a20\n250217790 7 08000\n250217840 0 03a00\n250217960 7 00000\n\
    250218860 0 03b00\n250218960 0 07b00\n250219010 7 08000\n250219060 0 03a00\n\
    250219180 7 00000\n250219680 0 02a00\n250220130 0 06a00\n250220330 7 0000d\n\
    250220430 7 0800d\n250220480 0 02a00\n250220580 7 00000\n250221030 0 06a00\n\
    250221230 7 00020\n250221330 7 08020\n250221380 0 02a00\n250221480 7 00000\n\
    250221930 0 06a00\n250222130 7 00001\n250222230 7 08001\n250222280 0 02a00\n\
    250222380 7 00000\n250222830 0 06a00\n250223130 7 00109\n250223230 7 08109\n\
    250223280 0 02a00\n250223380 7 00000\n250223880 0 00000\nend 250223990\n";

const CALLING_TRANSCRIPT: &'static str =
    "transcript 1\nunanswered 250205080 7 1\nconnect 250210620 7.0.0.-.1 first\nout 80\n\
    datain 0 a4\nout 09\nlost 7.0.0.-.1\nfree 250223880\ndone\n";

/// How much room the sinks have, in bytes.
const ROOM: usize = 1024;

// The text of a transcript that is written to a sink of which this write fails.
fn is_written(
    alloc: Global,
    transcript: &Transcript,
    bad: u64,
    wanted: &str,
) -> Result<bool, NoMemory> {
    let mut out = MemSink::new(alloc, ROOM, 100, &[bad])?;
    let written = print_transcript(transcript, &mut out).is_ok();
    Ok(written && out.bytes() == wanted.as_bytes())
}

// The transcript of the trace that a text says; of no rows where it says none.
fn transcript_of(alloc: Global, text: &str) -> Result<Transcript, NoMemory> {
    match read_trace(alloc, text.as_bytes()) {
        Ok(trace) => transcribe(alloc, &trace.rows, trace.end),
        Err(_) => transcribe(alloc, &RowStore::new(alloc), 0),
    }
}

#[test]
fn transcribes_other_devices(rt: HostRuntime) -> Result<(), NoMemory> {
    for (text, wanted) in [
        (VOID_TRACE, VOID_TRANSCRIPT),
        (CALLING_TRACE, CALLING_TRANSCRIPT),
        ("trace 1\nend 5\n", "transcript 1\ndone\n"),
    ] {
        let transcript = transcript_of(rt.alloc(), text)?;
        let written = is_written(rt.alloc(), &transcript, u64::MAX, wanted)?;
        assert!(rt; written, "{wanted}");
    }
    Ok(())
}

#[test]
fn fails_with_the_sink(rt: HostRuntime) -> Result<(), NoMemory> {
    let transcript = transcript_of(rt.alloc(), CALLING_TRACE)?;
    for bad in 1..3 {
        let written = is_written(rt.alloc(), &transcript, bad, CALLING_TRANSCRIPT)?;
        assert!(rt; !written, "{bad}");
    }
    Ok(())
}

#[test]
fn sees_no_row(rt: HostRuntime) -> Result<(), NoMemory> {
    let transcript = Transcriber::new(rt.alloc()).finish()?;
    assert!(rt; transcript.items.len() == 0);
    Ok(())
}
