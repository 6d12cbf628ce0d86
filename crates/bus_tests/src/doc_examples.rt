//! The examples of the doc comments of `bus_engine` and `bus_transcript`, run, as the module of this name of
//! `part_tests` says.
ghost use Rattle.std.specs.Prelude.{◌≡◌, ◌<◌};

use bus_base::{MemSink, NoMemory, Steps};
use bus_transcript::{print_transcript, transcribe};
use scenario::read;
use std::alloc::Global;
use std::marker::Brand;
use std::process::Abort;
use std::sync::ledger::{Blank, Ledger};
use trace_text::read_trace;

fn run_counted<L: Ledger>(rt: &impl Abort, alloc: Global, blank: Blank) -> Result<(), NoMemory>
    requires name { blank.name ≡ L.name }
    requires parts { blank.parts ≡ L.parts }
    requires some { 0 < blank.parts }
{
    // example bus_engine::run
    let text = "scsi 1\n\
        initiator 7 latency 0 open 1 retries 2 sync 0 0 lag 0\n\
        target 0 latency 0 retries 2 disc never pick first seek 0 sync 0 0\n\
        unit 0 0 blocks 1 size 16 depth 1\n\
        fill 0 0 0 000102030405060708090a0b0c0d0e0f\n\
        cmd 7 0 0 at 0 untagged cdb 080000000100 none\n\
        end\n";
    let Ok(scenario) = read(alloc, text.as_bytes()) else {
        panic!(rt; "it is a scenario");
    };
    let mut steps = Steps::<L>::new(blank);
    let run = bus_engine::run(alloc, &scenario, &mut steps)?;
    assert!(rt; run.rows.len() == 120);
    assert!(rt; run.end == 9080);
    // end
    Ok(())
}

#[test]
fn runs_a_scenario(rt: HostRuntime) -> Result<(), NoMemory> {
    run_counted::<Brand>(&rt, rt.alloc(), Blank::new(1))
}

#[test]
fn transcribes_a_trace(rt: HostRuntime) -> Result<(), NoMemory> {
    // example bus_transcript::transcribe
    // Device 2 resets the bus, for a reset hold time.
    let text = "trace 1\n8855 2 20000\n33855 2 00000\nend 33855\n";
    let Ok(trace) = read_trace(rt.alloc(), text.as_bytes()) else {
        panic!(rt; "it is a trace");
    };
    let transcript = transcribe(rt.alloc(), &trace.rows, trace.end)?;
    let mut out = MemSink::new(rt.alloc(), 64, 64, &[])?;
    assert!(rt; print_transcript(&transcript, &mut out) == Ok(()));
    assert!(rt; out.bytes() == b"transcript 1\nreset 2\ndone\n".as_slice());
    // end
    Ok(())
}
