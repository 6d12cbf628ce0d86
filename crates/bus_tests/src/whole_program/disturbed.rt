//! One run with a fault at each of its samples and each bit, and with a reset after each of its rows. The answers are
//! those of an independent simulator.
use super::ROOM;
use super::cut::ended_on;
use super::wholes::PLAIN;
use bus_base::{MemSink, NoMemory};
use bus_cli::Status;
use std::alloc::Global;

/// The times at which a byte or the IDs are sampled: in selection, of IDENTIFY, the command block, the data, the status
/// and COMMAND COMPLETE.
const SAMPLES: [u64; 26] = [
    5290, 5870, 6325, 6380, 6435, 6490, 6545, 6600, 7455, 7510, 7565, 7620, 7675, 7730, 7785, 7840,
    7895, 7950, 8005, 8060, 8115, 8170, 8225, 8280, 8680, 9080,
];

const GOOD: &'static str = "\ncmd 1 GOOD 000102030405060708090a0b0c0d0e0f\n";

/// A reset before the target answers costs a unit attention.
const CHECK: &'static str = "\ncmd 1 CHECK 062900\n";

const RESET: &'static str = "\ncmd 1 RESET\n";

/// A reset one ns after each time of a row, with the answer to the command.
const RESETS: [(u64, &'static str); 34] = [
    (1201, CHECK),
    (3601, CHECK),
    (4801, CHECK),
    (4891, CHECK),
    (5291, CHECK),
    (5381, RESET),
    (5781, RESET),
    (5871, RESET),
    (6271, RESET),
    (6326, RESET),
    (6381, RESET),
    (6436, RESET),
    (6491, RESET),
    (6546, RESET),
    (6601, RESET),
    (7401, RESET),
    (7456, RESET),
    (7511, RESET),
    (7566, RESET),
    (7621, RESET),
    (7676, RESET),
    (7731, RESET),
    (7786, RESET),
    (7841, RESET),
    (7896, RESET),
    (7951, RESET),
    (8006, RESET),
    (8061, RESET),
    (8116, RESET),
    (8171, RESET),
    (8226, RESET),
    (8281, RESET),
    (8681, RESET),
    (9081, GOOD),
];

/// The scenario of one READ(6), of which the initiators' lines and the rest stand apart.
fn plain_lines() -> (&'static str, &'static str) {
    let lines = match PLAIN.0.split_once("end\n") {
        Some((lines, _)) => lines,
        None => "",
    };
    match lines.split_once("target 0") {
        Some(parts) => parts,
        None => ("", ""),
    }
}

/// Whether a run of this scenario gives this answer, and its trace is lawful.
fn lawfully_answers(alloc: Global, scenario: &str, answer: &str) -> Result<bool, NoMemory> {
    let mut out = MemSink::new(alloc, ROOM, ROOM, &[])?;
    let ended = ended_on(alloc, "run", scenario.as_bytes(), &mut out)?;
    let Ok(report) = std::str::from_utf8(out.bytes()) else {
        return Ok(false);
    };
    let Some((trace, told)) = report.split_once("history\n") else {
        return Ok(false);
    };
    let mut verdict = MemSink::new(alloc, ROOM, ROOM, &[])?;
    let judged = ended_on(alloc, "judge", trace.as_bytes(), &mut verdict)?;
    Ok(ended == Status::Done && judged == Status::Done && told.contains(answer))
}

#[test]
fn bears_a_fault_at_each_sample(rt: HostRuntime) -> Result<(), NoMemory> {
    let (hosts, rest) = plain_lines();
    for at in SAMPLES {
        for bit in 0..=8u8 {
            let scenario = format!(in rt.alloc();
                "{hosts}target 0{rest}fault at {at} bit {bit}\nend\n"
            )?;
            assert!(rt;
                lawfully_answers(rt.alloc(), scenario.as_str(), GOOD)?,
                "{at} {bit}"
            );
        }
    }
    Ok(())
}

#[test]
fn answers_a_reset_after_each_row(rt: HostRuntime) -> Result<(), NoMemory> {
    let (hosts, rest) = plain_lines();
    let other = "initiator 6 latency 0 open 1 retries 2 sync 0 0 lag 0\n";
    for (at, answer) in RESETS {
        let scenario = format!(in rt.alloc();
            "{hosts}{other}target 0{rest}reset 6 at {at}\nend\n"
        )?;
        assert!(rt;
            lawfully_answers(rt.alloc(), scenario.as_str(), answer)?,
            "{at}"
        );
    }
    Ok(())
}
