//! Tests of the words `make`, `run --short` and `run --transcript`.
use super::wholes::PLAIN;
use super::{Case, NEVER, NOTHING, PLAIN_TRANSCRIPT, ROOM, ended};
use bus_base::{MemSink, MemSource, NoMemory};
use bus_cli::Status;

const USAGE: &'static str =
    "usage: scsibus run [--short|--transcript] | judge | make SEED N | transcript | vcd | unvcd\n";

/// The scenario of the number 1 with two commands.
const MADE: &'static str = "scsi 1\ninitiator 7 latency 0 open 8 retries 2 sync 50 8 lag 0\n\
    initiator 6 latency 20 open 8 retries 2 sync 0 0 lag 0\n\
    target 0 latency 0 retries 2 disc command pick first seek 2000 sync 50 8\n\
    target 1 latency 30 retries 2 disc burst 1 pick last seek 3000 sync 50 8\n\
    target 2 latency 10 retries 2 disc never pick first seek 1000 sync 0 0\n\
    unit 0 0 blocks 2048 size 128 depth 16\nunit 1 0 blocks 2048 size 128 depth 16\n\
    unit 2 0 blocks 2048 size 128 depth 16\ncmd 6 0 0 at 0 simple 1 cdb 080000f10200 none\n\
    cmd 7 2 0 at 0 simple 2 cdb 0a00036a0100 out from 02\nend\n";

/// The short report of a scenario in which nothing happens.
const NO_ROWS: &'static str =
    "short 1\nrows 0\nend 0\ngood 0\ncheck 0\nqfull 0\nseltimeout 0\nlost 0\nreset 0\naborted 0\n";

/// The short report of one READ(6).
const SHORT: &'static str =
    "short 1\nrows 120\nend 9080\ngood 1\ncheck 0\nqfull 0\nseltimeout 0\nlost 0\nreset 0\naborted 0\n";

#[test]
fn ends_with_each_status_of_made_scenarios(rt: HostRuntime) -> Result<(), NoMemory> {
    let short: &'static [&'static str] = &["run", "--short"];
    let transcript: &'static [&'static str] = &["run", "--transcript"];
    let words: &'static [&'static str] = &["make", "1", "2"];
    let cases: [Case; 17] = [
        (words, "", 1, NEVER, Status::Done, MADE),
        (words, "", NEVER, 1, Status::Write, ""),
        (&["make", "1", "0"], "", 1, NEVER, Status::Words, USAGE),
        (&["make", "01", "2"], "", 1, NEVER, Status::Words, USAGE),
        (&["make", "1", "4097"], "", 1, NEVER, Status::Words, USAGE),
        (
            &["make", "18446744073709551616", "1"],
            "",
            1,
            NEVER,
            Status::Words,
            USAGE,
        ),
        (&["make", "-1", "2"], "", 1, NEVER, Status::Words, USAGE),
        (&["make", "1"], "", 1, NEVER, Status::Words, USAGE),
        (&["make", "1", "2", "3"], "", 1, NEVER, Status::Words, USAGE),
        (short, PLAIN.0, NEVER, NEVER, Status::Done, SHORT),
        (short, PLAIN.0, NEVER, 1, Status::Write, ""),
        (short, PLAIN.0, 3, NEVER, Status::Read, "read fault\n"),
        (short, NOTHING, NEVER, NEVER, Status::Done, NO_ROWS),
        (
            transcript,
            PLAIN.0,
            NEVER,
            NEVER,
            Status::Done,
            PLAIN_TRANSCRIPT,
        ),
        (transcript, PLAIN.0, NEVER, 1, Status::Write, ""),
        (transcript, PLAIN.0, 3, NEVER, Status::Read, "read fault\n"),
        (&["run", "--long"], "", 1, NEVER, Status::Words, USAGE),
    ];
    for (words, input, bad_read, bad_write, status, text) in cases {
        let mut out = MemSink::new(rt.alloc(), ROOM, ROOM, &[bad_write])?;
        let mut input = MemSource::new(rt.alloc(), input.as_bytes(), 64, &[bad_read])?;
        let ended = ended(rt.alloc(), words, &mut input, &mut out)?;
        assert!(rt; ended == status, "{words:?}");
        assert!(rt; out.bytes() == text.as_bytes(), "{words:?}");
    }
    Ok(())
}
