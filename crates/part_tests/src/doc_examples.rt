//! The examples of doc comments, run. The lines from `// example NAME` to `// end` are those of the doc comment of
//! NAME, which `tools/checks/doc_examples.py` compares.
use bitflags::Flags;
use bus_trace::{Kind, Lines, Row};
use cdb_codec::{CdbFault, Command, from_cdb};
use msg_grammar::{Got, MsgIn, MsgOut, decode_in, decode_out};
use scenario::{Bad, read};
use trace_checker::{Judge, Verdict};

#[test]
fn reads_a_scenario(rt: HostRuntime) {
    // example scenario::read
    let text = "scsi 1\ninitiator 7 latency 0 open 1 retries 2 sync 0 0 lag 0\nend\n";
    let Ok(scenario) = read(rt.alloc(), text.as_bytes()) else {
        panic!(rt; "it is a scenario");
    };
    assert!(rt; scenario.hosts.len() == 1);
    // There is no text 4, so the line has none of the forms.
    let Err(bad) = read(rt.alloc(), b"scsi 4\nend\n") else {
        panic!(rt; "it is none");
    };
    assert!(rt; bad == Bad::At { line: 1, reason: 2 });
    // end
}

#[test]
fn judges_rows(rt: HostRuntime) {
    // example trace_checker::Judge
    let mut judge = Judge::new();
    // Device 7 enters an arbitration as soon as it may.
    let mut row = Row {
        time: 1200,
        dev: 7,
        kind: Kind::Drives(Lines::from_bits_retain(0x280)),
    };
    assert!(rt; judge.feed(&row) == Verdict::Lawful);
    // At 1300 it drives what it drove already.
    row.time = 1300;
    assert!(rt; judge.feed(&row) == Verdict::Broken { row: 2, rule: 2 });
    assert!(rt; judge.finish(1300) == Verdict::Broken { row: 2, rule: 2 });
    // end
}

#[test]
fn decodes_a_message_to_the_target(rt: HostRuntime) {
    // example msg_grammar::decode_out
    let identify = MsgOut::Identify {
        disc: false,
        lun: 3,
    };
    assert!(rt; decode_out(&[0x83, 0x20, 9]) == Got::Whole(identify, 1));
    // A queue tag message is whole with its tag.
    assert!(rt; decode_out(&[0x20]) == Got::More);
    assert!(rt; decode_out(&[0x20, 9]) == Got::Whole(MsgOut::SimpleTag(9), 2));
    // end
}

#[test]
fn decodes_a_message_to_the_initiator(rt: HostRuntime) {
    // example msg_grammar::decode_in
    assert!(rt; decode_in(&[0x85]) == Got::Whole(MsgIn::Identify { lun: 5 }, 1));
    // BUS DEVICE RESET goes to the target alone.
    assert!(rt; decode_in(&[0x0c]) == Got::Unknown);
    // end
}

#[test]
fn reads_a_command_block(rt: HostRuntime) {
    // example cdb_codec::from_cdb
    // READ(6) of one block, block 0.
    let command = Command::Read6 { lba: 0, count: 1 };
    assert!(rt; from_cdb(&[0x08, 0, 0, 0, 1, 0]) == Ok(command));
    // A byte is missing; MODE SELECT(6) is no command that is known.
    assert!(rt; from_cdb(&[0x08, 0, 0, 0, 1]) == Err(CdbFault::Length));
    assert!(rt; from_cdb(&[0x15, 0, 0, 0, 0, 0]) == Err(CdbFault::Opcode));
    // end
}
