//! Tests of `cdb_codec`: every operation code, length and bit, and the bytes of what a target returns.

use cdb_codec::{
    CdbFault, Command, END_OF_MEDIUM, FILEMARK, SPACE_BLOCKS, Sense, TapeCommand, blocks_moved,
    capacity_bytes, from_cdb, group_len, inquiry_bytes, read_sense, sense_bytes, tape_cdb,
    tape_inquiry_bytes, to_cdb,
};
use std::test::Fail;

// Each code of the table: the bits of its block that are no fault where they are set.
const FREE: [(&[u8], Command); 8] = [
    (&[0x00, 0xe0, 0, 0, 0, 0], Command::TestUnitReady),
    (
        &[0x03, 0xe0, 0, 0, 0xff, 0],
        Command::RequestSense { room: 0 },
    ),
    (
        &[0x08, 0xff, 0xff, 0xff, 0xff, 0],
        Command::Read6 { lba: 0, count: 0 },
    ),
    (
        &[0x0a, 0xff, 0xff, 0xff, 0xff, 0],
        Command::Write6 { lba: 0, count: 0 },
    ),
    (&[0x12, 0xe0, 0, 0, 0xff, 0], Command::Inquiry { room: 0 }),
    (&[0x25, 0xe0, 0, 0, 0, 0, 0, 0, 0, 0], Command::ReadCapacity),
    (
        &[0x28, 0xf8, 0xff, 0xff, 0xff, 0xff, 0, 0xff, 0xff, 0],
        Command::Read10 { lba: 0, count: 0 },
    ),
    (
        &[0x2a, 0xf8, 0xff, 0xff, 0xff, 0xff, 0, 0xff, 0xff, 0],
        Command::Write10 { lba: 0, count: 0 },
    ),
];

// What a block of this code and length reads as where all its other bytes are 0.
fn of_zeros(code: u8, len: usize) -> Result<Command, CdbFault> {
    if len == 0 {
        return Err(CdbFault::Length);
    }
    for (free, command) in FREE {
        if free.first() == Some(&code) {
            return if len == free.len() {
                Ok(command)
            } else {
                Err(CdbFault::Length)
            };
        }
    }
    Err(CdbFault::Opcode)
}

#[test]
fn reads_each_code_and_length(rt: HostRuntime) {
    for code in 0..=255u8 {
        let mut block = [0u8; 12];
        block[0] = code;
        for len in 0..13usize {
            assert!(rt;
                from_cdb(&block[..len]) == of_zeros(code, len),
                "{code:x} {len}"
            );
        }
    }
}

// Sets the bits of a block one at a time, and says at which byte and mask the answer is wrong.
fn wrong_bit(free: &[u8]) -> Option<(usize, u8)> {
    for at in 1..free.len().min(10) {
        for mask in [0x80, 0x40, 0x20, 0x10, 0x08, 0x04, 0x02, 0x01u8] {
            let mut block = [0u8; 10];
            block[0] = free[0];
            block[at] = mask;
            let is_free = free[at] & mask != 0;
            if is_free != from_cdb(&block[..free.len().min(10)]).is_ok() {
                return Some((at, mask));
            }
        }
    }
    None
}

#[test]
fn finds_each_bad_bit(rt: HostRuntime) {
    for (free, command) in FREE {
        assert!(rt; wrong_bit(free) == None, "{command:?}");
    }
}

#[test]
fn writes_and_reads(rt: HostRuntime) {
    let cases: [(&[u8], Command, u32); 8] = [
        (&[0x00, 0, 0, 0, 0, 0], Command::TestUnitReady, 0),
        (
            &[0x03, 0, 0, 0, 0x12, 0],
            Command::RequestSense { room: 0x12 },
            0,
        ),
        (
            &[0x08, 0x1f, 0x34, 0x56, 0, 0],
            Command::Read6 {
                lba: 0x1f_3456,
                count: 0,
            },
            256,
        ),
        (
            &[0x0a, 0x01, 0x02, 0x03, 7, 0],
            Command::Write6 {
                lba: 0x1_0203,
                count: 7,
            },
            7,
        ),
        (
            &[0x12, 0, 0, 0, 0x24, 0],
            Command::Inquiry { room: 0x24 },
            0,
        ),
        (&[0x25, 0, 0, 0, 0, 0, 0, 0, 0, 0], Command::ReadCapacity, 0),
        (
            &[0x28, 0, 0x81, 0x02, 0x03, 0x04, 0, 0xa5, 0x06, 0],
            Command::Read10 {
                lba: 0x8102_0304,
                count: 0xa506,
            },
            0xa506,
        ),
        (
            &[0x2a, 0, 0, 0, 0, 5, 0, 0, 0, 0],
            Command::Write10 { lba: 5, count: 0 },
            0,
        ),
    ];
    for (bytes, command, blocks) in cases {
        assert!(rt; from_cdb(bytes) == Ok(command));
        assert!(rt; blocks_moved(&command) == blocks);
        assert!(rt; group_len(bytes[0]) == Some(bytes.len()));
    }
}

#[test]
fn writes_blocks(rt: HostRuntime) {
    let read = Command::Read10 {
        lba: 0x8102_0304,
        count: 0xa506,
    };
    let bytes = [0x28, 0, 0x81, 0x02, 0x03, 0x04, 0, 0xa5, 0x06, 0];
    assert!(rt; to_cdb(&read).as_slice() == bytes.as_slice());
    let write = Command::Write6 {
        lba: 0x12_3456,
        count: 0,
    };
    let bytes = [0x0a, 0x12, 0x34, 0x56, 0, 0];
    assert!(rt; to_cdb(&write).as_slice() == bytes.as_slice());
    assert!(rt; group_len(0x40) == None);
}

#[test]
fn lays_out_replies(rt: HostRuntime) {
    // Parity errors of a transfer, no sense, and a bad field.
    for (key, asc, ascq, bytes) in [
        (
            0x0b,
            0x47,
            0,
            *b"\x70\0\x0b\0\0\0\0\x0a\0\0\0\0\x47\0\0\0\0\0",
        ),
        (0, 0, 0, *b"\x70\0\0\0\0\0\0\x0a\0\0\0\0\0\0\0\0\0\0"),
        (
            5,
            0x24,
            1,
            *b"\x70\0\x05\0\0\0\0\x0a\0\0\0\0\x24\x01\0\0\0\0",
        ),
    ] {
        let sense = Sense::plain(key, asc, ascq);
        assert!(rt; sense_bytes(&sense) == bytes);
        assert!(rt; read_sense(&bytes) == sense);
    }
    let disk =
        *b"\x00\x00\x02\x02\x1f\x00\x00\x12\x42\x55\x53\x4d\x4f\x44\x45\x4c\x53\x49\x4d\x55\x4c\x41\x54\x45\x44\x20\x44\x49\x53\x4b\x20\x20\x30\x30\x30\x31";
    assert!(rt; inquiry_bytes(true) == disk);
    let absent = inquiry_bytes(false);
    assert!(rt; absent[0] == 0x7f);
    assert!(rt; absent[1..] == disk[1..]);
    assert!(rt; capacity_bytes(0, 16) == [0, 0, 0, 0, 0, 0, 0, 16]);
    assert!(rt; capacity_bytes(0x0102_0304, 512) == [1, 2, 3, 4, 0, 0, 2, 0]);
}

#[test]
fn reads_commands_of_a_tape(rt: HostRuntime) {
    let cases: [(&[u8], Result<TapeCommand, CdbFault>); 12] = [
        (&[0x00, 0, 0, 0, 0, 0], Ok(TapeCommand::TestUnitReady)),
        (&[0x01, 0xe1, 0, 0, 0, 0], Ok(TapeCommand::Rewind)),
        (
            &[0x03, 0, 0, 0, 0x12, 0],
            Ok(TapeCommand::RequestSense { room: 0x12 }),
        ),
        (
            &[0x08, 0x01, 0x12, 0x34, 0x56, 0],
            Ok(TapeCommand::Read { count: 0x12_3456 }),
        ),
        (
            &[0x0a, 0x01, 0, 0, 0x02, 0],
            Ok(TapeCommand::Write { count: 2 }),
        ),
        (
            &[0x10, 0x01, 0, 0x01, 0, 0],
            Ok(TapeCommand::Filemarks { count: 0x100 }),
        ),
        (
            &[0x11, 0, 0xff, 0xff, 0xfe, 0],
            Ok(TapeCommand::Space {
                code: SPACE_BLOCKS,
                count: -2,
            }),
        ),
        (
            &[0x12, 0, 0, 0, 0x24, 0],
            Ok(TapeCommand::Inquiry { room: 0x24 }),
        ),
        // Blocks of any length, a code of SPACE that is none of ours, a block cut off, and a command of a disk.
        (&[0x08, 0, 0, 0, 0x01, 0], Err(CdbFault::Field)),
        (&[0x11, 0x02, 0, 0, 0x01, 0], Err(CdbFault::Field)),
        (&[0x08, 0x01, 0, 0, 0x01], Err(CdbFault::Length)),
        (&[0x25, 0, 0, 0, 0, 0, 0, 0, 0, 0], Err(CdbFault::Opcode)),
    ];
    for (bytes, command) in cases {
        assert!(rt; tape_cdb(bytes) == command);
    }
}

#[test]
fn reads_sense_of_a_tape(rt: HostRuntime) {
    // A filemark that stood three blocks before the last one asked for, and no room for 70,000 blocks.
    for (key, ascq, marks, residue, bytes) in [
        (
            0,
            0x01,
            FILEMARK,
            3,
            *b"\xf0\0\x80\0\0\0\x03\x0a\0\0\0\0\0\x01\0\0\0\0",
        ),
        (
            0x0d,
            0x02,
            END_OF_MEDIUM,
            70000,
            *b"\xf0\0\x4d\0\x01\x11\x70\x0a\0\0\0\0\0\x02\0\0\0\0",
        ),
    ] {
        let sense = Sense {
            key,
            asc: 0,
            ascq,
            marks,
            residue: Some(residue),
        };
        assert!(rt; sense_bytes(&sense) == bytes);
        assert!(rt; read_sense(&bytes) == sense);
    }
    // Information that is not valid is none, and the bits beside the marks are passed over.
    let sense = read_sense(b"\x70\0\x38\0\0\0\x03\x0a\0\0\0\0\0\x05\0\0\0\0");
    assert!(rt; sense == Sense::plain(0x08, 0, 0x05));
    let tape =
        *b"\x01\x80\x02\x02\x1f\x00\x00\x12\x42\x55\x53\x4d\x4f\x44\x45\x4c\x53\x49\x4d\x55\x4c\x41\x54\x45\x44\x20\x54\x41\x50\x45\x20\x20\x30\x30\x30\x31";
    assert!(rt; tape_inquiry_bytes() == tape);
}
