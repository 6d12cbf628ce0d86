//! Tests of `msg_grammar`: both decoders over every first byte, against the table of messages by code; and
//! each message's bytes.

use bus_trace::Agreement;
use msg_grammar::{Got, MsgIn, MsgOut, decode_in, decode_out, encode_in, encode_out};
use std::test::Fail;

/// Bytes after the first one, and how they read after an extended message's 01: from `decided` bytes on
/// they are this request, or none.
#[derive(Clone, Copy)]
struct After {
    bytes: [u8; 5],
    decided: usize,
    offered: Option<Agreement>,
}

const OFFER: Agreement = Agreement {
    period: 0x32,
    offset: 0x08,
};

const AFTER: [After; 4] = [
    After {
        bytes: [0x03, 0x01, 0x32, 0x08, 0x07],
        decided: 4,
        offered: Some(OFFER),
    },
    After {
        bytes: [0x02, 0x01, 0x32, 0x08, 0x07],
        decided: 1,
        offered: None,
    },
    After {
        bytes: [0x03, 0x03, 0x32, 0x08, 0x07],
        decided: 2,
        offered: None,
    },
    After {
        bytes: [0x00, 0xff, 0x01, 0x20, 0x80],
        decided: 1,
        offered: None,
    },
];

/// The messages of one byte to the target, but for IDENTIFY.
const OUT: [(u8, MsgOut); 8] = [
    (0x05, MsgOut::DetectedError),
    (0x06, MsgOut::Abort),
    (0x07, MsgOut::Reject),
    (0x08, MsgOut::Nop),
    (0x09, MsgOut::ParityError),
    (0x0c, MsgOut::DeviceReset),
    (0x0d, MsgOut::AbortTag),
    (0x0e, MsgOut::ClearQueue),
];

/// The messages of one byte to the initiator, but for IDENTIFY.
const IN: [(u8, MsgIn); 5] = [
    (0x00, MsgIn::CommandComplete),
    (0x02, MsgIn::SavePointer),
    (0x03, MsgIn::RestorePointers),
    (0x04, MsgIn::Disconnect),
    (0x07, MsgIn::Reject),
];

/// What `first` and `len` bytes after it begin with, to the target.
fn expected_out(first: u8, after: After, len: usize) -> Got<MsgOut> {
    for (code, message) in OUT {
        if code == first {
            return Got::Whole(message, 1);
        }
    }
    let tag = after.bytes[0];
    match first {
        0x01 if len < after.decided => Got::More,
        0x01 => match after.offered {
            Some(offered) => Got::Whole(MsgOut::Sdtr(offered), 5),
            None => Got::Unknown,
        },
        0x20 | 0x21 | 0x22 if len == 0 => Got::More,
        0x20 => Got::Whole(MsgOut::SimpleTag(tag), 2),
        0x21 => Got::Whole(MsgOut::HeadTag(tag), 2),
        0x22 => Got::Whole(MsgOut::OrderedTag(tag), 2),
        _ => identify_out(first),
    }
}

/// IDENTIFY has bit 7, the disconnect privilege in bit 6, nothing in bits 5 to 3.
fn identify_out(first: u8) -> Got<MsgOut> {
    let lun = first % 8;
    let reserved = first / 8 % 8;
    match first / 64 {
        2 if reserved == 0 => Got::Whole(MsgOut::Identify { disc: false, lun }, 1),
        3 if reserved == 0 => Got::Whole(MsgOut::Identify { disc: true, lun }, 1),
        _ => Got::Unknown,
    }
}

/// What `first` and `len` bytes after it begin with, to the initiator.
fn expected_in(first: u8, after: After, len: usize) -> Got<MsgIn> {
    for (code, message) in IN {
        if code == first {
            return Got::Whole(message, 1);
        }
    }
    match first {
        0x01 if len < after.decided => Got::More,
        0x01 => match after.offered {
            Some(offered) => Got::Whole(MsgIn::Sdtr(offered), 5),
            None => Got::Unknown,
        },
        0x20 if len == 0 => Got::More,
        0x20 => Got::Whole(MsgIn::SimpleTag(after.bytes[0]), 2),
        _ if first / 8 == 16 => Got::Whole(MsgIn::Identify { lun: first % 8 }, 1),
        _ => Got::Unknown,
    }
}

#[test]
fn every_first_byte(rt: HostRuntime) {
    for after in AFTER {
        for first in 0..=255u8 {
            let [a, b, c, d, e] = after.bytes;
            let bytes = [first, a, b, c, d, e];
            for len in 0..6usize {
                let front = &bytes[..len + 1];
                assert!(rt;
                    decode_out(front) == expected_out(first, after, len),
                    "{front:?}"
                );
                assert!(rt;
                    decode_in(front) == expected_in(first, after, len),
                    "{front:?}"
                );
            }
        }
    }
    assert!(rt; decode_out(&[]) == Got::More);
    assert!(rt; decode_in(&[]) == Got::More);
}

#[test]
fn bytes_to_the_target(rt: HostRuntime) {
    for (code, message) in OUT {
        assert!(rt; encode_out(&message).as_slice() == [code].as_slice());
    }
    let longer: [(MsgOut, &[u8]); 6] = [
        (
            MsgOut::Identify {
                disc: false,
                lun: 3,
            },
            &[0x83],
        ),
        (MsgOut::Identify { disc: true, lun: 7 }, &[0xc7]),
        (MsgOut::SimpleTag(9), &[0x20, 9]),
        (MsgOut::HeadTag(0), &[0x21, 0]),
        (MsgOut::OrderedTag(255), &[0x22, 255]),
        (MsgOut::Sdtr(OFFER), &[0x01, 0x03, 0x01, 0x32, 0x08]),
    ];
    for (message, bytes) in longer {
        assert!(rt; encode_out(&message).as_slice() == bytes);
    }
}

#[test]
fn bytes_to_the_initiator(rt: HostRuntime) {
    for (code, message) in IN {
        assert!(rt; encode_in(&message).as_slice() == [code].as_slice());
    }
    let longer: [(MsgIn, &[u8]); 3] = [
        (MsgIn::Identify { lun: 5 }, &[0x85]),
        (MsgIn::SimpleTag(9), &[0x20, 9]),
        (MsgIn::Sdtr(OFFER), &[0x01, 0x03, 0x01, 0x32, 0x08]),
    ];
    for (message, bytes) in longer {
        assert!(rt; encode_in(&message).as_slice() == bytes);
    }
}
