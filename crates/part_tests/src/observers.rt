//! Tests of `dialogue_model`: one observer, over a selection. The kernel computes more in its
//! `proofs/HearingCases.antt`.

use crate::driven_rows::drive;
use bitflags::Flags;
use bus_trace::{Agreement, Lines};
use dialogue_model::Observer;
use msg_grammar::{MsgIn, MsgOut};

#[test]
fn hears_messages(rt: HostRuntime) {
    let mut observer = Observer::new();
    for row in [
        drive(1200, 7, 0x00280),
        drive(3600, 7, 0x00680),
        drive(4800, 7, 0x10781),
        drive(4890, 7, 0x10581),
        drive(5300, 0, 0x00200),
        drive(5390, 7, 0x10000),
    ] {
        observer.step(&row);
    }
    assert!(rt; !observer.begun());
    observer.step(&drive(5400, 0, 0x02a00));
    assert!(rt; observer.begun());
    assert!(rt; !observer.hearing().begun);
    // IDENTIFY, then a synchronous data transfer request of factor 50 and offset 8; the target answers with the same.
    for (byte, attention) in [
        (0xc0u8, true),
        (0x01, true),
        (0x03, true),
        (0x01, true),
        (0x32, true),
        (0x08, false),
    ] {
        let data = Lines::none().with_byte(byte).bits();
        let atn = if attention { 0x10000 } else { 0 };
        observer.step(&drive(5810, 0, 0x06a00));
        observer.step(&drive(5810, 7, atn | data));
        observer.step(&drive(5900, 7, 0x08000 | atn | data));
        if byte == 0xc0 {
            let identify = MsgOut::Identify { disc: true, lun: 0 };
            assert!(rt; observer.hearing().out == Some(identify));
            assert!(rt; observer.hearing().offered == 1);
        }
        if byte == 0x08 {
            let offer = Agreement {
                period: 50,
                offset: 8,
            };
            assert!(rt; observer.hearing().out == Some(MsgOut::Sdtr(offer)));
            assert!(rt; observer.hearing().offered == 6);
            assert!(rt; observer.offer().is_some());
        }
        observer.step(&drive(5910, 0, 0x02a00));
        observer.step(&drive(5910, 7, atn));
    }
    observer.step(&drive(5920, 0, 0x03a00));
    assert!(rt; observer.hearing().is_last);
    for byte in [0x01u8, 0x03, 0x01, 0x32, 0x08] {
        let data = Lines::none().with_byte(byte).bits();
        observer.step(&drive(6330, 0, 0x03a00 | data));
        observer.step(&drive(6400, 0, 0x07a00 | data));
        observer.step(&drive(6400, 7, 0x08000));
        observer.step(&drive(6410, 0, 0x03a00));
        observer.step(&drive(6410, 7, 0));
    }
    let agreed = observer.agreement();
    assert!(rt; (agreed.period, agreed.offset) == (50u8, 8u8));
    assert!(rt; observer.offer().is_none());
    observer.step(&drive(6420, 0, 0x03b00));
    observer.step(&drive(6500, 0, 0x07b00));
    assert!(rt; observer.hearing().into == Some(MsgIn::CommandComplete));
    observer.step(&drive(6510, 0, 0x00000));
    assert!(rt; observer.agreement().offset == 0);
    assert!(rt; !observer.begun());
}
