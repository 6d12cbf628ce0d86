//! Tests of `bus_lines`: values from the standard, and runs of both views.

use crate::driven_rows::drive;
use bitflags::Flags;
use bus_base::{Dev, Ns};
use bus_lines::{BusView, Stage};
use bus_trace::{
    Agreement, Kind, LineView, Lines, Row, TransferTimes, byte_lines, is_same_agreement, parity,
    transfer_times,
};

/// Time, device and lines of the rows by which initiator 7 selects target 0 and puts its first byte on the bus.
const SELECTION: [(Ns, Dev, u32); 9] = [
    (1200, 7, 0x00280),
    (3600, 7, 0x00680),
    (4800, 7, 0x10781),
    (4890, 7, 0x10581),
    (5290, 0, 0x00200),
    (5380, 7, 0x10000),
    (5380, 0, 0x02a00),
    (5780, 0, 0x06a00),
    (5780, 7, 0x001c0),
];

#[test]
fn bytes_and_ids(rt: HostRuntime) {
    for (byte, bits) in [
        (0x00u8, 0x100u32),
        (0x01, 0x001),
        (0xc0, 0x1c0),
        (0x0f, 0x10f),
        (0x07, 0x007),
    ] {
        assert!(rt; byte_lines(byte).bits() == bits);
        assert!(rt; parity(byte) == (bits >= 0x100));
    }
    assert!(rt; Lines::ids(7, 0).bits() == 0x181);
}

#[test]
fn view_of_an_arbitration(rt: HostRuntime) {
    let mut view = LineView::new();
    for (time, dev, bits) in SELECTION {
        view.step(&drive(time, dev % 8, bits));
    }
    view.step(&Row {
        time: 5800,
        dev: 0,
        kind: Kind::Fault(1),
    });
    assert!(rt; view.bus().bits() == 0x06bc0);
    assert!(rt; view.drives(0).bits() == 0x06a00);
    assert!(rt;
        (
            view.since(9),
            view.since(14),
            view.data_since(),
            view.last_time()
        ) == (5290, 5780, 5780, 5800)
    );
}

#[test]
fn times_of_transfers(rt: HostRuntime) {
    // Factor, then period, assertion, negation, set-up and hold.
    for (factor, period, assertion, negation, set_up, hold) in [
        (25u8, 100u64, 30u64, 30u64, 25u64, 35u64),
        (49, 196, 30, 30, 25, 35),
        (50, 200, 90, 90, 55, 100),
        (255, 1020, 90, 90, 55, 100),
    ] {
        let times = TransferTimes {
            period,
            assertion,
            negation,
            set_up,
            hold,
        };
        assert!(rt; transfer_times(factor) == Some(times));
    }
    assert!(rt; transfer_times(24) == None);
}

#[test]
fn same_agreements(rt: HostRuntime) {
    // Two periods and offsets, and whether the agreements are the same.
    for (first, first_offset, second, second_offset, same) in [
        (50u8, 0u8, 25u8, 0u8, true),
        (50, 8, 50, 8, true),
        (50, 8, 25, 8, false),
        (50, 8, 50, 0, false),
    ] {
        let a = Agreement {
            period: first,
            offset: first_offset,
        };
        let b = Agreement {
            period: second,
            offset: second_offset,
        };
        assert!(rt; is_same_agreement(a, b) == same);
    }
}

#[test]
fn view_of_a_selection(rt: HostRuntime) {
    let mut view = BusView::new();
    for (time, dev, bits) in SELECTION {
        view.step(&drive(time, dev % 8, bits));
    }
    view.step(&drive(5870, 7, 0x081c0));
    let Stage::InConnection(connection) = view.stage() else {
        assert!(rt; false);
        return;
    };
    assert!(rt;
        (
            connection.initiator.get(),
            connection.target.get(),
            connection.began
        ) == (7u8, 0u8, 5380u64)
    );
    let Some(receiver) = view.effect().receiver else {
        assert!(rt; false);
        return;
    };
    assert!(rt; receiver.get() == 0u8);
    let handshakes = view.handshakes();
    assert!(rt;
        (
            handshakes.requests(),
            handshakes.answers(),
            handshakes.waiting()
        ) == (1u64, 1u64, 0u8)
    );
    assert!(rt; view.since(14) == 5780);
    assert!(rt;
        view.bus()
            .without_ack()
            .without_req()
            .with_byte(0x07)
            .bits()
            == 0x02a07
    );
}
