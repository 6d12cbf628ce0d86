//! Tests of `handshake`: a phase byte by byte and a phase by pulses, row by row as an independent simulator has them
//! for one INQUIRY.
ghost use Rattle.std.specs.Prelude.{◌<◌, ◌^◌};
ghost use Rattle.handshake.specs.Early.{IsEarly};

use bitflags::Flags;
use bus_base::{Dev, Ns};
use bus_lines::{BusView, views_are_timely};
use bus_trace::{Agreement, Kind, Lines, Row};
use handshake::{Crossed, Hand, HostSend, HostTake, TargetSend, TargetTake};

// A selection, with a latency of 10 ns at initiator 7 and of 60 at target 0.
const SELECTION: [(Ns, Dev, u32); 6] = [
    (1210, 7, 0x00280),
    (3620, 7, 0x00680),
    (4830, 7, 0x10781),
    (4930, 7, 0x10581),
    (5390, 0, 0x00200),
    (5490, 7, 0x10000),
];

// A COMMAND phase of six bytes, byte by byte.
const COMMAND: [(Ns, Dev, u32); 31] = [
    (9130, 0, 0x00a00),
    (9590, 0, 0x04a00),
    (9600, 7, 0x00112),
    (9665, 7, 0x08112),
    (9725, 0, 0x00a00),
    (9735, 7, 0x00000),
    (9795, 0, 0x04a00),
    (9805, 7, 0x00100),
    (9870, 7, 0x08100),
    (9930, 0, 0x00a00),
    (9940, 7, 0x00000),
    (10000, 0, 0x04a00),
    (10010, 7, 0x00100),
    (10075, 7, 0x08100),
    (10135, 0, 0x00a00),
    (10145, 7, 0x00000),
    (10205, 0, 0x04a00),
    (10215, 7, 0x00100),
    (10280, 7, 0x08100),
    (10340, 0, 0x00a00),
    (10350, 7, 0x00000),
    (10410, 0, 0x04a00),
    (10420, 7, 0x00103),
    (10485, 7, 0x08103),
    (10545, 0, 0x00a00),
    (10555, 7, 0x00000),
    (10615, 0, 0x04a00),
    (10625, 7, 0x00100),
    (10690, 7, 0x08100),
    (10750, 0, 0x00a00),
    (10760, 7, 0x00000),
];

// A DATA IN phase of three bytes by pulses: period 200 ns, offset 2, lag 30 ns.
const DATA_IN: [(Ns, Dev, u32); 16] = [
    (10820, 0, 0x01200),
    (11680, 0, 0x01300),
    (11795, 0, 0x05300),
    (11835, 7, 0x08000),
    (11935, 7, 0x00000),
    (11945, 0, 0x01300),
    (12095, 0, 0x05300),
    (12135, 7, 0x08000),
    (12235, 7, 0x00000),
    (12245, 0, 0x01300),
    (12255, 0, 0x01202),
    (12395, 0, 0x05202),
    (12435, 7, 0x08000),
    (12535, 7, 0x00000),
    (12545, 0, 0x01202),
    (12555, 0, 0x01200),
];

const LIMIT: Ns = 0x8000_0000_0000_0000;

const ASYNCHRONOUS: Agreement = Agreement {
    period: 0,
    offset: 0,
};

const PULSED: Agreement = Agreement {
    period: 50,
    offset: 2,
};

fn see(view: &mut BusView, time: Ns, dev: Dev, bits: u32)
    requires early { IsEarly view.old }
    requires time { time < 2 ^ 63 }
    requires dev { dev < 8 }
    ensures { IsEarly view.new }
{
    let lines = Lines::from_bits_retain(bits);
    view.step(&Row {
        time,
        dev,
        kind: Kind::Drives(lines),
    });
}

fn send_out(end: HostSend, view: &BusView, now: Ns, offered: Option<u8>) -> Hand<HostSend>
    requires early { IsEarly view.now }
    requires now { now < 2 ^ 63 }
{
    views_are_timely();
    end.step(view, now, offered, None)
}

fn take_out(end: TargetTake, view: &BusView, now: Ns, offered: Option<u8>) -> Hand<TargetTake>
    requires early { IsEarly view.now }
    requires now { now < 2 ^ 63 }
{
    views_are_timely();
    end.step(view, now, offered, None)
}

fn send_in(end: TargetSend, view: &BusView, now: Ns, offered: Option<u8>) -> Hand<TargetSend>
    requires early { IsEarly view.now }
    requires now { now < 2 ^ 63 }
{
    views_are_timely();
    end.step(view, now, offered, None)
}

fn take_in(end: HostTake, view: &BusView, now: Ns) -> Hand<HostTake>
    requires early { IsEarly view.now }
    requires now { now < 2 ^ 63 }
{
    views_are_timely();
    end.step(view, now, None, None)
}

// Where a fault strikes DB(P).
fn take_struck(end: HostTake, view: &BusView, now: Ns) -> Hand<HostTake>
    requires early { IsEarly view.now }
    requires now { now < 2 ^ 63 }
{
    views_are_timely();
    end.step(view, now, None, Some(8))
}

// The data lines, DB(P), REQ and ACK.
fn is_row(drives: Option<Lines>, bits: u32) -> bool {
    match drives {
        None => false,
        Some(lines) => lines.bits() == bits & 0x0c1ff,
    }
}

// Whether an end that waited for `wake` now drives these bits, at this time and no sooner.
fn is_in_time(wake: Option<Ns>, drives: Option<Lines>, time: Ns, bits: u32) -> bool {
    wake == Some(time) && is_row(drives, bits)
}

// Whether this row of COMMAND is the next, and no other comes before it.
fn is_next_out(
    view: &mut BusView,
    host: &mut HostSend,
    target: &mut TargetTake,
    row: (Ns, Dev, u32),
    bytes: &[u8],
) -> bool
    requires early { IsEarly view.old }
    ensures { IsEarly view.new }
{
    let (time, dev, bits) = row;
    if time == 0 || time >= LIMIT || dev >= 8 {
        return false;
    }
    let count = view.handshakes().answers() as usize;
    let byte = bytes.get(count).copied();
    let before = send_out(*host, view, time - 1, byte);
    let sender = send_out(*host, view, time, byte);
    let waiting = take_out(*target, view, time - 1, byte);
    let taker = take_out(*target, view, time, byte);
    *host = sender.next;
    *target = taker.next;
    see(view, time, dev, bits);
    if dev == 7 {
        is_in_time(before.wake, sender.drives, time, bits) && taker.drives.is_none()
    } else {
        is_in_time(waiting.wake, taker.drives, time, bits) && sender.drives.is_none()
    }
}

// Whether this row of DATA IN is the next, and no other comes before it.
fn is_next_in(
    view: &mut BusView,
    host: &mut HostTake,
    target: &mut TargetSend,
    row: (Ns, Dev, u32),
    bytes: &[u8],
) -> bool
    requires early { IsEarly view.old }
    ensures { IsEarly view.new }
{
    let (time, dev, bits) = row;
    if time == 0 || time >= LIMIT || dev >= 8 {
        return false;
    }
    let count = view.handshakes().requests() as usize;
    let byte = bytes.get(count).copied();
    let before = take_in(*host, view, time - 1);
    let taker = take_in(*host, view, time);
    let waiting = send_in(*target, view, time - 1, byte);
    let sender = send_in(*target, view, time, byte);
    *host = taker.next;
    *target = sender.next;
    see(view, time, dev, bits);
    if dev == 7 {
        is_in_time(before.wake, taker.drives, time, bits) && sender.drives.is_none()
    } else {
        is_in_time(waiting.wake, sender.drives, time, bits) && taker.drives.is_none()
    }
}

fn see_all(view: &mut BusView, rows: &[(Ns, Dev, u32)])
    requires early { IsEarly view.old }
    ensures { IsEarly view.new }
{
    for &(time, dev, bits) in rows {
        if time < LIMIT && dev < 8 {
            see(view, time, dev, bits);
        }
    }
}

fn are_next_out(view: &mut BusView, rows: &[(Ns, Dev, u32)], bytes: &[u8]) -> bool
    requires early { IsEarly view.old }
    ensures { IsEarly view.new }
{
    let mut host = HostSend::new(ASYNCHRONOUS, 10, 30);
    let mut target = TargetTake::new(ASYNCHRONOUS, 60, 30);
    let mut all = true;
    for &row in rows {
        all = is_next_out(view, &mut host, &mut target, row, bytes) && all;
    }
    all
}

fn are_next_in(view: &mut BusView, rows: &[(Ns, Dev, u32)], bytes: &[u8]) -> bool
    requires early { IsEarly view.old }
    ensures { IsEarly view.new }
{
    let mut host = HostTake::new(PULSED, 10, 30);
    let mut target = TargetSend::new(PULSED, 60, 30);
    let mut all = true;
    for &row in rows {
        all = is_next_in(view, &mut host, &mut target, row, bytes) && all;
    }
    all
}

#[test]
fn command_byte_by_byte(rt: HostRuntime) {
    let mut view = BusView::new();
    see_all(&mut view, &SELECTION);
    see_all(&mut view, &COMMAND[..1]);
    let bytes = [0x12u8, 0, 0, 0, 3, 0];
    assert!(rt; are_next_out(&mut view, &COMMAND[1..], &bytes));
    assert!(rt; view.handshakes().answers() == 6);
}

#[test]
fn data_by_pulses(rt: HostRuntime) {
    let mut view = BusView::new();
    see_all(&mut view, &SELECTION);
    see_all(&mut view, &DATA_IN[..1]);
    let bytes = [0u8, 0, 2];
    assert!(rt; are_next_in(&mut view, &DATA_IN[1..], &bytes));
    let last = take_in(HostTake::new(PULSED, 10, 30), &view, 12555);
    assert!(rt; last.idle);
    assert!(rt; last.drives.is_none() && last.wake.is_none());
}

#[test]
fn bytes_that_cross(rt: HostRuntime) {
    let mut view = BusView::new();
    see_all(&mut view, &SELECTION);
    see_all(&mut view, &DATA_IN[..11]);
    let host = take_in(HostTake::new(PULSED, 10, 30), &view, 12255);
    assert!(rt; host.crossed.is_none() && host.idle);
    see_all(&mut view, &DATA_IN[11..12]);
    let told = take_in(host.next, &view, 12395);
    assert!(rt;
        told.crossed
            == Some(Crossed {
                byte: 2,
                good: true,
                atn: false
            })
    );
    assert!(rt; !told.idle);
    assert!(rt; take_in(told.next, &view, 12435).crossed == None);
    let struck = take_struck(host.next, &view, 12395);
    assert!(rt;
        struck.crossed
            == Some(Crossed {
                byte: 2,
                good: false,
                atn: false
            })
    );
}
