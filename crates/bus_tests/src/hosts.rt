//! Tests of `initiator`: a `Host` along whole traces of an independent simulator.
ghost use Rattle.std.specs.Prelude.{◌≡◌, ◌==◌, ◌^◌, is_some};
ghost use Rattle.std.specs.List.{find};
ghost use Rattle.scenario.specs.declared.value.HostDef.{HostDef};
ghost use Rattle.bus_lines.specs.Timely.{IsTimely};

mod tagged;

use crate::whole_program::wholes::{PLAIN, Whole};
use bitflags::Flags;
use bus_base::{Dev, Event, Ns, ProcId};
use bus_lines::views_are_timely;
use bus_trace::{Kind, Row};
use cdb_codec::GOOD;
use dialogue_model::Observer;
use initiator::{Host, Outcome};
use scenario::{HostDef, host_line, read};
use std::alloc::Global;
use std::process::Abort;
use tagged::TAGGED;
use trace_text::read_trace;

/// The initiator of both scenarios.
const INITIATOR: Dev = 7;

const LIMIT: Ns = 0x8000_0000_0000_0000;

// What these rows tell all devices.
fn observer_of(rows: &[Row]) -> Observer
    ensures { IsTimely (2 ^ 63) result.view }
{
    views_are_timely();
    let mut observer = Observer::new();
    for row in rows {
        if row.dev >= 8 {
            return observer;
        }
        if row.time >= LIMIT {
            return observer;
        }
        observer.step(row);
    }
    observer
}

fn has_host(hosts: &[HostDef], dev: Dev) -> bool
    ensures { result ≡ is_some (find (λ (h : HostDef). h.dev == dev) hosts.now) }
{
    host_line(hosts, dev).is_some()
}

fn host_in(alloc: Global, text: &[u8]) -> Option<Host> {
    let Ok(scenario) = read(alloc, text) else {
        return None;
    };
    if !has_host(scenario.hosts.as_slice(), INITIATOR) {
        return None;
    }
    Host::new(alloc, &scenario, INITIATOR).ok()
}

// The lines that it drives; a fault none that any row drives.
fn bits_of(kind: Kind) -> u32 {
    match kind {
        Kind::Drives(lines) => lines.bits(),
        Kind::Fault(_) => u32::MAX,
    }
}

fn is_same(kind: Option<Kind>, row: &Row) -> bool {
    match kind {
        Some(kind) => bits_of(kind) == bits_of(row.kind),
        None => false,
    }
}

// After the rows before this one: a row of the host is due at its time, and no row of it is due sooner.
fn is_in_turn(host: &Host, observer: &Observer, row: &Row) -> bool
    requires { IsTimely (2 ^ 63) observer.now.view }
{
    let before = host.step(observer, row.time.saturating_sub(1), None);
    let now = host.step(observer, row.time, None);
    if row.dev == INITIATOR {
        before.row.is_none() && before.wake == Some(row.time) && is_same(now.row, row)
    } else {
        before.row.is_none()
    }
}

// It sees a row, after which this observer stands: the process that it ends so, if one.
fn seen(host: &mut Host, observer: &Observer, row: &Row) -> Option<ProcId>
    requires { IsTimely (2 ^ 63) observer.now.view }
{
    if row.dev >= 8 {
        return None;
    }
    match host.completion(observer) {
        Some(Event::End(id, GOOD)) if host.process() == id => {
            host.see(observer, row, [Event::End(id, GOOD)].as_slice());
            Some(id)
        }
        _ => {
            host.see(observer, row, [].as_slice());
            None
        }
    }
}

// The host along the rows, in which so many commands end.
fn follows(rt: &impl Abort, host: &mut Host, rows: &[Row], ends: usize) {
    let mut ended = 0usize;
    for (k, row) in rows.iter().enumerate() {
        assert!(rt; is_in_turn(host, &observer_of(&rows[..k]), row), "{row:?}");
        if seen(host, &observer_of(&rows[..k + 1]), row).is_some() {
            ended = ended.saturating_add(1);
        }
    }
    assert!(rt; ended == ends);
    assert!(rt; host.due(&observer_of(rows), None).is_none());
    assert!(rt; host.process().command == 0);
    assert!(rt; host.aborts_done());
}

fn is_good(outcome: &Option<Outcome>, bytes: &[u8]) -> bool {
    match outcome {
        Some(Outcome::Good(brought)) => brought.as_slice() == bytes,
        _ => false,
    }
}

fn reads(rt: &impl Abort, alloc: Global, whole: Whole, blocks: &[[u8; 16]]) {
    let Some(mut host) = host_in(alloc, whole.0.as_bytes()) else {
        panic!(rt; "no host");
    };
    let Ok(trace) = read_trace(alloc, whole.1.as_bytes()) else {
        panic!(rt; "no trace");
    };
    let Ok(rows) = trace.rows.iter().collect::<Vec<Row>>(alloc) else {
        panic!(rt; "no memory");
    };
    assert!(rt; host.take_outcome(alloc, 1).is_none());
    follows(rt, &mut host, rows.as_slice(), blocks.len());
    let mut number = 1u16;
    for block in blocks {
        let outcome = host.take_outcome(alloc, number);
        assert!(rt; is_good(&outcome, block.as_slice()), "command {number}");
        number = number.saturating_add(1);
    }
}

const LOW: [u8; 16] = [0, 1, 2, 3, 4, 5, 6, 7, 8, 9, 10, 11, 12, 13, 14, 15];

const HIGH: [u8; 16] = [
    0xf0, 0xf1, 0xf2, 0xf3, 0xf4, 0xf5, 0xf6, 0xf7, 0xf8, 0xf9, 0xfa, 0xfb, 0xfc, 0xfd, 0xfe, 0xff,
];

#[test]
fn reads_a_block(rt: HostRuntime) {
    reads(&rt, rt.alloc(), PLAIN, [LOW].as_slice());
}

#[test]
fn reads_two_blocks_by_tags(rt: HostRuntime) {
    reads(&rt, rt.alloc(), TAGGED, [LOW, HIGH].as_slice());
}
