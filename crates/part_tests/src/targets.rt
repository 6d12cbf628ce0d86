//! A test of `disk_target`: a `Target` by its `step`, along the rows of an independent simulator.
ghost use Rattle.std.specs.Prelude.{◌≡◌, ◌==◌, ◌^◌, ◌<◌, is_some};
ghost use Rattle.std.specs.List.{find};
ghost use Rattle.scenario.specs.declared.value.TargetDef.{TargetDef};
ghost use Rattle.bus_lines.specs.Timely.{IsTimely};

use crate::driven_rows::drive;
use bitflags::Flags;
use bus_base::{Dev, Event, Ns, ProcId};
use bus_lines::views_are_timely;
use bus_trace::{Kind, Row};
use cdb_codec::GOOD;
use dialogue_model::Observer;
use disk_target::Target;
use scenario::{TargetDef, read, target_line};
use std::alloc::Global;
use std::process::Abort;

// Initiator 7 reads the one block of target 0, whose latency is 30.
const TEXT: &str = "scsi 1
initiator 7 latency 0 open 1 retries 2 sync 0 0 lag 0
target 0 latency 30 retries 2 disc never pick first seek 0 sync 0 0
unit 0 0 blocks 1 size 16 depth 1
fill 0 0 0 000102030405060708090a0b0c0d0e0f
cmd 7 0 0 at 0 untagged cdb 080000000100 none
end
";

const TARGET: Dev = 0;

const LIMIT: Ns = 0x8000_0000_0000_0000;

const COMMAND: ProcId = ProcId {
    command: 1,
    sense: false,
};

// The time of a row, its device, and the bits of the lines that this drives from then on.
type Mark = (Ns, Dev, u32);

const ROWS: [Mark; 120] = [
    (1200, 7, 0x00280),
    (3600, 7, 0x00680),
    (4800, 7, 0x10781),
    (4890, 7, 0x10581),
    (5320, 0, 0x00200),
    (5410, 7, 0x10000),
    (5440, 0, 0x02a00),
    (5870, 0, 0x06a00),
    (5870, 7, 0x001c0),
    (5960, 7, 0x081c0),
    (5990, 0, 0x02a00),
    (5990, 7, 0x00000),
    (6020, 0, 0x00a00),
    (6450, 0, 0x04a00),
    (6450, 7, 0x00008),
    (6505, 7, 0x08008),
    (6535, 0, 0x00a00),
    (6535, 7, 0x00000),
    (6565, 0, 0x04a00),
    (6565, 7, 0x00100),
    (6620, 7, 0x08100),
    (6650, 0, 0x00a00),
    (6650, 7, 0x00000),
    (6680, 0, 0x04a00),
    (6680, 7, 0x00100),
    (6735, 7, 0x08100),
    (6765, 0, 0x00a00),
    (6765, 7, 0x00000),
    (6795, 0, 0x04a00),
    (6795, 7, 0x00100),
    (6850, 7, 0x08100),
    (6880, 0, 0x00a00),
    (6880, 7, 0x00000),
    (6910, 0, 0x04a00),
    (6910, 7, 0x00001),
    (6965, 7, 0x08001),
    (6995, 0, 0x00a00),
    (6995, 7, 0x00000),
    (7025, 0, 0x04a00),
    (7025, 7, 0x00100),
    (7080, 7, 0x08100),
    (7110, 0, 0x00a00),
    (7110, 7, 0x00000),
    (7140, 0, 0x01200),
    (7970, 0, 0x01300),
    (8055, 0, 0x05300),
    (8055, 7, 0x08000),
    (8085, 0, 0x01201),
    (8085, 7, 0x00000),
    (8170, 0, 0x05201),
    (8170, 7, 0x08000),
    (8200, 0, 0x01202),
    (8200, 7, 0x00000),
    (8285, 0, 0x05202),
    (8285, 7, 0x08000),
    (8315, 0, 0x01303),
    (8315, 7, 0x00000),
    (8400, 0, 0x05303),
    (8400, 7, 0x08000),
    (8430, 0, 0x01204),
    (8430, 7, 0x00000),
    (8515, 0, 0x05204),
    (8515, 7, 0x08000),
    (8545, 0, 0x01305),
    (8545, 7, 0x00000),
    (8630, 0, 0x05305),
    (8630, 7, 0x08000),
    (8660, 0, 0x01306),
    (8660, 7, 0x00000),
    (8745, 0, 0x05306),
    (8745, 7, 0x08000),
    (8775, 0, 0x01207),
    (8775, 7, 0x00000),
    (8860, 0, 0x05207),
    (8860, 7, 0x08000),
    (8890, 0, 0x01208),
    (8890, 7, 0x00000),
    (8975, 0, 0x05208),
    (8975, 7, 0x08000),
    (9005, 0, 0x01309),
    (9005, 7, 0x00000),
    (9090, 0, 0x05309),
    (9090, 7, 0x08000),
    (9120, 0, 0x0130a),
    (9120, 7, 0x00000),
    (9205, 0, 0x0530a),
    (9205, 7, 0x08000),
    (9235, 0, 0x0120b),
    (9235, 7, 0x00000),
    (9320, 0, 0x0520b),
    (9320, 7, 0x08000),
    (9350, 0, 0x0130c),
    (9350, 7, 0x00000),
    (9435, 0, 0x0530c),
    (9435, 7, 0x08000),
    (9465, 0, 0x0120d),
    (9465, 7, 0x00000),
    (9550, 0, 0x0520d),
    (9550, 7, 0x08000),
    (9580, 0, 0x0120e),
    (9580, 7, 0x00000),
    (9665, 0, 0x0520e),
    (9665, 7, 0x08000),
    (9695, 0, 0x0130f),
    (9695, 7, 0x00000),
    (9780, 0, 0x0530f),
    (9780, 7, 0x08000),
    (9810, 0, 0x01200),
    (9810, 7, 0x00000),
    (9840, 0, 0x01b00),
    (10270, 0, 0x05b00),
    (10270, 7, 0x08000),
    (10300, 0, 0x01a00),
    (10300, 7, 0x00000),
    (10330, 0, 0x03b00),
    (10760, 0, 0x07b00),
    (10760, 7, 0x08000),
    (10790, 0, 0x03a00),
    (10790, 7, 0x00000),
    (10820, 0, 0x00000),
];

// What these rows tell all devices.
fn observer_of(rows: &[Mark]) -> Observer
    ensures { IsTimely (2 ^ 63) result.view }
{
    views_are_timely();
    let mut observer = Observer::new();
    for mark in rows {
        if mark.1 >= 8 {
            return observer;
        }
        if mark.0 >= LIMIT {
            return observer;
        }
        observer.step(&drive(mark.0, mark.1, mark.2));
    }
    observer
}

fn has_target(targets: &[TargetDef], dev: Dev) -> bool
    ensures { result ≡ is_some (find (λ (t : TargetDef). t.dev == dev) targets.now) }
{
    target_line(targets, dev).is_some()
}

fn target_in(alloc: Global, text: &[u8]) -> Option<Target> {
    let Ok(scenario) = read(alloc, text) else {
        return None;
    };
    if !has_target(scenario.targets.as_slice(), TARGET) {
        return None;
    }
    Target::new(alloc, &scenario, TARGET).ok()
}

// The lines that it drives; a fault none that any row drives.
fn bits_of(kind: Kind) -> u32 {
    match kind {
        Kind::Drives(lines) => lines.bits(),
        Kind::Fault(_) => u32::MAX,
    }
}

fn is_same(kind: Option<Kind>, bits: u32) -> bool {
    match kind {
        Some(kind) => bits_of(kind) == bits,
        None => false,
    }
}

// After the rows before this one: a row of the target is due at its time, and no row of it is due sooner.
fn is_in_turn(target: &Target, observer: &Observer, mark: Mark) -> bool
    requires { IsTimely (2 ^ 63) observer.now.view }
{
    let before = target.step(observer, mark.0.saturating_sub(1), None);
    let now = target.step(observer, mark.0, None);
    if mark.1 == TARGET {
        before.row.is_none() && before.wake == Some(mark.0) && is_same(now.row, mark.2)
    } else {
        before.row.is_none()
    }
}

// The history of the report, by its rows: the command arrives as COMMAND is left, it runs with the first row of
// STATUS, and ends as the initiator takes COMMAND COMPLETE.
fn event_of(mark: Mark) -> Option<Event> {
    match mark {
        (7140, 0, _) => Some(Event::Accept(COMMAND)),
        (9840, 0, _) => Some(Event::Run(COMMAND)),
        (10760, 7, _) => Some(Event::End(COMMAND, GOOD)),
        _ => None,
    }
}

// The target sees a row, after which this observer stands, and what it shows: whether its own row shows just that.
fn sees(target: &mut Target, observer: &Observer, mark: Mark) -> bool
    requires { IsTimely (2 ^ 63) observer.now.view }
{
    if mark.1 >= 8 {
        return false;
    }
    let row = drive(mark.0, mark.1, mark.2);
    let shown = target.shown(observer);
    match event_of(mark) {
        Some(event) => {
            target.see(observer, &row, COMMAND, [event].as_slice());
            shown.event == Some(event) || mark.1 != TARGET
        }
        None => {
            target.see(observer, &row, COMMAND, [].as_slice());
            shown.event.is_none()
        }
    }
}

#[test]
fn reads_a_block(rt: HostRuntime) {
    let Some(mut target) = target_in(rt.alloc(), TEXT.as_bytes()) else {
        panic!(rt; "no target");
    };
    let rows = ROWS.as_slice();
    for (k, mark) in rows.iter().enumerate() {
        assert!(rt;
            is_in_turn(&target, &observer_of(&rows[..k]), *mark),
            "{mark:?}"
        );
        assert!(rt;
            sees(&mut target, &observer_of(&rows[..k + 1]), *mark),
            "{mark:?}"
        );
    }
    assert!(rt; target.due(&observer_of(rows), None).is_none());
}
