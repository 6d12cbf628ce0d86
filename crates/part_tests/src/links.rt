//! Tests of `connect`, over traces of the bus: each row is made by its device at its time, and no sooner.
ghost use Rattle.std.specs.Prelude.{◌≢◌, ◌<◌, ◌≤◌};
ghost use Rattle.bus_lines.specs.Timely.{IsTimely};
ghost use Rattle.connect.specs.Ready.{time_limit};

use bitflags::Flags;
use bus_lines::{BusView, views_are_timely};
use bus_trace::{Kind, Lines, Row};
use connect::{Idle, Link, Step, due_with_reset, sample_time};
use reaction_model::{Due, Myself};
use std::process::Abort;
use std::test::Fail;

/// A row of a trace: the time, the device, the lines that its step makes, and those of the first byte of a target.
type Made = (u32, u8, u32, u32);

// The view after these rows.
fn view_of(rows: &[Made]) -> BusView
    ensures { IsTimely time_limit result }
{
    views_are_timely();
    let mut view = BusView::new();
    for &(time, dev, lines, byte) in rows {
        view.step(&Row {
            time: time as u64,
            dev: dev % 8,
            kind: Kind::Drives(Lines::from_bits_retain(lines | byte)),
        });
    }
    view
}

// A step of a link, by the type of its state.
fn turn(link: Link, view: &BusView, now: u32) -> Step<Link>
    requires { IsTimely time_limit view.now }
{
    let now = now as u64;
    match link {
        Link::Idle(link) => link.step(view, now, None),
        Link::Waiting(link) => link.step(view, now, None),
        Link::Contending(link) => link.step(view, now, None),
        Link::Won(link) => link.step(view, now, None),
        Link::Calling(link) => link.step(view, now, None),
        Link::Answering(link) => link.step(view, now, None),
        Link::Linked(link) => link.step(view, now, None),
    }
}

// Before its time a row is awaited by its device, and none is made.
fn waits(
    rt: &impl Abort,
    link: Link,
    rows: &[Made],
    now: u32,
    wake: Option<u64>,
) -> Result<Link, Fail> {
    let step = turn(link, &view_of(rows), now);
    assert!(rt; step.drives.is_none());
    assert!(rt; !step.sampled);
    if wake.is_some() {
        assert!(rt; step.wake == wake);
    }
    Ok(step.next)
}

fn makes(rt: &impl Abort, link: Link, rows: &[Made], row: Made) -> Result<Link, Fail> {
    let step = turn(link, &view_of(rows), row.0);
    let lines = step.drives.ok_or("a row")?;
    assert!(rt; lines.bits() == row.2);
    assert!(rt; step.wake.is_none());
    Ok(step.next)
}

// Both devices by a trace.
fn follows(rt: &impl Abort, links: (Link, Link), rows: &[Made]) -> Result<(Link, Link), Fail> {
    let (mut one, mut other) = links;
    let mut last = 0;
    for (k, &row) in rows.iter().enumerate() {
        let past = &rows[..k];
        if row.1 != one.dev() {
            (one, other) = (other, one);
        }
        if row.0 > last {
            last = row.0;
            one = waits(rt, one, past, last - 1, Some(last as u64))?;
            other = waits(rt, other, past, last - 1, None)?;
        }
        one = makes(rt, one, past, row)?;
    }
    let one = waits(rt, one, rows, last, None)?;
    let other = waits(rt, other, rows, last, None)?;
    Ok((one, other))
}

fn waiting(dev: u8, latency: u64, callee: u8, reselects: bool) -> Link
    requires dev { dev < 8 }
    requires latency { latency ≤ 100 }
    requires callee { callee < 8 }
    requires other { callee ≢ dev }
{
    Link::Waiting(Idle::new(dev, latency).want(callee, reselects, 0))
}

#[test]
fn selects(rt: HostRuntime) -> Result<(), Fail> {
    let links = (waiting(7, 10, 0, false), Link::Idle(Idle::new(0, 20)));
    let (one, other) = follows(
        &rt,
        links,
        &[
            (1210, 7, 0x00280, 0),
            (3620, 7, 0x00680, 0),
            (4830, 7, 0x10781, 0),
            (4930, 7, 0x10581, 0),
            (5350, 0, 0x00200, 0),
            (5450, 7, 0x10000, 0),
        ],
    )?;
    for link in [one, other] {
        let target = link.dev() == 0;
        let Link::Linked(linked) = link else {
            panic!(rt; "not linked");
        };
        assert!(rt; linked.is_target() == target);
        assert!(rt; linked.peer() == if target { 7 } else { 0 });
        assert!(rt; Link::Idle(linked.free()).dev() == if target { 0 } else { 7 });
    }
    Ok(())
}

// The target adds the first byte of its message to the row that ends the reselection.
#[test]
fn reselects(rt: HostRuntime) -> Result<(), Fail> {
    let links = (waiting(0, 20, 7, true), Link::Idle(Idle::new(7, 10)));
    let (_, other) = follows(
        &rt,
        links,
        &[
            (1220, 0, 0x00201, 0),
            (3640, 0, 0x00601, 0),
            (4860, 0, 0x01781, 0),
            (4970, 0, 0x01581, 0),
            (5380, 7, 0x00200, 0),
            (5400, 0, 0x01781, 0),
            (5510, 0, 0x03a00, 0x80),
            (5520, 7, 0x00000, 0),
        ],
    )?;
    Ok(())
}

#[test]
fn contends(rt: HostRuntime) -> Result<(), Fail> {
    let links = (waiting(7, 0, 5, false), waiting(6, 0, 5, false));
    let (_, other) = follows(
        &rt,
        links,
        &[
            (1200, 7, 0x00280, 0),
            (1200, 6, 0x00240, 0),
            (3600, 7, 0x00680, 0),
            (3600, 6, 0x00000, 0),
            (4800, 7, 0x107a0, 0),
            (4890, 7, 0x105a0, 0),
        ],
    )?;
    assert!(rt; matches!(other, Link::Waiting(_)));
    Ok(())
}

#[test]
fn wants_and_wants_no_more(rt: HostRuntime) -> Result<(), Fail> {
    let waiting = Idle::new(6, 0).want(5, true, 40).recall(4);
    let link = Link::Waiting(waiting);
    let want = link.want();
    assert!(rt; want.since == Some(40));
    assert!(rt; want.callee == Some(4));
    assert!(rt; want.reselects);
    let idle = Link::Idle(Idle::new(6, 0).want(5, true, 40).unwant());
    assert!(rt; idle.want().since.is_none());
    Ok(())
}

// A fault strikes the IDs of the selection of the first test: they are sampled, and not answered.
#[test]
fn samples_struck_ids(rt: HostRuntime) -> Result<(), Fail> {
    let view = view_of(&[
        (1210, 7, 0x00280, 0),
        (3620, 7, 0x00680, 0),
        (4830, 7, 0x10781, 0),
        (4930, 7, 0x10581, 0),
    ]);
    let called = Idle::new(0, 20);
    let step = Link::Idle(called).step(&view, 5350, Some(8));
    assert!(rt; step.sampled);
    assert!(rt; step.drives.is_none());
    assert!(rt; step.wake.is_none());
    let link = step.next;
    assert!(rt; sample_time(&view, &link.myself()) == 5350);
    Ok(())
}

#[test]
fn resets(rt: HostRuntime) {
    let me = Myself {
        dev: 7,
        latency: 0,
        own: Lines::none(),
        since: 0,
    };
    let resets = due_with_reset(&me, 0, Some(7200), None);
    assert!(rt; is_row(&resets, 7200, 0x20000));
    let driving = Myself {
        dev: 7,
        latency: 0,
        own: Lines::RST,
        since: 7200,
    };
    let releases = due_with_reset(&driving, 7200, None, resets);
    assert!(rt; is_row(&releases, 32200, 0x00000));
}

fn is_row(due: &Option<Due>, time: u64, bits: u32) -> bool {
    let Some(due) = due else {
        return false;
    };
    let Kind::Drives(lines) = due.kind else {
        return false;
    };
    due.time == time && lines.bits() == bits
}
