// A step: what a device makes now, and when it is due next.
ghost use Rattle.std.specs.Prelude.{◌≡◌, ◌+◌, ◌<◌, Option, List, Some, false};
ghost use Rattle.bus_trace.specs.declared.Row.{Row};
ghost use Rattle.bus_lines.specs.BusView.{IsBusViewOf};
ghost use Rattle.bus_lines.specs.Timely.{IsTimely, IsBefore};
ghost use Rattle.reaction_model.specs.Reactions.{due_at, due_where};
ghost use Rattle.reaction_model.specs.Sight.{sight};
ghost use Rattle.connect.specs.Ready.{IsReady, time_limit};
ghost use Rattle.connect.specs.Links.{myself, want_of};
ghost use Rattle.connect.specs.Steps.{still_drives_bsy, step_due, ends_reselection, lines_without_byte, lines_of, lines_now, time_later, is_called_by, is_asked, is_sampling, step_by, step_from, IsStepOf};
ghost use Rattle.connect.specs.declared.states.Link.TheVariants as in_state;

use crate::called::is_called;
use crate::linking::{link_due, sample_time};
use crate::reset::earlier_due;
use crate::states::{self, Answering, Contending, Idle, Link, Linked, Step, Waiting, Won};
use crate::transitions::{next_link, present_link};
use bus_base::Ns;
use bus_lines::{BusView, Stage};
use bus_trace::{Calling, Kind, Lines};
use reaction_model::{Due, Myself, Want, due_at};

// ---- what is due

fn still_drives_bsy(me: &Myself, stage: &Stage) -> bool
    ensures { result ≡ still_drives_bsy me.now stage.now }
{
    match stage {
        Stage::InConnection(connection) => connection.initiator.get() == me.dev && me.own.bsy(),
        _ => false,
    }
}

// The release of BSY by an initiator that was reselected, where it still drives it; `sel` is since when SEL is false.
fn bsy_release(drives: bool, me: &Myself, sel: Ns) -> Option<Due>
    requires ready { IsReady me.now }
    requires sel { sel < time_limit }
    ensures { result ≡ due_where drives (due_at (sel + me.now.latency) (record me.now.own { bsy = false })) }
{
    if drives {
        due_at(sel + me.latency, me.own.without_bsy())
    } else {
        None
    }
}

fn step_due(view: &BusView, me: &Myself, want: &Want, flip: Option<u8>) -> Option<Due>
    requires timely { IsTimely time_limit view.now }
    requires ready { IsReady me.now }
    requires since { IsBefore time_limit want.now.since }
    ensures { (rows : List Row) → IsBusViewOf rows view.now → result ≡ step_due (sight rows) me.now want.now flip }
{
    let drives_bsy = still_drives_bsy(me, &view.stage());
    let release = bsy_release(drives_bsy, me, view.lines().times().sel);
    earlier_due(link_due(view, me, want, flip), release)
}

// What is due of a device in this state.
fn due_of(link: &Link, view: &BusView, flip: Option<u8>) -> Option<Due>
    requires { IsTimely time_limit view.now }
    ensures { (rows : List Row) → IsBusViewOf rows view.now
        → result ≡ step_due (sight rows) (myself link.now) (want_of link.now) flip }
{
    let me = link.myself();
    let want = link.want();
    step_due(view, &me, &want, flip)
}

// ---- the row that is made now, or the time of a later one

fn ends_reselection(me: &Myself, stage: &Stage) -> bool
    ensures { result ≡ ends_reselection me.now stage.now }
{
    match stage {
        Stage::InAnswer(call, calling, _) => {
            call.caller.get() == me.dev && calling.reselects && calling.resumed.is_some()
        }
        _ => false,
    }
}

fn lines_without_byte(ends: bool, lines: Lines) -> Lines
    ensures { result ≡ lines_without_byte ends lines }
{
    if ends { lines.without_data() } else { lines }
}

fn lines_of(ends: bool, kind: Kind) -> Option<Lines>
    ensures { result ≡ lines_of ends kind }
{
    match kind {
        Kind::Drives(lines) => Some(lines_without_byte(ends, lines)),
        Kind::Fault(_) => None,
    }
}

fn lines_now(ends: bool, now: Ns, due: &Option<Due>) -> Option<Lines>
    ensures { result ≡ lines_now ends now due.now }
{
    let Some(due) = due else {
        return None;
    };
    if due.time <= now {
        lines_of(ends, due.kind)
    } else {
        None
    }
}

fn time_later(now: Ns, due: &Option<Due>) -> Option<Ns>
    ensures { result ≡ time_later now due.now }
{
    let Some(due) = due else {
        return None;
    };
    if now < due.time { Some(due.time) } else { None }
}

// ---- the sample of the IDs

fn is_called_by(me: &Myself, calling: &Option<Calling>) -> bool
    ensures { result ≡ is_called_by me.now calling.now }
{
    match calling {
        None => false,
        Some(calling) => calling.called.get() == me.dev && is_called(calling),
    }
}

fn is_asked(me: &Myself, stage: &Stage) -> bool
    ensures { result ≡ is_asked me.now stage.now }
{
    match stage {
        Stage::InCalling(call) => call.caller.get() != me.dev && is_called_by(me, &call.calling),
        _ => false,
    }
}

fn is_sampling(link: &Link, view: &BusView, now: Ns) -> bool
    requires { IsTimely time_limit view.now }
    ensures { (rows : List Row) → IsBusViewOf rows view.now → result ≡ is_sampling (sight rows) (myself link.now) now }
{
    let me = link.myself();
    let asked = is_asked(&me, &view.stage());
    asked && sample_time(view, &me) <= now
}

// ---- a step

// The row that is made now and the time of a later one, in a state of this device; and the state after it.
fn step_by(link: Link, stage: Stage, now: Ns, due: Option<Due>, sampled: bool) -> Step<Link>
    requires { now < time_limit }
    ensures { result ≡ step_by link stage now due sampled }
{
    let me = link.myself();
    let drives = lines_now(ends_reselection(&me, &stage), now, &due);
    Step {
        next: next_link(link, now, stage, &drives),
        drives,
        wake: time_later(now, &due),
        sampled,
    }
}

fn step_from(link: Link, view: &BusView, now: Ns, flip: Option<u8>) -> Step<Link>
    requires timely { IsTimely time_limit view.now }
    requires now { now < time_limit }
    ensures { (rows : List Row) → IsBusViewOf rows view.now → result ≡ step_from rows link now flip }
{
    let due = due_of(&link, view, flip);
    let sampled = is_sampling(&link, view, now);
    step_by(link, view.stage(), now, due, sampled)
}

impl Link {
    /// What the device does at `now`, in ns, by what this view shows; `flip` is the bit that a fault strikes where it
    /// samples the IDs, 0 to 7 for DB(7-0) and 8 for DB(P).
    pub fn step(self, view: &BusView, now: Ns, flip: Option<u8>) -> Step<Link>
        requires timely { IsTimely time_limit view.now }
        requires now { now < time_limit }
        ensures { (rows : List Row) → IsBusViewOf rows view.now → IsStepOf rows self now flip result }
    {
        let dev = self.dev();
        step_from(
            present_link(view.drives(dev), self, view.stage()),
            view,
            now,
            flip,
        )
    }
}

impl Idle {
    /// The step of a device in this state, as [`Link::step`].
    pub fn step(self, view: &BusView, now: Ns, flip: Option<u8>) -> Step<Link>
        requires timely { IsTimely time_limit view.now }
        requires now { now < time_limit }
        ensures { (rows : List Row) → IsBusViewOf rows view.now → IsStepOf rows (in_state.Idle self) now flip result }
    {
        Link::Idle(self).step(view, now, flip)
    }
}

impl Waiting {
    /// The step of a device in this state, as [`Link::step`].
    pub fn step(self, view: &BusView, now: Ns, flip: Option<u8>) -> Step<Link>
        requires timely { IsTimely time_limit view.now }
        requires now { now < time_limit }
        ensures { (rows : List Row) → IsBusViewOf rows view.now
            → IsStepOf rows (in_state.Waiting self) now flip result }
    {
        Link::Waiting(self).step(view, now, flip)
    }
}

impl Contending {
    /// The step of a device in this state, as [`Link::step`].
    pub fn step(self, view: &BusView, now: Ns, flip: Option<u8>) -> Step<Link>
        requires timely { IsTimely time_limit view.now }
        requires now { now < time_limit }
        ensures { (rows : List Row) → IsBusViewOf rows view.now
            → IsStepOf rows (in_state.Contending self) now flip result }
    {
        Link::Contending(self).step(view, now, flip)
    }
}

impl Won {
    /// The step of a device in this state, as [`Link::step`].
    pub fn step(self, view: &BusView, now: Ns, flip: Option<u8>) -> Step<Link>
        requires timely { IsTimely time_limit view.now }
        requires now { now < time_limit }
        ensures { (rows : List Row) → IsBusViewOf rows view.now → IsStepOf rows (in_state.Won self) now flip result }
    {
        Link::Won(self).step(view, now, flip)
    }
}

impl states::Calling {
    /// The step of a device in this state, as [`Link::step`].
    pub fn step(self, view: &BusView, now: Ns, flip: Option<u8>) -> Step<Link>
        requires timely { IsTimely time_limit view.now }
        requires now { now < time_limit }
        ensures { (rows : List Row) → IsBusViewOf rows view.now
            → IsStepOf rows (in_state.Calling self) now flip result }
    {
        Link::Calling(self).step(view, now, flip)
    }
}

impl Answering {
    /// The step of a device in this state, as [`Link::step`].
    pub fn step(self, view: &BusView, now: Ns, flip: Option<u8>) -> Step<Link>
        requires timely { IsTimely time_limit view.now }
        requires now { now < time_limit }
        ensures { (rows : List Row) → IsBusViewOf rows view.now
            → IsStepOf rows (in_state.Answering self) now flip result }
    {
        Link::Answering(self).step(view, now, flip)
    }
}

impl Linked {
    /// The step of a device in this state, as [`Link::step`].
    pub fn step(self, view: &BusView, now: Ns, flip: Option<u8>) -> Step<Link>
        requires timely { IsTimely time_limit view.now }
        requires now { now < time_limit }
        ensures { (rows : List Row) → IsBusViewOf rows view.now → IsStepOf rows (in_state.Linked self) now flip result }
    {
        Link::Linked(self).step(view, now, flip)
    }
}
