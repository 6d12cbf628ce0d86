// What is due of a device on its way to a connection, by the stage of the bus.
ghost use Rattle.std.specs.Prelude.{◌≡◌, ◌<◌, List};
ghost use Rattle.bus_trace.specs.declared.Row.{Row};
ghost use Rattle.bus_lines.specs.BusView.{IsBusViewOf};
ghost use Rattle.bus_lines.specs.Timely.{IsTimely, IsBefore, IsCallingBefore, IsStageBefore};
ghost use Rattle.reaction_model.specs.Calling.{calling_due, answer_due};
ghost use Rattle.reaction_model.specs.Linking.{link_due_by, link_due, sample_time};
ghost use Rattle.reaction_model.specs.Sight.{sight};
ghost use Rattle.connect.specs.Ready.{IsReady, time_limit};

use crate::called::{called_due, release};
use crate::caller::{answered_due, caller_due};
use crate::free_bus::{arbitration_due, free_due};
use bus_base::Ns;
use bus_lines::{BusView, Stage};
use bus_trace::{BUS_SETTLE_DELAY, Call, Calling, LineTimes, Lines};
use reaction_model::{Due, Myself, Want, due_at};

fn calling_due(
    me: &Myself,
    want: &Want,
    bsy: Ns,
    sel: Ns,
    flip: Option<u8>,
    call: &Call,
) -> Option<Due>
    requires ready { IsReady me.now }
    requires bsy { bsy < time_limit }
    requires sel { sel < time_limit }
    requires calling { IsCallingBefore time_limit call.now.calling }
    ensures { result ≡ calling_due bsy sel me.now want.now flip call.now }
{
    if call.caller.get() == me.dev {
        return caller_due(me, want, &call.calling);
    }
    called_due(me, bsy, sel, flip, &call.calling)
}

fn answer_due(
    me: &Myself,
    want: &Want,
    sel: Ns,
    call: &Call,
    calling: &Calling,
    answered: Ns,
) -> Option<Due>
    requires ready { IsReady me.now }
    requires sel { sel < time_limit }
    requires answered { answered < time_limit }
    ensures { result ≡ answer_due sel me.now want.now call.now calling.now answered }
{
    if call.caller.get() == me.dev {
        answered_due(me, want, calling, answered)
    } else if calling.called.get() == me.dev {
        None
    } else {
        release(me, sel)
    }
}

fn link_due_by(
    stage: Stage,
    bus: Lines,
    times: &LineTimes,
    me: &Myself,
    want: &Want,
    flip: Option<u8>,
) -> Option<Due>
    requires stage { IsStageBefore time_limit stage }
    requires bsy { times.now.bsy < time_limit }
    requires sel { times.now.sel < time_limit }
    requires ready { IsReady me.now }
    requires since { IsBefore time_limit want.now.since }
    ensures { result ≡ link_due_by bus times.now.bsy times.now.sel me.now want.now flip stage }
{
    match stage {
        Stage::OnFreeBus(free) => free_due(me, free, want.since),
        Stage::InArbitration(arbitration) => arbitration_due(me, bus, arbitration, want.since),
        Stage::InCalling(call) => calling_due(me, want, times.bsy, times.sel, flip, &call),
        Stage::InAnswer(call, calling, answered) => {
            answer_due(me, want, times.sel, &call, &calling, answered)
        }
        Stage::InConnection(_) => None,
        Stage::InReset(since) => release(me, since),
    }
}

/// What a device is due to do next on its way to a connection and while another one drives RST, and when, in ns: by
/// what this view shows, by what it drives itself, and by what it wants of the bus (6.1.1 to 6.1.4, 6.2.2). `flip` is
/// the bit that a fault strikes where it samples the IDs, 0 to 7 for DB(7-0) and 8 for DB(P). In a connection nothing
/// is due of this.
pub fn link_due(view: &BusView, me: &Myself, want: &Want, flip: Option<u8>) -> Option<Due>
    requires timely { IsTimely time_limit view.now }
    requires ready { IsReady me.now }
    requires since { IsBefore time_limit want.now.since }
    ensures { (rows : List Row) → IsBusViewOf rows view.now → result ≡ link_due (sight rows) me.now want.now flip }
{
    let lines = view.lines();
    let stage = view.stage();
    let times = lines.times();
    link_due_by(stage, lines.bus(), &times, me, want, flip)
}

/// When a device samples the IDs, in ns, where it is called: a bus settle delay and its latency after BSY became false
/// (6.1.3, 6.1.4).
pub fn sample_time(view: &BusView, me: &Myself) -> Ns
    requires timely { IsTimely time_limit view.now }
    requires ready { IsReady me.now }
    ensures { (rows : List Row) → IsBusViewOf rows view.now → result ≡ sample_time (sight rows) me.now }
{
    view.lines().times().bsy + BUS_SETTLE_DELAY + me.latency
}
