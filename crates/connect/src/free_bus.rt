// The free bus and arbitration (6.1.1, 6.1.2).
ghost use Rattle.std.specs.Prelude.{◌≡◌, ◌<◌, None};
ghost use Rattle.bus_lines.specs.Timely.{IsBefore};
ghost use Rattle.reaction_model.specs.Reactions.{due_at};
ghost use Rattle.reaction_model.specs.FreeBus.{entry, later_entry, free_due, win, arbitration_due};
ghost use Rattle.connect.specs.Ready.{IsReady, time_limit};

use bus_base::Ns;
use bus_trace::{ARBITRATION_DELAY, Arbitration, BUS_SET_DELAY, ENTRY_DELAY, Kind, Lines};
use reaction_model::{Due, Myself, due_at};

fn entry(me: &Myself, free: Ns, since: Ns) -> Option<Due>
    requires ready { IsReady me.now }
    requires free { free < time_limit }
    requires since { since < time_limit }
    ensures { result ≡ entry me.now free since }
{
    due_at(
        (free + ENTRY_DELAY).max(since) + me.latency,
        Lines::BSY.with(Lines::id(me.dev)),
    )
}

fn later_entry(me: &Myself, arbitration: Arbitration, since: Ns) -> Option<Due>
    requires ready { IsReady me.now }
    requires free { arbitration.free < time_limit }
    requires first { arbitration.first < time_limit }
    requires since { since < time_limit }
    ensures { result ≡ later_entry me.now arbitration since }
{
    let time = (arbitration.free + ENTRY_DELAY).max(since) + me.latency;
    if time <= arbitration.first + BUS_SET_DELAY {
        entry(me, arbitration.free, since)
    } else {
        None
    }
}

fn win(me: &Myself, bus: Lines) -> Option<Due>
    requires { IsReady me.now }
    ensures { result ≡ win bus me.now }
{
    if bus.has_id_above(me.dev) {
        return None;
    }
    due_at(
        me.since + ARBITRATION_DELAY + me.latency,
        Lines::SEL.with(me.own),
    )
}

/// What is due on the free bus.
pub fn free_due(me: &Myself, free: Ns, since: Option<Ns>) -> Option<Due>
    requires ready { IsReady me.now }
    requires free { free < time_limit }
    requires since { IsBefore time_limit since }
    ensures { result ≡ free_due me.now free since }
{
    entry(me, free, since?)
}

/// What is due in an arbitration.
pub fn arbitration_due(
    me: &Myself,
    bus: Lines,
    arbitration: Arbitration,
    since: Option<Ns>,
) -> Option<Due>
    requires ready { IsReady me.now }
    requires free { arbitration.free < time_limit }
    requires first { arbitration.first < time_limit }
    requires since { IsBefore time_limit since }
    ensures { result ≡ arbitration_due bus me.now arbitration since }
{
    if me.own.bsy() {
        win(me, bus)
    } else {
        later_entry(me, arbitration, since?)
    }
}
