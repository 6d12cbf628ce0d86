// RST, before everything else (6.2.2).
ghost use Rattle.std.specs.Prelude.{◌≡◌, ◌<◌};
ghost use Rattle.reaction_model.specs.Reactions.{not_later, earlier_due};
ghost use Rattle.reaction_model.specs.Reset.{rst_assertion, rst_release, with_reset};
ghost use Rattle.connect.specs.Ready.{IsReady, time_limit};

use bus_base::Ns;
use bus_trace::{Lines, RESET_HOLD_TIME};
use reaction_model::{Due, Myself, due_at};

fn not_later(first: Due, other: Due) -> Due
    ensures { result ≡ not_later first other }
{
    if other.time < first.time {
        other
    } else {
        first
    }
}

/// The first of two rows, where either may be due.
pub fn earlier_due(first: Option<Due>, other: Option<Due>) -> Option<Due>
    ensures { result ≡ earlier_due first other }
{
    match (first, other) {
        (None, other) => other,
        (first, None) => first,
        (Some(first), Some(other)) => Some(not_later(first, other)),
    }
}

fn rst_assertion(reset: Option<Ns>) -> Option<Due>
    ensures { result ≡ rst_assertion reset }
{
    due_at(reset?, Lines::RST)
}

fn rst_release(me: &Myself, raised: Ns) -> Option<Due>
    requires ready { IsReady me.now }
    requires raised { raised < time_limit }
    ensures { result ≡ rst_release me.now raised }
{
    due_at(raised + RESET_HOLD_TIME + me.latency, Lines::none())
}

/// What a device is due to do next, where `calm` is due of it without a reset of its own (6.2.2). It drives RST at
/// the time of its next reset, `reset` in ns, before what is due then or later. While it drives RST, since `raised`,
/// it waits for the end of that: it releases RST a reset hold time and its latency after it raised it.
pub fn due_with_reset(me: &Myself, raised: Ns, reset: Option<Ns>, calm: Option<Due>) -> Option<Due>
    requires ready { IsReady me.now }
    requires raised { raised < time_limit }
    ensures { result ≡ with_reset me.now raised reset calm }
{
    if me.own.rst() {
        rst_release(me, raised)
    } else {
        earlier_due(rst_assertion(reset), calm)
    }
}
