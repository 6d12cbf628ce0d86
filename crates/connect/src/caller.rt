// The caller: the device that won, from its SEL to its release (6.1.2 to 6.1.4).
ghost use Rattle.std.specs.Prelude.{◌≡◌, ◌<◌};
ghost use Rattle.bus_lines.specs.Timely.{IsBefore, IsCallingBefore};
ghost use Rattle.reaction_model.specs.Calling.{with_calling_mark, calling_start, calling_bsy_release, withdrawal, calling_abort, unanswered_due, caller_due, selection_end, bsy_takeover, reselection_end, answered_due};
ghost use Rattle.connect.specs.Ready.{IsReady, time_limit};

use bus_base::Ns;
use bus_trace::{
    Calling, Lines, QUIET_TIME, SELECTION_ABORT_TIME, SELECTION_TIMEOUT_DELAY, TWO_DESKEW,
    byte_lines,
};
use reaction_model::{Due, Myself, Want, due_at};

fn with_calling_mark(reselects: bool, lines: Lines) -> Lines
    ensures { result ≡ with_calling_mark reselects lines }
{
    if reselects {
        Lines::IO.with(lines)
    } else {
        Lines::ATN.with(lines)
    }
}

fn calling_start(me: &Myself, want: &Want) -> Option<Due>
    requires { IsReady me.now }
    ensures { result ≡ calling_start want.now.reselects me.now want.now.callee }
{
    let other = want.callee?;
    if other >= 8 || other == me.dev {
        return None;
    }
    let ids = Lines::BSY.with(Lines::SEL.with(Lines::ids(me.dev, other)));
    due_at(
        me.since + QUIET_TIME + me.latency,
        with_calling_mark(want.reselects, ids),
    )
}

fn calling_bsy_release(me: &Myself) -> Option<Due>
    requires { IsReady me.now }
    ensures { result ≡ calling_bsy_release me.now }
{
    due_at(me.since + TWO_DESKEW + me.latency, me.own.without_bsy())
}

fn withdrawal(me: &Myself, released: Ns) -> Option<Due>
    requires ready { IsReady me.now }
    requires released { released < time_limit }
    ensures { result ≡ withdrawal me.now released }
{
    due_at(
        released + SELECTION_TIMEOUT_DELAY + me.latency,
        me.own.without_data(),
    )
}

fn calling_abort(me: &Myself) -> Option<Due>
    requires { IsReady me.now }
    ensures { result ≡ calling_abort me.now }
{
    due_at(
        me.since + (SELECTION_ABORT_TIME + TWO_DESKEW) + me.latency,
        Lines::none(),
    )
}

fn unanswered_due(me: &Myself, calling: &Calling) -> Option<Due>
    requires ready { IsReady me.now }
    requires released { IsBefore time_limit calling.now.released }
    ensures { result ≡ unanswered_due me.now calling.now calling.now.released }
{
    match calling.released {
        None => calling_bsy_release(me),
        Some(released) => {
            if calling.withdrawn.is_none() {
                withdrawal(me, released)
            } else {
                calling_abort(me)
            }
        }
    }
}

/// What is due of the caller before an answer.
pub fn caller_due(me: &Myself, want: &Want, calling: &Option<Calling>) -> Option<Due>
    requires ready { IsReady me.now }
    requires calling { IsCallingBefore time_limit calling.now }
    ensures { result ≡ caller_due me.now want.now calling.now }
{
    match calling {
        None => calling_start(me, want),
        Some(calling) => unanswered_due(me, calling),
    }
}

fn selection_end(me: &Myself, answered: Ns) -> Option<Due>
    requires ready { IsReady me.now }
    requires answered { answered < time_limit }
    ensures { result ≡ selection_end me.now answered }
{
    due_at(answered + TWO_DESKEW + me.latency, Lines::ATN)
}

fn bsy_takeover(me: &Myself, answered: Ns) -> Option<Due>
    requires ready { IsReady me.now }
    requires answered { answered < time_limit }
    ensures { result ≡ bsy_takeover me.now answered }
{
    due_at(answered + me.latency, Lines::BSY.with(me.own))
}

fn reselection_end(me: &Myself, first: u8) -> Option<Due>
    requires { IsReady me.now }
    ensures { result ≡ reselection_end me.now first }
{
    let message_in = Lines::MSG.with(Lines::CD.with(Lines::IO));
    due_at(
        me.since + TWO_DESKEW + me.latency,
        Lines::BSY.with(message_in.with(byte_lines(first))),
    )
}

/// What is due of the caller after the answer.
pub fn answered_due(me: &Myself, want: &Want, calling: &Calling, answered: Ns) -> Option<Due>
    requires ready { IsReady me.now }
    requires answered { answered < time_limit }
    ensures { result ≡ answered_due me.now want.now calling.now answered }
{
    if !calling.reselects {
        selection_end(me, answered)
    } else if calling.resumed.is_none() {
        bsy_takeover(me, answered)
    } else {
        reselection_end(me, want.first)
    }
}
