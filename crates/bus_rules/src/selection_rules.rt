//! Rules 7 to 13: selection and reselection (ANSI X3.131-1994, 6.1.3 and 6.1.4).
ghost use Rattle.std.specs.Prelude.{◌≡◌, ◌<◌, Some};
ghost use Rattle.bus_rules.specs.Selection.{is_past, has_no_answer, answers_to, is_left, others_release, keeps_losers_off, keeps_winner, calls_exactly, calls_well, keeps_calling, drives_answer, has_settled, answers_well, may_raise, keeps_answer_to, keeps_answer, releases_sel, has_only_data_and_atn, ends_call_well, keeps_end_to, keeps_end, gives_up_well, keeps_time_out_to, keeps_time_out, hands_over_to, hands_over, takes_over, keeps_reselection};

use crate::seen::Seen;
use bus_base::Ns;
use bus_trace::{
    BUS_CLEAR_DELAY, BUS_SETTLE_DELAY, Call, Calling, Lines, QUIET_TIME, Row, SELECTION_ABORT_TIME,
    SELECTION_TIMEOUT_DELAY, ScsiId, TWO_DESKEW, drives_two_ids, falls, is_within, rises,
};

// Whether a moment has come, and this long passed since.
fn is_past(moment: Option<Ns>, delay: Ns, time: Ns) -> bool
    requires { 0 < delay }
    ensures { result ≡ is_past moment delay time }
{
    match moment {
        None => false,
        Some(moment) => time.saturating_sub(moment) >= delay,
    }
}

fn has_no_answer(calling: Option<Calling>) -> bool
    ensures { result ≡ has_no_answer calling }
{
    match calling {
        None => true,
        Some(calling) => calling.answered.is_none(),
    }
}

// Whether the called device raises BSY.
fn answers(seen: &Seen, row: &Row, calling: &Calling) -> bool
    ensures { result ≡ answers_to seen.now row.now (Some calling.now) }
{
    row.dev == calling.called.get() && rises(seen.change.own.bsy(), seen.change.next.bsy())
}

fn answers_to(seen: &Seen, row: &Row, calling: &Option<Calling>) -> bool
    ensures { result ≡ answers_to seen.now row.now calling.now }
{
    match calling {
        None => false,
        Some(calling) => answers(seen, row, calling),
    }
}

/// The latest time of rule 7: where SEL has been true without an answer for longer than a bus clear delay no
/// device but the caller drives a line.
pub fn is_left(seen: &Seen, time: Ns) -> bool
    ensures { result ≡ is_left seen.now time seen.now.call }
{
    match seen.call {
        None => true,
        Some(call) => {
            !has_no_answer(call.calling)
                || (time.saturating_sub(call.at) <= BUS_CLEAR_DELAY || !seen.others_drive)
        }
    }
}

fn others_release(seen: &Seen, row: &Row) -> bool
    ensures { result ≡ others_release seen.now row.now seen.now.call }
{
    match &seen.call {
        None => true,
        Some(call) => {
            !(has_no_answer(call.calling) && row.dev != call.caller.get())
                || (answers_to(seen, row, &call.calling) || seen.change.raises_none())
        }
    }
}

/// Rule 7: while SEL is true and no answer has come, all devices but the caller release their lines in time
/// and raise none, but for the answer.
pub fn keeps_losers_off(seen: &Seen, row: &Row) -> bool
    ensures { result ≡ keeps_losers_off seen.now row.now }
{
    others_release(seen, row) && is_left(seen, row.time)
}

/// Rule 8: the caller's first row after SEL rose is at least a bus clear delay and a bus settle delay later.
pub fn keeps_winner(seen: &Seen, row: &Row) -> bool
    ensures { result ≡ keeps_winner seen.now row.now }
{
    match seen.call {
        None => true,
        Some(call) => {
            !(call.calling.is_none() && row.dev == call.caller.get())
                || row.time.saturating_sub(call.at) >= QUIET_TIME
        }
    }
}

fn calls_exactly(caller: ScsiId, lines: Lines) -> bool
    ensures { result ≡ calls_exactly caller lines }
{
    let has_ids = drives_two_ids(caller, lines) && lines.parity_bit();
    let calls = lines.bsy() && lines.sel() && lines.atn() != lines.io();
    let more = lines.cd() || lines.msg() || lines.req() || lines.ack() || lines.rst();
    has_ids && calls && !more
}

fn calls_well(seen: &Seen, row: &Row, call: Call) -> bool
    ensures { result ≡ calls_well seen.now row.now call.caller call.calling }
{
    match call.calling {
        None => calls_exactly(call.caller, seen.change.next),
        Some(calling) => {
            calling.released.is_some()
                || (seen.change.releases_bsy() && row.time.saturating_sub(calling.at) >= TWO_DESKEW)
        }
    }
}

/// Rule 9: the caller's first row after SEL rose is a calling, and its next releases BSY.
pub fn keeps_calling(seen: &Seen, row: &Row) -> bool
    ensures { result ≡ keeps_calling seen.now row.now }
{
    match seen.call {
        None => true,
        Some(call) => row.dev != call.caller.get() || calls_well(seen, row, call),
    }
}

fn drives_answer(calling: &Calling, lines: Lines) -> bool
    ensures { result ≡ drives_answer calling.now lines }
{
    lines.same(Lines::BSY) || (calling.reselects && lines.same(Lines::BSY.with(Lines::ATN)))
}

fn has_settled(seen: &Seen, time: Ns, calling: &Calling) -> bool
    ensures { result ≡ has_settled seen.now time calling.now }
{
    let bus = seen.change.before;
    let sel = bus.sel() && time.saturating_sub(seen.times.sel) >= BUS_SETTLE_DELAY;
    let id = bus.has_id(calling.called.get())
        && time.saturating_sub(seen.id_since) >= BUS_SETTLE_DELAY;
    let bsy = !bus.bsy() && time.saturating_sub(seen.times.bsy) >= BUS_SETTLE_DELAY;
    sel && id && bsy && is_past(calling.released, BUS_SETTLE_DELAY, time)
}

fn answers_well(seen: &Seen, row: &Row, calling: &Calling) -> bool
    ensures { result ≡ answers_well seen.now row.now calling.now }
{
    seen.change.own.is_none()
        && !calling.struck
        && has_settled(seen, row.time, calling)
        && drives_answer(calling, seen.change.next)
}

fn may_raise(seen: &Seen, row: &Row, caller: ScsiId, calling: &Calling) -> bool
    ensures { result ≡ may_raise seen.now row.now caller calling.now }
{
    let by_caller = row.dev == caller.get() && seen.change.raises_only(Lines::BSY);
    let by_called = row.dev == calling.called.get() && seen.change.raises_only(Lines::ATN);
    (calling.reselects && calling.answered.is_some()) && (by_caller || by_called)
}

fn keeps_answer_to(seen: &Seen, row: &Row, caller: ScsiId, calling: &Calling) -> bool
    ensures { result ≡ keeps_answer_to seen.now row.now caller (Some calling.now) }
{
    if answers(seen, row, calling) {
        answers_well(seen, row, calling)
    } else {
        !seen.change.after.sel()
            || (seen.change.raises_none() || may_raise(seen, row, caller, calling))
    }
}

/// Rule 10: an answer comes when the IDs have settled, and until SEL falls no other row raises a line, but as
/// a reselection needs it.
pub fn keeps_answer(seen: &Seen, row: &Row) -> bool
    ensures { result ≡ keeps_answer seen.now row.now }
{
    match &seen.call {
        None => true,
        Some(call) => match &call.calling {
            None => true,
            Some(calling) => keeps_answer_to(seen, row, call.caller, calling),
        },
    }
}

fn releases_sel(seen: &Seen) -> bool
    ensures { result ≡ releases_sel seen.now }
{
    falls(seen.change.own.sel(), seen.change.next.sel())
}

fn has_only_data_and_atn(lines: Lines) -> bool
    ensures { result ≡ has_only_data_and_atn lines }
{
    !(lines.bsy()
        || lines.sel()
        || lines.cd()
        || lines.io()
        || lines.msg()
        || lines.req()
        || lines.ack()
        || lines.rst())
}

fn ends_call_well(seen: &Seen, row: &Row, calling: &Calling) -> bool
    ensures { result ≡ ends_call_well seen.now row.now calling.now }
{
    if calling.reselects {
        is_past(calling.resumed, TWO_DESKEW, row.time)
    } else {
        is_past(calling.answered, TWO_DESKEW, row.time) && has_only_data_and_atn(seen.change.next)
    }
}

fn keeps_end_to(seen: &Seen, row: &Row, caller: ScsiId, calling: &Calling) -> bool
    ensures { result ≡ keeps_end_to seen.now row.now caller (Some calling.now) }
{
    !(row.dev == caller.get() && releases_sel(seen) && calling.answered.is_some())
        || ends_call_well(seen, row, calling)
}

/// Rule 11: after an answer the caller releases SEL two deskew delays later or more.
pub fn keeps_end(seen: &Seen, row: &Row) -> bool
    ensures { result ≡ keeps_end seen.now row.now }
{
    match &seen.call {
        None => true,
        Some(call) => match &call.calling {
            None => true,
            Some(calling) => keeps_end_to(seen, row, call.caller, calling),
        },
    }
}

fn gives_up_well(seen: &Seen, row: &Row, calling: &Calling) -> bool
    ensures { result ≡ gives_up_well seen.now row.now calling.now calling.now.withdrawn }
{
    match calling.withdrawn {
        None => {
            seen.change.releases_data()
                && is_past(calling.released, SELECTION_TIMEOUT_DELAY, row.time)
        }
        Some(withdrawn) => {
            seen.change.next.is_none()
                && row.time.saturating_sub(withdrawn) >= SELECTION_ABORT_TIME + TWO_DESKEW
        }
    }
}

fn keeps_time_out_to(seen: &Seen, row: &Row, caller: ScsiId, calling: &Calling) -> bool
    ensures { result ≡ keeps_time_out_to seen.now row.now caller (Some calling.now) }
{
    !(row.dev == caller.get() && calling.released.is_some() && calling.answered.is_none())
        || gives_up_well(seen, row, calling)
}

/// Rule 12: without an answer the caller gives up as clause 6.1.3.1 says.
pub fn keeps_time_out(seen: &Seen, row: &Row) -> bool
    ensures { result ≡ keeps_time_out seen.now row.now }
{
    match &seen.call {
        None => true,
        Some(call) => match &call.calling {
            None => true,
            Some(calling) => keeps_time_out_to(seen, row, call.caller, calling),
        },
    }
}

fn hands_over_to(seen: &Seen, row: &Row, caller: ScsiId, calling: &Calling) -> bool
    ensures { result ≡ hands_over_to seen.now row.now caller (Some calling.now) }
{
    let (own, next) = (seen.change.own, seen.change.next);
    let keeps = (own.bsy() && own.io()) && (next.bsy() && next.io());
    !(calling.reselects && calling.answered.is_some())
        || ((!(row.dev == caller.get() && releases_sel(seen)) || keeps)
            && (row.dev != calling.called.get() || !falls(own.bsy(), next.bsy())))
}

fn hands_over(seen: &Seen, row: &Row) -> bool
    ensures { result ≡ hands_over seen.now row.now seen.now.call }
{
    match &seen.call {
        None => true,
        Some(call) => match &call.calling {
            None => true,
            Some(calling) => hands_over_to(seen, row, call.caller, calling),
        },
    }
}

fn takes_over(seen: &Seen, row: &Row) -> bool
    ensures { result ≡ takes_over seen.now row.now seen.now.connection }
{
    let (own, next) = (seen.change.own, seen.change.next);
    match seen.connection {
        None => true,
        Some(connection) => {
            let is_initiator = connection.reselected && row.dev == connection.initiator.get();
            !(is_initiator && falls(own.bsy(), next.bsy())) || is_within(next, Lines::ATN)
        }
    }
}

/// Rule 13: in a reselection BSY goes from the called initiator to the target, and REQ does not rise while the
/// initiator drives BSY.
pub fn keeps_reselection(seen: &Seen, row: &Row) -> bool
    ensures { result ≡ keeps_reselection seen.now row.now }
{
    let asks = rises(seen.change.before.req(), seen.change.after.req());
    hands_over(seen, row) && takes_over(seen, row) && (!asks || !seen.initiator_bsy)
}
