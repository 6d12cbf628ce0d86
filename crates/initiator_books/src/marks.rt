// What is done to the commands and aborts of an initiator.
ghost use Rattle.std.specs.Prelude.{◌≡◌, map};
ghost use Rattle.array_model.specs.Steps.{has_tag};
ghost use Rattle.initiator_books.specs.Mines.{is_open_mine, with_sent, with_over, with_one_try, with_checked, with_status, is_check, sent_at, over_at, tried_at, mine_with_end, is_at_unit_of, is_mine_aborted, is_my_sense_stopped, mine_after_end, mine_after_event};
ghost use Rattle.bus_base.specs.declared.Event.TheVariants.{End};
ghost use Rattle.initiator_books.specs.Books.{done_at, abort_tried_at};

use crate::mine::{Mine, MyAbort};
use bus_base::{AbortKind, Dev, Event, ProcId};
use cdb_codec::CHECK_CONDITION;
use scenario::Tag;

/// Whether a command was sent, and is not over.
pub fn is_open_mine(mine: &Mine) -> bool
    ensures { result ≡ is_open_mine mine.now }
{
    mine.sent && !mine.over
}

fn with_sent(sense: bool, mine: Mine) -> Mine
    ensures { result ≡ with_sent sense mine }
{
    if sense {
        Mine {
            sense_sent: true,
            ..mine
        }
    } else {
        Mine { sent: true, ..mine }
    }
}

fn with_over(sense: bool, mine: Mine) -> Mine
    ensures { result ≡ with_over sense mine }
{
    if sense {
        Mine {
            sense_over: true,
            ..mine
        }
    } else {
        Mine { over: true, ..mine }
    }
}

/// A command, where this process is sent.
pub fn sent_at(id: ProcId, mine: Mine) -> Mine
    ensures { result ≡ sent_at id mine }
{
    if id.command == mine.number {
        with_sent(id.sense, mine)
    } else {
        mine
    }
}

/// A command, where this process is over.
pub fn over_at(id: ProcId, mine: Mine) -> Mine
    ensures { result ≡ over_at id mine }
{
    if id.command == mine.number {
        with_over(id.sense, mine)
    } else {
        mine
    }
}

/// Whether a process of this status is a command that ended with CHECK CONDITION.
pub fn is_check(id: ProcId, status: u8) -> bool
    ensures { result ≡ is_check id status }
{
    !id.sense && status == CHECK_CONDITION
}

fn with_status(check: bool, mine: Mine) -> Mine
    ensures { result ≡ with_status check mine }
{
    if check {
        Mine {
            checked: true,
            ..mine
        }
    } else {
        mine
    }
}

/// A command, where this process ended with this status.
pub fn after_end(id: ProcId, status: u8, mine: Mine) -> Mine
    ensures { result ≡ mine_after_event (End id status) mine }
{
    if id.command == mine.number {
        with_status(is_check(id, status), with_over(id.sense, mine))
    } else {
        mine
    }
}

fn with_end(drops: bool, stops: bool, mine: Mine) -> Mine
    ensures { result ≡ mine_with_end drops stops mine }
{
    if mine.sent && !mine.over && drops {
        Mine { over: true, ..mine }
    } else if stops && mine.checked {
        Mine {
            sense_over: true,
            ..mine
        }
    } else {
        mine
    }
}

pub(crate) fn is_at_unit(mine: &Mine, target: Dev, unit: u8) -> bool
    ensures { result ≡ is_at_unit_of mine.now target unit }
{
    mine.target == target && mine.unit == unit
}

fn has_tag(tag: Tag, number: u8) -> bool
    ensures { result ≡ has_tag tag number }
{
    match tag {
        Tag::Untagged => false,
        Tag::Simple(tag) | Tag::Ordered(tag) | Tag::Head(tag) => tag == number,
    }
}

/// Whether an abort concerns a command of its own.
pub fn is_aborted(host: Dev, target: Dev, unit: u8, what: AbortKind, mine: &Mine) -> bool
    ensures { result ≡ is_mine_aborted host target unit what mine.now }
{
    match what {
        AbortKind::All => mine.host == host && is_at_unit(mine, target, unit),
        AbortKind::Tag(number) => {
            mine.host == host && is_at_unit(mine, target, unit) && has_tag(mine.tag, number)
        }
        AbortKind::WholeQueue => is_at_unit(mine, target, unit),
        AbortKind::Device => mine.target == target,
    }
}

fn is_stopped(host: Dev, target: Dev, unit: u8, what: AbortKind, mine: &Mine) -> bool
    ensures { result ≡ is_my_sense_stopped host target unit what mine.now }
{
    match what {
        AbortKind::All => mine.host == host && is_at_unit(mine, target, unit),
        AbortKind::Tag(_) | AbortKind::WholeQueue => false,
        AbortKind::Device => mine.target == target,
    }
}

fn after_event(event: &Event, mine: Mine) -> Mine
    ensures { result ≡ mine_after_event event.now mine }
{
    match *event {
        Event::Accept(_) | Event::Refuse(_) | Event::Run(_) | Event::Fail(_, _) => mine,
        Event::End(id, status) => after_end(id, status, mine),
        Event::Lost(id) => over_at(id, mine),
        Event::Aborted(host, target, unit, what) => with_end(
            is_aborted(host, target, unit, what, &mine),
            is_stopped(host, target, unit, what, &mine),
            mine,
        ),
        Event::Reset(_) => with_end(true, true, mine),
    }
}

/// A command, where that of this number was called for in vain.
pub fn tried_at(number: u16, mine: Mine) -> Mine
    ensures { result ≡ tried_at number mine }
{
    if number == mine.number {
        Mine {
            tries: mine.tries.saturating_add(1),
            ..mine
        }
    } else {
        mine
    }
}

fn done_at(number: u16, abort: MyAbort) -> MyAbort
    ensures { result ≡ done_at number abort }
{
    if number == abort.number {
        MyAbort {
            done: true,
            ..abort
        }
    } else {
        abort
    }
}

fn abort_tried_at(number: u16, abort: MyAbort) -> MyAbort
    ensures { result ≡ abort_tried_at number abort }
{
    if number == abort.number {
        MyAbort {
            tries: abort.tries.saturating_add(1),
            ..abort
        }
    } else {
        abort
    }
}

/// An abort was called for in vain.
#[tactic(auto, using(std::proofs::lemmas::List::Edits::map_over_more))]
pub fn all_aborts_tried(aborts: &mut [MyAbort], number: u16)
    ensures { aborts.new ≡ map (λ a. abort_tried_at number a) aborts.old }
{
    for abort in aborts.iter_mut() {
        *abort = abort_tried_at(number, *abort);
    }
}

/// An event is shown.
#[tactic(auto, using(std::proofs::lemmas::List::Edits::map_over_more))]
pub fn all_after_event(mines: &mut [Mine], event: &Event)
    ensures { mines.new ≡ map (λ m. mine_after_event event.now m) mines.old }
{
    for mine in mines.iter_mut() {
        *mine = after_event(event, *mine);
    }
}

/// The abort of this line is sent or given up.
#[tactic(auto, using(std::proofs::lemmas::List::Edits::map_over_more))]
pub fn all_done(aborts: &mut [MyAbort], number: u16)
    ensures { aborts.new ≡ map (λ a. done_at number a) aborts.old }
{
    for abort in aborts.iter_mut() {
        *abort = done_at(number, *abort);
    }
}
