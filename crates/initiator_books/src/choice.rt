// What an initiator sends next, and since when it wants to, by its own commands and aborts.
ghost use Rattle.std.specs.Prelude.{◌≡◌, ◌≤◌, true, length, take};
ghost use Rattle.std.specs.List.{list_any};
ghost use Rattle.story_model.specs.Items.{is_tag_clash};
ghost use Rattle.due_model.specs.reaction_model.specs.Reactions.{time_if};
ghost use Rattle.initiator_books.specs.Mines.{open_mines, is_open_mine, is_done_mine, is_clash_of, may_follow_mines, mines_since, mine_by, my_aborts_since, my_abort_by};
ghost use Rattle.initiator_books.specs.Books.{my_sense};
ghost use Rattle.initiator_books.specs.Checks.{none_due};
ghost use Rattle.array_model.specs.Order.{tag_number};

use crate::commands::Commands;
use crate::marks::is_open_mine;
use crate::mine::{Mine, MyAbort};
use array_model::tag_number;
use bus_base::Ns;
use scenario::Tag;
use scsi_device::sooner_time;

fn is_done(mine: &Mine) -> bool
    ensures { result ≡ is_done_mine mine.now }
{
    mine.sent || mine.over
}

fn is_tag_clash(a: Option<u8>, b: Option<u8>) -> bool
    ensures { result ≡ is_tag_clash a b }
{
    match (a, b) {
        (Some(a), Some(b)) => a == b,
        _ => true,
    }
}

// At one unit: an untagged command beside any, or two with one tag (6.6.17, 7.8).
fn is_clash(mine: &Mine, other: &Mine) -> bool
    ensures { result ≡ is_clash_of mine.now other.now }
{
    mine.target == other.target
        && mine.unit == other.unit
        && is_tag_clash(tag_number(mine.tag), tag_number(other.tag))
}

fn open_count(mines: &[Mine]) -> usize
    ensures { result ≡ length (open_mines mines.now) }
{
    let mut count = 0;
    for mine in mines {
        if is_open_mine(mine) {
            count += 1;
        }
    }
    count
}

fn has_clash(mines: &[Mine], mine: &Mine) -> bool
    ensures { result ≡ list_any (λ d. is_clash_of mine.now d) (open_mines mines.now) }
{
    for other in mines {
        if is_open_mine(other) && is_clash(mine, other) {
            return true;
        }
    }
    false
}

fn may_follow(most: usize, time: Ns, beside: &[Mine], mine: &Mine) -> bool
    ensures { result ≡ may_follow_mines most time (open_mines beside.now) mine.now }
{
    mine.at <= time && open_count(beside) < most && !has_clash(beside, mine)
}

/// Since when the first of these commands that is still to be sent may be sent, in ns, beside those that are open.
pub fn mines_since(most: usize, beside: &[Mine], mines: &[Mine]) -> Option<Ns>
    ensures { result ≡ mines_since most (open_mines beside.now) mines.now }
{
    for mine in mines {
        if !is_done(mine) {
            return if may_follow(most, mine.at, beside, mine) {
                Some(mine.at)
            } else {
                None
            };
        }
    }
    None
}

/// Its number, where it may be sent at this time.
pub fn mine_by(most: usize, time: Ns, beside: &[Mine], mines: &[Mine]) -> Option<u16>
    ensures { result ≡ mine_by most time (open_mines beside.now) mines.now }
{
    for mine in mines {
        if !is_done(mine) {
            return if may_follow(most, time, beside, mine) {
                Some(mine.number)
            } else {
                None
            };
        }
    }
    None
}

/// When the first abort that is still to be sent falls due, in ns.
pub fn aborts_since(aborts: &[MyAbort]) -> Option<Ns>
    ensures { result ≡ my_aborts_since aborts.now }
{
    let mut since = None;
    for abort in aborts {
        if !abort.done {
            since = sooner_time(since, Some(abort.at));
        }
    }
    since
}

/// The first line of one that is due at this time and still to be sent.
pub fn abort_by(time: Ns, aborts: &[MyAbort]) -> Option<u16>
    ensures { result ≡ my_abort_by time aborts.now }
{
    for abort in aborts {
        if abort.at <= time && !abort.done {
            return Some(abort.number);
        }
    }
    None
}

/// The first of these commands, by their numbers, whose automatic REQUEST SENSE is still to be sent.
pub fn first_sense(commands: &Commands, numbers: &[u16]) -> Option<u16>
    ensures { result ≡ my_sense commands.now.mines numbers.now }
{
    for number in numbers {
        if commands.is_sense_due(*number) {
            return Some(*number);
        }
    }
    None
}

/// How many of these are settled, from so many on: of none of the first of them it is still to be sent.
pub fn settled_from(commands: &Commands, numbers: &[u16], settled: usize) -> usize
    requires within { settled ≤ length numbers.now }
    requires settled { none_due commands.now.mines (take settled numbers.now) ≡ true }
    ensures within { result ≤ length numbers.now }
    ensures settled { none_due commands.now.mines (take result numbers.now) ≡ true }
{
    let mut count = settled;
    while count < numbers.len() && !commands.is_sense_due(numbers[count]) {
        count += 1;
    }
    count
}
