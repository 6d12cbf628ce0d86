//! The live commands of a queue as they are stored: a slab of entries, and the arrivals in their order. What reads or
//! changes them takes these two and not the queue, which is not whole in between.
ghost use Rattle.std.specs.Prelude.{◌≡◌, ◌+◌, ◌-◌, ◌==◌, ◌&&◌, ◌||◌, ℕ, [], not, Option, Some, None, false, if◌then◌else◌};
ghost use Rattle.slab.specs.Slab.{get};
ghost use Rattle.bus_base.specs.declared.events.Pick.TheVariants as picks;
ghost use Rattle.array_model.specs.declared.entries.Entry.{Entry};
ghost use Rattle.array_model.specs.Processes.{same_bool, same_id};
ghost use Rattle.array_model.specs.Order.{is_head as is_head_class, is_ordered as is_ordered_class, overlap, holds_back as holds_back_entry, last_head as last_head_place, may_run_in_order, picked_place, runnable_after, chosen_place, same_number as same_tag_number};
ghost use Rattle.tag_queue.specs.Queue.{is_current as is_current_key, key_at as waiting_key, key_at_if, place_of, key_of as first_key_of, key_of_process as first_of_process, is_of as is_of_initiator};
ghost use Rattle.tag_queue.specs.Stored.{queued_at, waiting_at, entries_at, held_back_by, AreKept, IsLive, lowered, lowered_by, first_of as first_key_of_those};

use super::those::Those;
use array_model::{Class, Dev, Entry, Pick, ProcId, same_id};
use slab::Slab;

/// What a command is called by for as long as it is live.
pub type Key = usize;

/// A command that arrived.
#[derive(Clone, Copy, Debug, PartialEq, Eq)]
pub struct Arrival {
    pub key: Key,
    /// While it waits, how many commands that wait before it hold it back.
    pub earlier: usize,
}

pub fn is_current(current: Option<Key>, key: Key) -> bool
    ensures { result ≡ is_current_key current key }
{
    match current {
        Some(current) => key == current,
        None => false,
    }
}

fn is_head(class: Class) -> bool
    ensures { result ≡ is_head_class class }
{
    matches!(class, Class::Head)
}

fn is_ordered(class: Class) -> bool
    ensures { result ≡ is_ordered_class class }
{
    matches!(class, Class::Ordered)
}

fn head_place(found: Option<usize>, place: usize, entry: Entry) -> Option<usize>
    ensures { result ≡ (if is_head_class entry.class then Some place else found) }
{
    if is_head(entry.class) {
        Some(place)
    } else {
        found
    }
}

fn live_entry(entries: &Slab<Entry>, key: Key) -> Entry
    requires live { IsLive entries.now key }
    ensures { get entries.now key ≡ Some result }
{
    entries[key]
}

/// The place of the last HEAD OF QUEUE command among those that wait.
pub fn last_head(entries: &Slab<Entry>, arrivals: &[Arrival], current: Option<Key>) -> Option<usize>
    requires kept { AreKept entries.now None current [] arrivals.now }
    ensures { result ≡ last_head_place (entries_at entries.now current arrivals.now) 0 None }
{
    let mut place = 0;
    let mut found = None;
    for arrival in arrivals {
        if !is_current(current, arrival.key) {
            found = head_place(found, place, live_entry(entries, arrival.key));
            place += 1;
        }
    }
    found
}

/// The key of the one that waits at this place.
#[tactic(auto, using(crate::proofs::Scans::key_at_later))]
pub fn key_at(
    entries: &Slab<Entry>,
    arrivals: &[Arrival],
    current: Option<Key>,
    place: usize,
) -> Option<Key>
    requires kept { AreKept entries.now None current [] arrivals.now }
    ensures { result ≡ waiting_key (waiting_at entries.now current arrivals.now) place }
{
    let mut before = place;
    for arrival in arrivals {
        if !is_current(current, arrival.key) {
            if before == 0 {
                return Some(arrival.key);
            }
            before -= 1;
        }
    }
    None
}

/// Whether a command may run where no HEAD OF QUEUE command waits: how many wait before it, whether one of them is
/// ORDERED, and how many of them hold it back.
fn may_run_past(entry: Entry, place: usize, ordered: bool, earlier: usize) -> bool
    ensures { result ≡ (if is_ordered_class entry.class then place == 0 else not ordered && earlier == 0) }
{
    if is_ordered(entry.class) {
        place == 0
    } else {
        !ordered && earlier == 0
    }
}

fn place_if(found: Option<usize>, runs: bool, place: usize) -> Option<usize>
    ensures { result ≡ (if runs then Some place else found) }
{
    if runs { Some(place) } else { found }
}

/// The place of the last of those that wait and may run where no HEAD OF QUEUE command waits.
#[tactic(auto, using(crate::proofs::Scans::may_run_after_by, crate::proofs::Scans::has_ordered_more, crate::proofs::Scans::last_or_picked))]
pub fn last_in_order(
    entries: &Slab<Entry>,
    arrivals: &[Arrival],
    current: Option<Key>,
) -> Option<usize>
    requires kept { AreKept entries.now None current [] arrivals.now }
    ensures { result ≡ picked_place picks.Last (runnable_after [] 0 (entries_at entries.now current arrivals.now)) }
{
    let mut place = 0;
    let mut ordered = false;
    let mut found = None;
    for arrival in arrivals {
        if !is_current(current, arrival.key) {
            let entry = live_entry(entries, arrival.key);
            let runs = may_run_past(entry, place, ordered, arrival.earlier);
            found = place_if(found, runs, place);
            ordered |= is_ordered(entry.class);
            place += 1;
        }
    }
    found
}

/// The place of the one that is chosen, by its key: the last HEAD OF QUEUE command, and without one the first or the
/// last of those that may run. The first that waits always may.
#[tactic(auto, using(crate::proofs::Chosen::head_chosen, crate::proofs::Chosen::first_chosen, crate::proofs::Chosen::last_chosen))]
pub fn runnable_place(
    entries: &Slab<Entry>,
    arrivals: &[Arrival],
    current: Option<Key>,
    pick: Pick,
) -> Option<usize>
    requires kept { AreKept entries.now None current [] arrivals.now }
    ensures { key_at_if (waiting_at entries.now current arrivals.now) result
        ≡ key_at_if (waiting_at entries.now current arrivals.now)
        (chosen_place pick (entries_at entries.now current arrivals.now)) }
{
    let head = last_head(entries, arrivals, current);
    if head.is_some() {
        return head;
    }
    match pick {
        Pick::First => Some(0),
        Pick::Last => last_in_order(entries, arrivals, current),
    }
}

/// Where a command waits.
#[derive(Clone, Copy, Debug, PartialEq, Eq)]
pub struct Standing {
    /// How many wait before it.
    pub place: usize,
    /// Whether it may run where no HEAD OF QUEUE command waits.
    pub runs: bool,
}

/// Where the command of this key waits.
#[tactic(auto, using(crate::proofs::Scans::may_run_after_by, crate::proofs::Scans::has_ordered_more))]
pub fn place_standing(
    entries: &Slab<Entry>,
    arrivals: &[Arrival],
    current: Option<Key>,
    key: Key,
) -> Standing
    requires kept { AreKept entries.now None current [] arrivals.now }
    ensures place { result.place ≡ place_of (waiting_at entries.now current arrivals.now) key }
    ensures runs { result.runs ≡ may_run_in_order [] (entries_at entries.now current arrivals.now)
        (place_of (waiting_at entries.now current arrivals.now) key) }
{
    let mut place = 0;
    let mut ordered = false;
    for arrival in arrivals {
        if !is_current(current, arrival.key) {
            let entry = live_entry(entries, arrival.key);
            if arrival.key == key {
                let runs = may_run_past(entry, place, ordered, arrival.earlier);
                return Standing { place, runs };
            }
            ordered |= is_ordered(entry.class);
            place += 1;
        }
    }
    Standing { place, runs: false }
}

fn same_tag(one: Option<u8>, other: Option<u8>) -> bool
    ensures { result ≡ same_tag_number one other }
{
    match (one, other) {
        (Some(one), Some(other)) => one == other,
        (None, None) => true,
        _ => false,
    }
}

/// The key of the first live command of an initiator with this tag, or without one.
pub fn key_of(
    entries: &Slab<Entry>,
    arrivals: &[Arrival],
    from: Dev,
    tag: Option<u8>,
) -> Option<Key>
    requires kept { (current : Option ℕ) × AreKept entries.now None current [] arrivals.now }
    ensures { result ≡ first_key_of (queued_at entries.now arrivals.now) from tag }
{
    for arrival in arrivals {
        let entry = live_entry(entries, arrival.key);
        if entry.from == from && same_tag(entry.tag, tag) {
            return Some(arrival.key);
        }
    }
    None
}

/// The key of the first live command of a process.
pub fn key_of_process(entries: &Slab<Entry>, arrivals: &[Arrival], id: ProcId) -> Option<Key>
    requires kept { (current : Option ℕ) × AreKept entries.now None current [] arrivals.now }
    ensures { result ≡ first_of_process (queued_at entries.now arrivals.now) id }
{
    for arrival in arrivals {
        let entry = live_entry(entries, arrival.key);
        if same_id(entry.id, id) {
            return Some(arrival.key);
        }
    }
    None
}

fn overlaps(one: &Entry, other: &Entry) -> bool
    ensures { result ≡ overlap one.now other.now }
{
    let one_end = u64::from(one.first) + u64::from(one.count);
    let other_end = u64::from(other.first) + u64::from(other.count);
    (0 < one.count && 0 < other.count)
        && (u64::from(one.first) < other_end && u64::from(other.first) < one_end)
}

fn holds_back(earlier: &Entry, entry: &Entry) -> bool
    ensures { result ≡ holds_back_entry earlier.now entry.now }
{
    earlier.from == entry.from && (overlaps(earlier, entry) && (earlier.writes || entry.writes))
}

/// How many of those that wait hold a command back that arrives now.
pub fn earlier_conflicts(
    entries: &Slab<Entry>,
    arrivals: &[Arrival],
    current: Option<Key>,
    entry: &Entry,
) -> usize
    requires kept { AreKept entries.now None current [] arrivals.now }
    ensures { result ≡ held_back_by (entries_at entries.now current arrivals.now) entry.now }
{
    let mut count = 0;
    for arrival in arrivals {
        if !is_current(current, arrival.key)
            && holds_back(&live_entry(entries, arrival.key), entry)
        {
            count += 1;
        }
    }
    count
}

// The count is not 0 where it is lowered: the one that leaves was counted.
fn lowered_arrival(arrival: Arrival, lower: bool) -> Arrival
    ensures { result ≡ lowered_by lower arrival }
{
    let fewer = if lower { 1 } else { 0 };
    Arrival {
        key: arrival.key,
        earlier: arrival.earlier.saturating_sub(fewer),
    }
}

/// The command of this key waits no longer: it holds none of the later ones back.
pub fn lower_later(entries: &Slab<Entry>, arrivals: &mut [Arrival], key: Key)
    requires live { IsLive entries.now key }
    requires kept { (current : Option ℕ) × AreKept entries.now None current [] arrivals.old }
    ensures { (leaving : Entry) → get entries.now key ≡ Some leaving
        → arrivals.new ≡ lowered entries.now leaving key false arrivals.old }
{
    let leaving = live_entry(entries, key);
    let mut passed = false;
    for arrival in arrivals.iter_mut() {
        let entry = live_entry(entries, arrival.key);
        *arrival = lowered_arrival(*arrival, passed && holds_back(&leaving, &entry));
        passed |= arrival.key == key;
    }
}

fn is_of(entry: Entry, who: Those) -> bool
    ensures { result ≡ is_of_initiator who entry }
{
    match who {
        Those::All => true,
        Those::Of(dev) => entry.from == dev,
        Those::Tagged(dev, tag) => entry.from == dev && same_tag(entry.tag, Some(tag)),
    }
}

/// The key of the first live command of an initiator, or of any.
pub fn first_of(entries: &Slab<Entry>, arrivals: &[Arrival], who: Those) -> Option<Key>
    requires kept { (current : Option ℕ) × AreKept entries.now None current [] arrivals.now }
    ensures { result ≡ first_key_of_those (queued_at entries.now arrivals.now) who }
{
    for arrival in arrivals {
        if is_of(live_entry(entries, arrival.key), who) {
            return Some(arrival.key);
        }
    }
    None
}
