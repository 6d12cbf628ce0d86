//! All devices are told of a row.
ghost use Rattle.std.specs.Prelude.{ℕ, ◌≡◌, ◌≢◌, ◌<◌, ◌+◌, ◌^◌, ◌∷◌, [], true, false, List, Option, Some, None, IfSome, length, slice_index_or};
ghost use Rattle.bus_trace.specs.declared.Row.{Row};
ghost use Rattle.bus_trace.specs.declared.connection.Connection.{Connection};
ghost use Rattle.bus_trace.specs.Terms.{connection};
ghost use Rattle.bus_lines.specs.Timely.{IsTimely};
ghost use Rattle.scenario.specs.Value.{ScenarioValue};
ghost use Rattle.bus_run.specs.Label.{process_known};
ghost use Rattle.bus_run.specs.Places.{AreIn, AreKnownBut};
ghost use Rattle.bus_run.specs.Seen.{AreSeen};
ghost use Rattle.bus_run.specs.Shown.{shown_events, reading, events_shown, is_left, teller, reset_events};
ghost use Rattle.bus_run.specs.Standing.{IsKept};
ghost use Rattle.due_model.specs.bus_rules.specs.Order.{is_of_device};

use crate::device::Device;
use crate::laws::rows_tie_devices;
use crate::places::{no_process, process_in, see_in, see_kept_in, shown_in};
use crate::shown::Shown;
use bus_base::{Dev, Event, ProcId};
use bus_trace::{Change, Connection, Row, changes_phase, rises};
use due_model::the_dialogue_model::Observer;
use due_model::{hearings_are_plain, kept_is_plain};

// Whether a phase is left, or the bus; this connection stands after the row.
fn is_left(change: &Change, after: &Option<Connection>) -> bool
    ensures { result ≡ is_left change.now after.now }
{
    changes_phase(change) || after.is_none()
}

// The end of the connection that tells what the row shows.
fn teller(connection: &Connection, change: &Change, after: &Option<Connection>) -> Dev
    ensures exact { result ≡ teller connection.now change.now after.now }
    ensures below { result < 8 }
{
    if is_left(change, after) {
        connection.target.get()
    } else {
        connection.initiator.get()
    }
}

// What a row shows of this device, after which RST is true.
fn reset_shown(change: &Change, dev: Dev) -> Shown
    ensures { shown_events result ≡ reset_events change.now dev }
{
    if rises(change.own.rst(), change.next.rst()) {
        Shown::One([Event::Reset(dev)])
    } else {
        Shown::Nothing
    }
}

/// The events that a row shows, which the observer has seen and the devices have not: a reset of the device that raises
/// RST; while RST is true, and with the row that ends it, no other; and in a connection those that one of its ends
/// shows.
pub fn row_shown<D: Device>(places: &[Option<D>], observer: &Observer, row: &Row) -> Shown
    requires { length places.now ≡ 8 }
    ensures { (s : ScenarioValue) (rows : List Row) → AreSeen s (row.now ∷ rows) observer.now
        → AreIn D.IsOf s rows places.now → shown_events result ≡ events_shown s rows row.now }
{
    rows_tie_devices();
    hearings_are_plain();
    kept_is_plain();
    let effect = observer.view().effect();
    if effect.change.after.rst() {
        return reset_shown(&effect.change, row.dev);
    }
    if effect.change.before.rst() {
        return Shown::Nothing;
    }
    match &effect.before {
        None => Shown::Nothing,
        Some(connection) => {
            let dev = teller(connection, &effect.change, &effect.after);
            shown_in(&places[dev as usize], observer)
        }
    }
}

// Whether it is this one.
fn is_of_device(one: Option<Dev>, dev: Dev) -> bool
    ensures { result ≡ is_of_device one dev }
{
    match one {
        None => false,
        Some(one) => one == dev,
    }
}

// A row of which devices are told.
#[derive(Clone, Copy)]
struct News<'a> {
    row: &'a Row,
    // The process of the connection that stands after it, as its initiator knows it.
    label: ProcId,
    // The events that it shows, the newest first.
    shown: &'a [Event],
}

// The device in the place of this ID is told of a row, unless it is the one that was told of it first.
fn see_unless<D: Device>(
    places: &mut [Option<D>],
    one: Option<Dev>,
    dev: Dev,
    observer: &Observer,
    news: &News<'_>,
)
    requires eight { length places.old ≡ 8 }
    requires place { dev < 8 }
    requires device { news.now.row.now.dev < 8 }
    requires timely { IsTimely (2 ^ 63) observer.now.view }
    ensures { (s : ScenarioValue) (rows : List Row) → AreSeen s (news.now.row.now ∷ rows) observer.now
        → news.now.shown.now ≡ events_shown s rows news.now.row.now
        → ((n : Connection) → connection (news.now.row.now ∷ rows) ≡ Some n
        → news.now.label ≡ process_known s (news.now.row.now ∷ rows))
        → AreKnownBut D.IsOf s rows news.now.row.now dev one places.old
        → AreKnownBut D.IsOf s rows news.now.row.now (dev + 1) one places.new }
{
    if !is_of_device(one, dev) {
        see_in(places, dev, observer, news.row, news.label, news.shown);
    }
}

// All devices are told of a row but for the one that was told of it first.
fn see_others<D: Device>(
    places: &mut [Option<D>],
    one: Option<Dev>,
    observer: &Observer,
    news: &News<'_>,
)
    requires eight { length places.old ≡ 8 }
    requires device { news.now.row.now.dev < 8 }
    requires timely { IsTimely (2 ^ 63) observer.now.view }
    ensures { (s : ScenarioValue) (rows : List Row) → AreSeen s (news.now.row.now ∷ rows) observer.now
        → news.now.shown.now ≡ events_shown s rows news.now.row.now
        → ((n : Connection) → connection (news.now.row.now ∷ rows) ≡ Some n
        → news.now.label ≡ process_known s (news.now.row.now ∷ rows))
        → AreKnownBut D.IsOf s rows news.now.row.now 0 one places.old
        → AreIn D.IsOf s (news.now.row.now ∷ rows) places.new }
{
    for dev in 0..8 {
        see_unless(places, one, dev, observer, news);
    }
}

// The initiator of these ends, whose connection stands after a row, is told of that; the process of the connection, as
// it knows it then.
fn see_initiator<D: Device>(
    places: &mut [Option<D>],
    ends: &Connection,
    observer: &Observer,
    row: &Row,
    shown: &[Event],
) -> ProcId
    requires eight { length places.old ≡ 8 }
    requires device { row.now.dev < 8 }
    requires timely { IsTimely (2 ^ 63) observer.now.view }
    ensures told { (s : ScenarioValue) (rows : List Row) → AreSeen s (row.now ∷ rows) observer.now
        → shown.now ≡ events_shown s rows row.now → connection (row.now ∷ rows) ≡ Some ends.now
        → AreIn D.IsOf s rows places.old
        → AreKnownBut D.IsOf s rows row.now 0 (Some ends.now.initiator) places.new }
    ensures process { (s : ScenarioValue) (rows : List Row) → AreSeen s (row.now ∷ rows) observer.now
        → shown.now ≡ events_shown s rows row.now → connection (row.now ∷ rows) ≡ Some ends.now
        → AreIn D.IsOf s rows places.old → result ≡ process_known s (row.now ∷ rows) }
{
    let first = ends.initiator.get();
    see_in(places, first, observer, row, no_process(), shown);
    process_in(&places[first as usize])
}

// The device in the place of this ID is told of a row of one of these ends, which shows nothing.
fn see_beside<D: Device>(
    places: &mut [Option<D>],
    ends: &Connection,
    dev: Dev,
    observer: &Observer,
    row: &Row,
)
    requires eight { length places.old ≡ 8 }
    requires place { dev < 8 }
    requires device { row.now.dev < 8 }
    requires timely { IsTimely (2 ^ 63) observer.now.view }
    ensures { (s : ScenarioValue) (rows : List Row) → AreSeen s (row.now ∷ rows) observer.now
        → events_shown s rows row.now ≡ [] → IsKept rows row.now ends.now
        → AreKnownBut D.IsOf s rows row.now dev None places.old
        → AreKnownBut D.IsOf s rows row.now (dev + 1) None places.new }
{
    see_kept_in(places, ends, dev, observer, row);
}

// All devices are told of a row of one of these ends, which shows nothing.
fn see_kept<D: Device>(places: &mut [Option<D>], ends: &Connection, observer: &Observer, row: &Row)
    requires eight { length places.old ≡ 8 }
    requires device { row.now.dev < 8 }
    requires timely { IsTimely (2 ^ 63) observer.now.view }
    ensures { (s : ScenarioValue) (rows : List Row) → AreSeen s (row.now ∷ rows) observer.now
        → events_shown s rows row.now ≡ [] → IsKept rows row.now ends.now
        → AreIn D.IsOf s rows places.old → AreIn D.IsOf s (row.now ∷ rows) places.new }
{
    for dev in 0..8 {
        see_beside(places, ends, dev, observer, row);
    }
}

// All devices are told of any row, which shows these events, the newest first. Most rows do not need it.
#[inline(never)]
fn see_any<D: Device>(places: &mut [Option<D>], observer: &Observer, row: &Row, shown: &[Event])
    requires eight { length places.old ≡ 8 }
    requires device { row.now.dev < 8 }
    requires timely { IsTimely (2 ^ 63) observer.now.view }
    ensures { (s : ScenarioValue) (rows : List Row) → AreSeen s (row.now ∷ rows) observer.now
        → shown.now ≡ events_shown s rows row.now
        → AreIn D.IsOf s rows places.old → AreIn D.IsOf s (row.now ∷ rows) places.new }
{
    match observer.view().connection() {
        None => {
            let label = no_process();
            let news = News { row, label, shown };
            see_others(places, None, observer, &news);
        }
        Some(ends) => {
            let label = see_initiator(places, &ends, observer, row, shown);
            let news = News { row, label, shown };
            let first = ends.initiator.get();
            see_others(places, Some(first), observer, &news);
        }
    }
}

/// All devices are told of a row, which shows these events, the newest first: the initiator of the connection that
/// stands after it first, since the others are told what that knows to be its process. Most rows keep a connection, of
/// which their device is an end, and show nothing; of these the other devices learn next to nothing.
pub fn see_all<D: Device>(
    places: &mut [Option<D>],
    kept: &Option<Connection>,
    observer: &Observer,
    row: &Row,
    shown: &[Event],
)
    requires eight { length places.old ≡ 8 }
    requires device { row.now.dev < 8 }
    requires timely { IsTimely (2 ^ 63) observer.now.view }
    ensures { (s : ScenarioValue) (rows : List Row) → AreSeen s (row.now ∷ rows) observer.now
        → shown.now ≡ events_shown s rows row.now → IfSome kept.now (λ n. IsKept rows row.now n)
        → AreIn D.IsOf s rows places.old → AreIn D.IsOf s (row.now ∷ rows) places.new }
{
    match *kept {
        Some(ends) if shown.is_empty() => see_kept(places, &ends, observer, row),
        _ => see_any(places, observer, row, shown),
    }
}
