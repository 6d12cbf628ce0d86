//! The eight places of the bus, each for the device of its ID.
ghost use Rattle.std.specs.Prelude.{ℕ, ◌≡◌, ◌≢◌, ◌<◌, ◌^◌, ◌∷◌, [], true, false, is_some, List, Some, None, length, slice_index_or};
ghost use Rattle.bus_trace.specs.declared.Row.{Row};
ghost use Rattle.bus_trace.specs.declared.connection.Connection.{Connection};
ghost use Rattle.bus_trace.specs.Terms.{connection};
ghost use Rattle.bus_lines.specs.Timely.{IsTimely};
ghost use Rattle.scenario.specs.Value.{ScenarioValue};
ghost use Rattle.due_model.specs.RunSteps.{run_state};
ghost use Rattle.due_model.specs.Telling.{target_events, initiator_events, id_or_none};
ghost use Rattle.bus_run.specs.Label.{process_known};
ghost use Rattle.bus_run.specs.Places.{IsIn};
ghost use Rattle.bus_run.specs.Seams.{seams};
ghost use Rattle.bus_run.specs.Seen.{AreSeen};
ghost use Rattle.bus_run.specs.Shown.{shown_events, reading, events_shown, is_left};
ghost use Rattle.bus_run.specs.Standing.{IsKept};

use crate::device::Device;
use crate::laws::rows_tie_devices;
use crate::shown::Shown;
use crate::standing::is_end;
use bus_base::{Dev, Event, ProcId};
use bus_trace::{Connection, Row};
use due_model::the_dialogue_model::Observer;

/// What the device in this place shows with the last row, which the observer has seen and it has not. No device shows
/// nothing.
pub fn shown_in<D: Device>(place: &Option<D>, observer: &Observer) -> Shown
    ensures target { (s : ScenarioValue) (rows : List Row) (row : Row) (n : Connection)
        → AreSeen s (row ∷ rows) observer.now → IsIn D.IsOf s rows n.target place.now
        → (reading s rows row).change.before.rst ≡ false
        → (reading s rows row).change.after.rst ≡ false → connection rows ≡ Some n
        → is_left (reading s rows row).change (reading s rows row).next ≡ true
        → shown_events result ≡ target_events s (run_state s rows) n (is_some (reading s rows row).next) }
    ensures initiator { (s : ScenarioValue) (rows : List Row) (row : Row) (n : Connection)
        → AreSeen s (row ∷ rows) observer.now → IsIn D.IsOf s rows n.initiator place.now
        → (reading s rows row).change.before.rst ≡ false
        → (reading s rows row).change.after.rst ≡ false → connection rows ≡ Some n
        → is_left (reading s rows row).change (reading s rows row).next ≡ false
        → shown_events result
        ≡ initiator_events (run_state s rows) (run_state s rows).story.link (reading s rows row) }
{
    rows_tie_devices();
    match place {
        None => Shown::Nothing,
        Some(device) => device.shown(observer),
    }
}

/// The process of a connection of which nothing is known.
pub fn no_process() -> ProcId
    ensures { result ≡ id_or_none None }
{
    ProcId {
        command: 0,
        sense: false,
    }
}

/// The process of the connection of which the device in this place is the initiator.
pub fn process_in<D: Device>(place: &Option<D>) -> ProcId
    ensures { (s : ScenarioValue) (rows : List Row) (n : Connection) → seams s rows ≡ true
        → IsIn D.IsOf s rows n.initiator place.now → connection rows ≡ Some n → result ≡ process_known s rows }
{
    rows_tie_devices();
    match place {
        None => no_process(),
        Some(device) => device.process(),
    }
}

// The device in a place is told of a row.
fn see_place<D: Device>(
    place: &mut Option<D>,
    observer: &Observer,
    row: &Row,
    label: ProcId,
    shown: &[Event],
)
    requires device { row.now.dev < 8 }
    requires timely { IsTimely (2 ^ 63) observer.now.view }
    ensures { (s : ScenarioValue) (rows : List Row) (dev : ℕ) → AreSeen s (row.now ∷ rows) observer.now
        → shown.now ≡ events_shown s rows row.now
        → (connection rows ≡ None → (n : Connection) → connection (row.now ∷ rows) ≡ Some n → n.initiator ≢ dev
        → label ≡ process_known s (row.now ∷ rows))
        → IsIn D.IsOf s rows dev place.old → IsIn D.IsOf s (row.now ∷ rows) dev place.new }
{
    if let Some(device) = place {
        device.see(observer, row, label, shown);
    }
}

/// The device in the place of this ID is told of a row, and no other.
pub fn see_in<D: Device>(
    places: &mut [Option<D>],
    dev: Dev,
    observer: &Observer,
    row: &Row,
    label: ProcId,
    shown: &[Event],
)
    requires eight { length places.old ≡ 8 }
    requires place { dev < 8 }
    requires device { row.now.dev < 8 }
    requires timely { IsTimely (2 ^ 63) observer.now.view }
    ensures seen { (s : ScenarioValue) (rows : List Row) → AreSeen s (row.now ∷ rows) observer.now
        → shown.now ≡ events_shown s rows row.now
        → (connection rows ≡ None → (n : Connection) → connection (row.now ∷ rows) ≡ Some n → n.initiator ≢ dev
        → label ≡ process_known s (row.now ∷ rows))
        → IsIn D.IsOf s rows dev (slice_index_or places.old dev None)
        → IsIn D.IsOf s (row.now ∷ rows) dev (slice_index_or places.new dev None) }
    ensures others { (other : ℕ) → other ≢ dev
        → slice_index_or places.new other None ≡ slice_index_or places.old other None }
{
    see_place(&mut places[dev as usize], observer, row, label, shown);
}

// The device in the place of this ID is told of a row of one of these ends, which shows nothing. To an end itself the
// process of the connection is no news.
fn see_place_kept<D: Device>(
    place: &mut Option<D>,
    ends: &Connection,
    dev: Dev,
    observer: &Observer,
    row: &Row,
)
    requires device { row.now.dev < 8 }
    requires timely { IsTimely (2 ^ 63) observer.now.view }
    ensures { (s : ScenarioValue) (rows : List Row) → AreSeen s (row.now ∷ rows) observer.now
        → events_shown s rows row.now ≡ [] → IsKept rows row.now ends.now
        → IsIn D.IsOf s rows dev place.old → IsIn D.IsOf s (row.now ∷ rows) dev place.new }
{
    if let Some(device) = place {
        if is_end(ends, dev) {
            device.see(observer, row, no_process(), &[]);
        } else {
            device.see_in_others(observer, row);
        }
    }
}

/// The device in the place of this ID is told of a row of one of these ends, which keeps their connection and shows
/// nothing, and no other device.
pub fn see_kept_in<D: Device>(
    places: &mut [Option<D>],
    ends: &Connection,
    dev: Dev,
    observer: &Observer,
    row: &Row,
)
    requires eight { length places.old ≡ 8 }
    requires place { dev < 8 }
    requires device { row.now.dev < 8 }
    requires timely { IsTimely (2 ^ 63) observer.now.view }
    ensures seen { (s : ScenarioValue) (rows : List Row) → AreSeen s (row.now ∷ rows) observer.now
        → events_shown s rows row.now ≡ [] → IsKept rows row.now ends.now
        → IsIn D.IsOf s rows dev (slice_index_or places.old dev None)
        → IsIn D.IsOf s (row.now ∷ rows) dev (slice_index_or places.new dev None) }
    ensures others { (other : ℕ) → other ≢ dev
        → slice_index_or places.new other None ≡ slice_index_or places.old other None }
{
    see_place_kept(&mut places[dev as usize], ends, dev, observer, row);
}
