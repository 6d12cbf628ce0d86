//! The devices in the places of the bus are asked what they do next.
//!
//! In a connection, while RST is false, a device that is no end of it does nothing but drive RST at the time of its
//! next reset (6.2.2), and the rows of the two ends change nothing of that. So the first row of all such devices is
//! kept ([`Away`]) as long as only the ends make rows and the connection stands, and the ends alone are asked.
ghost use Rattle.std.specs.Prelude.{◌≡◌, ◌<◌, ◌+◌, ◌^◌, ◌∷◌, List, Option, Some, IfSome, length};
ghost use Rattle.bus_trace.specs.declared.Row.{Row};
ghost use Rattle.bus_lines.specs.Timely.{IsTimely};
ghost use Rattle.scenario.specs.Value.{ScenarioValue};
ghost use Rattle.due_model.specs.dialogue_model.specs.Observer.{IsObserverOf};
ghost use Rattle.due_model.specs.Next.{due, least, next};
ghost use Rattle.due_model.specs.Plain.{AreOfDevices};
ghost use Rattle.due_model.specs.PlainDue.{IsLinked};
ghost use Rattle.due_model.specs.RunSteps.{run_state};
ghost use Rattle.bus_laws.specs.scsi_device.specs.Told.{first_fault};
ghost use Rattle.bus_run.specs.Away.{comes_first, sooner_row, is_end_if, due_besides, IsAway, IsAwayIf};
ghost use Rattle.bus_run.specs.Places.{IsIn, AreIn};
ghost use Rattle.bus_run.specs.Seen.{AreSeen};
ghost use Rattle.bus_run.specs.Standing.{IsKept};

use crate::away::Away;
use crate::device::Device;
use crate::standing::is_end;
use bus_base::{Dev, Steps};
use bus_trace::{Connection, Row};
use disk_target::the_scsi_device::devices_know_enough;
use due_model::the_dialogue_model::Observer;
use reaction_model::Due;
use scenario::FaultDef;
use std::sync::ledger::Ledger;

// Whether a row comes before that of another device: at one time the higher ID goes first.
fn comes_first(row: &Row, other: &Row) -> bool
    ensures { result ≡ comes_first row.now other.now }
{
    row.time < other.time || (row.time == other.time && row.dev > other.dev)
}

// The reaction of a device goes before the row of another that comes later.
fn add_due(first: &mut Option<Row>, due: Due, dev: Dev)
    ensures exact { first.new ≡ sooner_row (Some due) dev first.old }
    ensures device { dev < 8 → IfSome first.old (λ row. row.dev < 8) → IfSome first.new (λ row. row.dev < 8) }
{
    let row = Row {
        time: due.time,
        dev,
        kind: due.kind,
    };
    match first {
        Some(other) if !comes_first(&row, other) => {}
        _ => *first = Some(row),
    }
}

// The device in this place is asked what it does next; no device does nothing. `first` is the next row of others.
fn ask_in<D: Device>(
    first: &mut Option<Row>,
    place: &Option<D>,
    dev: Dev,
    observer: &Observer,
    fault: Option<FaultDef>,
)
    requires timely { IsTimely (2 ^ 63) observer.now.view }
    ensures exact { (s : ScenarioValue) (rows : List Row) → AreSeen s rows observer.now
        → IsIn D.IsOf s rows dev place.now → fault ≡ first_fault (run_state s rows).faults
        → first.new ≡ sooner_row (due s rows dev) dev first.old }
    ensures device { dev < 8 → IfSome first.old (λ row. row.dev < 8) → IfSome first.new (λ row. row.dev < 8) }
{
    if let Some(device) = place {
        if let Some(due) = device.due(observer, fault) {
            add_due(first, due, dev);
        }
    }
}

fn is_end_if(connection: &Option<Connection>, dev: Dev) -> bool
    ensures { result ≡ is_end_if connection.now dev }
{
    match connection {
        None => false,
        Some(connection) => is_end(connection, dev),
    }
}

// The device in this place is asked, unless it is an end of this connection.
fn ask_besides<D: Device>(
    first: &mut Option<Row>,
    connection: &Option<Connection>,
    place: &Option<D>,
    dev: Dev,
    observer: &Observer,
    fault: Option<FaultDef>,
)
    requires timely { IsTimely (2 ^ 63) observer.now.view }
    ensures exact { (s : ScenarioValue) (rows : List Row) → AreSeen s rows observer.now
        → IsIn D.IsOf s rows dev place.now → fault ≡ first_fault (run_state s rows).faults
        → first.new ≡ sooner_row (due_besides connection.now (due s rows) dev) dev first.old }
    ensures device { dev < 8 → IfSome first.old (λ row. row.dev < 8) → IfSome first.new (λ row. row.dev < 8) }
{
    if !is_end_if(connection, dev) {
        ask_in(first, place, dev, observer, fault);
    }
}

// The first row of the devices that are no ends of this connection; of all, where there is none.
fn first_besides<D: Device>(
    connection: &Option<Connection>,
    places: &[Option<D>],
    observer: &Observer,
    fault: Option<FaultDef>,
) -> Option<Row>
    requires eight { length places.now ≡ 8 }
    requires timely { IsTimely (2 ^ 63) observer.now.view }
    ensures exact { (s : ScenarioValue) (rows : List Row) → AreSeen s rows observer.now
        → AreIn D.IsOf s rows places.now → fault ≡ first_fault (run_state s rows).faults
        → result ≡ least (due_besides connection.now (due s rows)) 8 }
    ensures device { IfSome result (λ row. row.dev < 8) }
{
    let mut first = None;
    for dev in 0..8 {
        ask_besides(
            &mut first,
            connection,
            &places[dev as usize],
            dev,
            observer,
            fault,
        );
    }
    first
}

// The first row of all devices, by that of those that are no ends: its two ends are asked.
fn first_at_ends<D: Device>(
    first: &mut Option<Row>,
    away: &Away,
    places: &[Option<D>],
    observer: &Observer,
    fault: Option<FaultDef>,
)
    requires eight { length places.now ≡ 8 }
    requires timely { IsTimely (2 ^ 63) observer.now.view }
    ensures exact { (s : ScenarioValue) (rows : List Row) → AreSeen s rows observer.now
        → AreIn D.IsOf s rows places.now → fault ≡ first_fault (run_state s rows).faults → IsAway s rows away.now
        → first.new ≡ next s rows }
    ensures device { IfSome first.new (λ row. row.dev < 8) }
{
    let initiator = away.connection.initiator.get();
    let target = away.connection.target.get();
    *first = away.first;
    ask_in(
        first,
        &places[initiator as usize],
        initiator,
        observer,
        fault,
    );
    ask_in(first, &places[target as usize], target, observer, fault);
}

// The connection that stands while RST is false.
fn linked(observer: &Observer) -> Option<Connection>
    ensures { (rows : List Row) → IsObserverOf rows observer.now → IfSome result (λ n. IsLinked rows n) }
{
    let view = observer.view();
    if view.bus().rst() {
        None
    } else {
        view.connection()
    }
}

// In such a connection, the first row of the devices that are no ends of it.
fn away_of<D: Device>(
    places: &[Option<D>],
    observer: &Observer,
    fault: Option<FaultDef>,
) -> Option<Away>
    requires eight { length places.now ≡ 8 }
    requires timely { IsTimely (2 ^ 63) observer.now.view }
    ensures { (s : ScenarioValue) (rows : List Row) → AreSeen s rows observer.now
        → AreIn D.IsOf s rows places.now → fault ≡ first_fault (run_state s rows).faults → IsAwayIf s rows result }
{
    let ends = linked(observer);
    let connection = ends?;
    let first = first_besides(&ends, places, observer, fault);
    Some(Away { connection, first })
}

// It is found anew where it is not known.
fn find_away<D: Device>(
    away: &mut Option<Away>,
    places: &[Option<D>],
    observer: &Observer,
    fault: Option<FaultDef>,
)
    requires eight { length places.now ≡ 8 }
    requires timely { IsTimely (2 ^ 63) observer.now.view }
    ensures { (s : ScenarioValue) (rows : List Row) → AreSeen s rows observer.now
        → AreIn D.IsOf s rows places.now → fault ≡ first_fault (run_state s rows).faults
        → IsAwayIf s rows away.old → IsAwayIf s rows away.new }
{
    if away.is_none() {
        *away = away_of(places, observer, fault);
    }
}

// The first row of all devices.
fn first_by<D: Device>(
    first: &mut Option<Row>,
    away: &Option<Away>,
    places: &[Option<D>],
    observer: &Observer,
    fault: Option<FaultDef>,
)
    requires eight { length places.now ≡ 8 }
    requires timely { IsTimely (2 ^ 63) observer.now.view }
    ensures exact { (s : ScenarioValue) (rows : List Row) → AreSeen s rows observer.now
        → AreIn D.IsOf s rows places.now → fault ≡ first_fault (run_state s rows).faults → IsAwayIf s rows away.now
        → first.new ≡ next s rows }
    ensures device { IfSome first.new (λ row. row.dev < 8) }
{
    match away {
        None => *first = first_besides(&None, places, observer, fault),
        Some(away) => first_at_ends(first, away, places, observer, fault),
    }
}

// Each place is a step, whether it is asked or known to make no row first.
fn tick_places<L: Ledger>(steps: &mut Steps<L>)
    ensures { steps.new ≡ steps.old + 8 }
{
    for _ in 0..8u8 {
        steps.tick();
    }
}

/// The next row, in the place of the last: the first that any device is due to make, of the highest ID where several
/// are due at one time. What is known of the devices that are no ends of a connection is taken, or found anew. Each of
/// the eight places is a step: its device is asked, or what is due of it is known.
// It stays in its place, since a copy of a row that was just written in parts makes the processor wait.
pub fn next<D: Device, L: Ledger>(
    first: &mut Option<Row>,
    away: &mut Option<Away>,
    places: &[Option<D>],
    observer: &Observer,
    fault: Option<FaultDef>,
    steps: &mut Steps<L>,
)
    requires eight { length places.now ≡ 8 }
    requires timely { IsTimely (2 ^ 63) observer.now.view }
    ensures exact { (s : ScenarioValue) (rows : List Row) → AreSeen s rows observer.now
        → AreIn D.IsOf s rows places.now → fault ≡ first_fault (run_state s rows).faults → IsAwayIf s rows away.old
        → first.new ≡ next s rows }
    ensures away { (s : ScenarioValue) (rows : List Row) → AreSeen s rows observer.now
        → AreIn D.IsOf s rows places.now → fault ≡ first_fault (run_state s rows).faults → IsAwayIf s rows away.old
        → IsAwayIf s rows away.new }
    ensures device { IfSome first.new (λ row. row.dev < 8) }
    ensures steps { steps.new ≡ steps.old + 8 }
{
    tick_places(steps);
    find_away(away, places, observer, fault);
    first_by(first, away, places, observer, fault);
}

/// The last row, which kept this connection: what is due of the devices that are no ends stays known where an end made
/// the row, and the connection and RST stay as they are.
pub fn see_away(away: &mut Option<Away>, kept: &Option<Connection>)
    ensures { (s : ScenarioValue) (rows : List Row) (row : Row) → AreOfDevices (row ∷ rows)
        → IfSome kept.now (λ n. IsKept rows row n)
        → IsAwayIf s rows away.old → IsAwayIf s (row ∷ rows) away.new }
{
    devices_know_enough();
    if kept.is_none() {
        *away = None;
    }
}
