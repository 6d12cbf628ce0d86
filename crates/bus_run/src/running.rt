//! The run.
ghost use Rattle.std.specs.Prelude.{ℕ, ◌≡◌, ◌<◌, ◌≤◌, ◌+◌, ◌*◌, ◌^◌, ◌-◌, ◌∷◌, [], List, IfOk, reverse, length};
ghost use Rattle.bus_trace.specs.declared.Row.{Row};
ghost use Rattle.bus_lines.specs.Timely.{IsTimely};
ghost use Rattle.scenario.specs.Value.{ScenarioValue};
ghost use Rattle.scenario.specs.Writing.{Obeys};
ghost use Rattle.due_model.specs.story_model.specs.TraceHistory.{trace_history};
ghost use Rattle.due_model.specs.dialogue_model.specs.Observer.{IsObserverOf};
ghost use Rattle.due_model.specs.Next.{next, IsPrompt, IsEnded};
ghost use Rattle.due_model.specs.Plain.{AreOfDevices};
ghost use Rattle.due_model.specs.RunSteps.{run_state};
ghost use Rattle.bus_run.specs.Away.{IsAwayIf};
ghost use Rattle.bus_run.specs.Places.{AreIn};
ghost use Rattle.bus_run.specs.Runs.{AreEarly, AreFewer, HasSeenEarly};
ghost use Rattle.bus_run.specs.Seams.{SeamsHold};
ghost use Rattle.bus_run.specs.Seen.{AreSeen};
ghost use Rattle.bus_run.specs.Shown.{shown_events, events_shown};

use crate::asking::{next, see_away};
use crate::away::Away;
use crate::device::Device;
use crate::faults::Faults;
use crate::shown::Shown;
use crate::standing::connection_kept;
use crate::telling::{row_shown, see_all};
use crate::trace::Trace;
use bus_base::{NoMemory, Ns, Steps};
use bus_laws::rows_come_in_time;
use bus_lines::views_are_timely;
use bus_trace::Row;
use disk_target::the_scsi_device::scenarios_fit_the_bus;
use due_model::kept_is_plain;
use due_model::the_dialogue_model::Observer;
use scenario::Scenario;
use std::alloc::Global;
use std::sync::ledger::Ledger;

/// No row comes as late as this, in ns.
const END: Ns = 1 << 62;

/// No run has more rows.
const ROW_LIMIT: u64 = 0xffff_ffff;

// The times of an observer of such rows.
fn observers_are_timely(observer: &Observer)
    ensures { (rows : List Row) → IsObserverOf rows observer.now → AreEarly rows → IsTimely (2 ^ 63) observer.now.view }
{
    views_are_timely();
}

// All devices are told of a row, of which the observer has not been told yet; and the events that it shows. What is due
// of the devices that are no ends of a connection stays known where the row keeps it.
fn tell<D: Device>(
    places: &mut [Option<D>],
    away: &mut Option<Away>,
    observer: &mut Observer,
    row: &Row,
) -> Shown
    requires eight { length places.old ≡ 8 }
    requires device { row.now.dev < 8 }
    requires early { row.now.time < 2 ^ 62 }
    requires seen { HasSeenEarly observer.old }
    ensures observer { (rows : List Row) → IsObserverOf rows observer.old
        → IsObserverOf (row.now ∷ rows) observer.new }
    ensures shown { (s : ScenarioValue) (rows : List Row) → AreSeen s (row.now ∷ rows) observer.new
        → AreIn D.IsOf s rows places.old → shown_events result ≡ events_shown s rows row.now }
    ensures places { (s : ScenarioValue) (rows : List Row) → AreSeen s (row.now ∷ rows) observer.new
        → AreIn D.IsOf s rows places.old → AreIn D.IsOf s (row.now ∷ rows) places.new }
    ensures away { (s : ScenarioValue) (rows : List Row) → AreSeen s (row.now ∷ rows) observer.new
        → IsAwayIf s rows away.old → IsAwayIf s (row.now ∷ rows) away.new }
{
    observer.step(row);
    observers_are_timely(observer);
    let kept = connection_kept(observer, row.dev);
    let shown = row_shown(places, observer, row);
    see_all(places, &kept, observer, row, shown.as_slice());
    see_away(away, &kept);
    shown
}

/// The run of a scenario by these devices, each in the place of its ID, until nothing is due or it has 2^32 - 1 rows.
/// Every place is a step for each row, and once more after the last. Only the rows and the history take memory.
pub fn run<D: Device, L: Ledger>(
    alloc: Global,
    scenario: &Scenario,
    places: &mut [Option<D>],
    steps: &mut Steps<L>,
) -> Result<Trace, NoMemory>
    requires lawful { Obeys scenario.now }
    requires eight { length places.old ≡ 8 }
    // It is the prompt trace of the scenario, whole unless it was cut at that many rows,
    ensures prompt { SeamsHold scenario.now → AreIn D.IsOf scenario.now [] places.old
        → IfOk result (λ trace. IsPrompt scenario.now (reverse trace.rows)) }
    ensures ended { SeamsHold scenario.now → AreIn D.IsOf scenario.now [] places.old
        → IfOk result (λ trace. length trace.rows < 2 ^ 32 - 1
        → IsEnded scenario.now (reverse trace.rows)) }
    // with what it tells,
    ensures history { SeamsHold scenario.now → AreIn D.IsOf scenario.now [] places.old
        → IfOk result (λ trace. reverse trace.history.items
        ≡ trace_history scenario.now (reverse trace.rows)) }
    // of which every device was told.
    ensures places { SeamsHold scenario.now → AreIn D.IsOf scenario.now [] places.old
        → IfOk result (λ trace. AreIn D.IsOf scenario.now (reverse trace.rows) places.new) }
    // Where every prompt trace has fewer rows than this, so many rows are all that are asked for.
    ensures within { (most : ℕ) → SeamsHold scenario.now → AreIn D.IsOf scenario.now [] places.old
        → AreFewer scenario.now most → steps.new ≤ steps.old + 8 * most }
    // Whatever the devices are:
    ensures devices { IfOk result (λ trace. AreOfDevices (reverse trace.rows)) }
    ensures early { IfOk result (λ trace. AreEarly (reverse trace.rows)) }
    ensures steps { steps.new ≤ steps.old + 8 * (2 ^ 32 - 1) }
{
    scenarios_fit_the_bus();
    rows_come_in_time();
    kept_is_plain();
    let mut trace = Trace::new(alloc);
    let mut observer = Observer::new();
    let mut faults = Faults::new(alloc, scenario.faults.as_slice())?;
    let mut away: Option<Away> = None;
    let mut first: Option<Row> = None;
    // Devices need not ever have nothing due.
    for _ in 0..ROW_LIMIT {
        observers_are_timely(&observer);
        next(
            &mut first,
            &mut away,
            places,
            &observer,
            faults.first(),
            steps,
        );
        let Some(row) = &first else {
            return Ok(trace);
        };
        // No row of a prompt trace of so few rows is as late.
        if row.time >= END {
            return Ok(trace);
        }
        let shown = tell(places, &mut away, &mut observer, row);
        faults.see(row.kind);
        trace.add(row, shown)?;
    }
    Ok(trace)
}
