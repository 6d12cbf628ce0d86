//! A device of the bus, as a run has it.
ghost use Rattle.std.specs.Prelude.{ℕ, ◌≡◌, ◌<◌, ◌≢◌, ◌^◌, ◌∷◌, [], true, false, is_some, List, Some, None};
ghost use Rattle.bus_trace.specs.declared.Row.{Row};
ghost use Rattle.bus_trace.specs.declared.connection.Connection.{Connection};
ghost use Rattle.bus_trace.specs.Terms.{connection};
ghost use Rattle.bus_lines.specs.Timely.{IsTimely};
ghost use Rattle.scenario.specs.Value.{ScenarioValue};
ghost use Rattle.due_model.specs.Next.{due};
ghost use Rattle.due_model.specs.RunSteps.{run_state};
ghost use Rattle.due_model.specs.Telling.{target_events, initiator_events};
ghost use Rattle.bus_laws.specs.scsi_device.specs.Told.{first_fault};
ghost use Rattle.bus_run.specs.Label.{process_known};
ghost use Rattle.bus_run.specs.Seams.{seams};
ghost use Rattle.bus_run.specs.Seen.{AreSeen};
ghost use Rattle.bus_run.specs.Shown.{shown_events, reading, events_shown, is_left};
ghost use Rattle.bus_run.specs.Standing.{IsKept, is_end};

use crate::shown::Shown;
use bus_base::{Event, ProcId};
use bus_trace::Row;
use due_model::the_dialogue_model::Observer;
use reaction_model::Due;
use scenario::FaultDef;

/// A device of the bus. `IsOf s rows dev device` says that it is the device `dev` of the scenario `s`, which was told
/// of these rows. No call takes memory.
pub trait Device: Drop {
    ghost IsOf: { ScenarioValue → List Row → ℕ → Self → Type 0 };

    /// What it does next, and when, in ns, by the first fault that has not struck yet: exactly what is due of it.
    fn due(&self, observer: &Observer, fault: Option<FaultDef>) -> Option<Due>
        requires timely { IsTimely (2 ^ 63) observer.now.view }
        ensures { (s : ScenarioValue) (rows : List Row) (dev : ℕ) → AreSeen s rows observer.now
            → IsOf s rows dev self.now → fault ≡ first_fault (run_state s rows).faults → result ≡ due s rows dev };

    /// The events that it shows with the last row, which the observer has seen and it has not: as a target with the row
    /// that leaves a phase or the bus, as an initiator with any other row of the connection; RST is and was false.
    fn shown(&self, observer: &Observer) -> Shown
        ensures target { (s : ScenarioValue) (rows : List Row) (row : Row) (dev : ℕ) (n : Connection)
            → AreSeen s (row ∷ rows) observer.now → IsOf s rows dev self.now
            → (reading s rows row).change.before.rst ≡ false
            → (reading s rows row).change.after.rst ≡ false
            → connection rows ≡ Some n → n.target ≡ dev
            → is_left (reading s rows row).change (reading s rows row).next ≡ true
            → shown_events result ≡ target_events s (run_state s rows) n (is_some (reading s rows row).next) }
        ensures initiator { (s : ScenarioValue) (rows : List Row) (row : Row) (dev : ℕ) (n : Connection)
            → AreSeen s (row ∷ rows) observer.now → IsOf s rows dev self.now
            → (reading s rows row).change.before.rst ≡ false
            → (reading s rows row).change.after.rst ≡ false
            → connection rows ≡ Some n → n.initiator ≡ dev
            → is_left (reading s rows row).change (reading s rows row).next ≡ false
            → shown_events result
            ≡ initiator_events (run_state s rows) (run_state s rows).story.link (reading s rows row) };

    /// The process of the connection of which it is the initiator; its command is 0 where it knows of none there.
    fn process(&self) -> ProcId
        ensures { (s : ScenarioValue) (rows : List Row) (dev : ℕ) (n : Connection) → seams s rows ≡ true
            → IsOf s rows dev self.now → connection rows ≡ Some n → n.initiator ≡ dev → result ≡ process_known s rows };

    /// One more row, of any device, which shows these events, the newest first; the observer has seen it. Where it
    /// begins a connection, `label` is the process of that, as the initiator of the connection knows it; to this
    /// initiator itself it says nothing.
    fn see(&mut self, observer: &Observer, row: &Row, label: ProcId, shown: &[Event])
        requires device { row.now.dev < 8 }
        requires timely { IsTimely (2 ^ 63) observer.now.view }
        ensures { (s : ScenarioValue) (rows : List Row) (dev : ℕ) → AreSeen s (row.now ∷ rows) observer.now
            → shown.now ≡ events_shown s rows row.now
            → (connection rows ≡ None → (n : Connection) → connection (row.now ∷ rows) ≡ Some n → n.initiator ≢ dev
            → label ≡ process_known s (row.now ∷ rows))
            → IsOf s rows dev self.old → IsOf s (row.now ∷ rows) dev self.new };

    /// One more row of an end of a connection, which shows nothing; it is no end of that itself. The connection stood
    /// before the row and stands after it, RST was and is false, and the observer has seen it.
    fn see_in_others(&mut self, observer: &Observer, row: &Row)
        requires device { row.now.dev < 8 }
        requires timely { IsTimely (2 ^ 63) observer.now.view }
        ensures { (s : ScenarioValue) (rows : List Row) (dev : ℕ) (n : Connection)
            → AreSeen s (row.now ∷ rows) observer.now → events_shown s rows row.now ≡ []
            → IsKept rows row.now n → is_end n dev ≡ false
            → IsOf s rows dev self.old → IsOf s (row.now ∷ rows) dev self.new };
}
