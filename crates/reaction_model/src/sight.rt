// What any device knows of the bus by its lines.

ghost use Rattle.std.specs.Prelude.{ℕ, ◌≡◌, List};
ghost use Rattle.bus_lines.specs.bus_trace.specs.declared.Row.{Row};
ghost use Rattle.bus_lines.specs.bus_trace.specs.View.{AreTimesBefore};
ghost use Rattle.bus_lines.specs.BusView.{IsBusViewOf};
ghost use Rattle.bus_lines.specs.Timely.{IsTimely};
ghost use Rattle.reaction_model.specs.Sight.{sight};

use bus_lines::the_bus_trace::{LineTimes, Lines};
use bus_lines::{BusView, Stage};

/// What any device knows of the bus by its lines.
#[derive(Clone, Copy)]
pub struct Sight {
    /// What is on the bus.
    pub bus: Lines,
    /// Since when its lines stand as they do.
    pub ages: LineTimes,
    /// The stage of the bus.
    pub stage: Stage,
}

/// What any device knows of the bus by this view of it.
pub fn sight_of(view: &BusView) -> Sight
    ensures trace { (rows : List Row) → IsBusViewOf rows view.now → result ≡ sight rows }
    ensures timely { (end : ℕ) → IsTimely end view.now → AreTimesBefore end result.ages }
{
    Sight {
        bus: view.bus(),
        ages: view.lines().times(),
        stage: view.stage(),
    }
}
