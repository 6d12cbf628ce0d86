// What a device in a connection sees of the lines.
ghost use Rattle.std.specs.Prelude.{ℕ, ◌≡◌, List};
ghost use Rattle.bus_trace.specs.declared.Row.{Row};
ghost use Rattle.bus_trace.specs.View.{AreTimesBefore};
ghost use Rattle.bus_lines.specs.BusView.{IsBusViewOf};
ghost use Rattle.bus_lines.specs.Timely.{IsTimely};
ghost use Rattle.reaction_model.specs.Sight.{sight};
ghost use Rattle.scsi_device.specs.Told.{at_no_stage};

use bus_lines::{BusView, Stage};
use reaction_model::Sight;

/// What a device in a connection sees of the lines. It goes by these alone, so that the stage is not asked (6.1.5).
pub fn lines_seen(view: &BusView) -> Sight
    ensures trace { (rows : List Row) → IsBusViewOf rows view.now → result ≡ at_no_stage (sight rows) }
    ensures timely { (end : ℕ) → IsTimely end view.now → AreTimesBefore end result.ages }
{
    Sight {
        bus: view.bus(),
        ages: view.lines().times(),
        stage: Stage::OnFreeBus(0),
    }
}
