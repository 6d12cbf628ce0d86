//! What the run's devices rest on.
ghost use Rattle.scenario.specs.Value.{ScenarioValue};
ghost use Rattle.scenario.specs.Writing.{Obeys};
ghost use Rattle.bus_run.specs.Seams.{SeamsHold};

use delivery_laws::the_trace_laws::{
    connections_are_of_the_scenario, ends_know_what_rows_tell, prompt_traces_keep_the_books,
};

/// Every prompt trace of a scenario that obeys the rules of its text ties what devices know to what rows tell.
pub fn prompt_traces_tie_devices()
    ensures { (s : ScenarioValue) → Obeys s → SeamsHold s }
{
    prompt_traces_keep_the_books();
    ends_know_what_rows_tell();
    connections_are_of_the_scenario();
}
