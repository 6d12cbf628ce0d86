//! What the rows of a scenario's trace tell: its history, how each command ended, and what each process carried.
//!
//! No device stands here, only rows and the scenario. `specs/BusState.antt` has the bus and the messages on it,
//! `specs/PairAgreements.antt` the agreements that last, `specs/Items.antt` what an initiator sends next,
//! `specs/Links.antt` to which process a connection belongs, `specs/CarriedBytes.antt` the bytes of a process by its
//! pointers, `specs/Story.antt` what is known after some rows and what an event does to it, `specs/HistoryEvents.antt`
//! the events of a row, `specs/TraceHistory.antt` the whole, row by row, `specs/Samples.antt` what faults strike,
//! `specs/Outcomes.antt` how commands ended, `specs/Right.antt` what belongs together, and `specs/Budget.antt` a bound
//! on steps. It stands on `bus_rules`, `scenario` and `array_model`. The code here is the message that a byte makes
//! whole, which devices and transcript read alike, and laws, each the contract of a function that does nothing.
#![tactic(auto)]

mod messages;

ghost use Rattle.std.specs.Prelude.{◌≡◌, List, [], ◌∷◌, ◌++◌};
ghost use Rattle.bus_phases.specs.bus_trace.specs.declared.Row.{Row};
ghost use Rattle.array_model.specs.scenario.specs.Value.{ScenarioValue};
ghost use Rattle.story_model.specs.Story.{empty_story};
ghost use Rattle.story_model.specs.TraceHistory.{story, story_after, row_events, trace_history};

pub use messages::{is_parity_error, is_status_phase, message_in, message_out};

/// The story of one row more is that of the rows before it, and then what this row does.
pub fn stories_go_on()
    ensures start { (s : ScenarioValue) → story s [] ≡ empty_story }
    ensures more { (s : ScenarioValue) (row : Row) (rows : List Row)
        → story s (row ∷ rows) ≡ story_after s (story s rows) row }
{}

/// A row more adds to the history just the events that this row shows after the rows before it.
pub fn rows_tell()
    ensures none { (s : ScenarioValue) → trace_history s [] ≡ [] }
    ensures more { (s : ScenarioValue) (row : Row) (rows : List Row)
        → trace_history s (row ∷ rows) ≡ row_events s (story s rows) row ++ trace_history s rows }
{}

/// What the processes carried is read off scenario and rows alone: of equal rows it is equal.
pub fn rows_carry()
    ensures { (s : ScenarioValue) (rows others : List Row) → rows ≡ others
        → (story s rows).carried ≡ (story s others).carried }
{}

// Handed on to the crates above that list this one and not these.
pub use bus_phases as the_bus_phases;
pub use bus_phases::{the_bus_trace, the_msg_grammar};
