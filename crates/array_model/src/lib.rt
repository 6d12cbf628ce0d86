//! The plain disk array: what a history of commands does to disks, command by command, on plain lists.
//!
//! It is what a run of the bus is measured by: no bus, no bytes that interleave, no device. `specs/Units.antt`
//! has its state, `specs/Execution.antt` what one command does at one unit, `specs/Order.antt` which waiting
//! command may run, on what a queue keeps of it (`Entry`), `specs/Steps.antt` what each event of a history does,
//! `specs/ArrayHistory.antt` a whole history, and `specs/Seats.antt` what an event leaves of one unit, there or
//! not. A unit is a disk or a tape: `specs/Reels.antt` and `specs/TapeExecution.antt` have what a tape's commands do.
//! It stands on `scenario`, `cdb_codec` and `bus_base`. There is no code here but for `Entry`, [`tag_number`],
//! [`same_id`] and the types of a [`Walk`], and for laws: each is the contract of a function that does nothing.
#![tactic(auto)]

mod entries;
mod plain;
mod seats;
mod walk;

ghost use Rattle.std.specs.Prelude.{◌≡◌, List, [], ◌∷◌, Some, None};
ghost use Rattle.bus_base.specs.declared.Event.{Event};
ghost use Rattle.scenario.specs.Value.{ScenarioValue};
ghost use Rattle.array_model.specs.Units.{Array, starting_array, settled_array};
ghost use Rattle.array_model.specs.Steps.{step};
ghost use Rattle.array_model.specs.ArrayHistory.{array_after};

pub use bus_base::{Class, Dev, Pick, ProcId};
pub use entries::{Entry, same_id, tag_number};
pub use plain::contents_are_plain_blocks;
pub use seats::{
    aborts_change_their_seat, arrays_are_sound, other_seats_stay, processes_change_their_seat,
    replies_are_of_those_that_run, units_keep_their_kind,
};
pub use walk::{Stop, Walk};

/// A history of one event more is played as the history, and then the step of that event; and where a step was not
/// allowed no later one is.
pub fn histories_go_on()
    ensures start { (s : ScenarioValue) → array_after s [] ≡ Some (settled_array (starting_array s)) }
    ensures more { (s : ScenarioValue) (event : Event) (history : List Event) (a : Array)
        → array_after s history ≡ Some a → array_after s (event ∷ history) ≡ step s event a }
    ensures stopped { (s : ScenarioValue) (event : Event) (history : List Event) → array_after s history ≡ None
        → array_after s (event ∷ history) ≡ None }
{}
