//! What each device knows after some rows of a scenario, and so what it is due to do next, and when.
//!
//! No device stands here, only rows and the scenario: `due s rows dev` is the row that a device makes next and its
//! time, `next` the first of eight, and a trace whose rows are each the next one is prompt, so that the scenario
//! determines it. `specs/RunState.antt` has all that this depends on, kept from row to row by `specs/RunSteps.antt`
//! (with its parts in `Own` and `LastingState`). From it `specs/Wants.antt` takes who wants the bus, `specs/Tasks.antt`
//! what a target knows of the process that it serves, and `specs/Sights.antt` all else that a device knows: these
//! records are what the reactions of `reaction_model` and the dialogue of `dialogue_model` take. `specs/Connected.antt`
//! and `specs/Due.antt` put the reactions together; `specs/Next.antt` and `specs/Run.antt` have traces and runs.
//! `specs/Faithful.antt`, `Telling.antt`, `Allowed.antt` and `Sound.antt` state what ties the knowledge of devices to
//! what rows tell, and `specs/Goals.antt` what is still to be proved of traces. docs/behaviour.md says each reaction in
//! words. There is no code here but for laws: each is the contract of a function that does nothing.
#![tactic(auto)]

mod laws;

pub use laws::{
    devices_know_themselves, end_reactions_are_due, hearings_are_plain, kept_is_plain,
    link_reactions_are_due, next_is_least, runs_are_prompt, still_rows_keep_wishes,
    traces_are_determined, wants_are_items,
};

// Handed on to the crates above that list this one and not these.
pub use bus_rules as the_bus_rules;
pub use dialogue_model as the_dialogue_model;
