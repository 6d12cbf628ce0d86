//! What every device of the bus knows, initiator or target (ANSI X3.131-1994, 6).
//!
//! A device is told of every row ([`Observer`](dialogue_model::Observer)); `specs/Told.antt` says what it is told then.
//! Beside that it knows its own rows and resets ([`Itself`]), and the first fault that has not struck yet ([`flip`],
//! [`sampled`]); in a connection it knows how bytes cross ([`pace`]). `initiator` and `disk_target` stand on it.
//!
//! Public contract: after any rows, lawful or not, an `Itself` that was told of each of them knows of its own rows
//! what `due_model` says (`IsItselfOf`), and each function is exactly the definition of the same name. No call but
//! `Itself::new` takes memory.
#![tactic(auto)]

mod acts;
mod faults;
mod itself;
mod laws;
mod own_times;
mod resets;
mod seen;
mod transfer;

pub use acts::Act;
pub use faults::{flip, sampled};
pub use itself::Itself;
pub use laws::{devices_know_enough, scenarios_fit_the_bus};
pub use own_times::OwnTimes;
pub use resets::{next_reset, sooner_time};
pub use seen::lines_seen;
pub use transfer::{agreement_answer, is_pulsed, pace};
