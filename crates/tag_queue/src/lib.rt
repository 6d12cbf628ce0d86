//! The queue of a logical unit: which commands wait, which one is current, and which initiators the unit holds its
//! commands back for (ANSI X3.131-1994, 6.6.17 and 7.8).
//!
//! A [`Queue`] keeps the commands that arrived, each under a key that stays the same for as long as it is live, the
//! one that is current, and the hold. `specs/Queue.antt` says what each call does to these. Which waiting command may
//! run, and which is chosen, is said by `array_model` (`specs/Order.antt`), on the same entries; it is told once.
//!
//! It stands on `array_model`, whose definitions it meets, and on `slab`. Public contract: after each call the waiting
//! commands in order of arrival, the current one and the hold are those that `specs/Queue.antt` names; a call that is
//! refused changes nothing; and no call but `Queue::new` takes memory.
#![tactic(auto)]

mod arrivals;
mod queue;
mod those;

pub use array_model::{Class, Dev, Entry, Pick, ProcId};
pub use arrivals::Key;
pub use queue::{Full, Queue};
pub use those::Those;
