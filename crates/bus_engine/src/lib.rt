//! The run of a scenario, row by row.
//!
//! [`run`] makes the devices of a scenario, each initiator a [`Host`](initiator::Host) and each target a
//! [`Target`](disk_target::Target), lets them do what is due ([`bus_run::run`]) until nothing is, and asks them then
//! how the commands ended and what the disks and the tapes hold. It stands on `bus_run`, `initiator`, `disk_target` and
//! `run_record`, and on the laws of prompt traces: that they are right, and that they stay within the budget of
//! `story_model`, so that nothing but want of memory keeps a run from its end.
//!
//! `Member` puts the two kinds of device into one list, and meets [`Device`](bus_run::Device); `member_places` makes
//! those of a scenario, each in the place of its ID. A `Member` is what it holds (`specs/Members.antt`, `IsMember`):
//! all clauses of `Device` for each of its kinds.
#![tactic(auto)]

mod finishing;
mod laws;
mod member;
mod places;
mod running;

pub use bus_base::{Dev, Event, NoMemory, Ns, Octets, Steps};
pub use bus_trace::{Kind, Lines, Row};
pub use member::{Member, runs_end};
pub use places::member_places;
pub use run_record::{Outcome, Run, SparseBlocks, TapeMedium};
pub use running::run;
pub use scenario::Scenario;
