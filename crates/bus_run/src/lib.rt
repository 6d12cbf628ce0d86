//! The run of any devices that do what is due.
//!
//! A [`Device`] is told of every row, its own included, and says what it makes next, and when. For each row of a trace
//! [`run`] makes the least of what is due of the eight places of the bus, of the highest ID where several are due at
//! one time, and tells all devices of it, with the events that the row shows. In a connection it asks only the two ends
//! as long as only they make rows: what is due of the others stays the same (`specs/Away.antt`). Nothing else decides:
//! there are no rounds, no clock and no moments that were set. What a device knows is its own affair, and stands here
//! as a relation between the device and the rows that it was told of (`IsOf`); `specs/Seams.antt` says what it may rest
//! on beside. Stands on `scsi_device`, `dialogue_model`, `due_model` and `bus_laws`.
//!
//! Public contract: what [`run`] returns is the prompt trace of the scenario, after which nothing is due where it has
//! fewer than 2^32 - 1 rows, with the history that its rows tell, where every prompt trace of the scenario ties what
//! devices know to what rows tell (`SeamsHold`); and then it takes eight steps for each of as many rows as a prompt
//! trace can have, at most. Without that, each row is of one of the eight devices, and the steps are bounded.
#![tactic(auto)]

mod asking;
mod away;
mod device;
mod faults;
mod laws;
mod places;
mod running;
mod shown;
mod standing;
mod telling;
mod trace;

pub use device::Device;
pub use faults::Faults;
pub use laws::rows_tie_devices;
pub use running::run;
pub use shown::Shown;
pub use trace::Trace;
