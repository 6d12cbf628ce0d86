//! What a device makes next on the lines, and when, from what it knows: definitions of every reaction, on small
//! records.
//!
//! What any device knows of the bus is a [`Sight`], and the account of REQ and ACK in the present phase, both
//! read off a `BusView`; of itself it knows what it drives and since when. On its way to a connection it goes
//! by what it wants of the bus (`specs/FreeBus.antt` arbitration, `Calling.antt` selection and reselection,
//! `Linking.antt` both by the stage of the bus), in a connection by how bytes cross and by what it has to do in
//! the phase (`Target.antt` and `Initiator.antt`, byte by byte and by pulses, `Ends.antt` either end), and
//! before all that by RST (`Reset.antt`). No scenario and no trace stands here; `due_model` says of a scenario
//! and its rows what each device knows and wants. There is no code but for the records and [`sight`]. Stands on
//! `bus_lines`, `bus_trace` and `bus_base`.
#![tactic(auto)]

mod due;
mod ends;
mod sight;

pub use due::{Due, Myself, Want, due_at};
pub use ends::{Answering, Hand, Offering, Pace};
pub use sight::{Sight, sight_of};

// Handed on to the crates above that list this one and not these.
pub use bus_lines as the_bus_lines;
