//! The dialogue of the two ends of a connection, each by what it knows: definitions, on small records.
//!
//! The initiator has a `Speech` (`specs/Exchange.antt`: what it says in MESSAGE OUT, and the place of its next byte),
//! which goes on by what it hears (`Speaking.antt`); the target has a [`Plan`] (`Planning.antt`) and, of the process
//! that it serves, a [`Task`]. `Words.antt` has what each says (6.6); `Arrivals.antt` what becomes of a command as it
//! arrives; `DataRuns.antt` in which runs data are moved; `NextPhase.antt` how each phase is left; `PhaseBytes.antt`
//! and `Sending.antt` the bytes that the target and the initiator give; `Ends.antt` what either has to do in the phase,
//! as the reactions of `reaction_model` take it; `Wants.antt` what an initiator sends next and what a target has ready;
//! `Events.antt` what a target shows. No scenario stands here but for the line of the device itself; `due_model` says
//! of a scenario and its rows what each end knows.
//!
//! `Hearing.antt` says what a row of a trace tells the two ends. [`Observer`] is stepped by each row, whatever the rows
//! are, and tells exactly that, with the view of the bus, the agreement of the connection that stands, and whether a
//! phase has begun in it: one for all devices.
#![tactic(auto)]

mod exchange;
mod observer;

pub use exchange::{
    Arrival, Cause, Hearing, Leaving, Messages, Next, Phase, Plan, Room, Said, Task,
};
pub use observer::Observer;
