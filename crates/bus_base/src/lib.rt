//! The lowest crate: how bytes come in and go out, the names of devices and processes, the
//! events of a history, and a counter of device steps. It stands on std alone.
//!
//! A `Source` hands out bytes and a `Sink` takes them, a piece at a time, and either may fail;
//! each failure raises its count of faults. `MemSource` and `MemSink` are held in memory, and
//! contracts see them whole; `StdSource` and `StdSink` are the trusted edge over std's readers
//! and writers, of whose bytes no contract tells.
//!
//! The public contract: `read_all` returns exactly the bytes that a source had left, or says
//! that there are more than a limit; `write_all` adds exactly the piece to what a sink holds;
//! and either reports a fault only where the count of faults rose.
#![tactic(auto)]

mod counter;
mod devices;
mod events;
mod failures;
mod input;
mod listing;
mod memory;
mod output;
mod reading;
mod standard;
mod writing;

pub use counter::Steps;
pub use devices::{Dev, Ns, ProcId};
pub use events::{AbortKind, Class, Event, Pick};
pub use failures::{Failed, NoMemory};
pub use input::Source;
pub use listing::Octets;
pub use memory::{MemSink, MemSource};
pub use output::Sink;
pub use reading::{BUFFER, Cut, ReadEnd, read_all, read_piece};
pub use standard::{StdSink, StdSource};
pub use writing::write_all;
