//! What a run made: its rows, its end, its history, the outcomes of its commands, and the disks and tapes at its end.
//!
//! [`Run`] and [`Outcome`] stand here alone, below the devices, so that the texts of a run need not stand on those that
//! made it. It stands on `bus_base`, `bus_trace`, `row_store`, `cdb_codec` for the sense of a command, `disk_unit` for
//! the blocks of a disk, and `tape_unit` for a tape.
//!
//! Public contract: a run is a record of lists (`specs/Value.antt`), each disk and each tape of it the contents that
//! the plain disk array has for one.
#![tactic(auto)]

mod made;
mod outcome;

pub use bus_base::{Event, Ns, Octets};
pub use bus_trace::Row;
pub use disk_unit::SparseBlocks;
pub use made::Run;
pub use outcome::Outcome;
pub use row_store::RowStore;
pub use tape_unit::TapeMedium;
