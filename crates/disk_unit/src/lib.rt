//! The logical units of a target (ANSI X3.131-1994, clauses 7 to 9).
//!
//! [`Blocks`] is what a disk keeps its blocks in: [`DenseBlocks`] keeps the bytes of all of them, [`SparseBlocks`]
//! those that were written alone, so that a disk of 4,294,967,296 blocks takes memory for these only. A run takes
//! `SparseBlocks`; `DenseBlocks` serves a caller whose disks are small, and here only tests call it. What the
//! blocks of a disk are is said by `array_model` (`specs/Contents.antt`): a count, a size, and a look-up by number.
//!
//! [`Medium`] is what a unit stands over, and [`DiskMedium`] a disk of any blocks as one. A [`Unit`] keeps the queue,
//! the hold, and for each initiator a sense and an attention.
//!
//! Public contract: the traits `Blocks` and `Medium`, which all kinds meet: a read gives the block of the contents, a
//! write changes that block alone, and a disk or a tape answers as the plain disk array does
//! (`units_execute_as_the_array`); each call of a unit is exact on what it keeps (`specs/Books.antt`), and is the step
//! of its seat of the plain disk array (`units_are_seats`). No call but `new` and `reserve` takes memory.
#![tactic(auto)]

mod blocks;
mod books;
mod command_block;
mod dense;
mod disk;
mod laws;
mod media;
mod sparse;
mod transfer;
mod unit;

pub use blocks::{Blocks, copy_from};
pub use dense::DenseBlocks;
pub use disk::DiskMedium;
pub use laws::{units_are_seats, units_execute_as_the_array, units_keep_what_seats_keep};
pub use media::{Extent, Medium, Plan};
pub use sparse::SparseBlocks;
pub use unit::{Accepted, Reply, Unit, aborted_reply, heeds_attention, planned_reply, refusal};
