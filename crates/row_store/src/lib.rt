//! Rows of a trace, kept in few bytes.
//!
//! A long run has millions of rows, of which each is kept until its report is written. A [`RowStore`] keeps a row in a
//! word of eight bytes: the time since the row before, the device, and the lines or the fault (`specs/Words.antt`).
//! Where the times of two rows are far apart, or fall, a word of the time stands between. [`StoredRows`] goes over
//! them.
//!
//! It stands on `bus_base` and `bus_trace`. Its contract: a store is the list of the rows that were pushed, the oldest
//! first, whatever rows they are; and its iterator is the list of those that are left.
#![tactic(auto)]

mod rows;
mod store;
mod words;

pub use rows::StoredRows;
pub use store::RowStore;
