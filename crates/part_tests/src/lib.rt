//! The tests of the parts that the program is made of, below its texts and its words: what no clause says, values from
//! the standard and from an independent simulator, and each public function once on its happy path. Those of whole
//! texts and of the whole program stand in `bus_tests`.
//!
//! A crate that has tests is proved twice, with them and without, and so none of these has any. Each module
//! here names the crate that it tests, and uses of it what is public. `driven_rows` are the rows that
//! several of them are made of.
//!
//! Nothing stands on it. It has no public contract.
#![tactic(auto)]

#[cfg(test)]
mod commands;
#[cfg(test)]
mod disks;
#[cfg(test)]
mod doc_examples;
#[cfg(test)]
mod driven_rows;
#[cfg(test)]
mod dumps;
#[cfg(test)]
mod error_texts;
#[cfg(test)]
mod hands;
#[cfg(test)]
mod host_pointers;
#[cfg(test)]
mod initiators;
#[cfg(test)]
mod io_pieces;
#[cfg(test)]
mod judges;
#[cfg(test)]
mod line_views;
#[cfg(test)]
mod links;
#[cfg(test)]
mod messages;
#[cfg(test)]
mod negotiations;
#[cfg(test)]
mod observers;
#[cfg(test)]
mod queues;
#[cfg(test)]
mod row_stores;
#[cfg(test)]
mod scenario_texts;
#[cfg(test)]
mod tapes;
#[cfg(test)]
mod targets;
#[cfg(test)]
mod units;
#[cfg(test)]
mod words;
