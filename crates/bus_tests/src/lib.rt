//! The tests of whole texts, of the initiators of whole traces, and of the whole program: what no clause says, and
//! whole rows from an independent simulator. Those of the parts below stand in `part_tests`.
//!
//! A crate that has tests is proved twice, with them and without, and so no other but these two has any. Each module
//! here names the crate that it tests, and uses of it what is public.
//!
//! It stands on all libraries of this repository, and nothing stands on it. It has no public contract.
#![tactic(auto)]

#[cfg(test)]
mod doc_examples;
#[cfg(test)]
mod hosts;
#[cfg(test)]
mod trace_texts;
#[cfg(test)]
mod transcripts;
#[cfg(test)]
mod whole_program;
