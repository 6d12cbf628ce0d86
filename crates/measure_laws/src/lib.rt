//! How long a run may be: the measure of its rows, and what follows from it.
//!
//! The measure is a natural number, computed from the scenario and from what is kept of the rows (`specs/`): what is
//! still to come of the scenario's lines (`Future`), what is left of the way to a connection (`Ways`) and of the
//! connection that stands (`Turns`), each by weights that pay for what may follow (`Weights`).
//!
//! It stands on `progress_laws` and `right_laws`, and through them on the laws below: which row may be next at each
//! stage of the bus (`bus_laws`, `link_laws`), what is said, given and kept in a connection (`book_laws`,
//! `trace_laws`), and how many bytes a reply has (`right_laws`). No code stands in it.
//!
//! Its one contract, [`runs_stay_within_budget`]: at its start the measure of a scenario that obeys the rules of
//! scenarios is less than the eighth part of the budget, and with each row of a prompt trace it falls; so a prompt
//! trace has fewer rows than that part and fewer than 2^32 - 1, and the run of each scenario ends.
#![tactic(auto)]

mod laws;

pub use laws::runs_stay_within_budget;
