//! Laws of prompt traces: a trace, its history, the outcomes and the blocks belong together, and its fault rows are
//! those of the scenario.
//!
//! `trace_laws` shows that what crosses is what was to be said, that the plain disk array permits the history, and
//! where the pointers stand; here it is shown of the bytes themselves: each process that ran and ended carried its
//! command block, the bytes that it moves, and its status (`prompt_traces_are_right`).
//!
//! A fault strikes a sample: a byte that crossed, at its receiver, or the IDs, at a called device. Which samples the
//! rows call for is said by the rows alone; which of them the faults strike is said of all samples at once, in order of
//! time. A prompt trace makes just those fault rows, one by one, as the samples come
//! (`fault_rows_are_of_the_scenario`, `specs/SoFar.antt`, `InTurn.antt`, `Awaited.antt`). There is no code here but for
//! laws: each is the contract of a function that does nothing.
#![tactic(auto)]

mod fault_rows;
mod laws;

pub use fault_rows::fault_rows_are_of_the_scenario;
pub use laws::prompt_traces_are_right;
