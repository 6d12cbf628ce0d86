// What the target of a connection goes by.

use due_model::the_dialogue_model::{Arrival, Plan, Task};
use scenario::TargetDef;

/// What the target of a connection decides by: its line of the scenario, what was said, and the process that it
/// serves.
#[derive(Clone, Copy)]
pub struct Serving {
    /// Its line of the scenario.
    pub def: TargetDef,
    /// What it plans in the connection.
    pub plan: Plan,
    /// The process that it serves.
    pub task: Option<Task>,
    /// What becomes of its command, where this is COMMAND.
    pub arrival: Arrival,
}
