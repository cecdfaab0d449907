//! Task graphs: tasks that come after other tasks, in range and without a cycle. Nothing here takes
//! memory.
#![tactic(auto)]

mod cycles;
mod graph;
mod range;
mod task;

pub use graph::{GraphError, TaskGraph};
pub use task::Task;
