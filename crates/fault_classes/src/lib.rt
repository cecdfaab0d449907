//! Fault lines, what they make of a node in each period, and how many faulty nodes a period
//! tolerates.
//!
//! A fault line changes the frames of one sender on stated links, periods and slots. From the lines
//! and the restarts alone each node has a class in each period, after the benign, symmetric and
//! asymmetric faults of Thambidurai and Park (1988).
#![tactic(auto)]

mod blocks;
mod budget;
mod cells;
mod effect;
mod error;
mod index;
pub mod laws;
mod line;
mod plan;
mod rules;
mod size;
mod standing;
mod touches;

pub use budget::Budget;
pub use effect::Effect;
pub use error::PlanError;
pub use line::{FaultLine, Restart};
pub use node_grid::Class;
pub use plan::FaultPlan;
pub use size::PlanSize;
