//! Scenarios read from JSON: text or a value to the parts of a scenario, which are then judged by
//! its rules.
#![tactic(auto)]

mod accepting;
pub mod laws;
mod parts;

pub use accepting::{from_value, read};
