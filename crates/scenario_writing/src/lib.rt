//! Scenarios as JSON values, which are read back as the same parts.
#![tactic(auto)]

mod faults;
mod lists;
mod whole;

pub use whole::value_of;
