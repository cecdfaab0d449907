//! The agreement rule OMH, and its laws.
#![tactic(auto)]

pub mod laws;
mod station;
mod table;

pub use station::outside;
pub use table::Table;
