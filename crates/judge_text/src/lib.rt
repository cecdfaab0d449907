//! The rows that are written of scenarios: what came of a run, of each illness and of the clocks,
//! or why there is nothing to judge.
//!
//! Rows are comma-separated. The first cell says which kind of row it is, and the second the number
//! of the scenario. A cell stays empty where there is nothing to tell. Nothing here takes memory.
#![tactic(auto)]

mod cells;
mod rows;

pub use rows::{write_header, write_judged, write_refused, write_unread};
