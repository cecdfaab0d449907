//! The priority-list scheduler: which copies of tasks run, pass and fail, by claims that are
//! settled.
//!
//! Tasks stand in the order of their priority. Nothing here takes memory.
#![tactic(auto)]

mod copies;
mod period;
mod schedule;

pub use copies::{Copies, CopyState};
pub use schedule::Verdict;
