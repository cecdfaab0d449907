//! The agreed states of all nodes, where nodes that keep one state share it, and what a group
//! of nodes believes of a
//! period.
//!
//! All memory is taken by [`SharedStates::open`].
#![tactic(auto)]

mod belief;
mod places;
mod states;

pub use belief::Belief;
pub use states::SharedStates;
