//! Nodes in groups, and what the nodes of a group make of a period together: which channels are
//! due, what the verdicts say, and the state after the period.
//!
//! Nothing here takes memory.
#![tactic(auto)]

mod claim;
mod completing;
mod due;
mod groups;
mod parting;
mod stepping;

pub use claim::own_claim;
pub use completing::complete;
pub use groups::Groups;
pub use parting::part;
pub use stepping::step;
