//! The sync slot of a period, for all nodes at once: who hears whose agreed state, who takes
//! which, and what is noted.
//!
//! Nothing here takes memory.
#![tactic(auto)]

mod adopting;
mod hearing;
mod sending;
mod slot;

pub use slot::SyncSlot;
