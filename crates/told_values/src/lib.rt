//! The data slot of a period, of all nodes at once and over values: what each node has of each
//! other one's values, what is voted on them, who is off, and which frames are bad.
//!
//! No frame is spelt or read but those of which a line replaces bytes. Nothing here takes memory.
#![tactic(auto)]

mod dues;
mod hearing;
pub mod laws;
mod link;
mod listener;
mod notes;
mod places;
mod slot;
mod talk;
mod told;
mod votes;

pub use dues::Dues;
pub use slot::{DataSlot, touched_senders};
