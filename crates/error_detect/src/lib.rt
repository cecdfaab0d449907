//! What a node finds of each other node's frames in a slot.
//!
//! Memory is taken when a watch is opened, and never after.
#![tactic(auto)]

mod arrival;
mod finding;
pub mod laws;
mod room;
mod rooms;
mod watch;

pub use finding::Finding;
pub use rooms::Rooms;
pub use watch::SlotWatch;
