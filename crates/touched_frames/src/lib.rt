//! What a receiver has of a frame that a fault line touches.
//!
//! Nothing here takes memory. A frame's bytes are spelt only where a line replaces some of them.
#![tactic(auto)]

mod arrived;
mod effect;
pub mod laws;

pub use arrived::Arrived;
pub use effect::{arrives, unread_kind};
