//! What a receiver has of an item from a frame that a fault line touches: once for claims and rows.
//!
//! A relay frame is never laid out. Where a line replaces some of its bytes, the header is spelt by
//! itself, and each entry that the bytes hit. Nothing here takes memory.
#![tactic(auto)]

mod bytes;
mod due;
mod entries;
mod first;
mod item;
pub mod laws;
mod patch;
mod relay;
mod told;

pub use entries::Entries;
pub use first::first_frame;
pub use item::{First, Item};
pub use relay::{cold_relay_frame, entry, relay_frame};
pub use told::Told;
