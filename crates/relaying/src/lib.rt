//! What the frames of a round say of an item of each node, what a node passes on of it, and what it
//! settles: once for claims and rows.
#![tactic(auto)]

mod hearing;
mod item;
mod saying;
mod settling;

pub use hearing::hear_round;
pub use item::RelayedItem;
pub use saying::say_round;
pub use settling::{claims_of, rows_of, settle};
