//! The data slot of a period, as one node goes through it: which channels are due, its own values
//! of them, the votes, and which other nodes told a value too far from a vote.
#![tactic(auto)]

mod due;
mod own;
mod told;
mod vote;

pub use due::due_channels;
pub use own::{KeptValues, own_in, own_values, put_values};
pub use told::own_by_channel;
pub use vote::{DataSlot, Voted, is_off, vote_due};
