//! What all nodes settle of one member's item, path by path, from one list of what is passed on.
//!
//! Any number of members may pass on anything. What is passed on of an item is laid once for all
//! receivers, path by path: the tree of exponential information gathering (Bar-Noy, Dolev, Dwork
//! and Strong 1987), laid flat. Each receiver settles the longest paths from what it heard in the
//! last round, and then the shorter ones, length by length.
#![tactic(auto)]

mod exchange;
mod laid;
pub mod laws;
mod laying;
mod settling;
mod touched;
mod values;

pub use exchange::Exchange;
pub use laid::Laid;
pub use touched::Touched;
