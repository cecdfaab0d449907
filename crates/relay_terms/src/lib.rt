//! What relays pass on, as it stands in their frames, and the majority of it in one pass.
#![tactic(auto)]

mod count;
mod items;
mod settling;
mod tally;
mod term;

pub use count::Count;
pub use settling::settled_from;
pub use tally::Tally;
pub use term::{Item, Term};
