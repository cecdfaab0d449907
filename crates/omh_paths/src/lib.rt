//! Values in transit between nodes, the majority of them, and the paths on which they are relayed.
//!
//! Nothing here takes memory or refuses anything.
#![tactic(auto)]

mod exact;
pub mod laws;
mod lexicographic;
mod path;
mod voting;
mod wrapped;

pub use exact::Exact;
pub use lexicographic::{count_paths, rank, unrank};
pub use path::Path;
pub use voting::majority;
pub use wrapped::Wrapped;
