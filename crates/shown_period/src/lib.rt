//! What is shown of a period of all nodes that was worked out for all of them together: the head of
//! its record, and by node how each went through it, with what nodes believe once for each group of
//! nodes that believe the same.
//!
//! All memory is taken when it is opened.
#![tactic(auto)]

mod clocks;
mod head;
pub mod laws;
mod made;
mod shown;

pub use head::Head;
pub use made::Made;
pub use shown::Shown;
