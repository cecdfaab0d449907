//! What nodes hear of each other in the slots of one kind of item, all nodes at once.
//!
//! Frames that no line touches are never looked at.
#![tactic(auto)]

mod asking;
mod came;
mod ear;
mod effects;
mod hearing;
mod judging;
pub mod laws;
mod links;
mod phase;
mod sent;
mod table;

pub use came::Came;
pub use ear::{Ear, listen};
pub use links::Links;
pub use phase::Phase;
