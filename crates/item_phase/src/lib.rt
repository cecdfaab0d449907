//! A phase of all nodes: from what each says of itself to what each settles of every member, whom
//! it convicts, and what it notes of frames.
//!
//! All memory of a phase is taken when it is opened.
#![tactic(auto)]

mod agreeing;
mod asking;
mod item_phase;
pub mod laws;
mod listening;
mod noting;
mod told;
mod values;

pub use item_phase::ItemPhase;
