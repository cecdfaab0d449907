//! Storms: from a number a large valid scenario, in each of whose periods the cluster tolerates its
//! faults.
#![tactic(auto)]

mod cluster;
mod drawing;
pub mod laws;
mod lines;
mod making;
mod spell;

pub use making::make;
pub use spell::Spell;
