//! What nodes settle of an item where few members' relays of it are odd.
#![tactic(auto)]

mod chains;
mod convicting;
mod item;
pub mod laws;
mod receivers;
mod values;

pub use chains::WORK;
pub use item::{Item, Phase, Relays};
