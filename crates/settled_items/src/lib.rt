//! What all nodes settle of one member's item, and who convicts the member.
//!
//! Where few members' relays of the item are odd, paths of odd members alone are looked at; where
//! many are, Full members are counted if nothing of it was touched, and else all paths are looked
//! at. A node with members of its own settles by the definition's recursion.
#![tactic(auto)]

pub mod laws;
mod listener;
mod receivers;
mod relayed;
mod relays;
mod room;
mod settling;
mod values;

pub use listener::{Hearing, Listener, TERMS};
pub use relayed::{Relayed, has_few_odd};
pub use settling::Settling;
