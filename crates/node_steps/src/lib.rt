//! What a node makes of the frames that it is delivered, slot by slot, and what it sends:
//! definitions and their laws.
#![tactic(auto)]

pub mod laws;
