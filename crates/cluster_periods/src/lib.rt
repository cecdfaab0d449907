//! What a slot and a period make of all nodes of a scenario, and what is shown of a period:
//! definitions and their laws.
//!
//! There is no code here. The nodes' periods are those of the scenario's run, and each function of
//! [`laws`] promises what follows of them.
#![tactic(auto)]

pub mod laws;
