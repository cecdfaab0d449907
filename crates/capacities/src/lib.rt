//! What the capacity of the types changes nothing of: a scenario of at most 8 nodes has the same
//! run, printed alike, with room for 8 nodes and with room for 16.
//!
//! There is no code here. Each public function promises a law and does nothing: its contract is the
//! law.
#![tactic(auto)]

pub mod laws;
