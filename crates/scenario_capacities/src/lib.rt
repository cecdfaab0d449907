//! A scenario of at most 8 nodes says the same, and is refused alike, with room for 8 nodes and
//! with room for 16.
//!
//! There is no code here. Each public function promises a law and does nothing: its contract is the
//! law.
#![tactic(auto)]

pub mod laws;
