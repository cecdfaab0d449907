//! A cluster whose types have places for further nodes runs as it did without them.
//!
//! There is no code here. Each public function promises a law and does nothing: its contract is the
//! law.
#![tactic(auto)]

pub mod laws;
