//! What a live controller does: the laws of nodes that are told one event after another, over the
//! definitions alone.
//!
//! There is no code here. Each function of [`laws`] promises a law and does nothing: its contract
//! is the law.
#![tactic(auto)]

pub mod laws;
