//! In a run, items are passed on where nothing befalls the relay frames that speak of them.
#![tactic(auto)]

pub mod laws;
