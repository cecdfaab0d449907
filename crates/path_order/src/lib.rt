//! The order in which all paths of relaying are gone through, and where each stands in its relays'
//! frames.
#![tactic(auto)]

pub mod laws;
