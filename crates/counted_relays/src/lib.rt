//! What all nodes settle of one member's item where nothing of it was touched: a count of Full
//! members decides, and no path is looked at.
#![tactic(auto)]

pub mod laws;
mod untouched;

pub use untouched::settle_untouched;
