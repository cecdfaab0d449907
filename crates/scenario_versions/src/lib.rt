//! What a version of the formats has words for.
//!
//! Definitions alone; there is no code here.
#![tactic(auto)]
