//! The texts that are printed: what stands for a period, a node, a clock, a frame that is
//! delivered, and a storm's summary.
//!
//! Definitions alone; there is no code here.
#![tactic(auto)]
