//! What the frames of a slot tell a node of an item of each node, what it passes on of it, and what
//! it settles.
//!
//! Definitions alone; there is no code here.
#![tactic(auto)]
