//! Sets of nodes, classes of nodes, rows of accusations, matrices of such rows, and counts by
//! planes of bits.
//!
//! Nodes are numbers below a capacity `N`, which is 8 or 16. Nothing here takes memory or refuses
//! anything.
#![tactic(auto)]

mod capacity;
mod class;
pub mod kind;
mod matrix;
mod node_set;
mod planes;

pub use capacity::{Capacity, Nodes};
pub use class::Class;
pub use matrix::{Matrix, Row};
pub use node_set::{Ids, NodeSet};
pub use planes::Planes;

/// In place of a task, where none is claimed.
pub const NO_CLAIM: u8 = 255;

/// The answer of a call that could not have the memory that it needs.
#[derive(Clone, Copy, Debug, PartialEq, Eq)]
pub struct NoMemory;
