//! What is found of all nodes in a period.

ghost use Rattle.std.specs.Prelude.{◌<◌, ◌≤◌};

use node_grid::{Class, NodeSet};

/// What is found of the nodes of a cluster in a period.
#[derive(Clone, Copy)]
pub(crate) struct Findings<const N: usize> {
    /// The period.
    pub(crate) period: u32,
    /// How many nodes are in use.
    pub(crate) nodes: u8,
    /// The class of each node.
    pub(crate) classes: [Class; N],
    /// The nodes that are sound.
    pub(crate) sound: NodeSet<N>,
    /// The nodes that aren't nonfaulty.
    pub(crate) faulty: NodeSet<N>,
    /// The nodes a frame of which some line touches.
    pub(crate) touched: NodeSet<N>,
    /// The members.
    pub(crate) members: NodeSet<N>,
    /// The nodes that are charged.
    pub(crate) charged: NodeSet<N>,
    /// The nodes that leave the members after the period.
    pub(crate) left: NodeSet<N>,
    /// The nodes that join them.
    pub(crate) joined: NodeSet<N>,
    ghost early: { period < 1024 },
    ghost few: { nodes ≤ N },
    ghost small: { N ≤ 16 },
}
