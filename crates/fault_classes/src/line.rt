use crate::Effect;
use node_grid::NodeSet;

/// One effect on the frames of one sender, on stated links, periods and slots.
#[derive(Drop)]
pub struct FaultLine<const N: usize> {
    /// The sender.
    pub from: u8,
    /// The receivers.
    pub to: NodeSet<N>,
    /// The first period.
    pub first: u32,
    /// The last period.
    pub last: u32,
    /// The slots: bit s stands for slot s.
    pub slots: u16,
    /// What is done to each of these frames.
    pub effect: Effect,
}

/// A node that forgets all that it knows at the start of a period.
#[derive(Clone, Copy)]
pub struct Restart {
    /// The node.
    pub node: u8,
    /// The period.
    pub period: u32,
}
