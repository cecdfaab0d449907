ghost use Rattle.std.specs.Prelude.{◌≡◌, IfOk, length};
ghost use Rattle.fault_classes.specs.Blocks.{AreBlocks, is_in};
ghost use Rattle.fault_classes.specs.Cells.{IsShape};

use crate::cells::Shape;
use node_grid::NodeSet;
use std::alloc::{AllocError, Global};

/// Which block of cells each period and sender has.
#[derive(Drop)]
pub struct Blocks {
    /// The block of each sender of each period: from 1 on where a line touches its frames,
    /// else 0.
    pub numbers: Vec<u16>,
    /// The last block.
    pub last: u16,
}

/// A block of its own for each period and sender that is in the period's set.
pub fn blocks_of<const N: usize>(
    alloc: Global,
    shape: &Shape,
    senders: &[NodeSet<N>],
) -> Result<Blocks, AllocError>
    requires shape { IsShape N shape.now.nodes shape.now.slots shape.now.periods }
    requires long { length senders.now ≡ shape.now.periods }
    ensures { IfOk result (AreBlocks (is_in shape.now.nodes senders.now) shape.now.nodes
        shape.now.periods) }
{
    let nodes = shape.nodes as usize;
    let mut numbers = vec![in alloc; 0u16; shape.periods as usize * nodes]?;
    let mut last = 0;
    for period in 0..shape.periods {
        let set = &senders[period as usize];
        for node in 0..shape.nodes {
            if set.has(node) {
                last += 1;
                numbers[period as usize * nodes + node as usize] = last;
            }
        }
    }
    Ok(Blocks { numbers, last })
}
