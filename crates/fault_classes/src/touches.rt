ghost use Rattle.std.specs.Prelude.{◌≡◌, ℕ, ◌^◌, ◌<◌, ◌≤◌, ◌⊎◌, [], true, None, Some, IfOk};
ghost use Rattle.std.specs.Prelude.{MatchResult, length, map};
ghost use Rattle.std.specs.List.{list_all};
ghost use Rattle.fault_classes.specs.Line.{line_of};
ghost use Rattle.fault_classes.specs.Rules.{is_line, first_overlap};
ghost use Rattle.fault_classes.specs.Cells.{IsShape};
ghost use Rattle.fault_classes.specs.Touches.{IsSent, IsTouched, AreTouches};

use crate::blocks::{Blocks, blocks_of};
use crate::cells::{Shape, cells_of};
use crate::{FaultLine, PlanError};
use node_grid::{Capacity, NodeSet, Nodes};
use std::alloc::{AllocError, Global};

/// Which line touches each frame.
#[derive(Drop)]
pub struct Touches<const N: usize> {
    /// For each period the nodes a frame of which some line touches.
    pub senders: Vec<NodeSet<N>>,
    /// A block of cells for each of them, and one for all others.
    pub blocks: Blocks,
    /// For each slot and receiver of a block the number of the line that touches the frame.
    pub cells: Vec<u16>,
}

/// Puts the line's sender into the set of each of the line's periods.
fn put_sender<const N: usize>(sets: &mut [NodeSet<N>], line: &FaultLine<N>)
where
    Nodes: Capacity<N>,
    requires sender { line.now.from < N }
    requires order { line.now.first ≤ line.now.last }
    requires last { line.now.last < length sets.old }
    requires few { length sets.old < 2 ^ 32 }
    ensures { IsSent N (line_of line.now) sets.old sets.new }
{
    for period in line.first..line.last + 1 {
        let set = &mut sets[period as usize];
        set.put(line.from);
    }
}

/// For each period the set of the nodes a frame of which some line touches.
fn touched_sets<const N: usize>(
    alloc: Global,
    lines: &[FaultLine<N>],
    shape: &Shape,
) -> Result<Vec<NodeSet<N>>, AllocError>
where
    Nodes: Capacity<N>,
    requires shape { IsShape N shape.now.nodes shape.now.slots shape.now.periods }
    requires lines { list_all (is_line shape.now.nodes shape.now.slots shape.now.periods)
        (map line_of lines.now) ≡ true }
    ensures { IfOk result (λ v. IsTouched N shape.now.periods (map line_of lines.now) v.items) }
{
    let mut sets = vec![in alloc; NodeSet::empty(); shape.periods as usize]?;
    for line in lines {
        put_sender(sets.as_mut_slice(), line);
    }
    Ok(sets)
}

/// Which of these lines touches each frame, where no two of them touch the same one.
pub fn touches_of<const N: usize>(
    alloc: Global,
    shape: &Shape,
    lines: &[FaultLine<N>],
) -> Result<Touches<N>, PlanError>
where
    Nodes: Capacity<N>,
    requires shape { IsShape N shape.now.nodes shape.now.slots shape.now.periods }
    requires few { length lines.now < 2 ^ 32 }
    requires lines { list_all (is_line shape.now.nodes shape.now.slots shape.now.periods)
        (map line_of lines.now) ≡ true }
    ensures { MatchResult result (λ v. AreTouches shape.now.nodes shape.now.slots shape.now.periods
        (map line_of lines.now) v × (first_overlap [] (map line_of lines.now) ≡ None))
        (λ e. (e ≡ PlanError.NoMemory) ⊎ ((k : ℕ) × (e ≡ PlanError.Overlap k)
        × (first_overlap [] (map line_of lines.now) ≡ Some k))) }
{
    let Ok(senders) = touched_sets(alloc, lines, shape) else {
        return Err(PlanError::NoMemory);
    };
    let Ok(blocks) = blocks_of(alloc, shape, senders.as_slice()) else {
        return Err(PlanError::NoMemory);
    };
    let cells = cells_of(alloc, shape, &blocks, lines)?;
    Ok(Touches {
        senders,
        blocks,
        cells,
    })
}
