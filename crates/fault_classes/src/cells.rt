ghost use Rattle.std.specs.Prelude.{◌≡◌, ℕ, ◌+◌, ◌*◌, ◌^◌, ◌<◌, ◌≤◌, ◌⊎◌, [], true, Some, None};
ghost use Rattle.std.specs.Prelude.{MatchBool, MatchResult, length, map, min, vec_len};
ghost use Rattle.std.specs.List.{list_all, list_any};
ghost use Rattle.fault_classes.specs.Blocks.{AreBlocks};
ghost use Rattle.fault_classes.specs.Line.{line_of, slots_in};
ghost use Rattle.fault_classes.specs.Rules.{is_line, first_overlap};
ghost use Rattle.fault_classes.specs.Cells.{IsShape, IsTable, IsMarked, IsTaken, itself, in_row};
ghost use Rattle.fault_classes.specs.Cells.{in_block, place_at, touches_block, touches_cell};
ghost use Rattle.fault_classes.specs.Cells.{mark_of};

use crate::blocks::Blocks;
use crate::{FaultLine, PlanError};
use node_grid::NodeSet;
use std::alloc::Global;

/// The sizes of a plan.
#[derive(Clone, Copy)]
pub struct Shape {
    pub nodes: u8,
    pub slots: u8,
    pub periods: u32,
}

/// Marks the cells of these receivers in one row, all of which have to be free; else the answer is
/// false.
fn mark_row<const N: usize>(
    cells: &mut [u16],
    nodes: u8,
    row: usize,
    to: &NodeSet<N>,
    mark: u16,
) -> bool
    requires few { length cells.old < 2 ^ 32 }
    requires within { row * nodes + nodes ≤ length cells.old }
    requires some { 0 < nodes }
    ensures { MatchBool result (IsMarked itself (in_row nodes row to.now) mark cells.old cells.new)
        (IsTaken itself (in_row nodes row to.now) cells.old) }
{
    let start = row * nodes as usize;
    for id in 0..nodes {
        if to.has(id) {
            let cell = start + id as usize;
            if cells[cell] != 0 {
                return false;
            }
            cells[cell] = mark;
        }
    }
    true
}

/// Marks the cells of a line's receivers and slots in one block, as `mark_row` does.
fn mark_block<const N: usize>(
    cells: &mut [u16],
    shape: &Shape,
    block: usize,
    line: &FaultLine<N>,
    mark: u16,
) -> bool
    requires shape { IsShape N shape.now.nodes shape.now.slots shape.now.periods }
    requires few { length cells.old < 2 ^ 32 }
    requires small { block < 2 ^ 20 }
    requires within { (block * shape.now.slots + shape.now.slots) * shape.now.nodes
        ≤ length cells.old }
    ensures { MatchBool result (IsMarked itself
        (in_block shape.now.nodes shape.now.slots block line.now.to (slots_in line.now.slots)) mark
        cells.old cells.new) (IsTaken itself
        (in_block shape.now.nodes shape.now.slots block line.now.to (slots_in line.now.slots))
        cells.old) }
{
    let slots = line.slots;
    for slot in 0..shape.slots {
        if (slots >> slot) & 1 == 1 {
            let row = block * shape.slots as usize + slot as usize;
            if !mark_row(cells, shape.nodes, row, &line.to, mark) {
                return false;
            }
        }
    }
    true
}

/// Marks the cells of all frames that a line touches, as `mark_row` does.
fn mark_line<const N: usize>(
    cells: &mut [u16],
    shape: &Shape,
    blocks: &Blocks,
    line: &FaultLine<N>,
    mark: u16,
) -> bool
    requires shape { IsShape N shape.now.nodes shape.now.slots shape.now.periods }
    requires blocks { AreBlocks (λ k. touches_block shape.now.nodes k (line_of line.now))
        shape.now.nodes shape.now.periods blocks.now }
    requires line { is_line shape.now.nodes shape.now.slots shape.now.periods (line_of line.now)
        ≡ true }
    requires whole { length cells.old ≡ (blocks.now.last + 1) * shape.now.slots * shape.now.nodes }
    ensures { MatchBool result (IsMarked (place_at shape.now.nodes shape.now.slots
        blocks.now.numbers.items) (λ c. touches_cell shape.now.nodes shape.now.slots c
        (line_of line.now)) mark cells.old cells.new)
        (IsTaken (place_at shape.now.nodes shape.now.slots blocks.now.numbers.items)
        (λ c. touches_cell shape.now.nodes shape.now.slots c (line_of line.now)) cells.old) }
{
    for period in line.first..line.last + 1 {
        let block = blocks.numbers[period as usize * shape.nodes as usize + line.from as usize];
        if !mark_block(cells, shape, block as usize, line, mark) {
            return false;
        }
    }
    true
}

/// The cells of these lines: each has the number of the line that touches its frame.
pub fn cells_of<const N: usize>(
    alloc: Global,
    shape: &Shape,
    blocks: &Blocks,
    lines: &[FaultLine<N>],
) -> Result<Vec<u16>, PlanError>
    requires shape { IsShape N shape.now.nodes shape.now.slots shape.now.periods }
    requires blocks { AreBlocks (λ k. list_any (touches_block shape.now.nodes k)
        (map line_of lines.now)) shape.now.nodes shape.now.periods blocks.now }
    requires few { length lines.now < 2 ^ 32 }
    requires lines { list_all (is_line shape.now.nodes shape.now.slots shape.now.periods)
        (map line_of lines.now) ≡ true }
    ensures { MatchResult result (λ v. IsTable shape.now.nodes shape.now.slots blocks.now
        (map line_of lines.now) v.items × (first_overlap [] (map line_of lines.now) ≡ None))
        (λ e. (e ≡ PlanError.NoMemory) ⊎ ((k : ℕ) × (e ≡ PlanError.Overlap k)
        × (first_overlap [] (map line_of lines.now) ≡ Some k))) }
{
    let count = (blocks.last as usize + 1) * shape.slots as usize * shape.nodes as usize;
    let Ok(mut cells) = vec![in alloc; 0u16; count] else {
        return Err(PlanError::NoMemory);
    };
    for (place, line) in lines.iter().enumerate() {
        let mark = place.min(4096) as u16 + 1;
        if !mark_line(cells.as_mut_slice(), shape, blocks, line, mark) {
            return Err(PlanError::Overlap(place as u32));
        }
    }
    Ok(cells)
}
