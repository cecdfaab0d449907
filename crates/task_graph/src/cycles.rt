//! Which tasks come after themselves: the transitive closure of the direct predecessors, in masks
//! of tasks.

ghost use Rattle.std.specs.Prelude.{◌≡◌, ℕ, ◌<◌, ◌≤◌, MatchOption, length, slice_index, true};
ghost use Rattle.node_grid.specs.NodeSet.{has_id};
ghost use Rattle.task_graph.specs.Graph.{IsOut, IsCyclic, IsLeast, all_below};
ghost use Rattle.task_graph.specs.Reach.{AreReached, has_bit};

use crate::Task;

// The tasks, as a mask.
fn mask_of(tasks: &[u8]) -> u32
    requires { all_below 32 tasks.now ≡ true }
    ensures { (u : ℕ) → u < 32 → has_bit result u ≡ has_id tasks.now u }
{
    let mut mask = 0;
    for t in tasks {
        mask |= 1 << *t;
    }
    mask
}

// For each task the mask of those that it directly comes after.
fn predecessors<const N: usize>(nodes: u8, tasks: &[Task<N>]) -> [u32; 32]
    requires { (t : ℕ) → ¬ IsOut nodes tasks.now t }
    ensures { AreReached tasks.now 0 result }
{
    let mut masks = [0; 32];
    for (t, task) in tasks.iter().enumerate() {
        masks[t] = mask_of(&task.after);
    }
    masks
}

// Adds to each mask what its tasks come after in turn, where each mask has the direct predecessors.
fn close<const N: usize>(nodes: u8, tasks: &[Task<N>], masks: &mut [u32; 32])
    requires in_range { (t : ℕ) → ¬ IsOut nodes tasks.now t }
    requires direct { AreReached tasks.now 0 masks.old }
    ensures { AreReached tasks.now (length tasks.now) masks.new }
{
    for k in 0..tasks.len() {
        let through = masks[k];
        for t in 0..tasks.len() {
            if (masks[t] >> k) & 1 == 1 {
                masks[t] |= through;
            }
        }
    }
}

// The least task that comes after itself, where all tasks are in range.
pub(crate) fn first_cyclic<const N: usize>(nodes: u8, tasks: &[Task<N>]) -> Option<u8>
    requires { (t : ℕ) → ¬ IsOut nodes tasks.now t }
    ensures { MatchOption result ((t : ℕ) →
        ¬ IsCyclic tasks.now t) (λ t. IsLeast (IsCyclic tasks.now) t) }
{
    let mut masks = predecessors(nodes, tasks);
    close(nodes, tasks, &mut masks);
    for t in 0..tasks.len() {
        if (masks[t] >> t) & 1 == 1 {
            return Some(t as u8);
        }
    }
    None
}
