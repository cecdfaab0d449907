//! Which tasks are in range.

ghost use Rattle.std.specs.Prelude.{◌≡◌, ℕ, MatchOption, length};
ghost use Rattle.task_graph.specs.Graph.{is_ascending, all_below, is_in_range, IsOut, IsLeast};

use crate::Task;
use node_grid::NodeSet;

// The most tasks that a graph has, and the most periods that a task may run.
const MOST_TASKS: usize = 32;

const MOST_PERIODS: u16 = 1024;

// Whether each number is less than the next.
fn ascends(numbers: &[u8]) -> bool
    ensures { result ≡ is_ascending numbers.now }
{
    for k in 1..numbers.len() {
        if numbers[k] <= numbers[k - 1] {
            return false;
        }
    }
    true
}

// Whether each number is below `count`.
fn are_below(numbers: &[u8], count: usize) -> bool
    ensures { result ≡ all_below count numbers.now }
{
    numbers.iter().all(|&number| (number as usize) < count)
}

// Whether each member is below `nodes`.
fn members_below<const N: usize>(members: &NodeSet<N>, nodes: u8) -> bool
    ensures { result ≡ all_below nodes members.now }
{
    for id in members.iter() {
        if id >= nodes {
            return false;
        }
    }
    true
}

// Whether task `t` of so many is in range.
fn fits<const N: usize>(nodes: u8, count: usize, t: usize, task: &Task<N>) -> bool
    ensures { result ≡ is_in_range nodes count t task.now }
{
    t < MOST_TASKS
        && ascends(&task.after)
        && are_below(&task.after, count)
        && !task.nodes.is_empty()
        && members_below(&task.nodes, nodes)
        && 1 <= task.need
        && task.need <= task.nodes.len()
        && 1 <= task.min
        && task.min <= task.max
        && task.max <= MOST_PERIODS
}

// The least task that is out of range.
pub(crate) fn first_out_of_range<const N: usize>(nodes: u8, tasks: &[Task<N>]) -> Option<u8>
    ensures { MatchOption result ((t : ℕ) → ¬ IsOut nodes tasks.now t)
        (λ t. IsLeast (IsOut nodes tasks.now) t) }
{
    for (t, task) in tasks.iter().enumerate() {
        if !fits(nodes, tasks.len(), t, task) {
            return Some(t as u8);
        }
    }
    None
}
