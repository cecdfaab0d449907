//! What nodes believe of a period.

ghost use Rattle.std.specs.Prelude.{◌≡◌, [], replicate, None};
ghost use Rattle.omh_paths.specs.declared.wrapped.Wrapped.TheVariants.{Fault};

use arrayvec::ArrayVec;
use node_grid::{Capacity, Matrix, Nodes};
use omh_paths::Wrapped;

/// What a group of nodes settles and votes in a period.
#[derive(Drop)]
pub struct Belief<const N: usize> {
    /// The settled claim of each node: `Fault(0)` for an error, and for a node that is no member.
    pub done: [Wrapped<u8>; N],
    /// The channels that are due, in ascending order.
    pub due: ArrayVec<u8, 8>,
    /// The vote on each channel: none of a channel that isn't due, and none where no value
    /// was present.
    pub votes: [Option<i64>; 8],
    /// The settled rows: none for an error, and none of a node that is no member.
    pub rows: Matrix<N>,
}

impl<const N: usize> Belief<N>
where
    Nodes: Capacity<N>,
{
    /// What a node believes that settles nothing: each claim is an error, and no channel is due.
    pub fn none() -> Belief<N>
        ensures done { result.done ≡ replicate N (Fault 0) }
        ensures due { result.due.items ≡ [] }
        ensures votes { result.votes ≡ replicate 8 None }
        ensures rows { result.rows ≡ replicate N None }
    {
        Belief {
            done: [Wrapped::Fault(0); N],
            due: ArrayVec::new(),
            votes: [None; 8],
            rows: Matrix::empty(),
        }
    }
}
