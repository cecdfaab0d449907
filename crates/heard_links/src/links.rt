//! The table of what came over the links.

ghost use Rattle.std.specs.Prelude.{◌≡◌, ◌*◌, length};

use crate::came::Came;
use node_grid::NodeSet;

/// What each node says of itself in a phase, and what came over each link.
///
/// All its memory is taken by [`Links::open`]. What is left in it from another phase means nothing.
#[derive(Drop)]
pub struct Links<V, const N: usize> {
    /// What is said of itself by a node that was told nothing of.
    pub(crate) blank: Box<V>,
    /// What each node says of itself.
    pub(crate) told: Vec<V>,
    /// By round, the senders of whose frames something is laid down; of all others each frame is
    /// untouched.
    pub(crate) touched: [NodeSet<N>; 4],
    /// What is laid down, by round, sender and receiver.
    pub(crate) came: Vec<Came<V>>,
    ghost told_room: { length told.items ≡ N },
    ghost came_room: { length came.items ≡ 4 * (N * N) },
}
