//! A node that hears the others.

ghost use Rattle.std.specs.Prelude.{◌<◌};

use crate::dues::Dues;
use crate::slot::DataSlot;

/// A node in use, that hears the others.
#[derive(Drop)]
pub(crate) struct Listener<'s, 'a, D: Dues<N>, const N: usize> {
    pub(crate) slot: &'s DataSlot<'a, D, N>,
    pub(crate) node: u8,
    ghost in_use: { node < slot.now.config.nodes },
}
