//! How many nodes the types of a cluster have room for.

ghost use Rattle.node_grid.specs.Capacity.{IsCapacity};
ghost use Rattle.node_grid.specs.CapacityLaws.{eight, sixteen};

/// The nodes of a cluster, as far as there is room for them.
pub struct Nodes;

/// There are types for `N` nodes.
///
/// Types are laid out for 8 nodes or for 16. A function over such types says so as
/// `where Nodes: Capacity<N>`, and the compiler then sees to it that none is called with another
/// number.
pub trait Capacity<const N: usize> {
    /// The number is 8 or 16.
    ghost eight_or_sixteen: { IsCapacity N };
}

impl Capacity<8> for Nodes {
    ghost eight_or_sixteen = { eight };
}

impl Capacity<16> for Nodes {
    ghost eight_or_sixteen = { sixteen };
}
