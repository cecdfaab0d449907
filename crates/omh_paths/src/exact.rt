//! Values of which equality tells that they are the same.

ghost use Rattle.omh_paths.specs.Wrapped.{IsExact};
ghost use Rattle.omh_paths.specs.Exact.{numbers_exact, rows_exact};

use node_grid::Row;

/// Values that are equal only where they are the same.
pub trait Exact: Copy + Eq {
    /// Equality tells that.
    ghost exact: { IsExact Self.PartialEq.eq };
}

impl Exact for u8 {
    ghost exact = { numbers_exact };
}

impl<const N: usize> Exact for Row<N> {
    ghost exact = { rows_exact };
}
