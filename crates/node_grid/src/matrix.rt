ghost use Rattle.std.specs.Prelude.{◌≡◌, ℕ, ◌<◌, List, Option, Some, None, replicate, slice_set};
ghost use Rattle.std.specs.Prelude.{length};
ghost use Rattle.std.specs.Option.{option_copied};
ghost use Rattle.node_grid.specs.Matrix.{row_at};

use crate::{Capacity, Nodes};
use std::marker::Model;

/// What one node accuses each node of: a mask of kinds for each node.
#[derive(Clone, Copy, PartialEq, Eq)]
pub struct Row<const N: usize> {
    /// Bit k of the mask at j accuses node j of kind k.
    pub masks: [u16; N],
}

// Clauses see the masks, node 0 first.
impl<const N: usize> Model for Row<N> {
    ghost use Rattle.std.specs.Prelude.{ℕ, List};

    ghost Value = { List ℕ };

    ghost view = { λ r. r.masks };

    ghost inverse = { λ xs. record { masks = xs } };
}

impl<const N: usize> Row<N>
where
    Nodes: Capacity<N>,
{
    /// The row that accuses nobody.
    pub fn zero() -> Self
        ensures { result ≡ replicate N 0 }
    {
        Row { masks: [0; N] }
    }
}

/// For each node its row, or none.
#[derive(Clone, Copy, PartialEq, Eq)]
pub struct Matrix<const N: usize> {
    rows: [Option<Row<N>>; N],
}

// Clauses see the optional rows, node 0 first.
impl<const N: usize> Model for Matrix<N> {
    ghost use Rattle.std.specs.Prelude.{ℕ, List, Option};

    ghost Value = { List (Option (List ℕ)) };

    ghost view = { λ m. m.rows };

    ghost inverse = { λ xs. record { rows = xs } };
}

impl<const N: usize> Matrix<N>
where
    Nodes: Capacity<N>,
{
    /// No row at any node.
    pub fn empty() -> Self
        ensures { result ≡ replicate N None }
    {
        Matrix { rows: [None; N] }
    }

    /// Puts the row of node `q`, in place of one that stood there.
    pub fn set(&mut self, q: u8, row: Row<N>)
        requires in_range { q < N }
        ensures rows { self.new ≡ slice_set self.old q (Some row.entry) }
        ensures length { length self.new ≡ N }
    {
        self.rows[q as usize] = Some(row);
    }

    /// The row of node `q`; None exactly where no row stands there, as for a `q` of N or more.
    pub fn get(&self, q: u8) -> Option<&Row<N>>
        ensures row { option_copied result ≡ row_at self.now q }
        ensures length { length self.now ≡ N }
    {
        self.rows.get(q as usize)?.as_ref()
    }
}
