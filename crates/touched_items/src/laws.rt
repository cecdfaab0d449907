//! The law of a relay frame's pieces, over the definitions alone.

ghost use Rattle.touched_items.specs.Patched.{CellsLaw};

use crate::item::Item;

/// Cells law: where a line replaces bytes of a relay frame, a receiver has of it what it has of the
/// header and of each entry by itself.
pub fn cells<V: Item<N>, const N: usize>()
    ensures { CellsLaw V.form V.entry_form }
{}
