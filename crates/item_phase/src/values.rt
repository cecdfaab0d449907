//! Values by node.

ghost use Rattle.std.specs.Prelude.{◌≡◌, ℕ, ◌+◌, ◌*◌, ◌<◌, ◌≤◌, ◌⊎◌, length, slice_set};
ghost use Rattle.std.specs.Prelude.{slice_index_or, IfOk, replicate, true};
ghost use Rattle.node_grid.specs.NodeSet.{has_id};
ghost use Rattle.omh_paths.specs.declared.wrapped.Wrapped.TheVariants.{Fault};

use node_grid::{Capacity, NodeSet, Nodes};
use omh_paths::{Exact, Wrapped};
use std::alloc::{AllocError, Global};

/// So many values, all of them the error.
pub(crate) fn blanks<V: Exact>(alloc: Global, len: usize) -> Result<Vec<Wrapped<V>>, AllocError>
    ensures { IfOk result (λ v. v.items ≡ replicate len (Fault 0)) }
{
    let mut values = Vec::with_capacity(alloc, len)?;
    for _ in 0..len {
        values.push(Wrapped::Fault(0))?;
    }
    Ok(values)
}

/// Puts a value in place of another one.
fn set_value<V: Exact>(values: &mut [Wrapped<V>], place: usize, value: Wrapped<V>)
    requires { place < length values.old }
    ensures { values.new ≡ slice_set values.old place value }
{
    values[place] = value;
}

/// The value at a place.
pub(crate) fn value_at<V: Exact>(values: &[Wrapped<V>], place: usize) -> Wrapped<V>
    requires { place < length values.now }
    ensures { result ≡ slice_index_or values.now place (Fault 0) }
{
    values[place]
}

/// Lays the values of these nodes, which lie by node, one after another from this place on.
pub(crate) fn lay_row<V: Exact, const N: usize>(
    values: &mut [Wrapped<V>],
    from: usize,
    row: &[Wrapped<V>],
    nodes: &NodeSet<N>,
)
where
    Nodes: Capacity<N>,
    requires row { length row.now ≡ N }
    requires room { from + N ≤ length values.old }
    requires small { length values.old ≤ 4096 }
    ensures laid { (i : ℕ) → has_id nodes.now i ≡ true →
        slice_index_or values.new (from + i) (Fault 0) ≡ slice_index_or row.now i (Fault 0) }
    ensures kept { (k : ℕ) → (k < from) ⊎ (from + N ≤ k) →
        slice_index_or values.new k (Fault 0) ≡ slice_index_or values.old k (Fault 0) }
    ensures room { length values.new ≡ length values.old }
{
    for i in nodes.iter() {
        let value = value_at(row, i as usize);
        set_value(values, from + i as usize, value);
    }
}
