//! Values of an item, by node or one behind another.

ghost use Rattle.std.specs.Prelude.{◌≡◌, ◌≢◌, ℕ, ◌+◌, ◌-◌, ◌*◌, ◌<◌, ◌≤◌, length, take, drop};
ghost use Rattle.std.specs.Prelude.{slice_set, slice_index_or, true};
ghost use Rattle.node_grid.specs.NodeSet.{has_id};
ghost use Rattle.omh_paths.specs.declared.wrapped.Wrapped.TheVariants.{Fault};
ghost use Rattle.omh_paths.specs.Wrapped.{unwrapped};
ghost use Rattle.omh_paths.specs.Majority.{majority};
ghost use Rattle.odd_relays.specs.Work.{KeepsOthers, KeepsBelow};

use node_grid::NodeSet;
use omh_paths::{Exact, Wrapped, majority};

/// The value of a node.
pub(crate) fn value_at<V: Exact>(values: &[Wrapped<V>], i: u8) -> Wrapped<V>
    requires { i < length values.now }
    ensures { result ≡ slice_index_or values.now i (Fault 0) }
{
    values[i as usize]
}

/// Puts a value in place of another one.
pub(crate) fn set_value<V: Exact>(values: &mut [Wrapped<V>], place: usize, value: Wrapped<V>)
    requires { place < length values.old }
    ensures { values.new ≡ slice_set values.old place value }
{
    values[place] = value;
}

/// Lays one value at the places of these nodes.
pub(crate) fn fill<V: Exact, const N: usize>(
    values: &mut [Wrapped<V>],
    nodes: &NodeSet<N>,
    value: Wrapped<V>,
)
    requires { length values.old ≡ N }
    ensures laid { (i : ℕ) → has_id nodes.now i ≡ true →
        slice_index_or values.new i (Fault 0) ≡ value }
    ensures places { length values.new ≡ N }
{
    for i in nodes.iter() {
        set_value(values, i as usize, value);
    }
}

/// Lays one value for each of these nodes, by node from `from` on.
pub(crate) fn fill_from<V: Exact, const N: usize>(
    work: &mut [Wrapped<V>],
    nodes: &NodeSet<N>,
    from: usize,
    value: Wrapped<V>,
)
    requires { from + N ≤ length work.old }
    ensures laid { (i : ℕ) → has_id nodes.now i ≡ true →
        slice_index_or work.new (from + i) (Fault 0) ≡ value }
    ensures kept { KeepsBelow from work.old work.new }
    ensures room { length work.new ≡ length work.old }
{
    for i in nodes.iter() {
        set_value(work, from + i as usize, value);
    }
}

/// Lays for each of these nodes the value of its leader, which is told by node.
pub(crate) fn copy_led<V: Exact, const N: usize>(
    all: &mut [Wrapped<V>],
    values: &[Wrapped<V>],
    nodes: &NodeSet<N>,
    leader_of: &[u8],
)
    requires places { length all.old ≡ N }
    requires leaders { length leader_of.now ≡ N }
    requires values { (i : ℕ) → has_id nodes.now i ≡ true →
        slice_index_or leader_of.now i 0 < length values.now }
    ensures laid { (i : ℕ) → has_id nodes.now i ≡ true → slice_index_or all.new i (Fault 0) ≡
        slice_index_or values.now (slice_index_or leader_of.now i 0) (Fault 0) }
    ensures places { length all.new ≡ N }
{
    for i in nodes.iter() {
        let value = value_at(values, leader_of[i as usize]);
        set_value(all, i as usize, value);
    }
}

/// Whether two nodes have the same value.
pub(crate) fn is_same<V: Exact>(values: &[Wrapped<V>], i: u8, j: u8) -> bool
    requires first { i < length values.now }
    requires second { j < length values.now }
    ensures { result ≡ true →
        slice_index_or values.now i (Fault 0) ≡ slice_index_or values.now j (Fault 0) }
{
    values[i as usize] == values[j as usize]
}

/// Whether these are one value.
pub(crate) fn are_one<V: Exact>(one: &Wrapped<V>, other: &Wrapped<V>) -> bool
    ensures { result ≡ true → one.now ≡ other.now }
{
    *one == *other
}

/// Whether all these nodes have the same value as this one.
pub(crate) fn are_alike<V: Exact, const N: usize>(
    values: &[Wrapped<V>],
    nodes: &NodeSet<N>,
    first: u8,
) -> bool
    requires places { length values.now ≡ N }
    requires first { first < N }
    ensures { result ≡ true → (k : ℕ) → has_id nodes.now k ≡ true →
        slice_index_or values.now k (Fault 0) ≡ slice_index_or values.now first (Fault 0) }
{
    for k in nodes.iter() {
        if !is_same(values, k, first) {
            return false;
        }
    }
    true
}

/// Lays one value as the term of each of these nodes at this place of its sixteen: node `i` has it
/// at `at + 16 * i`.
pub(crate) fn fill_terms<V: Exact, const N: usize>(
    work: &mut [Wrapped<V>],
    nodes: &NodeSet<N>,
    at: usize,
    value: Wrapped<V>,
)
    requires { at + 16 * N ≤ length work.old }
    ensures laid { (i : ℕ) → has_id nodes.now i ≡ true →
        slice_index_or work.new (at + 16 * i) (Fault 0) ≡ value }
    ensures kept { KeepsOthers nodes.now at work.old work.new }
    ensures room { length work.new ≡ length work.old }
{
    for i in nodes.iter() {
        set_value(work, at + 16 * i as usize, value);
    }
}

/// Lays values, which begin at `from` and lie by node, as such terms.
pub(crate) fn copy_terms<V: Exact, const N: usize>(
    work: &mut [Wrapped<V>],
    nodes: &NodeSet<N>,
    from: usize,
    at: usize,
)
    requires behind { at + 16 * N ≤ from + 15 }
    requires room { from + N ≤ length work.old }
    ensures laid { (i : ℕ) → has_id nodes.now i ≡ true →
        slice_index_or work.new (at + 16 * i) (Fault 0) ≡
        slice_index_or work.old (from + i) (Fault 0) }
    ensures kept { KeepsOthers nodes.now at work.old work.new }
    ensures room { length work.new ≡ length work.old }
{
    for i in nodes.iter() {
        let value = value_from(work, from, i);
        set_value(work, at + 16 * i as usize, value);
    }
}

/// What each of these nodes settles from the first so many of its sixteen terms, which lie behind
/// sixteen values by node that begin at `from`: it is laid among these.
pub(crate) fn settle_terms<V: Exact, const N: usize>(
    work: &mut [Wrapped<V>],
    nodes: &NodeSet<N>,
    from: usize,
    count: usize,
)
    requires nodes { N ≤ 16 }
    requires few { count ≤ 16 }
    requires room { from + 16 + 16 * N ≤ length work.old }
    ensures settled { (i : ℕ) → has_id nodes.now i ≡ true →
        slice_index_or work.new (from + i) (Fault 0) ≡
        unwrapped (majority V.eq (take count (drop (from + 16 + 16 * i) work.old))) }
    ensures kept { KeepsBelow from work.old work.new }
    ensures room { length work.new ≡ length work.old }
{
    for i in nodes.iter() {
        let first = from + 16 + 16 * i as usize;
        let settled = settled_from_terms(work, first, first + count);
        set_value(work, from + i as usize, settled);
    }
}

/// The value of a node among those that begin at `from`.
fn value_from<V: Exact>(values: &[Wrapped<V>], from: usize, i: u8) -> Wrapped<V>
    requires { from + i < length values.now }
    ensures { result ≡ slice_index_or values.now (from + i) (Fault 0) }
{
    values[from + i as usize]
}

/// What is settled from the terms at these places.
fn settled_from_terms<V: Exact>(terms: &[Wrapped<V>], from: usize, end: usize) -> Wrapped<V>
    requires ordered { from ≤ end }
    requires within { end ≤ length terms.now }
    ensures { result ≡ unwrapped (majority V.eq (take (end - from) (drop from terms.now))) }
{
    majority(&terms[from..end]).unwrap()
}
