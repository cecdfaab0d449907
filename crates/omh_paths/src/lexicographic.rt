ghost use Rattle.std.specs.Prelude.{◌≡◌, ℕ, ◌<◌, ◌≤◌, ◌*◌, ◌/◌, ◌%◌, length, slice_index, true};
ghost use Rattle.node_grid.specs.NodeSet.{has_id, ids_below};
ghost use Rattle.omh_paths.specs.Paths.{paths_of_length, path_count, place_in, path_at};

use crate::path::{MAX_NODES, Path};
use node_grid::{Capacity, NodeSet, Nodes};

/// The number of paths of `len` nodes out of `k`: k (k - 1) .. (k - len + 1), and 0 where `len` is
/// more than `k`.
pub fn count_paths(k: u8, len: u8) -> usize
    requires nodes { k ≤ 16 }
    requires short { len ≤ 4 }
    ensures product { result ≡ path_count k len }
    ensures number { result ≡ length (paths_of_length (ids_below k) len) }
{
    product(k, len)
}

/// The product of the first `len` of the numbers k, k - 1, ..
fn product(k: u8, len: u8) -> usize
    requires nodes { k ≤ 16 }
    requires short { len ≤ 4 }
    ensures { result ≡ path_count k len }
{
    let first = k as usize;
    let second = first.saturating_sub(1);
    let third = first.saturating_sub(2);
    let fourth = first.saturating_sub(3);
    match len {
        0 => 1,
        1 => first,
        2 => first * second,
        3 => first * (second * third),
        _ => first * (second * (third * fourth)),
    }
}

/// The member that an index begins with, where `behind` places belong to each member, and the place
/// among those.
///
/// This counts up from the least member: there are few, and a division would take longer.
fn split_place<const N: usize>(set: &NodeSet<N>, behind: usize, index: usize) -> (u8, usize)
where
    Nodes: Capacity<N>,
    requires within { index < length set.now * behind }
    ensures node { result.0 ≡ slice_index set.now (index / behind) }
    ensures rest { result.1 ≡ index % behind }
{
    let mut rest = index;
    for node in set.iter() {
        if rest < behind {
            return (node, rest);
        }
        rest -= behind;
    }
    (0, rest)
}

/// The place of the path among all paths of its length over the set, in lexicographic order.
pub fn rank<const N: usize>(set: &NodeSet<N>, path: &Path) -> usize
where
    Nodes: Capacity<N>,
    requires within { (q : ℕ) → has_id path.now q ≡ true → has_id set.now q ≡ true }
    ensures place { result ≡ place_in (paths_of_length set.now (length path.now)) path.now }
    ensures in_range { result < path_count (length set.now) (length path.now) }
{
    let mut left = *set;
    let mut choices = set.len();
    let mut place = 0;
    for k in 0..path.len() {
        let node = path.at(k);
        place = place * choices as usize + left.place(node) as usize;
        left.cut(node);
        choices -= 1;
    }
    place
}

/// The path of `len` nodes over the set that stands at a place in lexicographic order: the inverse
/// of [`rank`].
pub fn unrank<const N: usize>(set: &NodeSet<N>, len: u8, index: usize) -> Path
where
    Nodes: Capacity<N>,
    requires some { 0 < len }
    requires few { len ≤ 4 }
    requires in_range { index < path_count (length set.now) len }
    ensures path { result ≡ path_at (paths_of_length set.now len) index }
    ensures long { length result ≡ len }
    ensures within { (q : ℕ) → has_id result q ≡ true → has_id set.now q ≡ true }
{
    let mut left = *set;
    let mut choices = set.len();
    let mut rest = index;
    let mut nodes = [0; MAX_NODES];
    for k in 0..len {
        choices -= 1;
        let behind = count_paths(choices, len - k - 1);
        let (node, within) = split_place(&left, behind, rest);
        rest = within;
        left.cut(node);
        nodes[k as usize] = node;
    }
    Path::from_nodes(nodes, len)
}
