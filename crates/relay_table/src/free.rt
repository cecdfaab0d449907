ghost use Rattle.std.specs.Prelude.{◌≡◌, ◌+◌, ◌≤◌, ◌<◌, ◌∷◌, []};
ghost use Rattle.std.specs.Prelude.{length, replicate, slice_index_or, IfOk};
ghost use Rattle.node_grid.specs.NodeSet.{IsIdSet};
ghost use Rattle.path_order.specs.Order.{each_left_out};
ghost use Rattle.relay_walk.specs.Laid.{laid};
ghost use Rattle.relay_table.specs.Free.{free_begins, AreFree, left_out_of};

use node_grid::{Capacity, NodeSet, Nodes};
use omh_paths::count_paths;
use std::alloc::{AllocError, Global};

/// Where the sets of the paths of `len` out of `members` begin, behind those of shorter ones.
pub(crate) fn free_begins(members: u8, len: u8) -> usize
    requires members { members ≤ 16 }
    requires short { len ≤ 4 }
    ensures begins { result ≡ free_begins members len }
    ensures small { result ≤ 262144 }
{
    let mut begins = 0;
    for shorter in 0..len {
        begins += count_paths(members, shorter);
    }
    begins
}

/// So many empty sets.
pub(crate) fn no_sets<const N: usize>(
    alloc: Global,
    len: usize,
) -> Result<Vec<NodeSet<N>>, AllocError>
where
    Nodes: Capacity<N>,
    ensures { IfOk result (λ sets. sets.items ≡ replicate len []) }
{
    let mut sets = Vec::with_capacity(alloc, len)?;
    for _ in 0..len {
        sets.push(NodeSet::empty())?;
    }
    Ok(sets)
}

/// Puts a set in place of another one.
fn set_set<const N: usize>(sets: &mut [NodeSet<N>], place: usize, set: &NodeSet<N>)
where
    Nodes: Capacity<N>,
    requires place { place < length sets.old }
    ensures { sets.new ≡ laid place (set.now ∷ []) sets.old }
{
    sets[place] = *set;
}

/// Lays what is left of a set without each of its members from a place on, and answers the place
/// behind.
fn lay_each_left_out<const N: usize>(set: &NodeSet<N>, at: usize, sets: &mut [NodeSet<N>]) -> usize
where
    Nodes: Capacity<N>,
    requires room { at + length set.now ≤ length sets.old }
    ensures sets { sets.new ≡ laid at (each_left_out set.now) sets.old }
    ensures behind { result ≡ at + length set.now }
{
    let mut end = at;
    for member in set.iter() {
        let rest = set.without(member);
        set_set(sets, end, &rest);
        end += 1;
    }
    end
}

/// Lays what is left of each of the sets from one place until another behind them, and answers the
/// place behind.
fn lay_longer<const N: usize>(from: usize, until: usize, sets: &mut [NodeSet<N>]) -> usize
where
    Nodes: Capacity<N>,
    requires order { from ≤ until }
    requires room { until + length (left_out_of from until sets.old) ≤ length sets.old }
    ensures sets { sets.new ≡ laid until (left_out_of from until sets.old) sets.old }
    ensures behind { result ≡ until + length (left_out_of from until sets.old) }
{
    let mut end = until;
    for k in from..until {
        let set = sets[k];
        end = lay_each_left_out(&set, end, sets);
    }
    end
}

/// Lays the members outside each path of up to `m` of these members, those of shorter paths first,
/// in lexicographic order.
///
/// No path is worked out: behind each set stand those without one of its members.
pub(crate) fn lay_free<const N: usize>(members: &NodeSet<N>, m: u8, sets: &mut [NodeSet<N>])
where
    Nodes: Capacity<N>,
    requires rounds { m ≤ 3 }
    requires room { IsIdSet N members.now
        → free_begins (length members.now) (m + 1) ≤ length sets.old }
    ensures ids { IsIdSet N members.now }
    ensures free { AreFree members.now m sets.new }
    ensures room { length sets.new ≡ length sets.old }
{
    let count = members.len();
    set_set(sets, 0, members);
    for len in 0..m {
        lay_longer(free_begins(count, len), free_begins(count, len + 1), sets);
    }
}
