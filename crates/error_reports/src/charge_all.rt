ghost use Rattle.std.specs.Prelude.{◌≡◌, ℕ, ◌<◌, ◌≤◌, ◌/◌, slice_index};
ghost use Rattle.node_grid.specs.NodeSet.{IsIdSet};
ghost use Rattle.node_grid.specs.Count.{count};
ghost use Rattle.node_grid.specs.Planes.{count_at, EachCount};
ghost use Rattle.error_reports.specs.Charge.{charged_mask, is_sender, is_voter, is_accuser};

use node_grid::{Capacity, Matrix, NodeSet, Nodes, Planes};

/// A limit that no count of accusers passes.
const NO_CHARGE: u8 = 31;

/// The mask of the kinds that each node below `nodes` is charged with, by the settled `rows` of the
/// `members`; 0 for the other nodes.
///
/// Entry j is what `charged` gives for node j. All kinds of all nodes are counted together, by
/// planes of bits.
pub fn charged_all<const N: usize>(rows: &Matrix<N>, members: &NodeSet<N>, nodes: u8) -> [u16; N]
where
    Nodes: Capacity<N>,
    requires nodes { nodes ≤ N }
    ensures charged { (j : ℕ) → j < nodes → slice_index result j
        ≡ charged_mask rows.now members.now j }
    ensures rest { (j : ℕ) → nodes ≤ j → j < N → slice_index result j ≡ 0 }
{
    let (accusers, senders) = tally(rows, members);
    accusers
        .more_than(&limits(rows, members, nodes, senders))
        .masks
}

/// How many rows give each node each kind, those of the nodes themselves apart, and how many rows
/// there are.
fn tally<const N: usize>(rows: &Matrix<N>, members: &NodeSet<N>) -> (Planes<N>, u8)
where
    Nodes: Capacity<N>,
    ensures accusers { EachCount N (λ j k. count_at result.0 j k
        ≡ count (is_accuser rows.now j k) members.now) }
    ensures senders { result.1 ≡ count (is_sender rows.now) members.now }
    ensures few { result.1 ≤ 16 }
    ensures members { IsIdSet N members.now }
{
    let mut accusers = Planes::zero();
    let mut senders = 0;
    for member in members.iter() {
        if let Some(row) = rows.get(member) {
            let mut others = *row;
            others.masks[member as usize] = 0;
            accusers.add(&others);
            senders += 1;
        }
    }
    (accusers, senders)
}

/// Half of the rows that count on each of the nodes, rounded down.
fn limits<const N: usize>(rows: &Matrix<N>, members: &NodeSet<N>, nodes: u8, senders: u8) -> [u8; N]
where
    Nodes: Capacity<N>,
    requires nodes { nodes ≤ N }
    requires members { IsIdSet N members.now }
    requires senders { senders ≡ count (is_sender rows.now) members.now }
    ensures voters { (j : ℕ) → j < nodes → slice_index result j
        ≡ count (is_voter rows.now j) members.now / 2 }
    ensures rest { (j : ℕ) → nodes ≤ j → j < N → slice_index result j ≡ 31 }
{
    let mut limits = [NO_CHARGE; N];
    for node in 0..nodes {
        limits[node as usize] = voters(rows, members, node, senders) / 2;
    }
    limits
}

/// How many of these many rows count on a node: all but its own.
fn voters<const N: usize>(rows: &Matrix<N>, members: &NodeSet<N>, node: u8, senders: u8) -> u8
where
    Nodes: Capacity<N>,
    requires members { IsIdSet N members.now }
    requires senders { senders ≡ count (is_sender rows.now) members.now }
    ensures { result ≡ count (is_voter rows.now node) members.now }
{
    if members.has(node) && rows.get(node).is_some() {
        senders - 1
    } else {
        senders
    }
}
