//! By node the place of its state in a list.

ghost use Rattle.std.specs.Prelude.{◌≡◌, ◌≢◌, ◌↔◌, ℕ, ◌<◌, ◌≤◌, ◌==◌, ◌&&◌, true, IsTrue, length};
ghost use Rattle.std.specs.Prelude.{slice_get, slice_index, if◌then◌else◌};
ghost use Rattle.node_grid.specs.NodeSet.{IsIdSet, has_id, ids_where};
ghost use Rattle.shared_states.specs.Places.{ArePlaced, AreAtOne, IsAlike, LeadAlike};

use agreed_state::Agreed;
use node_grid::{Capacity, NodeSet, Nodes};

/// Puts these nodes at one place.
pub(crate) fn put_at<const N: usize>(places: &mut [u8; N], nodes: &NodeSet<N>, place: u8)
where
    Nodes: Capacity<N>,
    ensures put { (i : ℕ) → i < N → slice_index places.new i ≡
        (if has_id nodes.now i then place else slice_index places.old i) }
    ensures long { length places.new ≡ N }
{
    for node in 0..N as u8 {
        if nodes.has(node) {
            places[node as usize] = place;
        }
    }
}

/// Those of the nodes that are at this place.
#[tactic(auto, using(node_grid::specs::NodeSetLaws::id_loops))]
pub(crate) fn nodes_at<const N: usize>(
    places: &[u8; N],
    nodes: &NodeSet<N>,
    place: u8,
) -> NodeSet<N>
where
    Nodes: Capacity<N>,
    ensures { result ≡
        ids_where (λ i. has_id nodes.now i && (slice_index places.now i == place)) N }
{
    let mut found = NodeSet::empty();
    for node in 0..N as u8 {
        if nodes.has(node) && places[node as usize] == place {
            found.put(node);
        }
    }
    found
}

/// Whether all these nodes are at one place.
pub(crate) fn are_at_one<const N: usize>(places: &[u8; N], nodes: &NodeSet<N>) -> bool
where
    Nodes: Capacity<N>,
    requires ids { IsIdSet N nodes.now }
    ensures { result ≡ true → AreAtOne nodes.now places.now }
{
    let Some(first) = nodes.least() else {
        return true;
    };
    for node in 0..N as u8 {
        if nodes.has(node) && places[node as usize] != places[first as usize] {
            return false;
        }
    }
    true
}

/// The places of these nodes.
fn places_of<const N: usize>(places: &[u8; N], nodes: &NodeSet<N>) -> NodeSet<N>
where
    Nodes: Capacity<N>,
    requires ids { IsIdSet N nodes.now }
    requires placed { ArePlaced N nodes.now places.now }
    ensures places { (i : ℕ) → has_id nodes.now i ≡ true →
        has_id result (slice_index places.now i) ≡ true }
    ensures few { length result ≤ length nodes.now }
    ensures ids { IsIdSet N result }
{
    let mut found = NodeSet::empty();
    for node in 0..N as u8 {
        if nodes.has(node) {
            found.put(places[node as usize]);
        }
    }
    let _ = found.len();
    found
}

/// A place at which none of these nodes is, of which there are fewer than places.
pub(crate) fn free_place<const N: usize>(places: &[u8; N], nodes: &NodeSet<N>) -> u8
where
    Nodes: Capacity<N>,
    requires ids { IsIdSet N nodes.now }
    requires placed { ArePlaced N nodes.now places.now }
    requires few { length nodes.now < N }
    ensures place { result < N }
    ensures free { (i : ℕ) → has_id nodes.now i ≡ true → slice_index places.now i ≢ result }
{
    let free = NodeSet::full(N as u8).minus(&places_of(places, nodes));
    free.at(0)
}

/// Whether two places have the same state.
fn has_equal<const N: usize>(states: &[Agreed<N>], one: u8, other: u8) -> bool
where
    Nodes: Capacity<N>,
    requires one { one < length states.now }
    requires other { other < length states.now }
    ensures { IsTrue result ↔ (slice_get states.now one ≡ slice_get states.now other) }
{
    one == other || states[one as usize] == states[other as usize]
}

/// Those of the nodes that have the same state as stands at this place.
pub(crate) fn nodes_alike<const N: usize>(
    places: &[u8; N],
    states: &[Agreed<N>],
    nodes: &NodeSet<N>,
    place: u8,
) -> NodeSet<N>
where
    Nodes: Capacity<N>,
    requires ids { IsIdSet N nodes.now }
    requires room { length states.now ≡ N }
    requires placed { ArePlaced N nodes.now places.now }
    requires place { place < N }
    ensures { (i : ℕ) → IsTrue (has_id result i) ↔
        IsAlike states.now nodes.now places.now place i }
{
    let mut alike = NodeSet::empty();
    for node in 0..N as u8 {
        if nodes.has(node) && has_equal(states, places[node as usize], place) {
            alike.put(node);
        }
    }
    alike
}

/// Brings those of the nodes whose state equals that at this place there. Each other place is
/// looked at once.
fn join_at<const N: usize>(
    places: &mut [u8; N],
    states: &[Agreed<N>],
    nodes: &NodeSet<N>,
    place: u8,
)
where
    Nodes: Capacity<N>,
    requires room { length states.now ≡ N }
    requires placed { ArePlaced N nodes.now places.old }
    requires place { place < N }
    ensures long { length places.new ≡ N }
    ensures placed { ArePlaced N nodes.now places.new }
    ensures alike { LeadAlike states.now nodes.now places.old places.new }
{
    let _ = nodes.len();
    let others = places_of(places, nodes);
    for other in 0..N as u8 {
        if others.has(other) && other != place && has_equal(states, other, place) {
            let moved = nodes_at(places, nodes, other);
            put_at(places, &moved, place);
        }
    }
}

/// Brings those of the nodes whose states are equal to one place.
pub(crate) fn join<const N: usize>(places: &mut [u8; N], states: &[Agreed<N>], nodes: &NodeSet<N>)
where
    Nodes: Capacity<N>,
    requires room { length states.now ≡ N }
    requires placed { ArePlaced N nodes.now places.old }
    ensures placed { ArePlaced N nodes.now places.new }
    ensures alike { LeadAlike states.now nodes.now places.old places.new }
{
    let mut joined: NodeSet<N> = NodeSet::empty();
    for node in 0..N as u8 {
        let place = places[node as usize];
        if nodes.has(node) && !joined.has(place) {
            joined.put(place);
            join_at(places, states, nodes, place);
        }
    }
}
