//! The agreed states of all nodes.

ghost use Rattle.std.specs.Prelude.{◌≡◌, ◌↔◌, ℕ, ◌<◌, true, IsTrue, length, replicate, is_some};
ghost use Rattle.std.specs.Prelude.{IfOk};
ghost use Rattle.std.specs.Option.{option_map};
ghost use Rattle.node_grid.specs.NodeSet.{has_id, ids_where};
ghost use Rattle.agreed_state.specs.Config.{IsConfig};
ghost use Rattle.shared_states.specs.Sharing.{state_at, first_states, without_state, with_state};
ghost use Rattle.shared_states.specs.Sharing.{shared_with, IsShared, IsOne};

use crate::places::{are_at_one, free_place, join, nodes_alike, nodes_at, put_at};
use agreed_state::{Agreed, Config};
use node_grid::{Capacity, NoMemory, NodeSet, Nodes};
use std::alloc::{AllocError, Global};
use std::marker::Model;

/// The agreed states of all nodes. Nodes that have one state mostly share it: it stands once,
/// at a place of its own.
///
/// All its memory is taken by [`SharedStates::open`].
#[derive(Drop)]
pub struct SharedStates<const N: usize> {
    /// The nodes that have a state.
    awake: NodeSet<N>,
    /// By node the place of its state; of a node that has none it means nothing.
    places: [u8; N],
    /// The states; what stands at a place of no node means nothing.
    states: Vec<Agreed<N>>,
    /// True only where all nodes that have a state have one place.
    one: bool,
}

// Clauses see by node its state, if any.
impl<const N: usize> Model for SharedStates<N> {
    ghost use Rattle.std.specs.Prelude.{List, Option};
    ghost use Rattle.agreed_state.specs.Agreed.{AgreedView};
    ghost use Rattle.shared_states.specs.Places.{states_by, ArePlaces};

    ghost Value = { List (Option AgreedView) };

    ghost view = { λ s. states_by N s.awake s.places s.states.items };

    ghost invariant = { λ s. ArePlaces N s.awake s.places s.states.items s.one };
}

/// A list of N states, each of them this one.
fn repeated<const N: usize>(alloc: Global, state: &Agreed<N>) -> Result<Vec<Agreed<N>>, AllocError>
where
    Nodes: Capacity<N>,
    ensures { IfOk result (λ v. v.items ≡ replicate N state.now) }
{
    let mut states = Vec::with_capacity(alloc, N)?;
    for _ in 0..N {
        states.push(*state)?;
    }
    Ok(states)
}

impl<const N: usize> SharedStates<N> {
    /// All nodes in use have the state that all begin with.
    ///
    /// # Errors
    ///
    /// `NoMemory`: there was no memory.
    pub fn open(alloc: Global, config: &Config<N>) -> Result<SharedStates<N>, NoMemory>
    where
        Nodes: Capacity<N>,
        requires config { IsConfig N config.now }
        ensures { IfOk result (λ s. s ≡ first_states N config.now) }
    {
        let Ok(states) = repeated(alloc, &Agreed::first(config)) else {
            return Err(NoMemory);
        };
        Ok(SharedStates {
            awake: NodeSet::full(config.nodes),
            places: [0; N],
            states,
            one: true,
        })
    }

    /// The nodes that have a state.
    pub fn awake(&self) -> NodeSet<N>
        ensures nodes { result ≡ ids_where (λ i. is_some (state_at self.now i)) N }
        ensures length { length self.now ≡ N }
    {
        self.awake
    }

    /// The state of a node; None exactly where it has none, as each number from `N` on.
    pub fn get(&self, i: u8) -> Option<&Agreed<N>>
        ensures { option_map (λ a. a.now) result ≡ state_at self.now i }
    {
        if self.awake.has(i) {
            Some(&self.states[self.places[i as usize] as usize])
        } else {
            None
        }
    }

    /// Whether the two nodes share a state. It is true only where both have the same one,
    /// and it is where one
    /// [`replace`](SharedStates::replace) or [`join`](SharedStates::join) gave it to both.
    pub fn is_shared(&self, i: u8, j: u8) -> bool
        ensures { result ≡ true → IsShared self.now i j }
    {
        if !self.awake.has(i) {
            return false;
        }
        if !self.awake.has(j) {
            return false;
        }
        self.places[i as usize] == self.places[j as usize]
    }

    /// The nodes that share the state of this one, it included; none where it has none.
    pub fn sharers(&self, i: u8) -> NodeSet<N>
    where
        Nodes: Capacity<N>,
        ensures shared { (j : ℕ) → has_id result j ≡ true → IsShared self.now i j }
        ensures own { is_some (state_at self.now i) ≡ true → has_id result i ≡ true }
    {
        if !self.awake.has(i) {
            return NodeSet::empty();
        }
        if self.one {
            return self.awake;
        }
        nodes_at(&self.places, &self.awake, self.places[i as usize])
    }

    /// The nodes that have the same state as this one, it included, whether they share it
    /// or not; none where it has none.
    pub fn alike(&self, i: u8) -> NodeSet<N>
    where
        Nodes: Capacity<N>,
        ensures { (j : ℕ) → IsTrue (has_id result j) ↔ IsShared self.now i j }
    {
        if !self.awake.has(i) {
            return NodeSet::empty();
        }
        if self.one {
            return self.awake;
        }
        nodes_alike(
            &self.places,
            self.states.as_slice(),
            &self.awake,
            self.places[i as usize],
        )
    }

    /// Whether all nodes that have a state share it. It is true only where they all have the same.
    pub fn is_one(&self) -> bool
        ensures { result ≡ true → IsOne self.now }
    {
        self.one
    }

    /// Takes the state of a node away.
    pub fn forget(&mut self, i: u8)
        requires { i < N }
        ensures { self.new ≡ without_state N self.old i }
    {
        self.awake.cut(i);
    }

    /// Gives node `i` the state of node `j`, which it then shares, in place of what it had.
    pub fn share(&mut self, i: u8, j: u8)
        requires node { i < N }
        requires other { is_some (state_at self.old j) ≡ true }
        ensures { self.new ≡ shared_with N self.old i j }
    {
        self.places[i as usize] = self.places[j as usize];
        self.awake.put(i);
    }

    /// Gives these nodes this state, in place of what they had.
    pub fn replace(&mut self, nodes: &NodeSet<N>, state: &Agreed<N>)
    where
        Nodes: Capacity<N>,
        ensures { self.new ≡ with_state N self.old nodes.now state.now }
    {
        let others = self.awake.minus(nodes);
        if nodes.len() == 0 {
            return;
        }
        let count = others.len();
        let place = free_place(&self.places, &others);
        self.states[place as usize] = *state;
        put_at(&mut self.places, nodes, place);
        self.awake = others.union(nodes);
        self.one = count == 0;
    }

    /// Brings equal states together, so that the nodes that have them share one.
    pub fn join(&mut self)
    where
        Nodes: Capacity<N>,
        ensures { self.new ≡ self.old }
    {
        if self.one {
            return;
        }
        join(&mut self.places, self.states.as_slice(), &self.awake);
        self.one = are_at_one(&self.places, &self.awake);
    }
}
