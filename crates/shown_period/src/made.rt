//! What all nodes made of a period.

ghost use Rattle.std.specs.Prelude.{◌≡◌, ◌≢◌, ℕ, ◌<◌, IfOk, length, option_map, replicate};
ghost use Rattle.std.specs.Prelude.{slice_get, slice_set};
ghost use Rattle.agreed_state.specs.Config.{IsConfig};
ghost use Rattle.node_steps.specs.Outcome.{cold_outcome};
ghost use Rattle.shared_states.specs.Sharing.{first_states, state_at};
ghost use Rattle.shown_period.specs.Outcomes.{HasBeliefs, mode_with, modes_through};
ghost use Rattle.shown_period.specs.Outcomes.{members_through, outcome_at};
ghost use Rattle.protocol.specs.Run.{members_in};
ghost use Rattle.shown_period.specs.Whole.{AreAlike};

use agreed_state::{Agreed, Config};
use node_core::Mode;
use node_grid::{Capacity, NoMemory, NodeSet, Nodes, Row};
use shared_states::{Belief, SharedStates};
use std::alloc::{AllocError, Global};

/// What the nodes of a cluster made of a period, by node.
#[derive(Drop)]
pub struct Made<const N: usize> {
    /// How each node goes through the period.
    pub modes: [Mode; N],
    /// The members with which each goes through it; none of a node that is Cold.
    pub members: [NodeSet<N>; N],
    /// The other nodes whose frames in the sync slot were good, at a node that is Cold too.
    pub sync: [NodeSet<N>; N],
    /// Each node's own row: zero where it isn't Full.
    pub found: [Row<N>; N],
    /// The least node that settled and voted the same; a node that is Cold is alone.
    pub group: [u8; N],
    /// What nodes settled and voted, each at the place of its group. There are `N` places.
    pub beliefs: Vec<Belief<N>>,
    /// The agreed states.
    pub states: SharedStates<N>,
}

/// A place for what each node believes, where nothing is believed yet.
fn no_beliefs<const N: usize>(alloc: Global) -> Result<Vec<Belief<N>>, AllocError>
where
    Nodes: Capacity<N>,
    ensures { IfOk result (λ v. length v.items ≡ N) }
{
    let mut beliefs = Vec::with_capacity(alloc, N)?;
    for _ in 0..N {
        beliefs.push(Belief::none())?;
    }
    Ok(beliefs)
}

/// How a node goes through a period that was Full or not when it began, and has this state now.
fn mode_with<const N: usize>(full: bool, state: Option<&Agreed<N>>) -> Mode
    ensures { result ≡ mode_with full (option_map (λ a. a.now) state.entry) }
{
    match state {
        None => Mode::Cold,
        Some(_) if full => Mode::Full,
        Some(_) => Mode::Joining,
    }
}

/// How each node goes through it.
fn modes_through<const N: usize>(full: &NodeSet<N>, states: &SharedStates<N>) -> [Mode; N]
where
    Nodes: Capacity<N>,
    ensures { result ≡ modes_through N full.now states.now }
{
    let mut modes = [Mode::Cold; N];
    for i in 0..N as u8 {
        modes[i as usize] = mode_with(full.has(i), states.get(i));
    }
    modes
}

/// The members of this node's state; none without a state.
pub(crate) fn members_in<const N: usize>(states: &SharedStates<N>, i: u8) -> NodeSet<N>
where
    Nodes: Capacity<N>,
    ensures { result ≡ members_in (state_at states.now i) }
{
    match states.get(i) {
        None => NodeSet::empty(),
        Some(state) => state.members,
    }
}

/// The members with which each node goes through it.
fn members_through<const N: usize>(states: &SharedStates<N>) -> [NodeSet<N>; N]
where
    Nodes: Capacity<N>,
    ensures { result ≡ members_through N states.now }
{
    let mut members = [NodeSet::empty(); N];
    for i in 0..N as u8 {
        members[i as usize] = members_in(states, i);
    }
    members
}

impl<const N: usize> Made<N>
where
    Nodes: Capacity<N>,
{
    /// Before the first period: the nodes in use have the first state, and nothing is believed.
    ///
    /// # Errors
    ///
    /// `NoMemory` where there is none.
    pub(crate) fn open(alloc: Global, config: &Config<N>) -> Result<Self, NoMemory>
        requires config { IsConfig N config.now }
        ensures { IfOk result (λ made. (made.states ≡ first_states N config.now)
            × HasBeliefs made) }
    {
        let Ok(beliefs) = no_beliefs(alloc) else {
            return Err(NoMemory);
        };
        let states = SharedStates::open(alloc, config)?;
        Ok(Made {
            modes: [Mode::Cold; N],
            members: [NodeSet::empty(); N],
            sync: [NodeSet::empty(); N],
            found: [Row::zero(); N],
            group: [0; N],
            beliefs,
            states,
        })
    }

    /// How each node goes through a period, and with which members, by the nodes that were Full
    /// when it began, and by the states that are kept now, behind the sync slot.
    pub fn go_through(&mut self, full: &NodeSet<N>)
        ensures { self.new ≡ record self.old {
          modes = modes_through N full.now self.old.states;
          members = members_through N self.old.states;
        } }
    {
        self.modes = modes_through(full, &self.states);
        self.members = members_through(&self.states);
    }

    /// Leaves a node alone, which believes nothing and has no row, as of one that is Cold.
    pub fn leave(&mut self, i: u8)
        requires node { i < N }
        requires beliefs { HasBeliefs self.old }
        ensures nothing { AreAlike (outcome_at self.new i) (cold_outcome N) }
        ensures group { self.new.group ≡ slice_set self.old.group i i }
        ensures found { self.new.found ≡ slice_set self.old.found i (replicate N 0) }
        ensures places { (k : ℕ) → k ≢ i → slice_get self.new.beliefs.items k
            ≡ slice_get self.old.beliefs.items k }
        ensures many { length self.new.beliefs.items ≡ N }
        ensures modes { self.new.modes ≡ self.old.modes }
        ensures members { self.new.members ≡ self.old.members }
        ensures sync { self.new.sync ≡ self.old.sync }
        ensures states { self.new.states ≡ self.old.states }
    {
        self.group[i as usize] = i;
        self.found[i as usize] = Row::zero();
        self.beliefs[i as usize] = Belief::none();
    }
}
