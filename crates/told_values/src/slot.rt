//! The data slot of a period, as all nodes go into it.

ghost use Rattle.std.specs.Prelude.{◌≡◌, ◌≢◌, ◌+◌, ◌<◌, ◌==◌, ◌||◌, ℕ, List, [], not, true};
ghost use Rattle.std.specs.Prelude.{slice_index_or};
ghost use Rattle.std.specs.List.{list_all};
ghost use Rattle.node_grid.specs.Capacity.{IsCapacity};
ghost use Rattle.node_grid.specs.NodeSet.{IsIdSet, has_id, ids_below, ids_where};
ghost use Rattle.fault_classes.specs.Change.{is_untouched};
ghost use Rattle.fault_classes.specs.Plan.{each_in_slot};
ghost use Rattle.frames.specs.Seen.{expected};
ghost use Rattle.agreed_state.specs.Expecting.{expectation};
ghost use Rattle.told_values.specs.Slot.{slot_of, own_of, change_to, IsDataSlot};

use crate::dues::Dues;
use crate::link::Link;
use crate::talk::Talk;
use agreed_state::Config;
use fault_classes::FaultPlan;
use frames::Expect;
use node_grid::{Capacity, NodeSet, Nodes};
use std::marker::Model;

/// The data slot of a period, as all nodes go into it.
#[derive(Drop)]
pub struct DataSlot<'a, D: Dues<N>, const N: usize> {
    /// The configuration.
    pub config: &'a Config<N>,
    /// The fault plan, for as many nodes and relay rounds.
    pub plan: &'a FaultPlan<N>,
    /// The period.
    pub period: u32,
    /// The senders of which a line touches a frame of the slot, as `touched_senders` gives them.
    /// Others may be among them.
    pub touched: NodeSet<N>,
    /// The nodes that are Full: they say their values, and all others that they are Cold.
    pub full: NodeSet<N>,
    /// The due channels of each node.
    pub dues: &'a D,
    /// Own values by node, each by channel. Only those of Full nodes count.
    pub owns: &'a [[Option<i64>; 8]; N],
}

// Clauses see the parts.
impl<'a, D: Dues<N>, const N: usize> Model for DataSlot<'a, D, N> {
    ghost use Rattle.told_values.specs.Slot.{SlotParts, IsGoing};

    ghost Value = { SlotParts D N };

    ghost view = { λ s. record {
      config = s.config.now;
      plan = s.plan.now;
      period = s.period;
      touched = s.touched;
      full = s.full;
      dues = s.dues.now;
      owns = s.owns.now;
    } };

    ghost invariant = { λ s. IsGoing D.dues (record {
      config = s.config.now;
      plan = s.plan.now;
      period = s.period;
      touched = s.touched;
      full = s.full;
      dues = s.dues.now;
      owns = s.owns.now;
    }) };
}

/// The nodes of which a line touches a frame of the data slot of a period.
#[tactic(auto, using(node_grid::specs::NodeSetLaws::id_loops))]
pub fn touched_senders<const N: usize>(
    config: &Config<N>,
    plan: &FaultPlan<N>,
    period: u32,
) -> NodeSet<N>
where
    Nodes: Capacity<N>,
    requires nodes { plan.now.nodes ≡ config.now.nodes }
    requires rounds { plan.now.rounds ≡ config.now.m }
    requires period { period < plan.now.periods }
    ensures { result ≡ ids_where
        (λ j. not (each_in_slot plan.now is_untouched period j (config.now.m + 2)))
        config.now.nodes }
{
    // Proofs need here that the plan is one.
    let _ = plan.line_count();
    let talk = Talk {
        plan,
        period,
        slot: config.m + 2,
        nodes: config.nodes,
    };
    let mut touched = NodeSet::empty();
    for from in 0..config.nodes {
        if talk.touches(from) {
            touched.put(from);
        }
    }
    touched
}

/// A node's own values among those of all nodes.
fn own_among<const N: usize>(owns: &[[Option<i64>; 8]; N], i: u8) -> &[Option<i64>; 8]
    requires { i < N }
    ensures { result.now ≡ slice_index_or owns.now i [] }
{
    &owns[i as usize]
}

impl<'a, D: Dues<N>, const N: usize> DataSlot<'a, D, N> {
    /// The number of nodes.
    pub fn nodes(&self) -> u8
        ensures nodes { result ≡ self.now.config.nodes }
        ensures capacity { IsCapacity N }
        ensures slot { IsDataSlot (slot_of D.dues self.now) }
    {
        self.config.nodes
    }

    /// The configuration.
    pub(crate) fn config(&self) -> &Config<N>
        ensures config { result.now ≡ self.now.config }
        ensures capacity { IsCapacity N }
        ensures slot { IsDataSlot (slot_of D.dues self.now) }
    {
        self.config
    }

    /// Whether a node is Full.
    pub(crate) fn is_full(&self, i: u8) -> bool
        ensures { result ≡ has_id self.now.full i }
    {
        self.full.has(i)
    }

    /// The senders of which a line may touch a frame.
    fn touched(&self) -> NodeSet<N>
        ensures { result ≡ self.now.touched }
    {
        self.touched
    }

    /// Whether a node is named of which a line may touch a frame.
    pub(crate) fn is_touched(&self, i: u8) -> bool
        ensures touched { result ≡ has_id self.now.touched i }
        ensures slot { IsDataSlot (slot_of D.dues self.now) }
    {
        self.touched.has(i)
    }

    /// The due channels of a node.
    pub(crate) fn due(&self, i: u8) -> &[u8]
        requires { i < self.now.config.nodes }
        ensures due { result.now ≡ D.dues self.now.dues i }
        ensures set { IsIdSet 8 result.now }
        ensures capacity { IsCapacity N }
        ensures slot { IsDataSlot (slot_of D.dues self.now) }
    {
        self.dues.due(i)
    }

    /// Whether the same channels are due at two nodes in use. It may say false of any two.
    pub(crate) fn is_due_alike(&self, i: u8, j: u8) -> bool
        ensures first { result ≡ true → i < self.now.config.nodes }
        ensures second { result ≡ true → j < self.now.config.nodes }
        ensures alike { result ≡ true → D.dues self.now.dues i ≡ D.dues self.now.dues j }
    {
        let nodes = self.nodes();
        i < nodes && j < nodes && self.dues.is_alike(i, j)
    }

    /// Whether the same channels are due at each Full node as at node `i`. It may always say false.
    pub(crate) fn are_due_alike(&self, i: u8) -> bool
        ensures { result ≡ true → (j : ℕ) → has_id self.now.full j ≡ true →
            D.dues self.now.dues j ≡ D.dues self.now.dues i }
    {
        self.dues.are_alike(&self.full, i)
    }

    /// A node's own values.
    pub(crate) fn own(&self, i: u8) -> &[Option<i64>; 8]
        requires { i < self.now.config.nodes }
        ensures own { result.now ≡ own_of (slot_of D.dues self.now) i }
        ensures slot { IsDataSlot (slot_of D.dues self.now) }
    {
        own_among(self.owns, i)
    }

    /// What a node to which so many channels are due expects of the frame of another one.
    pub(crate) fn expect(&self, from: u8, due: u8) -> Expect<N>
    where
        Nodes: Capacity<N>,
        ensures { expected result ≡
            expectation self.now.config self.now.period (self.now.config.m + 2) from [] due }
    {
        let slot = self.config.m + 2;
        self.config
            .expect(self.period, slot, from, &NodeSet::empty(), due)
    }

    /// What the fault plan does to the frames of the slot.
    pub(crate) fn talk(&self) -> Talk<'_, N>
        ensures plan { result.plan.now ≡ self.now.plan }
        ensures period { result.period ≡ self.now.period }
        ensures slot { result.slot ≡ self.now.config.m + 2 }
        ensures nodes { result.nodes ≡ self.now.config.nodes }
    {
        Talk {
            plan: self.plan,
            period: self.period,
            slot: self.config.m + 2,
            nodes: self.config.nodes,
        }
    }

    /// Whether no line touches a frame to a node.
    pub fn is_untouched(&self, i: u8) -> bool
        requires { i < self.now.config.nodes }
        ensures { result ≡ list_all
            (λ j. j == i || is_untouched (change_to (slot_of D.dues self.now) j i))
            (ids_below self.now.config.nodes) }
    {
        let nodes = self.nodes();
        let touched = self.touched();
        for j in touched.iter() {
            if j != i && j < nodes {
                let link = Link {
                    slot: self,
                    from: j,
                    to: i,
                };
                if link.effect().is_some() {
                    return false;
                }
            }
        }
        true
    }
}
