//! The slot, for all nodes.

ghost use Rattle.std.specs.Prelude.{◌≡◌, ◌≢◌, ℕ, ◌<◌, ◌≤◌, ◌==◌, ◌&&◌, not, [], true, false, None};
ghost use Rattle.std.specs.Prelude.{Some, length, slice_index_or};
ghost use Rattle.node_grid.specs.NodeSet.{IsIdSet, has_id, ids_where};
ghost use Rattle.fault_classes.specs.Line.{effect_at};
ghost use Rattle.error_reports.specs.Notes.{also_noted};
ghost use Rattle.agreed_state.specs.Agreed.{AgreedView};
ghost use Rattle.protocol.specs.View.{adopted_by};
ghost use Rattle.protocol.specs.Arrival.{is_good};
ghost use Rattle.protocol.specs.Run.{System};
ghost use Rattle.protocol.specs.Configured.{setting_of};
ghost use Rattle.shared_states.specs.Sharing.{state_at, AreAgreed};
ghost use Rattle.heard_states.specs.Slot.{IsSyncSlot, AreReady, IsSlotOf, AreHeard, noted_states};
ghost use Rattle.heard_states.specs.Calm.{AreUntouched, IsCalm};
ghost use Rattle.heard_states.specs.Told.{told_in, AreSenders};

use crate::hearing::{good_of, note_heard};
use crate::sending::{Senders, Sending};
use agreed_state::Config;
use error_reports::RowBuilder;
use fault_classes::FaultPlan;
use node_grid::{Capacity, NodeSet, Nodes};
use shared_states::SharedStates;

/// The sync slot of a period, in which every node says its agreed state to all others.
#[derive(Clone, Copy)]
pub struct SyncSlot<'a, const N: usize> {
    /// What all nodes know before the first period.
    pub config: &'a Config<N>,
    /// The fault plan of the run, of as many nodes.
    pub plan: &'a FaultPlan<N>,
    /// The period, one of the plan.
    pub period: u32,
}

impl<const N: usize> SyncSlot<'_, N> {
    /// Whether a line touches a frame that the node sends in the slot.
    fn touches(&self, from: u8) -> bool
        requires slot { IsSyncSlot self.now }
        requires from { from < self.now.config.now.nodes }
        ensures { result ≡ false → (i : ℕ) → i < self.now.config.now.nodes → from ≢ i →
            effect_at self.now.plan.now.lines self.now.period 0 from i ≡ None }
    {
        for to in 0..self.config.nodes {
            if to != from && self.plan.effect(self.period, 0, from, to).is_some() {
                return true;
            }
        }
        false
    }

    /// The nodes a frame of which a line touches in the slot.
    fn touched(&self) -> NodeSet<N>
        requires { IsSyncSlot self.now }
        ensures { AreUntouched self.now result }
    {
        let mut touched = NodeSet::empty();
        for from in 0..self.config.nodes {
            if !self.plan.clean(from, self.period) && self.touches(from) {
                touched.put(from);
            }
        }
        touched
    }

    /// Whether all nodes in use have one state, and each hears the others as they send.
    fn is_calm(&self, senders: &Senders<N>, states: &SharedStates<N>) -> bool
        requires { AreSenders self.now senders.now states.now }
        ensures { result ≡ true → IsCalm self.now states.now }
    {
        senders.touched.is_empty()
            && senders.full == NodeSet::full(self.config.nodes)
            && states.is_one()
    }

    /// For each node in use the others.
    fn others(&self) -> [NodeSet<N>; N]
        requires { IsSyncSlot self.now }
        ensures { (i : ℕ) → i < self.now.config.now.nodes →
            slice_index_or result i [] ≡ ids_where (λ j. not (j == i)) self.now.config.now.nodes }
    {
        let all = NodeSet::full(self.config.nodes);
        let mut others = [all; N];
        for node in 0..self.config.nodes {
            others[node as usize] = all.without(node);
        }
        others
    }

    /// Gives node `i` the state that it adopts, if any, from what these nodes say: that of a
    /// leader where there is one.
    fn adopt_at(&self, i: u8, senders: &Senders<N>, states: &mut SharedStates<N>)
    where
        Nodes: Capacity<N>,
        requires senders { AreSenders self.now senders.now states.old }
        requires node { i < self.now.config.now.nodes }
        requires none { state_at states.old i ≡ None }
        ensures own { state_at states.new i ≡
            adopted_by (setting_of self.now.config.now) i
            (told_in self.now senders.now.full states.old i) }
        ensures others { (j : ℕ) → j ≢ i → state_at states.new j ≡ state_at states.old j }
        ensures long { length states.new ≡ N }
        ensures agreed { AreAgreed self.now.config.now states.new }
    {
        let sending = Sending {
            slot: *self,
            senders: *senders,
            states,
        };
        match sending.leader() {
            Some(leader) => states.share(i, leader),
            None => self.adopt_told(i, senders, states),
        }
    }

    /// The same by all that the node is told.
    fn adopt_told(&self, i: u8, senders: &Senders<N>, states: &mut SharedStates<N>)
    where
        Nodes: Capacity<N>,
        requires senders { AreSenders self.now senders.now states.old }
        requires node { i < self.now.config.now.nodes }
        requires none { state_at states.old i ≡ None }
        ensures own { state_at states.new i ≡
            adopted_by (setting_of self.now.config.now) i
            (told_in self.now senders.now.full states.old i) }
        ensures others { (j : ℕ) → j ≢ i → state_at states.new j ≡ state_at states.old j }
        ensures long { length states.new ≡ N }
        ensures agreed { AreAgreed self.now.config.now states.new }
    {
        let sending = Sending {
            slot: *self,
            senders: *senders,
            states,
        };
        if let Some(state) = sending.adopted(i) {
            let mut one = NodeSet::empty();
            one.put(i);
            states.replace(&one, &state);
        }
    }

    /// Hears what these nodes say as node `i`, which notes what it finds of their frames. The
    /// answer is the set of nodes whose frame was good.
    fn hear_at(
        &self,
        i: u8,
        senders: &Senders<N>,
        states: &SharedStates<N>,
        notes: &mut RowBuilder<N>,
    ) -> NodeSet<N>
    where
        Nodes: Capacity<N>,
        requires senders { AreSenders self.now senders.now states.now }
        requires node { i < self.now.config.now.nodes }
        requires nodes { notes.old.nodes ≡ self.now.config.now.nodes }
        requires me { notes.old.me ≡ i }
        ensures good { result ≡ ids_where (λ j. not (j == i) &&
            is_good (told_in self.now senders.now.full states.now i j)) self.now.config.now.nodes }
        ensures notes { (a : AgreedView) → state_at states.now i ≡ Some a → notes.new ≡
            also_noted N notes.old
            (noted_states self.now.config.now a (told_in self.now senders.now.full states.now i)) }
        ensures kept { notes.new ≡ record notes.old { row = notes.new.row } }
    {
        let sending = Sending {
            slot: *self,
            senders: *senders,
            states,
        };
        let heard = sending.heard_all(i);
        note_heard(&heard, notes);
        good_of(&heard, self.config.nodes, i)
    }

    /// Hears the slot as each node in use, and gives each the state with which it goes through
    /// the period: the same as before where it has one, and else the one that it adopts. Each
    /// that has one then notes errors and who tells another state; of one that stays without,
    /// the row holds nothing of use. The answer is, by node, the others whose frame was good.
    pub fn hear(&self, states: &mut SharedStates<N>, notes: &mut [RowBuilder<N>]) -> [NodeSet<N>; N]
    where
        Nodes: Capacity<N>,
        requires slot { IsSyncSlot self.now }
        requires ready { AreReady self.now states.old notes.old }
        ensures heard { (sys : System) → IsSlotOf self.now states.old notes.old sys →
            AreHeard self.now sys notes.old states.new notes.new result }
        ensures ready { AreReady self.now states.new notes.new }
    {
        let senders = Senders {
            full: states.awake(),
            touched: self.touched(),
        };
        if self.is_calm(&senders, states) {
            return self.others();
        }
        let mut heard = [NodeSet::empty(); N];
        for i in 0..self.config.nodes {
            if !senders.full.has(i) {
                self.adopt_at(i, &senders, states);
            }
            heard[i as usize] = self.hear_at(i, &senders, states, &mut notes[i as usize]);
        }
        heard
    }
}
