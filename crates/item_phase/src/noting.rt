//! What is noted of the frames of a phase.

ghost use Rattle.std.specs.Prelude.{◌≡◌, ◌≢◌, ◌<◌, ◌≤◌, ◌+◌, ℕ, true, false, None};
ghost use Rattle.node_grid.specs.Capacity.{IsCapacity};
ghost use Rattle.node_grid.specs.NodeSet.{has_id};
ghost use Rattle.error_reports.specs.Notes.{also_noted, also_carried};
ghost use Rattle.protocol.specs.Heard.{rounds_bad};
ghost use Rattle.heard_links.specs.Hearing.{IsHeard, frame_kind};
ghost use Rattle.item_phase.specs.Settled.{IsSettled, AreOdd};
ghost use Rattle.item_phase.specs.Noted.{rounds_of, of_node, IsNoter, IsCarrier};

use crate::item_phase::ItemPhase;
use error_reports::RowBuilder;
use heard_links::Phase;
use node_grid::{Capacity, NodeSet, Nodes};
use touched_items::Item;

impl<V: Item<N>, const N: usize> ItemPhase<V, N> {
    /// The nodes of whose frames another awake node may find one bad: those that aren't Full, and
    /// those of whose frames one is touched.
    pub(crate) fn ill(&self, phase: &Phase<'_, N>, odd: &NodeSet<N>) -> NodeSet<N>
        requires heard { IsHeard V.form V.first_slot V.tells phase.now self.now.links
            (phase.now.config.now.m + 1) }
        requires odd { AreOdd V.form phase.now self.now.links odd.now }
        ensures used { (j : ℕ) → has_id result j ≡ true → j < phase.now.config.now.nodes }
        ensures well { (r j i : ℕ) → r ≤ phase.now.config.now.m →
            j < phase.now.config.now.nodes → has_id result j ≡ false →
            has_id phase.now.awake i ≡ true → i ≢ j →
            frame_kind (rounds_of V.form phase.now self.now.links i) r j ≡ None }
    {
        let untold = self.links.touched(phase, 0);
        let told = phase.full.minus(&untold);
        let well = told.minus(odd);
        let all: NodeSet<N> = NodeSet::full(phase.config.nodes);
        all.minus(&well)
    }

    /// Notes what awake node `i` found of the frames of another node.
    fn note_of(&self, phase: &Phase<'_, N>, i: u8, j: u8, notes: &mut RowBuilder<N>)
    where
        Nodes: Capacity<N>,
        requires settled { IsSettled V.eq V.form V.first_slot V.tells phase.now self.now }
        requires node { has_id phase.now.awake i ≡ true }
        requires from { j < phase.now.config.now.nodes }
        requires other { j ≢ i }
        requires notes { IsNoter phase.now.config.now i notes.old }
        ensures { notes.new ≡ also_noted N notes.old (of_node j
            (rounds_bad phase.now.config.now.m (rounds_of V.form phase.now self.now.links i))) }
    {
        for round in 0..phase.config.m + 1 {
            if let Some(kind) = self.links.kind(phase, round, j, i) {
                notes.note(j, kind);
            }
        }
    }

    /// Notes what awake node `i` found of the frames of all rounds, in this period's row.
    pub fn note(&self, phase: &Phase<'_, N>, i: u8, notes: &mut RowBuilder<N>)
    where
        Nodes: Capacity<N>,
        requires settled { IsSettled V.eq V.form V.first_slot V.tells phase.now self.now }
        requires node { has_id phase.now.awake i ≡ true }
        requires notes { IsNoter phase.now.config.now i notes.old }
        ensures { notes.new ≡ also_noted N notes.old
            (rounds_bad phase.now.config.now.m (rounds_of V.form phase.now self.now.links i)) }
    {
        for j in self.seen.ill.iter() {
            if j != i {
                self.note_of(phase, i, j, notes);
            }
        }
    }

    /// Carries over what awake node `i` found of the frames of another node.
    fn carry_of(&self, phase: &Phase<'_, N>, i: u8, j: u8, notes: &mut RowBuilder<N>)
    where
        Nodes: Capacity<N>,
        requires settled { IsSettled V.eq V.form V.first_slot V.tells phase.now self.now }
        requires node { has_id phase.now.awake i ≡ true }
        requires from { j < phase.now.config.now.nodes }
        requires other { j ≢ i }
        requires notes { IsCarrier phase.now.config.now i notes.old }
        ensures { notes.new ≡ also_carried N notes.old (of_node j
            (rounds_bad phase.now.config.now.m (rounds_of V.form phase.now self.now.links i))) }
    {
        for round in 0..phase.config.m + 1 {
            if let Some(kind) = self.links.kind(phase, round, j, i) {
                notes.carry(j, kind);
            }
        }
    }

    /// The same for the next period's row.
    pub fn carry(&self, phase: &Phase<'_, N>, i: u8, notes: &mut RowBuilder<N>)
    where
        Nodes: Capacity<N>,
        requires settled { IsSettled V.eq V.form V.first_slot V.tells phase.now self.now }
        requires node { has_id phase.now.awake i ≡ true }
        requires notes { IsCarrier phase.now.config.now i notes.old }
        ensures { notes.new ≡ also_carried N notes.old
            (rounds_bad phase.now.config.now.m (rounds_of V.form phase.now self.now.links i)) }
    {
        for j in self.seen.ill.iter() {
            if j != i {
                self.carry_of(phase, i, j, notes);
            }
        }
    }
}
