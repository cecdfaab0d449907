//! What nodes note of the data slot.

ghost use Rattle.std.specs.Prelude.{◌≡◌, ◌≢◌, ℕ, ◌<◌, ◌==◌, ◌&&◌, ◌||◌, Bool, None, true};
ghost use Rattle.std.specs.Prelude.{slice_index_or};
ghost use Rattle.node_grid.specs.Kinds.{deviate};
ghost use Rattle.node_grid.specs.NodeSet.{has_id, ids_below};
ghost use Rattle.error_reports.specs.Notes.{also_noted, is_kind, of_each};
ghost use Rattle.protocol.specs.Arrival.{is_bad, is_good};
ghost use Rattle.protocol.specs.View.{Received};
ghost use Rattle.told_values.specs.Slot.{slot_of, Hears};
ghost use Rattle.told_values.specs.Within.{IsWithin, AreNotesOf};

use crate::dues::Dues;
use crate::link::Link;
use crate::listener::Listener;
use crate::slot::DataSlot;
use error_reports::RowBuilder;
use node_grid::kind::DEVIATE;
use node_grid::{Capacity, NodeSet, Nodes};

/// Notes these kinds of error by node.
fn note_kinds<const N: usize>(notes: &mut RowBuilder<N>, kinds: &[Option<u8>; N])
where
    Nodes: Capacity<N>,
    ensures { notes.new ≡ also_noted N notes.old
        (λ j k. is_kind (slice_index_or kinds.now j None) k) }
{
    notes.note_each(
        |j| -> Option<u8>
            requires { j < N }
            ensures { result ≡ slice_index_or kinds.entry.now j None }
        { kinds[j as usize] },
    );
}

impl<'a, D: Dues<N>, const N: usize> DataSlot<'a, D, N> {
    /// Whether all nodes are Full.
    fn are_full(&self) -> bool
        ensures { result ≡ true → (j : ℕ) → j < self.now.config.nodes →
            has_id self.now.full j ≡ true }
    {
        let all: NodeSet<N> = NodeSet::full(self.config.nodes);
        all.minus(&self.full).is_empty()
    }
}

impl<'s, 'a, D: Dues<N>, const N: usize> Listener<'s, 'a, D, N> {
    /// Whether all other nodes' frames are seen at once to come well to a node.
    fn hears_all(&self) -> bool
        ensures { let d = slot_of D.dues self.now.slot.now in
            result ≡ true → (x : Received) → Hears d self.now.node x →
            (j : ℕ) → j < d.config.nodes → j ≢ self.now.node → is_good (x.values j) ≡ true }
    {
        if !self.slot.are_full() {
            return false;
        }
        self.slot.are_due_alike(self.node) && self.slot.is_untouched(self.node)
    }

    /// The kind of error that a node finds of each other node's frame.
    fn kinds(&self) -> [Option<u8>; N]
    where
        Nodes: Capacity<N>,
        ensures { let d = slot_of D.dues self.now.slot.now in
            (x : Received) → Hears d self.now.node x →
            (j k : ℕ) → j < d.config.nodes → j ≢ self.now.node →
            is_kind (slice_index_or result j None) k ≡ is_bad (x.values j) k }
    {
        let nodes = self.slot.nodes();
        let mut kinds = [None; N];
        for j in 0..nodes {
            if j != self.node {
                let link = Link {
                    slot: self.slot,
                    from: j,
                    to: self.node,
                };
                kinds[j as usize] = link.kind();
            }
        }
        kinds
    }

    /// Notes what a node finds of the frames.
    fn note_errors(&self, notes: &mut RowBuilder<N>)
    where
        Nodes: Capacity<N>,
        requires notes { AreNotesOf N self.now.slot.now.config.nodes self.now.node notes.old }
        ensures errors { let d = slot_of D.dues self.now.slot.now in
            (x : Received) → Hears d self.now.node x →
            notes.new ≡ also_noted N notes.old (λ j k. is_bad (x.values j) k) }
        ensures kept { notes.new ≡ record notes.old { row = notes.new.row } }
        ensures within { IsWithin N notes.new }
    {
        if !self.hears_all() {
            note_kinds(notes, &self.kinds());
        }
    }

    /// Notes the other nodes of which a value is too far from the vote.
    fn note_off(&self, off: &NodeSet<N>, notes: &mut RowBuilder<N>)
    where
        Nodes: Capacity<N>,
        requires notes { AreNotesOf N self.now.slot.now.config.nodes self.now.node notes.old }
        ensures { notes.new ≡ also_noted N notes.old (of_each off.now deviate) }
    {
        // Proofs need here that no more nodes are in use than there are.
        let _ = self.slot.nodes();
        if !off.without(self.node).is_empty() {
            notes.note_all(off, DEVIATE);
        }
    }
}

impl<'a, D: Dues<N>, const N: usize> DataSlot<'a, D, N> {
    /// Notes what node `i` finds of the frames, and the other nodes of which a value is too far
    /// from the vote, in this period's row. Where it finds nothing its notes are left as they are.
    pub fn note(&self, i: u8, off: &NodeSet<N>, notes: &mut RowBuilder<N>)
    where
        Nodes: Capacity<N>,
        requires node { i < self.now.config.nodes }
        requires notes { AreNotesOf N self.now.config.nodes i notes.old }
        ensures noted { (x : Received) → Hears (slot_of D.dues self.now) i x →
            (far : ℕ → Bool) →
            ((q : ℕ) → q < self.now.config.nodes → q ≢ i → has_id off.now q ≡ far q) →
            notes.new ≡ also_noted N notes.old
            (λ q k. is_bad (x.values q) k || (far q && k == deviate)) }
        ensures kept { notes.new ≡ record notes.old { row = notes.new.row } }
        ensures within { IsWithin N notes.new }
    {
        let listener = Listener {
            slot: self,
            node: i,
        };
        listener.note_errors(notes);
        listener.note_off(off, notes);
    }
}
