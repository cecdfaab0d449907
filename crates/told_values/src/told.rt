//! The values of its due channels that a node has, by sender.

ghost use Rattle.std.specs.Prelude.{◌≡◌, ◌≢◌, ℕ, ◌<◌, None, false, true};
ghost use Rattle.node_grid.specs.NodeSet.{has_id};
ghost use Rattle.protocol.specs.View.{Received, value_from};
ghost use Rattle.data_slot.specs.Told.{at_channel};
ghost use Rattle.told_values.specs.Slot.{slot_of, own_of, own_told, change_to, AreOwnTold};
ghost use Rattle.told_values.specs.Slot.{Hears, IsTold, HearAlike};

use crate::dues::Dues;
use crate::link::Link;
use crate::listener::Listener;
use crate::slot::DataSlot;
use data_slot::own_by_channel;
use node_grid::{Capacity, Nodes};

impl<'a, D: Dues<N>, const N: usize> DataSlot<'a, D, N> {
    /// A node's own values of its due channels, by channel; None where it isn't Full, as only a
    /// Full node votes on them.
    fn own_values(&self, i: u8) -> Option<[i64; 8]>
        requires { i < self.now.config.nodes }
        ensures { let d = slot_of D.dues self.now in (c : ℕ) →
            (has_id d.full i ≡ true → has_id (d.due i) c ≡ true) →
            at_channel result c ≡ own_told d i c }
    {
        if self.is_full(i) {
            Some(own_by_channel(self.own(i)))
        } else {
            None
        }
    }

    /// The own values of all nodes of their due channels, with None for those that aren't Full:
    /// what each node has of the others where no line touches a frame and the same channels are
    /// due.
    pub fn own_told(&self) -> [Option<[i64; 8]>; N]
        ensures { AreOwnTold (slot_of D.dues self.now) result }
    {
        let nodes = self.nodes();
        let mut told = [None; N];
        for node in 0..nodes {
            told[node as usize] = self.own_values(node);
        }
        told
    }
}

impl<'s, 'a, D: Dues<N>, const N: usize> Listener<'s, 'a, D, N> {
    /// The values of its due channels that a node has from one node.
    fn values_from(&self, from: u8) -> Option<[i64; 8]>
    where
        Nodes: Capacity<N>,
        requires { from < self.now.slot.now.config.nodes }
        ensures { let d = slot_of D.dues self.now.slot.now in let i = self.now.node in
            (x : Received) → Hears d i x → (c : ℕ) → has_id (d.due i) c ≡ true →
            at_channel result c ≡
            value_from i (has_id d.full i) (d.due i) (own_of d i) x c from }
    {
        if from == self.node {
            return self.slot.own_values(self.node);
        }
        let link = Link {
            slot: self.slot,
            from,
            to: self.node,
        };
        link.hear().values()
    }

    /// What a node has, asked of each sender.
    fn told_by_each(&self) -> [Option<[i64; 8]>; N]
    where
        Nodes: Capacity<N>,
        ensures { let d = slot_of D.dues self.now.slot.now in
            (x : Received) → Hears d self.now.node x → IsTold d self.now.node x result }
    {
        let nodes = self.slot.nodes();
        let mut told = [None; N];
        for from in 0..nodes {
            told[from as usize] = self.values_from(from);
        }
        told
    }

    /// Whether a line may touch the frame of a sender.
    fn may_touch(&self, from: u8) -> bool
        ensures link { result ≡ true → from ≢ self.now.node }
        ensures untouched { result ≡ false → from < self.now.slot.now.config.nodes →
            from ≢ self.now.node →
            change_to (slot_of D.dues self.now.slot.now) from self.now.node ≡ None }
    {
        from != self.node && self.slot.is_touched(from)
    }

    /// What a node has to which the same channels are due as to all Full nodes: their own values,
    /// but where a line touches the frame.
    fn told_alike(&self, own: &[Option<[i64; 8]>; N]) -> [Option<[i64; 8]>; N]
    where
        Nodes: Capacity<N>,
        requires own { AreOwnTold (slot_of D.dues self.now.slot.now) own.now }
        requires alike { let d = slot_of D.dues self.now.slot.now in
            (j : ℕ) → has_id d.full j ≡ true → d.due j ≡ d.due self.now.node }
        ensures { let d = slot_of D.dues self.now.slot.now in
            (x : Received) → Hears d self.now.node x → IsTold d self.now.node x result }
    {
        let nodes = self.slot.nodes();
        let mut told = *own;
        for from in 0..nodes {
            if self.may_touch(from) {
                let link = Link {
                    slot: self.slot,
                    from,
                    to: self.node,
                };
                told[from as usize] = link.hear().values();
            }
        }
        told
    }
}

impl<'a, D: Dues<N>, const N: usize> DataSlot<'a, D, N> {
    /// The values of its due channels that a node has, by sender, and of each by channel. Those of
    /// its own are among them where it is Full. What stands in the places of other channels counts
    /// for nothing.
    pub fn told(&self, i: u8, own: &[Option<[i64; 8]>; N]) -> [Option<[i64; 8]>; N]
    where
        Nodes: Capacity<N>,
        requires node { i < self.now.config.nodes }
        requires own { AreOwnTold (slot_of D.dues self.now) own.now }
        ensures { (x : Received) → Hears (slot_of D.dues self.now) i x →
            IsTold (slot_of D.dues self.now) i x result }
    {
        let listener = Listener {
            slot: self,
            node: i,
        };
        if self.are_due_alike(i) {
            listener.told_alike(own)
        } else {
            listener.told_by_each()
        }
    }

    /// Whether what node `i` has of the values node `j` has too: both are in use, no line touches a
    /// frame to either, and the same channels are due to both. It may say false of any two.
    pub fn hears_alike(&self, i: u8, j: u8) -> bool
        ensures { result ≡ true → HearAlike (slot_of D.dues self.now) i j }
    {
        if !self.is_due_alike(i, j) {
            return false;
        }
        self.is_untouched(i) && self.is_untouched(j)
    }
}
