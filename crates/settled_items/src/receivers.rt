ghost use Rattle.std.specs.Prelude.{◌≡◌, ◌≢◌, ℕ, ◌∷◌, [], All, length, slice_index_or, true, false};
ghost use Rattle.node_grid.specs.NodeSet.{has_id};
ghost use Rattle.omh_paths.specs.declared.wrapped.Wrapped.TheVariants.{Fault};
ghost use Rattle.omh.specs.Omh.{ear, settled};
ghost use Rattle.equivocation.specs.Conviction.{convicts};
ghost use Rattle.settled_paths.specs.Passing.{or_passed};
ghost use Rattle.settled_items.specs.Relaying.{AreFewOdd};
ghost use Rattle.settled_items.specs.Relayed.{relayed_world, IsRelayed, IsToldByNode};

use crate::relayed::{Relayed, has_few_odd};
use crate::room::FewRoom;
use crate::values::are_alike;
use node_grid::{Capacity, NodeSet, Nodes};
use odd_relays::{Item, Phase};
use omh_paths::{Exact, Wrapped};
use settled_paths::Touched;

impl<'a, V: Exact, T: Touched<V>, const N: usize> Relayed<'a, V, T, N> {
    /// What each awake node settles for the item of another member, by paths of odd members, laid
    /// at the node's place in `all`. It is laid by node what the commander told each of them.
    fn settle_told(&self, room: &mut FewRoom<V, N>, all: &mut [Wrapped<V>])
        requires item { IsRelayed T.says self.now }
        requires few { AreFewOdd self.now.exchange.rounds self.now.exchange.members
            self.now.exchange.full self.now.odd }
        requires told { IsToldByNode T.says self.now room.old.told.items }
        requires places { length all.old ≡ N }
        ensures settled { (i : ℕ) → has_id self.now.exchange.awake i ≡ true →
            self.now.exchange.commander ≢ i → slice_index_or all.new i (Fault 0) ≡
            settled V.eq (relayed_world T.says self.now) i (self.now.exchange.commander ∷ []) }
        ensures places { length all.new ≡ N }
    {
        let _ = self.exchange.members.len();
        let phase = Phase {
            rounds: self.exchange.rounds,
            members: self.exchange.members,
            full: self.exchange.full,
        };
        let item = Item {
            phase,
            commander: self.exchange.commander,
            odd: self.odd,
            told: room.told.as_slice(),
            relays: self,
        };
        item.settle_all(&self.exchange.awake, room.work.as_mut_slice(), all);
    }

    /// Whether all these nodes were told the same and few members are odd, so that none of them
    /// convicts the commander.
    fn is_spared(&self, nodes: &NodeSet<N>, told: &[Wrapped<V>]) -> bool
    where
        Nodes: Capacity<N>,
        requires item { IsRelayed T.says self.now }
        requires nodes { (i : ℕ) → has_id self.now.exchange.awake i ≡ true →
            self.now.exchange.commander ≢ i → has_id nodes.now i ≡ true }
        requires told { IsToldByNode T.says self.now told.now }
        ensures { result ≡ true → (i : ℕ) → has_id self.now.exchange.awake i ≡ true →
            self.now.exchange.commander ≢ i →
            convicts V.eq (ear (relayed_world T.says self.now) i) self.now.exchange.commander
            ≡ false }
    {
        let _ = self.exchange.members.len();
        let Some(first) = nodes.least() else {
            return false;
        };
        are_alike(told, nodes, first) && has_few_odd(&self.exchange, &self.odd)
    }

    /// The awake nodes that convict the commander, which is another node. It is laid by node what
    /// the commander told each of them.
    fn convict_told(&self, told: &[Wrapped<V>]) -> NodeSet<N>
    where
        Nodes: Capacity<N>,
        requires item { IsRelayed T.says self.now }
        requires told { IsToldByNode T.says self.now told.now }
        ensures convicts { (i : ℕ) → has_id self.now.exchange.awake i ≡ true →
            self.now.exchange.commander ≢ i → has_id result i ≡
            convicts V.eq (ear (relayed_world T.says self.now) i) self.now.exchange.commander }
        ensures within { (i : ℕ) → has_id result i ≡ true →
            (has_id self.now.exchange.awake i ≡ true) × (self.now.exchange.commander ≢ i) }
    {
        let _ = self.exchange.members.len();
        let nodes = self.exchange.awake.without(self.exchange.commander);
        if self.is_spared(&nodes, told) {
            return NodeSet::empty();
        }
        let phase = Phase {
            rounds: self.exchange.rounds,
            members: self.exchange.members,
            full: self.exchange.full,
        };
        let item = Item {
            phase,
            commander: self.exchange.commander,
            odd: self.odd,
            told,
            relays: self,
        };
        item.convicting(&nodes)
    }

    /// What each awake node settles for the item of another member, by paths of odd members, laid
    /// at the node's place in `all`. What is left in `room` means nothing.
    pub(crate) fn settle_few(&self, room: &mut FewRoom<V, N>, all: &mut [Wrapped<V>])
        requires item { IsRelayed T.says self.now }
        requires few { AreFewOdd self.now.exchange.rounds self.now.exchange.members
            self.now.exchange.full self.now.odd }
        requires places { length all.old ≡ N }
        ensures settled { (i : ℕ) → has_id self.now.exchange.awake i ≡ true →
            self.now.exchange.commander ≢ i → slice_index_or all.new i (Fault 0) ≡
            settled V.eq (relayed_world T.says self.now) i (self.now.exchange.commander ∷ []) }
        ensures places { length all.new ≡ N }
    {
        self.lay_told(room.told.as_mut_slice());
        self.settle_told(room, all);
    }

    /// The awake nodes that convict the commander, which is another node. What is left in `room`
    /// means nothing.
    pub(crate) fn convicting(&self, room: &mut FewRoom<V, N>) -> NodeSet<N>
    where
        Nodes: Capacity<N>,
        requires item { IsRelayed T.says self.now }
        ensures convicts { (i : ℕ) → has_id self.now.exchange.awake i ≡ true →
            self.now.exchange.commander ≢ i → has_id result i ≡
            convicts V.eq (ear (relayed_world T.says self.now) i) self.now.exchange.commander }
        ensures within { (i : ℕ) → has_id result i ≡ true →
            (has_id self.now.exchange.awake i ≡ true) × (self.now.exchange.commander ≢ i) }
    {
        self.lay_told(room.told.as_mut_slice());
        self.convict_told(room.told.as_slice())
    }
}
