ghost use Rattle.std.specs.Prelude.{◌≡◌, ◌≢◌, ℕ, ◌<◌, ◌≤◌, ◌∷◌, [], length, slice_index_or, IfOk};
ghost use Rattle.std.specs.Prelude.{true, false};
ghost use Rattle.node_grid.specs.NodeSet.{has_id};
ghost use Rattle.omh_paths.specs.declared.wrapped.Wrapped.TheVariants.{Fault};
ghost use Rattle.omh.specs.Omh.{ear, settled};
ghost use Rattle.equivocation.specs.Conviction.{convicts};
ghost use Rattle.settled_items.specs.Relayed.{relayed_world, IsRelayed};

use crate::relayed::{Relayed, has_few_odd};
use crate::room::FewRoom;
use counted_relays::settle_untouched;
use node_grid::{Capacity, NoMemory, NodeSet, Nodes};
use omh_paths::{Exact, Wrapped};
use settled_paths::{Laid, Touched};
use std::alloc::Global;
use std::marker::Model;

/// Room for settling one item after another.
///
/// All its memory is taken by [`Settling::open`]. What is left in it from an item means nothing.
#[derive(Drop)]
pub struct Settling<V, const N: usize> {
    laid: Laid<V>,
    few: FewRoom<V, N>,
}

// Clauses see for how many nodes and rounds it has room.
impl<V, const N: usize> Model for Settling<V, N> {
    ghost use Rattle.settled_paths.specs.Rooms.{Room};

    ghost Value = { Room };

    ghost view = { λ s. s.laid };
}

impl<V: Exact + Drop, const N: usize> Settling<V, N>
where
    Nodes: Capacity<N>,
{
    /// Room for the items of `nodes` nodes, at most N, relayed in `rounds` rounds, at most 3.
    pub fn open(alloc: Global, nodes: u8, rounds: u8) -> Result<Settling<V, N>, NoMemory>
        requires nodes { nodes ≤ N }
        requires rounds { rounds ≤ 3 }
        ensures { IfOk result (λ s. s ≡ record { nodes = nodes; rounds = rounds }) }
    {
        let Ok(laid) = Laid::open(alloc, nodes, rounds) else {
            return Err(NoMemory);
        };
        let few = FewRoom::open(alloc)?;
        Ok(Settling { laid, few })
    }

    /// What each awake node but the commander settles for the item, laid at the node's place in
    /// `all`. Other places of `all` mean nothing.
    pub fn settle_all<T: Touched<V>>(&mut self, item: &Relayed<'_, V, T, N>, all: &mut [Wrapped<V>])
        requires item { IsRelayed T.says item.now }
        requires rounds { item.now.exchange.rounds ≡ self.old.rounds }
        requires nodes { (q : ℕ) → has_id item.now.exchange.members q ≡ true → q < self.old.nodes }
        requires places { length all.old ≡ N }
        ensures settled { (i : ℕ) → has_id item.now.exchange.awake i ≡ true →
            item.now.exchange.commander ≢ i → slice_index_or all.new i (Fault 0) ≡
            settled V.eq (relayed_world T.says item.now) i (item.now.exchange.commander ∷ []) }
        ensures places { length all.new ≡ N }
        ensures kept { self.new ≡ self.old }
    {
        if has_few_odd(&item.exchange, &item.odd) {
            item.settle_few(&mut self.few, all);
        } else if !settle_untouched(&item.exchange, item.own(), item.touched, all) {
            self.laid
                .settle_all(&item.exchange, item.own(), item.touched, all);
        }
    }

    /// The awake nodes that convict the commander, which is another node.
    pub fn convicting<T: Touched<V>>(&mut self, item: &Relayed<'_, V, T, N>) -> NodeSet<N>
        requires item { IsRelayed T.says item.now }
        ensures convicts { (i : ℕ) → has_id item.now.exchange.awake i ≡ true →
            item.now.exchange.commander ≢ i → has_id result i ≡
            convicts V.eq (ear (relayed_world T.says item.now) i) item.now.exchange.commander }
        ensures within { (i : ℕ) → has_id result i ≡ true →
            (has_id item.now.exchange.awake i ≡ true) × (item.now.exchange.commander ≢ i) }
        ensures kept { self.new ≡ self.old }
    {
        item.convicting(&mut self.few)
    }
}
