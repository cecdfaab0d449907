//! One member's item, as all awake nodes hear it.

ghost use Rattle.std.specs.Prelude.{◌≡◌, ◌≢◌, ℕ, ◌∷◌, [], true, length, slice_index_or};
ghost use Rattle.node_grid.specs.NodeSet.{has_id};
ghost use Rattle.omh_paths.specs.declared.wrapped.Wrapped.TheVariants.{Fault};
ghost use Rattle.omh.specs.Omh.{settled_at};
ghost use Rattle.equivocation.specs.Conviction.{convicts};
ghost use Rattle.item_phase.specs.Settled.{IsTold, listener};

use heard_links::{Links, Phase, listen};
use node_grid::{Capacity, NodeSet, Nodes};
use omh_paths::Wrapped;
use settled_items::{Relayed, Settling};
use settled_paths::Exchange;
use touched_items::Item;

/// A member's item, where all awake nodes have the same members.
#[derive(Drop)]
pub(crate) struct Told<'a, 'p, V, const N: usize> {
    pub(crate) links: &'a Links<V, N>,
    pub(crate) phase: &'a Phase<'p, N>,
    /// The members.
    pub(crate) members: &'a NodeSet<N>,
    /// Those whose relay frames come otherwise than they were sent.
    pub(crate) odd: &'a NodeSet<N>,
    /// The member that tells it.
    pub(crate) commander: u8,
}

impl<'a, 'p, V: Item<N>, const N: usize> Told<'a, 'p, V, N> {
    /// Who tells it, who passes it on, and who hears it.
    fn exchange(&self) -> Exchange<N>
        ensures { result ≡ record {
          rounds = self.now.phase.now.config.now.m;
          members = self.now.members.now;
          full = self.now.phase.now.full;
          awake = self.now.phase.now.awake;
          commander = self.now.commander;
        } }
    {
        Exchange {
            rounds: self.phase.config.m,
            members: *self.members,
            full: self.phase.full,
            awake: self.phase.awake,
            commander: self.commander,
        }
    }

    /// What each awake node but the commander settles, laid by node.
    pub(crate) fn settle(&self, settling: &mut Settling<V, N>, row: &mut [Wrapped<V>])
    where
        Nodes: Capacity<N>,
        requires told { IsTold V.form V.first_slot V.tells self.now.phase.now self.now.links.now
            self.now.members.now self.now.odd.now self.now.commander }
        requires room { settling.old ≡ record {
          nodes = self.now.phase.now.config.now.nodes;
          rounds = self.now.phase.now.config.now.m;
        } }
        requires places { length row.old ≡ N }
        ensures settled { (i : ℕ) → has_id self.now.phase.now.awake i ≡ true →
            self.now.commander ≢ i → slice_index_or row.new i (Fault 0) ≡
            settled_at V.eq (listener V.form self.now.phase.now self.now.links.now i)
            (self.now.commander ∷ []) }
        ensures places { length row.new ≡ N }
        ensures kept { settling.new ≡ settling.old }
    {
        let own = self.links.own(self.phase, self.commander);
        let ear = listen(self.links, self.phase);
        let item = Relayed {
            exchange: self.exchange(),
            odd: *self.odd,
            own: &own,
            touched: &ear,
        };
        settling.settle_all(&item, row);
    }

    /// The awake nodes that convict the commander, which is another node.
    pub(crate) fn convicting(&self, settling: &mut Settling<V, N>) -> NodeSet<N>
    where
        Nodes: Capacity<N>,
        requires told { IsTold V.form V.first_slot V.tells self.now.phase.now self.now.links.now
            self.now.members.now self.now.odd.now self.now.commander }
        ensures convicts { (i : ℕ) → has_id self.now.phase.now.awake i ≡ true →
            self.now.commander ≢ i → has_id result i ≡
            convicts V.eq (listener V.form self.now.phase.now self.now.links.now i)
            self.now.commander }
        ensures kept { settling.new ≡ settling.old }
    {
        let own = self.links.own(self.phase, self.commander);
        let ear = listen(self.links, self.phase);
        let item = Relayed {
            exchange: self.exchange(),
            odd: *self.odd,
            own: &own,
            touched: &ear,
        };
        settling.convicting(&item)
    }
}
