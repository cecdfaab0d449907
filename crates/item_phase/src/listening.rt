//! How nodes that go by members of their own settle the items, each by itself.

ghost use Rattle.std.specs.Prelude.{◌≡◌, ◌≢◌, ℕ, ◌<◌, ◌≤◌, ◌+◌, ◌*◌, ◌⊎◌, true, false, []};
ghost use Rattle.std.specs.Prelude.{slice_index_or};
ghost use Rattle.node_grid.specs.NodeSet.{has_id};
ghost use Rattle.omh_paths.specs.declared.wrapped.Wrapped.TheVariants.{Fault};
ghost use Rattle.heard_links.specs.Talks.{members_at};
ghost use Rattle.heard_links.specs.Hearing.{IsHeard};
ghost use Rattle.item_phase.specs.Settled.{IsSettled, IsLaid};
ghost use Rattle.item_phase.specs.Listening.{hears_in};

use crate::asking::members_of;
use crate::item_phase::{ItemPhase, Seen};
use heard_links::{Links, Phase};
use node_grid::{Capacity, NodeSet, Nodes};
use omh_paths::{Path, Wrapped};
use settled_items::{Hearing, Listener};
use std::marker::Model;
use touched_items::Item;

/// What one node heard.
#[derive(Drop)]
struct NodeEar<'a, 'p, V: Item<N>, const N: usize> {
    links: &'a Links<V, N>,
    phase: &'a Phase<'p, N>,
    me: u8,
}

// Clauses see what it was worked out from.
impl<'a, 'p, V: Item<N>, const N: usize> Model for NodeEar<'a, 'p, V, N> {
    ghost use Rattle.std.specs.Prelude.{ℕ, ◌+◌};
    ghost use Rattle.heard_links.specs.declared.links.Links.{Links};
    ghost use Rattle.heard_links.specs.declared.phase.Phase.{Phase};
    ghost use Rattle.heard_links.specs.Hearing.{IsHeard};

    ghost Value = { Links V N × Phase N × ℕ };

    ghost view = { λ e. (e.links.now, e.phase.now, e.me) };

    ghost invariant = { λ e. IsHeard V.form V.first_slot V.tells e.phase.now e.links.now
        (e.phase.now.config.now.m + 1) };
}

impl<'a, 'p, V: Item<N>, const N: usize> Hearing<V> for NodeEar<'a, 'p, V, N>
where
    Nodes: Capacity<N>,
{
    ghost hears = { λ e. hears_in V.form e.1 e.0 e.2 };

    fn heard(&self, path: &Path) -> Wrapped<V> {
        self.links.heard_or(self.phase, self.me, path)
    }
}

impl<V: Item<N>, const N: usize> ItemPhase<V, N> {
    /// Lays down what a node settles of a member's item, and whether it convicts the member.
    fn lay(&mut self, me: u8, commander: u8, settled: Wrapped<V>, convicts: bool)
        requires node { me < N }
        requires member { commander < N }
        ensures links { self.new.links ≡ self.old.links }
        ensures seen { self.new.seen ≡ self.old.seen }
        ensures room { self.new.settling ≡ self.old.settling }
        ensures settled { slice_index_or self.new.each.items (commander * N + me) (Fault 0) ≡
            settled }
        ensures convicted { has_id (slice_index_or self.new.convicting commander []) me ≡ convicts }
        ensures each { (k : ℕ) → k ≢ commander * N + me →
            slice_index_or self.new.each.items k (Fault 0) ≡
            slice_index_or self.old.each.items k (Fault 0) }
        ensures convicting { (i c : ℕ) → i < N → (c ≢ commander) ⊎ (i ≢ me) →
            has_id (slice_index_or self.new.convicting c []) i ≡
            has_id (slice_index_or self.old.convicting c []) i }
    {
        self.each[commander as usize * N + me as usize] = settled;
        let mut others = self.convicting[commander as usize].without(me);
        if convicts {
            others.put(me);
        }
        self.convicting[commander as usize] = others;
    }

    /// What a node settles of another member's item, and whether it convicts the member.
    fn listen_to(&mut self, phase: &Phase<'_, N>, me: u8, commander: u8)
    where
        Nodes: Capacity<N>,
        requires heard { IsHeard V.form V.first_slot V.tells phase.now self.old.links
            (phase.now.config.now.m + 1) }
        requires node { has_id phase.now.awake me ≡ true }
        requires member { has_id (members_at phase.now me) commander ≡ true }
        requires other { commander ≢ me }
        ensures links { self.new.links ≡ self.old.links }
        ensures seen { self.new.seen ≡ self.old.seen }
        ensures room { self.new.settling ≡ self.old.settling }
        ensures here { IsLaid V.eq V.form phase.now self.new.links self.new.each.items
            self.new.convicting me commander }
        ensures others { (i c : ℕ) → i < N → (c ≢ commander) ⊎ (i ≢ me) →
            IsLaid V.eq V.form phase.now self.old.links self.old.each.items
            self.old.convicting i c →
            IsLaid V.eq V.form phase.now self.new.links self.new.each.items
            self.new.convicting i c }
    {
        let node = Listener {
            rounds: phase.config.m,
            members: members_of(phase, me),
            me,
            full: phase.full.has(me),
        };
        let hearing = NodeEar {
            links: &self.links,
            phase,
            me,
        };
        let settled = node.settle(&hearing, commander, self.work.as_mut_slice());
        let convicts = phase.config.version != 1
            && node.convicts(&hearing, commander, self.work.as_mut_slice());
        self.lay(me, commander, settled, convicts);
    }

    /// What each awake node settles of a node's item, where that node is a member of it.
    fn listen_for(&mut self, phase: &Phase<'_, N>, commander: u8)
    where
        Nodes: Capacity<N>,
        requires heard { IsHeard V.form V.first_slot V.tells phase.now self.old.links
            (phase.now.config.now.m + 1) }
        requires within { commander < phase.now.config.now.nodes }
        ensures links { self.new.links ≡ self.old.links }
        ensures seen { self.new.seen ≡ self.old.seen }
        ensures room { self.new.settling ≡ self.old.settling }
        ensures here { (i : ℕ) → has_id phase.now.awake i ≡ true →
            has_id (members_at phase.now i) commander ≡ true → commander ≢ i →
            IsLaid V.eq V.form phase.now self.new.links self.new.each.items self.new.convicting i
            commander }
        ensures others { (i c : ℕ) → i < N → c ≢ commander →
            IsLaid V.eq V.form phase.now self.old.links self.old.each.items
            self.old.convicting i c →
            IsLaid V.eq V.form phase.now self.new.links self.new.each.items
            self.new.convicting i c }
    {
        for me in 0..phase.config.nodes {
            if phase.awake.has(me) && me != commander && members_of(phase, me).has(commander) {
                self.listen_to(phase, me, commander);
            }
        }
    }

    /// What each awake node settles.
    pub(crate) fn agree_each(&mut self, phase: &Phase<'_, N>)
    where
        Nodes: Capacity<N>,
        requires heard { IsHeard V.form V.first_slot V.tells phase.now self.old.links
            (phase.now.config.now.m + 1) }
        ensures settled { IsSettled V.eq V.form V.first_slot V.tells phase.now self.new }
        ensures links { self.new.links ≡ self.old.links }
        ensures room { self.new.settling ≡ self.old.settling }
    {
        let odd = self.links.odd(phase);
        let plain = NodeSet::empty();
        let ill = self.ill(phase, &odd);
        let is_all = false;
        self.seen = Seen { plain, is_all, ill };
        for commander in 0..phase.config.nodes {
            self.listen_for(phase, commander);
        }
    }
}
