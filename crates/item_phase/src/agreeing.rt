//! How all nodes settle the items.

ghost use Rattle.std.specs.Prelude.{◌≡◌, ◌≢◌, ℕ, ◌<◌, ◌≤◌, ◌+◌, ◌*◌, true, false, []};
ghost use Rattle.std.specs.Prelude.{length, slice_index_or, IfSome};
ghost use Rattle.node_grid.specs.NodeSet.{has_id};
ghost use Rattle.heard_links.specs.Talks.{IsSet, members_at};
ghost use Rattle.heard_links.specs.Hearing.{IsHeard, item_of};
ghost use Rattle.item_phase.specs.Settled.{IsSettled, IsOfAll, AreOdd, IsTold, IsPlain, IsLaid};

use crate::asking::members_of;
use crate::item_phase::{ItemPhase, Seen};
use crate::told::Told;
use crate::values::lay_row;
use heard_links::Phase;
use node_grid::{Capacity, NodeSet, Nodes};
use settled_items::has_few_odd;
use settled_paths::Exchange;
use touched_items::Item;

/// The members with which all awake nodes go through the phase, where these are the same.
fn members_of_all<const N: usize>(phase: &Phase<'_, N>) -> Option<NodeSet<N>>
    requires { IsSet phase.now }
    ensures { IfSome result (IsOfAll phase.now) }
{
    let Some(first) = phase.awake.least() else {
        return None;
    };
    let members = members_of(phase, first);
    for i in 0..phase.config.nodes {
        if phase.awake.has(i) && members != members_of(phase, i) {
            return None;
        }
    }
    Some(members)
}

impl<V: Item<N>, const N: usize> ItemPhase<V, N>
where
    Nodes: Capacity<N>,
{
    /// The members whose item all awake nodes settle as it is said, as far as that is seen at once.
    fn plain_members(
        &self,
        phase: &Phase<'_, N>,
        members: &NodeSet<N>,
        odd: &NodeSet<N>,
    ) -> NodeSet<N>
        requires heard { IsHeard V.form V.first_slot V.tells phase.now self.now.links
            (phase.now.config.now.m + 1) }
        requires all { IsOfAll phase.now members.now }
        requires odd { AreOdd V.form phase.now self.now.links odd.now }
        ensures { (i c : ℕ) → has_id phase.now.awake i ≡ true → c ≢ i → has_id result c ≡ true →
            IsPlain V.eq V.form phase.now self.now.links i c }
    {
        let exchange = Exchange {
            rounds: phase.config.m,
            members: *members,
            full: phase.full,
            awake: phase.awake,
            commander: 0,
        };
        if has_few_odd(&exchange, odd) {
            members.minus(&self.links.touched(phase, 0))
        } else {
            NodeSet::empty()
        }
    }

    /// What all awake nodes settle of a member's item, and who convicts the member.
    fn agree_on(
        &mut self,
        phase: &Phase<'_, N>,
        members: &NodeSet<N>,
        odd: &NodeSet<N>,
        commander: u8,
    )
        requires told { IsTold V.form V.first_slot V.tells phase.now self.old.links members.now
            odd.now commander }
        requires room { self.old.settling ≡
            record { nodes = phase.now.config.now.nodes; rounds = phase.now.config.now.m } }
        ensures links { self.new.links ≡ self.old.links }
        ensures seen { self.new.seen ≡ self.old.seen }
        ensures room { self.new.settling ≡ self.old.settling }
        ensures here { (i : ℕ) → has_id phase.now.awake i ≡ true → commander ≢ i →
            IsLaid V.eq V.form phase.now self.new.links self.new.each.items self.new.convicting i
            commander }
        ensures others { (i c : ℕ) → i < N → c ≢ commander →
            IsLaid V.eq V.form phase.now self.old.links self.old.each.items
            self.old.convicting i c →
            IsLaid V.eq V.form phase.now self.new.links self.new.each.items
            self.new.convicting i c }
    {
        let told = Told {
            links: &self.links,
            phase,
            members,
            odd,
            commander,
        };
        told.settle(&mut self.settling, self.row.as_mut_slice());
        lay_row(
            self.each.as_mut_slice(),
            commander as usize * N,
            self.row.as_slice(),
            &phase.awake,
        );
        if phase.config.version != 1 {
            self.convicting[commander as usize] = told.convicting(&mut self.settling);
        }
    }

    /// What all settle, where all awake nodes have these members.
    fn agree_among(&mut self, phase: &Phase<'_, N>, members: &NodeSet<N>)
        requires heard { IsHeard V.form V.first_slot V.tells phase.now self.old.links
            (phase.now.config.now.m + 1) }
        requires all { IsOfAll phase.now members.now }
        requires room { self.old.settling ≡
            record { nodes = phase.now.config.now.nodes; rounds = phase.now.config.now.m } }
        ensures settled { IsSettled V.eq V.form V.first_slot V.tells phase.now self.new }
        ensures links { self.new.links ≡ self.old.links }
        ensures room { self.new.settling ≡ self.old.settling }
    {
        let odd = self.links.odd(phase);
        let plain = self.plain_members(phase, members, &odd);
        let is_all = members.minus(&plain).is_empty();
        let ill = self.ill(phase, &odd);
        self.seen = Seen { plain, is_all, ill };
        for commander in 0..phase.config.nodes {
            if members.has(commander) && !plain.has(commander) {
                self.agree_on(phase, members, &odd, commander);
            }
        }
    }

    /// Hears all frames, and settles all items as each awake node does.
    pub fn agree(&mut self, phase: &Phase<'_, N>)
        requires told { IsHeard V.form V.first_slot V.tells phase.now self.old.links 0 }
        requires room { self.old.settling ≡
            record { nodes = phase.now.config.now.nodes; rounds = phase.now.config.now.m } }
        ensures settled { IsSettled V.eq V.form V.first_slot V.tells phase.now self.new }
        ensures told { (j : ℕ) → item_of self.new.links j ≡ item_of self.old.links j }
        ensures room { self.new.settling ≡ self.old.settling }
    {
        self.links.hear(phase);
        match members_of_all(phase) {
            Some(members) => self.agree_among(phase, &members),
            None => self.agree_each(phase),
        }
    }
}
