//! What a node settled.

ghost use Rattle.std.specs.Prelude.{◌≡◌, ◌≢◌, ℕ, ◌<◌, ◌+◌, ◌*◌, true, false, [], slice_index_or};
ghost use Rattle.node_grid.specs.NodeSet.{has_id};
ghost use Rattle.omh_paths.specs.declared.wrapped.Wrapped.TheVariants.{Plain, Fault};
ghost use Rattle.omh.specs.Omh.{settled_from};
ghost use Rattle.protocol.specs.FurtherKinds.{convicts_member};
ghost use Rattle.heard_links.specs.Talks.{IsSet, members_at};
ghost use Rattle.heard_links.specs.Hearing.{item_of};
ghost use Rattle.item_phase.specs.Settled.{IsSettled, listener};

use crate::item_phase::ItemPhase;
use heard_links::Phase;
use node_grid::NodeSet;
use omh_paths::{Exact, Wrapped};
use touched_items::Item;

/// The members with which a node goes through the phase.
pub(crate) fn members_of<const N: usize>(phase: &Phase<'_, N>, i: u8) -> NodeSet<N>
    requires { i < N }
    ensures { result ≡ members_at phase.now i }
{
    let all = &phase.members[..];
    all[i as usize]
}

/// Whether two values are the same.
fn is_same<V: Exact>(one: Wrapped<V>, other: Wrapped<V>) -> bool
    ensures { result ≡ true → one ≡ other }
{
    one == other
}

impl<V: Item<N>, const N: usize> ItemPhase<V, N> {
    /// What awake node `i` settles of the item of one of its members.
    pub fn settled(&self, phase: &Phase<'_, N>, i: u8, c: u8) -> Wrapped<V>
        requires settled { IsSettled V.eq V.form V.first_slot V.tells phase.now self.now }
        requires node { has_id phase.now.awake i ≡ true }
        requires member { has_id (members_at phase.now i) c ≡ true }
        ensures { result ≡ settled_from V.eq (listener V.form phase.now self.now.links i)
            (Plain (item_of self.now.links i)) c }
    {
        if c == i || self.seen.plain.has(c) {
            self.links.own(phase, c)
        } else {
            self.each[c as usize * N + i as usize]
        }
    }

    /// Whether two awake nodes have the same members, and settle the item of each of them alike.
    pub fn are_alike(&self, phase: &Phase<'_, N>, i: u8, j: u8) -> bool
        requires settled { IsSettled V.eq V.form V.first_slot V.tells phase.now self.now }
        requires one { has_id phase.now.awake i ≡ true }
        requires other { has_id phase.now.awake j ≡ true }
        ensures members { result ≡ true → members_at phase.now i ≡ members_at phase.now j }
        ensures alike { result ≡ true → (c : ℕ) → has_id (members_at phase.now i) c ≡ true →
            settled_from V.eq (listener V.form phase.now self.now.links i)
            (Plain (item_of self.now.links i)) c
            ≡ settled_from V.eq (listener V.form phase.now self.now.links j)
            (Plain (item_of self.now.links j)) c }
    {
        if self.seen.is_all {
            return true;
        }
        let members = members_of(phase, i);
        if members != members_of(phase, j) {
            return false;
        }
        for c in members.minus(&self.seen.plain).iter() {
            if !is_same(self.settled(phase, i, c), self.settled(phase, j, c)) {
                return false;
            }
        }
        true
    }

    /// Whether awake node `i` convicts another node, in version 2.
    fn is_against(&self, phase: &Phase<'_, N>, i: u8, c: u8) -> bool
        requires settled { IsSettled V.eq V.form V.first_slot V.tells phase.now self.now }
        requires node { has_id phase.now.awake i ≡ true }
        requires version { phase.now.config.now.version ≢ 1 }
        requires within { c < phase.now.config.now.nodes }
        requires other { c ≢ i }
        ensures { result ≡ convicts_member V.eq (listener V.form phase.now self.now.links i) c }
    {
        members_of(phase, i).has(c) && !self.seen.plain.has(c) && self.convicting[c as usize].has(i)
    }

    /// Whom awake node `i` convicts, in version 2.
    pub fn convicted(&self, phase: &Phase<'_, N>, i: u8) -> NodeSet<N>
        requires settled { IsSettled V.eq V.form V.first_slot V.tells phase.now self.now }
        requires node { has_id phase.now.awake i ≡ true }
        requires version { phase.now.config.now.version ≢ 1 }
        ensures { (c : ℕ) → c ≢ i →
            has_id result c ≡ convicts_member V.eq (listener V.form phase.now self.now.links i) c }
    {
        let mut convicted = NodeSet::empty();
        for c in members_of(phase, i).minus(&self.seen.plain).iter() {
            if c != i && self.is_against(phase, i, c) {
                convicted.put(c);
            }
        }
        convicted
    }
}
