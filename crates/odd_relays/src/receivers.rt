//! What all nodes that are awake settle for one member's item.

ghost use Rattle.std.specs.Prelude.{◌≡◌, ◌≢◌, ℕ, ◌<◌, ◌⊎◌, length, slice_index_or, true, false};
ghost use Rattle.std.specs.Prelude.{IfSome};
ghost use Rattle.node_grid.specs.NodeSet.{has_id};
ghost use Rattle.omh_paths.specs.declared.wrapped.Wrapped.TheVariants.{Fault};
ghost use Rattle.odd_relays.specs.Telling.{telling, HasFewOdd, settled_item};
ghost use Rattle.odd_relays.specs.Work.{HearAlike, IsLedBy};

use crate::chains::WORK;
use crate::item::{Item, Relays};
use crate::values::{are_alike, copy_led, fill, value_at};
use node_grid::NodeSet;
use omh_paths::{Exact, Wrapped};

impl<'a, V: Exact, S: Relays<V>, const N: usize> Item<'a, V, S, N> {
    /// Whether no other member than the commander is odd.
    fn has_no_other_odd(&self) -> bool
        ensures { result ≡ true → (q : ℕ) → has_id self.now.odd q ≡ true → q ≡ self.now.commander }
    {
        let _ = self.phase.members.len();
        self.odd.without(self.commander).is_empty()
    }

    /// What all these nodes settle for the item, where that is seen at once: where all of them were
    /// told the same, or no other member's relays are odd.
    fn settle_as_one(&self, nodes: &NodeSet<N>, work: &mut [Wrapped<V>]) -> Option<Wrapped<V>>
        requires few { HasFewOdd (telling S.says self.now) }
        requires others { has_id nodes.now self.now.commander ≡ false }
        requires full { (q : ℕ) → has_id self.now.phase.members q ≡ true →
            has_id self.now.phase.full q ≡ true → self.now.commander ≢ q →
            has_id nodes.now q ≡ true }
        requires room { length work.old ≡ WORK }
        ensures settled { IfSome result (λ v. (i : ℕ) → has_id nodes.now i ≡ true →
            v ≡ settled_item V.eq (telling S.says self.now) i) }
        ensures room { length work.new ≡ WORK }
    {
        let _ = self.phase.members.len();
        let Some(first) = nodes.least() else {
            return None;
        };
        if are_alike(self.told, nodes, first) {
            Some(value_at(self.told, first))
        } else if self.phase.rounds > 0 && self.has_no_other_odd() {
            Some(self.settle(first, work))
        } else {
            None
        }
    }

    /// One of these nodes that isn't odd, and to which odd members pass on the same in the last
    /// round as to node `i`.
    fn find_alike(&self, nodes: &NodeSet<N>, i: u8) -> Option<u8>
        requires relayed { 0 < self.now.phase.rounds }
        requires regular { has_id self.now.odd i ≡ false }
        ensures node { IfSome result (λ j. has_id nodes.now j ≡ true) }
        ensures alike { IfSome result (HearAlike (telling S.says self.now) i) }
    {
        for j in nodes.iter() {
            if !self.odd.has(j) && self.relays.is_alike(i, j, self.phase.rounds + 1) {
                return Some(j);
            }
        }
        None
    }

    /// A node that settles what node `i` does: one of the leaders, where one is known to hear alike
    /// in the last round, and else node `i` itself.
    fn find_leader(&self, leaders: &NodeSet<N>, i: u8) -> u8
        ensures among { result ≢ i → has_id leaders.now result ≡ true }
        ensures alike { (i ≡ result) ⊎ HearAlike (telling S.says self.now) i result }
    {
        if self.phase.rounds == 0 || self.odd.has(i) {
            return i;
        }
        match self.find_alike(leaders, i) {
            Some(j) => j,
            None => i,
        }
    }

    /// Some of these nodes, the leaders, and by node for each of them a leader that settles what it
    /// does.
    fn find_leaders(&self, nodes: &NodeSet<N>, leader_of: &mut [u8]) -> NodeSet<N>
        requires { length leader_of.old ≡ N }
        ensures within { (j : ℕ) → has_id result j ≡ true → has_id nodes.now j ≡ true }
        ensures led { (i : ℕ) → has_id nodes.now i ≡ true →
            IsLedBy (telling S.says self.now) result i (slice_index_or leader_of.new i 0) }
        ensures places { length leader_of.new ≡ N }
    {
        let mut leaders = NodeSet::empty();
        for i in nodes.iter() {
            let leader = self.find_leader(&leaders, i);
            leaders.put(leader);
            leader_of[i as usize] = leader;
        }
        leaders
    }

    /// What each of these nodes settles for the item, laid at the node's place in `all`.
    fn settle_each(&self, nodes: &NodeSet<N>, work: &mut [Wrapped<V>], all: &mut [Wrapped<V>])
        requires few { HasFewOdd (telling S.says self.now) }
        requires others { has_id nodes.now self.now.commander ≡ false }
        requires room { length work.old ≡ WORK }
        requires places { length all.old ≡ N }
        ensures settled { (i : ℕ) → has_id nodes.now i ≡ true →
            slice_index_or all.new i (Fault 0) ≡ settled_item V.eq (telling S.says self.now) i }
        ensures room { length work.new ≡ WORK }
        ensures places { length all.new ≡ N }
    {
        let _ = self.phase.members.len();
        let mut leader_of = [0; N];
        let leaders = self.find_leaders(nodes, &mut leader_of);
        let _ = leaders.len();
        self.settle_at(&leaders, work);
        copy_led(all, work, nodes, &leader_of);
    }

    /// What each node that is awake settles for the item, laid at the node's place in `all`.
    ///
    /// All Full members are awake. Where all were told the same that takes one look at what each
    /// was told, and where no other member's relays are odd one majority. `work` has `WORK` places,
    /// and is left with no meaning.
    pub fn settle_all(&self, awake: &NodeSet<N>, work: &mut [Wrapped<V>], all: &mut [Wrapped<V>])
        requires few { HasFewOdd (telling S.says self.now) }
        requires full { (q : ℕ) → has_id self.now.phase.members q ≡ true →
            has_id self.now.phase.full q ≡ true → has_id awake.now q ≡ true }
        requires room { length work.old ≡ WORK }
        requires places { length all.old ≡ N }
        ensures settled { (i : ℕ) → has_id awake.now i ≡ true → self.now.commander ≢ i →
            slice_index_or all.new i (Fault 0) ≡ settled_item V.eq (telling S.says self.now) i }
        ensures room { length work.new ≡ WORK }
        ensures places { length all.new ≡ N }
    {
        let _ = self.phase.members.len();
        let nodes = awake.without(self.commander);
        if nodes.is_empty() {
            return;
        }
        match self.settle_as_one(&nodes, work) {
            Some(value) => fill(all, &nodes, value),
            None => self.settle_each(&nodes, work, all),
        }
    }
}
