//! What nodes settle for paths of odd members behind the commander, all receivers at once.

ghost use Rattle.std.specs.Prelude.{◌≡◌, ◌≢◌, ℕ, ◌+◌, ◌-◌, ◌*◌, ◌<◌, ◌≤◌, length, slice_index_or};
ghost use Rattle.std.specs.Prelude.{true, false};
ghost use Rattle.node_grid.specs.NodeSet.{has_id};
ghost use Rattle.omh_paths.specs.declared.wrapped.Wrapped.TheVariants.{Fault};
ghost use Rattle.odd_relays.specs.Direct.{direct_heard, direct_settled};
ghost use Rattle.odd_relays.specs.Telling.{telling, HasFewOdd, settled_item};
ghost use Rattle.odd_relays.specs.Work.{AreHeardAlike, IsChain, KeepsBelow};

use crate::item::{Item, Relays};
use crate::values::{
    are_one, copy_terms, fill_from, fill_terms, set_value, settle_terms, value_at,
};
use node_grid::NodeSet;
use omh::outside;
use omh_paths::{Exact, Path, Wrapped};

/// The room that the paths of one length take: for each of sixteen receivers what it settles, and
/// sixteen terms.
const LEVEL: usize = 272;

/// The room in which an item is settled: for paths of one to three nodes, and what was heard for
/// those of four.
pub const WORK: usize = 832;

impl<'a, V: Exact, S: Relays<V>, const N: usize> Item<'a, V, S, N> {
    /// What each receiver heard for such a path, laid by node from `from` on.
    fn lay_heard(&self, receivers: &NodeSet<N>, path: &Path, work: &mut [Wrapped<V>], from: usize)
        requires { from + 16 ≤ length work.old }
        ensures laid { (i : ℕ) → has_id receivers.now i ≡ true →
            slice_index_or work.new (from + i) (Fault 0) ≡
            direct_heard (telling S.says self.now) i path.now }
        ensures kept { KeepsBelow from work.old work.new }
        ensures room { length work.new ≡ length work.old }
    {
        for i in receivers.iter() {
            let heard = self.heard(i, path);
            set_value(work, from + i as usize, heard);
        }
    }

    /// Whether all these nodes heard this for such a path.
    fn have_heard(&self, nodes: &NodeSet<N>, path: &Path, value: &Wrapped<V>) -> bool
        ensures { result ≡ true → (k : ℕ) → has_id nodes.now k ≡ true →
            direct_heard (telling S.says self.now) k path.now ≡ value.now }
    {
        for k in nodes.iter() {
            let heard = self.heard(k, path);
            if !are_one(&heard, value) {
                return false;
            }
        }
        true
    }

    /// Whether the receivers and all Full members outside such a path heard the same for it. What
    /// the receivers heard is then laid by node from `from` on.
    fn lay_alike(
        &self,
        receivers: &NodeSet<N>,
        path: &Path,
        work: &mut [Wrapped<V>],
        from: usize,
    ) -> bool
        requires nodes { (q : ℕ) → has_id path.now q ≡ true → q < N }
        requires room { from + 16 ≤ length work.old }
        ensures alike { result ≡ true →
            AreHeardAlike (telling S.says self.now) receivers.now path.now }
        ensures laid { result ≡ true → (i : ℕ) → has_id receivers.now i ≡ true →
            slice_index_or work.new (from + i) (Fault 0) ≡
            direct_heard (telling S.says self.now) i path.now }
        ensures kept { KeepsBelow from work.old work.new }
        ensures room { length work.new ≡ length work.old }
    {
        let voters = outside(&self.phase.members.common(&self.phase.full), path);
        let Some(first) = voters.least() else {
            return false;
        };
        let value = self.heard(first, path);
        if !self.have_heard(&voters, path, &value) {
            return false;
        }
        let others = receivers.minus(&voters);
        if !self.have_heard(&others, path, &value) {
            return false;
        }
        fill_from(work, receivers, from, value);
        true
    }

    /// What each receiver settles for such a path, laid by node from `from` on; what lies behind is
    /// worked on.
    fn settle_chain(
        &self,
        receivers: &NodeSet<N>,
        path: &Path,
        work: &mut [Wrapped<V>],
        from: usize,
    )
        requires room { from + 272 * (self.now.phase.rounds + 1 - length path.now) + 16
            ≤ length work.old }
        requires few { HasFewOdd (telling S.says self.now) }
        requires chain { IsChain (telling S.says self.now) path.now }
        requires off { (i : ℕ) → has_id receivers.now i ≡ true → has_id path.now i ≡ false }
        ensures settled { (i : ℕ) → has_id receivers.now i ≡ true →
            slice_index_or work.new (from + i) (Fault 0) ≡
            direct_settled V.eq (telling S.says self.now) i path.now }
        ensures kept { KeepsBelow from work.old work.new }
        ensures room { length work.new ≡ length work.old }
    {
        let _ = receivers.len();
        let _ = self.phase.members.len();
        if path.len() > self.phase.rounds {
            self.lay_heard(receivers, path, work, from);
            return;
        }
        if self.lay_alike(receivers, path, work, from) {
            return;
        }
        let mut count = 0;
        for q in outside(&self.phase.members, path).iter() {
            let own = self.passed(q, path);
            fill_terms(work, receivers, from + 16 + count, own);
            if self.odd.has(q) {
                let others = receivers.without(q);
                self.settle_chain(&others, &path.then(q), work, from + LEVEL);
                copy_terms(work, &others, from + LEVEL, from + 16 + count);
            }
            count += 1;
        }
        settle_terms(work, receivers, from, count);
    }

    /// What each of these nodes settles for the item, laid by node in `work`.
    pub(crate) fn settle_at(&self, receivers: &NodeSet<N>, work: &mut [Wrapped<V>])
        requires few { HasFewOdd (telling S.says self.now) }
        requires others { has_id receivers.now self.now.commander ≡ false }
        requires room { length work.old ≡ WORK }
        ensures settled { (i : ℕ) → has_id receivers.now i ≡ true →
            slice_index_or work.new i (Fault 0) ≡ settled_item V.eq (telling S.says self.now) i }
        ensures room { length work.new ≡ WORK }
    {
        let _ = self.phase.members.len();
        self.settle_chain(receivers, &Path::root(self.commander), work, 0);
    }

    /// What node `i`, another one than the commander, settles for the item.
    ///
    /// What odd members pass on is asked for on paths of odd members alone. `work` has `WORK`
    /// places, and is left with no meaning.
    pub fn settle(&self, i: u8, work: &mut [Wrapped<V>]) -> Wrapped<V>
        requires few { HasFewOdd (telling S.says self.now) }
        requires node { i < N }
        requires other { self.now.commander ≢ i }
        requires room { length work.old ≡ WORK }
        ensures settled { result ≡ settled_item V.eq (telling S.says self.now) i }
        ensures room { length work.new ≡ WORK }
    {
        let mut alone = NodeSet::empty();
        alone.put(i);
        self.settle_at(&alone, work);
        value_at(work, i)
    }
}
