//! What a receiver settles: the longest paths from what it hears in the last round, then the
//! shorter ones.

ghost use Rattle.std.specs.Prelude.{◌≡◌, ◌≢◌, ℕ, Bool, List, ◌+◌, ◌-◌, ◌*◌, ◌<◌, ◌≤◌, ◌⊎◌, ◌∷◌};
ghost use Rattle.std.specs.Prelude.{◌++◌, [], length, slice_index_or, true, false, if◌then◌else◌};
ghost use Rattle.node_grid.specs.NodeSet.{has_id};
ghost use Rattle.omh_paths.specs.declared.wrapped.Wrapped.{Wrapped};
ghost use Rattle.omh_paths.specs.declared.wrapped.Wrapped.TheVariants.{Fault};
ghost use Rattle.omh_paths.specs.Paths.{outside, path_count, index_in};
ghost use Rattle.omh.specs.Omh.{settled_at, settled};
ghost use Rattle.omh.specs.Flat.{AreSettled, path_settled};
ghost use Rattle.settled_paths.specs.Passing.{or_passed, instead, HearAlike, passing_world};
ghost use Rattle.settled_paths.specs.Levels.{level_at, EachEar, IsExchange, AreLaid, AreOwnTerms};
ghost use Rattle.settled_paths.specs.Levels.{AreLastTerms, AreRelayRooms};

use crate::exchange::Exchange;
use crate::touched::{Touched, Untouched, heard, term};
use crate::values::{copy_front, part, set_value, settled_from_terms, value_at};
use node_grid::{Capacity, NodeSet, Nodes};
use omh::outside;
use omh_paths::{Exact, Path, Wrapped};

impl<const N: usize> Exchange<N> {
    /// Lays what node `i` puts into the majority of a path of m nodes for each member outside it;
    /// these pass this on.
    fn lay_terms<V: Exact, T: Touched<V>>(
        &self,
        i: u8,
        path: &Path,
        touched: &T,
        passed: &[Wrapped<V>],
        terms: &mut [Wrapped<V>],
    )
        requires within { (q : ℕ) → has_id path.now q ≡ true → q < N }
        requires short { length path.now < 4 }
        requires passed { length (outside self.now.members path.now) ≤ length passed.now }
        requires room { length (outside self.now.members path.now) ≤ length terms.old }
        ensures each { (j : ℕ) → j < length (outside self.now.members path.now) →
            slice_index_or terms.new j (Fault 0)
            ≡ or_passed (instead (T.says touched.now) i path.now
            (slice_index_or (outside self.now.members path.now) j 0))
            (slice_index_or passed.now j (Fault 0)) }
        ensures room { length terms.new ≡ length terms.old }
    {
        let mut place = 0;
        for q in outside(&self.members, path).iter() {
            let value = term(touched, i, path, q, value_at(passed, place));
            set_value(terms, place, value);
            place += 1;
        }
    }

    /// Settles the paths of m nodes from what is laid and what node `i` hears in the last round in
    /// place of that.
    fn settle_level<V: Exact, T: Touched<V>>(
        &self,
        i: u8,
        touched: &T,
        laid: &[Wrapped<V>],
        longest: &mut [Wrapped<V>],
        terms: &mut [Wrapped<V>],
    )
    where
        Nodes: Capacity<N>,
        requires exchange { IsExchange N self.now.rounds self.now.members self.now.commander }
        requires room { AreRelayRooms self.now.rounds self.now.members laid.now
            longest.old terms.old }
        ensures settled { (me : ℕ) → EachEar self.now.rounds self.now.members me
            (λ x. AreLastTerms V.eq x (index_in self.now.members self.now.commander) i
            (T.says touched.now) (self.now.rounds - 1) laid.now →
            AreSettled V.eq x (index_in self.now.members self.now.commander) (self.now.rounds - 1)
            longest.new) }
        ensures longest { length longest.new ≡ length longest.old }
        ensures terms { length terms.new ≡ length terms.old }
    {
        let relays = self.rounds - 1;
        let level = self.level(relays);
        let width = (self.members.len() - 1).saturating_sub(relays) as usize;
        let next = level.begins + level.paths;
        for k in 0..level.paths {
            let path = self.path(relays, &level, k);
            let from = next + k * width;
            self.lay_terms(i, &path, touched, part(laid, from, width), terms);
            let settled = settled_from_terms(terms, 0, width);
            set_value(longest, k, settled);
        }
    }

    /// Settles the paths of m nodes from what node `i` hears in the last round. Each node for which
    /// the same is changed in that round settles them so.
    fn settle_longest<V: Exact, T: Touched<V>>(
        &self,
        i: u8,
        touched: &T,
        laid: &[Wrapped<V>],
        longest: &mut [Wrapped<V>],
        terms: &mut [Wrapped<V>],
    )
    where
        Nodes: Capacity<N>,
        requires exchange { IsExchange N self.now.rounds self.now.members self.now.commander }
        requires room { AreRelayRooms self.now.rounds self.now.members laid.now
            longest.old terms.old }
        ensures settled { (me : ℕ) → EachEar self.now.rounds self.now.members me
            (λ x. AreLastTerms V.eq x (index_in self.now.members self.now.commander) i
            (T.says touched.now) (self.now.rounds - 1) laid.now →
            AreSettled V.eq x (index_in self.now.members self.now.commander) (self.now.rounds - 1)
            longest.new) }
        ensures longest { length longest.new ≡ length longest.old }
        ensures terms { length terms.new ≡ length terms.old }
    {
        if touched.is_untouched(self.rounds + 1) {
            self.settle_level(i, &Untouched, laid, longest, terms);
        } else {
            self.settle_level(i, touched, laid, longest, terms);
        }
    }

    /// What node `i` itself puts into the majority of a path, which stands among what the members
    /// outside the path pass on of it, from this place on.
    fn own_term<V: Exact>(&self, i: u8, path: &Path, from: usize, laid: &[Wrapped<V>]) -> Wrapped<V>
        requires within { (q : ℕ) → has_id path.now q ≡ true → q < N }
        requires room { from + length (outside self.now.members path.now) ≤ length laid.now }
        ensures { has_id (outside self.now.members path.now) i ≡ true → result
            ≡ slice_index_or laid.now (from + index_in (outside self.now.members path.now) i)
            (Fault 0) }
    {
        let others = outside(&self.members, path);
        let _ = others.len();
        if others.has(i) {
            value_at(laid, from + others.place(i) as usize)
        } else {
            Wrapped::Fault(0)
        }
    }

    /// Settles the path at place `k` from the terms of its majority, with the node's own term among
    /// them.
    fn settle_path<V: Exact>(
        &self,
        i: u8,
        path: &Path,
        k: usize,
        own: Wrapped<V>,
        work: &mut [Wrapped<V>],
    )
        requires within { (q : ℕ) → has_id path.now q ≡ true → q < N }
        requires room { k * length (outside self.now.members path.now) + length
            (outside self.now.members path.now) ≤ length work.old }
        requires place { k < length work.old }
        ensures { work.new ≡ path_settled V.eq (outside self.now.members path.now) i k
            (length (outside self.now.members path.now)) own work.old }
    {
        let others = outside(&self.members, path);
        let width = others.len() as usize;
        if others.has(i) {
            set_value(work, k * width + others.place(i) as usize, own);
        }
        let settled = settled_from_terms(work, k * width, width);
        set_value(work, k, settled);
    }

    /// Settles all paths of so many relays, in place of what was settled for those of one relay
    /// more.
    fn settle_shorter<V: Exact>(
        &self,
        i: u8,
        relays: u8,
        laid: &[Wrapped<V>],
        work: &mut [Wrapped<V>],
    )
    where
        Nodes: Capacity<N>,
        requires exchange { IsExchange N self.now.rounds self.now.members self.now.commander }
        requires shorter { relays + 1 < self.now.rounds }
        requires laid { level_at (length self.now.members - 1) (self.now.rounds + 1)
            ≤ length laid.now }
        requires work { level_at (length self.now.members - 1) self.now.rounds ≤ length work.old }
        ensures settled { EachEar self.now.rounds self.now.members i
            (λ x. AreOwnTerms x (index_in self.now.members self.now.commander) laid.now →
            AreSettled V.eq x (index_in self.now.members self.now.commander) (relays + 1) work.old →
            AreSettled V.eq x (index_in self.now.members self.now.commander) relays work.new) }
        ensures work { length work.new ≡ length work.old }
    {
        let level = self.level(relays);
        let width = (self.members.len() - 1).saturating_sub(relays) as usize;
        let next = level.begins + level.paths;
        for k in 0..level.paths {
            let path = self.path(relays, &level, k);
            let own = self.own_term(i, &path, next + k * width, laid);
            self.settle_path(i, &path, k, own, work);
        }
    }

    /// What node `i` settles for the item, from what it settles for the paths of m nodes.
    fn settle_from<V: Exact>(
        &self,
        i: u8,
        laid: &[Wrapped<V>],
        longest: &[Wrapped<V>],
        work: &mut [Wrapped<V>],
    ) -> Wrapped<V>
    where
        Nodes: Capacity<N>,
        requires exchange { IsExchange N self.now.rounds self.now.members self.now.commander }
        requires other { self.now.commander ≢ i }
        requires room { AreRelayRooms self.now.rounds self.now.members laid.now
            longest.now work.old }
        ensures settled { EachEar self.now.rounds self.now.members i
            (λ x. AreOwnTerms x (index_in self.now.members self.now.commander) laid.now →
            AreSettled V.eq x (index_in self.now.members self.now.commander) (self.now.rounds - 1)
            longest.now → result ≡ settled_at V.eq x (self.now.commander ∷ [])) }
        ensures work { length work.new ≡ length work.old }
    {
        let last = self.rounds - 1;
        copy_front(work, longest, self.level(last).paths);
        for done in 0..last {
            self.settle_shorter(i, last - done - 1, laid, work);
        }
        value_at(work, 0)
    }

    /// Those of the nodes for which the same is changed in the last round as for this one of them,
    /// which is one of them.
    fn alike<V: Exact, T: Touched<V>>(
        &self,
        touched: &T,
        first: u8,
        nodes: &NodeSet<N>,
    ) -> NodeSet<N>
        requires capacity { N ≤ 16 }
        requires rounds { self.now.rounds ≤ 3 }
        requires first { has_id nodes.now first ≡ true }
        ensures first { has_id result first ≡ true }
        ensures within { (i : ℕ) → has_id result i ≡ true → has_id nodes.now i ≡ true }
        ensures alike { (i : ℕ) → has_id result i ≡ true →
            HearAlike (T.says touched.now) first i (self.now.rounds + 1) }
    {
        let mut alike = NodeSet::empty();
        for i in nodes.iter() {
            if i == first || touched.is_alike(first, i, self.rounds + 1) {
                alike.put(i);
            }
        }
        alike
    }

    /// What each of these nodes settles for the item, from what they all settle for the paths of m
    /// nodes, laid at the node's place in `all`.
    fn settle_each<V: Exact>(
        &self,
        nodes: &NodeSet<N>,
        laid: &[Wrapped<V>],
        longest: &[Wrapped<V>],
        work: &mut [Wrapped<V>],
        all: &mut [Wrapped<V>],
    )
    where
        Nodes: Capacity<N>,
        requires exchange { IsExchange N self.now.rounds self.now.members self.now.commander }
        requires others { has_id nodes.now self.now.commander ≡ false }
        requires room { AreRelayRooms self.now.rounds self.now.members laid.now
            longest.now work.old }
        requires places { length all.old ≡ N }
        ensures settled { (i : ℕ) → has_id nodes.now i ≡ true →
            EachEar self.now.rounds self.now.members i
            (λ x. AreOwnTerms x (index_in self.now.members self.now.commander) laid.now →
            AreSettled V.eq x (index_in self.now.members self.now.commander) (self.now.rounds - 1)
            longest.now → slice_index_or all.new i (Fault 0)
            ≡ settled_at V.eq x (self.now.commander ∷ [])) }
        ensures kept { (i : ℕ) → has_id nodes.now i ≡ false → slice_index_or all.new i (Fault 0)
            ≡ slice_index_or all.old i (Fault 0) }
        ensures work { length work.new ≡ length work.old }
        ensures places { length all.new ≡ N }
    {
        for i in nodes.iter() {
            let settled = self.settle_from(i, laid, longest, work);
            set_value(all, i as usize, settled);
        }
    }

    /// What each node that hears the item of another member settles for it, where it is relayed:
    /// the paths of m nodes once for all nodes for which the same is changed in the last round, and
    /// the shorter ones for each.
    pub(crate) fn settle_relayed<V: Exact, T: Touched<V>>(
        &self,
        touched: &T,
        laid: &[Wrapped<V>],
        longest: &mut [Wrapped<V>],
        work: &mut [Wrapped<V>],
        all: &mut [Wrapped<V>],
    )
    where
        Nodes: Capacity<N>,
        requires exchange { IsExchange N self.now.rounds self.now.members self.now.commander }
        requires room { AreRelayRooms self.now.rounds self.now.members laid.now
            longest.old work.old }
        requires places { length all.old ≡ N }
        ensures settled { (own : Wrapped V) →
            AreLaid self.now.members self.now.full own (T.says touched.now)
            (index_in self.now.members self.now.commander) self.now.rounds laid.now → (i : ℕ) →
            has_id self.now.awake i ≡ true → self.now.commander ≢ i →
            slice_index_or all.new i (Fault 0)
            ≡ settled V.eq (passing_world self.now.rounds self.now.members self.now.full own
            (T.says touched.now)) i (self.now.commander ∷ []) }
        ensures kept { (i : ℕ) → (has_id self.now.awake i ≡ false) ⊎ (self.now.commander ≡ i) →
            slice_index_or all.new i (Fault 0) ≡ slice_index_or all.old i (Fault 0) }
        ensures longest { length longest.new ≡ length longest.old }
        ensures work { length work.new ≡ length work.old }
        ensures places { length all.new ≡ N }
    {
        let nodes = self.awake.without(self.commander);
        let mut done = NodeSet::empty();
        for first in nodes.iter() {
            if !done.has(first) {
                let alike = self.alike(touched, first, &nodes);
                self.settle_longest(first, touched, laid, longest, work);
                self.settle_each(&alike, laid, longest, work, all);
                done = done.union(&alike);
            }
        }
    }

    /// What each node that hears the item of another member settles for it, where nothing is
    /// relayed: what it hears.
    pub(crate) fn settle_heard<V: Exact, T: Touched<V>>(
        &self,
        own: Wrapped<V>,
        touched: &T,
        all: &mut [Wrapped<V>],
    )
        requires none { self.now.rounds ≡ 0 }
        requires commander { self.now.commander < N }
        requires places { length all.old ≡ N }
        ensures settled { (i : ℕ) → has_id self.now.awake i ≡ true → self.now.commander ≢ i →
            slice_index_or all.new i (Fault 0)
            ≡ settled V.eq (passing_world self.now.rounds self.now.members self.now.full own
            (T.says touched.now)) i (self.now.commander ∷ []) }
        ensures kept { (i : ℕ) → (has_id self.now.awake i ≡ false) ⊎ (self.now.commander ≡ i) →
            slice_index_or all.new i (Fault 0) ≡ slice_index_or all.old i (Fault 0) }
        ensures places { length all.new ≡ N }
    {
        let root = Path::root(self.commander);
        for i in self.awake.without(self.commander).iter() {
            set_value(all, i as usize, heard(touched, i, &root, own));
        }
    }
}
