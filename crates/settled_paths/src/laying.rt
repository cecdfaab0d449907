//! What is passed on of an item, laid once for all receivers.

ghost use Rattle.std.specs.Prelude.{◌≡◌, ◌≢◌, ℕ, ◌+◌, ◌-◌, ◌*◌, ◌<◌, ◌≤◌, ◌∷◌, ◌++◌, ◌⊎◌, [], List};
ghost use Rattle.std.specs.Prelude.{Option, length, slice_index_or, true, if◌then◌else◌};
ghost use Rattle.omh_paths.specs.declared.wrapped.Wrapped.{Wrapped};
ghost use Rattle.node_grid.specs.NodeSet.{has_id};
ghost use Rattle.omh_paths.specs.declared.wrapped.Wrapped.TheVariants.{Fault};
ghost use Rattle.omh_paths.specs.Paths.{outside, path_count, index_in};
ghost use Rattle.omh.specs.Written.{IsSmall};
ghost use Rattle.settled_paths.specs.Passing.{passes};
ghost use Rattle.settled_paths.specs.Levels.{level_at, IsExchange, AreLaid, AreSmall};

use crate::exchange::Exchange;
use crate::touched::{Touched, Untouched, heard};
use crate::values::{set_value, value_at};
use node_grid::{Capacity, Nodes};
use omh::outside;
use omh_paths::{Exact, Path, Wrapped};

impl<const N: usize> Exchange<N> {
    /// What a member passes on of a path, whose last node passed this on.
    fn passed_on<V: Exact, T: Touched<V>>(
        &self,
        q: u8,
        path: &Path,
        passed: Wrapped<V>,
        touched: &T,
    ) -> Wrapped<V>
        requires { IsSmall 254 passed }
        ensures passed { result ≡ passes self.now.full (T.says touched.now) path.now passed q }
        ensures small { (most : ℕ) → 252 ≤ most → IsSmall most passed → IsSmall (most + 1) result }
    {
        if self.full.has(q) {
            heard(touched, q, path, passed).wrap()
        } else {
            Wrapped::Fault(0)
        }
    }

    /// Lays what each member outside a path passes on of it, one after another from this place on.
    fn lay_behind<V: Exact, T: Touched<V>>(
        &self,
        path: &Path,
        passed: Wrapped<V>,
        touched: &T,
        from: usize,
        laid: &mut [Wrapped<V>],
    )
        requires within { (q : ℕ) → has_id path.now q ≡ true → q < N }
        requires known { IsSmall 254 passed }
        requires room { from + length (outside self.now.members path.now) ≤ length laid.old }
        ensures each { (j : ℕ) → j < length (outside self.now.members path.now) →
            slice_index_or laid.new (from + j) (Fault 0)
            ≡ passes self.now.full (T.says touched.now) path.now passed
            (slice_index_or (outside self.now.members path.now) j 0) }
        ensures few { (most : ℕ) → 252 ≤ most → IsSmall most passed → (j : ℕ) → j
            < length (outside self.now.members path.now) →
            IsSmall (most + 1) (slice_index_or laid.new (from + j) (Fault 0)) }
        ensures kept { (k : ℕ) → (k < from)
            ⊎ (from + length (outside self.now.members path.now) ≤ k) →
            slice_index_or laid.new k (Fault 0) ≡ slice_index_or laid.old k (Fault 0) }
        ensures room { length laid.new ≡ length laid.old }
    {
        let mut place = from;
        for q in outside(&self.members, path).iter() {
            set_value(laid, place, self.passed_on(q, path, passed, touched));
            place += 1;
        }
    }

    /// Lays what is passed on of all paths of so many relays, where that of shorter ones is laid,
    /// by what is said in place of what is passed on of these.
    fn lay_level<V: Exact, T: Touched<V>>(&self, relays: u8, touched: &T, laid: &mut [Wrapped<V>])
    where
        Nodes: Capacity<N>,
        requires exchange { IsExchange N self.now.rounds self.now.members self.now.commander }
        requires shorter { relays < self.now.rounds }
        requires small { AreSmall self.now.members relays laid.old }
        requires room { level_at (length self.now.members - 1) (self.now.rounds + 1)
            ≤ length laid.old }
        ensures laid { (own : Wrapped V) (says : ℕ → List ℕ → Option (Wrapped V)) →
            ((i : ℕ) (path : List ℕ) → length path ≡ relays + 1 →
            says i path ≡ T.says touched.now i path) →
            AreLaid self.now.members self.now.full own says
            (index_in self.now.members self.now.commander) relays laid.old →
            AreLaid self.now.members self.now.full own says
            (index_in self.now.members self.now.commander) (relays + 1) laid.new }
        ensures small { AreSmall self.now.members (relays + 1) laid.new }
        ensures room { length laid.new ≡ length laid.old }
    {
        let level = self.level(relays);
        let width = (self.members.len() - 1).saturating_sub(relays) as usize;
        let next = level.begins + level.paths;
        for k in 0..level.paths {
            let path = self.path(relays, &level, k);
            let passed = value_at(laid, level.begins + k);
            self.lay_behind(&path, passed, touched, next + k * width, laid);
        }
    }

    /// Lays what is passed on of all paths of so many relays, where that of shorter ones is laid.
    fn lay_longer<V: Exact, T: Touched<V>>(&self, relays: u8, touched: &T, laid: &mut [Wrapped<V>])
    where
        Nodes: Capacity<N>,
        requires exchange { IsExchange N self.now.rounds self.now.members self.now.commander }
        requires shorter { relays < self.now.rounds }
        requires small { AreSmall self.now.members relays laid.old }
        requires room { level_at (length self.now.members - 1) (self.now.rounds + 1)
            ≤ length laid.old }
        ensures laid { (own : Wrapped V) →
            AreLaid self.now.members self.now.full own (T.says touched.now)
            (index_in self.now.members self.now.commander) relays laid.old →
            AreLaid self.now.members self.now.full own (T.says touched.now)
            (index_in self.now.members self.now.commander) (relays + 1) laid.new }
        ensures small { AreSmall self.now.members (relays + 1) laid.new }
        ensures room { length laid.new ≡ length laid.old }
    {
        if touched.is_untouched(relays + 1) {
            self.lay_level(relays, &Untouched, laid);
        } else {
            self.lay_level(relays, touched, laid);
        }
    }

    /// Lays what is passed on of the item, where its commander says this of it: for each path
    /// behind the commander, shorter ones first, what the path's last node passes on.
    pub(crate) fn lay<V: Exact, T: Touched<V>>(
        &self,
        own: Wrapped<V>,
        touched: &T,
        laid: &mut [Wrapped<V>],
    )
    where
        Nodes: Capacity<N>,
        requires exchange { IsExchange N self.now.rounds self.now.members self.now.commander }
        requires own { IsSmall 252 own }
        requires room { level_at (length self.now.members - 1) (self.now.rounds + 1)
            ≤ length laid.old }
        ensures laid { AreLaid self.now.members self.now.full own (T.says touched.now)
            (index_in self.now.members self.now.commander) self.now.rounds laid.new }
        ensures room { length laid.new ≡ length laid.old }
    {
        set_value(laid, 0, own);
        for relays in 0..self.rounds {
            self.lay_longer(relays, touched, laid);
        }
    }
}
