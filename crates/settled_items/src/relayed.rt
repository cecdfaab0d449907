ghost use Rattle.std.specs.Prelude.{◌≡◌, ◌≢◌, ℕ, ◌<◌, ◌≤◌, ◌∷◌, [], All, length, slice_index_or};
ghost use Rattle.std.specs.Prelude.{true, IsTrue, ◌↔◌, if◌then◌else◌};
ghost use Rattle.node_grid.specs.NodeSet.{has_id};
ghost use Rattle.omh_paths.specs.declared.wrapped.Wrapped.{Wrapped};
ghost use Rattle.omh_paths.specs.declared.wrapped.Wrapped.TheVariants.{Fault};
ghost use Rattle.omh_paths.specs.Wrapped.{wrapped};
ghost use Rattle.omh.specs.Written.{IsSmall};
ghost use Rattle.settled_paths.specs.Passing.{or_passed, passes, passed};
ghost use Rattle.settled_items.specs.Relaying.{clipped, AreFewOdd};

use crate::values::{clear, clip, set_value, wrap};
use node_grid::{Capacity, NodeSet, Nodes};
use omh_paths::{Exact, Path, Wrapped};
use settled_paths::{Exchange, Touched};

/// One member's item as it is told and relayed.
#[derive(Drop)]
pub struct Relayed<'a, V, T, const N: usize> {
    /// Who tells it, who passes it on and in how many rounds, and who hears it.
    pub exchange: Exchange<N>,
    /// The members whose relays of it may be heard otherwise than they are passed on.
    pub odd: NodeSet<N>,
    /// What its commander says of it.
    pub own: &'a Wrapped<V>,
    /// What nodes hear in place of what is passed on.
    pub touched: &'a T,
}

/// Whether so few members are odd that paths of odd members decide: n > 2o + z + m, where of n
/// members o are odd and z of the others aren't Full.
pub fn has_few_odd<const N: usize>(exchange: &Exchange<N>, odd: &NodeSet<N>) -> bool
where
    Nodes: Capacity<N>,
    requires rounds { exchange.now.rounds ≤ 3 }
    ensures { IsTrue result ↔
        AreFewOdd exchange.now.rounds exchange.now.members exchange.now.full odd.now }
{
    let members = &exchange.members;
    let regular = members.minus(odd);
    let odd = members.len() - regular.len();
    let idle = regular.minus(&exchange.full).len();
    2 * odd + idle + exchange.rounds < members.len()
}

impl<'a, V: Exact, T: Touched<V>, const N: usize> Relayed<'a, V, T, N> {
    ghost use Rattle.settled_items.specs.Relayed.{IsToldByNode};

    /// What its commander says of it.
    pub(crate) fn own(&self) -> Wrapped<V>
        ensures { result ≡ self.now.own.now }
    {
        *self.own
    }

    /// What a node hears for a path whose last node passes this on.
    fn heard(&self, to: u8, path: &Path, passed: Wrapped<V>) -> Wrapped<V>
        ensures heard { result ≡ or_passed (T.says self.now.touched.now to path.now) passed }
        ensures small { (most : ℕ) → 252 ≤ most → IsSmall most passed → IsSmall most result }
    {
        match self.touched.said(to, path) {
            Some(value) => value,
            None => passed,
        }
    }

    /// What a member passes on of a path, clipped, where this is what the path's last node passes
    /// on, clipped.
    fn passed_behind(&self, q: u8, path: &Path, before: Wrapped<V>) -> Wrapped<V>
        ensures passed { (p : Wrapped V) → before ≡ clipped p → result ≡
            clipped (passes self.now.exchange.full (T.says self.now.touched.now) path.now p q) }
        ensures known { result ≢ Fault 255 }
    {
        if self.exchange.full.has(q) {
            wrap(self.heard(q, path, before))
        } else {
            Wrapped::Fault(0)
        }
    }

    /// What a path's last node passes on, clipped.
    pub(crate) fn passed(&self, path: &Path) -> Wrapped<V>
        ensures passed { result ≡
            clipped (passed self.now.exchange.full self.now.own.now
            (T.says self.now.touched.now) path.now) }
        ensures known { result ≢ Fault 255 }
    {
        let len = path.len();
        let mut walked = Path::root(path.at(0));
        let mut before = clip(self.own());
        for k in 1..len {
            let q = path.at(k);
            before = self.passed_behind(q, &walked, before);
            walked = walked.then(q);
        }
        before
    }

    /// Lays by node what each awake node hears of the commander itself.
    pub(crate) fn lay_told(&self, told: &mut [Wrapped<V>])
        requires own { IsSmall 251 self.now.own.now }
        requires places { length told.old ≡ N }
        ensures { IsToldByNode T.says self.now told.new }
    {
        clear(told);
        let own = self.own();
        let root = Path::root(self.exchange.commander);
        for i in self.exchange.awake.iter() {
            let heard = self.heard(i, &root, own);
            set_value(told, i as usize, heard);
        }
    }
}
