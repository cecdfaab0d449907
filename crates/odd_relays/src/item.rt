//! One member's item, as it is told and relayed.

ghost use Rattle.std.specs.Prelude.{◌≡◌, ◌≢◌, ℕ, ◌<◌, ◌≤◌, List, All, length, true, IsTrue, ◌↔◌};
ghost use Rattle.std.proofs.Props.{props};
ghost use Rattle.node_grid.specs.NodeSet.{has_id};
ghost use Rattle.omh_paths.specs.declared.wrapped.Wrapped.{Wrapped};
ghost use Rattle.omh_paths.specs.declared.wrapped.Wrapped.TheVariants.{Fault};

use crate::values::value_at;
use node_grid::NodeSet;
use omh_paths::{Exact, Path, Wrapped};

/// What odd members pass on of an item to each node.
pub trait Relays<V: Exact> {
    ghost says: { Self → ℕ → List ℕ → Wrapped V };

    /// What the path's last node, an odd member, passes on to a node that isn't on the path.
    fn said(&self, to: u8, path: &Path) -> Wrapped<V>
        ensures is { result ≡ says self.now to path.now }
        ensures known { result ≢ Fault 255 };

    /// Whether they pass on the same to two nodes of all paths of so many nodes. It may say false
    /// of any two.
    fn is_alike(&self, i: u8, j: u8, len: u8) -> bool
        ensures { result ≡ true → (path : List ℕ) → length path ≡ len →
            says self.now i path ≡ says self.now j path };
}

/// Who tells and relays items.
#[derive(Clone, Copy)]
pub struct Phase<const N: usize> {
    /// The rounds of relaying, m.
    pub rounds: u8,
    /// The members.
    pub members: NodeSet<N>,
    /// The nodes that are Full.
    pub full: NodeSet<N>,
}

/// One member's item in a phase: what each node was told of it, and whose relays of it are odd.
/// No node was told the error that can't be wrapped once more.
#[derive(Drop)]
pub struct Item<'a, V, S, const N: usize> {
    /// Who tells and relays it.
    pub phase: Phase<N>,
    /// The member whose item it is.
    pub commander: u8,
    /// The members whose relays of it may say anything. The commander relays nothing of its own
    /// item, so it need not be among them.
    pub odd: NodeSet<N>,
    /// What each node was told of it, by node.
    pub told: &'a [Wrapped<V>],
    /// What odd members pass on of it.
    pub relays: &'a S,
    pub ghost fits: { N ≤ 16 },
    pub ghost short: { phase.rounds ≤ 3 },
    pub ghost member: { has_id phase.members commander ≡ true },
    pub ghost by_node: { length told.now ≡ N },
    pub ghost known: { All (λ v. v ≢ Fault 255) told.now } by { Prim.hlevel props },
}

impl<'a, V: Exact, S: Relays<V>, const N: usize> Item<'a, V, S, N> {
    ghost use Rattle.omh.specs.Omh.{ear, own_term};
    ghost use Rattle.odd_relays.specs.Direct.{direct_heard, direct_world};
    ghost use Rattle.odd_relays.specs.Telling.{telling, HasFewOdd};

    /// Whether the odd members are few enough: n > 2o + z + m, where of n members o are odd and z
    /// of the others aren't Full.
    pub fn has_few_odd(&self) -> bool
        ensures { IsTrue result ↔ HasFewOdd (telling S.says self.now) }
    {
        let members = &self.phase.members;
        let regular = members.minus(&self.odd);
        let odd = members.len() - regular.len();
        let idle = regular.minus(&self.phase.full).len();
        2 * odd + idle + self.phase.rounds < members.len()
    }

    /// What node `i` heard for a path of odd members behind the commander.
    pub(crate) fn heard(&self, i: u8, path: &Path) -> Wrapped<V>
        requires { i < N }
        ensures heard { result ≡ direct_heard (telling S.says self.now) i path.now }
        ensures known { result ≢ Fault 255 }
    {
        if path.len() == 1 {
            value_at(self.told, i)
        } else {
            self.relays.said(i, path)
        }
    }

    /// What a member that isn't odd passes on for such a path, and puts into its own majority.
    pub(crate) fn passed(&self, q: u8, path: &Path) -> Wrapped<V>
        requires { q < N }
        ensures { result ≡ own_term (ear (direct_world (telling S.says self.now)) q) path.now }
    {
        if self.phase.full.has(q) {
            self.heard(q, path).wrap()
        } else {
            Wrapped::Fault(0)
        }
    }
}
