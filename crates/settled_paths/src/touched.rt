ghost use Rattle.std.specs.Prelude.{◌≡◌, ◌≢◌, ℕ, ◌+◌, ◌<◌, ◌≤◌, ◌++◌, ◌∷◌, [], List, Option, None};
ghost use Rattle.std.specs.Prelude.{length, true, false, IfSome};
ghost use Rattle.node_grid.specs.NodeSet.{has_id};
ghost use Rattle.omh_paths.specs.declared.wrapped.Wrapped.{Wrapped};
ghost use Rattle.omh.specs.Written.{IsSmall};
ghost use Rattle.settled_paths.specs.Passing.{or_passed, instead, HearAlike};

use omh_paths::{Exact, Path, Wrapped};

/// What was touched of one member's item on its way: what nodes hear in place of what is passed on.
pub trait Touched<V: Exact> {
    ghost says: { Self → ℕ → List ℕ → Option (Wrapped V) };

    /// What node `to` hears for a path in place of what the path's last node passes on; None where
    /// it hears just that.
    fn said(&self, to: u8, path: &Path) -> Option<Wrapped<V>>
        ensures is { result ≡ says self.now to path.now }
        ensures small { IfSome result (λ v. IsSmall 252 v) };

    /// Whether two nodes hear the same in place of what is passed on, for all paths of so many
    /// nodes. It may say false of any two.
    fn is_alike(&self, i: u8, j: u8, len: u8) -> bool
        ensures { result ≡ true → HearAlike (says self.now) i j len };

    /// Whether all nodes hear what is passed on, for all paths of so many nodes. It may say false.
    fn is_untouched(&self, len: u8) -> bool
        ensures { result ≡ true → (i : ℕ) (path : List ℕ) → length path ≡ len →
            says self.now i path ≡ None };
}

/// Nothing was touched: all nodes hear what is passed on.
#[derive(Drop)]
pub(crate) struct Untouched;

impl<V: Exact> Touched<V> for Untouched {
    ghost says = { λ u i path. None };

    fn said(&self, _to: u8, _path: &Path) -> Option<Wrapped<V>> {
        None
    }

    fn is_alike(&self, _i: u8, _j: u8, _len: u8) -> bool {
        true
    }

    fn is_untouched(&self, _len: u8) -> bool {
        true
    }
}

/// What a node hears for a path whose last node passes this on.
pub(crate) fn heard<V: Exact, T: Touched<V>>(
    touched: &T,
    to: u8,
    path: &Path,
    passed: Wrapped<V>,
) -> Wrapped<V>
    ensures heard { result ≡ or_passed (T.says touched.now to path.now) passed }
    ensures small { (most : ℕ) → 252 ≤ most → IsSmall most passed → IsSmall most result }
{
    match touched.said(to, path) {
        Some(value) => value,
        None => passed,
    }
}

/// What node `i` puts into the majority of a path of m nodes for the member `q`, which passes this
/// on: what it hears of it, or just that where `q` is the node itself.
pub(crate) fn term<V: Exact, T: Touched<V>>(
    touched: &T,
    i: u8,
    path: &Path,
    q: u8,
    passed: Wrapped<V>,
) -> Wrapped<V>
    requires room { length path.now < 4 }
    requires off { has_id path.now q ≡ false }
    ensures { result ≡ or_passed (instead (T.says touched.now) i path.now q) passed }
{
    if q == i {
        passed
    } else {
        heard(touched, i, &path.then(q), passed)
    }
}
