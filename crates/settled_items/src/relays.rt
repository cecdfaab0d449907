ghost use Rattle.std.specs.Prelude.{◌≡◌, ◌≢◌};
ghost use Rattle.omh_paths.specs.Wrapped.{wrapped};
ghost use Rattle.settled_items.specs.Relaying.{relay_heard};

use crate::relayed::Relayed;
use odd_relays::Relays;
use omh_paths::{Exact, Path, Wrapped};
use settled_paths::Touched;

impl<'a, V: Exact, T: Touched<V>, const N: usize> Relays<V> for Relayed<'a, V, T, N> {
    ghost says = { λ x. relay_heard x.exchange.full x.own.now (T.says x.touched.now) };

    fn said(&self, to: u8, path: &Path) -> Wrapped<V> {
        if path.at(path.len() - 1) == to {
            return self.passed(path);
        }
        match self.touched.said(to, path) {
            Some(value) => value,
            None => self.passed(path),
        }
    }

    fn is_alike(&self, i: u8, j: u8, len: u8) -> bool {
        len > 0 && self.touched.is_alike(i, j, len)
    }
}
