//! Relay frames that are never laid out.

ghost use Rattle.std.specs.Prelude.{◌≡◌, ◌<◌, List, length, slice_index_or};
ghost use Rattle.omh_paths.specs.declared.wrapped.Wrapped.{Wrapped};
ghost use Rattle.omh_paths.specs.declared.wrapped.Wrapped.TheVariants.{Fault};

use omh_paths::Wrapped;

/// The entries of a relay frame that its sender sends, each worked out when it is asked for.
pub trait Entries<V> {
    /// All of them.
    ghost entries: { Self → List (Wrapped V) };

    /// The number of entries.
    fn len(&self) -> usize
        ensures { result ≡ length (entries self.now) };

    /// Entry `k`.
    fn at(&self, k: usize) -> Wrapped<V>
        requires { k < length (entries self.now) }
        ensures { result ≡ slice_index_or (entries self.now) k (Fault 0) };
}
