//! A period that is judged.

ghost use Rattle.std.specs.Prelude.{◌≡◌, ℕ, ◌<◌, ◌≤◌, Some, length, slice_index};

use shown_period::Shown;

/// What is shown of a period, with a place for what each node believes.
#[derive(Drop)]
pub(crate) struct Seen<'s, const N: usize> {
    pub(crate) shown: &'s Shown<N>,
    ghost nodes: { shown.now.head.nodes ≤ N },
    ghost reference: { (r : ℕ) → shown.now.head.reference ≡ Some r → r < shown.now.head.nodes },
    ghost many: { length shown.now.made.beliefs.items ≡ N },
    ghost placed: { (i : ℕ) → i < N → slice_index shown.now.made.group i < N },
}
