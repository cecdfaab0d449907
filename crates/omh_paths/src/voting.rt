ghost use Rattle.std.specs.Prelude.{◌≡◌, false};
ghost use Rattle.omh_paths.specs.Wrapped.{is_error, same};
ghost use Rattle.omh_paths.specs.Majority.{has_majority, majority as majority_of, IsOnlyCandidate};

use crate::{Exact, Wrapped};

impl<V: Exact> Wrapped<V> {
    /// Whether this is the error itself.
    fn is_error(&self) -> bool
        ensures { result ≡ is_error self.now }
    {
        match self {
            Wrapped::Plain(_) => false,
            Wrapped::Fault(k) => *k == 0,
        }
    }

    /// Whether the two are one value.
    fn is(&self, other: &Self) -> bool
        ensures { result ≡ same V.eq self.now other.now }
    {
        *self == *other
    }
}

/// The only value that can have the majority: each value of another kind takes away one place that
/// it leads by (Boyer and Moore 1991).
fn candidate<V: Exact>(values: &[Wrapped<V>]) -> Wrapped<V>
    ensures { IsOnlyCandidate V.eq values.now result }
{
    let mut candidate = Wrapped::Fault(1);
    let mut lead = 0usize;
    for value in values {
        if value.is_error() {
            continue;
        }
        if lead == 0 {
            candidate = *value;
            lead = 1;
        } else if candidate.is(value) {
            lead += 1;
        } else {
            lead -= 1;
        }
    }
    candidate
}

/// Whether a value that is no error has the majority.
fn has_majority<V: Exact>(values: &[Wrapped<V>], value: Wrapped<V>) -> bool
    requires good { is_error value ≡ false }
    ensures { result ≡ has_majority V.eq values.now value }
{
    let mut votes = 0usize;
    let mut support = 0usize;
    for other in values {
        if !other.is_error() {
            votes += 1;
        }
        if value.is(other) {
            support += 1;
        }
    }
    support > votes / 2
}

/// The value that more than half of those that aren't `Fault(0)` have; `Fault(1)` exactly where
/// there is none.
///
/// `Fault(0)` is left out as in the hybrid majority of Lincoln and Rushby (1993).
pub fn majority<V: Exact>(values: &[Wrapped<V>]) -> Wrapped<V>
    ensures { result ≡ majority_of V.eq values.now }
{
    let candidate = candidate(values);
    if has_majority(values, candidate) {
        candidate
    } else {
        Wrapped::Fault(1)
    }
}
