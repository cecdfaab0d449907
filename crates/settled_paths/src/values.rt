//! Values in a list.

ghost use Rattle.std.specs.Prelude.{◌≡◌, ◌≢◌, ℕ, ◌+◌, ◌*◌, ◌<◌, ◌≤◌, ◌++◌, length, slice_set};
ghost use Rattle.std.specs.Prelude.{slice_index_or, take, drop, IfOk, replicate};
ghost use Rattle.omh_paths.specs.declared.wrapped.Wrapped.TheVariants.{Fault};
ghost use Rattle.omh_paths.specs.Wrapped.{unwrapped};
ghost use Rattle.omh_paths.specs.Majority.{majority};

use omh_paths::{Exact, Wrapped, majority};
use std::alloc::{AllocError, Global};

/// So many values, all of them the error.
pub(crate) fn blank<V: Exact>(alloc: Global, len: usize) -> Result<Vec<Wrapped<V>>, AllocError>
    ensures { IfOk result (λ v. v.items ≡ replicate len (Fault 0)) }
{
    let mut values = Vec::with_capacity(alloc, len)?;
    for _ in 0..len {
        values.push(Wrapped::Fault(0))?;
    }
    Ok(values)
}

/// Puts a value in place of another one.
pub(crate) fn set_value<V: Exact>(values: &mut [Wrapped<V>], place: usize, value: Wrapped<V>)
    requires { place < length values.old }
    ensures { values.new ≡ slice_set values.old place value }
{
    values[place] = value;
}

/// The value at a place.
pub(crate) fn value_at<V: Exact>(values: &[Wrapped<V>], place: usize) -> Wrapped<V>
    requires { place < length values.now }
    ensures { result ≡ slice_index_or values.now place (Fault 0) }
{
    values[place]
}

/// So many values, which begin at `from`.
pub(crate) fn part<V: Exact>(values: &[Wrapped<V>], from: usize, len: usize) -> &[Wrapped<V>]
    requires { from + len ≤ length values.now }
    ensures { result.now ≡ take len (drop from values.now) }
{
    &values[from..from + len]
}

/// Copies the first `len` values over the first ones of `work`.
pub(crate) fn copy_front<V: Exact>(work: &mut [Wrapped<V>], values: &[Wrapped<V>], len: usize)
    requires within { len ≤ length values.now }
    requires room { len ≤ length work.old }
    ensures { work.new ≡ take len values.now ++ drop len work.old }
{
    work[..len].copy_from_slice(&values[..len]);
}

/// What is settled from so many terms, which begin at `from`.
pub(crate) fn settled_from_terms<V: Exact>(
    terms: &[Wrapped<V>],
    from: usize,
    width: usize,
) -> Wrapped<V>
    requires within { from + width ≤ length terms.now }
    ensures { result ≡ unwrapped (majority V.eq (take width (drop from terms.now))) }
{
    majority(&terms[from..from + width]).unwrap()
}
