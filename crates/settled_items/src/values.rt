//! Values of an item, by node or one behind another.

ghost use Rattle.std.specs.Prelude.{◌≡◌, ◌≢◌, ℕ, ◌-◌, ◌<◌, ◌≤◌, length, take, drop, slice_set};
ghost use Rattle.std.specs.Prelude.{slice_index_or, IfOk, replicate, true};
ghost use Rattle.node_grid.specs.NodeSet.{has_id};
ghost use Rattle.omh_paths.specs.declared.wrapped.Wrapped.TheVariants.{Fault};
ghost use Rattle.omh_paths.specs.Wrapped.{wrapped, unwrapped};
ghost use Rattle.omh_paths.specs.Majority.{majority};
ghost use Rattle.omh.specs.Flat.{forgotten};
ghost use Rattle.equivocation.specs.Conviction.{is_convicted};
ghost use Rattle.settled_items.specs.Relaying.{clipped};

use equivocation::convict;
use node_grid::NodeSet;
use omh_paths::{Exact, Wrapped, majority};
use std::alloc::{AllocError, Global};

/// So many values, all of them the error.
pub(crate) fn blank<V: Exact>(alloc: Global, len: usize) -> Result<Vec<Wrapped<V>>, AllocError>
    ensures { IfOk result (λ v. v.items ≡ replicate len (Fault 0)) }
{
    let mut values = Vec::with_capacity(alloc, len)?;
    for _ in 0..len {
        values.push(Wrapped::Fault(0))?;
    }
    Ok(values)
}

/// Puts a value in place of another one.
pub(crate) fn set_value<V: Exact>(values: &mut [Wrapped<V>], place: usize, value: Wrapped<V>)
    requires { place < length values.old }
    ensures { values.new ≡ slice_set values.old place value }
{
    values[place] = value;
}

/// Puts the error in place of all values.
pub(crate) fn clear<V: Exact>(values: &mut [Wrapped<V>])
    ensures { values.new ≡ forgotten values.old }
{
    for value in values.iter_mut() {
        *value = Wrapped::Fault(0);
    }
}

/// A value in which an error that was wrapped more than 254 times counts as one that was wrapped so
/// often.
pub(crate) fn clip<V: Exact>(value: Wrapped<V>) -> Wrapped<V>
    ensures is { result ≡ clipped value }
    ensures known { result ≢ Fault 255 }
{
    match value {
        Wrapped::Plain(v) => Wrapped::Plain(v),
        Wrapped::Fault(k) => clip_fault(k),
    }
}

/// An error that was wrapped so many times, at most 254 of which count.
fn clip_fault<V: Exact>(times: u8) -> Wrapped<V>
    ensures is { result ≡ clipped (Fault times) }
    ensures known { result ≢ Fault 255 }
{
    if times < 254 {
        Wrapped::Fault(times)
    } else {
        Wrapped::Fault(254)
    }
}

/// The value as a relay passes it on, clipped.
pub(crate) fn wrap<V: Exact>(value: Wrapped<V>) -> Wrapped<V>
    ensures is { result ≡ clipped (wrapped value) }
    ensures known { result ≢ Fault 255 }
{
    clip(clip(value).wrap())
}

/// Whether two nodes have the same value.
fn is_same<V: Exact>(values: &[Wrapped<V>], i: u8, j: u8) -> bool
    requires first { i < length values.now }
    requires second { j < length values.now }
    ensures { result ≡ true →
        slice_index_or values.now i (Fault 0) ≡ slice_index_or values.now j (Fault 0) }
{
    values[i as usize] == values[j as usize]
}

/// Whether all these nodes have the same value as this one.
pub(crate) fn are_alike<V: Exact, const N: usize>(
    values: &[Wrapped<V>],
    nodes: &NodeSet<N>,
    first: u8,
) -> bool
    requires places { length values.now ≡ N }
    requires first { first < N }
    ensures { result ≡ true → (k : ℕ) → has_id nodes.now k ≡ true →
        slice_index_or values.now k (Fault 0) ≡ slice_index_or values.now first (Fault 0) }
{
    for k in nodes.iter() {
        if !is_same(values, k, first) {
            return false;
        }
    }
    true
}

/// What is settled from the terms at these places.
pub(crate) fn settled_from_terms<V: Exact>(
    terms: &[Wrapped<V>],
    from: usize,
    end: usize,
) -> Wrapped<V>
    requires ordered { from ≤ end }
    requires within { end ≤ length terms.now }
    ensures { result ≡ unwrapped (majority V.eq (take (end - from) (drop from terms.now))) }
{
    majority(&terms[from..end]).unwrap()
}

/// Whether a member is convicted by the first so many of these relays.
pub(crate) fn convict_by<V: Exact>(
    own: Wrapped<V>,
    relays: &[Wrapped<V>],
    count: usize,
    counted: bool,
    m: u8,
) -> bool
    requires own { own ≢ Fault 255 }
    requires within { count ≤ length relays.now }
    requires few { count ≤ 15 }
    ensures { result ≡ is_convicted V.eq own (take count relays.now) counted m }
{
    convict(own, &relays[..count], counted, m)
}
