//! Values by the places of due channels.

ghost use Rattle.std.specs.Prelude.{◌≡◌, ℕ, length, map, pos};
ghost use Rattle.std.specs.Prelude.{slice_index_or, true};
ghost use Rattle.node_grid.specs.NodeSet.{IsIdSet, has_id};
ghost use Rattle.frames.specs.Reading.{content_values as values_of};
ghost use Rattle.protocol.specs.View.{own_in, value_of};

use data_slot::own_in;
use frames::Values;

/// The channels that are due to a node, in ascending order.
#[derive(Drop)]
pub(crate) struct Due<'a> {
    pub(crate) channels: &'a [u8],
    ghost set: { IsIdSet 8 channels.now },
}

/// Value `k` of a data frame, and 0 where there is none.
fn value_or_zero(values: &Values<'_>, k: usize) -> i64
    ensures { result ≡ slice_index_or (values_of values.now.bytes.now) k (pos 0) }
{
    if k < values.len() { values.at(k) } else { 0 }
}

impl<'a> Due<'a> {
    /// The own values that a node says of as many due channels of its own as a receiver has, by the
    /// channels that the receiver takes them for, and 0 in the places of those that aren't due to
    /// it.
    pub(crate) fn own_by_place(&self, own: &[Option<i64>; 8], said: &[u8]) -> [i64; 8]
        requires as_many { length said.now ≡ length self.now.channels.now }
        ensures { (c : ℕ) → has_id self.now.channels.now c ≡ true →
            slice_index_or result c (pos 0) ≡
            value_of self.now.channels.now (map (own_in own.now) said.now) c }
    {
        let mut told = [0; 8];
        for k in 0..self.channels.len() {
            told[self.channels[k] as usize] = own_in(own, said[k]);
        }
        told
    }

    /// The values of a data frame by the channels that a receiver takes them for, and 0 in the
    /// places of those that aren't due to it.
    pub(crate) fn read_by_place(&self, values: &Values<'_>) -> [i64; 8]
        ensures { (c : ℕ) → has_id self.now.channels.now c ≡ true →
            slice_index_or result c (pos 0) ≡
            value_of self.now.channels.now (values_of values.now.bytes.now) c }
    {
        let mut told = [0; 8];
        for k in 0..self.channels.len() {
            told[self.channels[k] as usize] = value_or_zero(values, k);
        }
        told
    }
}
