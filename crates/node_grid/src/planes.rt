ghost use Rattle.std.specs.Prelude.{◌≡◌, ℕ, ◌+◌, ◌<◌, ◌≤◌, slice_index, replicate, bit_xor};
ghost use Rattle.std.specs.Prelude.{bit_and};
ghost use Rattle.std.specs.Int.{bit_at};
ghost use Rattle.node_grid.specs.Planes.{count_at, EachCount, more_mask};

use crate::{Capacity, Nodes, Row};
use std::marker::Model;

/// How many planes there are: counts go up to 31.
const PLANES: usize = 5;

/// How often each node was accused of each kind, up to 31 times.
///
/// The counts lie in planes of bits: bit k of the word at plane x and node j is bit x of the count
/// of node j and kind k. So all kinds of a node are counted at once, by an addition and a
/// comparison of whole words.
#[derive(Clone, Copy)]
pub struct Planes<const N: usize> {
    planes: [[u16; N]; PLANES],
}

// Clauses see the planes, that of the lowest bits first.
impl<const N: usize> Model for Planes<N> {
    ghost use Rattle.std.specs.Prelude.{ℕ, List};

    ghost Value = { List (List ℕ) };

    ghost view = { λ p. p.planes };

    ghost inverse = { λ xs. record { planes = xs } };
}

impl<const N: usize> Planes<N> {
    /// All counts are 0.
    pub fn zero() -> Self
    where
        Nodes: Capacity<N>,
        ensures { result ≡ replicate 5 (replicate N 0) }
    {
        Planes {
            planes: [[0; N]; PLANES],
        }
    }

    /// Adds 1 to the count of node j and kind k for each bit k of the row's mask of node j.
    pub fn add(&mut self, row: &Row<N>)
    where
        Nodes: Capacity<N>,
        requires room { EachCount N (λ j k. count_at self.old j k < 31) }
        ensures { EachCount N (λ j k. count_at self.new j k
            ≡ count_at self.old j k + bit_at (slice_index row.now j) k) }
    {
        let mut carry = row.masks;
        for plane in 0..PLANES {
            let words = self.planes[plane];
            self.planes[plane] = sum_bits(&words, &carry);
            carry = carry_bits(&words, &carry);
        }
    }

    /// The planes, that of the lowest bits first.
    pub fn planes(&self) -> &[[u16; N]; 5]
        ensures { result.now ≡ self.now }
    {
        &self.planes
    }

    /// The row whose mask of node j has bit k exactly where the count of node j and kind k is
    /// greater than the limit of j.
    pub fn more_than(&self, limits: &[u8; N]) -> Row<N>
    where
        Nodes: Capacity<N>,
        requires limits { (j : ℕ) → j < N → slice_index limits.now j ≤ 31 }
        ensures { (j : ℕ) → j < N → slice_index result j
            ≡ more_mask self.now j (slice_index limits.now j) }
    {
        let mut row = Row::zero();
        for node in 0..N {
            row.masks[node] = above(&self.planes, node, limits[node]);
        }
        row
    }
}

/// The mask of the kinds whose count at this node is greater than the limit.
fn above<const N: usize>(planes: &[[u16; N]; PLANES], node: usize, limit: u8) -> u16
where
    Nodes: Capacity<N>,
    requires node { node < N }
    requires limit { limit ≤ 31 }
    ensures { result ≡ more_mask planes.now node limit }
{
    let mut above = 0;
    for (place, plane) in planes.iter().enumerate() {
        let word = plane[node];
        // where the numbers differ in this bit, it outweighs the lower ones
        if (limit >> place) & 1 == 1 {
            above &= word;
        } else {
            above |= word;
        }
    }
    above
}

/// The lower bits of the sums of two planes, bit by bit.
fn sum_bits<const N: usize>(one: &[u16; N], other: &[u16; N]) -> [u16; N]
where
    Nodes: Capacity<N>,
    ensures { (j : ℕ) → j < N → slice_index result j
        ≡ bit_xor (slice_index one.now j) (slice_index other.now j) }
{
    let mut sums = [0; N];
    for node in 0..N {
        sums[node] = one[node] ^ other[node];
    }
    sums
}

/// The carries of the sums of two planes, bit by bit.
fn carry_bits<const N: usize>(one: &[u16; N], other: &[u16; N]) -> [u16; N]
where
    Nodes: Capacity<N>,
    ensures { (j : ℕ) → j < N → slice_index result j
        ≡ bit_and (slice_index one.now j) (slice_index other.now j) }
{
    let mut carries = [0; N];
    for node in 0..N {
        carries[node] = one[node] & other[node];
    }
    carries
}
