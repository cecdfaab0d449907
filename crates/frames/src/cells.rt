//! The entries of relay frames.

ghost use Rattle.std.specs.Prelude.{ℕ, ◌≡◌, ◌≢◌, ◌+◌, ◌*◌, ◌/◌, ◌%◌, ◌<◌, ◌≤◌, ◌==◌, true, length};
ghost use Rattle.std.specs.Prelude.{slice_index_or};
ghost use Rattle.std.specs.Int.{w16, to_be_bytes};
ghost use Rattle.std.specs.List.{flat_map};
ghost use Rattle.omh_paths.specs.declared.wrapped.Wrapped.TheVariants.{Fault};
ghost use Rattle.frames.specs.Checks.{are_written};
ghost use Rattle.frames.specs.PieceLaws.{AreBytes};
ghost use Rattle.frames.specs.Reading.{content_claims, content_row, content_rows};
ghost use Rattle.frames.specs.Spelling.{claim_spelling, row_spelling, relayed_row_spelling};
ghost use Rattle.frames.specs.Writing.{pasted};

use crate::pieces::write_at;
use node_grid::{Capacity, Nodes, Row};
use omh_paths::Wrapped;

/// The entries of a relay frame, as they stand in its bytes: a tag and a value each.
///
/// Tag 0 is a plain value, and tag k is `Fault(k)`, whose value bytes are all 0.
#[derive(Clone, Copy)]
pub struct Cells<'a> {
    bytes: &'a [u8],
    width: usize,
    ghost small: { AreBytes bytes.now },
    ghost wide: { 2 ≤ width },
    ghost whole: { length bytes.now % width ≡ 0 },
    ghost written: { are_written width bytes.now ≡ true },
}

impl<'a> Cells<'a> {
    /// Entries of `width` bytes each, as `put_done` or `put_row` wrote them.
    pub fn over(bytes: &'a [u8], width: usize) -> Cells<'a>
        requires wide { 2 ≤ width }
        requires whole { length bytes.now % width ≡ 0 }
        requires written { are_written width bytes.now ≡ true }
        ensures bytes { result.bytes.now ≡ bytes.now }
        ensures width { result.width ≡ width }
    {
        Cells { bytes, width }
    }

    /// The number of entries.
    pub fn len(&self) -> usize
        ensures { result ≡ length self.now.bytes.now / self.now.width }
    {
        self.bytes.len() / self.width
    }

    /// Whether there is no entry.
    pub fn is_empty(&self) -> bool
        ensures { result ≡ (length self.now.bytes.now == 0) }
    {
        self.bytes.is_empty()
    }

    /// The bytes of all entries.
    pub(crate) fn bytes(&self) -> &[u8]
        ensures claims { self.now.width ≡ 2 →
            flat_map claim_spelling (content_claims self.now.bytes.now) ≡ result.now }
        ensures rows { (capacity nodes : ℕ) → self.now.width ≡ 1 + 2 * nodes →
            flat_map (relayed_row_spelling nodes) (content_rows capacity nodes self.now.bytes.now)
            ≡ result.now }
    {
        self.bytes
    }

    /// The claim of entry `k`.
    pub fn done_at(&self, k: usize) -> Wrapped<u8>
        requires wide { self.now.width ≡ 2 }
        requires within { k < length self.now.bytes.now / self.now.width }
        ensures { result ≡ slice_index_or (content_claims self.now.bytes.now) k result }
    {
        match self.bytes[2 * k] {
            0 => Wrapped::Plain(self.bytes[2 * k + 1]),
            tag => Wrapped::Fault(tag),
        }
    }

    /// The row of entry `k`, among `nodes` nodes.
    pub fn row_at<const N: usize>(&self, nodes: u8, k: usize) -> Wrapped<Row<N>>
    where
        Nodes: Capacity<N>,
        requires nodes { nodes ≤ N }
        requires wide { self.now.width ≡ 1 + 2 * nodes }
        requires within { k < length self.now.bytes.now / self.now.width }
        ensures { result ≡ slice_index_or (content_rows N nodes self.now.bytes.now) k result }
    {
        let at = k * self.width;
        match self.bytes[at] {
            0 => Wrapped::Plain(read_row(&self.bytes[at + 1..at + self.width], nodes)),
            tag => Wrapped::Fault(tag),
        }
    }
}

/// The row of the first `nodes` nodes' masks.
pub(crate) fn read_row<const N: usize>(bytes: &[u8], nodes: u8) -> Row<N>
where
    Nodes: Capacity<N>,
    requires nodes { nodes ≤ N }
    requires whole { length bytes.now ≡ 2 * nodes }
    ensures { result ≡ content_row N nodes bytes.now }
{
    let mut row = Row::zero();
    for j in 0..nodes as usize {
        let mut mask = [0; 2];
        mask.copy_from_slice(&bytes[2 * j..2 * j + 2]);
        row.masks[j] = u16::from_be_bytes(mask);
    }
    row
}

/// Writes masks from `at` on.
pub(crate) fn write_masks(out: &mut [u8], at: usize, masks: &[u16])
    requires { at + 2 * length masks.now ≤ length out.old }
    ensures { out.new ≡ pasted at (flat_map (to_be_bytes w16) masks.now) out.old }
{
    for (j, mask) in masks.iter().enumerate() {
        write_at(out, at + 2 * j, &mask.to_be_bytes());
    }
}

/// Writes a claim as entry `k`, and leaves all else.
pub fn put_done(out: &mut [u8], k: usize, value: Wrapped<u8>)
    requires fits { 2 * k + 2 ≤ length out.old }
    requires some { value ≢ Fault 0 }
    ensures { out.new ≡ pasted (2 * k) (claim_spelling value) out.old }
{
    let entry = match value {
        Wrapped::Plain(task) => [0, task],
        Wrapped::Fault(tag) => [tag, 0],
    };
    write_at(out, 2 * k, &entry);
}

/// Writes a row among `nodes` nodes as entry `k`, and leaves all else.
pub fn put_row<const N: usize>(out: &mut [u8], nodes: u8, k: usize, value: Wrapped<Row<N>>)
where
    Nodes: Capacity<N>,
    requires nodes { nodes ≤ N }
    requires fits { (1 + 2 * nodes) * k + (1 + 2 * nodes) ≤ length out.old }
    requires some { value ≢ Fault 0 }
    ensures { out.new ≡ pasted ((1 + 2 * nodes) * k) (relayed_row_spelling nodes value.entry)
        out.old }
{
    let width = 1 + 2 * nodes as usize;
    let at = width * k;
    match &value {
        Wrapped::Plain(row) => {
            out[at] = 0;
            write_masks(out, at + 1, &row.masks[..nodes as usize]);
        }
        Wrapped::Fault(tag) => {
            out[at] = *tag;
            out[at + 1..at + width].fill(0);
        }
    }
}
