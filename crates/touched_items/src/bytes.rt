//! The bytes of entries of rows.

ghost use Rattle.std.specs.Prelude.{◌≡◌, ◌*◌, ◌≤◌, length};
ghost use Rattle.frames.specs.Checks.{are_masks, are_zero};
ghost use Rattle.frames.specs.Reading.{content_row};

use node_grid::{Capacity, Nodes, Row};

/// Whether all bytes are 0.
pub(crate) fn are_zero(bytes: &[u8]) -> bool
    ensures { result ≡ are_zero bytes.now }
{
    bytes.iter().all(|b| *b == 0)
}

/// Whether the bytes are masks below 256, two bytes each.
fn are_small(bytes: &[u8]) -> bool
    ensures { result ≡ are_masks 1 bytes.now }
{
    for k in 0..bytes.len() / 2 {
        if bytes[2 * k] != 0 {
            return false;
        }
    }
    true
}

/// Whether the bytes are masks of the version, two bytes each: any in version 2, and below 256 in
/// version 1.
pub(crate) fn are_masks(version: u8, bytes: &[u8]) -> bool
    ensures { result ≡ are_masks version bytes.now }
{
    version != 1 || are_small(bytes)
}

/// The row of the first `nodes` nodes' masks.
pub(crate) fn read_row<const N: usize>(bytes: &[u8], nodes: u8) -> Row<N>
where
    Nodes: Capacity<N>,
    requires nodes { nodes ≤ N }
    requires whole { length bytes.now ≡ 2 * nodes }
    ensures { result ≡ content_row N nodes bytes.now }
{
    let mut row = Row::zero();
    for j in 0..nodes as usize {
        let mut mask = [0; 2];
        mask.copy_from_slice(&bytes[2 * j..2 * j + 2]);
        row.masks[j] = u16::from_be_bytes(mask);
    }
    row
}
