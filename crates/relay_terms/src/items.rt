//! The items that nodes relay: claims and rows.

ghost use Rattle.std.specs.Prelude.{◌≡◌, ◌*◌, ◌/◌, ◌≤◌, length, min, slice_index};
ghost use Rattle.frames.specs.Reading.{content_row};

use crate::term::Item;
use node_grid::Row;

impl Item for u8 {
    ghost of_bytes = { λ bytes. slice_index bytes 0 };

    fn blank() -> u8 {
        0
    }

    fn read(bytes: &[u8]) -> u8 {
        match bytes.first() {
            Some(claim) => *claim,
            None => 0,
        }
    }
}

/// The row of the first `nodes` nodes' masks.
fn read_row<const N: usize>(bytes: &[u8], nodes: usize) -> Row<N>
    requires few { nodes ≤ N }
    requires within { 2 * nodes ≤ length bytes.now }
    ensures { result ≡ content_row N nodes bytes.now }
{
    let mut masks = [0; N];
    for node in 0..nodes {
        masks[node] = u16::from_be_bytes([bytes[2 * node], bytes[2 * node + 1]]);
    }
    Row { masks }
}

impl<const N: usize> Item for Row<N> {
    ghost of_bytes = { λ bytes. content_row N (min (length bytes / 2) N) bytes };

    fn blank() -> Row<N> {
        Row { masks: [0; N] }
    }

    fn read(bytes: &[u8]) -> Row<N> {
        let nodes = bytes.len() / 2;
        // Where each node has a mask, their number is known when this is compiled.
        if nodes == N {
            return read_row(bytes, N);
        }
        read_row(bytes, nodes.min(N))
    }
}
