//! The greatest length of a frame.

ghost use Rattle.std.specs.Prelude.{◌≡◌, ◌<◌, ◌≤◌};
ghost use Rattle.frames.specs.Bound.{IsGreatest, most_entries};

use crate::encoding::HEADER;
use omh_paths::count_paths;

/// The greatest length of a frame among so many nodes, with `m` relay rounds, states of `state_len`
/// bytes and at most `due` due channels, over all slots, senders and sets of members: at most
/// 90,104.
pub fn frame_bound(nodes: u8, m: u8, state_len: u16, due: u8) -> usize
    requires nodes { nodes ≤ 16 }
    requires rounds { m ≤ 3 }
    requires fewer { m < nodes }
    ensures greatest { IsGreatest nodes m state_len due result }
    ensures short { result ≤ 90104 }
{
    let row = 2 * nodes as usize;
    let rows = most_entries(nodes, m) * (1 + row);
    let body = rows.max(row).max(state_len as usize).max(8 * due as usize);
    HEADER + body
}

/// The greatest number of entries of a relay frame.
fn most_entries(nodes: u8, m: u8) -> usize
    requires nodes { nodes ≤ 16 }
    requires rounds { m ≤ 3 }
    requires fewer { m < nodes }
    ensures number { result ≡ most_entries nodes m }
    ensures few { result ≤ 4096 }
{
    if m == 0 { 0 } else { count_paths(nodes - 1, m) }
}
