//! How many entries a receiver expects of a relay frame.

ghost use Rattle.std.specs.Prelude.{◌≡◌, ◌≤◌};
ghost use Rattle.frames.specs.Content.{entries_due, round_in};
ghost use Rattle.frames.specs.Seen.{expected};

use frames::Expect;
use node_grid::{Capacity, Nodes};
use omh_paths::count_paths;

/// The relay round of the slot.
pub(crate) fn round_of<const N: usize>(expect: &Expect<N>) -> u8
    ensures { result ≡ round_in expect.now.m expect.now.slot }
{
    let relayed = expect.slot.saturating_sub(1);
    if relayed <= expect.m {
        relayed
    } else {
        expect.slot.saturating_sub(expect.m).saturating_sub(3)
    }
}

/// The number of entries of a relay frame: one for each path of as many members, without the
/// sender, as its round.
pub(crate) fn entries_due<const N: usize>(expect: &Expect<N>) -> usize
where
    Nodes: Capacity<N>,
    requires round { round_in expect.now.m expect.now.slot ≤ 3 }
    ensures number { result ≡ entries_due (expected expect.now) }
    ensures few { result ≤ 4096 }
{
    if expect.members.has(expect.sender) {
        count_paths(expect.members.len().saturating_sub(1), round_of(expect))
    } else {
        0
    }
}
