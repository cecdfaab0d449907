//! By how much a node corrects its clock, by what it was told of the others'.

ghost use Rattle.std.specs.Prelude.{◌≡◌, All, IfSome, None, slice_index_or};
ghost use Rattle.clock_skew.specs.Correction.{IsReading};
ghost use Rattle.frames.specs.Content.{IsValue};
ghost use Rattle.protocol.specs.Clocks.{corrects};
ghost use Rattle.live_node.specs.Live.{good_told, told_numbers};

use clock_skew::correction;
use node_core::{Mode, NodeRecord};
use node_grid::{Capacity, NodeSet, Nodes};

/// Of nodes whose frame in the sync slot was good, those of whose clock something was told.
fn good_told<const N: usize>(sync: &NodeSet<N>, ahead: &[Option<i64>; N]) -> NodeSet<N>
where
    Nodes: Capacity<N>,
    ensures { result ≡ good_told sync.now ahead.now }
{
    let mut good = NodeSet::empty();
    for node in sync.iter() {
        if ahead[node as usize].is_some() {
            good.put(node);
        }
    }
    good
}

/// What was told of each clock, and 0 where nothing was.
fn told_numbers<const N: usize>(ahead: &[Option<i64>; N]) -> [i64; N]
    requires values { All (λ o. IfSome o IsValue) ahead.now }
    ensures numbers { result ≡ told_numbers ahead.now }
    ensures readings { All IsReading result }
{
    let mut numbers = [0; N];
    for node in 0..N {
        numbers[node] = ahead[node].unwrap_or(0);
    }
    numbers
}

/// By how much node `id` corrects its clock after a period, by its record of the period and by what
/// it was told of the other clocks.
pub(crate) fn correction_by<const N: usize>(
    outcome: &NodeRecord<N>,
    ahead: &[Option<i64>; N],
    id: u8,
    m: u8,
) -> i64
where
    Nodes: Capacity<N>,
    requires values { All (λ o. IfSome o IsValue) ahead.now }
    requires own { slice_index_or ahead.now id None ≡ None }
    ensures { result ≡ corrects m id (told_numbers ahead.now) outcome.now.members
        (good_told outcome.now.sync ahead.now) outcome.now.mode }
{
    let good = good_told(&outcome.sync, ahead);
    let readings = told_numbers(ahead);
    match outcome.mode {
        Mode::Full => correction(&outcome.members, &good, Some(id), &readings, m),
        Mode::Joining => correction(&outcome.members, &good, None, &readings, m),
        Mode::Cold => 0,
    }
}
