//! What a log brings to its node.

ghost use Rattle.std.specs.Prelude.{◌≡◌, ◌≢◌, ◌<◌, ◌≤◌, ◌+◌, ℕ, true, All, drop};
ghost use Rattle.node_steps.specs.Period.{slots_run};
ghost use Rattle.node_alone.specs.Log.{arrivals};
ghost use Rattle.node_alone.specs.Seen.{Ascends};
ghost use Rattle.node_alone.specs.Stepping.{handed, from_slot, IsFromOther, IsReady};

use crate::table::Table;
use node_core::Node;
use node_grid::{Capacity, Nodes};

/// Delivers the entries of the open slot to the node, from entry `next` on. Answers the first entry
/// of a later slot.
fn deliver_slot<'c, const N: usize>(
    node: &mut Node<'c, N>,
    entries: &Table,
    next: usize,
    period: u32,
    slot: u8,
) -> usize
where
    Nodes: Capacity<N>,
    requires ready { IsReady node.old entries.now }
    requires ascends { Ascends entries.now }
    requires rest { drop next entries.now ≡ from_slot period slot entries.now }
    ensures given { node.new ≡ handed node.old (arrivals entries.now period slot) }
    ensures rest { drop result entries.now ≡ from_slot period (slot + 1) entries.now }
{
    for place in next..entries.len() {
        let entry = entries.entry(place);
        if entry.period != period || entry.slot != slot {
            return place;
        }
        node.deliver(entry.from, entry.tick, entry.bytes);
    }
    entries.len()
}

/// Runs so many slots of the period, from entry `next` on. Answers the first entry that is left.
pub(crate) fn run_slots<'c, const N: usize>(
    node: &mut Node<'c, N>,
    entries: &Table,
    next: usize,
    period: u32,
    count: u8,
) -> usize
where
    Nodes: Capacity<N>,
    requires ready { (t : ℕ) → t < count →
        IsReady (slots_run (arrivals entries.now period) t node.old) entries.now }
    requires ascends { Ascends entries.now }
    requires rest { drop next entries.now ≡ from_slot period 0 entries.now }
    ensures after { node.new ≡ slots_run (arrivals entries.now period) count node.old }
    ensures rest { drop result entries.now ≡ from_slot period count entries.now }
{
    let mut next = next;
    for slot in 0..count {
        next = deliver_slot(node, entries, next, period, slot);
        node.slot_end();
    }
    next
}
