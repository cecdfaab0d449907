//! How a period's record takes the frames of a slot.

ghost use Rattle.std.specs.Prelude.{◌≡◌, ◌<◌, ◌≤◌, true, All, map, length, slice_set};
ghost use Rattle.slot_plan.specs.Slots.{slot_count};
ghost use Rattle.node_steps.specs.Steps.{frame_of};
ghost use Rattle.cluster_record.specs.Buffers.{IsBuffer, AreShort};

use super::PeriodRecord;
use node_core::Node;
use node_grid::{Capacity, Nodes};

/// Writes the frames of all nodes, each into room for `room` bytes.
fn say_all<'c, const N: usize>(nodes: &[Node<'c, N>], frames: &mut [Vec<u8>], room: usize)
where
    Nodes: Capacity<N>,
    requires open { All (λ v. v.phase.is_open ≡ true) nodes.now }
    requires each { length frames.old ≡ length nodes.now }
    requires short { All (λ v. v.arrived.frame_max ≤ room) nodes.now }
    requires buffers { All (IsBuffer room) frames.old }
    ensures bytes { map (λ f. f.items) frames.new ≡ map frame_of nodes.now }
    ensures buffers { All (IsBuffer room) frames.new }
{
    for i in 0..nodes.len() {
        nodes[i].say(&mut frames[i]);
    }
}

impl<const N: usize> PeriodRecord<N>
where
    Nodes: Capacity<N>,
{
    /// Takes the frames that all nodes send in a slot.
    pub fn take_frames<'c>(&mut self, slot: u8, nodes: &[Node<'c, N>])
        requires slot { slot < slot_count self.old.m }
        requires open { All (λ v. v.phase.is_open ≡ true) nodes.now }
        requires each { length nodes.now ≡ self.old.nodes }
        requires short { AreShort self.old.nodes self.old.m nodes.now }
        ensures { self.new ≡ record self.old
            { sent = slice_set self.old.sent slot (map frame_of nodes.now) } }
    {
        let room = self.room;
        say_all(nodes, self.sent[slot as usize].as_mut_slice(), room);
    }
}
