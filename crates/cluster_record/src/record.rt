//! What is shown of a period.

ghost use Rattle.std.specs.Prelude.{◌≡◌, ◌<◌, ◌≤◌, ◌+◌, ◌*◌, [], Some, All, map, length, slice_get};
ghost use Rattle.std.specs.Prelude.{slice_index_or};
ghost use Rattle.node_grid.specs.Capacity.{IsCapacity};
ghost use Rattle.slot_plan.specs.Slots.{slot_count};
ghost use Rattle.cluster_periods.specs.Record.{frame_at};

mod filling;
mod opening;
mod taking;

use crate::clocks::ClockRecord;
use fault_classes::{Budget, Class};
use node_core::NodeRecord;
use node_grid::NodeSet;
use std::marker::Model;

/// A period of all nodes of a scenario.
#[derive(Drop)]
pub struct PeriodRecord<const N: usize> {
    /// Its number, from 0.
    pub period: u32,
    /// The number of nodes in use: 3 to `N`.
    pub nodes: u8,
    /// The number of relay rounds, and of asymmetric members that are tolerated.
    pub m: u8,
    /// After how many exclusions a node isn't readmitted any more; 0 where it always is.
    pub retire: u16,
    /// The reference node, the least node of class N, where there is one.
    pub reference: Option<u8>,
    /// The members in the reference node's agreed state when the period began; none without such a
    /// state.
    pub members: NodeSet<N>,
    /// How many members there are, and how many of each faulty class.
    pub budget: Budget,
    /// Whether the period tolerates its faults.
    pub within: bool,
    /// Whether this period and all before it tolerate their faults.
    pub claim: bool,
    /// The class of each node in use, and N behind them.
    pub classes: [Class; N],
    /// The clocks of the period, where the scenario has clocks.
    pub clock: Option<ClockRecord<N>>,
    // What each node in use recorded, and the frames by slot and sender.
    records: Vec<NodeRecord<N>>,
    sent: Vec<Vec<Vec<u8>>>,
    // How many bytes each frame has room for: the length of the configuration's longest.
    room: usize,
}

// Clauses see records and frames as lists, and nothing of the room.
impl<const N: usize> Model for PeriodRecord<N> {
    ghost use Rattle.cluster_periods.specs.Record.{PeriodView};

    ghost Value = { PeriodView };

    ghost use Rattle.cluster_record.specs.Shown.{shown, IsShown};

    ghost view = { shown };

    ghost invariant = { IsShown };
}

impl<const N: usize> PeriodRecord<N> {
    /// What a node recorded of the period.
    ///
    /// The number must be below `nodes`.
    pub fn node(&self, i: u8) -> &NodeRecord<N>
        requires { i < self.now.nodes }
        ensures { slice_get self.now.records i ≡ Some result.now }
    {
        &self.records[i as usize]
    }

    /// The frames of a slot by sender, each at most 90,104 bytes. The slot is one of a period's.
    pub fn frames(&self, slot: u8) -> &[Vec<u8>]
        requires slot { slot < slot_count self.now.m }
        ensures bytes { map (λ f. f.items) result.now ≡ slice_index_or self.now.sent slot [] }
        ensures each { length result.now ≡ self.now.nodes }
        ensures short { All (λ f. length f.items ≤ 90104) result.now }
    {
        self.sent[slot as usize].as_slice()
    }

    /// The frame that node `from` sent in a slot, at most 90,104 bytes.
    ///
    /// `from` must be below `nodes`, and the slot one of a period's.
    pub fn sent(&self, slot: u8, from: u8) -> &[u8]
        requires from { from < self.now.nodes }
        requires slot { slot < slot_count self.now.m }
        ensures bytes { result.now ≡ frame_at self.now slot from }
        ensures short { length result.now ≤ 90104 }
    {
        let frames = &self.sent[slot as usize];
        frames[from as usize].as_slice()
    }
}
