//! The record of a period, before there is one.

ghost use Rattle.std.specs.Prelude.{◌≡◌, ◌≤◌, ◌<◌, ◌+◌, ◌*◌, All, IfOk, length, option_map};
ghost use Rattle.agreed_state.specs.Config.{IsConfig};
ghost use Rattle.cluster_record.specs.Buffers.{IsSlot, IsRoom};
ghost use Rattle.cluster_record.specs.Shown.{clock_shown};
ghost use Rattle.cluster_record.specs.Filling.{IsBlank};

use super::PeriodRecord;
use crate::clocks::ClockRecord;
use agreed_state::Config;
use fault_classes::{Budget, Class};
use frames::frame_bound;
use node_core::NodeRecord;
use node_grid::{Capacity, NoMemory, NodeSet, Nodes};
use slot_plan::slot_count;
use std::alloc::{AllocError, Global};

/// The most tasks that a configuration can have.
const MOST_TASKS: u16 = 32;

/// The length of the longest frame among so many nodes, with so many relay rounds.
fn longest_frame(nodes: u8, m: u8) -> usize
    requires nodes { nodes ≤ 16 }
    requires rounds { m ≤ 3 }
    requires fewer { m < nodes }
    ensures greatest { IsRoom nodes m result }
    ensures short { result ≤ 90104 }
{
    let longest_state = 2 + (6 + 2 * MOST_TASKS) * nodes as u16;
    frame_bound(nodes, m, longest_state, 8)
}

/// The budget of no members.
fn no_members() -> Budget
    ensures { result ≡ record { n = 0; a = 0; s = 0; b = 0 } }
{
    Budget {
        n: 0,
        a: 0,
        s: 0,
        b: 0,
    }
}

/// A buffer for the frame of each node.
fn slot_buffers(alloc: Global, nodes: u8, room: usize) -> Result<Vec<Vec<u8>>, AllocError>
    ensures { IfOk result (IsSlot room nodes) }
{
    let mut frames = Vec::with_capacity(alloc, nodes as usize)?;
    for _ in 0..nodes {
        frames.push(Vec::with_capacity(alloc, room)?)?;
    }
    Ok(frames)
}

/// Buffers for the frames of so many slots.
fn all_buffers(
    alloc: Global,
    slots: u8,
    nodes: u8,
    room: usize,
) -> Result<Vec<Vec<Vec<u8>>>, AllocError>
    ensures { IfOk result (λ v. (length v.items ≡ slots) × All (IsSlot room nodes) v.items) }
{
    let mut sent = Vec::with_capacity(alloc, slots as usize)?;
    for _ in 0..slots {
        sent.push(slot_buffers(alloc, nodes, room)?)?;
    }
    Ok(sent)
}

/// Room for the records of so many nodes. Until a period is recorded they are those of Cold nodes.
fn no_records<const N: usize>(alloc: Global, nodes: u8) -> Result<Vec<NodeRecord<N>>, AllocError>
where
    Nodes: Capacity<N>,
    ensures { IfOk result (λ v. length v.items ≡ nodes) }
{
    let mut records = Vec::with_capacity(alloc, nodes as usize)?;
    for _ in 0..nodes {
        records.push(NodeRecord::cold())?;
    }
    Ok(records)
}

impl<const N: usize> PeriodRecord<N>
where
    Nodes: Capacity<N>,
{
    /// A record with all the room that a run of the configuration takes, before the first period,
    /// with these clocks.
    ///
    /// # Errors
    ///
    /// `NoMemory` where there is none.
    pub fn open(
        alloc: Global,
        config: &Config<N>,
        clock: Option<ClockRecord<N>>,
    ) -> Result<PeriodRecord<N>, NoMemory>
        requires config { IsConfig N config.now }
        ensures { IfOk result (IsBlank config.now (option_map clock_shown clock.entry)) }
    {
        let nodes = config.nodes;
        let m = config.m;
        let room = longest_frame(nodes, m);
        let Ok(records) = no_records(alloc, nodes) else {
            return Err(NoMemory);
        };
        let Ok(sent) = all_buffers(alloc, slot_count(m), nodes, room) else {
            return Err(NoMemory);
        };
        Ok(PeriodRecord {
            period: 0,
            nodes,
            m,
            retire: config.policy.retire,
            reference: None,
            members: NodeSet::empty(),
            budget: no_members(),
            within: false,
            claim: true,
            classes: [Class::N; N],
            clock,
            records,
            sent,
            room,
        })
    }
}
