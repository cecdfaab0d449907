//! What the links of one sender bring to all nodes.

ghost use Rattle.std.specs.Prelude.{◌≡◌, ◌≢◌, ◌<◌, ◌≤◌, true, false, None, map, replicate, length};
ghost use Rattle.slot_plan.specs.Slots.{slot_count};
ghost use Rattle.fault_classes.specs.Line.{effect_at};
ghost use Rattle.cluster_periods.specs.Slots.{arriving, handed, handed_from, IsReady, Takes};

use cluster_record::LONGEST_FRAME;
use error_detect::Rooms;
use fault_classes::FaultPlan;
use fault_link::{Delivered, Transmission, deliveries};
use node_core::Node;
use node_grid::{Capacity, NoMemory, Nodes};
use slot_plan::ON_TIME;
use std::alloc::Global;
use std::marker::Model;

/// Frames of so many nodes are short: each node keeps room of its own for them, which costs less
/// than to exchange it.
const FEW_NODES: u8 = 8;

/// Room that all nodes share, since they are stepped one after the other: for a frame of which a
/// fault line sets bytes, filled once it is needed, and for the frames that arrive at a node in a
/// slot.
///
/// Contracts see the bytes of the changed frame, and promise nothing of them.
#[derive(Drop)]
pub(crate) struct Scratch {
    bytes: Vec<u8>,
    pub(crate) rooms: Rooms,
}

impl Model for Scratch {
    ghost use Rattle.std.specs.Prelude.{ℕ, List, ◌≤◌, vec_capacity};

    ghost Value = { List ℕ };

    ghost view = { λ s. s.bytes.items };

    ghost invariant = { λ s. 90104 ≤ vec_capacity s.bytes };
}

impl Scratch {
    /// Takes room for the longest frame, and for one of each of so many nodes, where these are more
    /// than a few.
    ///
    /// # Errors
    ///
    /// `NoMemory` where there is none.
    pub(crate) fn open(alloc: Global, nodes: u8) -> Result<Scratch, NoMemory> {
        let Ok(bytes) = Vec::with_capacity(alloc, LONGEST_FRAME) else {
            return Err(NoMemory);
        };
        let shared = if nodes > FEW_NODES { nodes } else { 0 };
        let rooms = Rooms::open(alloc, shared, LONGEST_FRAME)?;
        Ok(Scratch { bytes, rooms })
    }

    /// Makes it at least as long as a frame.
    fn fit(&mut self, frame: &[u8])
        requires { length frame.now ≤ 90104 }
        ensures { length frame.now ≤ length self.new }
    {
        if self.bytes.len() < frame.len() {
            self.bytes.clear();
            let _within_room = self.bytes.extend_from_slice(frame).is_ok();
        }
    }
}

/// The links of one sender in a slot of a period.
#[derive(Drop)]
pub(crate) struct Link<'p, const N: usize> {
    pub(crate) plan: &'p FaultPlan<N>,
    pub(crate) period: u32,
    pub(crate) slot: u8,
    pub(crate) from: u8,
    ghost in_plan: { period < plan.now.periods },
    ghost in_period: { slot < slot_count plan.now.rounds },
    ghost in_use: { from < plan.now.nodes },
}

/// Hands another node what arrives of the frame of node `from`.
fn hand<'c, const N: usize>(from: u8, arrived: &Delivered<'_>, node: &mut Node<'c, N>)
where
    Nodes: Capacity<N>,
    requires takes { Takes from node.old }
    requires other { from ≢ node.old.phase.me }
    ensures { node.new ≡ handed node.old (map (arriving from)
        (replicate arrived.now.copies (arrived.now.tick, arrived.now.bytes.now))) }
{
    for _ in 0..arrived.copies {
        node.deliver(from, arrived.tick, arrived.bytes);
    }
}

impl<'p, const N: usize> Link<'p, N>
where
    Nodes: Capacity<N>,
{
    /// Delivers to another node what arrives of a frame that a line touches.
    fn deliver_changed<'c>(&self, sent: &[u8], node: &mut Node<'c, N>, scratch: &mut Scratch)
        requires ready { IsReady self.now.plan.now node.old }
        requires other { self.now.from ≢ node.old.phase.me }
        requires short { length sent.now ≤ 90104 }
        ensures { node.new ≡ handed_from self.now.plan.now self.now.period self.now.slot sent.now
            self.now.from node.old }
    {
        scratch.fit(sent);
        let on = Transmission {
            period: self.period,
            slot: self.slot,
            from: self.from,
            to: node.me(),
        };
        let room = &mut scratch.bytes.as_mut_slice()[..sent.len()];
        let arrived = deliveries(self.plan, on, sent, room);
        hand(self.from, &arrived, node);
    }

    /// Whether a line touches the frame on its way to another node. It is looked up only where one
    /// touches a frame of the sender in the period.
    fn is_touched(&self, to: u8) -> bool
        requires to { to < self.now.plan.now.nodes }
        ensures untouched { result ≡ false → self.now.from ≢ to →
            effect_at self.now.plan.now.lines self.now.period self.now.slot self.now.from to
            ≡ None }
        ensures other { result ≡ true → self.now.from ≢ to }
    {
        if self.from == to || self.plan.clean(self.from, self.period) {
            return false;
        }
        self.plan
            .effect(self.period, self.slot, self.from, to)
            .is_some()
    }

    /// Delivers to a node what arrives of the sender's frame: nothing at the sender itself, and
    /// where no line touches it the frame as it was sent, on time.
    pub(crate) fn deliver<'c>(&self, sent: &[u8], node: &mut Node<'c, N>, scratch: &mut Scratch)
        requires ready { IsReady self.now.plan.now node.old }
        requires short { length sent.now ≤ 90104 }
        ensures { node.new ≡ handed_from self.now.plan.now self.now.period self.now.slot sent.now
            self.now.from node.old }
    {
        let me = node.me();
        if self.is_touched(me) {
            self.deliver_changed(sent, node, scratch);
        } else if self.from != me {
            node.deliver(self.from, ON_TIME, sent);
        }
    }
}
