//! What a node has of one other node's values.

ghost use Rattle.std.specs.Prelude.{◌≡◌, ◌≢◌, ◌==◌, ℕ, ◌<◌, ◌≤◌, List, ℤ, None, Some, length};
ghost use Rattle.std.specs.Prelude.{true, false};
ghost use Rattle.node_grid.specs.Capacity.{IsCapacity};
ghost use Rattle.node_grid.specs.NodeSet.{has_id};
ghost use Rattle.frames.specs.Content.{Expectation};
ghost use Rattle.frames.specs.Seen.{content, expected, HasWidth};
ghost use Rattle.frames.specs.Spelling.{body_spelling, IsInRange};
ghost use Rattle.fault_classes.specs.Change.{change_of};
ghost use Rattle.error_reports.specs.Notes.{is_kind};
ghost use Rattle.protocol.specs.Arrival.{Arrival, is_bad, read_as, values_in};
ghost use Rattle.protocol.specs.Talk.{arrives};
ghost use Rattle.protocol.specs.View.{Received, value_in};
ghost use Rattle.data_slot.specs.Told.{at_channel};
ghost use Rattle.touched_frames.specs.Arrived.{IsCluster, IsSentAs};
ghost use Rattle.told_values.specs.Slot.{slot_of, expects, said, change_to, values_at};
ghost use Rattle.told_values.specs.Slot.{Hears, IsDataSlot};
ghost use Rattle.told_values.specs.Heard.{IsHeard, untouched_kind};

use crate::dues::Dues;
use crate::link::Link;
use crate::places::Due;
use crate::slot::DataSlot;
use data_slot::put_values;
use fault_classes::Effect;
use frames::{Body, Expect, Frame, Values};
use node_grid::kind::{COLD, MALFORMED};
use node_grid::{Capacity, Nodes};
use touched_frames::{Arrived, arrives, unread_kind};

/// What a node has of one other node's values.
#[derive(Clone, Copy)]
pub(crate) enum Heard {
    /// The values by channel, with 0 in the places of channels that aren't due to the node.
    Good([i64; 8]),
    /// The kind of error that is found of the frame.
    Bad(u8),
}

impl Heard {
    /// The values, if there are any.
    pub(crate) fn values(&self) -> Option<[i64; 8]>
        ensures { (due : List ℕ) (a : Arrival (List ℤ)) → IsHeard due self.now a →
            (c : ℕ) → has_id due c ≡ true → at_channel result c ≡ value_in due a c }
    {
        match self {
            Heard::Good(values) => Some(*values),
            Heard::Bad(_) => None,
        }
    }

    /// The kind of error, if it is one.
    fn kind(&self) -> Option<u8>
        ensures { (due : List ℕ) (a : Arrival (List ℤ)) → IsHeard due self.now a →
            (k : ℕ) → is_kind result k ≡ is_bad a k }
    {
        match self {
            Heard::Good(_) => None,
            Heard::Bad(kind) => Some(*kind),
        }
    }
}

/// What a node with these due channels has of what a frame says.
fn hear_body<const N: usize>(body: &Body<'_, N>, due: &Due<'_>) -> Heard
where
    Nodes: Capacity<N>,
    ensures { (nodes : ℕ) →
        IsHeard due.now.channels.now result (read_as (values_in (content nodes body.now))) }
{
    match body {
        Body::Data(values) => Heard::Good(due.read_by_place(values)),
        Body::State(_) | Body::Done0(_) | Body::DoneRelay(_) => Heard::Bad(MALFORMED),
        Body::Report0(_) | Body::ReportRelay(_) | Body::Cold => Heard::Bad(MALFORMED),
    }
}

/// What a node with these due channels has of a frame, by the effect of the line that touches it.
fn hear_frame<const N: usize>(
    effect: &Effect,
    frame: &Frame<'_, N>,
    receiver: &Expect<N>,
    due: &Due<'_>,
) -> Heard
where
    Nodes: Capacity<N>,
    requires cluster { IsCluster N receiver.now.nodes receiver.now.m }
    requires widths { HasWidth receiver.now.nodes frame.now.body }
    requires short { length (body_spelling receiver.now.nodes
        (content receiver.now.nodes frame.now.body)) ≤ 64 }
    ensures { (sender : Expectation) →
        IsSentAs sender receiver.now.nodes frame.now.head
        (content receiver.now.nodes frame.now.body) →
        IsHeard due.now.channels.now result (arrives values_in (Some (change_of effect.now)) sender
        (expected receiver.now) (content receiver.now.nodes frame.now.body)) }
{
    let mut room = [0; 96];
    match &arrives(effect, frame, receiver, &mut room) {
        Arrived::Good(body) => hear_body(body, due),
        Arrived::Bad(kind) => Heard::Bad(*kind),
    }
}

impl<'s, 'a, D: Dues<N>, const N: usize> Link<'s, 'a, D, N> {
    /// The channels that are due to the receiver.
    fn due(&self) -> Due<'_>
        ensures due { result.channels.now ≡ D.dues self.now.slot.now.dues self.now.to }
        ensures capacity { IsCapacity N }
        ensures slot { IsDataSlot (slot_of D.dues self.now.slot.now) }
    {
        Due {
            channels: self.slot.due(self.to),
        }
    }

    /// What the receiver expects of the frame.
    fn expect(&self) -> Expect<N>
    where
        Nodes: Capacity<N>,
        ensures { expected result ≡
            expects (slot_of D.dues self.now.slot.now) self.now.from self.now.to }
    {
        let due = self.slot.due(self.to);
        self.slot.expect(self.from, due.len() as u8)
    }

    /// What the sender says, with its values spelt on these bytes.
    fn body<'b>(&self, bytes: &'b mut [u8; 64]) -> Body<'b, N>
        ensures said { let d = slot_of D.dues self.now.slot.now in (nodes : ℕ) →
            IsInRange (expects d self.now.from self.now.from) (said d self.now.from) →
            content nodes result ≡ said d self.now.from }
        ensures widths { (nodes : ℕ) → HasWidth nodes result }
        ensures short { (nodes : ℕ) → length (body_spelling nodes (content nodes result)) ≤ 64 }
        ensures capacity { IsCapacity N }
        ensures slot { IsDataSlot (slot_of D.dues self.now.slot.now) }
    {
        let due = self.slot.due(self.from);
        if !self.slot.is_full(self.from) {
            return Body::Cold;
        }
        put_values(self.slot.own(self.from), due, bytes);
        let size = 8 * due.len();
        let values = Values::over(&bytes[..size]);
        Body::Data(values)
    }

    /// What the receiver has of the frame, by the effect of the line that touches it.
    fn hear_touched(&self, effect: &Effect) -> Heard
    where
        Nodes: Capacity<N>,
        ensures { let d = slot_of D.dues self.now.slot.now in
            IsInRange (expects d self.now.from self.now.from) (said d self.now.from) →
            IsHeard (d.due self.now.to) result (arrives values_in (Some (change_of effect.now))
            (expects d self.now.from self.now.from) (expects d self.now.from self.now.to)
            (said d self.now.from)) }
    {
        if let Some(kind) = unread_kind(effect) {
            return Heard::Bad(kind);
        }
        let mut bytes = [0; 64];
        let expect = self.expect();
        let frame = Frame {
            head: expect.head(),
            body: self.body(&mut bytes),
        };
        hear_frame(effect, &frame, &expect, &self.due())
    }

    /// Whether as many channels are due to the one node as to the other.
    fn is_as_many(&self) -> bool
        ensures { let d = slot_of D.dues self.now.slot.now in
            result ≡ (length (d.due self.now.from) == length (d.due self.now.to)) }
    {
        if self.slot.is_due_alike(self.from, self.to) {
            return true;
        }
        self.slot.due(self.from).len() == self.slot.due(self.to).len()
    }

    /// The kind of error of a frame that no line touches: it is an error where its sender isn't
    /// Full, or has another number of due channels than the receiver.
    fn untouched_kind(&self) -> Option<u8>
        ensures { result ≡
            untouched_kind (slot_of D.dues self.now.slot.now) self.now.from self.now.to }
    {
        if !self.slot.is_full(self.from) {
            Some(COLD)
        } else if self.is_as_many() {
            None
        } else {
            Some(MALFORMED)
        }
    }

    /// What the receiver has of a frame that no line touches.
    fn hear_untouched(&self) -> Heard
        requires { change_to (slot_of D.dues self.now.slot.now) self.now.from self.now.to ≡ None }
        ensures { let d = slot_of D.dues self.now.slot.now in
            IsInRange (expects d self.now.from self.now.from) (said d self.now.from) →
            IsHeard (d.due self.now.to) result (values_at d self.now.from self.now.to) }
    {
        match self.untouched_kind() {
            Some(kind) => Heard::Bad(kind),
            None => {
                let said = self.slot.due(self.from);
                let due = self.due();
                Heard::Good(due.own_by_place(self.slot.own(self.from), said))
            }
        }
    }

    /// What the receiver has of the sender's values.
    pub(crate) fn hear(&self) -> Heard
    where
        Nodes: Capacity<N>,
        ensures { let d = slot_of D.dues self.now.slot.now in
            IsInRange (expects d self.now.from self.now.from) (said d self.now.from) →
            IsHeard (d.due self.now.to) result (values_at d self.now.from self.now.to) }
    {
        match self.effect() {
            Some(effect) => self.hear_touched(effect),
            None => self.hear_untouched(),
        }
    }

    /// The kind of error that the receiver finds of the frame; None exactly where the frame is
    /// good.
    pub(crate) fn kind(&self) -> Option<u8>
    where
        Nodes: Capacity<N>,
        ensures { (x : Received) → Hears (slot_of D.dues self.now.slot.now) self.now.to x →
            (k : ℕ) → is_kind result k ≡ is_bad (x.values self.now.from) k }
    {
        match self.effect() {
            Some(effect) => self.hear_touched(effect).kind(),
            None => self.untouched_kind(),
        }
    }
}

impl<'a, D: Dues<N>, const N: usize> DataSlot<'a, D, N> {
    /// The kind of error that a node finds of another one's frame; None exactly where the frame is
    /// good, or they aren't two nodes in use.
    pub fn kind(&self, from: u8, to: u8) -> Option<u8>
    where
        Nodes: Capacity<N>,
        ensures { from < self.now.config.nodes → to < self.now.config.nodes → from ≢ to →
            (x : Received) → Hears (slot_of D.dues self.now) to x →
            (k : ℕ) → is_kind result k ≡ is_bad (x.values from) k }
    {
        let nodes = self.nodes();
        if from == to || from >= nodes || to >= nodes {
            return None;
        }
        let link = Link {
            slot: self,
            from,
            to,
        };
        link.kind()
    }
}
