//! The frames of the slot, as they are sent and as they arrive.

ghost use Rattle.std.specs.Prelude.{◌≡◌, ◌≢◌, ℕ, ◌<◌, ◌≤◌, true, length, Option, Some, option_map};
ghost use Rattle.node_grid.specs.NodeSet.{has_id};
ghost use Rattle.frames.specs.Seen.{content};
ghost use Rattle.fault_classes.specs.Change.{change_of};
ghost use Rattle.fault_classes.specs.Line.{effect_at};
ghost use Rattle.agreed_state.specs.Agreed.{AgreedView};
ghost use Rattle.agreed_state.specs.Body.{body as body_of, state_len};
ghost use Rattle.protocol.specs.Arrival.{read_as, body_said};
ghost use Rattle.protocol.specs.Talk.{arrives as arriving};
ghost use Rattle.protocol.specs.Run.{state_content};
ghost use Rattle.protocol.specs.Configured.{setting_of};
ghost use Rattle.agreed_state.specs.declared.config.Config.{Config};
ghost use Rattle.shared_states.specs.Sharing.{state_at};
ghost use Rattle.heard_states.specs.Slot.{expected_of};
ghost use Rattle.heard_states.specs.Told.{sent_by};
ghost use Rattle.heard_states.specs.Hearing.{told_as, told_by, IsFrame, IsSending, IsShortState};

use crate::slot::SyncSlot;
use fault_classes::Effect;
use frames::{Body, Frame, StateBody};
use node_grid::kind::MALFORMED;
use node_grid::{Capacity, NodeSet, Nodes};
use shared_states::SharedStates;
use touched_frames::{Arrived, arrives, unread_kind};

/// The room that a frame of the slot needs at most.
const ROOM: usize = 1200;

/// What a node has of a frame of the slot.
#[derive(Drop)]
pub(crate) enum Told {
    /// The kind of error that is found of it.
    Bad(u8),
    /// What was sent.
    Sent,
    /// The bytes of a state, in place of what was sent.
    Bytes(StateBody),
}

/// Who sends a state in the slot, and whose frames lines touch.
#[derive(Clone, Copy)]
pub(crate) struct Senders<const N: usize> {
    /// The nodes that had a state when the period began.
    pub full: NodeSet<N>,
    /// All nodes a frame of which a line touches.
    pub touched: NodeSet<N>,
}

/// The frames of the slot as they are sent: each full node says its state, and any other node
/// that it is cold.
#[derive(Clone, Copy)]
pub(crate) struct Sending<'a, const N: usize> {
    /// The slot.
    pub slot: SyncSlot<'a, N>,
    /// Who sends what.
    pub senders: Senders<N>,
    /// The states. Of nodes that aren't full they aren't sent.
    pub states: &'a SharedStates<N>,
}

/// A copy of a state's bytes.
fn copied(bytes: &[u8]) -> StateBody
    requires { length bytes.now ≤ 1152 }
    ensures { result.items ≡ bytes.now }
{
    let mut body = StateBody::new();
    for byte in bytes {
        body.push(*byte);
    }
    body
}

/// What a node has of a frame that was read, by its body.
fn told_in<const N: usize>(body: &Body<'_, N>, nodes: u8) -> Told
where
    Nodes: Capacity<N>,
    requires short { IsShortState (content nodes body.now) }
    ensures { (n : ℕ) (config : Config n) (o : Option AgreedView) →
        told_as config o result ≡ read_as (body_said (content nodes body.now)) }
{
    let _ = nodes;
    match body {
        Body::State(bytes) => Told::Bytes(copied(bytes)),
        Body::Done0(_) | Body::DoneRelay(_) | Body::Data(_) => Told::Bad(MALFORMED),
        Body::Report0(_) | Body::ReportRelay(_) | Body::Cold => Told::Bad(MALFORMED),
    }
}

impl<const N: usize> Sending<'_, N> {
    /// The bytes of the state that a full node sends.
    pub(crate) fn body(&self, from: u8) -> StateBody
    where
        Nodes: Capacity<N>,
        requires sending { IsSending self.now }
        requires full { has_id self.now.senders.full from ≡ true }
        ensures bytes { (a : AgreedView) → state_at self.now.states.now from ≡ Some a →
            result.items ≡ body_of self.now.slot.config.now a }
        ensures length { length result.items ≡ state_len self.now.slot.config.now }
    {
        match self.states.get(from) {
            Some(state) => state.body(self.slot.config),
            None => StateBody::new(),
        }
    }

    /// What a node has of a frame that a line touches.
    fn told_touched(&self, from: u8, effect: &Effect) -> Told
    where
        Nodes: Capacity<N>,
        requires sending { IsSending self.now }
        requires from { from < self.now.slot.config.now.nodes }
        ensures { told_as self.now.slot.config.now
            (sent_by self.now.senders.full self.now.states.now from) result ≡
            arriving body_said (Some (change_of effect.now))
            (expected_of self.now.slot.config.now self.now.slot.period from)
            (expected_of self.now.slot.config.now self.now.slot.period from)
            (state_content (setting_of self.now.slot.config.now)
            (sent_by self.now.senders.full self.now.states.now from)) }
    {
        if let Some(kind) = unread_kind(effect) {
            return Told::Bad(kind);
        }
        let mut state = StateBody::new();
        if self.senders.full.has(from) {
            state = self.body(from);
        }
        self.told_read(from, effect, state.as_slice())
    }

    /// The same where that depends on the frame's bytes. These are those of the state that it
    /// says, if any.
    fn told_read(&self, from: u8, effect: &Effect, state: &[u8]) -> Told
    where
        Nodes: Capacity<N>,
        requires sending { IsSending self.now }
        requires from { from < self.now.slot.config.now.nodes }
        requires state { (a : AgreedView) → sent_by self.now.senders.full self.now.states.now from
            ≡ Some a →
            state.now ≡ body_of self.now.slot.config.now a }
        ensures { told_as self.now.slot.config.now
            (sent_by self.now.senders.full self.now.states.now from) result ≡
            arriving body_said (Some (change_of effect.now))
            (expected_of self.now.slot.config.now self.now.slot.period from)
            (expected_of self.now.slot.config.now self.now.slot.period from)
            (state_content (setting_of self.now.slot.config.now)
            (sent_by self.now.senders.full self.now.states.now from)) }
    {
        let config = self.slot.config;
        let expect = config.expect(self.slot.period, 0, from, &NodeSet::empty(), 0);
        let frame = Frame {
            head: expect.head(),
            body: if self.senders.full.has(from) {
                Body::State(state)
            } else {
                Body::Cold
            },
        };
        let mut room = [0; ROOM];
        match &arrives(effect, &frame, &expect, &mut room) {
            Arrived::Bad(kind) => Told::Bad(*kind),
            Arrived::Good(body) => told_in(body, config.nodes),
        }
    }

    /// What befalls the frame of node `from` to node `to`.
    pub(crate) fn effect(&self, from: u8, to: u8) -> Option<&Effect>
        requires { IsFrame self.now from to }
        ensures { option_map (λ e. change_of e.now) result ≡
            effect_at self.now.slot.plan.now.lines self.now.slot.period 0 from to }
    {
        if self.senders.touched.has(from) {
            self.slot.plan.effect(self.slot.period, 0, from, to)
        } else {
            None
        }
    }

    /// What node `to` has of the frame of node `from`.
    pub(crate) fn told(&self, from: u8, to: u8) -> Told
    where
        Nodes: Capacity<N>,
        requires { IsFrame self.now from to }
        ensures { told_as self.now.slot.config.now
            (sent_by self.now.senders.full self.now.states.now from) result ≡
            told_by self.now to from }
    {
        match self.effect(from, to) {
            Some(effect) => self.told_touched(from, effect),
            None => Told::Sent,
        }
    }
}
