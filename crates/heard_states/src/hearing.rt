//! What a node makes of the frames of the slot.

ghost use Rattle.std.specs.Prelude.{◌≡◌, ◌≢◌, ◌↔◌, ℕ, ◌<◌, ◌≤◌, ◌==◌, ◌&&◌, not, Some, IsTrue};
ghost use Rattle.std.specs.Prelude.{if◌then◌else◌, slice_index_or};
ghost use Rattle.node_grid.specs.NodeSet.{has_id, ids_where};
ghost use Rattle.error_reports.specs.Notes.{also_noted, is_kind};
ghost use Rattle.agreed_state.specs.Agreed.{AgreedView};
ghost use Rattle.agreed_state.specs.Body.{body};
ghost use Rattle.protocol.specs.Arrival.Arrival.{Good};
ghost use Rattle.protocol.specs.View.{other_body};
ghost use Rattle.shared_states.specs.Sharing.{state_at, IsShared};
ghost use Rattle.heard_states.specs.declared.hearing.Heard.TheVariants.{Bad, Same, Other};
ghost use Rattle.heard_states.specs.Told.{sent_by};
ghost use Rattle.heard_states.specs.declared.sending.Told.TheVariants.{Sent};
ghost use Rattle.heard_states.specs.Hearing.{told_as, told_by, heard_kind, is_heard_well};
ghost use Rattle.heard_states.specs.Hearing.{IsFrame, IsHeardAs, IsSending};

use crate::sending::{Sending, Told};
use error_reports::RowBuilder;
use node_grid::kind::{COLD, STATE};
use node_grid::{Capacity, NodeSet, Nodes};
use touched_frames::unread_kind;

/// What a node makes of a frame of the slot.
#[derive(Clone, Copy)]
pub(crate) enum Heard {
    /// It is an error of this kind.
    Bad(u8),
    /// It is good, and tells the state with which the node goes through the period.
    Same,
    /// It is good, and tells another state; all do to a node without one.
    Other,
}

impl Heard {
    /// Whether the frame is good.
    fn is_good(&self) -> bool
        ensures { result ≡ is_heard_well self.now }
    {
        match self {
            Heard::Bad(_) => false,
            Heard::Same | Heard::Other => true,
        }
    }

    /// The kind of error that is noted of the sender.
    fn kind(&self) -> Option<u8>
        ensures { result ≡ heard_kind self.now }
    {
        match self {
            Heard::Bad(kind) => Some(*kind),
            Heard::Same => None,
            Heard::Other => Some(STATE),
        }
    }
}

/// What a good frame is by whether it tells the node's own state.
fn good_where(is_own: bool) -> Heard
    ensures { result ≡ (if is_own then Same else Other) }
{
    if is_own { Heard::Same } else { Heard::Other }
}

impl<const N: usize> Sending<'_, N> {
    /// Whether these are the bytes of the state of a node; not where it has none.
    fn is_own(&self, to: u8, bytes: &[u8]) -> bool
    where
        Nodes: Capacity<N>,
        requires { IsSending self.now }
        ensures { (a : AgreedView) → state_at self.now.states.now to ≡ Some a →
            result ≡ not (other_body (body self.now.slot.config.now a) (Good bytes.now)) }
    {
        match self.states.get(to) {
            Some(state) => state.body(self.slot.config).as_slice() == bytes,
            None => false,
        }
    }

    /// What a node makes of a frame that comes as it was sent, where these nodes have the state of
    /// the node.
    fn heard_sent(&self, from: u8, alike: &NodeSet<N>) -> Heard
        requires sending { IsSending self.now }
        ensures { (i : ℕ) → (IsTrue (has_id alike.now from) ↔ IsShared self.now.states.now i from) →
            told_as self.now.slot.config.now
            (sent_by self.now.senders.full self.now.states.now from) Sent
            ≡ told_by self.now i from →
            IsHeardAs self.now.slot.config.now (state_at self.now.states.now i) result
            (told_by self.now i from) }
    {
        if self.senders.full.has(from) {
            good_where(alike.has(from))
        } else {
            Heard::Bad(COLD)
        }
    }

    /// What node `to` makes of the frame of node `from`, whatever befalls it.
    fn heard_read(&self, from: u8, to: u8, alike: &NodeSet<N>) -> Heard
    where
        Nodes: Capacity<N>,
        requires frame { IsFrame self.now from to }
        requires alike { IsTrue (has_id alike.now from) ↔ IsShared self.now.states.now to from }
        ensures { IsHeardAs self.now.slot.config.now (state_at self.now.states.now to) result
            (told_by self.now to from) }
    {
        match self.told(from, to) {
            Told::Bad(kind) => Heard::Bad(kind),
            Told::Bytes(bytes) => good_where(self.is_own(to, bytes.as_slice())),
            Told::Sent => self.heard_sent(from, alike),
        }
    }

    /// The same, where no state is spelt if the frame doesn't come whole, once and in time.
    fn heard(&self, from: u8, to: u8, alike: &NodeSet<N>) -> Heard
    where
        Nodes: Capacity<N>,
        requires frame { IsFrame self.now from to }
        requires alike { IsTrue (has_id alike.now from) ↔ IsShared self.now.states.now to from }
        ensures { IsHeardAs self.now.slot.config.now (state_at self.now.states.now to) result
            (told_by self.now to from) }
    {
        let Some(effect) = self.effect(from, to) else {
            return self.heard_sent(from, alike);
        };
        match unread_kind(effect) {
            Some(kind) => Heard::Bad(kind),
            None => self.heard_read(from, to, alike),
        }
    }

    /// What node `to` makes of the frame of each other node.
    pub(crate) fn heard_all(&self, to: u8) -> [Heard; N]
    where
        Nodes: Capacity<N>,
        requires sending { IsSending self.now }
        requires to { to < self.now.slot.config.now.nodes }
        ensures { (j : ℕ) → j < self.now.slot.config.now.nodes → j ≢ to →
            IsHeardAs self.now.slot.config.now (state_at self.now.states.now to)
            (slice_index_or result j (Bad 0)) (told_by self.now to j) }
    {
        let alike = self.states.alike(to);
        let mut heard = [Heard::Same; N];
        for from in 0..self.slot.config.nodes {
            if from != to {
                heard[from as usize] = self.heard(from, to, &alike);
            }
        }
        heard
    }
}

/// The nodes other than `to` whose frames are good.
#[tactic(auto, using(node_grid::specs::NodeSetLaws::id_loops))]
pub(crate) fn good_of<const N: usize>(heard: &[Heard; N], nodes: u8, to: u8) -> NodeSet<N>
where
    Nodes: Capacity<N>,
    requires nodes { nodes ≤ N }
    ensures { result ≡ ids_where (λ j. not (j == to)
        && is_heard_well (slice_index_or heard.now j (Bad 0))) nodes }
{
    let mut good = NodeSet::empty();
    for from in 0..nodes {
        if from != to && heard[from as usize].is_good() {
            good.put(from);
        }
    }
    good
}

/// Notes what a node makes of the frames.
pub(crate) fn note_heard<const N: usize>(heard: &[Heard; N], notes: &mut RowBuilder<N>)
where
    Nodes: Capacity<N>,
    ensures { notes.new ≡ also_noted N notes.old
        (λ j k. is_kind (heard_kind (slice_index_or heard.now j (Bad 0))) k) }
{
    notes.note_each(
        |j| -> Option<u8>
            requires { j < N }
            ensures { result ≡ heard_kind (slice_index_or heard.entry.now j (Bad 0)) }
        { heard[j as usize].kind() },
    );
}
