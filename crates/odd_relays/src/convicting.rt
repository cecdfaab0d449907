//! Who convicts the commander, all receivers at once.

ghost use Rattle.std.specs.Prelude.{◌≡◌, ◌≢◌, ℕ, ◌+◌, ◌<◌, ◌≤◌, ◌&&◌, not, nat_lt, length};
ghost use Rattle.std.specs.Prelude.{slice_index_or, true, false};
ghost use Rattle.node_grid.specs.Count.{bit};
ghost use Rattle.node_grid.specs.NodeSet.{has_id};
ghost use Rattle.omh_paths.specs.declared.wrapped.Wrapped.TheVariants.{Fault};
ghost use Rattle.omh_paths.specs.Wrapped.{same, wrapped};
ghost use Rattle.equivocation.specs.Conviction.{is_present, tolerated as tolerated_of};
ghost use Rattle.odd_relays.specs.Telling.{telling, convicts_commander};
ghost use Rattle.odd_relays.specs.Voices.{IsCounted, regular_relay, regular_members, odd_members};

use crate::item::{Item, Relays};
use crate::values::{is_same, value_at};
use equivocation::{is_present, tolerated};
use node_grid::NodeSet;
use omh_paths::{Exact, Path, Wrapped};

/// How many direct relays of an item are there, and how many of them say otherwise than a receiver
/// expects by what it was told.
#[derive(Clone, Copy)]
pub(crate) struct Voices {
    pub present: u8,
    pub against: u8,
}

/// Whether it is there, and says otherwise than it is expected to.
fn disagrees<V: Exact>(relay: &Wrapped<V>, expected: &Wrapped<V>) -> bool
    ensures { result ≡ (is_present relay.now && not (same V.eq relay.now expected.now)) }
{
    is_present(relay) && *relay != *expected
}

impl Voices {
    /// None.
    fn none() -> Voices
        ensures present { result.present ≡ 0 }
        ensures against { result.against ≡ 0 }
    {
        Voices {
            present: 0,
            against: 0,
        }
    }

    /// The same and one relay, where a receiver expects this.
    fn with<V: Exact>(&self, relay: &Wrapped<V>, expected: &Wrapped<V>) -> Voices
        requires present { self.now.present < 255 }
        requires against { self.now.against < 255 }
        ensures present { result.present ≡ self.now.present + bit (is_present relay.now) }
        ensures against { result.against ≡ self.now.against +
            bit (is_present relay.now && not (same V.eq relay.now expected.now)) }
    {
        Voices {
            present: self.present + is_present(relay) as u8,
            against: self.against + disagrees(relay, expected) as u8,
        }
    }

    /// The same and the receiver's own voice, where it counts.
    fn and_own(&self, counts: bool) -> Voices
        requires { self.now.present < 255 }
        ensures present { result.present ≡ self.now.present + bit counts }
        ensures against { result.against ≡ self.now.against }
    {
        Voices {
            present: self.present + counts as u8,
            against: self.against,
        }
    }

    /// Whether they convict the commander, with `m` relay rounds.
    fn convict(&self, m: u8) -> bool
        ensures { result ≡
            (nat_lt 0 m && nat_lt (tolerated_of self.now.present m) self.now.against) }
    {
        m > 0 && self.against > tolerated(self.present, m)
    }
}

impl<'a, V: Exact, S: Relays<V>, const N: usize> Item<'a, V, S, N> {
    /// What members that aren't odd relay of the commander, counted for all receivers that were
    /// told what node `i` was.
    fn regular_voices(&self, i: u8) -> Voices
        requires node { i < N }
        ensures { IsCounted V.eq (slice_index_or self.now.told.now i (Fault 0))
            (regular_relay (telling S.says self.now)) (regular_members (telling S.says self.now))
            result }
    {
        let _ = self.phase.members.len();
        let expected = value_at(self.told, i).wrap();
        let root = Path::root(self.commander);
        let regular = self.phase.members.minus(&self.odd).without(self.commander);
        let mut voices = Voices::none();
        for q in regular.iter() {
            let relay = self.passed(q, &root);
            voices = voices.with(&relay, &expected);
        }
        voices
    }

    /// What is counted for a receiver that was told what node `i` was, where this is counted for
    /// one that was told what node `like` was.
    fn voices_for(&self, i: u8, like: u8, voices: &Voices) -> Voices
        requires node { i < N }
        requires before { like < N }
        requires counted { IsCounted V.eq (slice_index_or self.now.told.now like (Fault 0))
            (regular_relay (telling S.says self.now)) (regular_members (telling S.says self.now))
            voices.now }
        ensures { IsCounted V.eq (slice_index_or self.now.told.now i (Fault 0))
            (regular_relay (telling S.says self.now)) (regular_members (telling S.says self.now))
            result }
    {
        if is_same(self.told, i, like) {
            *voices
        } else {
            self.regular_voices(i)
        }
    }

    /// Whether node `i` is Full and one of these.
    fn is_full_among(&self, nodes: &NodeSet<N>, i: u8) -> bool
        ensures { result ≡ (has_id nodes.now i && has_id self.now.phase.full i) }
    {
        nodes.has(i) && self.phase.full.has(i)
    }

    /// Whether node `i`, another one than the commander, convicts it, where the relays of members
    /// that aren't odd are counted for it.
    fn convicts_beside(&self, i: u8, regular: &Voices) -> bool
        requires node { i < N }
        requires other { self.now.commander ≢ i }
        requires counted { IsCounted V.eq (slice_index_or self.now.told.now i (Fault 0))
            (regular_relay (telling S.says self.now)) (regular_members (telling S.says self.now))
            regular.now }
        ensures { result ≡ convicts_commander V.eq (telling S.says self.now) i }
    {
        let _ = self.phase.members.len();
        let expected = value_at(self.told, i).wrap();
        let root = Path::root(self.commander);
        let odd = self.phase.members.common(&self.odd).without(self.commander);
        let mut voices = *regular;
        let others = odd.without(i);
        for q in others.iter() {
            let relay = self.relays.said(i, &root.then(q));
            voices = voices.with(&relay, &expected);
        }
        voices
            .and_own(self.is_full_among(&odd, i))
            .convict(self.phase.rounds)
    }

    /// Those of these nodes, other ones than the commander, that convict it, where this is one of
    /// them.
    fn convicting_among(&self, nodes: &NodeSet<N>, first: u8) -> NodeSet<N>
        requires others { has_id nodes.now self.now.commander ≡ false }
        requires first { first < N }
        ensures convicts { (i : ℕ) → has_id nodes.now i ≡ true →
            has_id result i ≡ convicts_commander V.eq (telling S.says self.now) i }
        ensures within { (i : ℕ) → has_id result i ≡ true → has_id nodes.now i ≡ true }
    {
        let mut convicting = NodeSet::empty();
        let mut like = first;
        let mut voices = self.regular_voices(first);
        for i in nodes.iter() {
            voices = self.voices_for(i, like, &voices);
            like = i;
            if self.convicts_beside(i, &voices) {
                convicting.put(i);
            }
        }
        let _ = convicting.len();
        convicting
    }

    /// Those of these nodes, other ones than the commander, that convict it. A commander that told
    /// all alike is convicted by nobody where few members are odd, and need not be asked for.
    pub fn convicting(&self, nodes: &NodeSet<N>) -> NodeSet<N>
        requires others { has_id nodes.now self.now.commander ≡ false }
        ensures convicts { (i : ℕ) → has_id nodes.now i ≡ true →
            has_id result i ≡ convicts_commander V.eq (telling S.says self.now) i }
        ensures within { (i : ℕ) → has_id result i ≡ true → has_id nodes.now i ≡ true }
    {
        match nodes.least() {
            Some(first) => self.convicting_among(nodes, first),
            None => NodeSet::empty(),
        }
    }
}
