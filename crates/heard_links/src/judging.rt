//! What came over each touched link.

ghost use Rattle.std.specs.Prelude.{ℕ, ◌≡◌, ◌≢◌, ◌<◌, ◌≤◌, ◌+◌, ◌⊎◌, ◌==◌, ◌||◌, not, true, false};
ghost use Rattle.std.specs.Prelude.{[], slice_index_or, IsSome, None};
ghost use Rattle.std.specs.Cmp.Lexicographic.{pointwise};
ghost use Rattle.node_grid.specs.NodeSet.{has_id};
ghost use Rattle.fault_classes.specs.Change.{change_of};
ghost use Rattle.heard_links.specs.Talks.{AreUneven, IsEvenTo, IsJudged, IsSet, members_at};
ghost use Rattle.heard_links.specs.declared.came.Came.TheVariants as came;
ghost use Rattle.heard_links.specs.Hearing.{ActsAs, IsCame, IsHeard, came_at, item_of, link_at};
ghost use Rattle.heard_links.specs.Hearing.{talk_in, is_even, frame_kind};
ghost use Rattle.heard_links.specs.Frames.{IsJudgeable, IsLink};
ghost use Rattle.protocol.specs.Talk.{rounds_upto};

use crate::came::Came;
use crate::effects::{effect_or, whole};
use crate::links::Links;
use crate::phase::Phase;
use crate::sent::Sent;
use crate::table::link_at;
use fault_classes::Effect;
use node_grid::{Capacity, NodeSet, Nodes};
use touched_items::{Item, Told, cold_relay_frame, first_frame, relay_frame};

/// No senders in each round.
fn no_senders<const N: usize>() -> [NodeSet<N>; 4]
where
    Nodes: Capacity<N>,
    ensures { (r : ℕ) → slice_index_or result r [] ≡ [] }
{
    [NodeSet::empty(); 4]
}

impl<'p, const N: usize> Phase<'p, N> {
    /// Whether a node reads a frame of a round by the members by which it was sent.
    fn is_read_alike(&self, round: u8, from: u8, to: u8) -> bool
        requires from { from < N }
        requires to { to < N }
        ensures { result ≡ ((round == 0) || (not (has_id self.now.full from) ||
            pointwise ◌==◌ (members_at self.now from) (members_at self.now to))) }
    {
        round == 0 || !self.full.has(from) || self.has_same_members(from, to)
    }

    /// Whether a frame of a round comes as it was sent, and is read by the members by which it was
    /// sent.
    fn is_even_to(&self, round: u8, from: u8, to: u8) -> bool
        requires { IsLink self.now round from to }
        ensures { result ≡ true → IsEvenTo self.now round from to }
    {
        self.effect(round, from, to).is_none() && self.is_read_alike(round, from, to)
    }

    /// The other nodes that are awake to which a frame of a round isn't so.
    fn uneven(&self, round: u8, from: u8) -> NodeSet<N>
        requires set { IsSet self.now }
        requires round { round ≤ self.now.config.now.m }
        requires from { from < self.now.config.now.nodes }
        ensures { AreUneven self.now round from result }
    {
        let mut uneven = NodeSet::empty();
        for to in self.awake.without(from).iter() {
            if !self.is_even_to(round, from, to) {
                uneven.put(to);
            }
        }
        uneven
    }
}

impl<V: Item<N>, const N: usize> Links<V, N> {
    /// What comes of a first frame with this effect.
    fn judge_first(&self, phase: &Phase<'_, N>, from: u8, to: u8, effect: &Effect) -> Came<V>
    where
        Nodes: Capacity<N>,
        requires frame { IsJudgeable V.form V.first_slot V.tells phase.now self.now 0 from to }
        requires acts { ActsAs (change_of effect.now)
            ((talk_in V.form phase.now self.now).change 0 from to) }
        requires uneven { is_even (talk_in V.form phase.now self.now) 0 from to ≡ false }
        ensures { IsCame (talk_in V.form phase.now self.now) phase.now.config.now.m 0 from to
            result }
    {
        let expect = phase.expect(0, from, to);
        match first_frame(effect, &expect, &self.own(phase, from)) {
            Told::Good(item) => Came::Told(item),
            Told::Bad(kind) => Came::Bad(kind),
        }
    }

    /// The kind of error of a relay frame with this effect; None where it is good.
    fn relay_kind(
        &self,
        phase: &Phase<'_, N>,
        round: u8,
        from: u8,
        to: u8,
        effect: &Effect,
    ) -> Option<u8>
    where
        Nodes: Capacity<N>,
        requires frame { IsJudgeable V.form V.first_slot V.tells phase.now self.now round from to }
        requires some { 0 < round }
        requires acts { ActsAs (change_of effect.now)
            ((talk_in V.form phase.now self.now).change round from to) }
        ensures { result ≡ frame_kind (rounds_upto (talk_in V.form phase.now self.now)
            phase.now.config.now.m to) round from }
    {
        let expect = phase.expect(round, from, to);
        if !phase.full.has(from) {
            return cold_relay_frame::<V, N>(effect, &expect);
        }
        let sent = Sent {
            links: self,
            phase,
            round,
            from,
        };
        relay_frame(effect, &expect, &sent)
    }

    /// What comes of a relay frame with this effect.
    fn judge_relay(
        &self,
        phase: &Phase<'_, N>,
        round: u8,
        from: u8,
        to: u8,
        effect: &Effect,
    ) -> Came<V>
    where
        Nodes: Capacity<N>,
        requires frame { IsJudgeable V.form V.first_slot V.tells phase.now self.now round from to }
        requires some { 0 < round }
        requires acts { ActsAs (change_of effect.now)
            ((talk_in V.form phase.now self.now).change round from to) }
        requires uneven { is_even (talk_in V.form phase.now self.now) round from to ≡ false }
        ensures { IsCame (talk_in V.form phase.now self.now) phase.now.config.now.m round from to
            result }
    {
        match self.relay_kind(phase, round, from, to, effect) {
            Some(kind) => Came::Bad(kind),
            None => Came::Good,
        }
    }

    /// What comes of the frame of a round from one node to another.
    fn judge(&self, phase: &Phase<'_, N>, round: u8, from: u8, to: u8) -> Came<V>
    where
        Nodes: Capacity<N>,
        requires { IsJudgeable V.form V.first_slot V.tells phase.now self.now round from to }
        ensures { IsCame (talk_in V.form phase.now self.now) phase.now.config.now.m round from to
            result }
    {
        let effect = phase.effect(round, from, to);
        if effect.is_none() && phase.is_read_alike(round, from, to) {
            return Came::Untouched;
        }
        let none = whole();
        let effect = effect_or(effect, &none);
        if round == 0 {
            self.judge_first(phase, from, to, effect)
        } else {
            self.judge_relay(phase, round, from, to, effect)
        }
    }

    /// Notes that something is laid down for a node's frames of a round.
    fn touch(&mut self, round: u8, from: u8)
        requires round { round ≤ 3 }
        requires from { from < N }
        ensures came { self.new.came.items ≡ self.old.came.items }
        ensures told { self.new.told.items ≡ self.old.told.items }
        ensures blank { self.new.blank ≡ self.old.blank }
        ensures here { has_id (slice_index_or self.new.touched round []) from ≡ true }
        ensures others { (r j : ℕ) → j < N → (r ≢ round) ⊎ (j ≢ from) →
            has_id (slice_index_or self.new.touched r []) j ≡
            has_id (slice_index_or self.old.touched r []) j }
    {
        let mut senders = self.touched[round as usize];
        senders.put(from);
        self.touched[round as usize] = senders;
    }

    /// What comes of that frame, where those to other nodes than these are even.
    fn came_to(
        &self,
        phase: &Phase<'_, N>,
        round: u8,
        from: u8,
        to: u8,
        uneven: &NodeSet<N>,
    ) -> Came<V>
    where
        Nodes: Capacity<N>,
        requires heard { IsHeard V.form V.first_slot V.tells phase.now self.now round }
        requires few { round ≤ phase.now.config.now.m }
        requires from { from < phase.now.config.now.nodes }
        requires to { to < phase.now.config.now.nodes }
        requires uneven { AreUneven phase.now round from uneven.now }
        ensures { has_id phase.now.awake to ≡ true → to ≢ from →
            IsCame (talk_in V.form phase.now self.now) phase.now.config.now.m round from to
            result }
    {
        if uneven.has(to) {
            self.judge(phase, round, from, to)
        } else {
            Came::Untouched
        }
    }

    /// Lays down what comes of the frames of a node in a round, those to these nodes judged.
    fn judge_frames(&mut self, phase: &Phase<'_, N>, round: u8, from: u8, uneven: &NodeSet<N>)
    where
        Nodes: Capacity<N>,
        requires heard { IsHeard V.form V.first_slot V.tells phase.now self.old round }
        requires few { round ≤ phase.now.config.now.m }
        requires from { from < phase.now.config.now.nodes }
        requires uneven { AreUneven phase.now round from uneven.now }
        ensures told { self.new.told.items ≡ self.old.told.items }
        ensures blank { self.new.blank ≡ self.old.blank }
        ensures here { (i : ℕ) → has_id phase.now.awake i ≡ true → i ≢ from →
            IsCame (talk_in V.form phase.now self.old) phase.now.config.now.m round from i
            (came_at self.new round from i) }
        ensures others { (r j i : ℕ) → r ≤ 3 → j < N → i < N → (r ≢ round) ⊎ (j ≢ from) →
            came_at self.new r j i ≡ came_at self.old r j i }
        ensures touched { (r j : ℕ) → j < N → (r ≢ round) ⊎ (j ≢ from) →
            has_id (slice_index_or self.new.touched r []) j ≡
            has_id (slice_index_or self.old.touched r []) j }
    {
        for to in 0..phase.config.nodes {
            let came = self.came_to(phase, round, from, to, uneven);
            self.came[link_at::<N>(round, from, to)] = came;
        }
        self.touch(round, from);
    }

    /// Lays down what comes of the frames of a node in a round.
    fn hear_frames(&mut self, phase: &Phase<'_, N>, round: u8, from: u8)
    where
        Nodes: Capacity<N>,
        requires heard { IsHeard V.form V.first_slot V.tells phase.now self.old round }
        requires few { round ≤ phase.now.config.now.m }
        requires from { from < phase.now.config.now.nodes }
        requires fresh { has_id (slice_index_or self.old.touched round []) from ≡ false }
        ensures told { self.new.told.items ≡ self.old.told.items }
        ensures blank { self.new.blank ≡ self.old.blank }
        ensures here { (i : ℕ) → has_id phase.now.awake i ≡ true → i ≢ from →
            IsCame (talk_in V.form phase.now self.old) phase.now.config.now.m round from i
            (came_at self.new round from i) }
        ensures others { (r j i : ℕ) → r ≤ 3 → j < N → i < N → (r ≢ round) ⊎ (j ≢ from) →
            came_at self.new r j i ≡ came_at self.old r j i }
        ensures touched { (r j : ℕ) → j < N → (r ≢ round) ⊎ (j ≢ from) →
            has_id (slice_index_or self.new.touched r []) j ≡
            has_id (slice_index_or self.old.touched r []) j }
    {
        let uneven = phase.uneven(round, from);
        if !uneven.is_empty() {
            self.judge_frames(phase, round, from, &uneven);
        }
    }
}

impl<V: Item<N>, const N: usize> Links<V, N>
where
    Nodes: Capacity<N>,
{
    /// Lays down what comes of the frames of a round, where only these nodes have to be looked at.
    fn hear_round(&mut self, phase: &Phase<'_, N>, round: u8, judged: &NodeSet<N>)
        requires heard { IsHeard V.form V.first_slot V.tells phase.now self.old round }
        requires few { round ≤ phase.now.config.now.m }
        requires fresh { (r j : ℕ) → round ≤ r → j < N →
            has_id (slice_index_or self.old.touched r []) j ≡ false }
        requires judged { IsJudged phase.now judged.now }
        ensures heard { IsHeard V.form V.first_slot V.tells phase.now self.new (round + 1) }
        ensures fresh { (r j : ℕ) → round < r → j < N →
            has_id (slice_index_or self.new.touched r []) j ≡ false }
        ensures told { self.new.told.items ≡ self.old.told.items }
        ensures blank { self.new.blank ≡ self.old.blank }
    {
        if judged.is_empty() {
            return;
        }
        for from in 0..phase.config.nodes {
            if judged.has(from) {
                self.hear_frames(phase, round, from);
            }
        }
    }

    /// Takes what comes over each link, by what was told.
    pub fn hear(&mut self, phase: &Phase<'_, N>)
        requires told { IsHeard V.form V.first_slot V.tells phase.now self.old 0 }
        ensures heard { IsHeard V.form V.first_slot V.tells phase.now self.new
            (phase.now.config.now.m + 1) }
        ensures told { (j : ℕ) → item_of self.new j ≡ item_of self.old j }
    {
        self.touched = no_senders();
        let judged = phase.judged();
        for round in 0..phase.config.m + 1 {
            self.hear_round(phase, round, &judged);
        }
    }
}
