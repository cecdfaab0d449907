//! What a node heard for a path.

ghost use Rattle.std.specs.Prelude.{ℕ, ◌≡◌, ◌≢◌, ◌<◌, ◌≤◌, ◌+◌, ◌++◌, ◌∷◌, [], true, List, length};
ghost use Rattle.std.specs.Prelude.{slice_index_or};
ghost use Rattle.node_grid.specs.NodeSet.{has_id, without_id};
ghost use Rattle.frames.specs.Content.{Content};
ghost use Rattle.omh_paths.specs.declared.wrapped.Wrapped.{Wrapped};
ghost use Rattle.omh_paths.specs.declared.wrapped.Wrapped.TheVariants.{Fault};
ghost use Rattle.omh_paths.specs.Paths.{place_in};
ghost use Rattle.protocol.specs.Arrival.Arrival.{Good};
ghost use Rattle.protocol.specs.Heard.{paths_of, heard};
ghost use Rattle.protocol.specs.Talk.{arrives, rounds_upto};
ghost use Rattle.touched_items.specs.Items.{HasOwn};
ghost use Rattle.heard_links.specs.Talks.{IsSet, members_at, phase_talk};
ghost use Rattle.std.specs.Prelude.{false};
ghost use Rattle.heard_links.specs.declared.came.Came.TheVariants as came;
ghost use Rattle.heard_links.specs.Frames.{IsLink, IsRead};
ghost use Rattle.heard_links.specs.Hearing.{talk_in, came_at, IsHeard, IsAsked, source, passed_on};

use crate::asking::front_of;
use crate::came::Came;
use crate::effects::{effect_or, whole};
use crate::links::Links;
use crate::phase::Phase;
use node_grid::{Capacity, Nodes};
use omh_paths::{Path, Wrapped};
use touched_items::{Item, entry};

impl<'p, const N: usize> Phase<'p, N> {
    /// What node `i` reads for a path in the good relay frame of node `q`, which meant `own` there.
    fn entry<V: Item<N>>(&self, i: u8, q: u8, front: &Path, own: Wrapped<V>) -> Wrapped<V>
    where
        Nodes: Capacity<N>,
        requires read { IsRead self.now i q front.now }
        requires link { IsLink self.now (length front.now) q i }
        ensures { (item : ℕ → V) (c : Content) (xs : List (Wrapped V)) →
            let t = phase_talk V.form self.now item in
            let r = length front.now in
            let e = t.expect r q (t.members i) in
            let k = place_in (paths_of (t.members i) r q) front.now in
            HasOwn V.form e k own c → arrives V.form.relay_in (t.change r q i) e e c ≡ Good xs →
            k < length xs → result ≡ slice_index_or xs k (Fault 0) }
    {
        let round = front.len();
        let none = whole();
        let effect = effect_or(self.effect(round, q, i), &none);
        let expect = self.expect(round, q, i);
        entry(effect, &expect, self.place(i, q, front), own)
    }
}

impl<V: Item<N>, const N: usize> Links<V, N>
where
    Nodes: Capacity<N>,
{
    /// What node `i` heard of node `q` itself.
    fn heard_first(&self, phase: &Phase<'_, N>, i: u8, q: u8) -> Wrapped<V>
        requires heard { IsHeard V.form V.first_slot V.tells phase.now self.now 1 }
        requires node { has_id phase.now.awake i ≡ true }
        requires from { q < phase.now.config.now.nodes }
        requires other { i ≢ q }
        ensures { result ≡ heard (rounds_upto (talk_in V.form phase.now self.now)
            phase.now.config.now.m i) (q ∷ []) }
    {
        match self.came(0, q, i) {
            Came::Bad(_) => Wrapped::Fault(0),
            Came::Told(item) => Wrapped::Plain(item),
            Came::Untouched | Came::Good => self.own(phase, q),
        }
    }

    /// What node `i` heard of node `q` for a path, where `q` passed this on.
    fn heard_relay(
        &self,
        phase: &Phase<'_, N>,
        i: u8,
        q: u8,
        front: &Path,
        own: Wrapped<V>,
    ) -> Wrapped<V>
        requires heard { IsHeard V.form V.first_slot V.tells phase.now self.now
            (length front.now + 1) }
        requires asked { IsAsked (talk_in V.form phase.now self.now) phase.now.config.now.m
            phase.now.awake i (front.now ++ q ∷ []) }
        requires off { has_id front.now q ≡ false }
        requires own { own ≡ passed_on
            (heard (rounds_upto (talk_in V.form phase.now self.now) phase.now.config.now.m q))
            (source (has_id phase.now.full q) (members_at phase.now q) (members_at phase.now i)
            q front.now) }
        ensures { result ≡ heard (rounds_upto (talk_in V.form phase.now self.now)
            phase.now.config.now.m i) (front.now ++ q ∷ []) }
    {
        match self.came(front.len(), q, i) {
            Came::Bad(_) => Wrapped::Fault(0),
            Came::Told(item) => Wrapped::Plain(item),
            Came::Untouched => own,
            Came::Good => phase.entry(i, q, front, own),
        }
    }

    /// Whether the frame of a round from one node to another isn't good.
    fn is_bad(&self, round: u8, from: u8, to: u8) -> bool
        requires round { round ≤ 3 }
        requires from { from < N }
        requires to { to < N }
        ensures { result ≡ true → (k : ℕ) × (came_at self.now round from to ≡ came.Bad k) }
    {
        match self.came(round, from, to) {
            Came::Bad(_) => true,
            Came::Untouched | Came::Told(_) | Came::Good => false,
        }
    }

    /// What node `i` heard for a path, where what came in the rounds up to its own is laid down.
    pub(crate) fn heard_below(&self, phase: &Phase<'_, N>, i: u8, path: &Path) -> Wrapped<V>
        requires heard { IsHeard V.form V.first_slot V.tells phase.now self.now
            (length path.now) }
        requires asked { IsAsked (talk_in V.form phase.now self.now) phase.now.config.now.m
            phase.now.awake i path.now }
        ensures { result ≡ heard (rounds_upto (talk_in V.form phase.now self.now)
            phase.now.config.now.m i) path.now }
    {
        let round = path.len() - 1;
        let q = path.at(round);
        if round == 0 {
            return self.heard_first(phase, i, q);
        }
        if self.is_bad(round, q, i) {
            return Wrapped::Fault(0);
        }
        let front = front_of(path);
        match phase.source(i, q, &front) {
            Some(other) => {
                let own = self.heard_below(phase, q, &other).wrap();
                self.heard_relay(phase, i, q, &front, own)
            }
            None => self.heard_relay(phase, i, q, &front, Wrapped::Fault(0)),
        }
    }

    /// What a node that is awake heard for a path of its members that ends in another node.
    pub fn heard(&self, phase: &Phase<'_, N>, i: u8, path: &Path) -> Wrapped<V>
        requires heard { IsHeard V.form V.first_slot V.tells phase.now self.now
            (phase.now.config.now.m + 1) }
        requires asked { IsAsked (talk_in V.form phase.now self.now) phase.now.config.now.m
            phase.now.awake i path.now }
        ensures { result ≡ heard (rounds_upto (talk_in V.form phase.now self.now)
            phase.now.config.now.m i) path.now }
    {
        self.heard_below(phase, i, path)
    }
}
