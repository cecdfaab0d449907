//! All that nodes hear of a phase, as settling asks for it.

ghost use Rattle.std.specs.Prelude.{ℕ, ◌≡◌, ◌≢◌, ◌<◌, ◌≤◌, ◌+◌, ◌-◌, ◌++◌, ◌∷◌, [], true, false};
ghost use Rattle.std.specs.Prelude.{List, length, None, IfSome, if◌then◌else◌};
ghost use Rattle.node_grid.specs.NodeSet.{has_id};
ghost use Rattle.std.specs.List.{list_all};
ghost use Rattle.omh_paths.specs.declared.wrapped.Wrapped.TheVariants.{Fault};
ghost use Rattle.omh.specs.Written.{IsSmall};
ghost use Rattle.settled_paths.specs.Passing.{HearAlike};
ghost use Rattle.protocol.specs.Heard.{heard};
ghost use Rattle.protocol.specs.Talk.{rounds_upto};
ghost use Rattle.heard_links.specs.Talks.{IsSet, members_at};
ghost use Rattle.heard_links.specs.Hearing.{IsHeard, IsAlikeFrom, is_asked, is_asked_by, is_even};
ghost use Rattle.heard_links.specs.Hearing.{talk_in};
ghost use Rattle.heard_links.specs.Frames.{AreHearers};
ghost use Rattle.heard_links.specs.Passing.{ArePassedOn, says_of};

use crate::came::Came;
use crate::effects::is_same;
use crate::links::Links;
use crate::phase::Phase;
use node_grid::{Capacity, Nodes};
use omh_paths::{Path, Wrapped};
use settled_paths::Touched;
use std::marker::Model;
use touched_items::Item;

/// What nodes hear in a phase in place of what is passed on.
#[derive(Drop)]
pub struct Ear<'a, 'p, V: Item<N>, const N: usize> {
    links: &'a Links<V, N>,
    phase: &'a Phase<'p, N>,
}

// Clauses see the table and the phase.
impl<'a, 'p, V: Item<N>, const N: usize> Model for Ear<'a, 'p, V, N> {
    ghost use Rattle.std.specs.Prelude.{◌+◌};
    ghost use Rattle.heard_links.specs.declared.links.Links.{Links};
    ghost use Rattle.heard_links.specs.declared.phase.Phase.{Phase};
    ghost use Rattle.heard_links.specs.Hearing.{IsHeard};

    ghost Value = { Links V N × Phase N };

    ghost view = { λ e. (e.links.now, e.phase.now) };

    ghost invariant = { λ e. IsHeard V.form V.first_slot V.tells e.phase.now e.links.now
        (e.phase.now.config.now.m + 1) };
}

/// What nodes hear by what was taken of a phase. All of it is small; nothing is said of frames that
/// come as they were sent; and where all nodes that are awake have the same members, what each of
/// these says of itself is passed on.
pub fn listen<'a, 'p, V: Item<N>, const N: usize>(
    links: &'a Links<V, N>,
    phase: &'a Phase<'p, N>,
) -> Ear<'a, 'p, V, N>
    requires heard { IsHeard V.form V.first_slot V.tells phase.now links.now
        (phase.now.config.now.m + 1) }
    ensures links { result.0 ≡ links.now }
    ensures phase { result.1 ≡ phase.now }
    ensures small { (i : ℕ) (path : List ℕ) →
        IfSome (says_of V.form phase.now links.now i path) (λ v. IsSmall 251 v) }
    ensures even { (i q : ℕ) (front : List ℕ) →
        is_even (talk_in V.form phase.now links.now) (length front) q i ≡ true →
        says_of V.form phase.now links.now i (front ++ q ∷ []) ≡ None }
    ensures passed_on { ArePassedOn V.form phase.now links.now }
{
    Ear { links, phase }
}

impl<'p, const N: usize> Phase<'p, N> {
    /// Whether all nodes of a path are members of the node that hears it.
    fn is_within(&self, to: u8, path: &Path) -> bool
        requires { to < N }
        ensures { result ≡ list_all (has_id (members_at self.now to)) path.now }
    {
        let members = self.members_of(to);
        for k in 0..path.len() {
            if !members.has(path.at(k)) {
                return false;
            }
        }
        true
    }

    /// Whether a node that is awake hears of such a path from another node.
    fn is_asked(&self, to: u8, path: &Path) -> bool
        requires { IsSet self.now }
        ensures { result ≡ is_asked_by (members_at self.now to) self.now.config.now.m
            self.now.awake to path.now }
    {
        self.awake.has(to)
            && self.is_within(to, path)
            && path.len() <= self.config.m + 1
            && to != path.at(path.len() - 1)
    }
}

impl<V: Item<N>, const N: usize> Links<V, N> {
    /// What node `i` heard for a path: the error where it isn't awake, and for a path of which it
    /// hears from no other node.
    pub fn heard_or(&self, phase: &Phase<'_, N>, i: u8, path: &Path) -> Wrapped<V>
    where
        Nodes: Capacity<N>,
        requires heard { IsHeard V.form V.first_slot V.tells phase.now self.now
            (phase.now.config.now.m + 1) }
        ensures is { result ≡ (if is_asked (talk_in V.form phase.now self.now)
            phase.now.config.now.m phase.now.awake i path.now
            then heard (rounds_upto (talk_in V.form phase.now self.now) phase.now.config.now.m i)
            path.now else Fault 0) }
        ensures known { result ≢ Fault 255 }
    {
        if phase.is_asked(i, path) {
            self.heard(phase, i, path)
        } else {
            Wrapped::Fault(0)
        }
    }

    /// What node `to` hears for a path in place of what the path's last node passes on, by what
    /// came of that node's frame.
    fn said_by(&self, phase: &Phase<'_, N>, to: u8, path: &Path) -> Option<Wrapped<V>>
    where
        Nodes: Capacity<N>,
        requires heard { IsHeard V.form V.first_slot V.tells phase.now self.now
            (phase.now.config.now.m + 1) }
        ensures is { result ≡ says_of V.form phase.now self.now to path.now }
        ensures small { IfSome result (λ v. IsSmall 252 v) }
    {
        if !phase.is_asked(to, path) {
            return None;
        }
        let last = path.len() - 1;
        match self.came(last, path.at(last), to) {
            Came::Untouched => None,
            Came::Bad(_) => Some(Wrapped::Fault(0)),
            Came::Told(item) => Some(Wrapped::Plain(item)),
            Came::Good => Some(self.heard(phase, to, path)),
        }
    }

    /// What node `to` hears for a path in place of what the path's last node passes on.
    fn said(&self, phase: &Phase<'_, N>, to: u8, path: &Path) -> Option<Wrapped<V>>
    where
        Nodes: Capacity<N>,
        requires heard { IsHeard V.form V.first_slot V.tells phase.now self.now
            (phase.now.config.now.m + 1) }
        ensures is { result ≡ says_of V.form phase.now self.now to path.now }
        ensures small { IfSome result (λ v. IsSmall 252 v) }
    {
        let last = path.len() - 1;
        if self.has_uneven(last, path.at(last), to) {
            self.said_by(phase, to, path)
        } else {
            None
        }
    }

    /// Whether two other nodes hear the same of a node's own word in a round, in place of what it
    /// says.
    fn is_alike_from(&self, phase: &Phase<'_, N>, round: u8, q: u8, i: u8, j: u8) -> bool
    where
        Nodes: Capacity<N>,
        requires hearers { AreHearers V.form V.first_slot V.tells phase.now self.now round i j }
        requires from { q < phase.now.config.now.nodes }
        ensures { result ≡ true → IsAlikeFrom (talk_in V.form phase.now self.now) round q i j }
    {
        if q == i {
            self.came(round, q, j).is_untouched()
        } else if q == j {
            self.came(round, q, i).is_untouched()
        } else {
            is_same(phase.effect(round, q, i), phase.effect(round, q, j))
        }
    }

    /// The same where node `i` may go without that node.
    fn is_word_alike(&self, phase: &Phase<'_, N>, round: u8, q: u8, i: u8, j: u8) -> bool
    where
        Nodes: Capacity<N>,
        requires { AreHearers V.form V.first_slot V.tells phase.now self.now round i j }
        ensures { result ≡ true → has_id (members_at phase.now i) q ≡ true →
            IsAlikeFrom (talk_in V.form phase.now self.now) round q i j }
    {
        if phase.members_of(i).has(q) {
            self.is_alike_from(phase, round, q, i, j)
        } else {
            true
        }
    }

    /// Whether two other nodes with the same members hear the same of all words in a round, in
    /// place of what is said.
    fn is_round_alike(&self, phase: &Phase<'_, N>, round: u8, i: u8, j: u8) -> bool
    where
        Nodes: Capacity<N>,
        requires hearers { AreHearers V.form V.first_slot V.tells phase.now self.now round i j }
        requires members { members_at phase.now i ≡ members_at phase.now j }
        ensures { result ≡ true → HearAlike (says_of V.form phase.now self.now) i j (round + 1) }
    {
        for q in self.touched(phase, round).iter() {
            if !self.is_word_alike(phase, round, q, i, j) {
                return false;
            }
        }
        true
    }

    /// Whether all nodes hear what is passed on, for all paths of so many nodes.
    fn is_untouched(&self, phase: &Phase<'_, N>, len: u8) -> bool
        requires heard { IsHeard V.form V.first_slot V.tells phase.now self.now
            (phase.now.config.now.m + 1) }
        ensures { result ≡ true → (i : ℕ) (path : List ℕ) → length path ≡ len →
            says_of V.form phase.now self.now i path ≡ None }
    {
        if len == 0 || len > phase.config.m + 1 {
            return false;
        }
        self.touched(phase, len - 1).is_empty()
    }

    /// Whether two nodes surely hear the same for all paths of so many nodes, in place of what is
    /// passed on.
    fn is_alike(&self, phase: &Phase<'_, N>, i: u8, j: u8, len: u8) -> bool
    where
        Nodes: Capacity<N>,
        requires heard { IsHeard V.form V.first_slot V.tells phase.now self.now
            (phase.now.config.now.m + 1) }
        ensures { result ≡ true → HearAlike (says_of V.form phase.now self.now) i j len }
    {
        if i == j {
            return true;
        }
        if len == 0 || len > phase.config.m + 1 {
            return false;
        }
        if !phase.awake.has(i) || !phase.awake.has(j) {
            return false;
        }
        phase.has_same_members(i, j) && self.is_round_alike(phase, len - 1, i, j)
    }
}

impl<'a, 'p, V: Item<N>, const N: usize> Touched<V> for Ear<'a, 'p, V, N>
where
    Nodes: Capacity<N>,
{
    ghost says = { λ e. says_of V.form e.1 e.0 };

    fn said(&self, to: u8, path: &Path) -> Option<Wrapped<V>> {
        self.links.said(self.phase, to, path)
    }

    fn is_alike(&self, i: u8, j: u8, len: u8) -> bool {
        self.links.is_alike(self.phase, i, j, len)
    }

    fn is_untouched(&self, len: u8) -> bool {
        self.links.is_untouched(self.phase, len)
    }
}
