//! The relay frame of a Full node.

ghost use Rattle.std.specs.Prelude.{◌≡◌, ◌<◌, length, slice_index_or};
ghost use Rattle.omh_paths.specs.declared.wrapped.Wrapped.TheVariants.{Fault};
ghost use Rattle.heard_links.specs.Hearing.{IsSender, sent_by};

use crate::links::Links;
use crate::phase::Phase;
use node_grid::{Capacity, Nodes};
use omh_paths::{Wrapped, count_paths, unrank};
use std::marker::Model;
use touched_items::{Entries, Item};

/// What a Full node says in a relay round, each entry worked out when it is asked for.
#[derive(Drop)]
pub(crate) struct Sent<'a, 'p, V: Item<N>, const N: usize> {
    pub(crate) links: &'a Links<V, N>,
    pub(crate) phase: &'a Phase<'p, N>,
    pub(crate) round: u8,
    pub(crate) from: u8,
}

// Clauses see the entries by what they are worked out from.
impl<'a, 'p, V: Item<N>, const N: usize> Model for Sent<'a, 'p, V, N> {
    ghost use Rattle.std.specs.Prelude.{ℕ};
    ghost use Rattle.heard_links.specs.declared.links.Links.{Links};
    ghost use Rattle.heard_links.specs.declared.phase.Phase.{Phase};
    ghost use Rattle.heard_links.specs.Hearing.{IsSender};

    ghost Value = { Links V N × Phase N × ℕ × ℕ };

    ghost view = { λ s. (s.links.now, s.phase.now, s.round, s.from) };

    ghost invariant = { λ s. IsSender V.form V.first_slot V.tells s.phase.now s.links.now s.round
        s.from };
}

impl<V: Item<N>, const N: usize> Links<V, N> {
    /// Entry `k` of what a Full node says in a relay round.
    fn entry_of(&self, phase: &Phase<'_, N>, round: u8, from: u8, k: usize) -> Wrapped<V>
    where
        Nodes: Capacity<N>,
        requires sender { IsSender V.form V.first_slot V.tells phase.now self.now round from }
        requires low { k < length (sent_by V.form phase.now self.now round from) }
        ensures { result ≡
            slice_index_or (sent_by V.form phase.now self.now round from) k (Fault 0) }
    {
        let others = phase.members_of(from).without(from);
        let path = unrank(&others, round, k);
        self.heard_below(phase, from, &path).wrap()
    }
}

impl<'a, 'p, V: Item<N>, const N: usize> Entries<V> for Sent<'a, 'p, V, N>
where
    Nodes: Capacity<N>,
{
    ghost entries = { λ s. sent_by V.form s.1 s.0 s.2 s.3 };

    fn len(&self) -> usize {
        let members = self.phase.members_of(self.from);
        if members.has(self.from) {
            count_paths(members.len() - 1, self.round)
        } else {
            0
        }
    }

    fn at(&self, k: usize) -> Wrapped<V> {
        self.links.entry_of(self.phase, self.round, self.from, k)
    }
}
