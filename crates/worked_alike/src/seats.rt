//! Drawn nodes that hear what others relay.

ghost use Rattle.std.specs.Prelude.{ℕ, [], ◌≡◌, ◌<◌, ◌≤◌, true, length, IfSome};
ghost use Rattle.node_grid.specs.NodeSet.{has_id, without_id, IsIdSet};
ghost use Rattle.relay_table.specs.Tabled.{kept_nodes};

use crate::draws::Draws;
use node_grid::NodeSet;
use omh_paths::{Path, count_paths, unrank};

/// How often what members say is relayed.
#[derive(Clone, Copy)]
pub enum Rounds {
    /// Once.
    One,
    /// Twice.
    Two,
    /// Three times.
    Three,
}

impl Rounds {
    /// How many relay rounds there are.
    pub fn count(self) -> u8
        ensures some { 0 < result }
        ensures short { result ≤ 3 }
    {
        match self {
            Rounds::One => 1,
            Rounds::Two => 2,
            Rounds::Three => 3,
        }
    }
}

/// How many of the sixteen nodes are in a set.
pub fn size_of(set: &NodeSet<16>) -> u8
    ensures count { result ≡ length set.now }
    ensures few { result ≤ 16 }
    ensures ids { IsIdSet 16 set.now }
{
    set.len()
}

/// A node that hears: of so many nodes and relay rounds, which are members, who it is, whether it
/// is Full, how many of sixteen values that others say are odd, and in which relay round it is.
#[derive(Clone, Copy)]
pub struct Seat {
    pub nodes: u8,
    pub rounds: u8,
    pub members: NodeSet<16>,
    pub me: u8,
    pub full: bool,
    pub odd: u16,
    pub round: u8,
    pub ghost few: { nodes ≤ 16 },
    pub ghost short: { rounds ≤ 3 },
    pub ghost low: { (q : ℕ) → has_id members q ≡ true → q < nodes },
    pub ghost among: { me < nodes },
    pub ghost some: { 0 < round },
    pub ghost within: { round ≤ rounds },
}

impl Seat {
    /// The first of a drawn number of nodes, before there are members.
    pub fn first(draws: &mut Draws, rounds: Rounds) -> Seat
        ensures members { result.members ≡ [] }
        ensures me { result.me ≡ 0 }
    {
        Seat {
            nodes: 4 + draws.below(13) as u8,
            rounds: rounds.count(),
            members: NodeSet::empty(),
            me: 0,
            full: false,
            odd: 0,
            round: 1,
        }
    }

    /// A drawn one of as many nodes, with as many relay rounds, in the first of them.
    pub fn drawn(&self, draws: &mut Draws) -> Seat
        ensures nodes { result.nodes ≡ self.now.nodes }
        ensures rounds { result.rounds ≡ self.now.rounds }
    {
        let all = NodeSet::full(self.nodes);
        let out = draws.nodes().minus(&draws.nodes()).minus(&draws.nodes());
        let members = all.minus(&out);
        Seat {
            nodes: self.nodes,
            rounds: self.rounds,
            members,
            me: draws.below(self.nodes as u16) as u8,
            full: draws.is_one_of_sixteen(12),
            odd: draws.below(10),
            round: 1,
        }
    }

    /// Whether this is another member.
    pub fn is_other(&self, q: u8) -> bool
        ensures is { result ≡ has_id (without_id self.now.members self.now.me) q }
        ensures low { result ≡ true → q < 16 }
    {
        self.members.without(self.me).has(q)
    }

    /// Whether a table keeps what is heard in the relay round: in all but the last, if that isn't
    /// the only one.
    pub fn is_kept(&self) -> bool
        ensures { result ≡ true → self.now.round < kept_nodes self.now.rounds }
    {
        let most = self.rounds.max(2);
        self.round < most
    }

    /// The path at a place among those of so many of the members but one, if there is one.
    pub fn path_at(&self, out: u8, len: u8, place: usize) -> Option<Path>
        ensures { IfSome result (λ path. (length path ≡ len) × ((q : ℕ) → has_id path q ≡ true
            → has_id (without_id self.now.members out) q ≡ true)) }
    {
        if out >= 16 || len == 0 || len > 4 {
            return None;
        }
        let others = self.members.without(out);
        if place >= count_paths(size_of(&others), len) {
            return None;
        }
        Some(unrank(&others, len, place))
    }
}
