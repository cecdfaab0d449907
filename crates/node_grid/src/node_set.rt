ghost use Rattle.std.specs.Prelude.{◌≡◌, ℕ, ◌+◌, ◌^◌, ◌<◌, ◌≤◌, List, [], ◌∷◌, ◌++◌, length};
ghost use Rattle.std.specs.Prelude.{slice_get, slice_index, drop, IfSome, IsTrue, ◌↔◌, ◌==◌, All};
ghost use Rattle.node_grid.specs.NodeSet.{ids_below, has_id, with_id, without_id, union_of};
ghost use Rattle.node_grid.specs.NodeSet.{minus_of, common_of, place_of, bits_set, mask_of};
ghost use Rattle.node_grid.specs.NodeSet.{IsIdSet};
ghost use Rattle.std.specs.Cmp.Lexicographic.{pointwise};
ghost use Rattle.std.specs.Cmp.Rules.{comparing};
ghost use Rattle.std.proofs.Common.{rules};
ghost use Rattle.std.specs.Iterator.{YieldsFirst, item_count};

use std::marker::Model;

/// A set of nodes, which are numbers below `N`.
#[derive(Clone, Copy)]
pub struct NodeSet<const N: usize> {
    mask: u16,
}

// Clauses see the members, in ascending order.
impl<const N: usize> Model for NodeSet<N> {
    ghost use Rattle.std.specs.Prelude.{ℕ, List, ◌^◌, ◌<◌, ◌≤◌};
    ghost use Rattle.node_grid.specs.NodeSet.{bits_set, mask_of};

    ghost Value = { List ℕ };

    ghost view = { λ s. bits_set N s.mask };

    ghost invariant = { λ s. (s.mask < 2 ^ N) × (N ≤ 16) };

    ghost inverse = { λ s. record { mask = mask_of s } };

    ghost use Rattle.node_grid.specs.NodeSetLaws.{mask_of-bits_set};
    ghost use Rattle.std.proofs.Common.{ap};

    ghost inverse_ok = { λ a h. ap (λ m. record { mask = m }) (mask_of-bits_set N a.mask h.0) };
}

impl<const N: usize> NodeSet<N> {
    /// The set without members.
    pub fn empty() -> Self
        requires { N ≤ 16 }
        ensures { result ≡ [] }
    {
        NodeSet { mask: 0 }
    }

    /// The nodes below `n`.
    pub fn full(n: u8) -> Self
        requires capacity { N ≤ 16 }
        requires within { n ≤ N }
        ensures { result ≡ ids_below n }
    {
        NodeSet {
            mask: ((1u32 << n) - 1) as u16,
        }
    }

    /// Whether `id` is a member; no number from `N` on is one.
    pub fn has(&self, id: u8) -> bool
        ensures { result ≡ has_id self.now id }
    {
        id < 16 && (self.mask >> id) & 1 == 1
    }

    /// Adds `id`.
    pub fn put(&mut self, id: u8)
        requires { id < N }
        ensures { self.new ≡ with_id N self.old id }
    {
        let mask = self.mask;
        self.mask = mask | (1 << id);
    }

    /// Takes `id` out.
    pub fn cut(&mut self, id: u8)
        requires { id < N }
        ensures { self.new ≡ without_id self.old id }
    {
        let mask = self.mask;
        self.mask = mask & !(1 << id);
    }

    /// The set without `id`.
    pub fn without(&self, id: u8) -> NodeSet<N>
        requires { id < N }
        ensures { result ≡ without_id self.now id }
    {
        let mut rest = *self;
        rest.cut(id);
        rest
    }

    /// The members of the two sets together.
    pub fn union(&self, other: &NodeSet<N>) -> NodeSet<N>
        ensures { result ≡ union_of N self.now other.now }
    {
        NodeSet {
            mask: self.mask | other.mask,
        }
    }

    /// The members that aren't in the other set.
    pub fn minus(&self, other: &NodeSet<N>) -> NodeSet<N>
        ensures { result ≡ minus_of self.now other.now }
    {
        NodeSet {
            mask: self.mask & !other.mask,
        }
    }

    /// The members that the other set has too.
    pub fn common(&self, other: &NodeSet<N>) -> NodeSet<N>
        ensures { result ≡ common_of self.now other.now }
    {
        NodeSet {
            mask: self.mask & other.mask,
        }
    }

    /// How many members are below `id`: the place of a member among the members.
    pub fn place(&self, id: u8) -> u8
        requires { id < N }
        ensures count { result ≡ place_of self.now id }
        ensures few { result ≤ N }
        ensures ids { IsIdSet N self.now }
    {
        let mask = self.mask;
        let below = (1 << id) - 1;
        (mask & below).count_ones() as u8
    }

    /// The set without its least member, if it has one.
    pub fn rest(&self) -> NodeSet<N>
        ensures { result ≡ drop 1 self.now }
    {
        // one less turns the lowest bit that is set off, and those below it on
        NodeSet {
            mask: self.mask & self.mask.wrapping_sub(1),
        }
    }

    /// The member at a place, in ascending order; None exactly where there are no more members than
    /// that.
    pub fn nth(&self, place: u8) -> Option<u8>
        ensures node { result ≡ slice_get self.now place }
        ensures within { IfSome result (λ x. x < N) }
    {
        let mut left = *self;
        for _ in 0..place {
            left = left.rest();
        }
        left.least()
    }

    /// The member at a place, in ascending order; there must be more members than that.
    pub fn at(&self, place: u8) -> u8
        requires { place < length self.now }
        ensures { result ≡ slice_index self.now place }
    {
        self.nth(place).unwrap()
    }

    /// The number of members.
    pub fn len(&self) -> u8
        ensures count { result ≡ length self.now }
        ensures ids { IsIdSet N self.now }
    {
        self.mask.count_ones() as u8
    }

    /// Whether there is no member.
    pub fn is_empty(&self) -> bool
        ensures { IsTrue result ↔ (self.now ≡ []) }
    {
        self.len() == 0
    }

    /// The least member; None exactly where the set is empty.
    pub fn least(&self) -> Option<u8>
        ensures first { result ≡ slice_get self.now 0 }
        ensures within { IfSome result (λ x. x < N) }
        ensures others { IfSome result (λ x. self.now ≡ x ∷ without_id self.now x) }
    {
        if self.mask == 0 {
            None
        } else {
            Some(self.mask.trailing_zeros() as u8)
        }
    }

    /// The members, in ascending order.
    pub fn iter(&self) -> Ids<N>
        ensures members { result ≡ self.now }
        ensures ids { IsIdSet N self.now }
        ensures within { All (λ k. k < N) self.now }
        ensures few { length self.now ≤ N }
    {
        let _ = &self.mask;
        Ids { left: *self }
    }
}

// Two sets are equal where they have the same members.
impl<const N: usize> PartialEq for NodeSet<N> {
    ghost eq = { pointwise ◌==◌ };

    ghost laws = { Prim.search (comparing, rules) };

    fn eq(&self, other: &Self) -> bool {
        let mine = self.mask;
        let theirs = other.mask;
        mine == theirs
    }
}

impl<const N: usize> Eq for NodeSet<N> {
    ghost laws = { Prim.search (comparing, rules) };
}

/// The members of a set that are left, in ascending order.
#[derive(Drop)]
pub struct Ids<const N: usize> {
    left: NodeSet<N>,
}

impl<const N: usize> Model for Ids<N> {
    ghost use Rattle.std.specs.Prelude.{ℕ, List};

    ghost Value = { List ℕ };

    ghost view = { λ i. i.left };
}

impl<const N: usize> Iterator for Ids<N> {
    type Item = u8;

    ghost next_gives = { YieldsFirst (λ i. i) };

    ghost remaining = { item_count (λ i. i) };

    fn next(&mut self) -> Option<u8> {
        let Some(first) = self.left.least() else {
            return None;
        };
        self.left = self.left.rest();
        Some(first)
    }
}
