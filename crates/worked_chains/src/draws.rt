//! Items of drawn phases.

ghost use Rattle.std.specs.Prelude.{◌≡◌, ◌≢◌, ◌<◌, ◌≤◌, ℕ, All, true};
ghost use Rattle.node_grid.specs.NodeSet.{has_id};
ghost use Rattle.omh_paths.specs.declared.wrapped.Wrapped.TheVariants.{Fault};

use crate::lies::{Lies, drawn_value};
use node_grid::NodeSet;
use odd_relays::{Item, Phase};
use omh_paths::Wrapped;

/// A sequence of numbers, the same each time.
#[derive(Drop)]
pub struct Draws {
    state: u32,
}

/// Who takes part in a phase.
#[derive(Clone, Copy)]
pub struct Nodes {
    /// The rounds of relaying.
    pub rounds: u8,
    /// The members.
    pub members: NodeSet<16>,
    /// The members that are Full.
    pub full: NodeSet<16>,
    /// The nodes that are awake: all Full members, a node that is no member, and some others.
    pub awake: NodeSet<16>,
    ghost few_rounds: { rounds ≤ 3 },
    ghost all_awake: { (q : ℕ) → has_id full q ≡ true → has_id awake q ≡ true },
}

/// An item of one of its members.
#[derive(Clone, Copy)]
pub struct Drawn {
    /// The rounds of relaying.
    pub rounds: u8,
    /// The members.
    pub members: NodeSet<16>,
    /// The members that are Full.
    pub full: NodeSet<16>,
    /// The nodes that are awake, among them all Full members.
    pub awake: NodeSet<16>,
    /// The member whose item it is.
    pub commander: u8,
    /// The members whose relays of it are odd.
    pub odd: NodeSet<16>,
    /// What each node was told.
    pub told: [Wrapped<u8>; 16],
    /// What odd members pass on.
    pub lies: Lies,
    ghost few_rounds: { rounds ≤ 3 },
    ghost all_awake: { (q : ℕ) → has_id full q ≡ true → has_id awake q ≡ true },
    ghost member: { has_id members commander ≡ true },
    ghost known: { All (λ v. v ≢ Fault 255) told },
}

impl Drawn {
    /// The item as it is settled by paths of odd members.
    pub fn item(&self) -> Item<'_, u8, Lies, 16>
        ensures { result.phase.full ≡ self.now.full }
    {
        Item {
            phase: Phase {
                rounds: self.rounds,
                members: self.members,
                full: self.full,
            },
            commander: self.commander,
            odd: self.odd,
            told: &self.told,
            relays: &self.lies,
        }
    }
}

impl Draws {
    /// A sequence by its seed.
    pub fn new(seed: u32) -> Draws {
        Draws { state: seed }
    }

    /// The next number below this one, or 0.
    fn below(&mut self, end: u8) -> u8
        ensures small { result ≤ end }
        ensures below { 0 < end → result < end }
    {
        self.state = self
            .state
            .wrapping_mul(1_664_525)
            .wrapping_add(1_013_904_223);
        if end == 0 {
            0
        } else {
            ((self.state >> 16) % end as u32) as u8
        }
    }

    /// Some of these nodes, each with one chance in so many.
    fn some_of(&mut self, nodes: &NodeSet<16>, chance: u8) -> NodeSet<16> {
        let mut some = NodeSet::empty();
        for q in nodes.iter() {
            if self.below(chance) == 0 {
                some.put(q);
            }
        }
        some
    }

    /// The nodes of a phase: four to eight members, of which one in four or so isn't Full, and a
    /// node more.
    pub fn nodes(&mut self) -> Nodes {
        let count = 4 + self.below(5);
        let members = NodeSet::full(count);
        let full = members.minus(&self.some_of(&members, 4));
        let _ = full.len();
        let others = self.some_of(&members, 2);
        let mut awake = full.union(&others);
        awake.put(count);
        Nodes {
            rounds: self.below(4),
            members,
            full,
            awake,
        }
    }

    /// What each node is told of an item: all the same, or each by itself.
    fn told(&mut self) -> [Wrapped<u8>; 16]
        ensures { All (λ v. v ≢ Fault 255) result }
    {
        let mut told = [drawn_value(self.below(5) as u32); 16];
        if self.below(3) > 0 {
            for k in 0..16 {
                told[k] = drawn_value(self.below(5) as u32);
            }
        }
        told
    }

    /// A member's item: one in four or so relays it oddly.
    pub fn item(&mut self, nodes: &Nodes, commander: u8) -> Drawn
        requires { has_id nodes.now.members commander ≡ true }
        ensures { result.full ≡ nodes.now.full }
    {
        Drawn {
            rounds: nodes.rounds,
            members: nodes.members,
            full: nodes.full,
            awake: nodes.awake,
            commander,
            odd: self.some_of(&nodes.members, 4),
            told: self.told(),
            lies: Lies {
                seed: self.below(251),
                last: nodes.rounds + 1,
                by_thirds: self.below(2) == 0,
            },
        }
    }
}
