ghost use Rattle.std.specs.Prelude.{◌≡◌, ◌≢◌, ℕ, ◌+◌, ◌-◌, ◌*◌, ◌<◌, ◌≤◌, length, true};
ghost use Rattle.node_grid.specs.NodeSet.{has_id};
ghost use Rattle.omh_paths.specs.Paths.{index_in};
ghost use Rattle.omh.specs.Flat.{relay_path};
ghost use Rattle.settled_paths.specs.Levels.{level_at, IsExchange, IsLevel};

use node_grid::{Capacity, NodeSet, Nodes};
use omh_paths::{Path, count_paths, unrank};

/// How many paths of fewer relays there are behind one commander, where so many others may relay.
pub(crate) fn level_at(others: u8, relays: u8) -> usize
    requires others { others ≤ 16 }
    requires short { relays ≤ 4 }
    ensures begins { result ≡ level_at others relays }
    ensures small { result ≤ 262144 }
{
    let mut begins = 0;
    for fewer in 0..relays {
        begins += count_paths(others, fewer);
    }
    begins
}

/// The paths of one number of relays behind the commander.
#[derive(Clone, Copy)]
pub(crate) struct Level {
    /// The place of the first of them among all paths of that length.
    pub first: usize,
    /// The place of the first of them in a list of all paths behind the commander, shorter ones
    /// first.
    pub begins: usize,
    /// How many they are.
    pub paths: usize,
}

/// One member's item as it is exchanged: who tells it, who passes it on and in how many rounds, and
/// who hears it.
#[derive(Clone, Copy)]
pub struct Exchange<const N: usize> {
    /// The rounds of relaying, m.
    pub rounds: u8,
    /// The members.
    pub members: NodeSet<N>,
    /// The nodes that are Full.
    pub full: NodeSet<N>,
    /// The nodes that hear it.
    pub awake: NodeSet<N>,
    /// The member whose item it is.
    pub commander: u8,
}

impl<const N: usize> Exchange<N> {
    /// The paths of so many relays.
    pub(crate) fn level(&self, relays: u8) -> Level
        requires exchange { IsExchange N self.now.rounds self.now.members self.now.commander }
        requires few { relays ≤ self.now.rounds }
        ensures { IsLevel self.now.members (index_in self.now.members self.now.commander) relays
            result }
    {
        let others = self.members.len() - 1;
        let paths = count_paths(others, relays);
        Level {
            first: self.members.place(self.commander) as usize * paths,
            begins: level_at(others, relays),
            paths,
        }
    }

    /// The k-th path of so many relays.
    pub(crate) fn path(&self, relays: u8, level: &Level, k: usize) -> Path
    where
        Nodes: Capacity<N>,
        requires exchange { IsExchange N self.now.rounds self.now.members self.now.commander }
        requires few { relays ≤ self.now.rounds }
        requires level { IsLevel self.now.members (index_in self.now.members self.now.commander)
            relays level.now }
        requires within { k < level.now.paths }
        ensures path { result ≡ relay_path self.now.members
            (index_in self.now.members self.now.commander) relays k }
        ensures long { length result ≡ relays + 1 }
        ensures within { (q : ℕ) → has_id result q ≡ true → has_id self.now.members q ≡ true }
    {
        unrank(&self.members, relays + 1, level.first + k)
    }
}
