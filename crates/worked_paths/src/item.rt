//! An item that is passed on among eight nodes.

ghost use Rattle.std.specs.Prelude.{◌≡◌, true};
ghost use Rattle.node_grid.specs.NodeSet.{has_id};

use crate::draws::Draws;
use crate::lies::Lies;
use crate::rounds::Rounds;
use node_grid::NodeSet;
use settled_paths::Exchange;

/// A member's item, of which liars tell others what they like.
#[derive(Clone, Copy)]
pub struct Item {
    /// The members.
    pub members: NodeSet<8>,
    /// The nodes that are Full.
    pub full: NodeSet<8>,
    /// The nodes that hear it.
    pub awake: NodeSet<8>,
    /// The member whose item it is.
    pub commander: u8,
    /// What the member says.
    pub own: u8,
    /// What the liars say.
    pub lies: Lies,
    pub ghost member: { has_id members commander ≡ true },
}

impl Item {
    /// A drawn item, with lies about paths of at most so many nodes.
    pub fn draw(draws: &mut Draws, longest: u8) -> Item {
        let commander = (draws.next() % 8) as u8;
        let mut members = draws.nodes();
        members.put(commander);
        Item {
            members,
            full: draws.nodes(),
            awake: draws.nodes(),
            commander,
            own: 9,
            lies: Lies::draw(draws, longest),
        }
    }

    /// Who tells, passes on and hears it in so many rounds.
    pub fn exchange(&self, rounds: Rounds) -> Exchange<8>
        ensures { result ≡ record {
          rounds = rounds.count;
          members = self.now.members;
          full = self.now.full;
          awake = self.now.awake;
          commander = self.now.commander;
        } }
    {
        Exchange {
            rounds: rounds.count,
            members: self.members,
            full: self.full,
            awake: self.awake,
            commander: self.commander,
        }
    }
}
