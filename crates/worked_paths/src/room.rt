//! Room for items of eight nodes, each settled at once for all of them.

ghost use Rattle.std.specs.Prelude.{◌≡◌};

use crate::item::Item;
use crate::rounds::Rounds;
use node_grid::NoMemory;
use omh_paths::Wrapped;
use settled_paths::Laid;
use std::alloc::Global;

/// Room for items that are relayed among eight nodes in so many rounds.
#[derive(Drop)]
pub struct Room {
    rounds: Rounds,
    laid: Laid<u8>,
    ghost nodes: { laid.nodes ≡ 8 },
    ghost rounds_are: { laid.rounds ≡ rounds.count },
}

impl Room {
    /// Room for so many rounds.
    pub fn open(alloc: Global, rounds: Rounds) -> Result<Room, NoMemory> {
        let laid = Laid::open(alloc, 8, rounds.count)?;
        Ok(Room { rounds, laid })
    }

    /// What each node that hears the item of another one settles for it.
    pub fn settle(&mut self, item: &Item) -> [Wrapped<u8>; 8] {
        let exchange = item.exchange(self.rounds);
        let _ = exchange.members.len();
        let mut all = [Wrapped::Fault(0); 8];
        self.laid
            .settle_all(&exchange, Wrapped::Plain(item.own), &item.lies, &mut all);
        all
    }
}
