ghost use Rattle.std.specs.Prelude.{◌≡◌, ◌≢◌, ℕ, ◌+◌, ◌<◌, ◌≤◌, ◌⊎◌, ◌∷◌, [], length};
ghost use Rattle.std.specs.Prelude.{slice_index_or, IfOk, true, false};
ghost use Rattle.node_grid.specs.NodeSet.{has_id};
ghost use Rattle.omh_paths.specs.declared.wrapped.Wrapped.TheVariants.{Fault};
ghost use Rattle.omh.specs.Omh.{settled};
ghost use Rattle.omh.specs.Written.{IsSmall};
ghost use Rattle.settled_paths.specs.Passing.{passing_world};
ghost use Rattle.settled_paths.specs.Rooms.{HasRoomFor};

use crate::exchange::{Exchange, level_at};
use crate::touched::Touched;
use crate::values::blank;
use node_grid::{Capacity, NoMemory, Nodes};
use omh_paths::{Exact, Wrapped};
use std::alloc::Global;
use std::marker::Model;

/// Room for what is passed on of one member's item, by path, and for settling it.
///
/// All its memory is taken by [`Laid::open`]. What is left in it from an item means nothing.
#[derive(Drop)]
pub struct Laid<V> {
    nodes: u8,
    rounds: u8,
    laid: Vec<Wrapped<V>>,
    longest: Vec<Wrapped<V>>,
    work: Vec<Wrapped<V>>,
}

// Clauses see for how many nodes and rounds it has room.
impl<V> Model for Laid<V> {
    ghost use Rattle.settled_paths.specs.Rooms.{Room, HasRoom};

    ghost Value = { Room };

    ghost view = { λ l. record { nodes = l.nodes; rounds = l.rounds } };

    ghost invariant = { λ l. HasRoom l.nodes l.rounds l.laid.items l.longest.items l.work.items };
}

impl<V: Exact + Drop> Laid<V> {
    /// Room for the items of `nodes` nodes, at most 16, relayed in `rounds` rounds, at most 3.
    pub fn open(alloc: Global, nodes: u8, rounds: u8) -> Result<Laid<V>, NoMemory>
        requires nodes { nodes ≤ 16 }
        requires rounds { rounds ≤ 3 }
        ensures { IfOk result (λ l. l ≡ record { nodes = nodes; rounds = rounds }) }
    {
        let others = nodes.saturating_sub(1);
        let Ok(laid) = blank(alloc, level_at(others, rounds + 1)) else {
            return Err(NoMemory);
        };
        let Ok(longest) = blank(alloc, level_at(others, rounds)) else {
            return Err(NoMemory);
        };
        let Ok(work) = blank(alloc, 16 + level_at(others, rounds)) else {
            return Err(NoMemory);
        };
        Ok(Laid {
            nodes,
            rounds,
            laid,
            longest,
            work,
        })
    }

    /// What each node that hears the item of another member settles for it, laid at the node's
    /// place in `all`. The commander says this of its item, and some nodes hear something else of
    /// it, or of what is passed on. Other places of `all` stay.
    pub fn settle_all<T: Touched<V>, const N: usize>(
        &mut self,
        exchange: &Exchange<N>,
        own: Wrapped<V>,
        touched: &T,
        all: &mut [Wrapped<V>],
    )
    where
        Nodes: Capacity<N>,
        requires room { HasRoomFor N exchange.now.rounds exchange.now.members
            exchange.now.commander self.old }
        requires own { IsSmall 252 own }
        requires places { length all.old ≡ N }
        ensures settled { (i : ℕ) → has_id exchange.now.awake i ≡ true →
            exchange.now.commander ≢ i → slice_index_or all.new i (Fault 0)
            ≡ settled V.eq (passing_world exchange.now.rounds exchange.now.members exchange.now.full
            own (T.says touched.now)) i (exchange.now.commander ∷ []) }
        ensures others { (i : ℕ) → (has_id exchange.now.awake i ≡ false)
            ⊎ (exchange.now.commander ≡ i) → slice_index_or all.new i (Fault 0)
            ≡ slice_index_or all.old i (Fault 0) }
        ensures places { length all.new ≡ N }
        ensures kept { self.new ≡ self.old }
    {
        let _ = exchange.members.len();
        if exchange.rounds == 0 {
            exchange.settle_heard(own, touched, all);
            return;
        }
        exchange.lay(own, touched, self.laid.as_mut_slice());
        exchange.settle_relayed(
            touched,
            self.laid.as_slice(),
            self.longest.as_mut_slice(),
            self.work.as_mut_slice(),
            all,
        );
    }
}
