ghost use Rattle.std.specs.Prelude.{◌≡◌, length, IfOk};

use crate::values::blank;
use node_grid::NoMemory;
use odd_relays::WORK;
use omh_paths::{Exact, Wrapped};
use std::alloc::Global;

/// Room for settling an item by paths of odd members.
///
/// What is left in it from an item means nothing.
#[derive(Drop)]
pub(crate) struct FewRoom<V, const N: usize> {
    /// What the commander told each node, by node.
    pub told: Vec<Wrapped<V>>,
    /// Where the item is settled.
    pub work: Vec<Wrapped<V>>,
    ghost nodes: { length told.items ≡ N },
    ghost wide: { length work.items ≡ 832 },
}

impl<V: Exact + Drop, const N: usize> FewRoom<V, N> {
    /// Takes the room.
    pub fn open(alloc: Global) -> Result<FewRoom<V, N>, NoMemory> {
        let Ok(told) = blank(alloc, N) else {
            return Err(NoMemory);
        };
        let Ok(work) = blank(alloc, WORK) else {
            return Err(NoMemory);
        };
        Ok(FewRoom { told, work })
    }
}
