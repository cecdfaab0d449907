//! Items of which nobody lies, settled by a count too.

use crate::DRAWN;
use crate::draws::Draws;
use crate::item::Item;
use crate::room::Room;
use crate::rounds::Rounds;
use counted_relays::settle_untouched;
use node_grid::NoMemory;
use omh_paths::Wrapped;
use std::alloc::Global;

/// Whether the item is settled by a count in so many rounds, and by each receiver as it is path by
/// path.
fn is_counted(room: &mut Room, item: &Item, rounds: Rounds) -> bool {
    let all = room.settle(item);
    let exchange = item.exchange(rounds);
    let own = Wrapped::Plain(item.own);
    let mut counted = [Wrapped::Fault(0); 8];
    let mut is_counted = settle_untouched(&exchange, own, &item.lies, &mut counted);
    for me in 0..8usize {
        if all[me] != counted[me] {
            is_counted = false;
        }
    }
    is_counted
}

/// How many drawn items of which nobody lies are settled alike both ways.
fn count_in(room: &mut Room, rounds: Rounds) -> u32 {
    let mut draws = Draws::new(11);
    let mut counted = 0u32;
    for _ in 0..DRAWN {
        let item = Item::draw(&mut draws, 0);
        if is_counted(room, &item, rounds) {
            counted = counted.saturating_add(1);
        }
    }
    counted
}

/// How many drawn items with so many rounds, of which nobody lies, are settled alike both ways.
pub fn count_counted(alloc: Global, rounds: Rounds) -> Result<u32, NoMemory> {
    let mut room = Room::open(alloc, rounds)?;
    Ok(count_in(&mut room, rounds))
}
