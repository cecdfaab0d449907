//! Items that are passed on, settled at once and in a table for each receiver: how many drawn ones
//! are settled alike both ways at each receiver.
#![tactic(auto)]

mod counted;
mod draws;
mod item;
mod lies;
mod plain;
mod room;
mod rounds;

use crate::counted::count_counted;
use crate::draws::Draws;
use crate::item::Item;
use crate::plain::Receiver;
use crate::room::Room;
use crate::rounds::{NONE, ONE, Rounds, THREE, TWO};
use node_grid::NoMemory;
use std::alloc::{AllocError, Global};
use worked_rows::row;

/// How many items are drawn for each number of rounds.
pub const DRAWN: u32 = 60;

/// Whether each receiver settles the item alike both ways.
fn are_alike(room: &mut Room, receiver: &mut Receiver, item: &Item) -> bool {
    let all = room.settle(item);
    let mut are_alike = true;
    for me in 0..8u8 {
        if item.awake.has(me) && me != item.commander {
            let settled = receiver.settle(item, me);
            if settled != all[me as usize] {
                are_alike = false;
            }
        }
    }
    are_alike
}

/// Of how many drawn items each receiver settles the same both ways.
fn count_in(room: &mut Room, receiver: &mut Receiver, longest: u8) -> u32 {
    let mut draws = Draws::new(11);
    let mut alike = 0u32;
    for _ in 0..DRAWN {
        let item = Item::draw(&mut draws, longest);
        if are_alike(room, receiver, &item) {
            alike = alike.saturating_add(1);
        }
    }
    alike
}

/// Of how many drawn items with so many rounds each receiver settles the same both ways.
fn count_alike(alloc: Global, rounds: Rounds, longest: u8) -> Result<u32, NoMemory> {
    let mut room = Room::open(alloc, rounds)?;
    let mut receiver = Receiver::open(alloc, rounds)?;
    Ok(count_in(&mut room, &mut receiver, longest))
}

/// Prints of how many drawn items that is so.
fn tell_alike(rt: &HostRuntime, asked: &str, rounds: Rounds, longest: u8) -> anyhow::Result<()> {
    let Ok(alike) = count_alike(rt.alloc(), rounds, longest) else {
        return Err(AllocError.into());
    };
    Ok(row(rt, asked, alike)?)
}

/// Prints of how many drawn items of which nobody lies a count settles the same.
fn tell_counted(rt: &HostRuntime, asked: &str, rounds: Rounds) -> anyhow::Result<()> {
    let Ok(counted) = count_counted(rt.alloc(), rounds) else {
        return Err(AllocError.into());
    };
    Ok(row(rt, asked, counted)?)
}

fn of_tables(rt: &HostRuntime) -> anyhow::Result<()> {
    tell_alike(
        rt,
        "  settled alike at once and by tables, no rounds",
        NONE,
        4,
    )?;
    tell_alike(rt, "  one round", ONE, 4)?;
    tell_alike(rt, "  two rounds", TWO, 4)?;
    tell_alike(rt, "  two rounds, no lie in the last", TWO, 2)?;
    tell_alike(rt, "  three rounds", THREE, 4)?;
    tell_alike(rt, "  three rounds, no lie in the last", THREE, 3)
}

fn of_counts(rt: &HostRuntime) -> anyhow::Result<()> {
    tell_counted(
        rt,
        "  settled alike at once and by a count where nobody lies, no rounds",
        NONE,
    )?;
    tell_counted(rt, "  one round", ONE)?;
    tell_counted(rt, "  two rounds", TWO)?;
    tell_counted(rt, "  three rounds", THREE)
}

fn main(rt: HostRuntime) -> anyhow::Result<()> {
    row(&rt, "items drawn for each number of rounds", DRAWN)?;
    of_tables(&rt)?;
    of_counts(&rt)
}
