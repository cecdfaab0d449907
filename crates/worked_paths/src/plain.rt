//! What one receiver settles, in a table of its own.

ghost use Rattle.std.specs.Prelude.{◌≡◌, ◌≢◌, ◌<◌, ◌≤◌};
ghost use Rattle.node_grid.specs.NodeSet.{without_id};
ghost use Rattle.omh_paths.specs.declared.wrapped.Wrapped.TheVariants.{Fault};

use crate::item::Item;
use crate::lies::Lies;
use crate::rounds::Rounds;
use node_grid::{NoMemory, NodeSet};
use omh::Table;
use omh_paths::{Path, Wrapped, count_paths, unrank};
use settled_paths::Touched;
use std::alloc::Global;

/// The value as a relay passes it on. No error here was wrapped often.
fn wrapped(value: Wrapped<u8>) -> Wrapped<u8> {
    match value {
        Wrapped::Plain(plain) => Wrapped::Plain(plain),
        Wrapped::Fault(times) => Wrapped::Fault(times.saturating_add(1)),
    }
}

/// What a node hears for a path whose last node passes this on.
fn heard(lies: &Lies, to: u8, path: &Path, passed: Wrapped<u8>) -> Wrapped<u8> {
    match lies.said(to, path) {
        Some(value) => value,
        None => passed,
    }
}

/// The value, but for an error that was wrapped too often to be wrapped once more: none is here.
fn known(value: Wrapped<u8>) -> Wrapped<u8>
    ensures { result ≢ Fault 255 }
{
    match value {
        Wrapped::Plain(plain) => Wrapped::Plain(plain),
        Wrapped::Fault(times) => Wrapped::Fault(times.min(254)),
    }
}

/// What a receiver hears for a path, going along it from the commander, who says this.
pub fn heard_along(
    lies: &Lies,
    full: &NodeSet<8>,
    own: Wrapped<u8>,
    path: &Path,
    to: u8,
) -> Wrapped<u8> {
    let len = path.len();
    let mut front = Path::root(path.at(0));
    let mut passed = own;
    for k in 1..len {
        let q = path.at(k);
        if front.len() >= 4 || front.has(q) {
            return Wrapped::Fault(0);
        }
        let before = heard(lies, q, &front, passed);
        passed = if full.has(q) {
            wrapped(before)
        } else {
            Wrapped::Fault(0)
        };
        front = front.then(q);
    }
    heard(lies, to, path, passed)
}

/// Puts what a receiver hears for all paths of one node more than this, each of other members.
fn put_length(table: &mut Table<u8, 8>, item: &Item, others: &NodeSet<8>, me: u8, relays: u8)
    requires few { relays ≤ 3 }
    requires short { relays ≤ table.old.rounds }
    requires others { others.now ≡ without_id table.old.members table.old.me }
    ensures { table.new ≡ record table.old { heard = table.new.heard } }
{
    let own = Wrapped::Plain(item.own);
    let len = relays + 1;
    for place in 0..count_paths(others.len(), len) {
        let path = unrank(others, len, place);
        let value = heard_along(&item.lies, &item.full, own, &path, me);
        table.put(&path, known(value));
    }
}

/// A table for what one receiver hears, of items that are relayed among eight nodes in so many
/// rounds.
#[derive(Drop)]
pub struct Receiver {
    rounds: Rounds,
    table: Table<u8, 8>,
    ghost nodes: { table.nodes ≡ 8 },
    ghost rounds_are: { table.rounds ≡ rounds.count },
}

impl Receiver {
    /// A table for so many rounds.
    pub fn open(alloc: Global, rounds: Rounds) -> Result<Receiver, NoMemory> {
        let table = Table::open(alloc, 8, rounds.count)?;
        Ok(Receiver { rounds, table })
    }

    /// What receiver `me` settles of an item.
    pub fn settle(&mut self, item: &Item, me: u8) -> Wrapped<u8>
        requires { me < 8 }
    {
        let _ = item.members.len();
        let is_full = item.full.has(me);
        let others = item.members.without(me);
        self.table
            .start(&item.members, me, is_full, Wrapped::Fault(0));
        for relays in 0..self.rounds.count + 1 {
            put_length(&mut self.table, item, &others, me, relays);
        }
        self.table.settle(item.commander)
    }
}
