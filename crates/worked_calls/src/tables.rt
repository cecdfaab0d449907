//! What one node heard of an item and settles, in the plain table.

ghost use Rattle.std.specs.Prelude.{ℕ, ◌≡◌, ◌≢◌, ◌<◌, ◌≤◌, true, length, IfSome};
ghost use Rattle.node_grid.specs.NodeSet.{has_id, without_id};
ghost use Rattle.omh_paths.specs.declared.wrapped.Wrapped.TheVariants.{Fault};

use crate::answers::Said;
use node_grid::{NoMemory, NodeSet};
use omh::Table;
use omh_paths::{Path, Wrapped, count_paths, unrank};
use std::alloc::{AllocError, Global};
use std::io;
use worked_rows::row;

/// What comes from a node that relays what it heard.
#[derive(Clone, Copy)]
enum Relay {
    /// This value.
    Value(u8),
    /// That it heard nothing.
    Error,
    /// Nothing comes.
    Nothing,
}

impl Relay {
    /// As what is heard for the path through that node.
    fn heard(self) -> Wrapped<u8>
        ensures { result ≢ Fault 255 }
    {
        match self {
            Relay::Value(value) => Wrapped::Plain(value),
            Relay::Error => Wrapped::Fault(1),
            Relay::Nothing => Wrapped::Fault(0),
        }
    }
}

/// What a node of four with one relay round hears: of node 3 itself, and of it from each of the two
/// other nodes.
#[derive(Clone, Copy)]
struct Hears {
    me: u8,
    full: bool,
    told: u8,
    relays: [Relay; 2],
    ghost other: { me < 3 },
}

/// A node of four with one relay round, and the other members.
#[derive(Drop)]
struct Node {
    table: Table<u8, 8>,
    others: NodeSet<8>,
    ghost nodes: { table.nodes ≡ 4 },
    ghost rounds: { table.rounds ≡ 1 },
    ghost left: { others ≡ without_id table.members table.me },
}

impl Node {
    /// One that has no members yet.
    fn open(alloc: Global) -> Result<Node, NoMemory> {
        Ok(Node {
            table: Table::open(alloc, 4, 1)?,
            others: NodeSet::empty(),
        })
    }

    /// Begins with all four nodes as members.
    fn start(&mut self, hears: &Hears) {
        let members: NodeSet<8> = NodeSet::full(4);
        self.table
            .start(&members, hears.me, hears.full, Wrapped::Plain(0));
        self.others = members.without(hears.me);
    }

    /// The path at this place among those of so many of the others, if there is one.
    fn path_at(&self, len: u8, place: usize) -> Option<Path>
        ensures { IfSome result (λ path. (length path ≤ 2) × ((q : ℕ) → has_id path q ≡ true
            → has_id self.now.others q ≡ true)) }
    {
        let count = self.others.len();
        if len == 0 || len > 2 || place >= count_paths(count, len) {
            return None;
        }
        Some(unrank(&self.others, len, place))
    }

    /// Puts what was heard for the path at this place among those of so many of the others, if
    /// there is one.
    fn put(&mut self, len: u8, place: usize, heard: Relay) {
        if let Some(path) = self.path_at(len, place) {
            self.table.put(&path, heard.heard());
        }
    }

    /// What the node passes on of the path at this place among those of so many of the others, if
    /// there is one.
    fn passed_on(&self, len: u8, place: usize) -> Option<Wrapped<u8>> {
        let path = self.path_at(len, place)?;
        Some(self.table.relay(&path))
    }

    /// What the node settles of another member.
    fn settle(&mut self, member: u8) -> Option<Wrapped<u8>> {
        if self.others.has(member) {
            Some(self.table.settle(member))
        } else {
            None
        }
    }
}

/// What the node passes on of node 3 before it heard anything of it.
fn show_before(rt: &HostRuntime, node: &Node) -> io::Result<()> {
    match node.passed_on(1, 2) {
        Some(before) => row(
            rt,
            "nothing was heard of node 3: of it is passed on",
            Said(before),
        ),
        None => Ok(()),
    }
}

/// What this node settles of node 3.
fn settle_in(rt: &HostRuntime, asked: &str, node: &mut Node, hears: &Hears) -> io::Result<()> {
    node.start(hears);
    show_before(rt, node)?;
    node.put(1, 2, Relay::Value(hears.told));
    node.put(2, 4, hears.relays[0]);
    node.put(2, 5, hears.relays[1]);
    match node.settle(3) {
        Some(settled) => row(rt, asked, Said(settled)),
        None => Ok(()),
    }
}

/// What the node settles of node 3.
fn settled(rt: &HostRuntime, asked: &str, hears: &Hears) -> anyhow::Result<()> {
    let Ok(mut node) = Node::open(rt.alloc()) else {
        return Err(AllocError.into());
    };
    Ok(settle_in(rt, asked, &mut node, hears)?)
}

pub fn print(rt: &HostRuntime) -> anyhow::Result<()> {
    let wrapped = Hears {
        me: 0,
        full: true,
        told: 9,
        relays: [Relay::Error, Relay::Error],
    };
    settled(
        rt,
        "node 0 heard 9 of node 3, and from 1 and 2 that nothing came: it settles",
        &wrapped,
    )?;
    let mut own = Hears {
        me: 2,
        full: false,
        told: 1,
        relays: [Relay::Value(7), Relay::Nothing],
    };
    settled(
        rt,
        "node 2, joining, heard 1 of node 3, and from 0 that it said 7",
        &own,
    )?;
    own.full = true;
    settled(rt, "the same, full", &own)
}
