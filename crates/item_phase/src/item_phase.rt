//! What is laid down of a phase.

ghost use Rattle.std.specs.Prelude.{◌≡◌, ◌<◌, ◌≤◌, ◌*◌, ◌==◌, ℕ, IfOk, length, if◌then◌else◌};
ghost use Rattle.heard_links.specs.Hearing.{item_of};

use crate::values::blanks;
use heard_links::Links;
use node_grid::{Capacity, NoMemory, NodeSet, Nodes};
use omh_paths::Wrapped;
use settled_items::{Settling, TERMS};
use std::alloc::Global;
use touched_items::Item;

/// What is known of a phase before its items are settled.
#[derive(Clone, Copy)]
pub(crate) struct Seen<const N: usize> {
    /// The members whose item all settle as they say it.
    pub(crate) plain: NodeSet<N>,
    /// True only where all awake nodes have the same members, each of which is one of these.
    pub(crate) is_all: bool,
    /// The nodes of whose frames one may be found bad.
    pub(crate) ill: NodeSet<N>,
}

/// What all nodes settle of each other's items in the rounds of one kind of item.
///
/// What is left in it from another phase means nothing.
#[derive(Drop)]
pub struct ItemPhase<V, const N: usize> {
    /// What each node says of itself, and what came over the links.
    pub(crate) links: Links<V, N>,
    /// Room for settling.
    pub(crate) settling: Settling<V, N>,
    /// What is known of the phase before its items are settled.
    pub(crate) seen: Seen<N>,
    /// Room for what each node settles of one item, by node.
    pub(crate) row: Vec<Wrapped<V>>,
    /// What each node settles of the items of other members, by member and node.
    pub(crate) each: Vec<Wrapped<V>>,
    /// Room for the terms of one node.
    pub(crate) work: Vec<Wrapped<V>>,
    /// By member, who convicts it.
    pub(crate) convicting: [NodeSet<N>; N],
    ghost row_room: { length row.items ≡ N },
    ghost each_room: { length each.items ≡ N * N },
    ghost work_room: { length work.items ≡ 48 },
}

impl<V: Item<N>, const N: usize> ItemPhase<V, N> {
    /// Room for the phases of `nodes` nodes, at most N, with `rounds` relay rounds, at most 3. All
    /// nodes say `blank` of themselves.
    ///
    /// # Errors
    ///
    /// `NoMemory` where there is none.
    pub fn open(alloc: Global, nodes: u8, rounds: u8, blank: V) -> Result<Self, NoMemory>
    where
        Nodes: Capacity<N>,
        requires nodes { nodes ≤ N }
        requires rounds { rounds ≤ 3 }
        ensures { IfOk result (λ s. s.settling ≡ record { nodes = nodes; rounds = rounds }) }
    {
        let Ok(row) = blanks(alloc, N) else {
            return Err(NoMemory);
        };
        let Ok(each) = blanks(alloc, N * N) else {
            return Err(NoMemory);
        };
        let Ok(work) = blanks(alloc, TERMS) else {
            return Err(NoMemory);
        };
        let settling = Settling::open(alloc, nodes, rounds)?;
        let links = Links::open(alloc, blank)?;
        Ok(ItemPhase {
            links,
            settling,
            seen: Seen {
                plain: NodeSet::empty(),
                is_all: false,
                ill: NodeSet::empty(),
            },
            row,
            each,
            work,
            convicting: [NodeSet::empty(); N],
        })
    }

    /// Takes what node `i` says of itself.
    pub fn tell(&mut self, i: u8, item: V)
        requires { i < N }
        ensures told { (j : ℕ) →
            item_of self.new.links j ≡ (if j == i then item else item_of self.old.links j) }
        ensures room { self.new.settling ≡ self.old.settling }
    {
        self.links.tell(i, item);
    }
}
