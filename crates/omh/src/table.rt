ghost use Rattle.std.specs.Prelude.{◌≡◌, ◌≢◌, ℕ, ◌+◌, ◌<◌, ◌≤◌, ◌∷◌, [], length, IfOk, map, true};
ghost use Rattle.std.specs.Prelude.{false, replicate};
ghost use Rattle.node_grid.specs.NodeSet.{has_id};
ghost use Rattle.omh_paths.specs.declared.wrapped.Wrapped.TheVariants.{Fault};
ghost use Rattle.omh_paths.specs.Wrapped.{wrapped};
ghost use Rattle.omh.specs.Omh.{settled_from};
ghost use Rattle.omh.specs.Flat.{forgotten};
ghost use Rattle.omh.specs.Heard.{ear_of, heard_in, nothing_heard, with_heard};

use crate::station::{Station, section_at};
use node_grid::{Capacity, NoMemory, NodeSet, Nodes};
use omh_paths::{Exact, Path, Wrapped};
use std::alloc::{AllocError, Global};
use std::marker::Model;

/// So many values of which nothing was heard.
fn unheard<V: Exact>(alloc: Global, len: usize) -> Result<Vec<Wrapped<V>>, AllocError>
    ensures { IfOk result (λ v. v.items ≡ replicate len (Fault 0)) }
{
    let mut values = Vec::with_capacity(alloc, len)?;
    for _ in 0..len {
        values.push(Wrapped::Fault(0))?;
    }
    Ok(values)
}

/// Forgets all values.
fn forget<V: Exact>(values: &mut [Wrapped<V>])
    ensures { values.new ≡ forgotten values.old }
{
    for value in values.iter_mut() {
        *value = Wrapped::Fault(0);
    }
}

/// What one node heard of the relays of an item, path by path, and what it settles from that.
///
/// All its memory is taken by [`Table::open`]. Values lie flat: those for the paths of one length
/// after those for shorter ones, each at the place of its path in lexicographic order.
#[derive(Drop)]
pub struct Table<V, const N: usize> {
    station: Station<N>,
    own: Wrapped<V>,
    heard: Vec<Wrapped<V>>,
    work: Vec<Wrapped<V>>,
}

// Clauses see what was heard by path.
impl<V, const N: usize> Model for Table<V, N> {
    ghost use Rattle.omh.specs.Heard.{Hearing};

    ghost Value = { Hearing V };

    ghost use Rattle.omh.specs.Flat.{heard_flat, IsStation, IsRoom};

    ghost view = { λ t. record {
      nodes = t.station.nodes;
      rounds = t.station.rounds;
      members = t.station.members;
      me = t.station.me;
      full = t.station.full;
      own = t.own;
      heard = heard_flat t.station.nodes t.station.rounds t.station.members t.station.me
          t.heard.items;
    } };

    ghost invariant = { λ t. IsStation N t.station.nodes t.station.rounds t.station.members
        t.station.count × IsRoom t.station.nodes t.station.rounds t.heard.items t.work.items };
}

impl<V: Exact + Drop, const N: usize> Table<V, N> {
    /// A table for members out of `nodes` nodes and `m` rounds of relaying, with no members yet.
    pub fn open(alloc: Global, nodes: u8, m: u8) -> Result<Table<V, N>, NoMemory>
    where
        Nodes: Capacity<N>,
        requires nodes { nodes ≤ N }
        requires rounds { m ≤ 3 }
        ensures { IfOk result (λ t. t ≡ record {
          nodes = nodes;
          rounds = m;
          members = [];
          me = 0;
          full = false;
          own = Fault 0;
          heard = nothing_heard [] 0 m;
        }) }
    {
        let Ok(heard) = unheard(alloc, section_at(nodes, m + 1)) else {
            return Err(NoMemory);
        };
        let Ok(work) = unheard(alloc, 1 + section_at(nodes.saturating_sub(1), m)) else {
            return Err(NoMemory);
        };
        let station = Station {
            nodes,
            rounds: m,
            members: NodeSet::empty(),
            count: 0,
            me: 0,
            full: false,
        };
        Ok(Table {
            station,
            own: Wrapped::Fault(0),
            heard,
            work,
        })
    }

    /// Forgets all that was heard, and takes up the members, the node itself, whether it is Full,
    /// and its own item.
    pub fn start(&mut self, members: &NodeSet<N>, me: u8, full: bool, own: Wrapped<V>)
        requires members { (q : ℕ) → has_id members.now q ≡ true → q < self.old.nodes }
        requires me { me < self.old.nodes }
        ensures { self.new ≡ record {
          nodes = self.old.nodes;
          rounds = self.old.rounds;
          members = members.now;
          me = me;
          full = full;
          own = own;
          heard = nothing_heard members.now me self.old.rounds;
        } }
    {
        forget(self.heard.as_mut_slice());
        self.station.members = *members;
        self.station.count = members.len();
        self.station.me = me;
        self.station.full = full;
        self.own = own;
    }

    /// Sets what was heard for a path, in place of what was heard for it before.
    pub fn put(&mut self, path: &Path, value: Wrapped<V>)
    where
        Nodes: Capacity<N>,
        requires members { (q : ℕ) → has_id path.now q ≡ true → has_id self.old.members q ≡ true }
        requires others { has_id path.now self.old.me ≡ false }
        requires short { length path.now ≤ self.old.rounds + 1 }
        requires known { value ≢ Fault 255 }
        ensures { self.new ≡ record self.old
            { heard = map (with_heard path.now value) self.old.heard } }
    {
        let place = self.station.place(path);
        self.heard[place] = value;
    }

    /// What the node passes on of a path: what it heard for it, wrapped.
    pub fn relay(&self, path: &Path) -> Wrapped<V>
    where
        Nodes: Capacity<N>,
        requires members { (q : ℕ) → has_id path.now q ≡ true → has_id self.now.members q ≡ true }
        requires others { has_id path.now self.now.me ≡ false }
        requires short { length path.now ≤ self.now.rounds + 1 }
        ensures { result ≡ wrapped (heard_in self.now.heard path.now) }
    {
        self.heard[self.station.place(path)].wrap()
    }

    /// What the node settles for the item of a member: its own item where it is Full and that
    /// member, and else what follows from what it heard. All that was heard stays.
    pub fn settle(&mut self, commander: u8) -> Wrapped<V>
    where
        Nodes: Capacity<N>,
        requires member { has_id self.old.members commander ≡ true }
        ensures settled { result ≡ settled_from V.eq (ear_of self.old) self.old.own commander }
        ensures kept { self.new ≡ self.old }
    {
        if commander == self.station.me {
            return if self.station.full {
                self.own
            } else {
                Wrapped::Fault(0)
            };
        }
        let station = self.station;
        station.settle(commander, self.heard.as_slice(), self.work.as_mut_slice())
    }
}
