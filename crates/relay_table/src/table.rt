ghost use Rattle.std.specs.Prelude.{◌≡◌, ◌∷◌, [], ◌≤◌, ◌<◌, ℕ, length, map, replicate, IfOk, true};
ghost use Rattle.node_grid.specs.Capacity.{IsCapacity};
ghost use Rattle.node_grid.specs.NodeSet.{has_id, IsIdSet};
ghost use Rattle.omh_paths.specs.declared.wrapped.Wrapped.TheVariants.{Plain, Fault};
ghost use Rattle.omh_paths.specs.Paths.{paths_of_length};
ghost use Rattle.omh.specs.Heard.{heard_in, heard_paths, with_heard, forgotten};
ghost use Rattle.relay_terms.specs.Terms.{said, term_in};
ghost use Rattle.relay_walk.specs.Walking.{IsWalk, entries_of};
ghost use Rattle.relay_table.specs.Tabled.{AreKnown, unstarted, started, others_in};
ghost use Rattle.relay_table.specs.Tabled.{kept_nodes};
ghost use Rattle.relay_table.specs.Tabled.{after_frames, term_of, settled_in, convicted_in};

use crate::free::{free_begins, no_sets};
use crate::station::{Station, section_at};
use node_grid::{Capacity, NoMemory, NodeSet, Nodes};
use omh_paths::count_paths;
use relay_terms::{Item, Term};
use relay_walk::Round;
use std::alloc::{AllocError, Global};
use std::marker::Model;

/// How many nodes the longest paths have of which terms are kept, with `m` relay rounds.
///
/// Convictions look at pairs, and terms of a later last round are settled as they are read.
fn kept_nodes(m: u8) -> u8
    requires { m ≤ 3 }
    ensures kept { result ≡ kept_nodes m }
    ensures few { result ≤ 3 }
    ensures some { 0 < result }
{
    match m {
        0 => 1,
        1 => 2,
        rounds => rounds,
    }
}

/// So many terms of which nothing was heard.
fn unheard<V: Item>(alloc: Global, len: usize) -> Result<Vec<Term<V>>, AllocError>
    ensures { IfOk result (λ terms. map said terms.items ≡ replicate len (Fault 0)) }
{
    let mut terms = Vec::with_capacity(alloc, len)?;
    for _ in 0..len {
        terms.push(Term::nothing())?;
    }
    Ok(terms)
}

/// Forgets all terms.
fn forget<V: Item>(terms: &mut [Term<V>])
    ensures { map said terms.new ≡ replicate (length terms.old) (Fault 0) }
{
    for k in 0..terms.len() {
        terms[k] = Term::nothing();
    }
}

/// What a node heard of the relays of an item: of each path of the other members, but for those of
/// the last relay round where there are two or more. These are settled as they are read.
///
/// All its memory is taken by [`Table::open`].
#[derive(Drop)]
pub struct Table<V, const N: usize> {
    station: Station<N>,
    own: Term<V>,
    /// The terms of the others' paths, those of one length after those of shorter ones, in
    /// lexicographic order.
    heard: Vec<Term<V>>,
    /// What is settled for the paths of one length.
    settled: Vec<Term<V>>,
}

// Clauses see what was heard by path, as of a table of `omh`.
impl<V, const N: usize> Model for Table<V, N> {
    ghost use Rattle.std.specs.Prelude.{map};
    ghost use Rattle.omh.specs.Heard.{Hearing};

    ghost Value = { Hearing V };

    ghost use Rattle.relay_terms.specs.Terms.{said};
    ghost use Rattle.relay_table.specs.Settling.{hearing_of, IsLaidOut};
    ghost use Rattle.relay_table.specs.Rooms.{IsRoom};

    ghost view = { λ t. hearing_of t.station (said t.own) (map said t.heard.items) };

    ghost invariant = { λ t. IsLaidOut t.station
        × IsRoom t.station.nodes t.station.rounds t.heard.items t.settled.items };
}

impl<V: Item, const N: usize> Table<V, N> {
    /// A table for members out of `nodes` nodes and `m` rounds of relaying, with no members yet.
    pub fn open(alloc: Global, nodes: u8, m: u8) -> Result<Table<V, N>, NoMemory>
    where
        Nodes: Capacity<N>,
        requires nodes { nodes ≤ N }
        requires rounds { m ≤ 3 }
        ensures { IfOk result (λ t. t ≡ unstarted nodes m) }
    {
        let room = section_at(nodes.saturating_sub(1), kept_nodes(m));
        let Ok(heard) = unheard(alloc, room) else {
            return Err(NoMemory);
        };
        let Ok(settled) = unheard(alloc, room) else {
            return Err(NoMemory);
        };
        let Ok(free) = no_sets(alloc, free_begins(nodes, m + 1)) else {
            return Err(NoMemory);
        };
        let station = Station {
            nodes,
            rounds: m,
            members: NodeSet::empty(),
            others: NodeSet::empty(),
            me: 0,
            full: false,
            free,
        };
        Ok(Table {
            station,
            own: Term::nothing(),
            heard,
            settled,
        })
    }

    /// Forgets all that was heard, and takes up the members, the node itself, whether it is Full,
    /// and its own item.
    pub fn start(&mut self, members: &NodeSet<N>, me: u8, full: bool, own: V)
    where
        Nodes: Capacity<N>,
        requires members { (q : ℕ) → has_id members.now q ≡ true → q < self.old.nodes }
        requires me { me < self.old.nodes }
        ensures { self.new ≡ started self.old members.now me full (Plain own) }
    {
        forget(self.heard.as_mut_slice());
        self.station.seat(members, me, full);
        self.own = Term::item(own);
    }

    /// Forgets all that was heard.
    pub fn forget(&mut self)
        ensures { self.new ≡ forgotten self.old }
    {
        forget(self.heard.as_mut_slice());
    }

    /// Takes the item that one of the other members told of itself, or that it told none.
    pub fn hear_item(&mut self, member: u8, told: Option<V>)
        requires member { has_id (others_in self.old) member ≡ true }
        ensures { self.new ≡ record self.old
            { heard = map (with_heard (member ∷ []) (term_of told)) self.old.heard } }
    {
        self.station
            .hear_item(member, told, self.heard.as_mut_slice());
    }

    /// Takes the frames of a relay round whose terms are kept.
    pub fn hear_round(&mut self, frames: &mut Round<'_, N>, round: u8)
        requires some { 0 < round }
        requires kept { round < kept_nodes self.old.rounds }
        requires walk { IsWalk self.old.members (others_in self.old) round 0 frames.old }
        ensures { self.new
            ≡ after_frames (entries_of (term_in V.of_bytes) frames.old) round self.old }
    {
        self.station.hear(frames, round, self.heard.as_mut_slice());
    }

    /// The nodes and the members among them are below this.
    pub fn nodes(&self) -> u8
        ensures nodes { result ≡ self.now.nodes }
        ensures capacity { IsCapacity N }
        ensures few { result ≤ N }
    {
        self.station.nodes
    }

    /// The rounds of relaying.
    pub fn rounds(&self) -> u8
        ensures rounds { result ≡ self.now.rounds }
        ensures few { result ≤ 3 }
    {
        self.station.rounds
    }

    /// The members.
    pub fn members(&self) -> NodeSet<N>
        ensures members { result ≡ self.now.members }
        ensures ids { IsIdSet N result }
        ensures low { (q : ℕ) → has_id result q ≡ true → q < self.now.nodes }
        ensures rounds { self.now.rounds ≤ 3 }
        ensures paths { map (λ e. e.path) self.now.heard
            ≡ heard_paths self.now.members self.now.me self.now.rounds }
    {
        self.station.members
    }

    /// Whether the node itself is a member.
    pub fn is_member(&self) -> bool
        ensures { result ≡ has_id self.now.members self.now.me }
    {
        self.station.members.has(self.station.me)
    }

    /// The node itself.
    pub fn me(&self) -> u8
        ensures me { result ≡ self.now.me }
        ensures low { result < N }
    {
        self.station.me
    }

    /// What was heard of the paths of `len` other members, in lexicographic order: wrapped, it is
    /// what the node passes on in that round.
    pub fn heard(&self, len: u8) -> &[Term<V>]
        requires some { 0 < len }
        requires kept { len ≤ kept_nodes self.now.rounds }
        ensures heard { map said result.now
            ≡ map (heard_in self.now.heard) (paths_of_length (others_in self.now) len) }
        ensures known { AreKnown (map said result.now) }
    {
        let others = self.station.others.len();
        let begins = section_at(others, len - 1);
        &self.heard[begins..begins + count_paths(others, len)]
    }

    /// The other members that the node convicts by what it heard of their items and of the first
    /// relay round.
    pub fn convicted(&self) -> NodeSet<N>
        ensures { result ≡ convicted_in V.eq N self.now }
    {
        self.station.convicted(self.heard.as_slice())
    }

    /// Takes the frames of the last relay round, and writes what is settled of each node's item,
    /// which is the error itself where nothing is. All that was heard before stays.
    pub fn settle_round(&mut self, frames: &mut Round<'_, N>, items: &mut [Term<V>])
        requires some { 0 < self.old.rounds }
        requires room { length items.old ≡ N }
        requires walk { IsWalk self.old.members (others_in self.old) self.old.rounds 0 frames.old }
        ensures settled { map said items.new ≡ settled_in V.eq N
            (after_frames (entries_of (term_in V.of_bytes) frames.old) self.old.rounds self.old) }
        ensures kept { self.new ≡ self.old }
    {
        self.station
            .settle(frames, self.heard.as_slice(), self.settled.as_mut_slice());
        self.station
            .hand_out(&self.own, self.settled.as_slice(), items);
    }

    /// Writes what is settled of each node's item where nothing is relayed.
    pub fn settle_items(&self, items: &mut [Term<V>])
        requires none { self.now.rounds ≡ 0 }
        requires room { length items.old ≡ N }
        ensures { map said items.new ≡ settled_in V.eq N self.now }
    {
        self.station
            .hand_out(&self.own, self.heard.as_slice(), items);
    }
}
