ghost use Rattle.std.specs.Prelude.{◌≡◌, ◌≢◌, ◌+◌, ◌≤◌, ◌<◌, ◌∷◌, [], ◌==◌, ◌&&◌, not, ℕ, suc};
ghost use Rattle.std.specs.Prelude.{length, map, take, drop, slice_index_or, true, false};
ghost use Rattle.std.specs.Prelude.{if◌then◌else◌};
ghost use Rattle.node_grid.specs.NodeSet.{has_id, without_id, ids_below, ids_where};
ghost use Rattle.equivocation.specs.Conviction.{convicts, is_convicted};
ghost use Rattle.omh_paths.specs.declared.wrapped.Wrapped.TheVariants.{Plain, Fault};
ghost use Rattle.omh_paths.specs.Wrapped.{unwrapped, is_error, same};
ghost use Rattle.omh_paths.specs.Majority.{majority};
ghost use Rattle.omh_paths.specs.Paths.{index_in, paths_of_length, path_at, path_count, outside};
ghost use Rattle.omh.specs.Omh.{Ear};
ghost use Rattle.omh.specs.Flat.{section_at};
ghost use Rattle.relay_terms.specs.Terms.{said, term_in};
ghost use Rattle.relay_walk.specs.Laid.{laid};
ghost use Rattle.relay_walk.specs.Walking.{HaveNext, IsMoved, IsWalk, next_in, entries_of};
ghost use Rattle.relay_table.specs.Rooms.{IsRoom, IsHeardRoom};
ghost use Rattle.relay_table.specs.Settling.{is_on_path, own_said, IsSeated, IsLaidOut};
ghost use Rattle.relay_table.specs.Settling.{IsKeptBy, IsHeardBy, IsToldLast, AreSettled};
ghost use Rattle.relay_table.specs.Settling.{settled_at_place};
ghost use Rattle.relay_table.specs.Tabled.{AreKnown, kept_nodes, told_in, term_of};

use crate::free::{free_begins, lay_free};
use equivocation::tolerated;
use node_grid::{Capacity, NodeSet, Nodes};
use omh_paths::count_paths;
use relay_terms::{Item, Term, settled_from};
use relay_walk::{Round, set_term};

/// How many paths of one to `len` nodes there are out of `nodes`, so where the longer ones begin.
pub(crate) fn section_at(nodes: u8, len: u8) -> usize
    requires nodes { nodes ≤ 16 }
    requires short { len ≤ 3 }
    ensures begins { result ≡ section_at nodes len }
    ensures small { result ≤ 262144 }
{
    free_begins(nodes, len + 1) - 1
}

/// The term of an item that was told, or of none.
fn term_told<V: Item>(told: Option<V>) -> Term<V>
    ensures { said result ≡ term_of told }
{
    match told {
        Some(item) => Term::item(item),
        None => Term::nothing(),
    }
}

/// Whether a relay is there, and is another term than one of this item would be.
fn disagrees<V: Item>(own: &Term<V>, relay: &Term<V>) -> bool
    ensures { result ≡ (not (is_error (said relay.now))
        && not (same V.eq (said relay.now) (said own.now))) }
{
    !relay.is_nothing() && !relay.is(own)
}

/// What is settled from the own term and so many terms, which begin at `from`.
fn settled_behind<V: Item>(terms: &[Term<V>], from: usize, width: usize, own: &Term<V>) -> Term<V>
    requires within { from + width ≤ length terms.now }
    requires few { width ≤ 16 }
    ensures { said result ≡ unwrapped (majority V.eq
        (said own.now ∷ map said (take width (drop from terms.now)))) }
{
    settled_from(&terms[from..from + width], own)
}

/// Who hears and settles.
#[derive(Drop)]
pub(crate) struct Station<const N: usize> {
    /// The members and the node are below this.
    pub(crate) nodes: u8,
    /// The rounds of relaying, m.
    pub(crate) rounds: u8,
    /// The members.
    pub(crate) members: NodeSet<N>,
    /// The members but for the node itself.
    pub(crate) others: NodeSet<N>,
    /// The node itself.
    pub(crate) me: u8,
    /// Whether the node is Full.
    pub(crate) full: bool,
    /// The members outside each path of none to m members.
    pub(crate) free: Vec<NodeSet<N>>,
}

impl<const N: usize> Station<N> {
    /// Takes up the members, the node itself and whether it is Full.
    pub(crate) fn seat(&mut self, members: &NodeSet<N>, me: u8, full: bool)
    where
        Nodes: Capacity<N>,
        requires station { IsLaidOut self.old }
        requires members { (q : ℕ) → has_id members.now q ≡ true → q < self.old.nodes }
        requires me { me < self.old.nodes }
        ensures seat { self.new ≡ record self.old {
          members = members.now;
          others = without_id members.now me;
          me = me;
          full = full;
          free = self.new.free;
        } }
        ensures station { IsLaidOut self.new }
    {
        if *members != self.members {
            lay_free(members, self.rounds, self.free.as_mut_slice());
        }
        self.members = *members;
        self.others = members.without(me);
        self.me = me;
        self.full = full;
    }

    /// The members outside a path, which stands at place `k` among those of `len` members.
    fn outside(&self, len: u8, k: usize) -> NodeSet<N>
        requires station { IsLaidOut self.now }
        requires short { len ≤ self.now.rounds }
        requires place { k < path_count (length self.now.members) len }
        ensures { result ≡ outside self.now.members
            (path_at (paths_of_length self.now.members len) k) }
    {
        self.free[free_begins(self.members.len(), len) + k]
    }

    /// Whether the node itself is on the path outside which these members stand.
    fn is_on_path(&self, free: &NodeSet<N>) -> bool
        ensures { result ≡ is_on_path self.now.members self.now.me free.now }
    {
        self.members.has(self.me) && !free.has(self.me)
    }

    /// Takes what the frames say of the paths behind one path, and answers the place behind.
    fn hear_path<V: Item>(
        &self,
        frames: &mut Round<'_, N>,
        free: &NodeSet<N>,
        at: usize,
        heard: &mut [Term<V>],
    ) -> usize
        requires me { self.now.me < N }
        requires more { HaveNext (without_id free.now self.now.me) frames.old }
        requires room { is_on_path self.now.members self.now.me free.now ≡ false
            → at + length (without_id free.now self.now.me) ≤ length heard.old }
        ensures heard { map said heard.new ≡ (if is_on_path self.now.members self.now.me free.now
            then map said heard.old
            else laid at (map (next_in (term_in V.of_bytes) frames.old)
            (without_id free.now self.now.me)) (map said heard.old)) }
        ensures behind { result ≡ (if is_on_path self.now.members self.now.me free.now then at
            else at + length (without_id free.now self.now.me)) }
        ensures known { AreKnown (map said heard.old) → AreKnown (map said heard.new) }
        ensures moved { IsMoved (without_id free.now self.now.me) frames.old frames.new }
        ensures length { length heard.new ≡ length heard.old }
    {
        let others = free.without(self.me);
        if self.is_on_path(free) {
            frames.pass(&others);
            return at;
        }
        frames.keep(&others, at, heard)
    }

    /// Takes the frames of a relay round.
    pub(crate) fn hear<V: Item>(&self, frames: &mut Round<'_, N>, round: u8, heard: &mut [Term<V>])
        requires station { IsLaidOut self.now }
        requires some { 0 < round }
        requires kept { round < kept_nodes self.now.rounds }
        requires walk { IsWalk self.now.members self.now.others round 0 frames.old }
        requires room { IsHeardRoom self.now.nodes self.now.rounds heard.old }
        ensures heard { map said heard.new ≡ laid (section_at (length self.now.others) round)
            (map (told_in (entries_of (term_in V.of_bytes) frames.old) self.now.members round)
            (paths_of_length self.now.others (suc round))) (map said heard.old) }
        ensures known { AreKnown (map said heard.new) }
        ensures length { length heard.new ≡ length heard.old }
    {
        let count = self.members.len();
        let mut at = section_at(self.others.len(), round);
        for k in 0..count_paths(count, round) {
            let outside = self.outside(round, k);
            at = self.hear_path(frames, &outside, at, heard);
        }
    }

    /// What the node itself puts into the majority of a path for which it heard this.
    fn own_term<V: Item>(&self, heard: &Term<V>) -> Term<V>
        requires { said heard.now ≢ Fault 254 }
        ensures { said result ≡ own_said self.now.full self.now.members self.now.me
            (said heard.now) }
    {
        if self.full && self.members.has(self.me) {
            heard.wrap()
        } else {
            Term::nothing()
        }
    }

    /// Settles one path from what the frames say of those behind it, and answers the next place.
    ///
    /// `heard` has what was heard of the paths of that length, and `settled` gets what is settled.
    fn settle_path<V: Item>(
        &self,
        frames: &mut Round<'_, N>,
        free: &NodeSet<N>,
        at: usize,
        heard: &[Term<V>],
        settled: &mut [Term<V>],
    ) -> usize
        requires me { self.now.me < N }
        requires more { HaveNext (without_id free.now self.now.me) frames.old }
        requires room { is_on_path self.now.members self.now.me free.now ≡ false
            → at < length settled.old }
        requires heard { is_on_path self.now.members self.now.me free.now ≡ false
            → at < length heard.now }
        requires known { AreKnown (map said heard.now) }
        ensures settled { map said settled.new
            ≡ (if is_on_path self.now.members self.now.me free.now
            then map said settled.old
            else laid at (unwrapped (majority V.eq
            (own_said self.now.full self.now.members self.now.me
            (slice_index_or (map said heard.now) at (Fault 0))
            ∷ map (next_in (term_in V.of_bytes) frames.old) (without_id free.now self.now.me)))
            ∷ []) (map said settled.old)) }
        ensures behind { result ≡ (if is_on_path self.now.members self.now.me free.now then at
            else at + 1) }
        ensures moved { IsMoved (without_id free.now self.now.me) frames.old frames.new }
        ensures length { length settled.new ≡ length settled.old }
    {
        let others = free.without(self.me);
        if self.is_on_path(free) {
            frames.pass(&others);
            return at;
        }
        let own = self.own_term(&heard[at]);
        let term = frames.settle(&others, &own);
        set_term(settled, at, term);
        at + 1
    }

    /// Settles the paths of as many nodes as there are rounds, from the frames of the last round.
    fn settle_longest<V: Item>(
        &self,
        frames: &mut Round<'_, N>,
        heard: &[Term<V>],
        settled: &mut [Term<V>],
    )
        requires station { IsLaidOut self.now }
        requires some { 0 < self.now.rounds }
        requires walk { IsWalk self.now.members self.now.others self.now.rounds 0 frames.old }
        requires room { IsRoom self.now.nodes self.now.rounds heard.now settled.old }
        ensures settled { (x : Ear V) → IsKeptBy self.now (map said heard.now) x
            → IsToldLast self.now (entries_of (term_in V.of_bytes) frames.old) x
            → AreSettled V.eq x self.now.others self.now.rounds (map said settled.new) }
        ensures length { length settled.new ≡ length settled.old }
    {
        let count = self.members.len();
        let section = &heard[section_at(self.others.len(), self.rounds - 1)..];
        let mut at = 0;
        for k in 0..count_paths(count, self.rounds) {
            let outside = self.outside(self.rounds, k);
            at = self.settle_path(frames, &outside, at, section, settled);
        }
    }

    /// Settles the paths of `len` nodes, in place of what is settled for those of one node more.
    fn settle_shorter<V: Item>(&self, len: u8, heard: &[Term<V>], settled: &mut [Term<V>])
        requires station { IsSeated self.now }
        requires some { 0 < len }
        requires shorter { len < self.now.rounds }
        requires room { IsRoom self.now.nodes self.now.rounds heard.now settled.old }
        ensures settled { (x : Ear V) → IsKeptBy self.now (map said heard.now) x
            → AreSettled V.eq x self.now.others (len + 1) (map said settled.old)
            → AreSettled V.eq x self.now.others len (map said settled.new) }
        ensures length { length settled.new ≡ length settled.old }
    {
        let others = self.others.len();
        let width = others.saturating_sub(len) as usize;
        let section = &heard[section_at(others, len - 1)..];
        for k in 0..count_paths(others, len) {
            let own = self.own_term(&section[k]);
            let from = k * width;
            let term = settled_behind(settled, from, width, &own);
            set_term(settled, k, term);
        }
    }

    /// Settles the paths of one other member: the longest ones from the frames of the last round,
    /// and shorter ones one length after another.
    pub(crate) fn settle<V: Item>(
        &self,
        frames: &mut Round<'_, N>,
        heard: &[Term<V>],
        settled: &mut [Term<V>],
    )
        requires station { IsLaidOut self.now }
        requires some { 0 < self.now.rounds }
        requires walk { IsWalk self.now.members self.now.others self.now.rounds 0 frames.old }
        requires room { IsRoom self.now.nodes self.now.rounds heard.now settled.old }
        ensures settled { (x : Ear V) → IsKeptBy self.now (map said heard.now) x
            → IsToldLast self.now (entries_of (term_in V.of_bytes) frames.old) x
            → AreSettled V.eq x self.now.others 1 (map said settled.new) }
        ensures length { length settled.new ≡ length settled.old }
    {
        self.settle_longest(frames, heard, settled);
        for done in 1..self.rounds {
            self.settle_shorter(self.rounds - done, heard, settled);
        }
    }

    /// What the node settles of a node's item, from what is settled for the others' items.
    fn settled_item<V: Item>(&self, node: u8, own: &Term<V>, settled: &[Term<V>]) -> Term<V>
        requires station { IsSeated self.now }
        requires node { node < N }
        requires room { length self.now.others ≤ length settled.now }
        ensures { said result ≡ settled_at_place self.now.members self.now.others self.now.me
            self.now.full (said own.now) (map said settled.now) node }
    {
        if !self.members.has(node) {
            Term::nothing()
        } else if node != self.me {
            settled[self.others.place(node) as usize]
        } else if self.full {
            *own
        } else {
            Term::nothing()
        }
    }

    /// Writes what the node settles of each node's item, from what is settled for the others'
    /// items.
    pub(crate) fn hand_out<V: Item>(
        &self,
        own: &Term<V>,
        settled: &[Term<V>],
        items: &mut [Term<V>],
    )
        requires station { IsSeated self.now }
        requires settled { length self.now.others ≤ length settled.now }
        requires room { length items.old ≡ N }
        ensures { map said items.new ≡ map (settled_at_place self.now.members self.now.others
            self.now.me self.now.full (said own.now) (map said settled.now)) (ids_below N) }
    {
        for node in 0..N as u8 {
            items[node as usize] = self.settled_item(node, own, settled);
        }
    }

    /// Takes the item that one of the other members told of itself, or that it told none.
    pub(crate) fn hear_item<V: Item>(&self, member: u8, told: Option<V>, heard: &mut [Term<V>])
        requires station { IsSeated self.now }
        requires member { has_id self.now.others member ≡ true }
        requires room { IsHeardRoom self.now.nodes self.now.rounds heard.old }
        ensures heard { map said heard.new
            ≡ laid (index_in self.now.others member) (term_of told ∷ []) (map said heard.old) }
        ensures known { AreKnown (map said heard.new) }
        ensures length { length heard.new ≡ length heard.old }
    {
        let place = self.others.place(member) as usize;
        set_term(heard, place, term_told(told));
    }

    /// Whether a member of which the node heard this is convicted: whether more relays say
    /// otherwise than may be faulty.
    fn is_convicted<V: Item>(&self, told: &Term<V>, relays: &[Term<V>]) -> bool
        requires known { said told.now ≢ Fault 254 }
        requires few { length relays.now ≤ 16 }
        ensures { result ≡ is_convicted V.eq (said told.now) (map said relays.now)
            (self.now.full && has_id self.now.members self.now.me) self.now.rounds }
    {
        let own = told.wrap();
        let mut voices = (self.full && self.members.has(self.me)) as u8;
        let mut against = 0u8;
        for relay in relays {
            voices += !relay.is_nothing() as u8;
            against += disagrees(&own, relay) as u8;
        }
        self.rounds > 0 && against > tolerated(voices, self.rounds)
    }

    /// Whether the node convicts another member.
    fn convicts<V: Item>(&self, node: u8, heard: &[Term<V>]) -> bool
        requires station { IsSeated self.now }
        requires some { 0 < self.now.rounds }
        requires node { has_id self.now.others node ≡ true }
        requires room { IsHeardRoom self.now.nodes self.now.rounds heard.now }
        ensures { (x : Ear V) → IsHeardBy self.now (map said heard.now) x
            → result ≡ convicts V.eq x node }
    {
        let count = self.others.len() as usize;
        let place = self.others.place(node) as usize;
        let width = count - 1;
        let from = count + place * width;
        self.is_convicted(&heard[place], &heard[from..from + width])
    }

    /// The other members that the node convicts.
    pub(crate) fn convicted<V: Item>(&self, heard: &[Term<V>]) -> NodeSet<N>
        requires station { IsSeated self.now }
        requires room { IsHeardRoom self.now.nodes self.now.rounds heard.now }
        ensures { (x : Ear V) → IsHeardBy self.now (map said heard.now) x → result
            ≡ ids_where (λ c. not (c == self.now.me) && (has_id self.now.members c
            && convicts V.eq x c)) N }
    {
        let mut guilty = NodeSet::empty();
        if self.rounds == 0 {
            return guilty;
        }
        for node in self.others.iter() {
            if self.convicts(node, heard) {
                guilty.put(node);
            }
        }
        guilty
    }
}
