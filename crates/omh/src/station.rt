ghost use Rattle.std.specs.Prelude.{◌≡◌, ◌≢◌, ℕ, ◌+◌, ◌*◌, ◌<◌, ◌≤◌, ◌∷◌, ◌++◌, [], length};
ghost use Rattle.std.specs.Prelude.{slice_set, slice_index_or, take, drop, true, if◌then◌else◌};
ghost use Rattle.node_grid.specs.Capacity.{IsCapacity};
ghost use Rattle.node_grid.specs.Count.{Distinct};
ghost use Rattle.node_grid.specs.NodeSet.{has_id};
ghost use Rattle.omh_paths.specs.declared.wrapped.Wrapped.TheVariants.{Fault};
ghost use Rattle.omh_paths.specs.Wrapped.{wrapped, unwrapped};
ghost use Rattle.omh_paths.specs.Majority.{majority};
ghost use Rattle.omh_paths.specs.Paths.{outside, index_in};
ghost use Rattle.omh.specs.Omh.{settled_at};
ghost use Rattle.omh.specs.Flat.{section_at, flat_place, flat_ear, IsStation, IsRoom, IsBranch};
ghost use Rattle.omh.specs.Flat.{IsShorter, HasTerms, AreSettled, laid_own, path_settled};

use node_grid::{Capacity, NodeSet, Nodes};
use omh_paths::{Exact, Path, Wrapped, count_paths, majority, rank, unrank};

/// How many paths of up to `len` nodes there are out of `nodes`, so where the longer ones begin.
pub fn section_at(nodes: u8, len: u8) -> usize
    requires nodes { nodes ≤ 16 }
    requires short { len ≤ 4 }
    ensures begins { result ≡ section_at nodes len }
    ensures small { result ≤ 262144 }
{
    let mut begins = 0;
    for shorter in 0..len {
        begins += count_paths(nodes, shorter + 1);
    }
    begins
}

/// The members outside the path.
pub fn outside<const N: usize>(members: &NodeSet<N>, path: &Path) -> NodeSet<N>
    requires { (q : ℕ) → has_id path.now q ≡ true → q < N }
    ensures { result ≡ outside members.now path.now }
{
    let mut left = *members;
    for k in 0..path.len() {
        left.cut(path.at(k));
    }
    left
}

/// Puts a value in place of another one.
fn set_value<V: Exact>(values: &mut [Wrapped<V>], place: usize, value: Wrapped<V>)
    requires { place < length values.old }
    ensures { values.new ≡ slice_set values.old place value }
{
    values[place] = value;
}

/// The first value.
fn first_value<V: Exact>(values: &[Wrapped<V>]) -> Wrapped<V>
    requires { 0 < length values.now }
    ensures { result ≡ slice_index_or values.now 0 (Fault 0) }
{
    values[0]
}

/// Copies `len` values, which begin at `from`, over the first ones of `work`.
fn copy_part<V: Exact>(work: &mut [Wrapped<V>], values: &[Wrapped<V>], from: usize, len: usize)
    requires within { from + len ≤ length values.now }
    requires room { len ≤ length work.old }
    requires small { from + len ≤ 2097152 }
    ensures { work.new ≡ take len (drop from values.now) ++ drop len work.old }
{
    work[..len].copy_from_slice(&values[from..from + len]);
}

/// What is settled from so many terms, which begin at `from`.
fn settled_from_terms<V: Exact>(terms: &[Wrapped<V>], from: usize, width: usize) -> Wrapped<V>
    requires within { from + width ≤ length terms.now }
    requires small { from + width ≤ 1048576 }
    ensures { result ≡ unwrapped (majority V.eq (take width (drop from terms.now))) }
{
    majority(&terms[from..from + width]).unwrap()
}

/// The paths of one length behind one commander.
#[derive(Clone, Copy)]
struct Branch {
    /// The place of the first of them among all paths of that length.
    first: usize,
    /// The place of what was heard for the first of them.
    begins: usize,
    /// How many they are.
    paths: usize,
}

/// Who settles: the node, the members whose relays it hears, and the rounds of relaying.
#[derive(Clone, Copy)]
pub struct Station<const N: usize> {
    /// The members and the node are below this.
    pub nodes: u8,
    /// The rounds of relaying, m.
    pub rounds: u8,
    /// The members.
    pub members: NodeSet<N>,
    /// The number of members.
    pub count: u8,
    /// The node itself.
    pub me: u8,
    /// Whether the node is Full.
    pub full: bool,
}

impl<const N: usize> Station<N> {
    /// The place of what was heard for a path.
    pub fn place(&self, path: &Path) -> usize
    where
        Nodes: Capacity<N>,
        requires station { IsStation N self.now.nodes self.now.rounds self.now.members
            self.now.count }
        requires within { (q : ℕ) → has_id path.now q ≡ true → has_id self.now.members q ≡ true }
        requires short { length path.now ≤ self.now.rounds + 1 }
        ensures place { result ≡ flat_place self.now.nodes self.now.members path.now }
        ensures in_range { result < section_at self.now.nodes (self.now.rounds + 1) }
        ensures some { 0 < length path.now }
        ensures distinct { Distinct path.now }
    {
        section_at(self.nodes, path.len() - 1) + rank(&self.members, path)
    }

    /// The place of a member among the members.
    fn member_place(&self, member: u8) -> usize
    where
        Nodes: Capacity<N>,
        requires station { IsStation N self.now.nodes self.now.rounds self.now.members
            self.now.count }
        requires member { has_id self.now.members member ≡ true }
        ensures place { result ≡ index_in self.now.members member }
        ensures in_range { result < length self.now.members }
    {
        rank(&self.members, &Path::root(member))
    }

    /// The paths of so many relays behind the commander at this place.
    fn branch(&self, commander: usize, relays: u8) -> Branch
        requires station { IsStation N self.now.nodes self.now.rounds self.now.members
            self.now.count }
        requires member { commander < length self.now.members }
        requires few { relays ≤ self.now.rounds }
        ensures { IsBranch self.now.nodes self.now.rounds self.now.members commander relays result }
    {
        let paths = count_paths(self.count - 1, relays);
        let first = commander * paths;
        Branch {
            first,
            begins: section_at(self.nodes, relays) + first,
            paths,
        }
    }

    /// What the node itself puts into the majority of a path for which it heard this.
    fn own_term<V: Exact>(&self, heard: &Wrapped<V>) -> Wrapped<V>
        requires { heard.now ≢ Fault 255 }
        ensures { result ≡ (if self.now.full then wrapped heard.now else Fault 0) }
    {
        if self.full {
            heard.wrap()
        } else {
            Wrapped::Fault(0)
        }
    }

    /// Lays the node's own term among those of the members outside the path, whose terms begin at
    /// `from`.
    fn lay_own<V: Exact>(&self, path: &Path, from: usize, own: Wrapped<V>, work: &mut [Wrapped<V>])
    where
        Nodes: Capacity<N>,
        requires station { IsStation N self.now.nodes self.now.rounds self.now.members
            self.now.count }
        requires within { (q : ℕ) → has_id path.now q ≡ true → has_id self.now.members q ≡ true }
        requires room { from + length (outside self.now.members path.now) ≤ length work.old }
        requires small { from ≤ 65536 }
        ensures { work.new ≡ laid_own (outside self.now.members path.now) self.now.me from own
            work.old }
    {
        let others = outside(&self.members, path);
        if others.has(self.me) {
            work[from + rank(&others, &Path::root(self.me))] = own;
        }
    }

    /// Settles the path at place `k` from the terms of its majority, which begin at `k * width`,
    /// with its own term among them.
    fn settle_path<V: Exact>(
        &self,
        path: &Path,
        k: usize,
        width: usize,
        own: Wrapped<V>,
        work: &mut [Wrapped<V>],
    )
    where
        Nodes: Capacity<N>,
        requires station { IsStation N self.now.nodes self.now.rounds self.now.members
            self.now.count }
        requires within { (q : ℕ) → has_id path.now q ≡ true → has_id self.now.members q ≡ true }
        requires width { width ≡ length (outside self.now.members path.now) }
        requires room { HasTerms k width (length work.old) }
        ensures { work.new ≡ path_settled V.eq (outside self.now.members path.now) self.now.me k
            width own work.old }
    {
        self.lay_own(path, k * width, own, work);
        let settled = settled_from_terms(work, k * width, width);
        set_value(work, k, settled);
    }

    /// Settles all paths of so many relays behind the commander, in place of what was settled for
    /// those of one relay more.
    fn settle_shorter<V: Exact>(
        &self,
        commander: usize,
        relays: u8,
        heard: &[Wrapped<V>],
        work: &mut [Wrapped<V>],
    )
    where
        Nodes: Capacity<N>,
        requires station { IsStation N self.now.nodes self.now.rounds self.now.members
            self.now.count }
        requires room { IsRoom self.now.nodes self.now.rounds heard.now work.old }
        requires shorter { IsShorter self.now.rounds self.now.members commander relays }
        requires longer { AreSettled V.eq
            (flat_ear self.now.nodes self.now.rounds self.now.members self.now.me self.now.full
            heard.now) commander (relays + 1) work.old }
        ensures { AreSettled V.eq (flat_ear self.now.nodes self.now.rounds self.now.members
            self.now.me self.now.full heard.now) commander relays work.new }
    {
        let branch = self.branch(commander, relays);
        let width = self.count.saturating_sub(relays + 1) as usize;
        for k in 0..branch.paths {
            let path = unrank(&self.members, relays + 1, branch.first + k);
            let own = self.own_term(&heard[branch.begins + k]);
            self.settle_path(&path, k, width, own, work);
        }
    }

    /// What the node settles for the item of another member.
    pub fn settle<V: Exact>(
        &self,
        commander: u8,
        heard: &[Wrapped<V>],
        work: &mut [Wrapped<V>],
    ) -> Wrapped<V>
    where
        Nodes: Capacity<N>,
        requires station { IsStation N self.now.nodes self.now.rounds self.now.members
            self.now.count }
        requires room { IsRoom self.now.nodes self.now.rounds heard.now work.old }
        requires member { has_id self.now.members commander ≡ true }
        requires other { commander ≢ self.now.me }
        ensures { result ≡ settled_at V.eq
            (flat_ear self.now.nodes self.now.rounds self.now.members self.now.me self.now.full
            heard.now) (commander ∷ []) }
    {
        let place = self.member_place(commander);
        let longest = self.branch(place, self.rounds);
        copy_part(work, heard, longest.begins, longest.paths);
        for done in 0..self.rounds {
            self.settle_shorter(place, self.rounds - done - 1, heard, work);
        }
        first_value(work)
    }
}
