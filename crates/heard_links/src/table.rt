//! Opening the table, and looks at it.

ghost use Rattle.std.specs.Prelude.{ℕ, ◌≡◌, ◌≢◌, ◌<◌, ◌≤◌, ◌+◌, ◌*◌, ◌==◌, true, false, [], length};
ghost use Rattle.std.specs.Prelude.{replicate, slice_index_or, IfOk, if◌then◌else◌};
ghost use Rattle.node_grid.specs.NodeSet.{has_id};
ghost use Rattle.omh_paths.specs.declared.wrapped.Wrapped.TheVariants.{Plain, Fault};
ghost use Rattle.protocol.specs.Talk.{rounds_upto};
ghost use Rattle.heard_links.specs.declared.came.Came.TheVariants as came;
ghost use Rattle.heard_links.specs.Hearing.{link_at, came_at, item_of, talk_in, IsHeard, is_even};
ghost use Rattle.heard_links.specs.Hearing.{frame_kind};

use crate::came::Came;
use crate::links::Links;
use crate::phase::Phase;
use node_grid::kind::COLD;
use node_grid::{Capacity, NoMemory, NodeSet, Nodes};
use omh_paths::Wrapped;
use std::alloc::{AllocError, Global};
use touched_items::Item;

/// So many places with this.
fn places<T: Copy + Drop>(alloc: Global, len: usize, value: T) -> Result<Vec<T>, AllocError>
    ensures { IfOk result (λ v. v.items ≡ replicate len value) }
{
    let mut values = Vec::with_capacity(alloc, len)?;
    for _ in 0..len {
        values.push(value)?;
    }
    Ok(values)
}

/// Where a link has its place.
pub(crate) fn link_at<const N: usize>(round: u8, from: u8, to: u8) -> usize
where
    Nodes: Capacity<N>,
    requires round { round ≤ 3 }
    requires from { from < N }
    requires to { to < N }
    ensures place { result ≡ link_at N round from to }
    ensures within { result < 4 * (N * N) }
{
    (round as usize * N + from as usize) * N + to as usize
}

impl<V: Item<N>, const N: usize> Links<V, N> {
    /// Room for a phase of as many nodes as the types hold, all of which say `blank` of themselves.
    ///
    /// # Errors
    ///
    /// `NoMemory` where there is none.
    pub fn open(alloc: Global, blank: V) -> Result<Self, NoMemory>
    where
        Nodes: Capacity<N>,
        ensures { IfOk result (λ x. (j : ℕ) → item_of x j ≡ blank) }
    {
        let Ok(told) = places(alloc, N, blank) else {
            return Err(NoMemory);
        };
        let Ok(came) = places(alloc, 4 * (N * N), Came::Untouched) else {
            return Err(NoMemory);
        };
        let Ok(blank) = Box::new(alloc, blank) else {
            return Err(NoMemory);
        };
        Ok(Links {
            blank,
            told,
            touched: [NodeSet::empty(); 4],
            came,
        })
    }

    /// Takes what node `i` says of itself.
    pub fn tell(&mut self, i: u8, item: V)
        requires { i < N }
        ensures { (j : ℕ) → item_of self.new j ≡ (if j == i then item else item_of self.old j) }
    {
        self.told[i as usize] = item;
    }

    /// What node `i` says of itself, which is nothing where it isn't Full.
    pub fn own(&self, phase: &Phase<'_, N>, i: u8) -> Wrapped<V>
        requires { i < N }
        ensures { result ≡
            (if has_id phase.now.full i then Plain (item_of self.now i) else Fault 0) }
    {
        if phase.full.has(i) {
            Wrapped::Plain(self.told[i as usize])
        } else {
            Wrapped::Fault(0)
        }
    }

    /// What came of the frame of a round from one node to another.
    pub(crate) fn came(&self, round: u8, from: u8, to: u8) -> Came<V>
    where
        Nodes: Capacity<N>,
        requires round { round ≤ 3 }
        requires from { from < N }
        requires to { to < N }
        ensures { result ≡ came_at self.now round from to }
    {
        if self.touched[round as usize].has(from) {
            self.came[link_at::<N>(round, from, to)]
        } else {
            Came::Untouched
        }
    }

    /// Whether something is laid down for a node's frames of a round.
    pub(crate) fn has_touched(&self, round: u8, from: u8) -> bool
    where
        Nodes: Capacity<N>,
        requires round { round ≤ 3 }
        ensures { result ≡ has_id (slice_index_or self.now.touched round []) from }
    {
        self.touched[round as usize].has(from)
    }

    /// Whether something else is laid down for a link than that the frame comes as it was sent.
    pub(crate) fn has_uneven(&self, round: u8, from: u8, to: u8) -> bool
    where
        Nodes: Capacity<N>,
        requires round { round ≤ 3 }
        ensures { result ≡ false → from < N → to < N →
            came_at self.now round from to ≡ came.Untouched }
    {
        if !self.has_touched(round, from) {
            return false;
        }
        if from >= N as u8 || to >= N as u8 {
            return false;
        }
        !self.came(round, from, to).is_untouched()
    }

    /// The kind of error of the frame of a round from one node to another that is awake; None
    /// exactly where it is good.
    pub fn kind(&self, phase: &Phase<'_, N>, round: u8, from: u8, to: u8) -> Option<u8>
    where
        Nodes: Capacity<N>,
        requires heard { IsHeard V.form V.first_slot V.tells phase.now self.now
            (phase.now.config.now.m + 1) }
        requires round { round ≤ phase.now.config.now.m }
        requires from { from < phase.now.config.now.nodes }
        requires to { has_id phase.now.awake to ≡ true }
        requires other { to ≢ from }
        ensures { result ≡ frame_kind
            (rounds_upto (talk_in V.form phase.now self.now) phase.now.config.now.m to) round from }
    {
        match self.came(round, from, to) {
            Came::Untouched => {
                if phase.full.has(from) {
                    None
                } else {
                    Some(COLD)
                }
            }
            Came::Bad(kind) => Some(kind),
            Came::Told(_) | Came::Good => None,
        }
    }

    /// The nodes of whose frames of a round one comes to another node that is awake otherwise than
    /// it was sent.
    pub fn touched(&self, phase: &Phase<'_, N>, round: u8) -> NodeSet<N>
        requires heard { IsHeard V.form V.first_slot V.tells phase.now self.now
            (phase.now.config.now.m + 1) }
        requires round { round ≤ phase.now.config.now.m }
        ensures { (j i : ℕ) → has_id result j ≡ false → j < phase.now.config.now.nodes →
            has_id phase.now.awake i ≡ true → i ≢ j →
            is_even (talk_in V.form phase.now self.now) round j i ≡ true }
    {
        let _ = &phase.period;
        self.touched[round as usize]
    }

    /// The same of the relay frames of all rounds.
    pub fn odd(&self, phase: &Phase<'_, N>) -> NodeSet<N>
        requires heard { IsHeard V.form V.first_slot V.tells phase.now self.now
            (phase.now.config.now.m + 1) }
        ensures { (r j i : ℕ) → 0 < r → r ≤ phase.now.config.now.m → has_id result j ≡ false →
            j < phase.now.config.now.nodes → has_id phase.now.awake i ≡ true → i ≢ j →
            is_even (talk_in V.form phase.now self.now) r j i ≡ true }
    {
        let mut odd = NodeSet::empty();
        for round in 1..phase.config.m + 1 {
            odd = odd.union(&self.touched(phase, round));
        }
        odd
    }
}
