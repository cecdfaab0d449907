//! The illnesses of a run, in room that is taken once.

ghost use Rattle.std.specs.Prelude.{◌≡◌, ◌+◌, ◌*◌, ◌-◌, ◌^◌, ◌<◌, ◌≤◌, ◌++◌, ◌&&◌, ℕ, not, []};
ghost use Rattle.std.specs.Prelude.{map, length, All, IfOk, vec_capacity};
ghost use Rattle.node_grid.specs.NodeSet.{ids_below, ids_where, has_id};
ghost use Rattle.run_judged.specs.Found.{sign_by};
ghost use Rattle.run_judged.specs.Growing.{begun, grown, IsOf};

use crate::found::Findings;
use crate::illness::Illness;
use node_grid::{Capacity, NoMemory, NodeSet, Nodes};
use std::alloc::Global;

/// How many periods a run has at most.
pub(crate) const MOST_PERIODS: usize = 1024;

/// The illnesses of the periods that were added.
#[derive(Drop)]
pub(crate) struct Illnesses<const N: usize> {
    /// By onset, then by node.
    pub(crate) list: Vec<Illness>,
    /// The nodes that were sound in the last period; all before the first.
    pub(crate) sound: NodeSet<N>,
    ghost room: { N * 1024 ≤ vec_capacity list },
}

/// Adds a period to each illness that there is.
fn go_on_all<const N: usize>(illnesses: &mut [Illness], findings: &Findings<N>)
    requires { All (IsOf findings.now.nodes findings.now.period) illnesses.old }
    ensures { illnesses.new
        ≡ map (λ x. grown findings.now.period (sign_by findings.now x.node) x) illnesses.old }
{
    for illness in illnesses.iter_mut() {
        let sign = findings.sign(illness.node);
        illness.go_on(findings.period, &sign);
    }
}

impl<const N: usize> Illnesses<N> {
    /// No illness yet, with room for those of any run.
    ///
    /// # Errors
    ///
    /// `NoMemory` where there is none.
    pub(crate) fn open(alloc: Global) -> Result<Self, NoMemory>
    where
        Nodes: Capacity<N>,
        ensures { IfOk result (λ x. N * 1024 ≤ vec_capacity x.list) }
    {
        let Ok(list) = Vec::with_capacity(alloc, N * MOST_PERIODS) else {
            return Err(NoMemory);
        };
        Ok(Illnesses {
            list,
            sound: NodeSet::empty(),
        })
    }

    /// Forgets all.
    pub(crate) fn forget(&mut self)
    where
        Nodes: Capacity<N>,
        ensures list { self.new.list.items ≡ [] }
        ensures sound { self.new.sound ≡ ids_below N }
        ensures room { vec_capacity self.new.list ≡ vec_capacity self.old.list }
    {
        self.list.clear();
        self.sound = NodeSet::full(N as u8);
    }

    /// Whether the node was sound, and isn't sound now.
    fn falls_ill(&self, findings: &Findings<N>, node: u8) -> bool
        ensures { result ≡ (has_id self.now.sound node && not (has_id findings.now.sound node)) }
    {
        self.sound.has(node) && !findings.sound.has(node)
    }

    /// Adds the illnesses that begin in the period.
    fn begin(&mut self, findings: &Findings<N>)
        requires { length self.old.list.items + findings.now.nodes
            ≤ vec_capacity self.old.list }
        ensures list { self.new.list.items ≡ self.old.list.items
            ++ map (λ j. begun findings.now.period j (sign_by findings.now j))
            (ids_where (λ j. has_id self.old.sound j && not (has_id findings.now.sound j))
            findings.now.nodes) }
        ensures sound { self.new.sound ≡ self.old.sound }
        ensures room { vec_capacity self.old.list ≤ vec_capacity self.new.list }
    {
        for node in 0..findings.nodes {
            if self.falls_ill(findings, node) {
                let sign = findings.sign(node);
                self.list
                    .push_reserved(Illness::begun(findings.period, node, &sign));
            }
        }
    }

    /// Adds a period.
    pub(crate) fn add(&mut self, findings: &Findings<N>)
        requires each { All (IsOf findings.now.nodes findings.now.period) self.old.list.items }
        requires room { length self.old.list.items + findings.now.nodes
            ≤ vec_capacity self.old.list }
        ensures list { self.new.list.items
            ≡ map (λ x. grown findings.now.period (sign_by findings.now x.node) x)
            self.old.list.items
            ++ map (λ j. begun findings.now.period j (sign_by findings.now j))
            (ids_where (λ j. has_id self.old.sound j && not (has_id findings.now.sound j))
            findings.now.nodes) }
        ensures sound { self.new.sound ≡ findings.now.sound }
        ensures room { vec_capacity self.old.list ≤ vec_capacity self.new.list }
    {
        go_on_all(self.list.as_mut_slice(), findings);
        self.begin(findings);
        self.sound = findings.sound;
    }
}
