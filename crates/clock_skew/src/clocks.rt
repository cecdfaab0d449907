//! The clocks of all nodes before a period: what each node reads of the others, and where the
//! clocks stand after it.

ghost use Rattle.std.specs.Prelude.{◌≡◌, ◌^◌, ◌<◌, All, map, pos};
ghost use Rattle.node_grid.specs.NodeSet.{ids_below};
ghost use Rattle.clock_skew.specs.Clock.{IsUpTo, lie_at};
ghost use Rattle.clock_skew.specs.Correction.{IsReading};
ghost use Rattle.clock_skew.specs.Reading.{AreSteady, start_of, read_by, moved};

use crate::ClockPlan;
use node_grid::{Capacity, Nodes};

/// Where the clock of node `i` starts, and 0 of one that isn't in use.
fn start_of<const N: usize>(plan: &ClockPlan<N>, nodes: u8, i: u8) -> i64
    requires { nodes ≡ plan.now.nodes }
    ensures { result ≡ start_of plan.now nodes i }
{
    if i < nodes { plan.start(i) } else { 0 }
}

/// Where the clocks of all nodes start, of a plan for so many nodes. Behind these the numbers are
/// 0.
pub fn starts<const N: usize>(plan: &ClockPlan<N>, nodes: u8) -> [i64; N]
where
    Nodes: Capacity<N>,
    requires nodes { nodes ≡ plan.now.nodes }
    ensures { result ≡ map (start_of plan.now nodes) (ids_below N) }
{
    let mut offset = [0; N];
    for i in 0..N as u8 {
        offset[i as usize] = start_of(plan, nodes, i);
    }
    offset
}

/// The clocks before a period: where they stand, and what the plan makes of them.
#[derive(Clone, Copy)]
pub struct Clocks<'a, const N: usize> {
    /// The plan.
    pub plan: &'a ClockPlan<N>,
    /// How many nodes it has clocks of.
    pub nodes: u8,
    /// Where each clock stands before the period.
    pub offset: &'a [i64; N],
    /// The period.
    pub period: u32,
}

impl<'a, const N: usize> Clocks<'a, N> {
    /// What node `i` reads of node `j`: how far that clock is ahead of its own, with an error and
    /// the lie that it is told. It is 0 of a node that isn't in use.
    fn reading(&self, lies: &[i64; N], i: u8, j: u8) -> i64
        requires steady { AreSteady N self.now.plan.now self.now.nodes self.now.offset.now }
        requires reader { i < self.now.nodes }
        requires lies { lies.now ≡ map (λ k. lie_at self.now.plan.now k i self.now.period)
            (ids_below N) }
        requires near { All (IsUpTo (pos (2 ^ 40))) lies.now }
        ensures reading { result ≡ read_by self.now.plan.now self.now.nodes self.now.offset.now
            self.now.period i j }
        ensures range { IsReading result }
    {
        if j >= self.nodes {
            return 0;
        }
        let ahead = self.offset[j as usize] - self.offset[i as usize];
        ahead + self.plan.error(i, j, self.period) + lies[j as usize]
    }

    /// What node `i` reads of all nodes.
    pub fn readings(&self, i: u8) -> [i64; N]
        requires steady { AreSteady N self.now.plan.now self.now.nodes self.now.offset.now }
        requires reader { i < self.now.nodes }
        ensures readings { result ≡ map (read_by self.now.plan.now self.now.nodes
            self.now.offset.now self.now.period i) (ids_below N) }
        ensures range { All IsReading result }
    {
        let lies = self.plan.lies_to(i, self.period);
        let mut readings = [0; N];
        for j in 0..N as u8 {
            readings[j as usize] = self.reading(&lies, i, j);
        }
        readings
    }

    /// The offset of node `i` after the period, by its correction and its drift. It is 0 of a node
    /// that isn't in use.
    fn moved(&self, correction: &[i64; N], i: u8) -> i64
        requires steady { AreSteady N self.now.plan.now self.now.nodes self.now.offset.now }
        requires corrections { All IsReading correction.now }
        ensures { result ≡ moved self.now.plan.now self.now.nodes self.now.offset.now correction.now
            self.now.period i }
    {
        if i >= self.nodes {
            return 0;
        }
        self.offset[i as usize] + correction[i as usize] + self.plan.drift_of(i, self.period)
    }

    /// The offsets of all nodes after the period, by the corrections of all.
    pub fn all_moved(&self, correction: &[i64; N]) -> [i64; N]
        requires steady { AreSteady N self.now.plan.now self.now.nodes self.now.offset.now }
        requires corrections { All IsReading correction.now }
        ensures { result ≡ map (moved self.now.plan.now self.now.nodes self.now.offset.now
            correction.now self.now.period) (ids_below N) }
    {
        let mut after = [0; N];
        for i in 0..N as u8 {
            after[i as usize] = self.moved(correction, i);
        }
        after
    }
}
