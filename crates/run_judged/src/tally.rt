//! Sums over the periods of a run.

ghost use Rattle.std.specs.Prelude.{◌≡◌, ◌+◌, ◌<◌, ◌≤◌, ◌&&◌, not, if◌then◌else◌};
ghost use Rattle.std.specs.Prelude.{[], None, Some, is_some};
ghost use Rattle.node_grid.specs.NodeSet.{ids_below, has_id, union_of};
ghost use Rattle.node_grid.specs.Count.{bit, count};
ghost use Rattle.at_once.specs.Run.{ShowsPeriod, FitsScenario};
ghost use Rattle.run_judged.specs.Found.{AreFound};
ghost use Rattle.run_judged.specs.Numbers.{greater, lesser};
ghost use Rattle.run_judged.specs.Margins.{margin};
ghost use Rattle.run_judged.specs.Rows.{seen_of, skew_at};
ghost use Rattle.run_judged.specs.Sums.{AreSums};

use crate::apart::spread;
use crate::found::Findings;
use crate::seen::Seen;
use fault_classes::Budget;
use node_grid::{Capacity, NodeSet, Nodes};
use scenario::Scenario;

/// The first period of a run that doesn't tolerate its faults.
#[derive(Clone, Copy)]
pub struct Loss {
    /// The period.
    pub period: u32,
    /// How many members it has, and how many of each faulty class.
    pub budget: Budget,
}

/// What is summed up of the periods that were added.
#[derive(Clone, Copy)]
pub(crate) struct Tally<const N: usize> {
    /// How many periods are claimed.
    pub(crate) claimed: u32,
    /// The first period that doesn't tolerate its faults.
    pub(crate) lost: Option<Loss>,
    /// The least margin up to that period.
    pub(crate) margin: Option<i64>,
    /// How often a node is charged that isn't sound.
    pub(crate) charges: u32,
    /// How often a node is charged that was nonfaulty throughout.
    pub(crate) false_charges: u32,
    /// How often such a node leaves the members.
    pub(crate) false_exclusions: u32,
    /// How far votes of sound nodes on a channel are apart at most, in claimed periods.
    pub(crate) spread: Option<u64>,
    /// How far clocks of sound nodes are apart at most, in claimed periods.
    pub(crate) skew: Option<u64>,
    /// The nodes that weren't nonfaulty in some period.
    pub(crate) faulty: NodeSet<N>,
}

/// By how much the members outnumber what the faults ask for, of which more than `m` asymmetric
/// ones leave nothing.
fn margin(budget: &Budget, m: u8) -> i64
    ensures { result ≡ margin budget.now m }
{
    let asked = 2 * i64::from(budget.a)
        + 2 * i64::from(budget.s)
        + i64::from(budget.b)
        + i64::from(m);
    let margin = i64::from(budget.n) - asked;
    if budget.a > m { margin.min(0) } else { margin }
}

/// The lesser of two, of which each may be missing.
fn lesser(one: Option<i64>, other: Option<i64>) -> Option<i64>
    ensures { result ≡ lesser one other }
{
    match (one, other) {
        (None, other) => other,
        (Some(one), None) => Some(one),
        (Some(one), Some(other)) => Some(one.min(other)),
    }
}

/// The greater of two, of which each may be missing.
pub(crate) fn greater(one: Option<u64>, other: Option<u64>) -> Option<u64>
    ensures { result ≡ greater one other }
{
    match (one, other) {
        (None, other) => other,
        (Some(one), None) => Some(one),
        (Some(one), Some(other)) => Some(one.max(other)),
    }
}

/// Whether the node is in the first set and not in the second.
fn is_besides<const N: usize>(one: &NodeSet<N>, other: &NodeSet<N>, node: u8) -> bool
    ensures { result ≡ (has_id one.now node && not (has_id other.now node)) }
{
    one.has(node) && !other.has(node)
}

/// How many of the first nodes are in the first set and not in the second.
fn besides<const N: usize>(nodes: u8, one: &NodeSet<N>, other: &NodeSet<N>) -> u32
    requires { nodes ≤ N }
    ensures count { result
        ≡ count (λ j. has_id one.now j && not (has_id other.now j)) (ids_below nodes) }
    ensures few { result ≤ nodes }
{
    let mut besides = 0;
    for node in 0..nodes {
        if is_besides(one, other, node) {
            besides += 1;
        }
    }
    besides
}

impl<const N: usize> Tally<N> {
    /// Nothing yet.
    pub(crate) fn none() -> Self
    where
        Nodes: Capacity<N>,
        ensures { result ≡ record {
          claimed = 0;
          lost = None;
          margin = None;
          charges = 0;
          false_charges = 0;
          false_exclusions = 0;
          spread = None;
          skew = None;
          faulty = [];
        } }
    {
        Tally {
            claimed: 0,
            lost: None,
            margin: None,
            charges: 0,
            false_charges: 0,
            false_exclusions: 0,
            spread: None,
            skew: None,
            faulty: NodeSet::empty(),
        }
    }

    /// Adds the budget of a period, and whether it is kept.
    fn add_budget(&mut self, period: u32, budget: &Budget, m: u8, within: bool)
        ensures { self.new ≡ record self.old {
          lost = if is_some self.old.lost then self.old.lost
              else (if within then None
              else Some (record { period = period; budget = budget.now }));
          margin = lesser self.old.margin
              (if is_some self.old.lost then None else Some (margin budget.now m));
        } }
    {
        if self.lost.is_some() {
            return;
        }
        self.margin = lesser(self.margin, Some(margin(budget, m)));
        if !within {
            self.lost = Some(Loss {
                period,
                budget: *budget,
            });
        }
    }

    /// Adds whether a period is claimed, and how far votes and clocks of sound nodes are apart.
    fn add_claim(&mut self, claim: bool, spread: Option<u64>, skew: Option<u64>)
        requires { self.old.claimed ≤ 1024 }
        ensures { self.new ≡ record self.old {
          claimed = self.old.claimed + bit claim;
          spread = greater self.old.spread spread;
          skew = greater self.old.skew skew;
        } }
    {
        self.claimed += u32::from(claim);
        self.spread = greater(self.spread, spread);
        self.skew = greater(self.skew, skew);
    }

    /// Adds who is charged in a period and who leaves after it.
    fn add_charges(&mut self, findings: &Findings<N>)
        requires charges { self.old.charges ≤ 16384 }
        requires false_charges { self.old.false_charges ≤ 16384 }
        requires false_exclusions { self.old.false_exclusions ≤ 16384 }
        ensures { self.new ≡ record self.old {
          faulty = union_of N self.old.faulty findings.now.faulty;
          charges = self.old.charges
              + count (λ j. has_id findings.now.charged j && not (has_id findings.now.sound j))
              (ids_below findings.now.nodes);
          false_charges = self.old.false_charges
              + count (λ j. has_id findings.now.charged j
              && not (has_id (union_of N self.old.faulty findings.now.faulty) j))
              (ids_below findings.now.nodes);
          false_exclusions = self.old.false_exclusions
              + count (λ j. has_id findings.now.left j
              && not (has_id (union_of N self.old.faulty findings.now.faulty) j))
              (ids_below findings.now.nodes);
        } }
    {
        let nodes = findings.nodes;
        let faulty = self.faulty.union(&findings.faulty);
        self.charges += besides(nodes, &findings.charged, &findings.sound);
        self.false_charges += besides(nodes, &findings.charged, &faulty);
        self.false_exclusions += besides(nodes, &findings.left, &faulty);
        self.faulty = faulty;
    }

    /// Adds a period of the scenario's run, in which clocks are so far apart.
    pub(crate) fn add(
        &mut self,
        scenario: &Scenario<N>,
        seen: &Seen<'_, N>,
        findings: &Findings<N>,
        skew: Option<u64>,
    )
    where
        Nodes: Capacity<N>,
        requires shown { ShowsPeriod scenario.now findings.now.period seen.now.shown.now }
        requires fits { FitsScenario scenario.now seen.now.shown.now }
        requires found { AreFound (seen_of scenario.now) scenario.now.config.nodes
            findings.now.period findings.now }
        requires skew { skew ≡ skew_at scenario.now findings.now.period }
        requires sums { AreSums scenario.now findings.now.period self.old }
        ensures { AreSums scenario.now (findings.now.period + 1) self.new }
    {
        let head = &seen.shown.head;
        let channels = scenario.config().channels.len() as u8;
        let spread = spread(seen, channels);
        self.add_budget(findings.period, &head.budget, head.m, head.within);
        self.add_charges(findings);
        self.add_claim(head.claim, spread, skew);
    }
}
