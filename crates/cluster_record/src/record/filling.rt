//! How a period's record is filled.

ghost use Rattle.std.specs.Prelude.{◌≡◌, ◌<◌, ◌≤◌, ◌+◌, false, All, map, length};
ghost use Rattle.scenario.specs.Scenario.{system_of};
ghost use Rattle.node_grid.specs.NodeSet.{ids_below};
ghost use Rattle.cluster_periods.specs.Record.{period_record};
ghost use Rattle.cluster_record.specs.Filling.{members_shown, class_or_first, IsShownBefore};
ghost use Rattle.cluster_periods.specs.Periods.{AreNodes};

use super::PeriodRecord;
use crate::clocks::next_clocks;
use fault_classes::{Class, FaultPlan};
use node_core::{Mode, Node, NodeRecord};
use node_grid::{Capacity, NodeSet, Nodes};
use scenario::Scenario;

/// Takes what all nodes recorded.
fn take_records<'c, const N: usize>(nodes: &[Node<'c, N>], records: &mut [NodeRecord<N>])
where
    Nodes: Capacity<N>,
    requires closed { All (λ v. v.phase.is_open ≡ false) nodes.now }
    requires each { length records.old ≡ length nodes.now }
    ensures { records.new ≡ map (λ v. v.outcome) nodes.now }
{
    for i in 0..nodes.len() {
        records[i] = nodes[i].record();
    }
}

/// The members with which the reference node began the period; none without one, or where it had no
/// agreed state.
fn members_of<const N: usize>(records: &[NodeRecord<N>], reference: Option<u8>) -> NodeSet<N>
where
    Nodes: Capacity<N>,
    ensures { result ≡ members_shown records.now reference }
{
    let Some(node) = reference else {
        return NodeSet::empty();
    };
    let Some(record) = records.get(node as usize) else {
        return NodeSet::empty();
    };
    if record.mode == Mode::Full {
        record.members
    } else {
        NodeSet::empty()
    }
}

/// The class of a node in use, and N of another one.
fn class_of<const N: usize>(plan: &FaultPlan<N>, nodes: u8, period: u32, node: u8) -> Class
    requires nodes { nodes ≤ plan.now.nodes }
    requires period { period < plan.now.periods }
    ensures { result ≡ class_or_first plan.now nodes period node }
{
    if node < nodes {
        plan.class(node, period)
    } else {
        Class::N
    }
}

/// The classes of the nodes in use, with N behind them.
fn classes_of<const N: usize>(plan: &FaultPlan<N>, nodes: u8, period: u32) -> [Class; N]
where
    Nodes: Capacity<N>,
    requires nodes { nodes ≤ plan.now.nodes }
    requires period { period < plan.now.periods }
    ensures { result ≡ map (class_or_first plan.now nodes period) (ids_below N) }
{
    let mut classes = [Class::N; N];
    for node in 0..N as u8 {
        classes[node as usize] = class_of(plan, nodes, period, node);
    }
    classes
}

impl<const N: usize> PeriodRecord<N>
where
    Nodes: Capacity<N>,
{
    /// Shows what all nodes made of a period of the scenario that they went through. The frames
    /// stay as they are.
    ///
    /// The record must be one of the period before it.
    pub fn fill<'c>(&mut self, scenario: &Scenario<N>, period: u32, nodes: &[Node<'c, N>])
        requires in_run { period < scenario.now.periods }
        requires taken { IsShownBefore scenario.now period self.old }
        requires after { AreNodes scenario.now (period + 1) nodes.now }
        ensures { self.new ≡ record (period_record (system_of scenario.now) scenario.now.clock
            period) { sent = self.old.sent } }
    {
        take_records(nodes, self.records.as_mut_slice());
        let plan = scenario.plan();
        let reference = plan.reference(period);
        let members = members_of(self.records.as_slice(), reference);
        let budget = plan.budget(&members, period);
        self.period = period;
        self.reference = reference;
        self.members = members;
        self.budget = budget;
        self.within = budget.holds(self.m);
        self.claim = self.claim && self.within;
        self.classes = classes_of(plan, self.nodes, period);
        self.clock = next_clocks(scenario, period, self.records.as_slice(), self.clock);
    }
}
