//! The head of a period's record: the reference node, the members, the budget and the classes of
//! the period.

ghost use Rattle.std.specs.Prelude.{◌≡◌, ◌<◌, ◌≤◌, ◌+◌, map};
ghost use Rattle.node_grid.specs.NodeSet.{ids_below};
ghost use Rattle.cluster_record.specs.Filling.{class_or_first};
ghost use Rattle.shown_period.specs.Heads.{members_shown, IsBefore, IsBegun, AreBegun};

use crate::made::members_in;
use cluster_record::{ClockRecord, first_clocks};
use fault_classes::{Budget, Class, FaultPlan};
use node_grid::{Capacity, NodeSet, Nodes};
use scenario::Scenario;
use shared_states::SharedStates;

/// What is shown of a period as a whole.
#[derive(Drop)]
pub struct Head<const N: usize> {
    /// Its number, from 0.
    pub period: u32,
    /// The number of nodes in use: 3 to `N`.
    pub nodes: u8,
    /// The number of relay rounds, and of asymmetric members that are tolerated.
    pub m: u8,
    /// After how many exclusions a node isn't readmitted any more; 0 where it always is.
    pub retire: u16,
    /// The number of tasks, at most 32.
    pub tasks: u8,
    /// The reference node, the least node of class N, where there is one.
    pub reference: Option<u8>,
    /// The members in the reference node's agreed state when the period began; none without such a
    /// state.
    pub members: NodeSet<N>,
    /// How many members there are, and how many of each faulty class.
    pub budget: Budget,
    /// Whether the period tolerates its faults.
    pub within: bool,
    /// Whether this period and all before it tolerate their faults.
    pub claim: bool,
    /// The class of each node in use, and N behind them.
    pub classes: [Class; N],
    /// The clocks of the period, where the scenario has clocks.
    pub clock: Option<ClockRecord<N>>,
}

/// The budget of no members.
fn no_members() -> Budget
    ensures { result ≡ record { n = 0; a = 0; s = 0; b = 0 } }
{
    Budget {
        n: 0,
        a: 0,
        s: 0,
        b: 0,
    }
}

/// The members with which the reference node begins the period; none without one, or where it has
/// no agreed state.
fn members_of<const N: usize>(states: &SharedStates<N>, reference: Option<u8>) -> NodeSet<N>
where
    Nodes: Capacity<N>,
    ensures { result ≡ members_shown states.now reference }
{
    match reference {
        None => NodeSet::empty(),
        Some(node) => members_in(states, node),
    }
}

/// The class of a node in use, and N of another one.
fn class_of<const N: usize>(plan: &FaultPlan<N>, nodes: u8, period: u32, node: u8) -> Class
    requires nodes { nodes ≤ plan.now.nodes }
    requires period { period < plan.now.periods }
    ensures { result ≡ class_or_first plan.now nodes period node }
{
    if node < nodes {
        plan.class(node, period)
    } else {
        Class::N
    }
}

/// The classes of the nodes in use, with N behind them.
fn classes_of<const N: usize>(plan: &FaultPlan<N>, nodes: u8, period: u32) -> [Class; N]
where
    Nodes: Capacity<N>,
    requires nodes { nodes ≤ plan.now.nodes }
    requires period { period < plan.now.periods }
    ensures { result ≡ map (class_or_first plan.now nodes period) (ids_below N) }
{
    let mut classes = [Class::N; N];
    for node in 0..N as u8 {
        classes[node as usize] = class_of(plan, nodes, period, node);
    }
    classes
}

impl<const N: usize> Head<N>
where
    Nodes: Capacity<N>,
{
    /// The head before the first period of a scenario.
    pub(crate) fn first(scenario: &Scenario<N>) -> Self
        ensures { IsBefore scenario.now 0 result }
    {
        let config = scenario.config();
        Head {
            period: 0,
            nodes: config.nodes,
            m: config.m,
            retire: config.policy.retire,
            tasks: config.graph.len(),
            reference: None,
            members: NodeSet::empty(),
            budget: no_members(),
            within: false,
            claim: true,
            classes: [Class::N; N],
            clock: first_clocks(scenario),
        }
    }

    /// Begins a period of the scenario, into which the nodes go with these states. The clocks stay
    /// as the period before it has left them.
    ///
    /// The head must be that of the period before.
    pub fn begin(&mut self, scenario: &Scenario<N>, period: u32, states: &SharedStates<N>)
        requires in_run { period < scenario.now.periods }
        requires before { IsBefore scenario.now period self.old }
        requires states { AreBegun scenario.now period states.now }
        ensures { IsBegun scenario.now period self.new }
    {
        let plan = scenario.plan();
        let reference = plan.reference(period);
        let members = members_of(states, reference);
        let budget = plan.budget(&members, period);
        self.period = period;
        self.reference = reference;
        self.members = members;
        self.budget = budget;
        self.within = budget.holds(self.m);
        self.claim = self.claim && self.within;
        self.classes = classes_of(plan, self.nodes, period);
    }
}
