ghost use Rattle.std.specs.Prelude.{◌≡◌, ℕ, ◌<◌, ◌&&◌, length, is_none};
ghost use Rattle.node_grid.specs.NodeSet.{has_id, ids_where};
ghost use Rattle.task_graph.specs.Graph.{GraphView};
ghost use Rattle.list_scheduler.specs.Copies.{copy_at, table, works, IsCopies};
ghost use Rattle.list_scheduler.specs.Schedule.{no_verdict, claims_task, claims, verdict_at};
ghost use Rattle.list_scheduler.specs.Schedule.{worked_on, completed, finished, picked};
ghost use Rattle.list_scheduler.specs.OneNode.{completed_by, verdicts};

use crate::{Copies, CopyState};
use node_grid::{Capacity, NO_CLAIM, NodeSet, Nodes};
use omh_paths::Wrapped;
use task_graph::TaskGraph;

/// What completion says of a node by its settled claim.
#[derive(Clone, Copy)]
pub struct Verdict {
    /// It claimed a task that it didn't run, or too early.
    pub claim: bool,
    /// It didn't claim its task within the greatest run time.
    pub overrun: bool,
}

impl Verdict {
    // Nothing is held against the node.
    fn none() -> Verdict
        ensures { result ≡ no_verdict }
    {
        Verdict {
            claim: false,
            overrun: false,
        }
    }
}

// Whether a settled claim claims a task.
fn claims_any(claim: Wrapped<u8>) -> bool
    ensures { result ≡ claims_task claim }
{
    match claim {
        Wrapped::Plain(t) => t != NO_CLAIM,
        Wrapped::Fault(_) => false,
    }
}

// Whether a settled claim claims task `t`.
fn claims_this(claim: Wrapped<u8>, t: u8) -> bool
    ensures { result ≡ claims claim t }
{
    match claim {
        Wrapped::Plain(claimed) => claimed == t,
        Wrapped::Fault(_) => false,
    }
}

// The copy of task `t` after this claim of a node that ran it for so many periods.
pub(crate) fn next_state<const N: usize>(
    graph: &TaskGraph<N>,
    t: u8,
    periods: u16,
    claim: Wrapped<u8>,
) -> CopyState
    requires { t < length graph.now.tasks }
    ensures { result ≡ worked_on graph.now t periods claim }
{
    let task = graph.task(t);
    if claims_this(claim, t) {
        if periods < task.min {
            CopyState::Running(periods + 1)
        } else {
            CopyState::Passed
        }
    } else if periods < task.max {
        CopyState::Running(periods + 1)
    } else {
        CopyState::Failed
    }
}

// The verdict on such a node.
fn verdict_on<const N: usize>(
    graph: &TaskGraph<N>,
    t: u8,
    periods: u16,
    claim: Wrapped<u8>,
) -> Verdict
    requires { t < length graph.now.tasks }
    ensures { result ≡ verdict_at graph.now (Some (t, periods)) claim }
{
    let task = graph.task(t);
    if claims_this(claim, t) {
        Verdict {
            claim: periods < task.min,
            overrun: false,
        }
    } else {
        Verdict {
            claim: claims_any(claim),
            overrun: task.max <= periods,
        }
    }
}

impl<const N: usize> Copies<N>
where
    Nodes: Capacity<N>,
{
    /// Whether task `t` is finished: at least as many of its copies passed as it needs, those of
    /// nodes that aren't members too.
    pub fn finished(&self, graph: &TaskGraph<N>, t: u8) -> bool
        requires task { t < length graph.now.tasks }
        ensures { result ≡ finished graph.now self.now t }
    {
        let mut passed = 0;
        for node in 0..graph.nodes() {
            if self.at(t, node).is_passed() {
                passed += 1;
            }
        }
        graph.task(t).need <= passed
    }

    /// Completes copies by the members' settled claims, one for each node, and answers the verdict
    /// on each node.
    ///
    /// A claim is a task, or 255 for none; a `Fault` is an error and claims nothing. A node that
    /// isn't a member keeps its copies and has no verdict.
    pub fn complete(
        &mut self,
        graph: &TaskGraph<N>,
        members: &NodeSet<N>,
        claims: &[Wrapped<u8>; N],
    ) -> [Verdict; N]
        requires copies { IsCopies graph.now self.old }
        ensures copies { self.new ≡ table N (completed graph.now members.now self.old claims.now) }
        ensures kept { IsCopies graph.now self.new }
        ensures verdicts { result ≡ verdicts N graph.now members.now self.old claims.now }
    {
        // Proofs need here that the copies are a table, and that the graph is one.
        let _ = &self.rows;
        let _ = graph.len();
        let mut verdicts = [Verdict::none(); N];
        for node in members.iter() {
            verdicts[node as usize] = self.complete_one(graph, node, claims[node as usize]);
        }
        verdicts
    }

    // The node's running copy of the least task, where there are copies of the graph's tasks alone.
    fn works(&self, graph: &TaskGraph<N>, node: u8) -> Option<(u8, u16)>
        requires node { node < N }
        requires copies { IsCopies graph.now self.now }
        ensures { result ≡ works self.now node }
    {
        for t in 0..graph.len() {
            if let CopyState::Running(periods) = self.at(t, node) {
                return Some((t, periods));
            }
        }
        None
    }

    // Completes one member's copy by its settled claim.
    fn complete_one(&mut self, graph: &TaskGraph<N>, node: u8, claim: Wrapped<u8>) -> Verdict
        requires node { node < N }
        requires copies { IsCopies graph.now self.old }
        ensures copies { self.new ≡ table N (completed_by graph.now node self.old claim) }
        ensures verdict { result ≡ verdict_at graph.now (works self.old node) claim }
    {
        // Proofs need here that the copies are a table.
        let _ = &self.rows;
        let Some((t, periods)) = self.works(graph, node) else {
            return Verdict {
                claim: claims_any(claim),
                overrun: false,
            };
        };
        self.set(t, node, next_state(graph, t, periods, claim));
        verdict_on(graph, t, periods, claim)
    }

    /// Starts for each member without a running copy the least task that it may start: the node is
    /// allowed, its copy is idle, and all predecessors are finished.
    pub fn pick(&mut self, graph: &TaskGraph<N>, members: &NodeSet<N>)
        requires copies { IsCopies graph.now self.old }
        ensures copies { self.new ≡ table N (picked graph.now members.now self.old) }
        ensures kept { IsCopies graph.now self.new }
    {
        // Proofs need here that the graph is one.
        let _ = graph.len();
        let free = self.resting(graph, members);
        self.start_on(graph, &free);
    }

    // The members without a running copy.
    fn resting(&self, graph: &TaskGraph<N>, members: &NodeSet<N>) -> NodeSet<N>
        requires copies { IsCopies graph.now self.now }
        ensures { result ≡ ids_where (λ q. has_id members.now q && is_none (works self.now q)) N }
    {
        let mut resting = NodeSet::empty();
        for node in members.iter() {
            if self.works(graph, node).is_none() {
                resting.put(node);
            }
        }
        resting
    }
}
