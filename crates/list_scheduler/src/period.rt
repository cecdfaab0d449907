//! A whole period of the schedule, task by task.

ghost use Rattle.std.specs.Prelude.{◌≡◌, ℕ, ◌+◌, ◌%◌, ◌==◌, ◌<◌, ◌&&◌, true, false, length, None};
ghost use Rattle.std.specs.Prelude.{is_some};
ghost use Rattle.std.specs.List.{list_all};
ghost use Rattle.node_grid.specs.NodeSet.{has_id, ids_where};
ghost use Rattle.task_graph.specs.Graph.{GraphView, task_at};
ghost use Rattle.list_scheduler.specs.declared.copies.CopyState.TheVariants.{Idle, Running};
ghost use Rattle.list_scheduler.specs.Copies.{copy_at, table, works, running, with_copy, IsCopies};
ghost use Rattle.list_scheduler.specs.Schedule.{claim_of, worked_on, left_copy, finished};
ghost use Rattle.list_scheduler.specs.Schedule.{is_eligible, picked, copies_after};
ghost use Rattle.list_scheduler.specs.ByTask.{moved_state, moved, moved_task, is_open, started};

use crate::schedule::next_state;
use crate::{Copies, CopyState};
use node_grid::{Capacity, NodeSet, Nodes};
use omh_paths::Wrapped;
use task_graph::TaskGraph;

// A node's settled claim of a period, and whether the node was a member before it and is one after.
#[derive(Clone, Copy)]
struct NodeClaim {
    was: bool,
    is: bool,
    claim: Wrapped<u8>,
}

impl<const N: usize> Copies<N>
where
    Nodes: Capacity<N>,
{
    /// A whole period: the settled claims of the members `before` complete copies, what then runs
    /// on nodes outside the members `after` fails, all copies are idle again where a frame ends,
    /// and each member that runs nothing starts its next task.
    pub fn step(
        &mut self,
        graph: &TaskGraph<N>,
        before: &NodeSet<N>,
        after: &NodeSet<N>,
        claims: &[Wrapped<u8>; N],
        frame_ends: bool,
    )
        requires copies { IsCopies graph.now self.old }
        ensures { (frame p : ℕ) → frame_ends ≡ ((p + 1) % frame == 0) → self.new
            ≡ copies_after N graph.now frame p before.now after.now self.old claims.now }
    {
        // Proofs need here that the members are a set.
        let _ = after.len();
        let busy = self.move_all(graph, before, after, claims);
        if frame_ends {
            self.frame_end();
            self.start_on(graph, after);
        } else {
            self.start_on(graph, &after.minus(&busy));
        }
    }

    // Completes copies and fails those that then run outside the members `after`; answers the nodes
    // that run one.
    fn move_all(
        &mut self,
        graph: &TaskGraph<N>,
        before: &NodeSet<N>,
        after: &NodeSet<N>,
        claims: &[Wrapped<u8>; N],
    ) -> NodeSet<N>
        requires copies { IsCopies graph.now self.old }
        ensures copies { self.new ≡ table N
            (moved graph.now before.now after.now self.old claims.now) }
        ensures busy { result ≡ ids_where (λ q. is_some (works self.new q)) N }
    {
        // Proofs need here that the copies are a table.
        let _ = &self.rows;
        let mut busy = NodeSet::empty();
        for t in 0..graph.len() {
            busy = busy.union(&self.move_task(graph, t, before, after, claims));
        }
        busy
    }

    // The same for the copies of task `t` alone.
    fn move_task(
        &mut self,
        graph: &TaskGraph<N>,
        t: u8,
        before: &NodeSet<N>,
        after: &NodeSet<N>,
        claims: &[Wrapped<u8>; N],
    ) -> NodeSet<N>
        requires task { t < length graph.now.tasks }
        requires idle { (q : ℕ) → has_id (task_at graph.now.tasks t).nodes q ≡ false →
            copy_at self.old t q ≡ Idle }
        ensures copies { self.new ≡ table N
            (moved_task t graph.now before.now after.now self.old claims.now) }
        ensures busy { result ≡ ids_where
            (λ q. is_some (running (moved graph.now before.now after.now self.old claims.now t q)))
            N }
    {
        // Proofs need here that the copies are a table.
        let _ = &self.rows;
        let mut busy = NodeSet::empty();
        for node in graph.task(t).nodes.iter() {
            let claim = claims[node as usize];
            let claimed = NodeClaim {
                was: before.has(node),
                is: after.has(node),
                claim,
            };
            if self.move_copy(graph, t, node, claimed) {
                busy.put(node);
            }
        }
        busy
    }

    // The same for one copy, by its node's claim; answers whether it runs.
    fn move_copy(&mut self, graph: &TaskGraph<N>, t: u8, node: u8, claimed: NodeClaim) -> bool
        requires task { t < length graph.now.tasks }
        requires node { node < N }
        ensures copies { self.new ≡ table N
            (with_copy self.old t node (moved_state graph.now t claimed.was claimed.is claimed.claim
            (copy_at self.old t node))) }
        ensures runs { result ≡ is_some (running
            (moved_state graph.now t claimed.was claimed.is claimed.claim
            (copy_at self.old t node))) }
    {
        // Proofs need here that the copies are a table, and that the graph is one.
        let _ = &self.rows;
        let _ = graph.len();
        let CopyState::Running(periods) = self.at(t, node) else {
            return false;
        };
        let state = state_after(graph, t, periods, claimed);
        self.set(t, node, state);
        state.is_running()
    }

    // Starts on each of these nodes, on which no copy runs, the least task that it may start.
    pub(crate) fn start_on(&mut self, graph: &TaskGraph<N>, nodes: &NodeSet<N>)
        requires free { (q : ℕ) → has_id nodes.now q ≡ true → works self.old q ≡ None }
        ensures { self.new ≡ table N (picked graph.now nodes.now self.old) }
    {
        // Proofs need here that the copies are a table, and that the nodes are a set.
        let _ = &self.rows;
        let _ = nodes.len();
        let mut free = *nodes;
        for t in 0..graph.len() {
            let starters = self.starters(graph, t, &free);
            self.start(t, &starters);
            free = free.minus(&starters);
        }
    }

    // Those of the free nodes that may start task `t`.
    fn starters(&self, graph: &TaskGraph<N>, t: u8, free: &NodeSet<N>) -> NodeSet<N>
        requires task { t < length graph.now.tasks }
        ensures { result ≡ ids_where (λ q. has_id free.now q && is_eligible graph.now self.now q t)
            N }
    {
        let open = self.open_nodes(graph, t, free);
        if open.is_empty() {
            return open;
        }
        if self.is_ready(graph, t) {
            open
        } else {
            NodeSet::empty()
        }
    }

    // Those of the free nodes that task `t` allows, and whose copy of it is idle.
    fn open_nodes(&self, graph: &TaskGraph<N>, t: u8, free: &NodeSet<N>) -> NodeSet<N>
        requires task { t < length graph.now.tasks }
        ensures { result ≡ ids_where (λ q. has_id free.now q && is_open graph.now self.now q t) N }
    {
        let mut open = NodeSet::empty();
        for node in graph.task(t).nodes.iter() {
            if free.has(node) && self.at(t, node).is_idle() {
                open.put(node);
            }
        }
        open
    }

    // Whether all predecessors of task `t` are finished.
    fn is_ready(&self, graph: &TaskGraph<N>, t: u8) -> bool
        requires task { t < length graph.now.tasks }
        ensures { result ≡ list_all (finished graph.now self.now)
            (task_at graph.now.tasks t).after }
    {
        for before in graph.task(t).after.iter() {
            if !self.finished(graph, *before) {
                return false;
            }
        }
        true
    }

    // Starts task `t` on these nodes.
    fn start(&mut self, t: u8, nodes: &NodeSet<N>)
        requires task { t < 32 }
        ensures { self.new ≡ table N (started t nodes.now self.old) }
    {
        // Proofs need here that the copies are a table.
        let _ = &self.rows;
        for node in nodes.iter() {
            self.set(t, node, CopyState::Running(1));
        }
    }
}

// A copy of task `t` that ran for so many periods, by its node's claim.
fn state_after<const N: usize>(
    graph: &TaskGraph<N>,
    t: u8,
    periods: u16,
    claimed: NodeClaim,
) -> CopyState
    requires { t < length graph.now.tasks }
    ensures { result ≡ moved_state graph.now t claimed.was claimed.is claimed.claim
        (Running periods) }
{
    let completed = if claimed.was {
        next_state(graph, t, periods, claimed.claim)
    } else {
        CopyState::Running(periods)
    };
    if claimed.is || !completed.is_running() {
        completed
    } else {
        CopyState::Failed
    }
}
