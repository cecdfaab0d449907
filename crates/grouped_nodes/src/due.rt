//! Which channels are due.

ghost use Rattle.std.specs.Prelude.{◌≡◌, ◌<◌, ◌&&◌, not, ℕ, List, length};
ghost use Rattle.omh_paths.specs.declared.wrapped.Wrapped.{Wrapped};
ghost use Rattle.list_scheduler.specs.Schedule.{copies_completed, finished};
ghost use Rattle.agreed_state.specs.Config.{IsConfig, IsChannel};
ghost use Rattle.protocol.specs.Configured.{setting_of};
ghost use Rattle.protocol.specs.View.{due_channels, is_due};

use agreed_state::{Agreed, Config};
use arrayvec::ArrayVec;
use list_scheduler::Copies;
use mme_vote::Channel;
use node_grid::{Capacity, Nodes};
use task_graph::TaskGraph;

/// Whether a task isn't finished before completion, and is after it.
fn finishes<const N: usize>(
    graph: &TaskGraph<N>,
    before: &Copies<N>,
    after: &Copies<N>,
    task: u8,
) -> bool
where
    Nodes: Capacity<N>,
    requires task { task < length graph.now.tasks }
    ensures { result ≡ (not (finished graph.now before.now task) &&
        finished graph.now after.now task) }
{
    !before.finished(graph, task) && after.finished(graph, task)
}

/// Whether a channel is due to nodes of this state, where completion by what they settle of the
/// claims leaves these copies: it has no task, or this finishes its task.
fn is_due<const N: usize>(
    config: &Config<N>,
    state: &Agreed<N>,
    after: &Copies<N>,
    channel: &Channel<N>,
) -> bool
where
    Nodes: Capacity<N>,
    requires channel { IsChannel config.now.nodes (length config.now.graph.tasks) channel.now }
    ensures { (done : List (Wrapped ℕ)) → after.now ≡ copies_completed N config.now.graph
        state.now.standing.members state.now.copies done →
        result ≡ is_due (setting_of config.now) state.now done channel.now }
{
    match channel.task() {
        None => true,
        Some(task) => finishes(&config.graph, &state.copies, after, task),
    }
}

/// The channels that are due to nodes of this state, in ascending order, where completion by what
/// they settle of the claims leaves these copies.
pub(crate) fn due_after<const N: usize>(
    config: &Config<N>,
    state: &Agreed<N>,
    after: &Copies<N>,
) -> ArrayVec<u8, 8>
where
    Nodes: Capacity<N>,
    requires config { IsConfig N config.now }
    ensures { (done : List (Wrapped ℕ)) → after.now ≡ copies_completed N config.now.graph
        state.now.standing.members state.now.copies done →
        result.items ≡ due_channels (setting_of config.now) state.now done }
{
    let mut due = ArrayVec::new();
    for c in 0..config.channels.len() {
        if is_due(config, state, after, &config.channels[c]) {
            due.push(c as u8);
        }
    }
    due
}
