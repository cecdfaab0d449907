//! A node's own claim.

ghost use Rattle.std.specs.Prelude.{◌≡◌, ◌<◌, IfSome};
ghost use Rattle.list_scheduler.specs.Copies.{IsCopies, works};
ghost use Rattle.agreed_state.specs.Agreed.{IsAgreed};
ghost use Rattle.agreed_state.specs.declared.config.Inputs.{Inputs};
ghost use Rattle.protocol.specs.View.{claim_at, own_claim};

use agreed_state::{Agreed, Config};
use list_scheduler::{Copies, CopyState};
use node_grid::{Capacity, NO_CLAIM, Nodes};
use task_graph::TaskGraph;

/// The task that a node claims by what it works at, from the task's run time on, or NO_CLAIM for
/// none.
fn claim_at(work: Option<(u8, u16)>, run: &[u16; 32]) -> u8
    requires { IfSome work (λ w. w.0 < 32) }
    ensures { result ≡ claim_at run.now work }
{
    match work {
        None => NO_CLAIM,
        Some((task, periods)) => {
            if run[task as usize] <= periods {
                task
            } else {
                NO_CLAIM
            }
        }
    }
}

/// A node's running copy of the least task: the task, and since how many periods it runs. Only the
/// tasks that there are are looked at.
fn running_in<const N: usize>(
    graph: &TaskGraph<N>,
    copies: &Copies<N>,
    node: u8,
) -> Option<(u8, u16)>
where
    Nodes: Capacity<N>,
    requires copies { IsCopies graph.now copies.now }
    requires node { node < N }
    ensures { result ≡ works copies.now node }
{
    for task in 0..graph.len() {
        if let CopyState::Running(periods) = copies.at(task, node) {
            return Some((task, periods));
        }
    }
    None
}

/// The task that node `me` claims, which goes through a period with this state; NO_CLAIM where it
/// claims none, as a node that is no member. By task `run` has for how many periods it runs it.
pub fn own_claim<const N: usize>(
    config: &Config<N>,
    state: &Agreed<N>,
    me: u8,
    run: &[u16; 32],
) -> u8
where
    Nodes: Capacity<N>,
    requires agreed { IsAgreed N config.now state.now }
    requires me { me < N }
    ensures { (g : Inputs) → g.run ≡ run.now → result ≡ own_claim me g state.now }
{
    if state.members.has(me) {
        claim_at(running_in(&config.graph, &state.copies, me), run)
    } else {
        NO_CLAIM
    }
}
