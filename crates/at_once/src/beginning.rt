//! How a period begins.

ghost use Rattle.std.specs.Prelude.{◌<◌};
ghost use Rattle.at_once.specs.Kept.{AreKept, AreBegun, IsBegunAt};

use crate::keeping::Keeping;
use crate::period::Period;
use node_grid::{Capacity, Nodes};
use shared_states::SharedStates;

impl<const N: usize> Period<'_, N>
where
    Nodes: Capacity<N>,
{
    /// Begins the period for a node, which forgets all where it restarts.
    fn begin_at(&self, i: u8, states: &mut SharedStates<N>, keeping: &mut Keeping<N>)
        requires { i < self.now.scenario.now.config.nodes }
        ensures { IsBegunAt self.now.scenario.now self.now.number i states.old keeping.old
            states.new keeping.new }
    {
        // Proofs need here how many states there are.
        let _ = states.awake();
        if self.scenario.plan().restarts(i, self.number) {
            states.forget(i);
            keeping.forget(i);
        } else {
            keeping.notes[i as usize].next_period();
        }
    }

    /// Begins the period for all nodes.
    pub(crate) fn begin(&self, states: &mut SharedStates<N>, keeping: &mut Keeping<N>)
        requires { AreKept self.now.scenario.now self.now.number states.old keeping.old }
        ensures { AreBegun self.now.scenario.now self.now.number states.new keeping.new }
    {
        for i in 0..self.scenario.config().nodes {
            self.begin_at(i, states, keeping);
        }
    }
}
