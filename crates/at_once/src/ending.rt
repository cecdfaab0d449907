//! How a period ends.

ghost use Rattle.std.specs.Prelude.{◌+◌, ℕ, List};
ghost use Rattle.shown_period.specs.Outcomes.{HasBeliefs};
ghost use Rattle.shown_period.specs.Whole.{AreMade};
ghost use Rattle.at_once.specs.Kept.{AreKept};
ghost use Rattle.at_once.specs.Course.{AreReported};
ghost use Rattle.at_once.specs.Ended.{AreForgetting};

use crate::keeping::Keeping;
use crate::period::Period;
use grouped_nodes::{Groups, step};
use node_grid::{Capacity, NodeSet, Nodes};
use shown_period::Made;

impl<const N: usize> Period<'_, N>
where
    Nodes: Capacity<N>,
{
    /// Forgets what the nodes in use kept that aren't awake.
    fn forget_cold(&self, awake: &NodeSet<N>, keeping: &mut Keeping<N>)
        ensures { AreForgetting awake.now keeping.old self.now.scenario.now.config.nodes
            keeping.new }
    {
        for i in 0..self.scenario.config().nodes {
            if !awake.has(i) {
                keeping.forget(i);
            }
        }
    }

    /// Ends the period: each node keeps its state as it is afterwards, and one that stayed Cold
    /// keeps nothing. What was made of the period is whole then.
    pub(crate) fn end(&self, groups: &Groups<N>, made: &mut Made<N>, keeping: &mut Keeping<N>)
        requires { (full : List ℕ) × AreReported self.now.scenario.now self.now.number full made.old
            keeping.old groups.now }
        ensures made { AreMade self.now.scenario.now self.now.number made.new }
        ensures beliefs { HasBeliefs made.new }
        ensures kept { AreKept self.now.scenario.now (self.now.number + 1) made.new.states
            keeping.new }
    {
        made.group = groups.by_node();
        let awake = made.states.awake();
        step(
            self.scenario.config(),
            self.number,
            &mut made.states,
            groups,
            made.beliefs.as_slice(),
        );
        self.forget_cold(&awake, keeping);
        // Proofs need here how many states there are.
        let _ = made.states.awake();
    }
}
