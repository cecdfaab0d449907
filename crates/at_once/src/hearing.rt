//! The sync slot of a period.

ghost use Rattle.shown_period.specs.Outcomes.{HasBeliefs};
ghost use Rattle.at_once.specs.Kept.{AreBegun};
ghost use Rattle.at_once.specs.Course.{IsUnvoted, AreSynced, AreLeft};

use crate::keeping::Keeping;
use crate::period::Period;
use heard_states::SyncSlot;
use node_grid::{Capacity, NodeSet, Nodes};
use shown_period::Made;

impl<const N: usize> Period<'_, N>
where
    Nodes: Capacity<N>,
{
    /// Leaves alone the nodes in use that aren't awake, which believe nothing.
    fn leave_cold(&self, made: &mut Made<N>)
        requires { HasBeliefs made.old }
        ensures { AreLeft self.now.scenario.now.config.nodes made.old made.new }
    {
        let awake = made.states.awake();
        // Proofs need here how many nodes there are places for.
        let _ = &made.group[..];
        let _ = &made.found[..];
        for i in 0..self.scenario.config().nodes {
            if !awake.has(i) {
                made.leave(i);
            }
        }
    }

    /// Hears the sync slot: afterwards each node has the state with which it goes through the
    /// period. One that stays Cold believes nothing. The answer is the nodes that were Full.
    pub(crate) fn hear(&self, made: &mut Made<N>, keeping: &mut Keeping<N>) -> NodeSet<N>
        requires begun { AreBegun self.now.scenario.now self.now.number made.old.states
            keeping.old }
        requires beliefs { HasBeliefs made.old }
        ensures synced { AreSynced self.now.scenario.now self.now.number result made.new
            keeping.new.notes }
        ensures unvoted { IsUnvoted self.now.scenario.now self.now.number keeping.new }
        ensures beliefs { HasBeliefs made.new }
    {
        let full = made.states.awake();
        let slot = SyncSlot {
            config: self.scenario.config(),
            plan: self.scenario.plan(),
            period: self.number,
        };
        made.sync = slot.hear(&mut made.states, &mut keeping.notes);
        made.go_through(&full);
        self.leave_cold(made);
        full
    }
}
