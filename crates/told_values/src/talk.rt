//! What the fault plan does to the frames of a slot.

ghost use Rattle.std.specs.Prelude.{◌≡◌, ◌<◌, not};
ghost use Rattle.slot_plan.specs.Slots.{slot_count};
ghost use Rattle.fault_classes.specs.Change.{is_untouched};
ghost use Rattle.fault_classes.specs.Plan.{each_in_slot};

use fault_classes::FaultPlan;

/// What the fault plan does to the frames of a slot of a period, of so many nodes.
#[derive(Drop)]
pub(crate) struct Talk<'a, const N: usize> {
    pub(crate) plan: &'a FaultPlan<N>,
    pub(crate) period: u32,
    pub(crate) slot: u8,
    pub(crate) nodes: u8,
    ghost in_plan: { period < plan.now.periods },
    ghost in_period: { slot < slot_count plan.now.rounds },
    ghost of_plan: { nodes ≡ plan.now.nodes },
}

impl<'a, const N: usize> Talk<'a, N> {
    /// Whether no line touches a frame of a sender.
    fn spares(&self, from: u8) -> bool
        requires { from < self.now.nodes }
        ensures { result ≡
            each_in_slot self.now.plan.now is_untouched self.now.period from self.now.slot }
    {
        for to in 0..self.nodes {
            if to != from && self.plan.effect(self.period, self.slot, from, to).is_some() {
                return false;
            }
        }
        true
    }

    /// Whether a line touches a frame of a sender.
    pub(crate) fn touches(&self, from: u8) -> bool
        requires { from < self.now.nodes }
        ensures { result ≡
            not (each_in_slot self.now.plan.now is_untouched self.now.period from self.now.slot) }
    {
        if self.plan.clean(from, self.period) {
            return false;
        }
        !self.spares(from)
    }
}
