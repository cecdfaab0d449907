//! Two nodes, of which one hears the other.

ghost use Rattle.std.specs.Prelude.{◌≡◌, ◌≢◌, ◌<◌, option_map};
ghost use Rattle.fault_classes.specs.Change.{change_of};
ghost use Rattle.told_values.specs.Slot.{slot_of, change_to};

use crate::dues::Dues;
use crate::slot::DataSlot;
use fault_classes::Effect;

/// Two nodes in use, of which one hears the other.
#[derive(Drop)]
pub(crate) struct Link<'s, 'a, D: Dues<N>, const N: usize> {
    pub(crate) slot: &'s DataSlot<'a, D, N>,
    pub(crate) from: u8,
    pub(crate) to: u8,
    ghost sender: { from < slot.now.config.nodes },
    ghost receiver: { to < slot.now.config.nodes },
    ghost apart: { from ≢ to },
}

impl<'s, 'a, D: Dues<N>, const N: usize> Link<'s, 'a, D, N> {
    /// The effect of the line that touches the frame.
    pub(crate) fn effect(&self) -> Option<&Effect>
        ensures { option_map (λ e. change_of e.now) result ≡
            change_to (slot_of D.dues self.now.slot.now) self.now.from self.now.to }
    {
        if !self.slot.is_touched(self.from) {
            return None;
        }
        let talk = self.slot.talk();
        talk.plan.effect(talk.period, talk.slot, self.from, self.to)
    }
}
