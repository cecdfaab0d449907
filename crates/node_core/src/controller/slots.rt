//! What a slot's end takes of what the slot says.

ghost use Rattle.std.specs.Prelude.{◌≡◌, ◌+◌, ◌*◌, ◌<◌, true};
ghost use Rattle.node_steps.specs.Sound.{IsSound};
ghost use Rattle.node_steps.specs.Steps.{shut, slot_taken};

use super::Controller;
use node_grid::{Capacity, Nodes};
use slot_plan::Slot;

impl<'c, const N: usize> Controller<'c, N> {
    /// Closes the open slot, which isn't the last one of the period, and takes what it says.
    pub(super) fn take_slot(&mut self)
    where
        Nodes: Capacity<N>,
        requires sound { IsSound self.old }
        requires open { self.old.phase.is_open ≡ true }
        requires early { self.old.phase.slot < 2 * self.old.config.m + 3 }
        ensures { self.new ≡ slot_taken (shut self.old) }
    {
        match self.phase.slot {
            Slot::Sync => self.hear_states(),
            Slot::Claims(round) => self.hear_claims(round),
            Slot::Data => self.hear_values(),
            Slot::Rows(round) => self.hear_rows(round),
        }
    }
}
