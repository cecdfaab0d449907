//! The slots of rows.

ghost use Rattle.std.specs.Prelude.{◌≡◌, ◌+◌, ◌<◌, true};
ghost use Rattle.node_steps.specs.Sound.{IsSound};
ghost use Rattle.node_steps.specs.Steps.{shut, taken};

use super::Controller;
use node_grid::{Capacity, Nodes};
use noting::carry_found;
use relaying::hear_round;

impl<'c, const N: usize> Controller<'c, N> {
    /// Closes a slot of rows that isn't the last one, and takes what it says.
    pub(super) fn hear_rows(&mut self, round: u8)
    where
        Nodes: Capacity<N>,
        requires sound { IsSound self.old }
        requires open { self.old.phase.is_open ≡ true }
        requires slot { self.old.phase.slot ≡ self.old.config.m + 3 + round }
        requires round { round < self.old.config.m }
        ensures { self.new ≡ taken (shut self.old) self.old.phase.before }
    {
        let found = self.watch.close();
        if self.phase.before.is_none() {
            return;
        }
        carry_found(&mut self.found.notes, &found);
        hear_round(&mut self.rows, &self.watch, round);
    }
}
