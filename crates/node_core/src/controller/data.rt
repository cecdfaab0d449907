//! The slot of values.

ghost use Rattle.std.specs.Prelude.{◌≡◌, ◌+◌, true};
ghost use Rattle.node_steps.specs.Sound.{IsSound};
ghost use Rattle.node_steps.specs.Steps.{shut, taken};

use super::Controller;
use data_slot::DataSlot;
use node_grid::{Capacity, Nodes};
use noting::note_values;

impl<'c, const N: usize> Controller<'c, N> {
    /// Closes the data slot: votes on the due channels, notes what is against the others, finishes
    /// the node's own row, and starts the table of rows.
    pub(super) fn hear_values(&mut self)
    where
        Nodes: Capacity<N>,
        requires sound { IsSound self.old }
        requires open { self.old.phase.is_open ≡ true }
        requires slot { self.old.phase.slot ≡ self.old.config.m + 2 }
        ensures { self.new ≡ taken (shut self.old) self.old.phase.before }
    {
        let found = self.watch.close();
        let Some(agreed) = &self.phase.before else {
            return;
        };
        let slot = DataSlot {
            me: self.phase.me,
            full: self.phase.full,
            due: self.found.due.as_slice(),
            own: &self.found.own,
        };
        let voted = slot.vote(&self.watch, self.config, agreed, &self.found.claims);
        let mut notes = self.found.notes;
        note_values(&mut notes, &found, &voted.off);
        if !self.phase.full {
            notes.accuse_nobody();
        }
        self.found.notes = notes;
        self.found.votes = voted.votes;
        self.rows.start(&agreed.members, self.phase.me, self.phase.full, notes.row());
    }
}
