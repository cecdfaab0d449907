//! From slot to slot, and from period to period.

ghost use Rattle.std.specs.Prelude.{◌≡◌, ◌+◌, ◌≤◌, true, length};
ghost use Rattle.slot_plan.specs.Slots.{slot_number, IsSlot};
ghost use Rattle.frames.specs.Seen.{expected};
ghost use Rattle.node_steps.specs.Sound.{IsSound, IsTaken};
ghost use Rattle.node_steps.specs.Steps.{after_slot, begun, expected_in, slot_open};

use super::{Controller, Findings, Phase};
use agreed_state::Inputs;
use frames::Expect;
use node_grid::{Capacity, NodeSet, Nodes};
use slot_plan::Slot;

impl<'c, const N: usize> Controller<'c, N>
where
    Nodes: Capacity<N>,
{
    /// Begins a period, and opens its first slot.
    pub fn begin(&mut self, period: u32, inputs: &Inputs)
        ensures { self.new ≡ begun self.old period inputs.now }
    {
        let me = self.phase.me;
        let expect = self.config.expect(period, 0, me, &NodeSet::empty(), 0);
        self.watch.open_slot(&expect);
        self.phase = Phase {
            me,
            period,
            slot: Slot::Sync,
            is_open: true,
            inputs: *inputs,
            full: self.kept.state.is_some(),
            before: self.kept.state,
        };
        let mut notes = self.kept.notes;
        notes.next_period();
        self.found = Findings::none(notes);
    }

    /// What it expects of the frames of a slot of the period.
    pub(super) fn expectation(&self, slot: Slot) -> Expect<N>
        requires slot { IsSlot self.now.config.m slot }
        requires due { length self.now.found.due ≤ 8 }
        ensures { expected result ≡ expected_in self.now (slot_number self.now.config.m slot) }
    {
        let number = slot.number(self.config.m);
        let due = self.found.due.len() as u8;
        let members = self.members();
        self.config
            .expect(self.phase.period, number, self.phase.me, &members, due)
    }

    /// Opens a slot after the first one.
    fn open_slot(&mut self, slot: Slot)
        requires slot { IsSlot self.old.config.m slot }
        requires next { slot_number self.old.config.m slot ≡ self.old.phase.slot + 1 }
        requires taken { IsTaken self.old }
        ensures { self.new ≡ slot_open self.old (slot_number self.old.config.m slot) }
    {
        let expect = self.expectation(slot);
        self.watch.open_slot(&expect);
        self.phase.slot = slot;
    }

    /// Ends the open slot: takes what it says, and opens the next one, or ends the period.
    pub fn end_slot(&mut self)
        requires sound { IsSound self.old }
        requires open { self.old.phase.is_open ≡ true }
        ensures { self.new ≡ after_slot self.old }
    {
        let number = self.phase.slot.number(self.config.m);
        match Slot::at(self.config.m, number + 1) {
            Some(next) => {
                self.take_slot();
                self.open_slot(next);
            }
            None => self.end_period(),
        }
    }
}
