//! The end of a period.

ghost use Rattle.std.specs.Prelude.{◌≡◌, ◌+◌, ◌*◌, true, IfSome, if◌then◌else◌};
ghost use Rattle.agreed_state.specs.Agreed.{IsAgreed};
ghost use Rattle.protocol.specs.Arrival.{row_form};
ghost use Rattle.protocol.specs.View.Mode.{Full as ViewFull, Joining as ViewJoining};
ghost use Rattle.node_core.specs.Modes.{mode_of};
ghost use Rattle.relaying.specs.Hearing.{after_round};
ghost use Rattle.node_steps.specs.Sound.{IsSound, Hears};
ghost use Rattle.node_steps.specs.Steps.{after_slot, ended, ended_cold};
ghost use Rattle.node_core.specs.Closing.{IsReportClosed};

use super::{Controller, Keeping};
use crate::outcome::{Mode, NodeRecord, copied};
use node_grid::kind::EQUIVOCATE;
use node_grid::{Capacity, Nodes};
use noting::carry_found;
use relay_terms::Term;
use relaying::{rows_of, settle};

/// How a node goes through a period with an agreed state.
fn mode_through(full: bool) -> Mode
    ensures { mode_of result ≡ (if full then ViewFull else ViewJoining) }
{
    if full { Mode::Full } else { Mode::Joining }
}

impl<'c, const N: usize> Controller<'c, N>
where
    Nodes: Capacity<N>,
{
    /// Closes the last slot of a period, takes what it says, and ends the period.
    pub(super) fn end_period(&mut self)
        requires sound { IsSound self.old }
        requires open { self.old.phase.is_open ≡ true }
        requires last { self.old.phase.slot ≡ 2 * self.old.config.m + 3 }
        ensures { self.new ≡ after_slot self.old }
    {
        let found = self.watch.close();
        if self.phase.before.is_some() {
            carry_found(&mut self.found.notes, &found);
            self.end_with_state();
        } else {
            self.end_cold();
        }
        self.watch.forget();
        self.phase.is_open = false;
    }

    /// Settles the rows by what was heard of them and by the last slot, which was closed, and ends
    /// the period of a node that went through it with a state.
    fn end_with_state(&mut self)
        requires agreed { IfSome self.old.phase.before (λ a. IsAgreed N self.old.config a) }
        requires hears { IfSome self.old.phase.before
            (λ a. Hears self.old.rows self.old.phase.me a) }
        requires closed { IsReportClosed self.old.rows.rounds self.old }
        ensures { IfSome self.old.phase.before (λ a. self.new ≡ ended self.old
            (after_round row_form self.old.rows.nodes self.old.arrived self.old.rows.rounds
            self.old.rows) a) }
    {
        let Some(agreed) = &self.phase.before else {
            return;
        };
        let mut items = [Term::nothing(); N];
        let guilty = settle(&mut self.rows, &self.watch, &mut items);
        let rows = rows_of(&items);
        let mut notes = self.found.notes;
        notes.carry_all(&guilty, EQUIVOCATE);
        let mut after = *agreed;
        after.step(self.config, self.phase.period, &self.found.claims, &rows);
        self.kept = Keeping {
            state: Some(after),
            notes,
            votes: self.found.votes,
            owns: self.found.own,
        };
        self.outcome = NodeRecord {
            mode: mode_through(self.phase.full),
            agreed: Some(after),
            members: agreed.members,
            done: self.found.claims,
            rows,
            due: copied(self.found.due.as_slice()),
            votes: self.found.votes,
            found: self.found.notes.row(),
            sync: self.found.sync,
        };
    }

    /// Ends the period of a node that stayed Cold: it keeps nothing.
    fn end_cold(&mut self)
        ensures { self.new ≡ ended_cold self.old }
    {
        self.restart();
        let mut outcome = NodeRecord::cold();
        outcome.sync = self.found.sync;
        self.outcome = outcome;
    }
}
