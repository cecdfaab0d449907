//! The slots of claims.

ghost use Rattle.std.specs.Prelude.{◌≡◌, ◌+◌, ◌≤◌, true, IfSome};
ghost use Rattle.agreed_state.specs.Agreed.{IsAgreed};
ghost use Rattle.protocol.specs.Arrival.{claim_form};
ghost use Rattle.relaying.specs.Hearing.{after_round};
ghost use Rattle.node_steps.specs.Sound.{IsSound, Hears};
ghost use Rattle.node_steps.specs.Steps.{shut, taken, claims_known};
ghost use Rattle.node_core.specs.Closing.{IsDoneClosed};

use super::Controller;
use data_slot::{KeptValues, due_channels, own_values};
use node_grid::kind::EQUIVOCATE;
use node_grid::{Capacity, Nodes};
use noting::{note_found, note_verdicts};
use relay_terms::Term;
use relaying::{claims_of, hear_round, settle};

impl<'c, const N: usize> Controller<'c, N>
where
    Nodes: Capacity<N>,
{
    /// Closes a slot of claims, and takes what it says, and after the last one what follows from
    /// the claims.
    pub(super) fn hear_claims(&mut self, round: u8)
        requires sound { IsSound self.old }
        requires open { self.old.phase.is_open ≡ true }
        requires slot { self.old.phase.slot ≡ 1 + round }
        requires round { round ≤ self.old.config.m }
        ensures { self.new ≡ taken (shut self.old) self.old.phase.before }
    {
        let found = self.watch.close();
        if self.phase.before.is_none() {
            return;
        }
        note_found(&mut self.found.notes, &found);
        if round < self.config.m {
            hear_round(&mut self.done, &self.watch, round);
        } else {
            self.know_claims();
        }
    }

    /// Settles the claims by what was heard of them and by the last slot, which was closed, and
    /// takes what follows from them.
    fn know_claims(&mut self)
        requires agreed { IfSome self.old.phase.before (λ a. IsAgreed N self.old.config a) }
        requires hears { IfSome self.old.phase.before
            (λ a. Hears self.old.done self.old.phase.me a) }
        requires closed { IsDoneClosed self.old.done.rounds self.old }
        ensures { IfSome self.old.phase.before (λ a. self.new ≡ claims_known self.old
            (after_round claim_form self.old.done.nodes self.old.arrived self.old.done.rounds
            self.old.done) a) }
    {
        let Some(agreed) = &self.phase.before else {
            return;
        };
        let mut items = [Term::nothing(); N];
        let guilty = settle(&mut self.done, &self.watch, &mut items);
        let claims = claims_of(&items);
        let preview = agreed.preview(self.config, &claims);
        note_verdicts(&mut self.found.notes, &preview.verdicts);
        self.found.notes.note_all(&guilty, EQUIVOCATE);
        self.found.claims = claims;
        self.found.due = due_channels(self.config, preview.finished_now);
        let kept = KeptValues {
            votes: &self.kept.votes,
            owns: &self.kept.owns,
        };
        self.found.own = own_values(
            self.config,
            self.phase.me,
            self.phase.period,
            &self.phase.inputs,
            &kept,
        );
    }
}
