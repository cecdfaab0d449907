//! The slot of agreed states.

ghost use Rattle.std.specs.Prelude.{◌≡◌, ◌≤◌, true, false, None, IfSome, if◌then◌else◌, length};
ghost use Rattle.error_detect.specs.Watching.{told_at, IsHeardBy};
ghost use Rattle.agreed_state.specs.Agreed.{IsAgreed};
ghost use Rattle.agreed_state.specs.Config.{IsConfig};
ghost use Rattle.protocol.specs.Arrival.{arrived, body_said};
ghost use Rattle.protocol.specs.Configured.{setting_of};
ghost use Rattle.protocol.specs.View.{adopted_by, content};
ghost use Rattle.noting.specs.Findings.{has_of};
ghost use Rattle.node_steps.specs.Sound.{IsSound};
ghost use Rattle.node_steps.specs.Steps.{after_sync, shut};

use super::{Controller, Phase};
use crate::adopting::adopt;
use crate::claim::own_claim;
use agreed_state::{Agreed, Config};
use error_detect::SlotWatch;
use node_grid::{Capacity, Nodes};
use noting::{good_senders, note_states};

/// The state with which a node goes through a period: the one that it keeps where it had one when
/// the period began, and else one that it adopts from the closed sync slot, if it can.
fn state_of_period<const N: usize>(
    config: &Config<N>,
    watch: &SlotWatch<N>,
    phase: &Phase<N>,
    kept: &Option<Agreed<N>>,
) -> Option<Agreed<N>>
where
    Nodes: Capacity<N>,
    requires config { IsConfig N config.now }
    requires kept { IfSome kept.now (λ a. IsAgreed N config.now a) }
    requires watching { IsHeardBy watch.now config.now.nodes phase.now.me }
    requires sized { (j : _) →
        IfSome (content (arrived body_said None (told_at watch.now j))) (λ b. length b ≤ 1152) }
    ensures state { result ≡ (if phase.now.full then kept.now
        else adopted_by (setting_of config.now) phase.now.me (has_of body_said watch.now)) }
    ensures agreed { IfSome result (λ a. IsAgreed N config.now a) }
{
    if phase.full {
        *kept
    } else {
        adopt(config, watch, phase.me)
    }
}

impl<'c, const N: usize> Controller<'c, N> {
    /// Closes the sync slot, and takes what it says. A node that goes on with a state notes what
    /// the slot says against it, and starts to hear claims.
    pub(super) fn hear_states(&mut self)
    where
        Nodes: Capacity<N>,
        requires sound { IsSound self.old }
        requires open { self.old.phase.is_open ≡ true }
        requires slot { self.old.phase.slot ≡ 0 }
        ensures { self.new ≡ after_sync (shut self.old) }
    {
        let found = self.watch.close();
        let me = self.phase.me;
        self.found.sync = good_senders(&found, me, self.config.nodes);
        self.phase.before = state_of_period(
            self.config,
            &self.watch,
            &self.phase,
            &self.kept.state,
        );
        let Some(agreed) = &self.phase.before else {
            return;
        };
        let body = agreed.body(self.config);
        note_states(&mut self.found.notes, &self.watch, &found, body.as_slice());
        let claim = own_claim(agreed, me, &self.phase.inputs);
        self.done.start(&agreed.members, me, self.phase.full, claim);
    }
}
