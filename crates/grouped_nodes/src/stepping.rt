//! The states after a period.

ghost use Rattle.std.specs.Prelude.{◌≡◌, ℕ, ◌<◌, None, Some};
ghost use Rattle.agreed_state.specs.Config.{IsConfig};
ghost use Rattle.agreed_state.specs.Agreed.{AgreedView, IsAgreed, agreed_after};
ghost use Rattle.shared_states.specs.declared.belief.Belief.{Belief};
ghost use Rattle.shared_states.specs.Sharing.{state_at, AreAgreed};
ghost use Rattle.grouped_nodes.specs.Shared.{AreGrouped, belief_of};

use crate::Groups;
use agreed_state::{Agreed, Config};
use node_grid::{Capacity, Nodes};
use shared_states::{Belief, SharedStates};

/// Takes a state through a period, by what its nodes believe.
fn step_by<const N: usize>(
    config: &Config<N>,
    period: u32,
    state: &mut Agreed<N>,
    belief: &Belief<N>,
)
where
    Nodes: Capacity<N>,
    requires config { IsConfig N config.now }
    requires agreed { IsAgreed N config.now state.old }
    ensures after { state.new ≡ agreed_after N config.now period state.old belief.now.done
        belief.now.rows }
    ensures agreed { IsAgreed N config.now state.new }
{
    state.step(config, period, &belief.done, &belief.rows);
}

/// Gives each node the state after a period, worked out once for each group of nodes that went
/// through it with one state and settled the claims and the rows alike. What they settled stands in
/// the belief at the group's first.
pub fn step<const N: usize>(
    config: &Config<N>,
    period: u32,
    states: &mut SharedStates<N>,
    groups: &Groups<N>,
    beliefs: &[Belief<N>],
)
where
    Nodes: Capacity<N>,
    requires config { IsConfig N config.now }
    requires grouped { AreGrouped config.now groups.now states.old beliefs.now }
    ensures stepped { (i : ℕ) (a : AgreedView) (d : Belief N) → i < N →
        state_at states.old i ≡ Some a → state_at states.new i
        ≡ Some (agreed_after N config.now period a
        (belief_of d beliefs.now groups.now i).done (belief_of d beliefs.now groups.now i).rows) }
    ensures cold { (i : ℕ) → i < N → state_at states.old i ≡ None → state_at states.new i ≡ None }
    ensures agreed { AreAgreed config.now states.new }
{
    // Proofs need here that firsts are firsts of their own.
    let _ = groups.of(0);
    for first in 0..N as u8 {
        if groups.is_first(first) {
            if let Some(state) = states.get(first) {
                let mut after = *state;
                step_by(config, period, &mut after, &beliefs[first as usize]);
                states.replace(&groups.members_of(first), &after);
            }
        }
    }
    states.join();
}
