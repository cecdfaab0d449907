//! What follows from settled claims.

ghost use Rattle.std.specs.Prelude.{◌≡◌, ℕ, ◌<◌, ◌≤◌, true, false, length, None, Some};
ghost use Rattle.std.specs.Prelude.{if◌then◌else◌, slice_index_or};
ghost use Rattle.node_grid.specs.NodeSet.{has_id};
ghost use Rattle.list_scheduler.specs.OneNode.{verdicts};
ghost use Rattle.list_scheduler.specs.Schedule.{no_verdict};
ghost use Rattle.error_reports.specs.Notes.{Notes, also_noted};
ghost use Rattle.agreed_state.specs.Config.{IsConfig};
ghost use Rattle.agreed_state.specs.Agreed.{AgreedView, IsAgreed};
ghost use Rattle.protocol.specs.Configured.{setting_of};
ghost use Rattle.protocol.specs.View.{due_channels};
ghost use Rattle.shared_states.specs.declared.belief.Belief.{Belief};
ghost use Rattle.shared_states.specs.Sharing.{state_at};
ghost use Rattle.view_law.specs.Made.{by_verdicts};
ghost use Rattle.view_law.specs.Laws.{IsWithin};
ghost use Rattle.grouped_nodes.specs.Shared.{AreGrouped, CanNote, belief_of, notes_at};

use crate::Groups;
use crate::due::due_after;
use agreed_state::{Agreed, Config};
use error_reports::RowBuilder;
use list_scheduler::Verdict;
use node_grid::{Capacity, NodeSet, Nodes};
use noting::note_verdicts;
use shared_states::{Belief, SharedStates};

/// What follows from the settled claims of nodes that have this state: fills in which channels are
/// due, and answers the verdict on each node.
fn follow<const N: usize>(
    config: &Config<N>,
    state: &Agreed<N>,
    belief: &mut Belief<N>,
) -> [Verdict; N]
where
    Nodes: Capacity<N>,
    requires config { IsConfig N config.now }
    requires agreed { IsAgreed N config.now state.now }
    ensures due { belief.new.due.items ≡
        due_channels (setting_of config.now) state.now belief.old.done }
    ensures kept { belief.new ≡ record belief.old { due = belief.new.due } }
    ensures verdicts { result ≡ verdicts N config.now.graph state.now.standing.members
        state.now.copies belief.old.done }
{
    let mut after = state.copies;
    let verdicts = after.complete(&config.graph, &state.members, &belief.done);
    belief.due = due_after(config, state, &after);
    verdicts
}

/// Whether one of the verdicts holds something against its node.
fn blames_any<const N: usize>(judged: &[Verdict; N]) -> bool
    ensures { result ≡ false → (j : ℕ) → j < N →
        slice_index_or judged.now j no_verdict ≡ no_verdict }
{
    for node in 0..N {
        if judged[node].claim || judged[node].overrun {
            return true;
        }
    }
    false
}

/// Notes verdicts on the rows of these nodes.
fn note_on<const N: usize>(notes: &mut [RowBuilder<N>], nodes: &NodeSet<N>, judged: &[Verdict; N])
where
    Nodes: Capacity<N>,
    requires many { length notes.old ≡ N }
    requires kinds { (i : ℕ) → i < N → has_id nodes.now i ≡ true →
        (notes_at notes.old i).kinds ≤ 16 }
    ensures notes { (i : ℕ) → i < N → notes_at notes.new i ≡ (if has_id nodes.now i
        then also_noted N (notes_at notes.old i) (by_verdicts judged.now)
        else notes_at notes.old i) }
    ensures many { length notes.new ≡ N }
{
    for i in 0..N as u8 {
        if nodes.has(i) {
            note_verdicts(&mut notes[i as usize], judged);
        }
    }
}

/// The same, where nothing is looked at if no verdict holds anything against its node.
fn note_all<const N: usize>(notes: &mut [RowBuilder<N>], nodes: &NodeSet<N>, judged: &[Verdict; N])
where
    Nodes: Capacity<N>,
    requires many { length notes.old ≡ N }
    requires kinds { (i : ℕ) → i < N → has_id nodes.now i ≡ true →
        (notes_at notes.old i).kinds ≤ 16 }
    requires within { (i : ℕ) → i < N → has_id nodes.now i ≡ true →
        IsWithin N (notes_at notes.old i) }
    ensures notes { (i : ℕ) → i < N → notes_at notes.new i ≡ (if has_id nodes.now i
        then also_noted N (notes_at notes.old i) (by_verdicts judged.now)
        else notes_at notes.old i) }
    ensures many { length notes.new ≡ N }
{
    if blames_any(judged) {
        note_on(notes, nodes, judged);
    }
}

/// What follows from the settled claims, once for each group of nodes that go through the period
/// with one state and settle the claims alike. The settled claims stand in the belief at the first
/// of the group; there the channels that are due are filled in. The verdicts are noted on each
/// node's row.
pub fn complete<const N: usize>(
    config: &Config<N>,
    states: &SharedStates<N>,
    groups: &Groups<N>,
    beliefs: &mut [Belief<N>],
    notes: &mut [RowBuilder<N>],
)
where
    Nodes: Capacity<N>,
    requires config { IsConfig N config.now }
    requires grouped { AreGrouped config.now groups.now states.now beliefs.old }
    requires notes { CanNote N states.now notes.old }
    ensures due { (i : ℕ) (a : AgreedView) (d : Belief N) → i < N → state_at states.now i ≡ Some a →
        (belief_of d beliefs.new groups.now i).due.items ≡
        due_channels (setting_of config.now) a (belief_of d beliefs.old groups.now i).done }
    ensures kept { (j : ℕ) (d : Belief N) → j < N → slice_index_or beliefs.new j d ≡
        record (slice_index_or beliefs.old j d) { due = (slice_index_or beliefs.new j d).due } }
    ensures nothing { (j : ℕ) (d : Belief N) → state_at states.now j ≡ None →
        slice_index_or beliefs.new j d ≡ slice_index_or beliefs.old j d }
    ensures noted { (i : ℕ) (a : AgreedView) (d : Belief N) → i < N →
        state_at states.now i ≡ Some a → notes_at notes.new i
        ≡ also_noted N (notes_at notes.old i) (by_verdicts (verdicts N
        config.now.graph a.standing.members a.copies (belief_of d beliefs.old groups.now i).done)) }
    ensures cold { (i : ℕ) → i < N → state_at states.now i ≡ None →
        notes_at notes.new i ≡ notes_at notes.old i }
    ensures many_beliefs { length beliefs.new ≡ N }
    ensures many_notes { length notes.new ≡ N }
{
    // Proofs need here that firsts are firsts of their own.
    let _ = groups.of(0);
    for first in 0..N as u8 {
        if groups.is_first(first) {
            if let Some(state) = states.get(first) {
                let judged = follow(config, state, &mut beliefs[first as usize]);
                note_all(notes, &groups.members_of(first), &judged);
            }
        }
    }
}
