//! The data slot of a period.

ghost use Rattle.std.specs.Prelude.{◌≡◌, ◌<◌, ℕ, List, Option, true, Some, []};
ghost use Rattle.std.specs.Prelude.{replicate};
ghost use Rattle.std.specs.Prelude.{slice_index_or, if◌then◌else◌, ◌⊎◌};
ghost use Rattle.node_grid.specs.NodeSet.{has_id};
ghost use Rattle.agreed_state.specs.Agreed.{AgreedView, IsAgreed};
ghost use Rattle.protocol.specs.Configured.{setting_of};
ghost use Rattle.protocol.specs.View.{Received, own_values};
ghost use Rattle.scenario.specs.Scenario.{inputs_of};
ghost use Rattle.shared_states.specs.Sharing.{state_at, AreAgreed};
ghost use Rattle.grouped_nodes.specs.Shared.{AreShared};
ghost use Rattle.told_values.specs.Slot.{slot_of, AreOwnTold, Hears};
ghost use Rattle.told_values.specs.Within.{IsWithin};
ghost use Rattle.at_once.specs.Kept.{notes_at, of_node, AreShaped};
ghost use Rattle.at_once.specs.Course.{IsUnvoted, AreSettled, AreVoted};
ghost use Rattle.at_once.specs.Values.{done_at, HearEach, IsVoteOf, IsNotedOf};

use crate::dues::GroupDues;
use crate::keeping::Keeping;
use crate::period::Period;
use crate::votes::{Votes, each_alone};
use agreed_state::Agreed;
use data_slot::{KeptValues, own_values};
use error_reports::RowBuilder;
use grouped_nodes::Groups;
use node_grid::{Capacity, NodeSet, Nodes, Row};
use omh_paths::Wrapped;
use shared_states::SharedStates;
use shown_period::Made;
use told_values::laws::hears;
use told_values::{DataSlot, Dues, touched_senders};
use view_law::{cold, through};

/// What a node votes on each channel, and the nodes of which a value is too far from that.
#[derive(Clone, Copy)]
struct Voted<const N: usize> {
    votes: [Option<i64>; 8],
    off: NodeSet<N>,
}

/// What a node votes that goes through the period with this state and settles these claims.
fn vote_at<D: Dues<N>, const N: usize>(
    slot: &DataSlot<'_, D, N>,
    i: u8,
    state: &Agreed<N>,
    claims: &[Wrapped<u8>; N],
    own: &[Option<[i64; 8]>; N],
) -> Voted<N>
where
    Nodes: Capacity<N>,
    requires node { i < slot.now.config.nodes }
    requires agreed { IsAgreed N slot.now.config state.now }
    requires own { AreOwnTold (slot_of D.dues slot.now) own.now }
    ensures { (x : Received) → Hears (slot_of D.dues slot.now) i x →
        IsVoteOf (slot_of D.dues slot.now) state.now claims.now i x result.votes result.off }
{
    let told = slot.told(i, own);
    let votes = slot.vote(i, state, claims, &told);
    let off = slot.off(i, &told, &votes);
    Voted { votes, off }
}

/// Whose votes serve later nodes of the group: those of the node that voted last where no line
/// touches a frame to it, or else those of the one before.
fn leader_after<D: Dues<N>, const N: usize>(slot: &DataSlot<'_, D, N>, before: u8, last: u8) -> u8
    requires { last < slot.now.config.nodes }
    ensures { (result ≡ last) ⊎ (result ≡ before) }
{
    if slot.is_untouched(last) {
        last
    } else {
        before
    }
}

/// What each node votes that has a state, and the nodes that are off at it; others have the votes
/// of before. What the first node of a group votes to which no line touches a frame serves each
/// later one that hears as it does.
fn vote_each<D: Dues<N>, const N: usize>(
    slot: &DataSlot<'_, D, N>,
    dues: &GroupDues<'_, N>,
    states: &SharedStates<N>,
    before: &Votes<N>,
    off: &mut [NodeSet<N>; N],
) -> Votes<N>
where
    Nodes: Capacity<N>,
    requires agreed { AreAgreed slot.now.config states.now }
    requires shared { AreShared N dues.now.0 states.now }
    ensures { (x : ℕ → Received) → HearEach (slot_of D.dues slot.now) x →
        (i : ℕ) (a : AgreedView) → i < slot.now.config.nodes → state_at states.now i ≡ Some a →
        IsVoteOf (slot_of D.dues slot.now) a
        (done_at dues.now.0 dues.now.1 i) i (x i)
        (of_node result i) (slice_index_or off.new i []) }
{
    let nodes = slot.nodes();
    let own = slot.own_told();
    let mut votes = *before.by_node();
    let mut voters = each_alone();
    // By the first of a group the node of it whose votes serve others, and N where there is none
    // yet.
    let mut leaders = [N as u8; N];
    for i in 0..nodes {
        if let Some(state) = states.get(i) {
            let first = dues.first(i);
            let leader = leaders[first as usize];
            if leader < i && slot.hears_alike(leader, i) {
                let same = votes[leader as usize];
                votes[i as usize] = same;
                off[i as usize] = off[leader as usize];
                voters[i as usize] = leader;
            } else {
                let voted = vote_at(slot, i, state, dues.done(i), &own);
                let own_votes = voted.votes;
                votes[i as usize] = own_votes;
                off[i as usize] = voted.off;
                leaders[first as usize] = leader_after(slot, leader, i);
            }
        }
    }
    Votes { votes, voters }
}

/// Notes what each of these nodes finds of the values, and who is off at it.
fn note_each<D: Dues<N>, const N: usize>(
    slot: &DataSlot<'_, D, N>,
    awake: &NodeSet<N>,
    off: &[NodeSet<N>; N],
    notes: &mut [RowBuilder<N>],
)
where
    Nodes: Capacity<N>,
    requires shaped { AreShaped slot.now.config notes.old }
    requires within { (i : ℕ) → i < slot.now.config.nodes → has_id awake.now i ≡ true →
        IsWithin N (notes_at notes.old i) }
    ensures noted { (i : ℕ) → i < slot.now.config.nodes → has_id awake.now i ≡ true →
        IsNotedOf (slot_of D.dues slot.now) i (slice_index_or off.now i [])
        (notes_at notes.old i) (notes_at notes.new i) }
    ensures shaped { AreShaped slot.now.config notes.new }
{
    let nodes = slot.nodes();
    for i in 0..nodes {
        if awake.has(i) {
            slot.note(i, &off[i as usize], &mut notes[i as usize]);
        }
    }
}

impl<const N: usize> Period<'_, N>
where
    Nodes: Capacity<N>,
{
    /// The own values of all nodes in use, by their last votes and own values.
    fn value_all(&self, votes: &[[Option<i64>; 8]; N], owns: &mut [[Option<i64>; 8]; N])
        ensures { (i : ℕ) (state : Option AgreedView) (carried : List ℕ) →
            i < self.now.scenario.now.config.nodes → of_node owns.new i ≡
            own_values (setting_of self.now.scenario.now.config) i self.now.number
            (inputs_of self.now.scenario.now i self.now.number) (record {
              state = state;
              carried = carried;
              votes = of_node votes.now i;
              owns = of_node owns.old i;
            }) }
    {
        let config = self.scenario.config();
        for i in 0..config.nodes {
            let inputs = self.scenario.inputs(i, self.number);
            let at = i as usize;
            let kept = KeptValues {
                votes: &votes[at],
                owns: &owns[at],
            };
            owns[at] = own_values(config, i, self.number, &inputs, &kept);
        }
    }

    /// Votes on the due channels, and notes who is off.
    pub(crate) fn vote(
        &self,
        full: &NodeSet<N>,
        groups: &Groups<N>,
        made: &Made<N>,
        keeping: &mut Keeping<N>,
    )
        requires settled { AreSettled self.now.scenario.now self.now.number full.now made.now
            keeping.old.notes groups.now }
        requires unvoted { IsUnvoted self.now.scenario.now self.now.number keeping.old }
        ensures { AreVoted self.now.scenario.now self.now.number keeping.new }
    {
        // Proofs need the laws of the data slot and of views.
        hears();
        through();
        cold();
        let config = self.scenario.config();
        let plan = self.scenario.plan();
        self.value_all(keeping.votes.by_node(), &mut keeping.owns);
        let dues = GroupDues::of(groups, made.beliefs.as_slice(), full);
        let slot = DataSlot {
            config,
            plan,
            period: self.number,
            touched: touched_senders(config, plan, self.number),
            full: *full,
            dues: &dues,
            owns: &keeping.owns,
        };
        let mut off = [NodeSet::empty(); N];
        keeping.votes = vote_each(&slot, &dues, &made.states, &keeping.votes, &mut off);
        note_each(&slot, &made.states.awake(), &off, &mut keeping.notes);
    }
}

/// The rows of all nodes; a node that joins accuses nobody.
pub(crate) fn find_rows<const N: usize>(
    full: &NodeSet<N>,
    notes: &[RowBuilder<N>; N],
    found: &mut [Row<N>; N],
)
where
    Nodes: Capacity<N>,
    ensures { (i : ℕ) → i < N → slice_index_or found.new i [] ≡ (if has_id full.now i
        then (notes_at notes.now i).row else replicate N 0) }
{
    for i in 0..N as u8 {
        found[i as usize] = if full.has(i) {
            notes[i as usize].row()
        } else {
            Row::zero()
        };
    }
}
