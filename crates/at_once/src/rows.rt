//! The rows of a period.

ghost use Rattle.std.specs.Prelude.{◌≡◌, ◌<◌, ◌==◌, ℕ, [], true, false};
ghost use Rattle.std.specs.Prelude.{length, slice_index_or, if◌then◌else◌};
ghost use Rattle.std.specs.Cmp.Lexicographic.{pointwise};
ghost use Rattle.node_grid.specs.NodeSet.{has_id};
ghost use Rattle.node_grid.specs.Kinds.{equivocate};
ghost use Rattle.error_reports.specs.Notes.{also_carried, of_each};
ghost use Rattle.protocol.specs.Arrival.{row_form};
ghost use Rattle.protocol.specs.Heard.{rounds_bad};
ghost use Rattle.touched_items.specs.ItemLaws.{row_told};
ghost use Rattle.heard_links.specs.Hearing.{item_of};
ghost use Rattle.item_phase.specs.Settled.{listener};
ghost use Rattle.item_phase.specs.Noted.{rounds_of, IsCarrier};
ghost use Rattle.shared_states.specs.declared.belief.Belief.{Belief};
ghost use Rattle.shown_period.specs.Outcomes.{found_at};
ghost use Rattle.grouped_nodes.specs.Grouping.{first_of, AreFirsts};
ghost use Rattle.view_law.specs.Laws.{IsCarriedWithin};
ghost use Rattle.at_once.specs.Kept.{AreShaped, notes_at, of_node};
ghost use Rattle.at_once.specs.Course.{IsGoing, AreFound, AreReporting, AreReported};
ghost use Rattle.at_once.specs.Phases.{AreTold, AreRowsSettled, SettleAlike, node_rows, blames};

use crate::claims::members_at;
use crate::keeping::Keeping;
use crate::period::Period;
use crate::votes::Votes;
use error_reports::RowBuilder;
use grouped_nodes::{Groups, part};
use heard_links::Phase;
use item_phase::{ItemPhase, laws};
use node_grid::kind::EQUIVOCATE;
use node_grid::{Capacity, Matrix, NodeSet, Nodes, Row};
use omh_paths::Wrapped;
use shared_states::Belief;
use shown_period::Made;
use view_law::through;

/// What a node settles of the rows: those of its members.
fn rows_settled<const N: usize>(
    rows: &ItemPhase<Row<N>, N>,
    phase: &Phase<'_, N>,
    i: u8,
) -> Matrix<N>
where
    Nodes: Capacity<N>,
    requires settled { AreRowsSettled phase.now rows.now }
    requires node { has_id phase.now.awake i ≡ true }
    requires room { i < N }
    ensures { result ≡ node_rows phase.now rows.now i }
{
    let members = members_at(phase, i);
    let mut settled = Matrix::empty();
    for c in 0..N as u8 {
        if members.has(c) {
            if let Wrapped::Plain(row) = rows.settled(phase, i, c) {
                settled.set(c, row);
            }
        }
    }
    settled
}

/// Carries over that these nodes are convicted; mostly there are none.
fn carry_against<const N: usize>(against: &NodeSet<N>, notes: &mut RowBuilder<N>)
where
    Nodes: Capacity<N>,
    requires { IsCarriedWithin N notes.old }
    ensures { notes.new ≡ also_carried N notes.old (of_each against.now equivocate) }
{
    if !against.is_empty() {
        notes.carry_all(against, EQUIVOCATE);
    }
}

/// Carries over to the next period what was found of the frames of rows, and whom each node
/// convicts over the rows, where rows have room for that.
fn carry<const N: usize>(
    rows: &ItemPhase<Row<N>, N>,
    phase: &Phase<'_, N>,
    notes: &mut [RowBuilder<N>],
)
where
    Nodes: Capacity<N>,
    requires settled { AreRowsSettled phase.now rows.now }
    requires shaped { AreShaped {N = N} phase.now.config.now notes.old }
    requires within { (i : ℕ) → i < N → has_id phase.now.awake i ≡ true →
        IsCarriedWithin N (notes_at notes.old i) }
    ensures many { length notes.new ≡ N }
    ensures notes { (i : ℕ) → i < N → notes_at notes.new i ≡ (if has_id phase.now.awake i
        then also_carried N (also_carried N (notes_at notes.old i)
        (rounds_bad phase.now.config.now.m (rounds_of row_form phase.now rows.now.links i)))
        (blames (pointwise ◌==◌) (listener row_form phase.now rows.now.links i))
        else notes_at notes.old i) }
{
    for i in 0..N as u8 {
        if phase.awake.has(i) {
            carry_at(rows, phase, i, &mut notes[i as usize]);
        }
    }
}

/// The same of one node.
fn carry_at<const N: usize>(
    rows: &ItemPhase<Row<N>, N>,
    phase: &Phase<'_, N>,
    i: u8,
    notes: &mut RowBuilder<N>,
)
where
    Nodes: Capacity<N>,
    requires settled { AreRowsSettled phase.now rows.now }
    requires node { has_id phase.now.awake i ≡ true }
    requires notes { IsCarrier phase.now.config.now i notes.old }
    ensures { notes.new ≡ also_carried N (also_carried N notes.old
        (rounds_bad phase.now.config.now.m (rounds_of row_form phase.now rows.now.links i)))
        (blames (pointwise ◌==◌) (listener row_form phase.now rows.now.links i)) }
{
    rows.carry(phase, i, notes);
    if phase.config.version != 1 {
        carry_against(&rows.convicted(phase, i), notes);
    }
}

/// Nodes of one group that vote and settle the rows alike.
fn group_by_rows<const N: usize>(
    groups: &Groups<N>,
    rows: &ItemPhase<Row<N>, N>,
    phase: &Phase<'_, N>,
    votes: &Votes<N>,
) -> Groups<N>
where
    Nodes: Capacity<N>,
    requires settled { AreRowsSettled phase.now rows.now }
    ensures firsts { AreFirsts N result }
    ensures parted { (i : ℕ) → i < N →
        first_of groups.now (first_of result i) ≡ first_of groups.now i }
    ensures cold { (i : ℕ) → i < N → has_id phase.now.awake i ≡ false → first_of result i ≡ i }
    ensures among { (i : ℕ) → i < N → has_id phase.now.awake i ≡ true →
        has_id phase.now.awake (first_of result i) ≡ true }
    ensures alike { (i : ℕ) → i < N → has_id phase.now.awake i ≡ true →
        SettleAlike (pointwise ◌==◌) row_form phase.now rows.now (first_of result i) i }
    ensures votes { (i : ℕ) → i < N →
        of_node votes.now (first_of result i) ≡ of_node votes.now i }
{
    let finer = groups.refine(
        &phase.awake,
        |r, i| -> bool
            requires { AreRowsSettled phase.now rows.now }
            ensures votes { result ≡ true →
                of_node votes.entry.now r ≡ of_node votes.entry.now i }
            ensures alike { result ≡ true →
                SettleAlike (pointwise ◌==◌) row_form phase.entry.now rows.entry.now r i }
        {
            phase.awake.has(r)
                && phase.awake.has(i)
                && votes.are_alike(r, i)
                && rows.are_alike(phase, r, i)
        },
    );
    // Proofs need here that firsts are firsts of their own.
    let _ = finer.of(0);
    finer
}

/// Puts what each group votes, and settles of the rows, at its first.
fn fill_rows<const N: usize>(
    rows: &ItemPhase<Row<N>, N>,
    phase: &Phase<'_, N>,
    groups: &Groups<N>,
    votes: &[[Option<i64>; 8]; N],
    beliefs: &mut [Belief<N>],
)
where
    Nodes: Capacity<N>,
    requires settled { AreRowsSettled phase.now rows.now }
    requires many { length beliefs.old ≡ N }
    ensures filled { (f : ℕ) (d : Belief N) → f < N → has_id phase.now.awake f ≡ true →
        first_of groups.now f ≡ f → slice_index_or beliefs.new f d ≡
        record (slice_index_or beliefs.old f d) {
          votes = of_node votes.now f;
          rows = node_rows phase.now rows.now f;
        } }
    ensures others { (f : ℕ) (d : Belief N) → has_id phase.now.awake f ≡ false →
        slice_index_or beliefs.new f d ≡ slice_index_or beliefs.old f d }
    ensures many { length beliefs.new ≡ N }
{
    for first in 0..N as u8 {
        if phase.awake.has(first) && groups.is_first(first) {
            let belief = &mut beliefs[first as usize];
            belief.votes = votes[first as usize];
            belief.rows = rows_settled(rows, phase, first);
        }
    }
}

/// A node's own row.
fn found_at<const N: usize>(made: &Made<N>, i: u8) -> Row<N>
    requires { i < N }
    ensures { result ≡ found_at made.now i }
{
    let all = &made.found[..];
    all[i as usize]
}

impl<const N: usize> Period<'_, N>
where
    Nodes: Capacity<N>,
{
    /// Each Full node tells its row.
    fn tell_rows(&self, full: &NodeSet<N>, made: &Made<N>, rows: &mut ItemPhase<Row<N>, N>)
        requires going { IsGoing self.now.scenario.now self.now.number full.now made.now }
        requires found { AreFound self.now.scenario.now self.now.number made.now }
        ensures told { AreTold row_told self.now.scenario.now self.now.number full.now
            (item_of rows.new.links) }
        ensures room { rows.new.settling ≡ rows.old.settling }
    {
        // Proofs need here the law of views, and that the configuration is one.
        through();
        let _ = self.scenario.config();
        for i in 0..N as u8 {
            if full.has(i) {
                rows.tell(i, found_at(made, i));
            }
        }
    }

    /// What all settle of the rows.
    pub(crate) fn settle_rows(
        &self,
        full: &NodeSet<N>,
        groups: &Groups<N>,
        made: &mut Made<N>,
        rows: &mut ItemPhase<Row<N>, N>,
        keeping: &mut Keeping<N>,
    ) -> Groups<N>
        requires reporting { AreReporting self.now.scenario.now self.now.number full.now made.old
            keeping.old groups.now }
        requires room { rows.old.settling ≡ record {
          nodes = self.now.scenario.now.config.nodes;
          rounds = self.now.scenario.now.config.m;
        } }
        ensures reported { AreReported self.now.scenario.now self.now.number full.now made.new
            keeping.new result }
        ensures room { rows.new.settling ≡ rows.old.settling }
    {
        laws::of_run::<Row<N>, N>();
        self.tell_rows(full, made, rows);
        let phase = self.phase(self.scenario.config().m + 3, full, made);
        rows.agree(&phase);
        carry(rows, &phase, &mut keeping.notes);
        let finer = group_by_rows(groups, rows, &phase, &keeping.votes);
        part(made.beliefs.as_mut_slice(), groups, &finer);
        fill_rows(
            rows,
            &phase,
            &finer,
            keeping.votes.by_node(),
            made.beliefs.as_mut_slice(),
        );
        finer
    }
}
