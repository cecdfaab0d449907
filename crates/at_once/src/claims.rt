//! The claims of a period.

ghost use Rattle.std.specs.Prelude.{◌≡◌, ◌≢◌, ◌<◌, ℕ, nat_eq, true, false};
ghost use Rattle.std.specs.Prelude.{length, map, slice_index_or, if◌then◌else◌};
ghost use Rattle.node_grid.specs.NodeSet.{has_id};
ghost use Rattle.node_grid.specs.Kinds.{equivocate};
ghost use Rattle.error_reports.specs.Notes.{also_noted, of_each};
ghost use Rattle.protocol.specs.Arrival.{claim_form};
ghost use Rattle.protocol.specs.Heard.{rounds_bad};
ghost use Rattle.protocol.specs.Settled.{plain};
ghost use Rattle.protocol.specs.View.{as_claim};
ghost use Rattle.touched_items.specs.ItemLaws.{claim_told};
ghost use Rattle.heard_links.specs.Talks.{members_at};
ghost use Rattle.heard_links.specs.Hearing.{item_of};
ghost use Rattle.item_phase.specs.Settled.{listener};
ghost use Rattle.item_phase.specs.Noted.{rounds_of};
ghost use Rattle.shared_states.specs.Sharing.{IsShared};
ghost use Rattle.shared_states.specs.declared.belief.Belief.{Belief};
ghost use Rattle.grouped_nodes.specs.Grouping.{first_of, AreFirsts};
ghost use Rattle.grouped_nodes.specs.Shared.{AreShared};
ghost use Rattle.view_law.specs.Laws.{IsWithin};
ghost use Rattle.at_once.specs.Kept.{AreShaped, notes_at};
ghost use Rattle.at_once.specs.Course.{IsGoing, AreSynced, AreSettled};
ghost use Rattle.at_once.specs.Phases.{IsPhaseAt, AreTold, AreClaimsSettled, SettleAlike};
ghost use Rattle.at_once.specs.Phases.{node_claims, blames};

use crate::period::Period;
use error_reports::RowBuilder;
use grouped_nodes::{Groups, complete, own_claim};
use heard_links::Phase;
use item_phase::{ItemPhase, laws};
use node_grid::kind::EQUIVOCATE;
use node_grid::{Capacity, NodeSet, Nodes};
use omh_paths::Wrapped;
use shared_states::{Belief, SharedStates};
use shown_period::Made;

impl<const N: usize> Period<'_, N>
where
    Nodes: Capacity<N>,
{
    /// The rounds of items whose first slot this is.
    pub(crate) fn phase(&self, first: u8, full: &NodeSet<N>, made: &Made<N>) -> Phase<'_, N>
        ensures { IsPhaseAt self.now.scenario.now self.now.number first full.now made.now result }
    {
        Phase {
            config: self.scenario.config(),
            plan: self.scenario.plan(),
            period: self.number,
            first,
            full: *full,
            awake: made.states.awake(),
            members: made.members,
        }
    }

    /// Each Full node claims what it does.
    fn tell_claims(&self, full: &NodeSet<N>, made: &Made<N>, claims: &mut ItemPhase<u8, N>)
        requires going { IsGoing self.now.scenario.now self.now.number full.now made.now }
        ensures told { AreTold claim_told self.now.scenario.now self.now.number full.now
            (item_of claims.new.links) }
        ensures room { claims.new.settling ≡ claims.old.settling }
    {
        let config = self.scenario.config();
        for i in 0..N as u8 {
            if full.has(i) {
                if let Some(state) = made.states.get(i) {
                    let run = self.scenario.run_times(i);
                    claims.tell(i, own_claim(config, state, i, run));
                }
            }
        }
    }

    /// What all settle of the claims, and what follows from it.
    pub(crate) fn settle_claims(
        &self,
        full: &NodeSet<N>,
        made: &mut Made<N>,
        claims: &mut ItemPhase<u8, N>,
        notes: &mut [RowBuilder<N>],
    ) -> Groups<N>
        requires synced { AreSynced self.now.scenario.now self.now.number full.now made.old
            notes.old }
        requires room { claims.old.settling ≡ record {
          nodes = self.now.scenario.now.config.nodes;
          rounds = self.now.scenario.now.config.m;
        } }
        ensures settled { AreSettled self.now.scenario.now self.now.number full.now made.new
            notes.new result }
        ensures room { claims.new.settling ≡ claims.old.settling }
    {
        laws::of_run::<u8, N>();
        let config = self.scenario.config();
        self.tell_claims(full, made, claims);
        let phase = self.phase(1, full, made);
        claims.agree(&phase);
        note_frames(claims, &phase, notes);
        let groups = group_by_claims(claims, &phase, &made.states);
        fill_claims(claims, &phase, &groups, made.beliefs.as_mut_slice());
        complete(
            config,
            &made.states,
            &groups,
            made.beliefs.as_mut_slice(),
            notes,
        );
        note_convicted(claims, &phase, notes);
        groups
    }
}

/// The members with which a node goes through the period.
pub(crate) fn members_at<const N: usize>(phase: &Phase<'_, N>, i: u8) -> NodeSet<N>
    requires { i < N }
    ensures { result ≡ members_at phase.now i }
{
    let all = &phase.members[..];
    all[i as usize]
}

/// A settled claim as beliefs have it: an error of any kind is no claim.
fn as_claim(settled: Wrapped<u8>) -> Wrapped<u8>
    ensures { result ≡ as_claim (plain settled) }
{
    match settled {
        Wrapped::Plain(task) => Wrapped::Plain(task),
        Wrapped::Fault(_) => Wrapped::Fault(0),
    }
}

/// Notes what was found of the frames of claims.
fn note_frames<const N: usize>(
    claims: &ItemPhase<u8, N>,
    phase: &Phase<'_, N>,
    notes: &mut [RowBuilder<N>],
)
where
    Nodes: Capacity<N>,
    requires settled { AreClaimsSettled phase.now claims.now }
    requires shaped { AreShaped {N = N} phase.now.config.now notes.old }
    requires within { (i : ℕ) → i < N → has_id phase.now.awake i ≡ true →
        IsWithin N (notes_at notes.old i) }
    ensures many { length notes.new ≡ N }
    ensures notes { (i : ℕ) → i < N → notes_at notes.new i ≡ (if has_id phase.now.awake i
        then also_noted N (notes_at notes.old i) (rounds_bad phase.now.config.now.m
        (rounds_of claim_form phase.now claims.now.links i))
        else notes_at notes.old i) }
{
    for i in 0..N as u8 {
        if phase.awake.has(i) {
            claims.note(phase, i, &mut notes[i as usize]);
        }
    }
}

/// Notes these nodes as convicted; mostly there are none.
fn note_against<const N: usize>(against: &NodeSet<N>, notes: &mut RowBuilder<N>)
where
    Nodes: Capacity<N>,
    requires { IsWithin N notes.old }
    ensures { notes.new ≡ also_noted N notes.old (of_each against.now equivocate) }
{
    if !against.is_empty() {
        notes.note_all(against, EQUIVOCATE);
    }
}

/// Notes whom each node convicts over the claims, where rows have room for that.
fn note_convicted<const N: usize>(
    claims: &ItemPhase<u8, N>,
    phase: &Phase<'_, N>,
    notes: &mut [RowBuilder<N>],
)
where
    Nodes: Capacity<N>,
    requires settled { AreClaimsSettled phase.now claims.now }
    requires shaped { AreShaped {N = N} phase.now.config.now notes.old }
    requires within { (i : ℕ) → i < N → has_id phase.now.awake i ≡ true →
        IsWithin N (notes_at notes.old i) }
    ensures many { length notes.new ≡ N }
    ensures notes { (i : ℕ) → i < N → notes_at notes.new i ≡ (if has_id phase.now.awake i
        then also_noted N (notes_at notes.old i)
        (blames nat_eq (listener claim_form phase.now claims.now.links i))
        else notes_at notes.old i) }
{
    if phase.config.version == 1 {
        return;
    }
    for i in 0..N as u8 {
        if phase.awake.has(i) {
            note_against(&claims.convicted(phase, i), &mut notes[i as usize]);
        }
    }
}

/// Nodes that go through the period with one state and settle the claims alike.
fn group_by_claims<const N: usize>(
    claims: &ItemPhase<u8, N>,
    phase: &Phase<'_, N>,
    states: &SharedStates<N>,
) -> Groups<N>
where
    Nodes: Capacity<N>,
    requires settled { AreClaimsSettled phase.now claims.now }
    ensures firsts { AreFirsts N result }
    ensures shared { AreShared N result states.now }
    ensures cold { (i : ℕ) → i < N → has_id phase.now.awake i ≡ false → first_of result i ≡ i }
    ensures among { (i : ℕ) → i < N → has_id phase.now.awake i ≡ true →
        has_id phase.now.awake (first_of result i) ≡ true }
    ensures alike { (i : ℕ) → i < N → has_id phase.now.awake i ≡ true →
        SettleAlike nat_eq claim_form phase.now claims.now (first_of result i) i }
{
    let groups = Groups::by(
        &phase.awake,
        |r, i| -> bool
            requires { AreClaimsSettled phase.now claims.now }
            ensures shared { result ≡ true → IsShared states.entry.now r i }
            ensures alike { result ≡ true →
                SettleAlike nat_eq claim_form phase.entry.now claims.entry.now r i }
        {
            phase.awake.has(r)
                && phase.awake.has(i)
                && states.is_shared(r, i)
                && claims.are_alike(phase, r, i)
        },
    );
    // Proofs need here that firsts are firsts of their own.
    let _ = groups.of(0);
    groups
}

/// What a node settles of the claims, by node.
fn claims_settled<const N: usize>(
    claims: &ItemPhase<u8, N>,
    phase: &Phase<'_, N>,
    i: u8,
) -> [Wrapped<u8>; N]
where
    Nodes: Capacity<N>,
    requires settled { AreClaimsSettled phase.now claims.now }
    requires node { has_id phase.now.awake i ≡ true }
    requires room { i < N }
    ensures { result ≡ node_claims phase.now claims.now i }
{
    let members = members_at(phase, i);
    let mut done = [Wrapped::Fault(0); N];
    for c in 0..N as u8 {
        if members.has(c) {
            done[c as usize] = as_claim(claims.settled(phase, i, c));
        }
    }
    done
}

/// Puts what each group settles of the claims at its first.
fn fill_claims<const N: usize>(
    claims: &ItemPhase<u8, N>,
    phase: &Phase<'_, N>,
    groups: &Groups<N>,
    beliefs: &mut [Belief<N>],
)
where
    Nodes: Capacity<N>,
    requires settled { AreClaimsSettled phase.now claims.now }
    requires many { length beliefs.old ≡ N }
    ensures done { (f : ℕ) (d : Belief N) → f < N → has_id phase.now.awake f ≡ true →
        first_of groups.now f ≡ f →
        (slice_index_or beliefs.new f d).done ≡ node_claims phase.now claims.now f }
    ensures others { (f : ℕ) (d : Belief N) → has_id phase.now.awake f ≡ false →
        slice_index_or beliefs.new f d ≡ slice_index_or beliefs.old f d }
    ensures many { length beliefs.new ≡ N }
{
    for first in 0..N as u8 {
        if phase.awake.has(first) && groups.is_first(first) {
            beliefs[first as usize].done = claims_settled(claims, phase, first);
        }
    }
}
