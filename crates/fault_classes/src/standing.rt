ghost use Rattle.std.specs.Prelude.{◌≡◌, ◌≢◌, ℕ, suc, ◌<◌, ◌≤◌, ◌==◌, ◌&&◌, not, IfOk, option_map};
ghost use Rattle.node_grid.specs.Capacity.{IsCapacity};
ghost use Rattle.node_grid.specs.NodeSet.{has_id, ids_where};
ghost use Rattle.node_grid.specs.Class.{is_sound};
ghost use Rattle.fault_classes.specs.Change.{change_of, is_untouched, is_manifest, same_change};
ghost use Rattle.fault_classes.specs.Change.{same_effect};
ghost use Rattle.fault_classes.specs.Line.{effect_at};
ghost use Rattle.slot_plan.specs.Slots.{slot_count};
ghost use Rattle.fault_classes.specs.Plan.{each_in_slot, each_frame, is_symmetric_at};
ghost use Rattle.fault_classes.specs.Plan.{is_symmetric_in, is_clean, steady, sound_before};
ghost use Rattle.fault_classes.specs.Plan.{recovers_in, joins_in, class_of};
ghost use Rattle.fault_classes.specs.Standing.{IsStanding, AreStandings};

use crate::Effect;
use crate::index::PlanIndex;
use node_grid::{Class, NodeSet};
use std::alloc::{AllocError, Global};

/// How the nodes stand in one period.
#[derive(Drop)]
pub struct Standing<const N: usize> {
    /// The nodes whose frames no line touches.
    pub clean: NodeSet<N>,
    /// The class of each node.
    pub classes: [Class; N],
    /// The least node of class N.
    pub reference: Option<u8>,
}

/// What the lines do in one period.
#[derive(Drop)]
struct PeriodLines<'a, const N: usize> {
    index: &'a PlanIndex<N>,
    period: u32,
    /// The nodes whose frames no line touches.
    clean: NodeSet<N>,
    ghost in_plan: { period < index.now.periods },
    ghost unharmed: { clean ≡ ids_where (is_clean index.now period) index.now.nodes },
}

/// Whether a receiver sees by itself that the frame is faulty.
fn is_manifest(effect: Option<&Effect>) -> bool
    ensures { result ≡ is_manifest (option_map (λ e. change_of e.now) effect.entry) }
{
    match effect {
        Some(Effect::Drop | Effect::Cut(_) | Effect::Twice | Effect::Time(_)) => true,
        Some(Effect::Set { .. } | Effect::Raw(_)) | None => false,
    }
}

/// Whether two effects are equal.
fn is_same_change(one: &Effect, other: &Effect) -> bool
    ensures { result ≡ same_change (change_of one.now) (change_of other.now) }
{
    match (one, other) {
        (Effect::Drop, Effect::Drop) | (Effect::Twice, Effect::Twice) => true,
        (Effect::Cut(one), Effect::Cut(other)) => *one == *other,
        (Effect::Time(one), Effect::Time(other)) => *one == *other,
        (
            Effect::Set { at, bytes },
            Effect::Set {
                at: from,
                bytes: others,
            },
        ) => *at == *from && bytes.as_slice() == others.as_slice(),
        (Effect::Raw(bytes), Effect::Raw(others)) => bytes.as_slice() == others.as_slice(),
        _ => false,
    }
}

/// Whether the same befalls two frames.
fn is_same(one: Option<&Effect>, other: Option<&Effect>) -> bool
    ensures { result ≡ same_effect (option_map (λ e. change_of e.now) one.entry)
        (option_map (λ e. change_of e.now) other.entry) }
{
    match (one, other) {
        (None, None) => true,
        (Some(one), Some(other)) => is_same_change(one, other),
        _ => false,
    }
}

/// The least node but this one.
fn first_other(node: u8) -> u8
    ensures below { result ≤ 1 }
    ensures other { result ≢ node }
{
    if node == 0 { 1 } else { 0 }
}

impl<'a, const N: usize> PeriodLines<'a, N> {
    /// What the lines do in this period.
    fn of(index: &'a PlanIndex<N>, period: u32) -> PeriodLines<'a, N>
        requires { period < index.now.periods }
        ensures index { result.index.now ≡ index.now }
        ensures period { result.period ≡ period }
    {
        let all = NodeSet::full(index.nodes());
        let clean = all.minus(&index.touched(period));
        PeriodLines {
            index,
            period,
            clean,
        }
    }

    /// Whether each other node gets a manifest fault from the node in a slot.
    fn is_benign_at(&self, node: u8, slot: u8) -> bool
        requires node { node < self.now.index.now.nodes }
        requires slot { slot < slot_count self.now.index.now.rounds }
        ensures { result ≡ each_in_slot self.now.index.now is_manifest self.now.period node slot }
    {
        for to in 0..self.index.nodes() {
            if to != node && !is_manifest(self.index.effect(self.period, slot, node, to)) {
                return false;
            }
        }
        true
    }

    /// Whether each other node gets a manifest fault from the node in every slot.
    fn is_benign(&self, node: u8) -> bool
        requires { node < self.now.index.now.nodes }
        ensures { result ≡ each_frame self.now.index.now is_manifest self.now.period node }
    {
        for slot in 0..self.index.slots() {
            if !self.is_benign_at(node, slot) {
                return false;
            }
        }
        true
    }

    /// Whether the same befalls the node's frames to all other nodes in a slot.
    fn is_symmetric_at(&self, node: u8, slot: u8) -> bool
        requires node { node < self.now.index.now.nodes }
        requires slot { slot < slot_count self.now.index.now.rounds }
        ensures { result ≡ is_symmetric_at self.now.index.now self.now.period node slot }
    {
        let first = first_other(node);
        let row = self.index.numbers(self.period, slot, node);
        for to in 0..self.index.nodes() {
            if to != node
                && row[to as usize] != row[first as usize]
                && !is_same(
                    self.index.effect(self.period, slot, node, first),
                    self.index.effect(self.period, slot, node, to),
                )
            {
                return false;
            }
        }
        true
    }

    /// Whether the same befalls the node's frames to all other nodes in each slot.
    fn is_symmetric(&self, node: u8) -> bool
        requires { node < self.now.index.now.nodes }
        ensures { result ≡ is_symmetric_in self.now.index.now self.now.period node }
    {
        for slot in 0..self.index.slots() {
            if !self.is_symmetric_at(node, slot) {
                return false;
            }
        }
        true
    }

    /// Whether a node is of class N, where these were sound before the period.
    fn is_steady(&self, node: u8, before: &NodeSet<N>) -> bool
        requires node { node < self.now.index.now.nodes }
        requires before { before.now ≡ ids_where
            (sound_before self.now.index.now self.now.period) self.now.index.now.nodes }
        ensures { result ≡ steady self.now.index.now self.now.period
            (sound_before self.now.index.now self.now.period) node }
    {
        !self.index.is_restarting(node, self.period) && self.clean.has(node) && before.has(node)
    }

    /// The nodes of class N, where these were sound before the period.
    fn steady_nodes(&self, before: &NodeSet<N>) -> NodeSet<N>
        requires { before.now ≡ ids_where (sound_before self.now.index.now self.now.period)
            self.now.index.now.nodes }
        ensures { result ≡ ids_where (steady self.now.index.now self.now.period
            (sound_before self.now.index.now self.now.period)) self.now.index.now.nodes }
    {
        let nodes = self.index.nodes();
        let mut found = NodeSet::empty();
        for node in 0..nodes {
            if self.is_steady(node, before) {
                found.put(node);
            }
        }
        found
    }

    /// Whether the good nodes outnumber the others whose frame in slot 0 the node takes for right.
    fn recovers(&self, node: u8, good: &NodeSet<N>) -> bool
        requires node { node < self.now.index.now.nodes }
        requires good { good.now ≡ ids_where (steady self.now.index.now self.now.period
            (sound_before self.now.index.now self.now.period)) self.now.index.now.nodes }
        ensures { result ≡ recovers_in self.now.index.now self.now.period
            (steady self.now.index.now self.now.period
            (sound_before self.now.index.now self.now.period)) node }
    {
        let mut strays = 0;
        for other in 0..self.index.nodes() {
            if self.is_stray(node, other, good) {
                strays += 1;
            }
        }
        strays < good.len()
    }

    /// Whether the node takes the frame of another node in slot 0 for right, though that isn't
    /// good.
    fn is_stray(&self, node: u8, other: u8, good: &NodeSet<N>) -> bool
        requires node { node < self.now.index.now.nodes }
        requires other { other < self.now.index.now.nodes }
        ensures { result ≡ (not (other == node) && (not (has_id good.now other) && not (is_manifest
            (effect_at self.now.index.now.lines self.now.period 0 other node)))) }
    {
        other != node
            && !good.has(other)
            && !is_manifest(self.index.effect(self.period, 0, other, node))
    }

    /// The class of a node; one that isn't sound, but that no line touches, is symmetric.
    fn class_of(&self, node: u8, good: &NodeSet<N>) -> Class
        requires node { node < self.now.index.now.nodes }
        requires good { good.now ≡ ids_where (steady self.now.index.now self.now.period
            (sound_before self.now.index.now self.now.period)) self.now.index.now.nodes }
        ensures { result ≡ class_of self.now.index.now self.now.period node }
    {
        // Proofs need here that there is another node.
        let _ = self.index.nodes();
        if good.has(node) {
            Class::N
        } else if self.joins(node, good) {
            Class::J
        } else if self.clean.has(node) {
            Class::S
        } else if self.is_benign(node) {
            Class::B
        } else if self.is_symmetric(node) {
            Class::S
        } else {
            Class::A
        }
    }

    /// Whether a node restarts and is sound.
    fn joins(&self, node: u8, good: &NodeSet<N>) -> bool
        requires node { node < self.now.index.now.nodes }
        requires good { good.now ≡ ids_where (steady self.now.index.now self.now.period
            (sound_before self.now.index.now self.now.period)) self.now.index.now.nodes }
        ensures { result ≡ joins_in self.now.index.now self.now.period
            (sound_before self.now.index.now self.now.period) node }
    {
        self.index.is_restarting(node, self.period)
            && self.clean.has(node)
            && self.recovers(node, good)
    }

    /// How the nodes stand, where these were sound before the period.
    fn standing(&self, before: &NodeSet<N>) -> Standing<N>
        requires { before.now ≡ ids_where (sound_before self.now.index.now self.now.period)
            self.now.index.now.nodes }
        ensures { IsStanding self.now.index.now self.now.period result }
    {
        let good = self.steady_nodes(before);
        let mut classes = [Class::A; N];
        for node in 0..self.index.nodes() {
            classes[node as usize] = self.class_of(node, &good);
        }
        Standing {
            clean: self.clean,
            classes,
            reference: good.least(),
        }
    }
}

/// Whether a class is that of a sound node.
pub fn is_sound(class: Class) -> bool
    ensures { result ≡ is_sound class }
{
    match class {
        Class::N | Class::J => true,
        Class::B | Class::S | Class::A => false,
    }
}

/// The nodes that are sound in a period.
fn sound_nodes<const N: usize>(
    index: &PlanIndex<N>,
    period: u32,
    standing: &Standing<N>,
) -> NodeSet<N>
    requires { IsStanding index.now period standing.now }
    ensures { result ≡ ids_where (sound_before index.now (suc period)) index.now.nodes }
{
    let nodes = index.nodes();
    let mut found = NodeSet::empty();
    for node in 0..nodes {
        if is_sound(standing.classes[node as usize]) {
            found.put(node);
        }
    }
    found
}

/// How the nodes stand in each period.
pub fn standings_of<const N: usize>(
    alloc: Global,
    index: &PlanIndex<N>,
) -> Result<Vec<Standing<N>>, AllocError>
    ensures { IfOk result (λ v. AreStandings index.now v.items) }
{
    let mut before = NodeSet::full(index.nodes());
    let mut standings = Vec::with_capacity(alloc, index.periods() as usize)?;
    for period in 0..index.periods() {
        let standing = PeriodLines::of(index, period).standing(&before);
        before = sound_nodes(index, period, &standing);
        standings.push(standing)?;
    }
    Ok(standings)
}
