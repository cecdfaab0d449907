//! What is found of all nodes in a period.

ghost use Rattle.std.specs.Prelude.{◌≡◌, ℕ, ◌<◌, ◌≤◌, ◌==◌, Some, not, slice_index};
ghost use Rattle.node_grid.specs.Class.{is_sound, is_nonfaulty};
ghost use Rattle.node_grid.specs.NodeSet.{ids_where, has_id};
ghost use Rattle.shown_period.specs.Whole.{record_of};
ghost use Rattle.run_judged.specs.Signs.{reference_outcome, is_charged_by};
ghost use Rattle.run_judged.specs.Signs.{members_after, is_left, is_joined};
ghost use Rattle.fault_classes.specs.Plan.{is_clean};
ghost use Rattle.at_once.specs.Run.{ShowsPeriod, FitsScenario};
ghost use Rattle.run_judged.specs.Rows.{seen_of};
ghost use Rattle.run_judged.specs.Found.{class_at, sign_by, AreFound};

use crate::found::Findings;
use crate::illness::{Sign, is_sound};
use crate::seen::Seen;
use error_reports::charged_all;
use fault_classes::FaultPlan;
use node_grid::{Capacity, Class, NodeSet, Nodes};
use scenario::Scenario;

/// The nodes of the period whose class is sound.
#[tactic(auto, using(node_grid::specs::NodeSetLaws::id_loops, crate::proofs::Sets::of_nodes))]
fn sound_nodes<const N: usize>(seen: &Seen<'_, N>) -> NodeSet<N>
where
    Nodes: Capacity<N>,
    ensures { let head = seen.now.shown.now.head in
        result ≡ ids_where (λ j. is_sound (class_at head.classes j)) head.nodes }
{
    let head = &seen.shown.head;
    let mut sound = NodeSet::empty();
    for node in 0..head.nodes {
        if is_sound(head.classes[node as usize]) {
            sound.put(node);
        }
    }
    sound
}

/// Whether a node of the class isn't nonfaulty.
fn is_faulty(class: Class) -> bool
    ensures { result ≡ not (is_nonfaulty class) }
{
    match class {
        Class::N => false,
        Class::J | Class::B | Class::S | Class::A => true,
    }
}

/// The nodes of the period whose class isn't nonfaulty.
#[tactic(auto, using(node_grid::specs::NodeSetLaws::id_loops, crate::proofs::Sets::of_nodes))]
fn faulty_nodes<const N: usize>(seen: &Seen<'_, N>) -> NodeSet<N>
where
    Nodes: Capacity<N>,
    ensures { let head = seen.now.shown.now.head in
        result ≡ ids_where (λ j. not (is_nonfaulty (class_at head.classes j))) head.nodes }
{
    let head = &seen.shown.head;
    let mut faulty = NodeSet::empty();
    for node in 0..head.nodes {
        if is_faulty(head.classes[node as usize]) {
            faulty.put(node);
        }
    }
    faulty
}

/// Whether a mask has a kind.
fn has_kind(mask: u16) -> bool
    ensures { result ≡ not (mask == 0) }
{
    mask != 0
}

/// The nodes whose mask has a kind.
#[tactic(auto, using(node_grid::specs::NodeSetLaws::id_loops, crate::proofs::Sets::of_nodes))]
fn marked_nodes<const N: usize>(masks: &[u16; N], nodes: u8) -> NodeSet<N>
where
    Nodes: Capacity<N>,
    requires nodes { nodes ≤ N }
    ensures { result ≡ ids_where (λ j. not (slice_index masks.now j == 0)) nodes }
{
    let mut marked = NodeSet::empty();
    for node in 0..nodes {
        if has_kind(masks[node as usize]) {
            marked.put(node);
        }
    }
    marked
}

/// Whether some line touches a frame that the node sends in the period.
fn is_touched<const N: usize>(plan: &FaultPlan<N>, node: u8, period: u32) -> bool
    requires node { node < plan.now.nodes }
    requires period { period < plan.now.periods }
    ensures { result ≡ not (is_clean plan.now period node) }
{
    !plan.clean(node, period)
}

/// The nodes a frame of which some line touches in the period.
#[tactic(auto, using(node_grid::specs::NodeSetLaws::id_loops, crate::proofs::Sets::of_nodes))]
fn touched_nodes<const N: usize>(plan: &FaultPlan<N>, nodes: u8, period: u32) -> NodeSet<N>
where
    Nodes: Capacity<N>,
    requires nodes { nodes ≤ N }
    requires in_use { nodes ≤ plan.now.nodes }
    requires period { period < plan.now.periods }
    ensures { result ≡ ids_where (λ j. not (is_clean plan.now period j)) nodes }
{
    let mut touched = NodeSet::empty();
    for node in 0..nodes {
        if is_touched(plan, node, period) {
            touched.put(node);
        }
    }
    touched
}

/// The nodes that the rows which the reference node settled charge with something.
fn charged_nodes<const N: usize>(seen: &Seen<'_, N>) -> NodeSet<N>
where
    Nodes: Capacity<N>,
    ensures { (j : ℕ) → j < seen.now.shown.now.head.nodes
        → has_id result j ≡ is_charged_by (reference_outcome (record_of seen.now.shown.now)) j }
{
    let shown = seen.shown;
    let nodes = shown.head.nodes;
    let Some(node) = shown.head.reference else {
        return NodeSet::empty();
    };
    let masks = charged_all(&shown.belief(node).rows, shown.members(node), nodes);
    marked_nodes(&masks, nodes)
}

/// The members of the reference node's state after the period; none without a state.
fn members_after<const N: usize>(seen: &Seen<'_, N>) -> Option<NodeSet<N>>
where
    Nodes: Capacity<N>,
    ensures { result ≡ members_after (record_of seen.now.shown.now) }
{
    let shown = seen.shown;
    let Some(node) = shown.head.reference else {
        return None;
    };
    match shown.agreed(node) {
        None => None,
        Some(agreed) => Some(agreed.members),
    }
}

/// The members that aren't members any more.
fn left_nodes<const N: usize>(before: &NodeSet<N>, after: &Option<NodeSet<N>>) -> NodeSet<N>
where
    Nodes: Capacity<N>,
    ensures { (j : ℕ) → has_id result j ≡ is_left before.now after.now j }
{
    match after {
        None => NodeSet::empty(),
        Some(after) => before.minus(after),
    }
}

/// The members that weren't members, where there were members.
fn joined_nodes<const N: usize>(before: &NodeSet<N>, after: &Option<NodeSet<N>>) -> NodeSet<N>
where
    Nodes: Capacity<N>,
    ensures { (j : ℕ) → has_id result j ≡ is_joined before.now after.now j }
{
    if before.is_empty() {
        return NodeSet::empty();
    }
    match after {
        None => NodeSet::empty(),
        Some(after) => after.minus(before),
    }
}

impl<const N: usize> Findings<N> {
    /// What is found of the nodes in a period of the scenario's run.
    pub(crate) fn of(scenario: &Scenario<N>, period: u32, seen: &Seen<'_, N>) -> Findings<N>
    where
        Nodes: Capacity<N>,
        requires in_run { period < scenario.now.periods }
        requires shown { ShowsPeriod scenario.now period seen.now.shown.now }
        requires fits { FitsScenario scenario.now seen.now.shown.now }
        ensures { AreFound (seen_of scenario.now) scenario.now.config.nodes period result }
    {
        let head = &seen.shown.head;
        let after = members_after(seen);
        Findings {
            period,
            nodes: head.nodes,
            classes: head.classes,
            sound: sound_nodes(seen),
            faulty: faulty_nodes(seen),
            touched: touched_nodes(scenario.plan(), head.nodes, period),
            members: head.members,
            charged: charged_nodes(seen),
            left: left_nodes(&head.members, &after),
            joined: joined_nodes(&head.members, &after),
        }
    }

    /// What is found of one node.
    pub(crate) fn sign(&self, node: u8) -> Sign
        requires { node < N }
        ensures { result ≡ sign_by self.now node }
    {
        Sign {
            class: self.classes[node as usize],
            touched: self.touched.has(node),
            member: self.members.has(node),
            charged: self.charged.has(node),
            left: self.left.has(node),
            joined: self.joined.has(node),
        }
    }
}
