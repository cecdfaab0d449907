ghost use Rattle.std.specs.Prelude.{◌≡◌, ℕ, ◌^◌, ◌<◌, ◌≤◌, ◌⊎◌, true, not, None, Some, IfOk};
ghost use Rattle.std.specs.Prelude.{MatchResult, map, length, option_map, slice_index};
ghost use Rattle.fault_classes.specs.Change.{change_of};
ghost use Rattle.fault_classes.specs.Line.{line_of, effect_at, touches};
ghost use Rattle.slot_plan.specs.Slots.{slot_count};
ghost use Rattle.fault_classes.specs.Plan.{plan_of, restarts_at, is_clean};
ghost use Rattle.fault_classes.specs.Rules.{IsSize, refusal_of, first_bad_restart};
ghost use Rattle.fault_classes.specs.Cells.{IsShape, entry_of};
ghost use Rattle.fault_classes.specs.Index.{IsRestarting, AreAccepted, IsRefusedBy};
ghost use Rattle.node_grid.specs.NodeSet.{ids_where};

use crate::cells::Shape;
use crate::rules::{first_bad_line, first_bad_restart};
use crate::touches::{Touches, touches_of};
use crate::{Effect, FaultLine, PlanError, PlanSize, Restart};
use node_grid::{Capacity, NodeSet, Nodes};
use slot_plan::slot_count;
use std::alloc::{AllocError, Global};
use std::marker::Model;

/// The most lines that a plan may have.
const MOST_LINES: usize = 4096;

/// The lines and restarts of a plan, with a table from each frame to the line that touches it.
#[derive(Drop)]
pub struct PlanIndex<const N: usize> {
    shape: Shape,
    rounds: u8,
    lines: Vec<FaultLine<N>>,
    restarts: Vec<Restart>,
    restarting: Vec<NodeSet<N>>,
    touches: Touches<N>,
}

// Clauses see the plan.
impl<const N: usize> Model for PlanIndex<N> {
    ghost use Rattle.std.specs.Prelude.{map};
    ghost use Rattle.fault_classes.specs.Plan.{Plan, plan_of};
    ghost use Rattle.fault_classes.specs.Line.{line_of};
    ghost use Rattle.fault_classes.specs.Index.{IsIndex};

    ghost Value = { Plan };

    ghost view = { λ x. plan_of x.shape.nodes x.rounds x.shape.periods (map line_of x.lines.items)
        x.restarts.items };

    ghost invariant = { λ x. IsIndex N (plan_of x.shape.nodes x.rounds x.shape.periods
        (map line_of x.lines.items) x.restarts.items) x.shape.slots x.restarting.items x.touches };
}

/// Which line touches each frame, where no rule refuses these lines and restarts.
fn accepted_touches<const N: usize>(
    alloc: Global,
    shape: &Shape,
    lines: &[FaultLine<N>],
    restarts: &[Restart],
) -> Result<Touches<N>, PlanError>
where
    Nodes: Capacity<N>,
    requires shape { IsShape N shape.now.nodes shape.now.slots shape.now.periods }
    requires few_lines { length lines.now < 2 ^ 32 }
    requires few_restarts { length restarts.now < 2 ^ 32 }
    ensures { MatchResult result
        (λ v. AreAccepted shape.now.nodes shape.now.slots shape.now.periods (map line_of lines.now)
        restarts.now v)
        (λ e. IsRefusedBy shape.now.nodes shape.now.slots shape.now.periods (map line_of lines.now)
        restarts.now e) }
{
    if let Some(place) = first_bad_line(lines, shape) {
        return Err(PlanError::Range(place));
    }
    let touches = touches_of(alloc, shape, lines)?;
    if let Some(place) = first_bad_restart(restarts, shape.nodes, shape.periods) {
        return Err(PlanError::Restart(place));
    }
    if lines.len() > MOST_LINES {
        return Err(PlanError::TooMany);
    }
    Ok(touches)
}

/// For each period the set of the nodes that restart at it.
fn restarting_sets<const N: usize>(
    alloc: Global,
    restarts: &[Restart],
    size: PlanSize,
) -> Result<Vec<NodeSet<N>>, AllocError>
    requires size { IsSize N size }
    requires in_order { first_bad_restart size.nodes size.periods None 0 restarts.now ≡ None }
    ensures { IfOk result (λ v. IsRestarting N size.periods restarts.now v.items) }
{
    let mut sets = vec![in alloc; NodeSet::empty(); size.periods as usize]?;
    for restart in restarts {
        let set = &mut sets[restart.period as usize];
        set.put(restart.node);
    }
    Ok(sets)
}

impl<const N: usize> PlanIndex<N> {
    /// The plan of these lines and restarts with its index.
    pub fn new(
        alloc: Global,
        size: PlanSize,
        lines: Vec<FaultLine<N>>,
        restarts: Vec<Restart>,
    ) -> Result<Self, PlanError>
    where
        Nodes: Capacity<N>,
        requires size { IsSize N size }
        requires few_lines { length lines.items < 2 ^ 32 }
        requires few_restarts { length restarts.items < 2 ^ 32 }
        ensures { let plan = plan_of size.nodes size.rounds size.periods
            (map line_of lines.entry.items) restarts.items in MatchResult result
            (λ x. (x ≡ plan) × (refusal_of plan ≡ None))
            (λ e. (e ≡ PlanError.NoMemory) ⊎ (refusal_of plan ≡ Some e)) }
    {
        let shape = Shape {
            nodes: size.nodes,
            slots: slot_count(size.rounds),
            periods: size.periods,
        };
        let touches = accepted_touches(alloc, &shape, lines.as_slice(), restarts.as_slice())?;
        let Ok(restarting) = restarting_sets(alloc, restarts.as_slice(), size) else {
            return Err(PlanError::NoMemory);
        };
        Ok(PlanIndex {
            shape,
            rounds: size.rounds,
            lines,
            restarts,
            restarting,
            touches,
        })
    }

    pub fn nodes(&self) -> u8
        ensures nodes { result ≡ self.now.nodes }
        ensures shape { IsShape N self.now.nodes (slot_count self.now.rounds) self.now.periods }
    {
        self.shape.nodes
    }

    pub fn slots(&self) -> u8
        ensures { result ≡ slot_count self.now.rounds }
    {
        self.shape.slots
    }

    pub fn periods(&self) -> u32
        ensures { result ≡ self.now.periods }
    {
        self.shape.periods
    }

    pub fn line_count(&self) -> u32
        ensures { result ≡ length self.now.lines }
    {
        self.lines.len() as u32
    }

    pub fn restart_count(&self) -> u32
        ensures { result ≡ length self.now.restarts }
    {
        self.restarts.len() as u32
    }

    /// For each receiver the number of the line that touches a node's frame in a slot: 0 for none,
    /// and 1 for the first line.
    pub fn numbers(&self, period: u32, slot: u8, from: u8) -> &[u16]
        requires period { period < self.now.periods }
        requires slot { slot < slot_count self.now.rounds }
        requires from { from < self.now.nodes }
        ensures long { length result.now ≡ self.now.nodes }
        ensures entries { (to : ℕ) → to < self.now.nodes → slice_index result.now to
            ≡ entry_of (touches period slot from to) self.now.lines }
        ensures alike { (one other : ℕ) → one < self.now.nodes → other < self.now.nodes →
            slice_index result.now one ≡ slice_index result.now other →
            effect_at self.now.lines period slot from one
            ≡ effect_at self.now.lines period slot from other }
    {
        let nodes = self.shape.nodes as usize;
        let block = self.touches.blocks.numbers[period as usize * nodes + from as usize];
        let row = block as usize * self.shape.slots as usize + slot as usize;
        &self.touches.cells[row * nodes..row * nodes + nodes]
    }

    /// The effect of the line that touches the frame.
    pub fn effect(&self, period: u32, slot: u8, from: u8, to: u8) -> Option<&Effect>
        requires period { period < self.now.periods }
        requires slot { slot < slot_count self.now.rounds }
        requires from { from < self.now.nodes }
        requires to { to < self.now.nodes }
        ensures { option_map (λ e. change_of e.now) result
            ≡ effect_at self.now.lines period slot from to }
    {
        let row = self.numbers(period, slot, from);
        let number = row[to as usize];
        if number == 0 {
            None
        } else {
            Some(&self.lines[number as usize - 1].effect)
        }
    }

    pub fn is_restarting(&self, node: u8, period: u32) -> bool
        requires node { node < self.now.nodes }
        requires period { period < self.now.periods }
        ensures { result ≡ restarts_at self.now node period }
    {
        let set = &self.restarting[period as usize];
        set.has(node)
    }

    /// The nodes a frame of which some line touches in the period.
    pub fn touched(&self, period: u32) -> NodeSet<N>
        requires { period < self.now.periods }
        ensures { result ≡ ids_where (λ i. not (is_clean self.now period i)) N }
    {
        self.touches.senders[period as usize]
    }
}
