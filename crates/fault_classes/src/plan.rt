ghost use Rattle.std.specs.Prelude.{◌≡◌, ◌≢◌, ℕ, ◌^◌, ◌<◌, ◌≤◌, ◌⊎◌, None, Some, All, MatchResult};
ghost use Rattle.std.specs.Prelude.{map, length, option_map};
ghost use Rattle.fault_classes.specs.Change.{change_of};
ghost use Rattle.fault_classes.specs.Line.{line_of, effect_at};
ghost use Rattle.slot_plan.specs.Slots.{slot_count};
ghost use Rattle.fault_classes.specs.Plan.{plan_of, restarts_at, is_clean, is_sound_in, class_of};
ghost use Rattle.fault_classes.specs.Plan.{reference_of};
ghost use Rattle.fault_classes.specs.Rules.{IsSize, IsPlan, refusal_of};
ghost use Rattle.fault_classes.specs.Budget.{IsBudget};

use crate::index::PlanIndex;
use crate::standing::{Standing, is_sound, standings_of};
use crate::{Budget, Effect, FaultLine, PlanError, PlanSize, Restart};
use node_grid::{Capacity, Class, NodeSet, Nodes};
use std::alloc::Global;
use std::marker::Model;

/// The fault lines and restarts of a run, with what they make of each node in each period.
///
/// All its memory is taken by `new`. Every other call takes none, and is a look-up.
#[derive(Drop)]
pub struct FaultPlan<const N: usize> {
    index: PlanIndex<N>,
    standings: Vec<Standing<N>>,
}

// Clauses see the plan.
impl<const N: usize> Model for FaultPlan<N> {
    ghost use Rattle.fault_classes.specs.Plan.{Plan};
    ghost use Rattle.fault_classes.specs.Rules.{IsPlan};
    ghost use Rattle.fault_classes.specs.Standing.{AreStandings};

    ghost Value = { Plan };

    ghost view = { λ x. x.index };

    ghost invariant = { λ x. IsPlan N x.index × AreStandings x.index x.standings.items };
}

impl<const N: usize> FaultPlan<N> {
    /// The plan of these lines and restarts, of this size.
    ///
    /// # Errors
    ///
    /// `Range`: a line is out of range; `Overlap`: it shares a link, a period and a slot with a
    /// line before it; `Restart`: a restart is out of range or doesn't come after the one before
    /// it; `TooMany`: there are more than 4,096 lines. Each comes only where no earlier one does,
    /// and names the first such place. `NoMemory`: there was no memory.
    pub fn new(
        alloc: Global,
        size: PlanSize,
        lines: Vec<FaultLine<N>>,
        restarts: Vec<Restart>,
    ) -> Result<FaultPlan<N>, PlanError>
    where
        Nodes: Capacity<N>,
        requires size { IsSize N size }
        requires few_lines { length lines.items < 2 ^ 32 }
        requires few_restarts { length restarts.items < 2 ^ 32 }
        ensures { let plan = plan_of size.nodes size.rounds size.periods
            (map line_of lines.entry.items) restarts.items in MatchResult result
            (λ x. (x ≡ plan) × (refusal_of plan ≡ None))
            (λ e. (e ≡ PlanError.NoMemory) ⊎ (refusal_of plan ≡ Some e)) }
    {
        let index = PlanIndex::new(alloc, size, lines, restarts)?;
        let Ok(standings) = standings_of(alloc, &index) else {
            return Err(PlanError::NoMemory);
        };
        Ok(FaultPlan { index, standings })
    }

    /// The effect of the one line that has the link, the period and the slot; None exactly where no
    /// line has them.
    pub fn effect(&self, period: u32, slot: u8, from: u8, to: u8) -> Option<&Effect>
        requires period { period < self.now.periods }
        requires slot { slot < slot_count self.now.rounds }
        requires from { from < self.now.nodes }
        requires to { to < self.now.nodes }
        requires link { from ≢ to }
        ensures { option_map (λ e. change_of e.now) result
            ≡ effect_at self.now.lines period slot from to }
    {
        self.index.effect(period, slot, from, to)
    }

    /// Whether the node restarts at the start of the period.
    pub fn restarts(&self, node: u8, period: u32) -> bool
        requires node { node < self.now.nodes }
        requires period { period < self.now.periods }
        ensures { result ≡ restarts_at self.now node period }
    {
        self.index.is_restarting(node, period)
    }

    /// Whether no line touches a frame that the node sends in the period.
    pub fn clean(&self, node: u8, period: u32) -> bool
        requires node { node < self.now.nodes }
        requires period { period < self.now.periods }
        ensures { result ≡ is_clean self.now period node }
    {
        let standing = &self.standings[period as usize];
        standing.clean.has(node)
    }

    /// Whether the node is sound in the period: of class N or J.
    pub fn sound(&self, node: u8, period: u32) -> bool
        requires node { node < self.now.nodes }
        requires period { period < self.now.periods }
        ensures { result ≡ is_sound_in self.now period node }
    {
        is_sound(self.class(node, period))
    }

    /// The class of the node in the period.
    pub fn class(&self, node: u8, period: u32) -> Class
        requires node { node < self.now.nodes }
        requires period { period < self.now.periods }
        ensures { result ≡ class_of self.now period node }
    {
        let standing = &self.standings[period as usize];
        standing.classes[node as usize]
    }

    /// The reference node of the period, the least node of class N; None exactly where there is
    /// none.
    pub fn reference(&self, period: u32) -> Option<u8>
        requires { period < self.now.periods }
        ensures { result ≡ reference_of self.now period }
    {
        let standing = &self.standings[period as usize];
        standing.reference
    }

    /// The number of lines, at most 4,096.
    pub fn line_count(&self) -> u32
        ensures count { result ≡ length self.now.lines }
        ensures plan { IsPlan N self.now }
    {
        self.index.line_count()
    }

    /// The number of restarts.
    pub fn restart_count(&self) -> u32
        ensures { result ≡ length self.now.restarts }
    {
        self.index.restart_count()
    }

    /// How many of these members are of each class in the period.
    pub fn budget(&self, members: &NodeSet<N>, period: u32) -> Budget
        requires members { All (λ q. q < self.now.nodes) members.now }
        requires period { period < self.now.periods }
        ensures { IsBudget self.now period members.now result }
    {
        let _ = &self.standings;
        let mut budget = Budget {
            n: members.len(),
            a: 0,
            s: 0,
            b: 0,
        };
        for node in members.iter() {
            budget.add(self.class(node, period));
        }
        budget
    }
}
