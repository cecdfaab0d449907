//! From the parts of a clock to the clocks of the nodes, and the rules on clocks and lies.
ghost use Rattle.std.specs.Prelude.{◌≡◌, ◌≤◌, ◌≤ℤ◌, ◌<◌, ℕ, pos, All, None, Some, IfOk, IfErr};
ghost use Rattle.std.specs.Prelude.{IfSome, true, is_some, map, option_map, length};
ghost use Rattle.clock_skew.specs.Clock.{lie_of};
ghost use Rattle.fault_classes.specs.Rules.{IsSize};
ghost use Rattle.scenario.specs.Numbers.{natural};
ghost use Rattle.scenario.specs.Line.{lie_in};
ghost use Rattle.scenario.specs.Given.{padded, clock_given};
ghost use Rattle.scenario.specs.Rules.{at_place, first_bad, are_rows, are_up_to, is_bound};
ghost use Rattle.scenario.specs.Rules.{is_drift, is_clock, hears, is_to_all, may_tell, is_fair};
ghost use Rattle.scenario.specs.Rules.{is_said, is_lie, fits_lie, clock_refused};
ghost use Rattle.scenario.specs.Seen.{lie_view, clock_view};
ghost use Rattle.scenario.specs.Verdict.{Tells};

use crate::configuring::padded;
use crate::error::{ScenarioError, refused};
use crate::numbers::{all_within, is_within, natural};
use crate::parts::{ClockPart, LiePart};
use crate::planning::{first_of, is_addressed, last_of, others_of};
use crate::rules::{are_close, is_row_count};
use clock_skew::{ClockCourse, ClockPlan, Lie};
use fault_classes::{FaultPlan, PlanSize};
use node_grid::{Capacity, Class, Nodes};
use std::alloc::{AllocError, Global};

// The greatest reading error and drift.
const BOUND: i64 = 1 << 20;

// The greatest distance of a start from 0, and what a lie adds at most.
const OFFSET_LIMIT: i64 = 1 << 40;

const MOST_LIES: usize = 4096;

// ---- rule 18

fn is_bound(number: i64) -> bool
    ensures { result ≡ is_bound number }
{
    is_within(number, 0, BOUND)
}

/// Whether there is a number for each node, at most so far from 0.
fn are_up_to(row: &[i64], nodes: usize, most: i64) -> bool
    requires { pos 0 ≤ℤ most }
    ensures { result ≡ are_up_to nodes most row.now }
{
    row.len() == nodes && all_within(row, -most, most)
}

/// Whether it is a row of drifts, no two of which differ by more than `drift`.
fn is_drift(row: &[i64], nodes: usize, drift: i64) -> bool
    ensures { result ≡ is_drift nodes drift row.now }
{
    are_up_to(row, nodes, BOUND) && are_close(row, drift)
}

fn are_drifts(rows: &[Vec<i64>], nodes: usize, drift: i64) -> bool
    ensures { result ≡ are_rows (is_drift nodes drift) (map (λ row. row.items) rows.now) }
{
    if !is_row_count(rows.len()) {
        return false;
    }
    for row in rows {
        if !is_drift(row, nodes, drift) {
            return false;
        }
    }
    true
}

fn are_errors(rows: &[Vec<i64>], nodes: usize, epsilon: i64) -> bool
    requires { pos 0 ≤ℤ epsilon }
    ensures { result ≡ are_rows (are_up_to nodes epsilon) (map (λ row. row.items) rows.now) }
{
    if !is_row_count(rows.len()) {
        return false;
    }
    for row in rows {
        if !are_up_to(row, nodes, epsilon) {
            return false;
        }
    }
    true
}

impl ClockPart {
    fn is_clock(&self, nodes: usize) -> bool
        ensures { result ≡ is_clock nodes (clock_view self.now) }
    {
        is_bound(self.epsilon)
            && is_bound(self.drift)
            && are_up_to(&self.start, nodes, OFFSET_LIMIT)
            && are_drifts(&self.drifts, nodes, self.drift)
            && are_errors(&self.errors, nodes, self.epsilon)
    }
}

// ---- rule 19

/// Whether the lie is told to the node, or is its own.
fn hears<const N: usize>(lie: &Lie<N>, node: u8) -> bool
    ensures { result ≡ hears (lie_of lie.now) node }
{
    node == lie.from || lie.to.has(node)
}

/// Whether the lie is told to each node but the liar.
fn is_to_all<const N: usize>(lie: &Lie<N>, nodes: u8) -> bool
    ensures { result ≡ is_to_all nodes (lie_of lie.now) }
{
    for node in 0..nodes {
        if !hears(lie, node) {
            return false;
        }
    }
    true
}

/// Whether a node of this class may tell a lie: an unsound one may, and a symmetric one tells it to
/// all others.
fn may_tell(class: Class, to_all: bool) -> bool
    ensures { result ≡ may_tell to_all class }
{
    match class {
        Class::N | Class::J => false,
        Class::B | Class::A => true,
        Class::S => to_all,
    }
}

/// Whether the liar may tell the lie in each of its periods.
fn is_fair<const N: usize>(lie: &Lie<N>, plan: &FaultPlan<N>, nodes: u8) -> bool
    requires nodes { nodes ≡ plan.now.nodes }
    requires from { lie.now.from < nodes }
    requires last { lie.now.last < plan.now.periods }
    requires periods { plan.now.periods ≤ 1024 }
    ensures { result ≡ is_fair plan.now (lie_of lie.now) }
{
    let to_all = is_to_all(lie, nodes);
    for period in lie.first..lie.last + 1 {
        if !may_tell(plan.class(lie.from, period), to_all) {
            return false;
        }
    }
    true
}

/// Whether all numbers of the lie are in range.
fn is_said(part: &LiePart, nodes: u8, periods: u32) -> bool
    ensures { result ≡ is_said nodes periods (lie_view part.now) }
{
    is_addressed(nodes, periods, part.from, &part.to, &part.periods)
        && is_within(part.by, -OFFSET_LIMIT, OFFSET_LIMIT)
}

/// The lie that the part is.
fn said<const N: usize>(part: &LiePart, nodes: u8, periods: u32) -> Lie<N>
where
    Nodes: Capacity<N>,
    requires few { nodes ≤ N }
    requires few_periods { periods ≤ 1024 }
    requires said { is_said nodes periods (lie_view part.now) ≡ true }
    ensures { lie_of result ≡ lie_in nodes (lie_view part.now) }
{
    let _ = periods;
    Lie {
        from: natural(part.from) as u8,
        to: others_of(nodes, part.from, &part.to),
        first: first_of(&part.periods) as u32,
        last: last_of(&part.periods) as u32,
        by: part.by,
    }
}

/// The lie that the part is, where the plan lets its node tell it.
fn lie<const N: usize>(
    part: &LiePart,
    plan: &FaultPlan<N>,
    nodes: u8,
    periods: u32,
) -> Option<Lie<N>>
where
    Nodes: Capacity<N>,
    requires few { nodes ≤ N }
    requires nodes { nodes ≡ plan.now.nodes }
    requires periods { periods ≡ plan.now.periods }
    requires few_periods { periods ≤ 1024 }
    ensures fits { is_some result ≡ is_lie plan.now (lie_view part.now) }
    ensures lie { IfSome result (λ l. lie_of l ≡ lie_in nodes (lie_view part.now)) }
{
    if !is_said(part, nodes, periods) {
        return None;
    }
    let lie = said(part, nodes, periods);
    if is_fair(&lie, plan, nodes) {
        Some(lie)
    } else {
        None
    }
}

/// The lies that the parts are.
///
/// # Errors
/// `Refused` with rule 19 and the place of the first that isn't one, or is one too many;
/// `NoMemory`.
fn lies<const N: usize>(
    alloc: Global,
    parts: &[LiePart],
    plan: &FaultPlan<N>,
    nodes: u8,
    periods: u32,
) -> Result<Vec<Lie<N>>, ScenarioError>
where
    Nodes: Capacity<N>,
    requires few { nodes ≤ N }
    requires nodes { nodes ≡ plan.now.nodes }
    requires periods { periods ≡ plan.now.periods }
    requires few_periods { periods ≤ 1024 }
    ensures lies { IfOk result (λ v. map lie_of v.items
        ≡ map (lie_in nodes) (map lie_view parts.now)) }
    ensures unrefused { IfOk result (λ v.
        first_bad (fits_lie plan.now) 0 (map lie_view parts.now) ≡ None) }
    ensures refused { IfErr result (Tells (at_place 19
        (first_bad (fits_lie plan.now) 0 (map lie_view parts.now)))) }
{
    let mut lies = Vec::new(alloc);
    for (place, part) in parts.iter().enumerate() {
        if place >= MOST_LIES {
            return Err(refused(19, place));
        }
        let Some(lie) = lie(part, plan, nodes, periods) else {
            return Err(refused(19, place));
        };
        let Ok(()) = lies.push(lie) else {
            return Err(ScenarioError::NoMemory);
        };
    }
    Ok(lies)
}

// ---- the clocks

/// The rows, with the numbers of the nodes in use, and 0 behind them.
fn rows<const N: usize>(alloc: Global, rows: &[Vec<i64>]) -> Result<Vec<[i64; N]>, AllocError>
where
    Nodes: Capacity<N>,
    requires few { All (λ row. length row ≤ N) (map (λ row. row.items) rows.now) }
    ensures { IfOk result (λ v. v.items ≡ map (padded N) (map (λ row. row.items) rows.now)) }
{
    let mut found = Vec::with_capacity(alloc, rows.len())?;
    for row in rows {
        found.push(padded(row))?;
    }
    Ok(found)
}

/// The clocks that the part is, under a plan.
///
/// # Errors
/// `Refused` with the first of rules 18 and 19 that fails and its place; `NoMemory`.
fn clocks<const N: usize>(
    alloc: Global,
    part: &ClockPart,
    plan: &FaultPlan<N>,
    bounds: PlanSize,
) -> Result<ClockPlan<N>, ScenarioError>
where
    Nodes: Capacity<N>,
    requires size { IsSize N bounds }
    requires nodes { bounds.nodes ≡ plan.now.nodes }
    requires periods { bounds.periods ≡ plan.now.periods }
    ensures clock { IfOk result (λ c. c ≡ clock_given N bounds.nodes (clock_view part.now)) }
    ensures unrefused { IfOk result (λ c.
        clock_refused bounds.nodes plan.now (Some (clock_view part.now)) ≡ None) }
    ensures refused { IfErr result (Tells
        (clock_refused bounds.nodes plan.now (Some (clock_view part.now)))) }
{
    if !part.is_clock(bounds.nodes as usize) {
        return Err(refused(18, 0));
    }
    let lies = lies(alloc, &part.lies, plan, bounds.nodes, bounds.periods)?;
    let Ok(drifts) = rows(alloc, &part.drifts) else {
        return Err(ScenarioError::NoMemory);
    };
    let Ok(errors) = rows(alloc, &part.errors) else {
        return Err(ScenarioError::NoMemory);
    };
    Ok(ClockPlan::new(ClockCourse {
        nodes: bounds.nodes,
        epsilon: part.epsilon,
        drift: part.drift,
        start: padded(&part.start),
        drifts,
        errors,
        lies,
    }))
}

/// The clocks of the scenario under its plan, where it has some.
///
/// # Errors
/// `Refused` with the first of rules 18 and 19 that fails and its place; `NoMemory`.
pub(crate) fn clock<const N: usize>(
    alloc: Global,
    part: &Option<ClockPart>,
    plan: &FaultPlan<N>,
    bounds: PlanSize,
) -> Result<Option<ClockPlan<N>>, ScenarioError>
where
    Nodes: Capacity<N>,
    requires size { IsSize N bounds }
    requires nodes { bounds.nodes ≡ plan.now.nodes }
    requires periods { bounds.periods ≡ plan.now.periods }
    ensures clock { IfOk result (λ o.
        o ≡ option_map (clock_given N bounds.nodes) (option_map clock_view part.now)) }
    ensures unrefused { IfOk result (λ o.
        clock_refused bounds.nodes plan.now (option_map clock_view part.now) ≡ None) }
    ensures refused { IfErr result (Tells
        (clock_refused bounds.nodes plan.now (option_map clock_view part.now))) }
{
    let Some(part) = part else {
        return Ok(None);
    };
    Ok(Some(clocks(alloc, part, plan, bounds)?))
}
