//! What a node is told by lies of clocks: a look-up that goes through all of them once, and a plain
//! one.

ghost use Rattle.std.specs.Prelude.{◌≡◌, ◌<◌, ◌≤◌, All, IfOk, IfSome, length};
ghost use Rattle.clock_skew.specs.Clock.{IsLie, lie_of};

use crate::draws::Draws;
use clock_skew::{ClockCourse, ClockPlan, Lie};
use node_grid::NodeSet;
use std::alloc::{AllocError, Global};
use worked_rows::rows;

/// How many plans are drawn.
const DRAWN: u32 = 200;

/// How many periods are looked at.
const PERIODS: u16 = 8;

/// The nodes of each plan.
const NODES: u8 = 12;

/// A drawn lie of one node to some others; none where that would be to nobody.
fn drawn_lie(draws: &mut Draws) -> Option<Lie<16>>
    ensures { IfSome result (λ lie. IsLie 12 (lie_of lie)) }
{
    let from = draws.below(NODES as u16) as u8;
    let to = NodeSet::full(NODES).minus(&draws.nodes()).without(from);
    if to.is_empty() {
        return None;
    }
    let first = draws.below(PERIODS) as u32;
    let last = first + draws.below(PERIODS) as u32;
    let by = draws.next() as i64;
    Some(Lie {
        from,
        to,
        first,
        last,
        by,
    })
}

/// Lies of some of a plan's nodes to others, as many as a plan can have.
#[derive(Drop)]
struct Lies {
    lies: Vec<Lie<16>>,
    ghost few: { length lies.items ≤ 4096 },
    ghost are: { All (λ lie. IsLie 12 (lie_of lie)) lies.items },
}

/// Up to so many drawn lies.
fn drawn_lies(alloc: Global, draws: &mut Draws, most: u8) -> Result<Lies, AllocError>
    ensures { IfOk result (λ drawn. length drawn.lies.items ≤ most) }
{
    let mut lies = Vec::new(alloc);
    for _ in 0..most {
        let Some(lie) = drawn_lie(draws) else {
            continue;
        };
        lies.push(lie)?;
    }
    Ok(Lies { lies })
}

/// A plan of twelve nodes.
#[derive(Drop)]
struct Plan {
    plan: ClockPlan<16>,
    ghost nodes: { plan.nodes ≡ 12 },
}

/// A plan in which all clocks stand still, are read without an error, and nodes lie so.
fn plan_of(alloc: Global, told: &Lies) -> Result<Plan, AllocError> {
    let drifts = Vec::from_slice(alloc, &[[0; 16]])?;
    let errors = Vec::from_slice(alloc, &[[0; 16]])?;
    let lies = Vec::from_slice(alloc, told.lies.as_slice())?;
    let plan = ClockPlan::new(ClockCourse {
        nodes: NODES,
        epsilon: 0,
        drift: 0,
        start: [0; 16],
        drifts,
        errors,
        lies,
    });
    Ok(Plan { plan })
}

/// Whether this lie is told by node `j` to node `i` in a period.
fn is_told(lie: &Lie<16>, j: u8, i: u8, period: u32) -> bool {
    lie.from == j && lie.first <= period && period <= lie.last && lie.to.has(i)
}

/// By how much node `j` lies to node `i` in a period: by the first lie in the list that is told.
fn first_told(lies: &[Lie<16>], j: u8, i: u8, period: u32) -> i64 {
    for lie in lies {
        if is_told(lie, j, i, period) {
            return lie.by;
        }
    }
    0
}

/// Whether node `i` is told by each other one in a period as a walk through the lies finds it.
fn is_told_alike(told: &[i64; 16], lies: &[Lie<16>], i: u8, period: u32) -> bool {
    for j in 0..16u8 {
        if told[j as usize] != first_told(lies, j, i, period) {
            return false;
        }
    }
    true
}

/// Whether each node is told the same by both in each period.
fn are_told_alike(plan: &Plan, lies: &[Lie<16>]) -> bool {
    for period in 0..2 * PERIODS as u32 {
        for i in 0..NODES {
            let told = plan.plan.lies_to(i, period);
            if !is_told_alike(&told, lies, i, period) {
                return false;
            }
        }
    }
    true
}

/// Whether a drawn plan tells each node the same both ways.
fn is_drawn_alike(alloc: Global, draws: &mut Draws) -> Result<bool, AllocError> {
    let count = draws.below(24) as u8;
    let told = drawn_lies(alloc, draws, count)?;
    let plan = plan_of(alloc, &told)?;
    Ok(are_told_alike(&plan, told.lies.as_slice()))
}

/// How many drawn plans tell each node the same both ways.
fn count_alike(alloc: Global) -> Result<u32, AllocError> {
    let mut draws = Draws::new(13);
    let mut alike = 0u32;
    for _ in 0..DRAWN {
        let is_alike = is_drawn_alike(alloc, &mut draws)?;
        alike = alike.saturating_add(is_alike as u32);
    }
    Ok(alike)
}

pub fn print(rt: &HostRuntime) -> anyhow::Result<()> {
    let alike = count_alike(rt.alloc())?;
    rows(
        rt,
        &[
            ("plans of lies drawn", DRAWN),
            (
                "  of which tell each node the same at once and by a walk for each liar",
                alike,
            ),
        ],
    )?;
    Ok(())
}
