//! Plans that a rule refuses, the most lines, and the largest plan.

use fault_classes::{Effect, FaultLine, FaultPlan, PlanError, PlanSize, Restart};
use node_grid::NodeSet;
use std::alloc::{AllocError, Global};
use std::io;
use worked_rows::row;

/// A line of node 2, whose frames to these nodes don't come in a slot of a period.
#[derive(Clone, Copy)]
struct Lost {
    to: NodeSet<8>,
    period: u32,
    slots: u16,
}

impl Lost {
    fn line(self) -> FaultLine<8> {
        FaultLine {
            from: 2,
            to: self.to,
            first: self.period,
            last: self.period,
            slots: self.slots,
            effect: Effect::Drop,
        }
    }
}

/// To node 0, in slot 0 of period 0.
fn first_frame() -> Lost {
    Lost {
        to: NodeSet::full(1),
        period: 0,
        slots: 1,
    }
}

/// How many lines the plan has that these make for three nodes, without a relay round, in 1,024
/// periods. More than 10,000 of either are too many.
fn line_count(
    alloc: Global,
    lines: Vec<FaultLine<8>>,
    restarts: Vec<Restart>,
) -> Result<u32, PlanError> {
    if lines.len() > 10_000 || restarts.len() > 10_000 {
        return Err(PlanError::TooMany);
    }
    let size = PlanSize {
        nodes: 3,
        rounds: 0,
        periods: 1024,
    };
    let plan = FaultPlan::new(alloc, size, lines, restarts)?;
    Ok(plan.line_count())
}

/// Prints why there is no plan, and the place that is told.
fn refused(rt: &HostRuntime, asked: &str, error: PlanError) -> io::Result<()> {
    println!(rt; "{asked}: {error}")?;
    match error {
        PlanError::Range(at) | PlanError::Overlap(at) | PlanError::Restart(at) => {
            row(rt, "  place", at)
        }
        PlanError::TooMany | PlanError::NoMemory => Ok(()),
    }
}

/// Prints how many lines a plan has, or why there is none.
fn tell(rt: &HostRuntime, asked: &str, count: Result<u32, PlanError>) -> io::Result<()> {
    match count {
        Ok(count) => row(rt, asked, count),
        Err(error) => refused(rt, asked, error),
    }
}

/// Prints whether these make a plan.
fn plan(
    rt: &HostRuntime,
    asked: &str,
    lines: Vec<FaultLine<8>>,
    restarts: &[Restart],
) -> anyhow::Result<()> {
    let restarts = Vec::from_slice(rt.alloc(), restarts)?;
    Ok(tell(rt, asked, line_count(rt.alloc(), lines, restarts))?)
}

/// The lines of these.
fn lines(alloc: Global, all: &[Lost]) -> Result<Vec<FaultLine<8>>, AllocError> {
    let mut lines = Vec::new(alloc);
    for lost in all {
        lines.push(lost.line())?;
    }
    Ok(lines)
}

/// So many lines of which no two share a link, a period and a slot.
fn apart(alloc: Global, count: u32) -> Result<Vec<FaultLine<8>>, AllocError> {
    let mut lines = Vec::new(alloc);
    for k in 0..count {
        let lost = Lost {
            to: NodeSet::full(1),
            period: k % 1024,
            slots: 1 << (k / 1024 % 4),
        };
        lines.push(lost.line())?;
    }
    Ok(lines)
}

fn of_lines(rt: &HostRuntime) -> anyhow::Result<()> {
    let itself = Lost {
        to: NodeSet::full(3),
        ..first_frame()
    };
    plan(
        rt,
        "a line behind another one, to its own sender",
        lines(rt.alloc(), &[first_frame(), itself])?,
        &[],
    )?;
    let after = Lost {
        period: 1024,
        ..first_frame()
    };
    plan(
        rt,
        "a line behind all periods",
        lines(rt.alloc(), &[after])?,
        &[],
    )?;
    let all_slots = Lost {
        slots: 15,
        ..first_frame()
    };
    plan(
        rt,
        "two lines in one slot",
        lines(rt.alloc(), &[first_frame(), all_slots])?,
        &[],
    )?;
    plan(
        rt,
        "two lines in one slot, and a third one to its own sender",
        lines(rt.alloc(), &[first_frame(), first_frame(), itself])?,
        &[],
    )
}

fn of_restarts(rt: &HostRuntime) -> anyhow::Result<()> {
    plan(
        rt,
        "a restart in period 0",
        Vec::new(rt.alloc()),
        &[Restart { node: 0, period: 0 }],
    )?;
    plan(
        rt,
        "a restart of node 3",
        Vec::new(rt.alloc()),
        &[Restart { node: 3, period: 1 }],
    )?;
    plan(
        rt,
        "restarts of node 2 and then of node 1 in one period",
        Vec::new(rt.alloc()),
        &[
            Restart { node: 2, period: 1 },
            Restart { node: 1, period: 1 },
        ],
    )
}

fn of_most(rt: &HostRuntime) -> anyhow::Result<()> {
    let most = apart(rt.alloc(), 4096)?;
    plan(rt, "4096 lines: lines", most, &[])
}

fn of_too_many(rt: &HostRuntime) -> anyhow::Result<()> {
    let mut many = apart(rt.alloc(), 4096)?;
    let other = Lost {
        to: NodeSet::full(2).without(0),
        ..first_frame()
    };
    many.push(other.line())?;
    plan(rt, "4097 lines", many, &[])
}

/// Whether a plan of sixteen nodes in 1,024 periods can be had.
fn can_have_sixteen(alloc: Global) -> bool {
    let size = PlanSize {
        nodes: 16,
        rounds: 3,
        periods: 1024,
    };
    let made: Result<FaultPlan<16>, PlanError> = FaultPlan::new(
        alloc,
        size,
        Vec::new(alloc),
        Vec::new(alloc),
    );
    made.is_ok()
}

fn of_sixteen(rt: &HostRuntime) -> io::Result<()> {
    row(
        rt,
        "a plan of sixteen nodes in 1024 periods can be had",
        can_have_sixteen(rt.alloc()),
    )
}

pub fn print(rt: &HostRuntime) -> anyhow::Result<()> {
    of_lines(rt)?;
    of_restarts(rt)?;
    of_most(rt)?;
    of_too_many(rt)?;
    Ok(of_sixteen(rt)?)
}
