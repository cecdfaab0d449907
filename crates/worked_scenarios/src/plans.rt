//! What a plan of fault lines and restarts makes of each node.

ghost use Rattle.std.specs.Prelude.{◌≡◌, ◌<◌, IfOk, length};

use fault_classes::{Effect, FaultLine, FaultPlan, PlanSize, Restart};
use node_grid::{Class, NodeSet};
use std::alloc::{AllocError, Global};
use std::io;
use worked_rows::{Several, row, rows};

/// A plan of four nodes with one relay round in four periods.
#[derive(Drop)]
struct SmallPlan {
    plan: FaultPlan<8>,
    ghost nodes: { plan.nodes ≡ 4 },
    ghost rounds: { plan.rounds ≡ 1 },
    ghost periods: { plan.periods ≡ 4 },
}

/// Node 3 is silent in period 0; in period 2 the frame of node 2 in slot 1 comes too late to node 0
/// alone.
fn lines(alloc: Global) -> Result<Vec<FaultLine<8>>, AllocError>
    ensures { IfOk result (λ lines. length lines.items ≡ 2) }
{
    let mut lines = Vec::new(alloc);
    lines.push(FaultLine {
        from: 3,
        to: NodeSet::full(3),
        first: 0,
        last: 0,
        slots: 63,
        effect: Effect::Drop,
    })?;
    lines.push(FaultLine {
        from: 2,
        to: NodeSet::full(1),
        first: 2,
        last: 2,
        slots: 2,
        effect: Effect::Time(25),
    })?;
    Ok(lines)
}

/// A plan of these lines, in which node 3 restarts in period 1.
fn small_plan(alloc: Global) -> anyhow::Result<SmallPlan> {
    let lines = lines(alloc)?;
    let restarts = Vec::from_slice(alloc, &[Restart { node: 3, period: 1 }])?;
    let size = PlanSize {
        nodes: 4,
        rounds: 1,
        periods: 4,
    };
    match FaultPlan::new(alloc, size, lines, restarts) {
        Ok(plan) => Ok(SmallPlan { plan }),
        Err(error) => Err(error.into()),
    }
}

fn name_of(class: Class) -> &'static str {
    match class {
        Class::N => "N",
        Class::J => "J",
        Class::B => "B",
        Class::S => "S",
        Class::A => "A",
    }
}

/// Prints the classes of a period, the reference node, and the budget of all four nodes.
fn show(rt: &HostRuntime, small: &SmallPlan, period: u32) -> io::Result<()>
    requires { period < 4 }
{
    let plan = &small.plan;
    let mut names = [""; 4];
    for node in 0..4u8 {
        names[node as usize] = name_of(plan.class(node, period));
    }
    row(rt, "classes in a period", Several(&names))?;
    let budget = plan.budget(&NodeSet::full(4), period);
    let counts = [budget.n, budget.a, budget.s, budget.b];
    row(rt, "  members, and those of A, S and B", Several(&counts))?;
    row(rt, "  tolerated by one relay round", budget.holds(1))
}

fn of_nodes(rt: &HostRuntime, small: &SmallPlan) -> io::Result<()> {
    let plan = &small.plan;
    rows(
        rt,
        &[
            ("node 3 is clean in period 0", plan.clean(3, 0)),
            ("in period 1", plan.clean(3, 1)),
            ("it restarts in period 1", plan.restarts(3, 1)),
            ("it is sound in period 0", plan.sound(3, 0)),
            ("in period 1", plan.sound(3, 1)),
            ("node 2 is sound in period 3", plan.sound(2, 3)),
        ],
    )
}

/// At which tick the frame of node 2 in a slot of period 2 comes to another node by its line; 0
/// where no such line touches it, or there is no such frame.
fn tick_by_line(small: &SmallPlan, slot: u8, to: u8) -> u8 {
    if slot >= 6 || to >= 4 || to == 2 {
        return 0;
    }
    match small.plan.effect(2, slot, 2, to) {
        Some(Effect::Time(tick)) => *tick,
        _ => 0,
    }
}

fn of_ticks(rt: &HostRuntime, small: &SmallPlan) -> io::Result<()> {
    rows(
        rt,
        &[
            (
                "the tick of node 2's frame to node 0 in slot 1 of period 2",
                tick_by_line(small, 1, 0),
            ),
            ("to node 1", tick_by_line(small, 1, 1)),
            ("to node 0 in slot 2, by no line", tick_by_line(small, 2, 0)),
        ],
    )
}

fn of_plan(rt: &HostRuntime, small: &SmallPlan) -> io::Result<()> {
    row(rt, "lines of a plan", small.plan.line_count())?;
    row(rt, "restarts", small.plan.restart_count())?;
    for period in 0..4 {
        show(rt, small, period)?;
    }
    of_nodes(rt, small)?;
    of_ticks(rt, small)
}

pub fn print(rt: &HostRuntime) -> anyhow::Result<()> {
    let small = small_plan(rt.alloc())?;
    Ok(of_plan(rt, &small)?)
}
