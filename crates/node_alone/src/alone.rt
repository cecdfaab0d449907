//! A node that is stepped through its log.

ghost use Rattle.std.specs.Prelude.{◌≡◌, ◌<◌, ◌+◌, false, drop, IfOk};
ghost use Rattle.std.specs.Borrow.{sem};
ghost use Rattle.node_steps.specs.Stages.{outcome_of};
ghost use Rattle.node_alone.specs.View.{view_alone};
ghost use Rattle.node_alone.specs.Stepping.{begun_alone, from_slot, woken, IsAloneAt};

use crate::delivering::run_slots;
use crate::record::Record;
use node_core::{Node, NodeRecord};
use node_grid::{Capacity, NoMemory, Nodes};
use node_steps::laws;
use slot_plan::slot_count;
use std::alloc::Global;
use std::marker::Model;

/// A node, stepped period by period by its log.
///
/// Contracts see the log and how many periods were run. That the node is what the log's view leaves
/// after so many periods is kept by the type.
#[derive(Drop)]
pub struct Alone<'s, const N: usize> {
    input: &'s Record<N>,
    run: u32,
    // The first entry that wasn't delivered yet.
    next: usize,
    node: Node<'s, N>,
    shown: NodeRecord<N>,
}

impl<'s, const N: usize> Model for Alone<'s, N> {
    ghost use Rattle.node_alone.specs.Stepping.{AloneView, IsStepped};

    ghost Value = { AloneView N };

    ghost view = { λ a. record { input = a.input.now; run = a.run } };

    ghost invariant = { λ a. IsStepped a.input.now a.run a.next a.node a.shown };
}

/// Restarts the node where its scenario says so.
fn wake<'c, const N: usize>(node: &mut Node<'c, N>, input: &Record<N>, period: u32)
where
    Nodes: Capacity<N>,
    requires closed { node.old.phase.is_open ≡ false }
    requires period { period < input.now.scenario.periods }
    ensures { node.new ≡ woken input.now period node.old }
{
    if input.scenario().plan().restarts(input.id(), period) {
        node.restart();
    }
}

/// Restarts the node where its scenario says so, and begins the period.
fn begin<'c, const N: usize>(node: &mut Node<'c, N>, input: &Record<N>, period: u32)
where
    Nodes: Capacity<N>,
    requires closed { node.old.phase.is_open ≡ false }
    requires period { period < input.now.scenario.periods }
    ensures { node.new ≡ begun_alone input.now period node.old }
{
    wake(node, input, period);
    node.begin(period, &input.scenario().inputs(input.id(), period));
}

/// Steps the node through the period, from entry `next` on. Answers the first entry that is left.
fn step<'c, const N: usize>(
    node: &mut Node<'c, N>,
    input: &Record<N>,
    next: usize,
    period: u32,
) -> usize
where
    Nodes: Capacity<N>,
    requires period { period < input.now.scenario.periods }
    requires before { IsAloneAt input.now period node.old }
    requires rest { drop next input.now.entries ≡ from_slot period 0 input.now.entries }
    ensures after { IsAloneAt input.now (period + 1) node.new }
    ensures shown { node.new.outcome ≡ outcome_of (view_alone input.now period) }
    ensures rest { drop result input.now.entries ≡ from_slot (period + 1) 0 input.now.entries }
{
    laws::period();
    begin(node, input, period);
    let count = slot_count(input.config().m);
    run_slots(node, input.entries(), next, period, count)
}

impl<'s, const N: usize> Alone<'s, N>
where
    Nodes: Capacity<N>,
{
    ghost use Rattle.node_alone.specs.Lending.{RunsOn};

    /// The node before the first period. All memory of the replay is taken here.
    ///
    /// # Errors
    ///
    /// `NoMemory` where there is none.
    pub fn open(alloc: Global, input: &'s Record<N>) -> Result<Alone<'s, N>, NoMemory>
        ensures { IfOk result (λ a. a ≡ record { input = input.now; run = 0 }) }
    {
        let node = Node::open(alloc, input.config(), input.id())?;
        let shown = node.record();
        Ok(Alone {
            input,
            run: 0,
            next: 0,
            node,
            shown,
        })
    }

    /// Steps the node through the next period.
    fn advance(&mut self)
        requires more { self.old.run < self.old.input.scenario.periods }
        ensures { self.new ≡ record self.old { run = self.old.run + 1 } }
    {
        self.next = step(&mut self.node, self.input, self.next, self.run);
        let shown = self.node.record();
        self.shown = shown;
        self.run += 1;
    }

    /// Runs the next period, and shows what the node records of it. It takes no memory.
    pub fn period(&mut self) -> &NodeRecord<N>
        requires more { self.old.run < self.old.input.scenario.periods }
        ensures* after { sem 𝓛 (RunsOn N.row self.entry) }
        ensures shown { result.now ≡ outcome_of (view_alone self.old.input self.old.run) }
    {
        self.advance();
        &self.shown
    }
}
