//! Parts of the lines of a node, which other nodes mostly have too.
ghost use Rattle.std.specs.Prelude.{◌≡◌, ◌≤◌, ◌<◌, ◌-◌, true, false, Some, [], length};
ghost use Rattle.agreed_state.specs.Agreed.{AgreedView};
ghost use Rattle.run_text.specs.NodeText.{standing_text, settled_text};
ghost use Rattle.run_print.specs.Common.{AreSettledAlike};

use crate::printer::Printer;
use agreed_state::Agreed;
use node_core::NodeRecord;
use node_grid::{Capacity, Nodes};
use span_io::{Failed, Sink};

/// Room for the members, penalty counts and streaks, as they mostly are.
const STANDING: usize = 512;

/// Room for what was settled and voted, as it mostly is.
const SETTLED: usize = 1024;

/// A sink that takes nothing.
#[derive(Drop)]
pub(crate) struct Nowhere {
    /// How often something was written; the number stands still at the end of its type.
    pub faults: u64,
}

impl Sink for Nowhere {
    ghost written = { λ s. Some [] };

    ghost faults = { λ s. s.faults };

    fn write(&mut self, bytes: &[u8]) -> Result<usize, Failed> {
        let _ = bytes;
        self.faults = self.faults.saturating_add(1);
        Err(Failed)
    }
}

/// A node whose lines others may have too, of so many: the reference node, or else the least node.
pub(crate) fn example_of(reference: Option<u8>, nodes: u8) -> u8
    ensures { result ≤ nodes - 1 }
{
    match reference {
        Some(node) if node < nodes => node,
        _ => 0,
    }
}

/// The record of a node and parts of its lines, for the nodes of which they are the same.
#[derive(Drop)]
pub(crate) struct Common<'a, const N: usize> {
    /// How many nodes are in use.
    pub nodes: u8,
    /// What the node recorded.
    pub shown: &'a NodeRecord<N>,
    /// The members, penalty counts and streaks, unless there was no room for them.
    pub standing: Printer<STANDING>,
    /// What was settled and voted, unless there was no room for it.
    pub settled: Printer<SETTLED>,
    ghost stands: { standing.failed ≡ false → (a : AgreedView) → shown.now.agreed ≡ Some a
        → standing.gathered ≡ standing_text nodes a },
    ghost settles: { settled.failed ≡ false → settled.gathered ≡ settled_text nodes shown.now },
}

/// Gathers the members, penalty counts and streaks of a node; where there are none, or no room for
/// them, the printer fails.
fn standing_of<const N: usize>(nodes: u8, shown: &NodeRecord<N>) -> Printer<STANDING>
where
    Nodes: Capacity<N>,
    ensures { result.failed ≡ false → (a : AgreedView) → shown.now.agreed ≡ Some a
        → result.gathered ≡ standing_text nodes a }
{
    let mut nowhere = Nowhere { faults: 0 };
    let mut printer = Printer::new();
    match &shown.agreed {
        None => printer.failed = true,
        Some(agreed) => printer.standing(&mut nowhere, nodes, agreed),
    }
    printer
}

/// Gathers what a node settled and voted; where there is no room for it, the printer fails.
fn settled_of<const N: usize>(nodes: u8, shown: &NodeRecord<N>) -> Printer<SETTLED>
where
    Nodes: Capacity<N>,
    ensures { result.failed ≡ false → result.gathered ≡ settled_text nodes shown.now }
{
    let mut nowhere = Nowhere { faults: 0 };
    let mut printer = Printer::new();
    printer.settled(&mut nowhere, nodes, shown);
    printer
}

impl<'a, const N: usize> Common<'a, N> {
    /// The lines of one node.
    pub(crate) fn of(nodes: u8, shown: &'a NodeRecord<N>) -> Self
    where
        Nodes: Capacity<N>,
        ensures { result.nodes ≡ nodes }
    {
        Common {
            nodes,
            shown,
            standing: standing_of(nodes, shown),
            settled: settled_of(nodes, shown),
        }
    }

    /// Whether the members, penalty counts and streaks are those of another agreed state too.
    pub(crate) fn stands(&self, other: &Agreed<N>) -> bool
        ensures { result ≡ true
            → self.now.standing.gathered ≡ standing_text self.now.nodes other.now }
    {
        let shown = self.shown;
        match &shown.agreed {
            None => false,
            Some(agreed) => !self.standing.failed && standing_alike(agreed, other),
        }
    }

    /// Whether another node settled and voted the same.
    pub(crate) fn settles(&self, other: &NodeRecord<N>) -> bool
    where
        Nodes: Capacity<N>,
        ensures { result ≡ true →
            self.now.settled.gathered ≡ settled_text self.now.nodes other.now }
    {
        !self.settled.failed && settled_alike(self.shown, other)
    }
}

/// Whether two agreed states have the same members, penalty counts and streaks.
fn standing_alike<const N: usize>(one: &Agreed<N>, other: &Agreed<N>) -> bool
    ensures members { result ≡ true → one.now.standing.members ≡ other.now.standing.members }
    ensures counts { result ≡ true → one.now.standing.counts ≡ other.now.standing.counts }
    ensures streaks { result ≡ true → one.now.standing.streaks ≡ other.now.standing.streaks }
{
    if one.members != other.members {
        return false;
    }
    if one.counts.counts != other.counts.counts {
        return false;
    }
    one.counts.streaks == other.counts.streaks
}

/// Whether two nodes settled and voted the same.
fn settled_alike<const N: usize>(one: &NodeRecord<N>, other: &NodeRecord<N>) -> bool
where
    Nodes: Capacity<N>,
    ensures { result ≡ true → AreSettledAlike one.now other.now }
{
    if one.members != other.members {
        return false;
    }
    if one.rows != other.rows {
        return false;
    }
    if one.done != other.done {
        return false;
    }
    if one.due.as_slice() != other.due.as_slice() {
        return false;
    }
    one.votes == other.votes
}
