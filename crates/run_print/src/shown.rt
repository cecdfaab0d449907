//! The printed lines of a period that was worked out for all nodes together. What nodes are known
//! to have in common is spelled once.
ghost use Rattle.std.specs.Prelude.{◌≡◌, ◌≤◌, ◌<◌, true, false, slice_get};
ghost use Rattle.shown_period.specs.Outcomes.{outcome_at};
ghost use Rattle.shown_period.specs.Whole.{record_of};
ghost use Rattle.run_text.specs.NodeText.{state_text, settled_text};
ghost use Rattle.run_text.specs.PeriodText.{head_text, recorded_text, nodes_text};
ghost use Rattle.run_text.specs.ClockText.{clock_text};
ghost use Rattle.run_print.specs.Printing.{Prints, WritesText};
ghost use Rattle.run_print.specs.Example.{untraced_text, IsIdleFrom, IsPrintable};
ghost use Rattle.run_print.specs.Example.{believed};

use crate::WriteFault;
use crate::common::Nowhere;
use crate::pieces::letter_at;
use crate::printer::{Printer, SMALL};
use agreed_state::Agreed;
use node_grid::{Capacity, Nodes};
use shown_period::{Head, Shown};
use span_io::Sink;

/// Room for what a node believes, as it mostly is.
const BELIEFS: usize = 1536;

/// What a node believes, for the nodes of which they are known to be the same.
#[derive(Drop)]
struct Example<'a, const N: usize> {
    /// What is shown of the period.
    pub shown: &'a Shown<N>,
    /// The node.
    pub node: u8,
    /// What it believes, unless there was no room for it.
    pub beliefs: Printer<BELIEFS>,
    ghost placed: { node < N },
    ghost believes: { beliefs.failed ≡ false → beliefs.gathered ≡ believed shown.now node },
}

/// A node of the group to which more than half of the nodes belong, where there is such a group,
/// and else any node.
fn common_node<const N: usize>(shown: &Shown<N>) -> u8
    requires { IsPrintable shown.now }
    ensures { result < N }
{
    let mut node = 0;
    let mut lead: u8 = 0;
    for i in 0..shown.head.nodes {
        if shown.group(i) == shown.group(node) {
            lead += 1;
        } else if lead > 0 {
            lead -= 1;
        } else {
            node = i;
            lead = 1;
        }
    }
    node
}

/// Gathers what a node believes; where there is no room for it, the printer fails.
fn gathered<const N: usize>(shown: &Shown<N>, i: u8) -> Printer<BELIEFS>
where
    Nodes: Capacity<N>,
    requires printable { IsPrintable shown.now }
    requires node { i < N }
    ensures { result.failed ≡ false → result.gathered ≡ believed shown.now i }
{
    let mut nowhere = Nowhere { faults: 0 };
    let mut printer = Printer::new();
    printer.beliefs_at(&mut nowhere, shown, i);
    printer
}

impl<'a, const N: usize> Example<'a, N> {
    /// What the node believes that has most in common with others.
    fn of(shown: &'a Shown<N>) -> Self
    where
        Nodes: Capacity<N>,
        requires { IsPrintable shown.now }
        ensures { result.shown.now ≡ shown.now }
    {
        let node = common_node(shown);
        Example {
            shown,
            node,
            beliefs: gathered(shown, node),
        }
    }

    /// Whether node `i` is known to believe the same.
    fn is_like(&self, i: u8) -> bool
    where
        Nodes: Capacity<N>,
        requires node { i < N }
        ensures { result ≡ true
            → self.now.beliefs.gathered ≡ believed self.now.shown.now i }
    {
        let shown = self.shown;
        if self.beliefs.failed {
            return false;
        }
        if !shown.made.states.is_shared(self.node, i) {
            return false;
        }
        if shown.group(self.node) != shown.group(i) {
            return false;
        }
        if shown.mode(self.node) != shown.mode(i) {
            return false;
        }
        shown.members(self.node) == shown.members(i)
    }
}

impl<const ROOM: usize> Printer<ROOM> {
    /// Prints the period line.
    pub fn shown_head<K: Sink, const N: usize>(&mut self, sink: &mut K, shown: &Shown<N>)
        ensures { Prints K.written K.faults self.old sink.old self.new sink.new
            (head_text (record_of shown.now)) }
    {
        let head = &shown.head;
        self.head_front(sink, head.period, &head.members, &head.budget);
        self.verdicts(sink, head.within, head.claim);
    }

    /// Prints an agreed state.
    fn whole_state<K: Sink, const N: usize>(
        &mut self,
        sink: &mut K,
        head: &Head<N>,
        agreed: &Agreed<N>,
    )
    where
        Nodes: Capacity<N>,
        requires tasks { head.now.tasks ≤ 32 }
        requires idle { IsIdleFrom head.now.tasks agreed.now.copies }
        ensures { Prints K.written K.faults self.old sink.old self.new sink.new
            (state_text head.now.nodes head.now.retire agreed.now) }
    {
        let nodes = head.nodes;
        self.standing(sink, nodes, agreed);
        self.text(sink, b" run ");
        self.runs_among(sink, nodes, head.tasks, &agreed.copies);
        self.left(sink, nodes, head.retire, &agreed.left);
    }

    /// Prints what a node settled and voted.
    fn settled_at<K: Sink, const N: usize>(&mut self, sink: &mut K, shown: &Shown<N>, i: u8)
    where
        Nodes: Capacity<N>,
        requires printable { IsPrintable shown.now }
        requires node { i < N }
        ensures { Prints K.written K.faults self.old sink.old self.new sink.new
            (settled_text shown.now.head.nodes (outcome_at shown.now.made i)) }
    {
        let belief = shown.belief(i);
        let members = shown.members(i);
        self.claims_and_rows(sink, shown.head.nodes, members, &belief.done, &belief.rows);
        self.votes_line(sink, &belief.votes, belief.due.as_slice());
    }

    /// Prints what node `i` believes.
    fn beliefs_at<K: Sink, const N: usize>(&mut self, sink: &mut K, shown: &Shown<N>, i: u8)
    where
        Nodes: Capacity<N>,
        requires printable { IsPrintable shown.now }
        requires node { i < N }
        ensures { Prints K.written K.faults self.old sink.old self.new sink.new
            (believed shown.now i) }
    {
        match shown.agreed(i) {
            None => self.text(sink, b"cold\n"),
            Some(agreed) => {
                self.mode(sink, shown.mode(i));
                self.whole_state(sink, &shown.head, agreed);
                self.settled_at(sink, shown, i);
            }
        }
    }

    /// Prints what node `i` believes, which may be what the example does.
    fn beliefs_like<K: Sink, const N: usize>(
        &mut self,
        sink: &mut K,
        i: u8,
        example: &Example<'_, N>,
    )
    where
        Nodes: Capacity<N>,
        requires node { i < N }
        requires printable { IsPrintable example.now.shown.now }
        ensures { Prints K.written K.faults self.old sink.old self.new sink.new
            (believed example.now.shown.now i) }
    {
        if example.is_like(i) {
            self.text(sink, example.beliefs.gathered.as_slice());
        } else {
            self.beliefs_at(sink, example.shown, i);
        }
    }

    /// Prints the lines of node `i`.
    fn shown_node<K: Sink, const N: usize>(&mut self, sink: &mut K, i: u8, example: &Example<'_, N>)
    where
        Nodes: Capacity<N>,
        requires node { i < example.now.shown.now.head.nodes }
        requires printable { IsPrintable example.now.shown.now }
        ensures { let t = record_of example.now.shown.now in
            Prints K.written K.faults self.old sink.old self.new sink.new
            (recorded_text t i (slice_get t.records i)) }
    {
        let head = &example.shown.head;
        self.front(sink, i, letter_at(&head.classes, i));
        self.beliefs_like(sink, i, example);
    }

    /// Prints the lines of all nodes.
    fn shown_nodes<K: Sink, const N: usize>(&mut self, sink: &mut K, shown: &Shown<N>)
    where
        Nodes: Capacity<N>,
        requires { IsPrintable shown.now }
        ensures { Prints K.written K.faults self.old sink.old self.new sink.new
            (nodes_text (record_of shown.now)) }
    {
        let example = Example::of(shown);
        for i in 0..shown.head.nodes {
            self.shown_node(sink, i, &example);
        }
    }

    /// Prints the line of a period's clocks, where it has some.
    fn shown_clock<K: Sink, const N: usize>(&mut self, sink: &mut K, shown: &Shown<N>)
        ensures { let t = record_of shown.now in
            Prints K.written K.faults self.old sink.old self.new sink.new (clock_text t t.clock) }
    {
        let head = &shown.head;
        if let Some(clock) = &head.clock {
            self.clock_line(sink, head.nodes, &head.classes, &clock.offset);
        }
    }

    /// Prints the lines of a period: the period line, the lines of each node, and the line of the
    /// clocks where the period has clocks.
    pub fn shown_period<K: Sink, const N: usize>(&mut self, sink: &mut K, shown: &Shown<N>)
    where
        Nodes: Capacity<N>,
        requires { IsPrintable shown.now }
        ensures { Prints K.written K.faults self.old sink.old self.new sink.new
            (untraced_text (record_of shown.now)) }
    {
        self.shown_head(sink, shown);
        self.shown_nodes(sink, shown);
        self.shown_clock(sink, shown);
    }
}

/// Writes the lines of a period but those of its frames.
///
/// # Errors
/// `WriteFault` comes only where the sink's count of faults rose. A prefix of the lines was written
/// then.
pub fn write_shown<const N: usize, K: Sink>(
    shown: &Shown<N>,
    sink: &mut K,
) -> Result<(), WriteFault>
where
    Nodes: Capacity<N>,
    requires { IsPrintable shown.now }
    ensures { WritesText K.written K.faults sink.old sink.new
        (untraced_text (record_of shown.now)) result }
{
    let mut printer = Printer::<SMALL>::new();
    printer.shown_period(sink, shown);
    printer.finish(sink)
}

/// Writes the period line alone.
///
/// # Errors
/// `WriteFault` comes only where the sink's count of faults rose. A prefix of the line was written
/// then.
pub fn write_shown_head<const N: usize, K: Sink>(
    shown: &Shown<N>,
    sink: &mut K,
) -> Result<(), WriteFault>
    ensures { WritesText K.written K.faults sink.old sink.new
        (head_text (record_of shown.now)) result }
{
    let mut printer = Printer::<SMALL>::new();
    printer.shown_head(sink, shown);
    printer.finish(sink)
}
