//! The printed summary of a storm.
ghost use Rattle.std.specs.Prelude.{◌≡◌, ◌≤◌};
ghost use Rattle.run_print.specs.Printing.{Prints, WritesText};
ghost use Rattle.run_text.specs.StormText.{sums_text, outcome_text, storm_text};

use crate::WriteFault;
use crate::pieces::first;
use crate::printer::{Printer, SMALL};
use node_grid::NodeSet;
use penalty::Counts;
use span_io::Sink;
use std::marker::Model;

/// What is told of a storm.
#[derive(Drop)]
pub struct StormSum<const N: usize> {
    /// The number that it was made from.
    pub seed: u64,
    /// How many periods it has.
    pub periods: u32,
    /// How many of them are claimed.
    pub claimed: u32,
    /// How many fault lines it has.
    pub lines: u32,
    /// How many restarts it has.
    pub restarts: u32,
    /// How often a node left the reference node's members.
    pub excluded: u32,
    /// How often a node joined them.
    pub readmitted: u32,
    /// The members in the end.
    pub members: NodeSet<N>,
    /// The penalty counts in the end.
    pub counts: Counts<N>,
    /// The number of nodes in use.
    pub nodes: u8,
}

impl<const N: usize> Model for StormSum<N> {
    ghost use Rattle.run_text.specs.StormText.{StormView};

    ghost Value = { StormView };

    ghost view = { λ s. record {
      seed = s.seed;
      periods = s.periods;
      claimed = s.claimed;
      lines = s.lines;
      restarts = s.restarts;
      excluded = s.excluded;
      readmitted = s.readmitted;
      members = s.members;
      counts = s.counts.counts;
      nodes = s.nodes;
    } };
}

impl<const ROOM: usize> Printer<ROOM> {
    /// Prints the first lines of a summary: its number, periods, lines and restarts, exclusions and
    /// readmissions.
    fn sums<K: Sink, const N: usize>(&mut self, sink: &mut K, sum: &StormSum<N>)
        ensures { Prints K.written K.faults self.old sink.old self.new sink.new
            (sums_text sum.now) }
    {
        self.labelled(sink, b"storm ", sum.seed);
        self.labelled(sink, b"\nperiods ", sum.periods as u64);
        self.labelled(sink, b" claimed ", sum.claimed as u64);
        self.labelled(sink, b"\nlines ", sum.lines as u64);
        self.labelled(sink, b" restarts ", sum.restarts as u64);
        self.labelled(sink, b"\nexcluded ", sum.excluded as u64);
        self.labelled(sink, b" readmitted ", sum.readmitted as u64);
    }

    /// Prints the last lines of a summary: members and counts, and the end.
    fn outcome<K: Sink, const N: usize>(&mut self, sink: &mut K, sum: &StormSum<N>)
        ensures { Prints K.written K.faults self.old sink.old self.new sink.new
            (outcome_text sum.now) }
    {
        self.text(sink, b"\nmembers ");
        self.set(sink, &sum.members);
        self.text(sink, b" counts ");
        self.numbers(sink, first(&sum.counts.counts, sum.nodes));
        self.labelled(sink, b"\nend ", sum.periods as u64);
        self.byte(sink, b'\n');
    }
}

/// Writes the six lines of a storm's summary.
///
/// # Errors
/// `WriteFault` comes only where the sink's count of faults rose. A prefix of the lines was written
/// then.
pub fn write_storm<const N: usize, K: Sink>(
    sum: &StormSum<N>,
    sink: &mut K,
) -> Result<(), WriteFault>
    ensures { WritesText K.written K.faults sink.old sink.new (storm_text sum.now) result }
{
    let mut printer = Printer::<SMALL>::new();
    printer.sums(sink, sum);
    printer.outcome(sink, sum);
    printer.finish(sink)
}
