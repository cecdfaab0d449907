//! The printed lines of one node in a period.
ghost use Rattle.std.specs.Prelude.{◌≡◌, ◌≤◌, ◌++◌, false, codes, decimal, map};
ghost use Rattle.run_print.specs.Printing.{Prints, WritesText};
ghost use Rattle.run_text.specs.Text.{mode_text, separated, done_item, rows_item, votes_text};
ghost use Rattle.run_text.specs.NodeText.{left_text, standing_text, state_text, settled_text};
ghost use Rattle.run_text.specs.NodeText.{beliefs_text};
ghost use Rattle.run_text.specs.PeriodText.{alone_text};

use crate::WriteFault;
use crate::common::Common;
use crate::pieces::first;
use crate::printer::{Printer, SMALL};
use agreed_state::{Agreed, Config};
use membership::Left;
use node_core::NodeRecord;
use node_grid::{Capacity, Matrix, NodeSet, Nodes};
use omh_paths::Wrapped;
use span_io::Sink;

impl<const ROOM: usize> Printer<ROOM> {
    /// Prints how often each node left, where nodes retire.
    pub(crate) fn left<K: Sink, const N: usize>(
        &mut self,
        sink: &mut K,
        nodes: u8,
        retire: u16,
        left: &Left<N>,
    )
        ensures { Prints K.written K.faults self.old sink.old self.new sink.new
            (left_text nodes retire left.now.times) }
    {
        if retire != 0 {
            self.text(sink, b" left ");
            self.numbers(sink, first(&left.times, nodes));
        }
    }

    /// Prints the members, penalty counts and streaks of an agreed state.
    pub(crate) fn standing<K: Sink, const N: usize>(
        &mut self,
        sink: &mut K,
        nodes: u8,
        agreed: &Agreed<N>,
    )
    where
        Nodes: Capacity<N>,
        ensures { Prints K.written K.faults self.old sink.old self.new sink.new
            (standing_text nodes agreed.now) }
    {
        let counts = &agreed.counts;
        self.text(sink, b" members ");
        self.set(sink, &agreed.members);
        self.text(sink, b" counts ");
        self.mostly_zeros(sink, nodes, &counts.counts);
        self.text(sink, b" streaks ");
        self.mostly_zeros(sink, nodes, &counts.streaks);
    }

    /// Prints them, which may be those of the node with the common lines.
    fn standing_so<K: Sink, const N: usize>(
        &mut self,
        sink: &mut K,
        agreed: &Agreed<N>,
        common: &Common<'_, N>,
    )
    where
        Nodes: Capacity<N>,
        ensures { Prints K.written K.faults self.old sink.old self.new sink.new
            (standing_text common.now.nodes agreed.now) }
    {
        if common.stands(agreed) {
            self.text(sink, common.standing.gathered.as_slice());
        } else {
            self.standing(sink, common.nodes, agreed);
        }
    }

    /// Prints an agreed state.
    fn state<K: Sink, const N: usize>(
        &mut self,
        sink: &mut K,
        retire: u16,
        agreed: &Agreed<N>,
        common: &Common<'_, N>,
    )
    where
        Nodes: Capacity<N>,
        ensures { Prints K.written K.faults self.old sink.old self.new sink.new
            (state_text common.now.nodes retire agreed.now) }
    {
        self.standing_so(sink, agreed, common);
        self.text(sink, b" run ");
        self.runs(sink, common.nodes, &agreed.copies);
        self.left(sink, common.nodes, retire, &agreed.left);
    }

    /// Prints the lines of the members with their settled claims, and with their settled rows.
    pub(crate) fn claims_and_rows<K: Sink, const N: usize>(
        &mut self,
        sink: &mut K,
        nodes: u8,
        members: &NodeSet<N>,
        done: &[Wrapped<u8>; N],
        rows: &Matrix<N>,
    )
    where
        Nodes: Capacity<N>,
        ensures { Prints K.written K.faults self.old sink.old self.new sink.new
            (codes "\n  done " ++ separated (codes " ") (map (done_item done.now) members.now)
            ++ codes "\n  rows " ++ separated (codes " ")
            (map (rows_item nodes rows.now) members.now)) }
    {
        self.text(sink, b"\n  done ");
        self.done(sink, done, members);
        self.text(sink, b"\n  rows ");
        self.rows(sink, nodes, rows, members);
    }

    /// Prints the line of the votes on the due channels.
    pub(crate) fn votes_line<K: Sink>(&mut self, sink: &mut K, votes: &[Option<i64>; 8], due: &[u8])
        ensures { Prints K.written K.faults self.old sink.old self.new sink.new
            (codes "\n  votes " ++ votes_text votes.now due.now ++ codes "\n") }
    {
        self.text(sink, b"\n  votes ");
        self.votes(sink, votes, due);
        self.byte(sink, b'\n');
    }

    /// Prints what a node settled and voted.
    pub(crate) fn settled<K: Sink, const N: usize>(
        &mut self,
        sink: &mut K,
        nodes: u8,
        shown: &NodeRecord<N>,
    )
    where
        Nodes: Capacity<N>,
        ensures { Prints K.written K.faults self.old sink.old self.new sink.new
            (settled_text nodes shown.now) }
    {
        self.claims_and_rows(sink, nodes, &shown.members, &shown.done, &shown.rows);
        self.votes_line(sink, &shown.votes, shown.due.as_slice());
    }

    /// Prints it, which may be what the node with the common lines settled and voted.
    fn settled_so<K: Sink, const N: usize>(
        &mut self,
        sink: &mut K,
        shown: &NodeRecord<N>,
        common: &Common<'_, N>,
    )
    where
        Nodes: Capacity<N>,
        ensures { Prints K.written K.faults self.old sink.old self.new sink.new
            (settled_text common.now.nodes shown.now) }
    {
        if common.settles(shown) {
            self.text(sink, common.settled.gathered.as_slice());
        } else {
            self.settled(sink, common.nodes, shown);
        }
    }

    /// Prints what a node believes.
    pub(crate) fn beliefs<K: Sink, const N: usize>(
        &mut self,
        sink: &mut K,
        retire: u16,
        shown: &NodeRecord<N>,
        common: &Common<'_, N>,
    )
    where
        Nodes: Capacity<N>,
        ensures { Prints K.written K.faults self.old sink.old self.new sink.new
            (beliefs_text common.now.nodes retire shown.now shown.now.agreed) }
    {
        match &shown.agreed {
            None => self.text(sink, b"cold\n"),
            Some(agreed) => {
                self.mode(sink, shown.mode);
                self.state(sink, retire, agreed, common);
                self.settled_so(sink, shown, common);
            }
        }
    }
}

/// Writes a period's number and the lines of one node of the configuration, with `-` in place of a
/// class.
///
/// # Errors
/// `WriteFault` comes only where the sink's count of faults rose. A prefix of the lines was written
/// then.
pub fn write_alone<const N: usize, K: Sink>(
    period: u32,
    id: u8,
    config: &Config<N>,
    shown: &NodeRecord<N>,
    sink: &mut K,
) -> Result<(), WriteFault>
where
    Nodes: Capacity<N>,
    ensures { WritesText K.written K.faults sink.old sink.new
        (alone_text period id config.now.nodes config.now.policy.retire shown.now) result }
{
    let common = Common::of(config.nodes, shown);
    let mut printer = Printer::<SMALL>::new();
    printer.labelled(sink, b"period ", period as u64);
    printer.byte(sink, b'\n');
    printer.front(sink, id, b'-');
    printer.beliefs(sink, config.policy.retire, shown, &common);
    printer.finish(sink)
}
