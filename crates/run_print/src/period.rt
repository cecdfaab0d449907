//! The printed lines of a period, of the end of a run, and of a refusal.
ghost use Rattle.std.specs.Prelude.{◌≡◌, ◌≤◌, ◌<◌, ◌++◌, true, false, codes, decimal};
ghost use Rattle.std.specs.Prelude.{slice_get};
ghost use Rattle.run_print.specs.Printing.{Prints, WritesText};
ghost use Rattle.run_text.specs.Text.{set_text, yes_no};
ghost use Rattle.run_text.specs.TraceText.{IsPlanOf, period_text};
ghost use Rattle.run_text.specs.PeriodText.{budget_text, head_text, recorded_text, nodes_text};
ghost use Rattle.run_text.specs.PeriodText.{end_text, refused_text};
ghost use Rattle.run_print.specs.Example.{untraced_text};

use crate::WriteFault;
use crate::common::{Common, example_of};
use crate::pieces::letter_at;
use crate::printer::{LARGE, Printer, SMALL};
use cluster_record::PeriodRecord;
use fault_classes::{Budget, FaultPlan};
use node_grid::{Capacity, NodeSet, Nodes};
use span_io::Sink;

impl<const ROOM: usize> Printer<ROOM> {
    /// Prints the members of a period by class.
    pub(crate) fn budget<K: Sink>(&mut self, sink: &mut K, budget: &Budget)
        ensures { Prints K.written K.faults self.old sink.old self.new sink.new
            (budget_text budget.now) }
    {
        self.labelled(sink, b" n ", budget.n as u64);
        self.labelled(sink, b" a ", budget.a as u64);
        self.labelled(sink, b" s ", budget.s as u64);
        self.labelled(sink, b" b ", budget.b as u64);
    }

    /// Prints the end of the period line: whether the period tolerates its faults, and whether it
    /// and all before it do.
    pub(crate) fn verdicts<K: Sink>(&mut self, sink: &mut K, within: bool, claim: bool)
        ensures { Prints K.written K.faults self.old sink.old self.new sink.new
            (codes " budget " ++ yes_no within ++ codes " claim " ++ yes_no claim ++ codes "\n") }
    {
        match (within, claim) {
            (true, true) => self.text(sink, b" budget yes claim yes\n"),
            (true, false) => self.text(sink, b" budget yes claim no\n"),
            (false, true) => self.text(sink, b" budget no claim yes\n"),
            (false, false) => self.text(sink, b" budget no claim no\n"),
        }
    }

    /// Prints the front of the period line: its number, the members, and how many there are of each
    /// class.
    pub(crate) fn head_front<K: Sink, const N: usize>(
        &mut self,
        sink: &mut K,
        period: u32,
        members: &NodeSet<N>,
        budget: &Budget,
    )
        ensures { Prints K.written K.faults self.old sink.old self.new sink.new
            (codes "period " ++ decimal period ++ codes " members " ++ set_text members.now
            ++ budget_text budget.now) }
    {
        self.labelled(sink, b"period ", period as u64);
        self.text(sink, b" members ");
        self.set(sink, members);
        self.budget(sink, budget);
    }

    /// Prints the period line.
    fn head<K: Sink, const N: usize>(&mut self, sink: &mut K, shown: &PeriodRecord<N>)
        ensures { Prints K.written K.faults self.old sink.old self.new sink.new
            (head_text shown.now) }
    {
        self.head_front(sink, shown.period, &shown.members, &shown.budget);
        self.verdicts(sink, shown.within, shown.claim);
    }

    /// Prints the lines of node `i`.
    fn recorded<K: Sink, const N: usize>(
        &mut self,
        sink: &mut K,
        shown: &PeriodRecord<N>,
        i: u8,
        common: &Common<'_, N>,
    )
    where
        Nodes: Capacity<N>,
        requires node { i < shown.now.nodes }
        requires same { common.now.nodes ≡ shown.now.nodes }
        ensures { Prints K.written K.faults self.old sink.old self.new sink.new
            (recorded_text shown.now i (slice_get shown.now.records i)) }
    {
        self.front(sink, i, letter_at(&shown.classes, i));
        self.beliefs(sink, shown.retire, shown.node(i), common);
    }

    /// Prints the lines of all nodes, of which there are as many as those with these common lines.
    fn nodes_with<K: Sink, const N: usize>(
        &mut self,
        sink: &mut K,
        shown: &PeriodRecord<N>,
        common: &Common<'_, N>,
    )
    where
        Nodes: Capacity<N>,
        requires same { common.now.nodes ≡ shown.now.nodes }
        ensures { Prints K.written K.faults self.old sink.old self.new sink.new
            (nodes_text shown.now) }
    {
        for i in 0..common.nodes {
            self.recorded(sink, shown, i, common);
        }
    }

    /// Prints the lines of all nodes.
    fn nodes<K: Sink, const N: usize>(&mut self, sink: &mut K, shown: &PeriodRecord<N>)
    where
        Nodes: Capacity<N>,
        ensures { Prints K.written K.faults self.old sink.old self.new sink.new
            (nodes_text shown.now) }
    {
        // naming a field tells the checker the types of all of them
        let _ = &shown.classes;
        if shown.nodes > 0 {
            let example = shown.node(example_of(shown.reference, shown.nodes));
            self.nodes_with(sink, shown, &Common::of(shown.nodes, example));
        }
    }

    /// Prints all lines of a period but those of its frames.
    fn untraced<K: Sink, const N: usize>(&mut self, sink: &mut K, shown: &PeriodRecord<N>)
    where
        Nodes: Capacity<N>,
        ensures { Prints K.written K.faults self.old sink.old self.new sink.new
            (untraced_text shown.now) }
    {
        self.head(sink, shown);
        self.nodes(sink, shown);
        self.clock(sink, shown);
    }

    /// Prints the last line of a run of so many periods.
    pub fn end<K: Sink>(&mut self, sink: &mut K, periods: u64)
        ensures { Prints K.written K.faults self.old sink.old self.new sink.new (end_text periods) }
    {
        self.labelled(sink, b"end ", periods);
        self.byte(sink, b'\n');
    }
}

/// Writes the period line alone.
///
/// # Errors
/// `WriteFault` comes only where the sink's count of faults rose. A prefix of the line was written
/// then.
pub fn write_head<const N: usize, K: Sink>(
    shown: &PeriodRecord<N>,
    sink: &mut K,
) -> Result<(), WriteFault>
    ensures { WritesText K.written K.faults sink.old sink.new (head_text shown.now) result }
{
    let mut printer = Printer::<SMALL>::new();
    printer.head(sink, shown);
    printer.finish(sink)
}

/// Writes all lines of a period but those of its frames.
fn write_untraced<const N: usize, K: Sink>(
    shown: &PeriodRecord<N>,
    sink: &mut K,
) -> Result<(), WriteFault>
where
    Nodes: Capacity<N>,
    ensures { WritesText K.written K.faults sink.old sink.new
        (untraced_text shown.now) result }
{
    let mut printer = Printer::<SMALL>::new();
    printer.untraced(sink, shown);
    printer.finish(sink)
}

/// Writes all lines of a period, with those of its frames. It stays a function of its own, since it
/// takes much room on the stack, which other periods don't need.
#[inline(never)]
fn write_traced<const N: usize, K: Sink>(
    shown: &PeriodRecord<N>,
    plan: &FaultPlan<N>,
    sink: &mut K,
) -> Result<(), WriteFault>
where
    Nodes: Capacity<N>,
    requires planned { IsPlanOf plan.now shown.now }
    ensures { WritesText K.written K.faults sink.old sink.new
        (period_text plan.now true shown.now) result }
{
    let mut printer = Printer::<LARGE>::new();
    printer.untraced(sink, shown);
    printer.frames(sink, shown, plan);
    printer.finish(sink)
}

/// Writes all lines of a period, the period line first: the lines of each node, the line of the
/// clocks where the period has clocks, and with `trace` the line of each frame that is delivered.
///
/// With `trace`, the plan must be made for the record's nodes and relay rounds, and for more periods
/// than its number.
///
/// # Errors
/// `WriteFault` comes only where the sink's count of faults rose. A prefix of the lines was written
/// then.
pub fn write_period<const N: usize, K: Sink>(
    shown: &PeriodRecord<N>,
    plan: &FaultPlan<N>,
    trace: bool,
    sink: &mut K,
) -> Result<(), WriteFault>
where
    Nodes: Capacity<N>,
    requires planned { trace ≡ true → IsPlanOf plan.now shown.now }
    ensures { WritesText K.written K.faults sink.old sink.new
        (period_text plan.now trace shown.now) result }
{
    if trace {
        write_traced(shown, plan, sink)
    } else {
        write_untraced(shown, sink)
    }
}

/// Writes the last line of a run of so many periods.
///
/// # Errors
/// `WriteFault` comes only where the sink's count of faults rose. A prefix of the line was written
/// then.
pub fn write_end<K: Sink>(periods: u64, sink: &mut K) -> Result<(), WriteFault>
    ensures { WritesText K.written K.faults sink.old sink.new (end_text periods) result }
{
    let mut printer = Printer::<SMALL>::new();
    printer.end(sink, periods);
    printer.finish(sink)
}

/// Writes the line of a scenario that a rule refuses at a place.
///
/// # Errors
/// `WriteFault` comes only where the sink's count of faults rose. A prefix of the line was written
/// then.
pub fn write_refused<K: Sink>(rule: u8, place: u64, sink: &mut K) -> Result<(), WriteFault>
    ensures { WritesText K.written K.faults sink.old sink.new (refused_text rule place) result }
{
    let mut printer = Printer::<SMALL>::new();
    printer.labelled(sink, b"refused ", rule as u64);
    printer.labelled(sink, b" ", place);
    printer.byte(sink, b'\n');
    printer.finish(sink)
}
