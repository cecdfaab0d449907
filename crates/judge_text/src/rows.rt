//! Rows, each with its line feed.
ghost use Rattle.std.specs.Prelude.{◌≡◌};
ghost use Rattle.std.specs.List.{flat_map};
ghost use Rattle.run_print.specs.Printing.{Prints, WritesText};
ghost use Rattle.judge_text.specs.Rows.{header_text, loss_cells, scenario_cells, outcome_cells};
ghost use Rattle.judge_text.specs.Rows.{run_row, onset_cells, course_cells, ill_row, skew_row};
ghost use Rattle.judge_text.specs.Rows.{skew_rows, judged_rows, unread_row, refused_row};

use crate::cells::{ROOM, class, maybe, number, period, signed, whether};
use run_judged::{Illness, Loss, RunRow};
use run_print::{Printer, WriteFault};
use span_io::Sink;

/// The empty cells of a scenario that isn't run, behind its status, rule and place.
const NOT_RUN: &[u8; 18] = b",,,,,,,,,,,,,,,,,\n";

/// The first period whose budget isn't kept, and its members by class; nothing where all are kept.
fn loss<K: Sink>(printer: &mut Printer<ROOM>, sink: &mut K, lost: &Option<Loss>)
    ensures { Prints K.written K.faults printer.old sink.old printer.new sink.new
        (loss_cells lost.now) }
{
    match lost {
        None => printer.text(sink, b",,,,,"),
        Some(loss) => {
            number(printer, sink, loss.period as u64);
            number(printer, sink, loss.budget.n as u64);
            number(printer, sink, loss.budget.a as u64);
            number(printer, sink, loss.budget.s as u64);
            number(printer, sink, loss.budget.b as u64);
        }
    }
}

/// What a scenario is.
fn scenario<K: Sink>(printer: &mut Printer<ROOM>, sink: &mut K, row: &RunRow)
    ensures { Prints K.written K.faults printer.old sink.old printer.new sink.new
        (scenario_cells row.now) }
{
    number(printer, sink, row.nodes as u64);
    number(printer, sink, row.m as u64);
    number(printer, sink, row.periods as u64);
    number(printer, sink, row.lines as u64);
    number(printer, sink, row.restarts as u64);
}

/// What came of a run.
fn outcome<K: Sink>(printer: &mut Printer<ROOM>, sink: &mut K, row: &RunRow)
    ensures { Prints K.written K.faults printer.old sink.old printer.new sink.new
        (outcome_cells row.now) }
{
    number(printer, sink, row.claimed as u64);
    loss(printer, sink, &row.lost);
    signed(printer, sink, row.margin);
    number(printer, sink, row.charges as u64);
    number(printer, sink, row.false_charges as u64);
    number(printer, sink, row.false_exclusions as u64);
    maybe(printer, sink, row.spread);
    maybe(printer, sink, row.skew);
}

/// The row of a run.
fn run<K: Sink>(printer: &mut Printer<ROOM>, sink: &mut K, line: u64, row: &RunRow)
    ensures { Prints K.written K.faults printer.old sink.old printer.new sink.new
        (run_row line row.now) }
{
    printer.labelled(sink, b"run,", line);
    printer.text(sink, b",0,,");
    scenario(printer, sink, row);
    outcome(printer, sink, row);
    printer.text(sink, b"\n");
}

/// Who fell ill when and how.
fn onset<K: Sink>(printer: &mut Printer<ROOM>, sink: &mut K, illness: &Illness)
    ensures { Prints K.written K.faults printer.old sink.old printer.new sink.new
        (onset_cells illness.now) }
{
    number(printer, sink, illness.node as u64);
    number(printer, sink, illness.onset as u64);
    class(printer, sink, illness.class);
    class(printer, sink, illness.worst);
    number(printer, sink, illness.touched as u64);
    whether(printer, sink, illness.member);
}

/// What became of the node.
fn course<K: Sink>(printer: &mut Printer<ROOM>, sink: &mut K, illness: &Illness)
    ensures { Prints K.written K.faults printer.old sink.old printer.new sink.new
        (course_cells illness.now) }
{
    period(printer, sink, illness.charged);
    period(printer, sink, illness.left);
    period(printer, sink, illness.sound);
    period(printer, sink, illness.back);
    number(printer, sink, illness.periods_a_member as u64);
}

/// The row of an illness.
fn ill<K: Sink>(printer: &mut Printer<ROOM>, sink: &mut K, line: u64, illness: &Illness)
    ensures { Prints K.written K.faults printer.old sink.old printer.new sink.new
        (ill_row line illness.now) }
{
    printer.labelled(sink, b"ill,", line);
    onset(printer, sink, illness);
    course(printer, sink, illness);
    printer.text(sink, b"\n");
}

/// The rows of illnesses.
fn illnesses<K: Sink>(printer: &mut Printer<ROOM>, sink: &mut K, line: u64, all: &[Illness])
    ensures { Prints K.written K.faults printer.old sink.old printer.new sink.new
        (flat_map (ill_row line) all.now) }
{
    for illness in all {
        ill(printer, sink, line, illness);
    }
}

/// The row of a period's clocks.
fn skew<K: Sink>(printer: &mut Printer<ROOM>, sink: &mut K, line: u64, period: u64, skew: u64)
    ensures { Prints K.written K.faults printer.old sink.old printer.new sink.new
        (skew_row line period skew) }
{
    printer.labelled(sink, b"skew,", line);
    number(printer, sink, period);
    number(printer, sink, skew);
    printer.text(sink, b"\n");
}

/// The rows of the clocks of periods, from period 0 on.
fn skews<K: Sink>(printer: &mut Printer<ROOM>, sink: &mut K, line: u64, all: &[u64])
    ensures { Prints K.written K.faults printer.old sink.old printer.new sink.new
        (skew_rows line 0 all.now) }
{
    for period in 0..all.len() {
        skew(printer, sink, line, period as u64, all[period]);
    }
}

/// Writes the names of the columns.
///
/// # Errors
/// `WriteFault` comes only where the sink's count of faults rose. A prefix of the text was written
/// then.
pub fn write_header<K: Sink>(sink: &mut K) -> Result<(), WriteFault>
    ensures { WritesText K.written K.faults sink.old sink.new header_text result }
{
    let mut printer = Printer::<ROOM>::new();
    printer.text(
        sink,
        b"run,line,status,rule,place,nodes,m,periods,lines,restarts,claimed,",
    );
    printer.text(
        sink,
        b"lost,n,a,s,b,margin,charges,false_charges,false_exclusions,spread,skew\n",
    );
    printer.text(
        sink,
        b"ill,line,node,onset,class,worst,touched,member,charged,left,sound,",
    );
    printer.text(sink, b"back,periods_a_member\nskew,line,period,skew\n");
    printer.finish(sink)
}

/// Writes the rows of scenario `line`, which was judged: of its run, of its illnesses, and of its
/// clocks in claimed periods.
///
/// # Errors
/// As `write_header`.
pub fn write_judged<K: Sink>(
    line: u64,
    row: &RunRow,
    ill: &[Illness],
    apart: &[u64],
    sink: &mut K,
) -> Result<(), WriteFault>
    ensures { WritesText K.written K.faults sink.old sink.new
        (judged_rows line row.now ill.now apart.now) result }
{
    let mut printer = Printer::<ROOM>::new();
    run(&mut printer, sink, line, row);
    illnesses(&mut printer, sink, line, ill);
    skews(&mut printer, sink, line, apart);
    printer.finish(sink)
}

/// Writes the row of scenario `line`, which is no JSON text.
///
/// # Errors
/// As `write_header`.
pub fn write_unread<K: Sink>(line: u64, sink: &mut K) -> Result<(), WriteFault>
    ensures { WritesText K.written K.faults sink.old sink.new (unread_row line) result }
{
    let mut printer = Printer::<ROOM>::new();
    printer.labelled(sink, b"run,", line);
    printer.text(sink, b",3,,");
    printer.text(sink, NOT_RUN);
    printer.finish(sink)
}

/// Writes the row of scenario `line`, which a rule refuses at a place.
///
/// # Errors
/// As `write_header`.
pub fn write_refused<K: Sink>(
    line: u64,
    rule: u8,
    place: u32,
    sink: &mut K,
) -> Result<(), WriteFault>
    ensures { WritesText K.written K.faults sink.old sink.new (refused_row line rule place) result }
{
    let mut printer = Printer::<ROOM>::new();
    printer.labelled(sink, b"run,", line);
    printer.text(sink, b",4");
    number(&mut printer, sink, rule as u64);
    number(&mut printer, sink, place as u64);
    printer.text(sink, NOT_RUN);
    printer.finish(sink)
}
