//! The run of an accepted scenario, written as it goes: of all nodes at once, or node by node where
//! the frames are written too.
ghost use Rattle.std.specs.Prelude.{◌≡◌, ◌+◌, ◌<◌, false, Ok, Err, MatchResult};
ghost use Rattle.span_io.specs.Causes.{Writes};
ghost use Rattle.run_print.specs.Printing.{Prints};
ghost use Rattle.top_call.specs.Run.{traced, has_frames, printed, run_text, IsRun};

use crate::Form;
use crate::laws::safe_runs;
use at_once::Run;
use cluster_step::Cluster;
use node_grid::{Capacity, NoMemory, Nodes};
use run_print::{LARGE, Printer, WriteFault, write_end, write_period};
use scenario::Scenario;
use span_io::Sink;
use std::alloc::Global;

/// Why a run was not written whole.
#[derive(Clone, Copy)]
pub enum ReplayError {
    /// The sink failed, and its count of faults rose. A prefix of the text was written.
    WriteFault,
    /// There was no memory for the run. Nothing was written.
    NoMemory,
}

/// Runs the next period of a cluster, and writes its lines with those of its frames.
fn trace_next<const N: usize, K: Sink>(
    scenario: &Scenario<N>,
    cluster: &mut Cluster<'_, N>,
    sink: &mut K,
) -> Result<(), WriteFault>
where
    Nodes: Capacity<N>,
    requires same { cluster.old.scenario ≡ scenario.now }
    requires more { cluster.old.run < scenario.now.periods }
    ensures ran { cluster.new ≡ record cluster.old { run = cluster.old.run + 1 } }
    ensures wrote { Writes (K.written sink.old) (K.written sink.new) (K.faults sink.old)
        (K.faults sink.new) (printed Form.Trace scenario.now cluster.old.run) result }
{
    let plan = scenario.plan();
    let shown = cluster.period();
    write_period(shown, plan, true, sink)
}

/// Runs all periods of a cluster that is just opened, and writes their lines with those of their
/// frames, and the end.
fn trace_all<const N: usize, K: Sink>(
    scenario: &Scenario<N>,
    cluster: &mut Cluster<'_, N>,
    periods: u32,
    sink: &mut K,
) -> Result<(), WriteFault>
where
    Nodes: Capacity<N>,
    requires fresh { cluster.old ≡ record { scenario = scenario.now; run = 0 } }
    requires periods { periods ≡ scenario.now.periods }
    ensures { Writes (K.written sink.old) (K.written sink.new) (K.faults sink.old)
        (K.faults sink.new) (run_text Form.Trace scenario.now) result }
{
    'periods: for _ in 0..periods {
        trace_next(scenario, cluster, sink)?;
    }
    write_end(periods as u64, sink)
}

/// Runs the next period of all nodes at once, and prints what a form without frames has of it.
fn print_next<const N: usize, K: Sink>(
    run: &mut Run<'_, N>,
    form: Form,
    printer: &mut Printer<LARGE>,
    sink: &mut K,
)
where
    Nodes: Capacity<N>,
    requires frames { has_frames form ≡ false }
    requires more { run.old.run < run.old.scenario.periods }
    ensures ran { run.new ≡ record run.old { run = run.old.run + 1 } }
    ensures prints { Prints K.written K.faults printer.old sink.old printer.new sink.new
        (printed form run.old.scenario run.old.run) }
{
    let shown = run.period();
    match form {
        Form::Check => printer.shown_head(sink, shown),
        Form::Replay | Form::Trace => printer.shown_period(sink, shown),
    }
}

/// Runs all periods of a run that is just opened, until the sink fails, and writes what a form
/// without frames has of them, and the end.
fn print_all<const N: usize, K: Sink>(
    run: &mut Run<'_, N>,
    periods: u32,
    form: Form,
    sink: &mut K,
) -> Result<(), WriteFault>
where
    Nodes: Capacity<N>,
    requires fresh { run.old.run ≡ 0 }
    requires frames { has_frames form ≡ false }
    requires periods { periods ≡ run.old.scenario.periods }
    ensures { Writes (K.written sink.old) (K.written sink.new) (K.faults sink.old)
        (K.faults sink.new) (run_text form run.old.scenario) result }
{
    let mut printer = Printer::<LARGE>::new();
    'periods: for _ in 0..periods {
        print_next(run, form, &mut printer, sink);
        if printer.failed {
            return Err(WriteFault);
        }
    }
    printer.end(sink, periods as u64);
    printer.finish(sink)
}

/// What a run is answered whose text was written so.
pub(crate) fn told(written: Result<(), WriteFault>) -> Result<(), ReplayError>
    ensures { MatchResult written (λ done. result ≡ Ok done)
        (λ fault. result ≡ Err ReplayError.WriteFault) }
{
    match written {
        Ok(()) => Ok(()),
        Err(WriteFault) => Err(ReplayError::WriteFault),
    }
}

/// Runs a scenario node by node, and writes its text with the lines of its frames.
///
/// # Errors
///
/// As `replay_at`.
fn write_traced<const N: usize, K: Sink>(
    alloc: Global,
    scenario: &Scenario<N>,
    sink: &mut K,
) -> Result<(), ReplayError>
where
    Nodes: Capacity<N>,
    ensures { IsRun Form.Trace scenario.now (K.written sink.old) (K.written sink.new)
        (K.faults sink.old) (K.faults sink.new) result }
{
    safe_runs();
    let periods = scenario.periods();
    let Ok(mut cluster) = Cluster::open(alloc, scenario) else {
        return Err(ReplayError::NoMemory);
    };
    told(trace_all(scenario, &mut cluster, periods, sink))
}

/// Runs a scenario, all nodes at once, and writes the text that a form without frames has of it.
///
/// # Errors
///
/// As `replay_at`.
fn write_untraced<const N: usize, K: Sink>(
    alloc: Global,
    scenario: &Scenario<N>,
    form: Form,
    sink: &mut K,
) -> Result<(), ReplayError>
where
    Nodes: Capacity<N>,
    requires frames { has_frames form ≡ false }
    ensures { IsRun form scenario.now (K.written sink.old) (K.written sink.new)
        (K.faults sink.old) (K.faults sink.new) result }
{
    safe_runs();
    let periods = scenario.periods();
    let Ok(mut run) = Run::open(alloc, scenario) else {
        return Err(ReplayError::NoMemory);
    };
    told(print_all(&mut run, periods, form, sink))
}

/// Runs a scenario, and writes the text that this form has of it.
///
/// # Errors
///
/// As `replay_at`.
fn run_and_write<const N: usize, K: Sink>(
    alloc: Global,
    scenario: &Scenario<N>,
    form: Form,
    sink: &mut K,
) -> Result<(), ReplayError>
where
    Nodes: Capacity<N>,
    ensures { IsRun form scenario.now (K.written sink.old) (K.written sink.new)
        (K.faults sink.old) (K.faults sink.new) result }
{
    if form.has_frames() {
        write_traced(alloc, scenario, sink)
    } else {
        write_untraced(alloc, scenario, form, sink)
    }
}

/// Runs a scenario, and writes of each period its line and the lines of every node, with `trace`
/// also a line for each frame that is delivered, and then the end line. Each claimed period of the
/// run is safe.
///
/// # Errors
///
/// - `WriteFault` comes only where the sink's count of faults rose. A prefix of the text was
///   written then.
/// - `NoMemory` may come at any time. Nothing was written then.
pub fn replay_at<const N: usize, K: Sink>(
    alloc: Global,
    scenario: &Scenario<N>,
    trace: bool,
    sink: &mut K,
) -> Result<(), ReplayError>
where
    Nodes: Capacity<N>,
    ensures { IsRun (traced trace) scenario.now (K.written sink.old) (K.written sink.new)
        (K.faults sink.old) (K.faults sink.new) result }
{
    let form = if trace { Form::Trace } else { Form::Replay };
    run_and_write(alloc, scenario, form, sink)
}

/// Runs a scenario, and writes of each period its line, and then the end line.
///
/// # Errors
///
/// As `replay_at`.
pub(crate) fn check_at<const N: usize, K: Sink>(
    alloc: Global,
    scenario: &Scenario<N>,
    sink: &mut K,
) -> Result<(), ReplayError>
where
    Nodes: Capacity<N>,
    ensures { IsRun Form.Check scenario.now (K.written sink.old) (K.written sink.new)
        (K.faults sink.old) (K.faults sink.new) result }
{
    run_and_write(alloc, scenario, Form::Check, sink)
}
