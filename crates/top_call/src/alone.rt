//! One node alone, written as its log is replayed.
ghost use Rattle.std.specs.Prelude.{◌≡◌, ◌+◌, ◌<◌};
ghost use Rattle.span_io.specs.Causes.{Writes};
ghost use Rattle.top_call.specs.Alone.{log_printed, log_text, IsLogRun};

use crate::ReplayError;
use crate::replay::told;
use node_alone::{Alone, Record};
use node_grid::{Capacity, Nodes};
use run_print::{WriteFault, write_alone, write_end};
use span_io::Sink;
use std::alloc::Global;

/// Steps the node through its next period, and writes its text.
fn write_next<const N: usize, K: Sink>(
    log: &Record<N>,
    alone: &mut Alone<'_, N>,
    period: u32,
    sink: &mut K,
) -> Result<(), WriteFault>
where
    Nodes: Capacity<N>,
    requires same { alone.old ≡ record { input = log.now; run = period } }
    requires more { period < log.now.scenario.periods }
    ensures ran { alone.new ≡ record { input = log.now; run = period + 1 } }
    ensures wrote { Writes (K.written sink.old) (K.written sink.new) (K.faults sink.old)
        (K.faults sink.new) (log_printed log.now period) result }
{
    let config = log.config();
    write_alone(period, log.id(), config, alone.period(), sink)
}

/// Steps a node that is just opened through all periods, and writes their texts and the end.
fn write_run<const N: usize, K: Sink>(
    log: &Record<N>,
    alone: &mut Alone<'_, N>,
    sink: &mut K,
) -> Result<(), WriteFault>
where
    Nodes: Capacity<N>,
    requires fresh { alone.old ≡ record { input = log.now; run = 0 } }
    ensures { Writes (K.written sink.old) (K.written sink.new) (K.faults sink.old)
        (K.faults sink.new) (log_text log.now) result }
{
    let periods = log.periods();
    'periods: for period in 0..periods {
        write_next(log, alone, period, sink)?;
    }
    write_end(periods as u64, sink)
}

/// Replays a node's log, and writes what the node believed in each period.
///
/// # Errors
///
/// - `WriteFault` comes only where the sink's count of faults rose. A prefix of the text was
///   written then.
/// - `NoMemory` may come at any time. Nothing was written then.
pub(crate) fn write_log<const N: usize, K: Sink>(
    alloc: Global,
    log: &Record<N>,
    sink: &mut K,
) -> Result<(), ReplayError>
where
    Nodes: Capacity<N>,
    ensures { IsLogRun log.now (K.written sink.old) (K.written sink.new) (K.faults sink.old)
        (K.faults sink.new) result }
{
    let Ok(mut alone) = Alone::open(alloc, log) else {
        return Err(ReplayError::NoMemory);
    };
    told(write_run(log, &mut alone, sink))
}
