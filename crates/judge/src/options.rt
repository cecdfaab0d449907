//! The options by which scenarios are drawn, on the first line of the input.
ghost use Rattle.std.specs.Prelude.{◌≤◌, length};
ghost use Rattle.input_lines.specs.Devices.{sink_seen, devices_seen};
ghost use Rattle.judge.specs.Rows.{limit};
ghost use Rattle.judge.specs.Options.{TellsOptions, ReadsOptions};

use crate::Status;
use crate::lines::{LIMIT, status_of};
use drawn_scenarios::Options;
use input_lines::Lines;
use option_reading::{OptionError, read};
use run_print::write_refused;
use span_io::{Sink, Source};
use std::alloc::Global;

/// The options that a line tells.
fn options_of<K: Sink>(alloc: Global, line: &[u8], sink: &mut K) -> Result<Options, Status>
    requires { length line.now ≤ limit }
    ensures { TellsOptions line.now (sink_seen K.written K.faults sink.old)
        (sink_seen K.written K.faults sink.new) result }
{
    match read(alloc, line) {
        Ok(options) => Ok(options),
        Err(OptionError::Unreadable) => Err(Status::Unreadable),
        Err(OptionError::NoMemory) => Err(Status::NoMemory),
        Err(OptionError::Refused { rule, place }) => {
            // a fault of the output changes no status
            let _ = write_refused(rule, place as u64, sink);
            Err(Status::Refused)
        }
    }
}

/// Reads the options.
pub(crate) fn read_options<S: Source, K: Sink>(
    alloc: Global,
    source: &mut S,
    sink: &mut K,
) -> Result<Options, Status>
    ensures { ReadsOptions
        (devices_seen S.left S.given S.faults K.written K.faults source.old sink.old)
        (devices_seen S.left S.given S.faults K.written K.faults source.new sink.new) result }
{
    let Ok(mut lines) = Lines::open(alloc, LIMIT) else {
        return Err(Status::NoMemory);
    };
    match lines.read_line(source) {
        Ok(_) => options_of(alloc, lines.line(), sink),
        Err(error) => Err(status_of(error)),
    }
}
