//! The lines of an input, each a scenario that is judged before the next read.
ghost use Rattle.std.specs.Prelude.{◌≡◌, ◌≤◌, [], length, OnOk};
ghost use Rattle.input_lines.specs.Devices.{sink_seen, source_seen};
ghost use Rattle.input_lines.specs.Numbers.{next_number};
ghost use Rattle.judge.specs.Rows.{limit, IsRowsOf};
ghost use Rattle.judge.specs.Writing.{WritesRows};
ghost use Rattle.judge.specs.Session.{line_status, row_status, stand, IsReady, TakesLines, Rounds};
ghost use Rattle.judge.specs.Session.{Concludes, Runs};

use crate::Status;
use crate::bench::{Bench, RowError};
use input_lines::{LineError, Lines};
use span_io::{Sink, Source};

/// How many bytes a line may have.
pub(crate) const LIMIT: usize = 4_194_304;

/// The number of the first line.
const FIRST: u64 = 1;

/// How a call ends in which no line was taken, or nothing was read.
pub(crate) fn status_of(error: LineError) -> Status
    ensures { result ≡ line_status error }
{
    match error {
        LineError::Failed => Status::ReadFault,
        LineError::TooLong => Status::TooLong,
        LineError::NoMemory => Status::NoMemory,
    }
}

/// How a call ends that couldn't write rows.
pub(crate) fn end_of(error: RowError) -> Status
    ensures { result ≡ row_status error }
{
    match error {
        RowError::NoMemory => Status::NoMemory,
        RowError::WriteFault => Status::WriteFault,
    }
}

/// Lines that are read and judged.
#[derive(Drop)]
pub(crate) struct Session {
    bench: Bench,
    lines: Lines,
    /// The number of the line that comes next, the first being 1. It stands still at 2^64 - 1.
    number: u64,
}

impl Session {
    /// Judges, and the lines of an input of which nothing was read.
    pub(crate) fn new(bench: Bench, lines: Lines) -> Session
        ensures { result ≡ record { bench = bench; lines = lines; number = 1 } }
    {
        Session {
            bench,
            lines,
            number: FIRST,
        }
    }

    /// Judges the line that was taken, and writes its rows.
    fn judge_taken<K: Sink>(&mut self, sink: &mut K) -> Result<(), RowError>
        ensures rows { WritesRows (sink_seen K.written K.faults sink.old)
            (sink_seen K.written K.faults sink.new)
            (IsRowsOf self.old.number self.old.lines.line) result }
        ensures number { OnOk result (self.new.number ≡ next_number self.old.number) }
        ensures lines { self.new.lines ≡ self.old.lines }
    {
        self.bench.judge_line(self.lines.line(), self.number, sink)?;
        self.number = self.number.saturating_add(1);
        Ok(())
    }

    /// Takes all whole lines that were read, and writes their rows.
    fn take_lines<K: Sink>(&mut self, sink: &mut K) -> Result<(), Status>
        requires { IsReady self.old }
        ensures takes { TakesLines (stand self.old) (stand self.new)
            (sink_seen K.written K.faults sink.old) (sink_seen K.written K.faults sink.new) result }
        ensures ready { OnOk result (IsReady self.new) }
    {
        'lines: loop {
            match self.lines.take() {
                Ok(true) => {}
                Ok(false) => return Ok(()),
                Err(error) => return Err(status_of(error)),
            }
            if let Err(error) = self.judge_taken(sink) {
                return Err(end_of(error));
            }
        }
    }

    /// Reads once, and then takes all whole lines that were read and writes their rows. Tells
    /// whether there was more.
    fn round<S: Source, K: Sink>(&mut self, source: &mut S, sink: &mut K) -> Result<bool, Status>
        requires { IsReady self.old }
        ensures rounds { Rounds (stand self.old) (stand self.new)
            (source_seen S.left S.given S.faults source.old)
            (source_seen S.left S.given S.faults source.new)
            (sink_seen K.written K.faults sink.old) (sink_seen K.written K.faults sink.new) result }
        ensures ready { OnOk result (IsReady self.new) }
    {
        match self.lines.read(source) {
            Ok(true) => {}
            Ok(false) => return Ok(false),
            Err(error) => return Err(status_of(error)),
        }
        if let Err(status) = self.take_lines(sink) {
            return Err(status);
        }
        Ok(true)
    }

    /// Judges what stands behind the last line feed, if that is anything.
    fn finish<K: Sink>(&mut self, sink: &mut K) -> Status
        requires ready { IsReady self.old }
        requires short { length self.old.lines.rest ≤ limit }
        ensures { Concludes self.old.number self.old.lines.rest
            (sink_seen K.written K.faults sink.old) (sink_seen K.written K.faults sink.new) result }
    {
        if !self.lines.take_rest() {
            return Status::Done;
        }
        match self.judge_taken(sink) {
            Ok(()) => Status::Done,
            Err(error) => end_of(error),
        }
    }

    /// Judges all lines up to the end of the input.
    pub(crate) fn run<S: Source, K: Sink>(&mut self, source: &mut S, sink: &mut K) -> Status
        requires ready { IsReady self.old }
        requires nothing { self.old.lines.rest ≡ [] }
        ensures { Runs (stand self.old)
            (source_seen S.left S.given S.faults source.old)
            (source_seen S.left S.given S.faults source.new)
            (sink_seen K.written K.faults sink.old) (sink_seen K.written K.faults sink.new) result }
    {
        'rounds: for _ in 0..u64::MAX {
            match self.round(source, sink) {
                Ok(true) => {}
                Ok(false) => return self.finish(sink),
                Err(status) => return status,
            }
        }
        Status::TooLong
    }
}
