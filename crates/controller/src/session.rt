//! A node that takes the lines of a source, and answers each before the next read.
ghost use Rattle.std.specs.Prelude.{◌≡◌, ◌≤◌, length, OnOk};
ghost use Rattle.run_text.specs.PeriodText.{refused_text};
ghost use Rattle.input_lines.specs.Devices.{sink_seen, source_seen, WritesSome};
ghost use Rattle.controller.specs.Input.{event_limit};
ghost use Rattle.controller.specs.Course.{closing};
ghost use Rattle.controller.specs.Session.{line_status, AnswersLine, TakesLines, Rounds, Concludes};
ghost use Rattle.controller.specs.Session.{Runs, IsReady, stand};

use crate::Status;
use input_lines::{LineError, Lines};
use live_node::{Live, Refusal};
use run_print::{write_end, write_refused};
use span_io::{Sink, Source};

/// How many nodes a cluster has room for.
pub(crate) const CAPACITY: usize = 16;

/// How many bytes an event's line may have.
pub(crate) const EVENT_LIMIT: usize = 262_144;

/// The number of the first event's line: the scenario's is the first.
const FIRST_EVENT: u64 = 2;

/// How a call ends in which no line was taken, or nothing was read.
pub(crate) fn status_of(error: LineError) -> Status
    ensures { result ≡ line_status error }
{
    match error {
        LineError::Failed => Status::ReadFault,
        LineError::TooLong => Status::TooLong,
        LineError::NoMemory => Status::NoMemory,
    }
}

/// Writes the line of a refusal. A fault of the output changes no status.
pub(crate) fn refuse<K: Sink>(rule: u8, place: u64, sink: &mut K) -> Status
    ensures status { result ≡ Status.Refused }
    ensures wrote { WritesSome (sink_seen K.written K.faults sink.old)
        (sink_seen K.written K.faults sink.new) (refused_text rule place) }
{
    let _ = write_refused(rule, place, sink);
    Status::Refused
}

/// Takes a line, and writes its answer or its refusal.
fn answer_line<K: Sink>(
    live: &mut Live<'_, CAPACITY>,
    line: &[u8],
    number: u64,
    sink: &mut K,
) -> Result<(), Status>
    requires short { length line.now ≤ live.old.longest }
    ensures answers { AnswersLine live.old live.new line.now number
        (sink_seen K.written K.faults sink.old) (sink_seen K.written K.faults sink.new) result }
    ensures longest { OnOk result (live.new.longest ≡ live.old.longest) }
{
    match live.take(line, sink) {
        Ok(()) => Ok(()),
        Err(Refusal::Unknown) => Err(refuse(20, number, sink)),
        Err(Refusal::NotNow) => Err(refuse(21, number, sink)),
        Err(Refusal::WriteFault) => Err(Status::WriteFault),
    }
}

/// A node, and the lines that it is told.
#[derive(Drop)]
pub(crate) struct Session<'s> {
    live: Live<'s, CAPACITY>,
    lines: Lines,
    /// The number of the line that comes next, the first being 1. It stands still at 2^64 - 1.
    number: u64,
}

impl<'s> Session<'s> {
    /// A node that was told nothing yet, and the lines behind its scenario's.
    pub(crate) fn new(live: Live<'s, CAPACITY>, lines: Lines) -> Session<'s>
        ensures { result ≡ record { live = live.entry; lines = lines; number = 2 } }
    {
        Session {
            live,
            lines,
            number: FIRST_EVENT,
        }
    }

    /// Takes all whole lines that were read, and writes their answers.
    fn take_lines<K: Sink>(&mut self, sink: &mut K) -> Result<(), Status>
        requires { IsReady self.old }
        ensures takes { TakesLines (stand self.old) (stand self.new)
            (sink_seen K.written K.faults sink.old) (sink_seen K.written K.faults sink.new) result }
        ensures ready { OnOk result (IsReady self.new) }
    {
        'lines: loop {
            match self.lines.take() {
                Ok(true) => {}
                Ok(false) => return Ok(()),
                Err(error) => return Err(status_of(error)),
            }
            if let Err(status) = answer_line(&mut self.live, self.lines.line(), self.number, sink) {
                return Err(status);
            }
            self.number = self.number.saturating_add(1);
        }
    }

    /// Reads once, and then takes all whole lines that were read and writes their answers. Tells
    /// whether there was more.
    fn round<S: Source, K: Sink>(&mut self, source: &mut S, sink: &mut K) -> Result<bool, Status>
        requires ready { IsReady self.old }
        requires short { length self.old.lines.rest ≤ event_limit }
        ensures rounds { Rounds (stand self.old) (stand self.new)
            (source_seen S.left S.given S.faults source.old)
            (source_seen S.left S.given S.faults source.new)
            (sink_seen K.written K.faults sink.old) (sink_seen K.written K.faults sink.new) result }
        ensures ready { OnOk result (IsReady self.new) }
    {
        match self.lines.read(source) {
            Ok(true) => {}
            Ok(false) => return Ok(false),
            Err(error) => return Err(status_of(error)),
        }
        if let Err(status) = self.take_lines(sink) {
            return Err(status);
        }
        Ok(true)
    }

    /// Ends the text of a node whose input is over.
    pub(crate) fn finish<K: Sink>(&mut self, sink: &mut K) -> Status
        requires { length self.old.lines.rest ≤ event_limit }
        ensures { Concludes (closing self.old.live self.old.number self.old.lines.rest)
            (sink_seen K.written K.faults sink.old) (sink_seen K.written K.faults sink.new) result }
    {
        if self.lines.take_rest() {
            return refuse(20, self.number, sink);
        }
        if self.live.is_open() {
            return refuse(22, self.number, sink);
        }
        match write_end(self.live.periods_run(), sink) {
            Ok(()) => Status::Done,
            Err(_) => Status::WriteFault,
        }
    }

    /// Takes the lines that were read, and reads on to the end of the input.
    pub(crate) fn run<S: Source, K: Sink>(&mut self, source: &mut S, sink: &mut K) -> Status
        requires { IsReady self.old }
        ensures { Runs (stand self.old)
            (source_seen S.left S.given S.faults source.old)
            (source_seen S.left S.given S.faults source.new)
            (sink_seen K.written K.faults sink.old) (sink_seen K.written K.faults sink.new) result }
    {
        if let Err(status) = self.take_lines(sink) {
            return status;
        }
        'rounds: for _ in 0..u64::MAX {
            match self.round(source, sink) {
                Ok(true) => {}
                Ok(false) => return self.finish(sink),
                Err(status) => return status,
            }
        }
        Status::TooLong
    }
}
