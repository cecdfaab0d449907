//! The top call.
ghost use Rattle.std.specs.Prelude.{◌≡◌, ◌<◌, ◌≤◌, [], length, IfOk, IsTrue};
ghost use Rattle.live_node.specs.Live.{IsNewLive};
ghost use Rattle.input_lines.specs.Devices.{sink_seen, source_seen};
ghost use Rattle.program_words.specs.declared.status.Status.{Status as SpecStatus};
ghost use Rattle.program_words.specs.Status.{number_of};
ghost use Rattle.controller.specs.Words.{texts};
ghost use Rattle.controller.specs.Input.{scenario_limit};
ghost use Rattle.controller.specs.Session.{IsReady};
ghost use Rattle.controller.specs.First.{ReadsFirst, AnswersFirst};
ghost use Rattle.controller.specs.Answers.{IsStatusOf};

use crate::Status;
use crate::session::{CAPACITY, EVENT_LIMIT, Session, refuse, status_of};
use crate::words::node_of;
use input_lines::Lines;
use live_node::Live;
use node_grid::NoMemory;
use scenario::{Scenario, ScenarioError};
use scenario_reading::read;
use span_io::{Sink, Source};
use std::alloc::Global;

/// How many bytes a scenario may have.
const SCENARIO_LIMIT: usize = 4_194_304;

/// The first line of an input, which was taken of its lines.
#[derive(Drop)]
struct FirstLine {
    lines: Lines,
    /// Whether the input ended with the line, and not a line feed.
    ends_input: bool,
}

/// Reads the first line: up to its line feed, or to the end of the input.
fn read_first<S: Source>(alloc: Global, source: &mut S) -> Result<FirstLine, Status>
    ensures { ReadsFirst (source_seen S.left S.given S.faults source.old)
        (source_seen S.left S.given S.faults source.new) result }
{
    let Ok(mut lines) = Lines::open(alloc, SCENARIO_LIMIT) else {
        return Err(Status::NoMemory);
    };
    match lines.read_line(source) {
        Ok(has_feed) => Ok(FirstLine {
            lines,
            ends_input: !has_feed,
        }),
        Err(error) => Err(status_of(error)),
    }
}

/// The session of a node of an accepted scenario. All memory that it will want is taken.
///
/// # Errors
/// `NoMemory` where there is none.
fn open<'s>(
    alloc: Global,
    scenario: &'s Scenario<CAPACITY>,
    id: u8,
    lines: Lines,
) -> Result<Session<'s>, NoMemory>
    requires { id < scenario.now.config.nodes }
    ensures ready { IfOk result (λ s. IsReady s) }
    ensures new { IfOk result (λ s. IsNewLive scenario.now id s.live) }
    ensures number { IfOk result (λ s. s.number ≡ 2) }
    ensures rest { IfOk result (λ s. s.lines.rest ≡ lines.rest) }
{
    let mut lines = lines;
    lines.set_limit(EVENT_LIMIT)?;
    let live = Live::open(alloc, scenario, id, EVENT_LIMIT)?;
    Ok(Session::new(live, lines))
}

/// Answers an input whose first line was read.
fn answer<S: Source, K: Sink>(
    alloc: Global,
    id: u8,
    first: FirstLine,
    source: &mut S,
    sink: &mut K,
) -> Status
    requires short { length first.lines.line ≤ scenario_limit }
    requires rest { IsTrue first.ends_input → first.lines.rest ≡ [] }
    ensures { AnswersFirst first id (source_seen S.left S.given S.faults source.old)
        (source_seen S.left S.given S.faults source.new)
        (sink_seen K.written K.faults sink.old) (sink_seen K.written K.faults sink.new) result }
{
    let scenario = match read::<CAPACITY>(alloc, first.lines.line()) {
        Ok(scenario) => scenario,
        Err(ScenarioError::Unreadable) => return Status::Unreadable,
        Err(ScenarioError::NoMemory) => return Status::NoMemory,
        Err(ScenarioError::Refused { rule, place }) => return refuse(rule, place as u64, sink),
    };
    if id >= scenario.config().nodes {
        return refuse(16, 0, sink);
    }
    let ends_input = first.ends_input;
    let Ok(mut session) = open(alloc, &scenario, id, first.lines) else {
        return Status::NoMemory;
    };
    if ends_input {
        return session.finish(sink);
    }
    session.run(source, sink)
}

/// Runs a node by what the source gives, and writes its answers into the sink.
///
/// The words are the node's number. The first line is its scenario, and each further line tells it
/// an event, which is answered before more is read. What each status says is told clause by clause
/// at `IsStatusOf`: the answers to the lines before the one with which the call ends were written,
/// but a prefix of them after WriteFault, and nothing where there was no memory.
pub fn control<S: Source, K: Sink>(
    alloc: Global,
    words: &[String],
    source: &mut S,
    sink: &mut K,
) -> Status
    ensures { IsStatusOf (texts words.now)
        (record {
          source = source_seen S.left S.given S.faults source.old;
          sink = sink_seen K.written K.faults sink.old;
        })
        (record {
          source = source_seen S.left S.given S.faults source.new;
          sink = sink_seen K.written K.faults sink.new;
        })
        result }
{
    let Some(id) = node_of(words) else {
        return Status::Usage;
    };
    match read_first(alloc, source) {
        Ok(first) => answer(alloc, id, first, source, sink),
        Err(status) => status,
    }
}

/// Answers the words as [`control`] does, with the number of its status.
pub fn run<S: Source, K: Sink>(alloc: Global, words: &[String], source: &mut S, sink: &mut K) -> u8
    ensures { (status : SpecStatus) × (result ≡ number_of status) × IsStatusOf (texts words.now)
        (record {
          source = source_seen S.left S.given S.faults source.old;
          sink = sink_seen K.written K.faults sink.old;
        })
        (record {
          source = source_seen S.left S.given S.faults source.new;
          sink = sink_seen K.written K.faults sink.new;
        })
        status }
{
    control(alloc, words, source, sink).number()
}
