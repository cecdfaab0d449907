//! The top call.
ghost use Rattle.std.specs.Prelude.{◌≡◌, ℕ, ◌<◌, ◌↔◌, ◌⊎◌, List, length, IfSome};
ghost use Rattle.std.specs.Io.KnownBytes.{Appends, Keeps};
ghost use Rattle.span_io.specs.Causes.{Rose, AppendsPrefix, GivenPast};
ghost use Rattle.serde_json.specs.Data.{Data};
ghost use Rattle.json_parts.specs.Meaning.{view};
ghost use Rattle.scenario.specs.Scenario.{ScenarioView};
ghost use Rattle.scenario_reading.specs.Verdict.{IsAcceptedValue};
ghost use Rattle.run_text.specs.PeriodText.{refused_text};
ghost use Rattle.top_call.specs.declared.form.Reading.{Reading as SpecReading};
ghost use Rattle.top_call.specs.declared.form.Reading.TheVariants.{Scenario as SpecScenario};
ghost use Rattle.top_call.specs.declared.form.Reading.TheVariants.{Log as SpecLog};
ghost use Rattle.top_call.specs.declared.form.Command.{Command as SpecCommand};
ghost use Rattle.top_call.specs.declared.form.Command.TheVariants.{Read as SpecRead};
ghost use Rattle.program_words.specs.declared.status.Status.{Status as SpecStatus};
ghost use Rattle.program_words.specs.Status.{number_of};
ghost use Rattle.top_call.specs.Words.{texts, Calls};
ghost use Rattle.top_call.specs.Run.{IsRun};
ghost use Rattle.top_call.specs.Answers.{input_limit, capacity, status_of, AnswersValue, IsRefused};
ghost use Rattle.top_call.specs.Answers.{IsUnreadable, IsWhole, IsRead, IsUntouched, WritesSome};
ghost use Rattle.top_call.specs.Answers.{HasText, IsDecided, Answers, AnswersStorm, IsStatusOf};

use crate::alone::write_log;
use crate::form::command_of;
use crate::laws::few_nodes;
use crate::replay::{check_at, replay_at};
use crate::{Command, Form, Reading, ReplayError, Status};
use json::{Scratch, Value};
use json_parts::{TextError, member, value_of, whole};
use node_alone::Record;
use node_grid::{Capacity, Nodes};
use run_print::{WriteFault, write_refused, write_storm};
use scenario::{Scenario, ScenarioError};
use scenario_reading::from_value;
use span_io::{ReadError, Sink, Source, read_all};
use std::alloc::Global;
use std::mem::forget;

/// How many bytes an input may have.
const LIMIT: usize = 4_194_304;

/// How many nodes a scenario that is read has room for.
const CAPACITY: usize = 16;

/// How many nodes a scenario has room for that has at most so many.
const FEW: usize = 8;

/// How a call ends whose run was written so.
fn ended(run: Result<(), ReplayError>) -> Status
    ensures { result ≡ status_of run }
{
    match run {
        Ok(()) => Status::Done,
        Err(ReplayError::WriteFault) => Status::WriteFault,
        Err(ReplayError::NoMemory) => Status::NoMemory,
    }
}

/// Whether the value says that there are so few nodes that types laid out for 8 have room for them.
fn has_few_nodes(value: &Value<'_>) -> bool {
    match member(value, "nodes") {
        Some(nodes) => matches!(whole(nodes), Some(count) if count <= FEW as i64),
        None => false,
    }
}

/// Runs a scenario, and writes the text that this form has of it.
///
/// # Errors
///
/// As `replay_at`.
fn write_form<const N: usize, K: Sink>(
    alloc: Global,
    scenario: &Scenario<N>,
    form: Form,
    sink: &mut K,
) -> Result<(), ReplayError>
where
    Nodes: Capacity<N>,
    ensures { IsRun form scenario.now (K.written sink.old) (K.written sink.new) (K.faults sink.old)
        (K.faults sink.new) result }
{
    match form {
        Form::Replay => replay_at(alloc, scenario, false, sink),
        Form::Trace => replay_at(alloc, scenario, true, sink),
        Form::Check => check_at(alloc, scenario, sink),
    }
}

/// Runs a scenario of few nodes, which with room for all that an input may have has the same run.
///
/// # Errors
///
/// As `replay_at`.
fn write_few<K: Sink>(
    alloc: Global,
    scenario: &Scenario<FEW>,
    form: Form,
    sink: &mut K,
) -> Result<(), ReplayError>
    ensures { (d : Data) → IsAcceptedValue d scenario.now → (sc : ScenarioView capacity)
        × IsAcceptedValue d sc
        × IsRun form sc (K.written sink.old) (K.written sink.new) (K.faults sink.old)
        (K.faults sink.new) result }
{
    few_nodes();
    write_form(alloc, scenario, form, sink)
}

/// Answers the JSON value of a scenario.
fn answer_value<K: Sink>(alloc: Global, form: Form, value: &Value<'_>, sink: &mut K) -> Status
    ensures { AnswersValue form (view value.now) (K.written sink.old) (K.written sink.new)
        (K.faults sink.old) (K.faults sink.new) result }
{
    if has_few_nodes(value) {
        match from_value::<FEW>(alloc, value) {
            Ok(scenario) => return ended(write_few(alloc, &scenario, form, sink)),
            Err(ScenarioError::NoMemory) => return Status::NoMemory,
            Err(_) => {}
        }
    }
    match from_value::<CAPACITY>(alloc, value) {
        Ok(scenario) => ended(write_form(alloc, &scenario, form, sink)),
        Err(ScenarioError::Refused { rule, place }) => {
            let _ = write_refused(rule, place as u64, sink);
            Status::Refused
        }
        Err(ScenarioError::NoMemory) => Status::NoMemory,
        Err(ScenarioError::Unreadable) => unreachable!(),
    }
}

/// Answers the bytes of a scenario, and leaves the memory of their JSON value until the process
/// ends.
fn answer_scenario<K: Sink>(alloc: Global, form: Form, bytes: &[u8], sink: &mut K) -> Status
    ensures { Answers (SpecScenario form) bytes.now (K.written sink.old) (K.written sink.new)
        (K.faults sink.old) (K.faults sink.new) result }
{
    let mut scratch = Scratch::new(alloc);
    match value_of(alloc, bytes, &mut scratch) {
        Ok(value) => {
            let status = answer_value(alloc, form, &value, sink);
            forget(value);
            status
        }
        Err(TextError::Unreadable) => Status::Unreadable,
        Err(TextError::NoMemory) => Status::NoMemory,
    }
}

/// Answers the bytes of a node's log.
fn answer_log<K: Sink>(alloc: Global, id: u8, bytes: &[u8], sink: &mut K) -> Status
    ensures { Answers (SpecLog id) bytes.now (K.written sink.old) (K.written sink.new)
        (K.faults sink.old) (K.faults sink.new) result }
{
    let log = match Record::<CAPACITY>::read(alloc, bytes, id) {
        Ok(log) => log,
        Err(ScenarioError::Unreadable) => return Status::Unreadable,
        Err(ScenarioError::Refused { rule, place }) => {
            let _ = write_refused(rule, place as u64, sink);
            return Status::Refused;
        }
        Err(ScenarioError::NoMemory) => return Status::NoMemory,
    };
    ended(write_log(alloc, &log, sink))
}

/// Answers the bytes of an input.
fn answer<K: Sink>(alloc: Global, reading: Reading, bytes: &[u8], sink: &mut K) -> Status
    ensures { Answers reading bytes.now (K.written sink.old) (K.written sink.new)
        (K.faults sink.old) (K.faults sink.new) result }
{
    match reading {
        Reading::Scenario(form) => answer_scenario(alloc, form, bytes, sink),
        Reading::Log(id) => answer_log(alloc, id, bytes, sink),
    }
}

/// Answers the number of a storm.
fn answer_storm<K: Sink>(alloc: Global, seed: u64, sink: &mut K) -> Status
    ensures { AnswersStorm seed (K.written sink.old) (K.written sink.new) (K.faults sink.old)
        (K.faults sink.new) result }
{
    storm_sum::laws::withstands();
    let Ok(sum) = storm_sum::summary(alloc, seed) else {
        return Status::NoMemory;
    };
    match write_storm(&sum, sink) {
        Ok(()) => Status::Done,
        Err(WriteFault) => Status::WriteFault,
    }
}

/// Answers the words, by what the source gives, into the sink.
///
/// What the words may be is told at `Command`: a scenario or a node's log is read and run, or a
/// storm is made and run, and the text of it is written. What each status says is told clause by
/// clause at `IsStatusOf`; the first cause in the order Usage, ReadFault, TooLong (the input has
/// more than 4,194,304 bytes), Unreadable, Refused, WriteFault decides. The text or a prefix of it
/// was written with Done and WriteFault alone, and a rule's line with Refused. Want of memory is
/// the one free answer, and nothing was written then.
pub fn maft<S: Source, K: Sink>(
    alloc: Global,
    words: &[String],
    source: &mut S,
    sink: &mut K,
) -> Status
    ensures usage { (result ≡ Status.Usage) ↔ ((command : SpecCommand) →
        Calls (texts words.now) command → ⊥) }
    ensures usage_untouched { result ≡ Status.Usage →
        IsUntouched (S.left source.old) (S.left source.new)
        (S.given source.old) (S.given source.new) (K.written sink.old) (K.written sink.new) }
    ensures read_fault { result ≡ Status.ReadFault →
        Rose (S.faults source.old) (S.faults source.new)
        × Keeps (K.written sink.old) (K.written sink.new) }

    // A source whose count of faults changed is answered so, also where it gave bytes after the
    // fault; and a sink, where it took bytes after the fault, but where the line of a refusal was
    // to be written.
    ensures faults { (result ≡ Status.ReadFault) ⊎ (S.faults source.new ≡ S.faults source.old) }
    ensures sink_faults { (result ≡ Status.WriteFault)
        ⊎ ((result ≡ Status.Refused) ⊎ (K.faults sink.new ≡ K.faults sink.old)) }
    ensures too_long { result ≡ Status.TooLong →
        IfSome (S.left source.old) (λ bytes. input_limit < length bytes)
        × GivenPast input_limit (S.given source.old) (S.given source.new)
        × Keeps (K.written sink.old) (K.written sink.new) }
    ensures unreadable { result ≡ Status.Unreadable → (bytes : List ℕ)
        × IsWhole (S.left source.old) (S.left source.new) bytes
        × IsUnreadable bytes × Keeps (K.written sink.old) (K.written sink.new) }
    ensures refused { result ≡ Status.Refused → (reading : SpecReading) × (bytes : List ℕ)
        × (rule : ℕ) × (place : ℕ)
        × Calls (texts words.now) (SpecRead reading)
        × IsWhole (S.left source.old) (S.left source.new) bytes × IsRefused reading bytes rule place
        × WritesSome (K.written sink.old) (K.written sink.new) (K.faults sink.old)
        (K.faults sink.new) (refused_text rule place) }
    ensures write_fault { result ≡ Status.WriteFault → (command : SpecCommand) × (bytes : List ℕ)
        × (text : List ℕ)
        × Calls (texts words.now) command × IsRead command (S.left source.old) (S.left source.new)
        (S.given source.old) (S.given source.new) bytes × HasText command bytes text
        × AppendsPrefix (K.written sink.old) (K.written sink.new) text
        × Rose (K.faults sink.old) (K.faults sink.new) }
    ensures no_memory { result ≡ Status.NoMemory → Keeps (K.written sink.old) (K.written sink.new) }

    // The headline: what was read is accepted, its text was written, and each claimed period of a
    // run is safe.
    ensures done { result ≡ Status.Done → (command : SpecCommand) × (bytes : List ℕ)
        × (text : List ℕ)
        × Calls (texts words.now) command × IsRead command (S.left source.old) (S.left source.new)
        (S.given source.old) (S.given source.new) bytes × HasText command bytes text
        × Appends (K.written sink.old) (K.written sink.new) text }

    // Where neither count of faults rose, words and bytes decide the answer, but for want of
    // memory.
    ensures decided { (result ≡ Status.Usage)
        ⊎ ((command : SpecCommand) × Calls (texts words.now) command
        × IsDecided command (S.left source.old) (S.faults source.old) (S.faults source.new)
        (K.faults sink.old) (K.faults sink.new) result) }
{
    let reading = match command_of(words) {
        None => return Status::Usage,
        Some(Command::Storm(seed)) => return answer_storm(alloc, seed, sink),
        Some(Command::Read(reading)) => reading,
    };
    match read_all(alloc, source, LIMIT) {
        Ok(bytes) => answer(alloc, reading, bytes.as_slice(), sink),
        Err(ReadError::Failed) => Status::ReadFault,
        Err(ReadError::TooLong) => Status::TooLong,
        Err(ReadError::NoMemory) => Status::NoMemory,
    }
}

/// Answers the words as [`maft`] does, with the number of its status.
pub fn run<S: Source, K: Sink>(alloc: Global, words: &[String], source: &mut S, sink: &mut K) -> u8
    ensures { (status : SpecStatus) × (result ≡ number_of status) × IsStatusOf (texts words.now)
        (record {
          left = S.left source.old;
          given = S.given source.old;
          source_faults = S.faults source.old;
          written = K.written sink.old;
          sink_faults = K.faults sink.old;
        })
        (record {
          left = S.left source.new;
          given = S.given source.new;
          source_faults = S.faults source.new;
          written = K.written sink.new;
          sink_faults = K.faults sink.new;
        })
        status }
{
    maft(alloc, words, source, sink).number()
}
