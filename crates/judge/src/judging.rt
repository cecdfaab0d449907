//! The top call.
ghost use Rattle.std.specs.Prelude.{◌≡◌, ◌+◌, ◌^◌, ◌≤◌, IfOk, string_bytes};
ghost use Rattle.drawn_scenarios.specs.Drawn.{drawn_parts};
ghost use Rattle.input_lines.specs.Devices.{sink_seen, devices_seen};
ghost use Rattle.judge.specs.Words.{texts, IsInRange};
ghost use Rattle.program_words.specs.Status.{number_of};
ghost use Rattle.judge.specs.Options.{IsShown, DrawsRows};
ghost use Rattle.judge.specs.Answers.{Does, IsStatusOf};
ghost use Rattle.judge.specs.declared.words.Command.TheVariants as commands;
ghost use Rattle.program_words.specs.declared.status.Status.{Status as SpecStatus};

use crate::Status;
use crate::bench::{Bench, Drawing};
use crate::lines::{LIMIT, Session, end_of};
use crate::options::read_options;
use crate::words::{Command, Draw, Draws, command_of};
use drawn_scenarios::{Options, drawn};
use input_lines::Lines;
use judge_text::write_header;
use scenario_writing::value_of;
use span_io::{Sink, Source, write_all};
use std::alloc::{AllocError, Global};

/// Judges the lines of an input, from the first on.
fn judge_lines<S: Source, K: Sink>(alloc: Global, source: &mut S, sink: &mut K) -> Status
    ensures { Does commands.Lines
        (devices_seen S.left S.given S.faults K.written K.faults source.old sink.old)
        (devices_seen S.left S.given S.faults K.written K.faults source.new sink.new) result }
{
    let Ok(bench) = Bench::open(alloc) else {
        return Status::NoMemory;
    };
    let Ok(lines) = Lines::open(alloc, LIMIT) else {
        return Status::NoMemory;
    };
    match write_header(sink) {
        Ok(()) => Session::new(bench, lines).run(source, sink),
        Err(_) => Status::WriteFault,
    }
}

/// Draws these scenarios by options, and judges them one after another.
fn draw_rows<K: Sink>(bench: &mut Bench, options: &Options, draws: Draws, sink: &mut K) -> Status
    requires { draws.first + draws.count ≤ 2 ^ 32 }
    ensures { DrawsRows options.now.choices draws (sink_seen K.written K.faults sink.old)
        (sink_seen K.written K.faults sink.new) result }
{
    let drawing = Drawing {
        options,
        seed: draws.seed,
    };
    let first = u64::from(draws.first);
    'draws: for index in first..first + draws.count {
        if let Err(error) = bench.judge_drawn(drawing, index as u32, sink) {
            return end_of(error);
        }
    }
    Status::Done
}

/// Draws scenarios by the options on the input's line, and judges them one after another.
fn judge_draws<S: Source, K: Sink>(
    alloc: Global,
    draws: Draws,
    source: &mut S,
    sink: &mut K,
) -> Status
    requires { IsInRange (commands.Draw draws) }
    ensures { Does (commands.Draw draws)
        (devices_seen S.left S.given S.faults K.written K.faults source.old sink.old)
        (devices_seen S.left S.given S.faults K.written K.faults source.new sink.new) result }
{
    let options = match read_options(alloc, source, sink) {
        Ok(options) => options,
        Err(status) => return status,
    };
    let Ok(mut bench) = Bench::open(alloc) else {
        return Status::NoMemory;
    };
    match write_header(sink) {
        Ok(()) => draw_rows(&mut bench, &options, draws, sink),
        Err(_) => Status::WriteFault,
    }
}

/// The text of a scenario that is drawn by these options, with a line feed.
fn text_of(alloc: Global, options: &Options, draw: Draw) -> Result<String, AllocError>
    ensures { IfOk result (λ text.
        IsShown (drawn_parts options.now.choices draw.seed draw.index) (string_bytes text)) }
{
    let parts = drawn(alloc, options, draw.seed, draw.index)?;
    let mut text = value_of(alloc, &parts)?.to_string(alloc)?;
    text.push('\n')?;
    Ok(text)
}

/// Draws a scenario by the options on the input's line, and writes it on a line.
fn show<S: Source, K: Sink>(alloc: Global, draw: Draw, source: &mut S, sink: &mut K) -> Status
    ensures { Does (commands.Show draw)
        (devices_seen S.left S.given S.faults K.written K.faults source.old sink.old)
        (devices_seen S.left S.given S.faults K.written K.faults source.new sink.new) result }
{
    let options = match read_options(alloc, source, sink) {
        Ok(options) => options,
        Err(status) => return status,
    };
    let Ok(text) = text_of(alloc, &options, draw) else {
        return Status::NoMemory;
    };
    match write_all(sink, text.as_bytes()) {
        Ok(()) => Status::Done,
        Err(_) => Status::WriteFault,
    }
}

/// Answers the words, by what the source gives, into the sink.
///
/// What the words may be is told at `Command`, and what each status says, clause by clause, at
/// `IsStatusOf`.
pub fn judge<S: Source, K: Sink>(
    alloc: Global,
    words: &[String],
    source: &mut S,
    sink: &mut K,
) -> Status
    ensures { IsStatusOf (texts words.now)
        (devices_seen S.left S.given S.faults K.written K.faults source.old sink.old)
        (devices_seen S.left S.given S.faults K.written K.faults source.new sink.new) result }
{
    match command_of(words) {
        None => Status::Usage,
        Some(Command::Lines) => judge_lines(alloc, source, sink),
        Some(Command::Draw(draws)) => judge_draws(alloc, draws, source, sink),
        Some(Command::Show(draw)) => show(alloc, draw, source, sink),
    }
}

/// Answers the words as [`judge`] does, with the number of its status.
pub fn run<S: Source, K: Sink>(alloc: Global, words: &[String], source: &mut S, sink: &mut K) -> u8
    ensures { (status : SpecStatus) × (result ≡ number_of status) × IsStatusOf (texts words.now)
        (devices_seen S.left S.given S.faults K.written K.faults source.old sink.old)
        (devices_seen S.left S.given S.faults K.written K.faults source.new sink.new) status }
{
    judge(alloc, words, source, sink).number()
}
