//! A call of the top call, and what it left.

ghost use Rattle.std.specs.Prelude.{◌≤◌};

use span_io::{MemSink, MemSource};
use std::alloc::{AllocError, Global};
use top_call::run;

/// How many bytes are given or taken at a time: one or more.
#[derive(Clone, Copy)]
pub struct Piece {
    pub bytes: usize,
    pub ghost some: { 1 ≤ bytes },
}

/// A source in pieces of so many bytes, of which some calls fail, and a sink of so much room, which
/// takes so many bytes at a time, and of which some calls fail.
#[derive(Clone, Copy)]
pub struct Devices<'d> {
    pub source_piece: Piece,
    pub source_fails: &'d [u64],
    pub room: usize,
    pub sink_piece: Piece,
    pub sink_fails: &'d [u64],
}

/// The number of the status, and what was written.
#[derive(Drop)]
pub struct Answer {
    pub status: u8,
    pub written: Vec<u8>,
}

/// Words of the program's own.
fn words_of(alloc: Global, words: &[&str]) -> Result<Vec<String>, AllocError> {
    let mut owned = Vec::new(alloc);
    for word in words {
        owned.push(word.to_string(alloc)?)?;
    }
    Ok(owned)
}

/// The source of this input.
fn source_of(alloc: Global, input: &str, devices: &Devices<'_>) -> Result<MemSource, AllocError> {
    let bytes = Vec::from_slice(alloc, input.as_bytes())?;
    let fails = Vec::from_slice(alloc, devices.source_fails)?;
    Ok(MemSource::new(bytes, devices.source_piece.bytes, fails))
}

/// The sink.
fn sink_of(alloc: Global, devices: &Devices<'_>) -> Result<MemSink, AllocError> {
    let fails = Vec::from_slice(alloc, devices.sink_fails)?;
    match MemSink::new(alloc, devices.room, devices.sink_piece.bytes, fails) {
        Ok(sink) => Ok(sink),
        Err(_) => Err(AllocError),
    }
}

/// What the program answers over these.
fn answer_over(
    alloc: Global,
    words: &[String],
    source: &mut MemSource,
    sink: &mut MemSink,
) -> Result<Answer, AllocError> {
    let status = run(alloc, words, source, sink);
    let written = Vec::from_slice(alloc, sink.written())?;
    Ok(Answer { status, written })
}

/// Calls the program with these words and this input.
pub fn ask(
    alloc: Global,
    words: &[&str],
    input: &str,
    devices: Devices<'_>,
) -> Result<Answer, AllocError> {
    let words = words_of(alloc, words)?;
    let mut source = source_of(alloc, input, &devices)?;
    let mut sink = sink_of(alloc, &devices)?;
    answer_over(alloc, words.as_slice(), &mut source, &mut sink)
}
