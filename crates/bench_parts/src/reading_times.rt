//! The first reading of a scenario from standard input in a process: of its JSON alone, or of the
//! whole.
//!
//! A process times one reading, since the program reads one scenario, in memory that it uses for
//! the first time. As in the program, the memory of the JSON value is left until the process ends.

use json::Scratch;
use json_parts::value_of;
use scenario::{Scenario, ScenarioError};
use span_io::{StdSource, read_all};
use std::alloc::Global;
use std::io;
use std::mem::forget;
use std::time::Instant;

/// How many bytes an input may have.
const LIMIT: usize = 4_194_304;

/// Whether the bytes are read as JSON.
fn is_read(alloc: Global, bytes: &[u8], scratch: &mut Scratch) -> bool {
    let value = value_of(alloc, bytes, scratch);
    let is_read = value.is_ok();
    forget(value);
    is_read
}

/// Times the reading of the JSON.
fn time_json(rt: &HostRuntime, bytes: &[u8]) -> io::Result<()> {
    let start = Instant::now(rt)?;
    let mut scratch = Scratch::new(rt.alloc());
    let is_read = is_read(rt.alloc(), bytes, &mut scratch);
    let took = start.elapsed(rt)?.as_micros();
    if is_read {
        println!(rt; "{took} us")
    } else {
        println!(rt; "unreadable")
    }
}

/// The scenario in the bytes, read as the program does.
fn scenario_of(alloc: Global, bytes: &[u8]) -> Result<Scenario<16>, ScenarioError> {
    let mut scratch = Scratch::new(alloc);
    let Ok(value) = value_of(alloc, bytes, &mut scratch) else {
        return Err(ScenarioError::Unreadable);
    };
    let scenario = scenario_reading::from_value(alloc, &value);
    forget(value);
    scenario
}

/// Times the reading and judging of the scenario.
fn time_judged(rt: &HostRuntime, bytes: &[u8]) -> io::Result<()> {
    let start = Instant::now(rt)?;
    let scenario = scenario_of(rt.alloc(), bytes);
    let took = start.elapsed(rt);
    if let Some(error) = scenario.err() {
        return println!(rt; "{error}");
    }
    let took = took?.as_micros();
    println!(rt; "{took} us")
}

/// The scenario on standard input, if it is one.
pub fn scenario_in(rt: &HostRuntime) -> Option<Scenario<16>> {
    let mut source = StdSource::new(rt.stdin());
    let bytes = read_all(rt.alloc(), &mut source, LIMIT).ok()?;
    scenario_of(rt.alloc(), bytes.as_slice()).ok()
}

/// Reads standard input and prints what the reading of its JSON takes, or, where it is judged, that
/// of the whole.
pub fn measure(rt: &HostRuntime, is_judged: bool) -> io::Result<()> {
    let mut source = StdSource::new(rt.stdin());
    let Ok(bytes) = read_all(rt.alloc(), &mut source, LIMIT) else {
        return Ok(());
    };
    if is_judged {
        time_judged(rt, bytes.as_slice())
    } else {
        time_json(rt, bytes.as_slice())
    }
}
