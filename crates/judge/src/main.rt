//! Judges scenarios, one a line of its input or drawn from a seed, and writes rows of what came of
//! each: of its run, of each illness of a node, and of its clocks.
//!
//! The theorem is the contract of [`judge`]: what is written is the rows of the lines that were
//! read, or of the scenarios that were drawn, whatever the pieces in which the input came. `main`
//! makes the devices and leaves with what [`run`] answers, which is the number of the status of
//! `judge`.
#![tactic(auto)]

mod bench;
mod judging;
pub mod laws;
mod lines;
mod options;
mod words;

pub use judging::{judge, run};
pub use program_words::Status;
use program_words::words_after_name;
use span_io::{StdSink, StdSource};
use std::env;
use std::process::ExitCode;

fn main(rt: HostRuntime) -> ExitCode {
    let Ok(arguments) = env::args(&rt) else {
        return ExitCode::from(1);
    };
    let Ok(words) = words_after_name(rt.alloc(), arguments) else {
        return ExitCode::from(1);
    };
    let mut source = StdSource::new(rt.stdin());
    let mut sink = StdSink::new(rt.stdout());
    ExitCode::from(run(rt.alloc(), words.as_slice(), &mut source, &mut sink))
}
