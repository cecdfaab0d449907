//! One node of a running cluster: its scenario is read, and then one event after another, each
//! answered before the next read.
//!
//! The theorem is the contract of [`control`]: what is written is the text of the bytes that were
//! read, whatever the pieces in which they came. That text folds one definition over the lines
//! behind the first, `line_step` of live_node, from a node that was told nothing yet. `main` makes
//! the devices and leaves with what [`run`] answers, which is the number of the status of
//! `control`.
#![tactic(auto)]

mod control;
pub mod laws;
mod session;
mod words;

pub use control::{control, run};
pub use program_words::Status;
use program_words::words_after_name;
use span_io::{StdSink, StdSource};
use std::env;
use std::process::ExitCode;

fn main(rt: HostRuntime) -> ExitCode {
    let Ok(arguments) = env::args(&rt) else {
        return ExitCode::from(1);
    };
    let Ok(words) = words_after_name(rt.alloc(), arguments) else {
        return ExitCode::from(1);
    };
    let mut source = StdSource::new(rt.stdin());
    let mut sink = StdSink::new(rt.stdout());
    ExitCode::from(run(rt.alloc(), words.as_slice(), &mut source, &mut sink))
}
