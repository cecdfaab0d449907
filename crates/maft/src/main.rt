//! Replays a scenario of a cluster of operations controllers, and prints what every node believes.
//! What it promises is the contract of `maft`, in crates/top_call; here the words are taken, and
//! the devices are made.
#![tactic(auto)]

use program_words::words_after_name;
use span_io::{StdSink, StdSource};
use std::env;
use std::process::ExitCode;
use top_call::run;

fn main(rt: HostRuntime) -> ExitCode {
    let Ok(arguments) = env::args(&rt) else {
        return ExitCode::from(1);
    };
    let Ok(words) = words_after_name(rt.alloc(), arguments) else {
        return ExitCode::from(1);
    };
    let mut source = StdSource::new(rt.stdin());
    let mut sink = StdSink::new(rt.stdout());
    ExitCode::from(run(rt.alloc(), words.as_slice(), &mut source, &mut sink))
}
