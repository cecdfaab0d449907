//! Times one part of the product, which its word names: `frames`, `plan`, the reading of standard
//! input, `json` of its JSON alone and `judged` of the whole scenario, or the `nodes` of that
//! scenario, stepped frame by frame.
//!
//! Without a word it reads and prints nothing.
#![tactic(auto)]

mod frame_times;
mod node_times;
mod plan_times;
mod reading_times;

use std::{env, io};

/// Times the part of this name, if there is one.
fn measure(rt: &HostRuntime, word: &str) -> io::Result<()> {
    match word {
        "frames" => frame_times::measure(rt),
        "plan" => plan_times::measure(rt),
        "nodes" => node_times::measure(rt),
        "json" => reading_times::measure(rt, false),
        "judged" => reading_times::measure(rt, true),
        _ => Ok(()),
    }
}

fn main(rt: HostRuntime) -> io::Result<()> {
    match env::args(&rt)?.skip(1).next() {
        Some(word) => measure(&rt, word.as_str()),
        None => Ok(()),
    }
}
