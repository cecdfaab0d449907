//! Worked rows of calls of the values and rules: a line for each, what was asked and what was
//! answered.
//!
//! The stored output was worked out from the rules by hand.
#![tactic(auto)]

mod answers;
mod convictions;
mod counts;
mod graphs;
mod members;
mod paths;
mod reports;
mod sets;
mod streams;
mod tables;
mod votes;

fn main(rt: HostRuntime) -> anyhow::Result<()> {
    sets::print(&rt)?;
    paths::print(&rt)?;
    tables::print(&rt)?;
    convictions::print(&rt)?;
    votes::print(&rt)?;
    members::print(&rt)?;
    counts::print(&rt)?;
    reports::print(&rt)?;
    graphs::print(&rt)?;
    streams::print(&rt)?;
    Ok(())
}
