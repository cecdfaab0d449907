//! Worked rows of plans and scenarios: a line for each, what was asked and what was answered.
//!
//! The stored output was worked out from the rules by hand.
#![tactic(auto)]

mod accepted;
mod plans;
mod refused;
mod refused_plans;
mod texts;

fn main(rt: HostRuntime) -> anyhow::Result<()> {
    plans::print(&rt)?;
    refused_plans::print(&rt)?;
    refused::print(&rt)?;
    accepted::print(&rt)?;
    texts::print(&rt)?;
    Ok(())
}
