//! The top call over sources and sinks in memory: a line for each row, what was asked and what was
//! answered.
//!
//! The stored output was worked out from the rules by hand. Standard input is the scenario of the
//! last rows.
#![tactic(auto)]

mod asking;
mod devices;
mod rooms;

use run_print::WriteFault;

fn main(rt: HostRuntime) -> anyhow::Result<()> {
    devices::print(&rt)?;
    println!(rt; "a text that isn't written whole: {}", WriteFault)?;
    rooms::print(&rt)
}
