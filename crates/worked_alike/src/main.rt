//! A plain program and a fast one of the same rule on drawn inputs: how often they answer alike.
#![tactic(auto)]

mod charges;
mod draws;
mod largest;
mod lies;
mod relays;
mod sayings;
mod seats;
mod tables;

fn main(rt: HostRuntime) -> anyhow::Result<()> {
    charges::print(&rt)?;
    tables::print(&rt)?;
    lies::print(&rt)?;
    largest::print(&rt)?;
    Ok(())
}
