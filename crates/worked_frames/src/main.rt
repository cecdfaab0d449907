//! Worked rows of frames and of what a node finds of a slot: a line for each, what was asked and
//! what was answered.
//!
//! The stored output was worked out from the rules by hand.
#![tactic(auto)]

mod frame_vectors;
mod sizes;
mod watches;

fn main(rt: HostRuntime) -> anyhow::Result<()> {
    sizes::print(&rt)?;
    frame_vectors::print(&rt)?;
    watches::print(&rt)
}
