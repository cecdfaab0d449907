//! One scenario, read and run with room for 8 nodes and for 16.

use node_grid::{Capacity, Nodes};
use scenario_reading::read;
use span_io::{MemSink, StdSource, read_all};
use std::alloc::Global;
use top_call::replay_at;
use worked_rows::row;

/// How many bytes a text may have here.
const ROOM: usize = 2_000_000;

/// The text of a scenario's replay at a capacity, with its frames or without.
fn text_at<const N: usize>(alloc: Global, bytes: &[u8], trace: bool) -> anyhow::Result<Vec<u8>>
where
    Nodes: Capacity<N>,
{
    let Ok(scenario) = read::<N>(alloc, bytes) else {
        anyhow::bail!("the scenario is refused");
    };
    let Ok(mut sink) = MemSink::new(alloc, ROOM, 1000, Vec::new(alloc)) else {
        anyhow::bail!("there is no memory for the sink");
    };
    if replay_at(alloc, &scenario, trace, &mut sink).is_err() {
        anyhow::bail!("the text isn't written whole");
    }
    Ok(Vec::from_slice(alloc, sink.written())?)
}

fn compare(rt: &HostRuntime, asked: &str, bytes: &[u8], trace: bool) -> anyhow::Result<()> {
    let few = text_at::<8>(rt.alloc(), bytes, trace)?;
    let many = text_at::<16>(rt.alloc(), bytes, trace)?;
    let count = few.len();
    let is_alike = few.as_slice() == many.as_slice();
    println!(rt; "{asked}: {count} bytes, alike at both capacities: {is_alike}")?;
    Ok(())
}

pub fn print(rt: &HostRuntime) -> anyhow::Result<()> {
    let mut source = StdSource::new(rt.stdin());
    let Ok(bytes) = read_all(rt.alloc(), &mut source, ROOM) else {
        anyhow::bail!("standard input can't be read");
    };
    row(rt, "bytes of the scenario", bytes.len())?;
    compare(rt, "its replay", bytes.as_slice(), false)
}
