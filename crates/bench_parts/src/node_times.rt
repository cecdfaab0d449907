//! The periods of a cluster whose nodes are stepped frame by frame, of a scenario that is read from
//! standard input.

ghost use Rattle.std.specs.Prelude.{◌≡◌, ◌<◌, ◌+◌, IfOk};

use crate::reading_times::scenario_in;
use cluster_step::Cluster;
use scenario::Scenario;
use std::io;
use std::time::Instant;

/// How many microseconds the next period of all nodes takes.
fn time_next(rt: &HostRuntime, cluster: &mut Cluster<'_, 16>) -> io::Result<u128>
    requires more { cluster.old.run < cluster.old.scenario.periods }
    ensures { IfOk result (λ _. cluster.new ≡ record cluster.old { run = cluster.old.run + 1 }) }
{
    let start = Instant::now(rt)?;
    cluster.period();
    let took = start.elapsed(rt)?;
    Ok(took.as_micros())
}

/// The least number of microseconds that a period of all nodes takes, or 2^128 - 1 where there is
/// none.
fn least_of(
    rt: &HostRuntime,
    scenario: &Scenario<16>,
    cluster: &mut Cluster<'_, 16>,
) -> io::Result<u128>
    requires fresh { cluster.old ≡ record { scenario = scenario.now; run = 0 } }
{
    let mut least = u128::MAX;
    'periods: for _ in 0..scenario.periods() {
        let took = time_next(rt, cluster)?;
        if took < least {
            least = took;
        }
    }
    Ok(least)
}

/// Prints the least time of a period, shared by the nodes.
fn show_least(rt: &HostRuntime, scenario: &Scenario<16>, least: u128) -> io::Result<()> {
    let nodes = scenario.config().nodes;
    if nodes == 0 {
        return Ok(());
    }
    let each = least / nodes as u128;
    println!(rt; "{each} us a node and period")
}

/// Steps all nodes of a scenario through all of its periods.
fn measure_nodes(rt: &HostRuntime, scenario: &Scenario<16>) -> io::Result<()> {
    match Cluster::open(rt.alloc(), scenario) {
        Ok(mut cluster) => {
            let least = least_of(rt, scenario, &mut cluster)?;
            show_least(rt, scenario, least)
        }
        Err(_) => println!(rt; "no memory"),
    }
}

/// Reads a scenario from standard input, steps all of its nodes through all of its periods, and
/// prints the least time of a period, shared by the nodes.
pub fn measure(rt: &HostRuntime) -> io::Result<()> {
    match scenario_in(rt) {
        Some(scenario) => measure_nodes(rt, &scenario),
        None => println!(rt; "no scenario"),
    }
}
