//! The summary of a storm: it is run, and what befalls its members is summed up.
#![tactic(auto)]

ghost use Rattle.std.specs.Prelude.{◌≡◌, IfOk};
ghost use Rattle.scenario.specs.Scenario.{system_of};
ghost use Rattle.storm_sum.specs.Laws.{storm_summary, IsStormSummary};
ghost use Rattle.storm_sum.specs.Summary.{summary_of};
ghost use Rattle.storm_sum.specs.Summing.{AreSums};

pub mod laws;
mod sums;

use crate::sums::Sums;
use at_once::Run;
use node_grid::NoMemory;
use run_print::StormSum;
use scenario::Scenario;
use std::alloc::Global;

/// Runs a scenario, and sums up its periods.
fn sum_up(alloc: Global, scenario: &Scenario<8>) -> Result<Sums, NoMemory>
    ensures { IfOk result (λ s. AreSums (system_of scenario.now) scenario.now.periods s) }
{
    let mut run = Run::open(alloc, scenario)?;
    Ok(Sums::of_first(&mut run, scenario.periods()))
}

/// Runs a scenario, and tells what its periods sum up to.
fn run(alloc: Global, scenario: &Scenario<8>, seed: u64) -> Result<StormSum<8>, NoMemory>
    ensures { IfOk result (λ s. s ≡ summary_of seed scenario.now) }
{
    let sums = sum_up(alloc, scenario)?;
    let plan = scenario.plan();
    let config = scenario.config();
    Ok(StormSum {
        seed,
        periods: scenario.periods(),
        claimed: sums.claimed,
        lines: plan.line_count(),
        restarts: plan.restart_count(),
        excluded: sums.excluded,
        readmitted: sums.readmitted,
        members: sums.members,
        counts: sums.counts,
        nodes: config.nodes,
    })
}

/// Makes the storm of a number, runs it, and sums it up.
///
/// # Errors
/// `NoMemory`: there was none.
pub fn summary(alloc: Global, seed: u64) -> Result<StormSum<8>, NoMemory>
    ensures says { IfOk result (λ s. s ≡ storm_summary seed) }
    ensures claimed { IfOk result (λ s. IsStormSummary s) }
{
    laws::claimed();
    let storm = storm::make(alloc, seed)?;
    run(alloc, &storm, seed)
}
