//! A storm as a scenario.
ghost use Rattle.std.specs.Prelude.{◌≡◌, IfOk};
ghost use Rattle.scenario.specs.Given.{scenario_of};
ghost use Rattle.scenario.specs.Scenario.{IsScenario, system_of};
ghost use Rattle.scenario.specs.Seen.{parts_view};
ghost use Rattle.storm.specs.Parts.{storm_parts};
ghost use Rattle.storm.specs.Laws.{Weathers};

use crate::cluster::{channels, policy, tasks};
use crate::drawing::draw_storm;
use crate::laws;
use node_grid::NoMemory;
use scenario::{Parts, Scenario};
use std::alloc::{AllocError, Global};

/// The parts of a number's storm.
fn parts(alloc: Global, seed: u64) -> Result<Parts, AllocError>
    ensures { IfOk result (λ p. parts_view p ≡ storm_parts seed) }
{
    let drawn = draw_storm(alloc, seed)?;
    Ok(Parts {
        version: 1,
        nodes: 8,
        m: 2,
        periods: 1024,
        policy: policy(alloc)?,
        frame: Some(16),
        order: 0,
        channels: channels(alloc)?,
        tasks: tasks(alloc)?,
        faults: drawn.faults,
        restarts: drawn.restarts,
        clock: None,
    })
}

/// The storm of a number, in which each period is claimed.
///
/// # Errors
/// `NoMemory`: there was none. No rule refuses a storm.
pub fn make(alloc: Global, seed: u64) -> Result<Scenario<8>, NoMemory>
    ensures says { IfOk result (λ s. s ≡ scenario_of 8 (storm_parts seed)) }
    ensures accepted { IfOk result (λ s. IsScenario s) }
    ensures weathered { IfOk result (λ s. Weathers (system_of s)) }
{
    laws::weathered();
    let Ok(parts) = parts(alloc, seed) else {
        return Err(NoMemory);
    };
    let Ok(scenario) = Scenario::from_parts(alloc, parts) else {
        return Err(NoMemory);
    };
    Ok(scenario)
}
