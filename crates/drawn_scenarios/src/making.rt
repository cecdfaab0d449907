//! The scenario of an index.
ghost use Rattle.std.specs.Prelude.{◌≡◌, ◌≤◌, None, IfOk, option_map};
ghost use Rattle.std.specs.List.{flat_map};
ghost use Rattle.scenario.specs.Given.{scenario_of};
ghost use Rattle.scenario.specs.Rules.{refusal};
ghost use Rattle.scenario.specs.Scenario.{IsScenario};
ghost use Rattle.scenario.specs.Seen.{clock_view, parts_view};
ghost use Rattle.scenario_versions.specs.Versions.{IsOfVersion};
ghost use Rattle.drawn_scenarios.specs.Cluster.{clock_of};
ghost use Rattle.drawn_scenarios.specs.Drawn.{parts_of, drawn_parts};
ghost use Rattle.drawn_scenarios.specs.Lines.{lies_of};

use crate::bout::Bout;
use crate::cluster::{channels, clock, frame, policy, tasks, version};
use crate::drawing::draw_bouts;
use crate::laws;
use crate::lines::{faults, lies, restarts};
use crate::options::Options;
use node_grid::{Capacity, NoMemory, Nodes};
use scenario::{ClockPart, Parts, Scenario};
use std::alloc::{AllocError, Global};

/// The clocks, where there are some.
fn clocks(alloc: Global, options: &Options, bouts: &[Bout]) -> Result<Option<ClockPart>, AllocError>
    ensures { IfOk result (λ k. option_map clock_view k
        ≡ option_map (clock_of options.now.choices.nodes
        (flat_map (lies_of options.now.choices) bouts.now)) options.now.choices.clock) }
{
    let Some(given) = &options.choices.clock else {
        return Ok(None);
    };
    let lies = lies(alloc, options, bouts)?;
    Ok(Some(clock(alloc, options.choices.nodes, given, lies)?))
}

/// The parts of a scenario with these bouts.
fn parts(alloc: Global, options: &Options, bouts: &[Bout]) -> Result<Parts, AllocError>
    ensures { IfOk result (λ p. parts_view p ≡ parts_of options.now.choices bouts.now) }
{
    Ok(Parts {
        version: i64::from(version(options)),
        nodes: i64::from(options.choices.nodes),
        m: i64::from(options.choices.m),
        periods: i64::from(options.choices.periods),
        policy: policy(alloc, options)?,
        frame: frame(options),
        order: 0,
        channels: channels(alloc, options)?,
        tasks: tasks(alloc, options)?,
        faults: faults(alloc, options, bouts)?,
        restarts: restarts(alloc, options, bouts)?,
        clock: clocks(alloc, options, bouts)?,
    })
}

/// The parts of a seed's scenario of this index, which no rule refuses and their version has words
/// for.
///
/// # Errors
/// Want of memory.
pub fn drawn(alloc: Global, options: &Options, seed: u32, index: u32) -> Result<Parts, AllocError>
    ensures says { IfOk result (λ p. parts_view p ≡ drawn_parts options.now.choices seed index) }
    ensures accepted { refusal 16 (drawn_parts options.now.choices seed index) ≡ None }
    ensures few { options.now.choices.nodes ≤ 8
        → refusal 8 (drawn_parts options.now.choices seed index) ≡ None }
    ensures of_version { IfOk result (λ p. IsOfVersion (parts_view p)) }
{
    laws::unrefused();
    match draw_bouts(alloc, options, seed, index) {
        Ok(bouts) => parts(alloc, options, &bouts),
        Err(error) => Err(error),
    }
}

/// A seed's scenario of this index.
///
/// # Errors
/// `NoMemory`: there was none. No rule refuses it.
pub fn make<const N: usize>(
    alloc: Global,
    options: &Options,
    seed: u32,
    index: u32,
) -> Result<Scenario<N>, NoMemory>
where
    Nodes: Capacity<N>,
    requires nodes { options.now.choices.nodes ≤ N }
    ensures says { IfOk result (λ s. s
        ≡ scenario_of N (drawn_parts options.now.choices seed index)) }
    ensures accepted { IfOk result (λ s. IsScenario s) }
{
    let Ok(parts) = drawn(alloc, options, seed, index) else {
        return Err(NoMemory);
    };
    let Ok(scenario) = Scenario::from_parts(alloc, parts) else {
        return Err(NoMemory);
    };
    Ok(scenario)
}
