//! The cluster that faults are drawn onto, which its options alone decide.
ghost use Rattle.std.specs.Prelude.{◌≡◌, ◌<◌, ◌≤◌, map, pos, IfOk};
ghost use Rattle.node_grid.specs.NodeSet.{ids_below};
ghost use Rattle.scenario.specs.Seen.{policy_view, channel_view, task_view, lie_view, clock_view};
ghost use Rattle.drawn_scenarios.specs.Choices.{AreClockChoices};
ghost use Rattle.drawn_scenarios.specs.Cluster.{version_of, policy, sensor_of, copies_of};
ghost use Rattle.drawn_scenarios.specs.Cluster.{channels_of, copy_count, task_of, tasks_of};
ghost use Rattle.drawn_scenarios.specs.Cluster.{frame_of, clock_of};

use crate::choices::ClockChoices;
use crate::options::Options;
use crate::series::Series;
use scenario::{ChannelPart, ClockPart, LiePart, PolicyPart, TaskPart};
use std::alloc::{AllocError, Global};

/// The version of the formats.
pub fn version(options: &Options) -> u8
    ensures { result ≡ version_of options.now.choices }
{
    let choices = &options.choices;
    if choices.nodes > 8 || choices.m > 2 || choices.copies || choices.clock.is_some() {
        2
    } else {
        1
    }
}

/// The policy: the second bad period excludes.
pub fn policy(alloc: Global, options: &Options) -> Result<PolicyPart, AllocError>
    ensures { IfOk result (λ p. policy_view p ≡ policy options.now.choices) }
{
    Ok(PolicyPart {
        weights: vec![in alloc; 5; 8 * usize::from(version(options))]?,
        exclude: 10,
        readmit: 4,
        credit: 5,
        streak: 1,
        cap: 20,
        retire: 0,
    })
}

/// The channels: a sensor, and the results of a task's copies where there are some.
pub fn channels(alloc: Global, options: &Options) -> Result<Vec<ChannelPart>, AllocError>
    ensures { IfOk result (λ cs. map channel_view cs.items ≡ channels_of options.now.choices) }
{
    let nodes = options.choices.nodes;
    let mut channels = Vec::new(alloc);
    channels.push(ChannelPart::Sensor {
        delta: 4,
        task: None,
        readings: Series::Readings.three_rows(alloc, nodes)?,
    })?;
    if options.choices.copies {
        let mut readings = Vec::new(alloc);
        readings.push(Series::Results.row(alloc, 0, nodes)?)?;
        channels.push(ChannelPart::Copy {
            delta: 4,
            task: 0,
            lies: 1,
            readings,
        })?;
    }
    Ok(channels)
}

/// The first nodes.
fn first_nodes(alloc: Global, count: u8) -> Result<Vec<i64>, AllocError>
    ensures { IfOk result (λ v. v.items ≡ map pos (ids_below count)) }
{
    let mut nodes = Vec::new(alloc);
    for node in 0..count {
        nodes.push(i64::from(node))?;
    }
    Ok(nodes)
}

/// The task, where it runs in copies: on up to five nodes, in each period.
pub fn tasks(alloc: Global, options: &Options) -> Result<Vec<TaskPart>, AllocError>
    ensures { IfOk result (λ ts. map task_view ts.items ≡ tasks_of options.now.choices) }
{
    let mut tasks = Vec::new(alloc);
    if options.choices.copies {
        let count = options.choices.nodes.min(5);
        tasks.push(TaskPart {
            after: Vec::new(alloc),
            nodes: first_nodes(alloc, count)?,
            need: i64::from(count / 2 + 1),
            min: 1,
            max: 1,
            run: vec![in alloc; 1; usize::from(count)]?,
        })?;
    }
    Ok(tasks)
}

/// After how many periods the task begins anew, where it runs in copies.
pub fn frame(options: &Options) -> Option<i64>
    ensures { result ≡ frame_of options.now.choices }
{
    if options.choices.copies {
        Some(1)
    } else {
        None
    }
}

/// The clocks, with these lies.
pub fn clock(
    alloc: Global,
    nodes: u8,
    clock: &ClockChoices,
    lies: Vec<LiePart>,
) -> Result<ClockPart, AllocError>
    requires few { nodes ≤ 16 }
    requires in_range { AreClockChoices clock.now }
    ensures { IfOk result (λ k. clock_view k ≡ clock_of nodes (map lie_view lies.items) clock.now) }
{
    Ok(ClockPart {
        epsilon: i64::from(clock.epsilon),
        drift: i64::from(clock.drift),
        start: Series::Starts(clock.start).row(alloc, 0, nodes)?,
        drifts: Series::Drifts(clock.drift).three_rows(alloc, nodes)?,
        errors: Series::Errors(clock.epsilon).three_rows(alloc, nodes)?,
        lies,
    })
}
