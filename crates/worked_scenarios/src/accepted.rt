//! What accepted scenarios say, which are made of parts, and drawn.

use scenario::{ChannelPart, Parts, PolicyPart, Scenario, ScenarioError, TaskPart};
use std::alloc::{AllocError, Global};
use std::io;
use storm::make;
use worked_rows::{Several, row};

/// The weights of a version's kinds, each 5.
fn weights(alloc: Global, version: i64) -> Result<Vec<i64>, AllocError> {
    if version == 1 {
        Vec::from_slice(alloc, &[5; 8])
    } else {
        Vec::from_slice(alloc, &[5; 16])
    }
}

/// So many nodes in five periods, in this version, without channels, tasks and faults.
fn parts(alloc: Global, version: i64, nodes: i64) -> Result<Parts, AllocError> {
    let policy = PolicyPart {
        weights: weights(alloc, version)?,
        exclude: 20,
        readmit: 4,
        credit: 1,
        streak: 2,
        cap: 100,
        retire: 0,
    };
    Ok(Parts {
        version,
        nodes,
        m: 0,
        periods: 5,
        policy,
        frame: None,
        order: 2,
        channels: Vec::new(alloc),
        tasks: Vec::new(alloc),
        faults: Vec::new(alloc),
        restarts: Vec::new(alloc),
        clock: None,
    })
}

/// A task that nodes 0 and 2 run, for one period and for two.
fn task(alloc: Global) -> Result<TaskPart, AllocError> {
    Ok(TaskPart {
        after: Vec::new(alloc),
        nodes: Vec::from_slice(alloc, &[0, 2])?,
        need: 1,
        min: 1,
        max: 2,
        run: Vec::from_slice(alloc, &[1, 2])?,
    })
}

/// A sensor of three nodes with two rows, in the periods in which task 0 finishes.
fn sensor(alloc: Global) -> Result<ChannelPart, AllocError> {
    let mut readings = Vec::new(alloc);
    for readings_of_nodes in [[10, 11, 12], [20, 21, 22]] {
        readings.push(Vec::from_slice(alloc, &readings_of_nodes)?)?;
    }
    Ok(ChannelPart::Sensor {
        delta: 2,
        task: Some(0),
        readings,
    })
}

/// The periods of what is made of parts with room for 8 nodes.
fn periods_of(alloc: Global, parts: Parts) -> Result<u32, ScenarioError> {
    let scenario: Scenario<8> = Scenario::from_parts(alloc, parts)?;
    Ok(scenario.periods())
}

/// Prints why these parts are refused with room for 8 nodes, if they are.
fn tell(rt: &HostRuntime, asked: &str, parts: Parts) -> io::Result<()> {
    match periods_of(rt.alloc(), parts) {
        Ok(periods) => row(rt, asked, periods),
        Err(error) => println!(rt; "{asked}: {error}"),
    }
}

/// What nodes 2 and 1 of three are given.
fn show_inputs(rt: &HostRuntime, scenario: &Scenario<8>) -> io::Result<()> {
    if scenario.config().nodes < 3 {
        return Ok(());
    }
    let inputs = scenario.inputs(2, 4);
    row(rt, "node 2 runs the task for periods", inputs.run[0])?;
    row(rt, "and in period 4 reads", inputs.reading[0])?;
    let inputs = scenario.inputs(1, 3);
    row(rt, "node 1 runs it for", inputs.run[0])?;
    row(rt, "and in period 3 reads", inputs.reading[0])
}

/// What a scenario says, and what nodes 2 and 1 of three are given.
fn show(rt: &HostRuntime, scenario: &Scenario<8>) -> io::Result<()> {
    row(rt, "its periods", scenario.periods())?;
    row(rt, "the node that is delivered first", scenario.order())?;
    row(rt, "its clocks are given", scenario.clock().is_some())?;
    row(rt, "its lines", scenario.plan().line_count())?;
    show_inputs(rt, scenario)
}

/// Adds a task and the sensor that it reads.
fn add_a_sensor(alloc: Global, parts: &mut Parts) -> Result<(), AllocError> {
    parts.tasks.push(task(alloc)?)?;
    parts.channels.push(sensor(alloc)?)?;
    Ok(())
}

/// Three nodes with a task and the sensor that it reads.
fn with_a_sensor(alloc: Global) -> Result<Parts, AllocError> {
    let mut parts = parts(alloc, 1, 3)?;
    add_a_sensor(alloc, &mut parts)?;
    Ok(parts)
}

/// Prints what is made of parts with room for 8 nodes.
fn show_made(rt: &HostRuntime, made: Result<Scenario<8>, ScenarioError>) -> io::Result<()> {
    match made {
        Ok(scenario) => show(rt, &scenario),
        Err(error) => println!(rt; "{error}"),
    }
}

fn of_parts(rt: &HostRuntime) -> anyhow::Result<()> {
    let parts = with_a_sensor(rt.alloc())?;
    Ok(show_made(rt, Scenario::from_parts(rt.alloc(), parts))?)
}

/// How many nodes those have that are made of parts with room for 16.
fn nodes_of(alloc: Global, parts: Parts) -> Result<u8, ScenarioError> {
    let scenario: Scenario<16> = Scenario::from_parts(alloc, parts)?;
    Ok(scenario.config().nodes)
}

/// Prints how many nodes nine are with room for 16.
fn tell_nine(rt: &HostRuntime, nodes: Result<u8, ScenarioError>) -> io::Result<()> {
    match nodes {
        Ok(nodes) => row(rt, "nine nodes with room for 16: nodes", nodes),
        Err(error) => println!(rt; "{error}"),
    }
}

/// What nine nodes are answered with room for 16.
fn nine_in_sixteen(rt: &HostRuntime) -> anyhow::Result<()> {
    let parts = parts(rt.alloc(), 2, 9)?;
    Ok(tell_nine(rt, nodes_of(rt.alloc(), parts))?)
}

fn show_storm(rt: &HostRuntime, storm: &Scenario<8>) -> io::Result<()> {
    let config = storm.config();
    row(
        rt,
        "nodes, and relay rounds of a storm",
        Several(&[config.nodes, config.m]),
    )?;
    row(rt, "its periods", storm.periods())?;
    row(
        rt,
        "its restarts, one in each of 64 blocks",
        storm.plan().restart_count(),
    )
}

fn of_storm(rt: &HostRuntime) -> anyhow::Result<()> {
    let Ok(storm) = make(rt.alloc(), 7) else {
        return Err(AllocError.into());
    };
    Ok(show_storm(rt, &storm)?)
}

/// Prints why so many nodes in this version are refused, if they are.
fn tell_nodes(rt: &HostRuntime, asked: &str, version: i64, nodes: i64) -> anyhow::Result<()> {
    let parts = parts(rt.alloc(), version, nodes)?;
    Ok(tell(rt, asked, parts)?)
}

/// In version 1 nodes may not retire.
fn of_retirement(rt: &HostRuntime) -> anyhow::Result<()> {
    let mut parts = parts(rt.alloc(), 1, 3)?;
    parts.policy.retire = 1;
    Ok(tell(rt, "in version 1 a node retires", parts)?)
}

fn of_numbers(rt: &HostRuntime) -> anyhow::Result<()> {
    tell_nodes(rt, "parts of three nodes: periods", 1, 3)?;
    tell_nodes(rt, "of two nodes", 1, 2)?;
    of_retirement(rt)?;
    tell_nodes(rt, "of nine nodes", 2, 9)
}

pub fn print(rt: &HostRuntime) -> anyhow::Result<()> {
    of_numbers(rt)?;
    nine_in_sixteen(rt)?;
    of_parts(rt)?;
    of_storm(rt)
}
