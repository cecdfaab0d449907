//! Graphs of tasks.

use node_grid::NodeSet;
use std::alloc::{AllocError, Global};
use std::io;
use task_graph::{GraphError, Task, TaskGraph};
use worked_rows::{Several, row};

/// A task on node 0 that comes after these.
fn task(alloc: Global, after: &[u8]) -> Result<Task<8>, AllocError> {
    Ok(Task {
        after: Vec::from_slice(alloc, after)?,
        nodes: NodeSet::full(1),
        need: 1,
        min: 1,
        max: 1,
    })
}

/// Tasks that come after these.
fn tasks(alloc: Global, after: &[&[u8]]) -> Result<Vec<Task<8>>, AllocError> {
    let mut tasks = Vec::new(alloc);
    for list in after {
        tasks.push(task(alloc, list)?)?;
    }
    Ok(tasks)
}

/// How many tasks a graph of three nodes has, where these make one.
fn size(tasks: Vec<Task<8>>) -> Result<u8, GraphError> {
    let graph = TaskGraph::new(3, tasks)?;
    Ok(graph.len())
}

fn refused(rt: &HostRuntime, asked: &str, error: GraphError) -> io::Result<()> {
    println!(rt; "{asked}: {error}")?;
    match error {
        GraphError::Range(at) | GraphError::Cycle(at) => row(rt, "  task", at),
    }
}

/// Prints how many tasks a graph has, or why there is none.
fn tell(rt: &HostRuntime, asked: &str, size: Result<u8, GraphError>) -> io::Result<()> {
    match size {
        Ok(count) => row(rt, asked, count),
        Err(error) => refused(rt, asked, error),
    }
}

/// Prints what a graph of three nodes says of tasks that come after these.
fn graph(rt: &HostRuntime, asked: &str, after: &[&[u8]]) -> anyhow::Result<()> {
    let size = size(tasks(rt.alloc(), after)?);
    Ok(tell(rt, asked, size)?)
}

fn show(rt: &HostRuntime, graph: &TaskGraph<8>) -> io::Result<()> {
    row(rt, "a graph of two tasks has nodes", graph.nodes())?;
    if graph.len() != 2 {
        return Ok(());
    }
    row(
        rt,
        "task 0 comes after",
        Several(graph.task(0).after.as_slice()),
    )?;
    row(
        rt,
        "task 1 comes after",
        Several(graph.task(1).after.as_slice()),
    )
}

fn of_two(rt: &HostRuntime) -> anyhow::Result<()> {
    let tasks = tasks(rt.alloc(), &[&[1], &[]])?;
    let Ok(graph) = TaskGraph::new(3, tasks) else {
        return Ok(());
    };
    Ok(show(rt, &graph)?)
}

pub fn print(rt: &HostRuntime) -> anyhow::Result<()> {
    graph(rt, "tasks after nothing, 3, 1, 2", &[&[], &[3], &[1], &[2]])?;
    graph(rt, "a task after itself", &[&[0]])?;
    graph(
        rt,
        "tasks after 1, 2, 3, nothing: tasks",
        &[&[1], &[2], &[3], &[]],
    )?;
    let none: [&[u8]; 33] = [&[]; 33];
    graph(rt, "33 tasks", &none)?;
    graph(rt, "32 tasks: tasks", &none[..32])?;
    of_two(rt)
}
