ghost use Rattle.std.specs.Prelude.{◌≡◌, ℕ, ◌<◌, ◌≤◌, ◌↔◌, length, slice_get, Some, Err, IsOk};
ghost use Rattle.std.specs.Prelude.{IfOk, ◌==◌};
ghost use Rattle.task_graph.specs.Graph.{IsOut, IsCyclic, IsLeast, IsTasks, IsGraph, task_at};
ghost use Rattle.task_graph.specs.Refusal.{IsRefusal};

use crate::Task;
use crate::cycles::first_cyclic;
use crate::range::first_out_of_range;
use node_grid::{Capacity, Nodes};
use std::error::Error;
use std::fmt;
use std::marker::Model;

/// Why tasks make no graph. The number is the least task at fault.
#[derive(Clone, Copy, PartialEq, Eq)]
pub enum GraphError {
    /// A task is out of range: its number, its predecessors, its nodes, its need or its run times.
    Range(u8),
    /// All tasks are in range, and this one comes after itself by a chain of predecessors.
    Cycle(u8),
}

impl GraphError {
    /// What is wrong, without the task.
    fn text(&self) -> &'static str {
        match self {
            GraphError::Range(_) => "a task is out of range",
            GraphError::Cycle(_) => "a task comes after itself",
        }
    }
}

impl fmt::Display for GraphError {
    fn fmt<W: fmt::Write>(&self, f: &mut fmt::Formatter<W>) -> fmt::Result {
        f.write_str(self.text())
    }
}

// The same text.
impl fmt::Debug for GraphError {
    fn fmt<W: fmt::Write>(&self, f: &mut fmt::Formatter<W>) -> fmt::Result {
        f.write_str(self.text())
    }
}

impl Error for GraphError {}

/// Tasks over a number of nodes, at most 32 of them, each in range and none after itself.
#[derive(Drop)]
pub struct TaskGraph<const N: usize> {
    nodes: u8,
    tasks: Vec<Task<N>>,
}

// Clauses see the number of nodes and the list of tasks.
impl<const N: usize> Model for TaskGraph<N> {
    ghost use Rattle.task_graph.specs.Graph.{GraphView, IsGraph};

    ghost Value = { GraphView };

    ghost view = { λ g. record { nodes = g.nodes; tasks = g.tasks.items } };

    ghost invariant = { λ g. IsGraph N (record { nodes = g.nodes; tasks = g.tasks.items }) };
}

impl<const N: usize> TaskGraph<N> {
    /// The graph of these tasks over nodes 0 to `nodes - 1`, from 3 to `N` of them.
    ///
    /// `Range(t)` comes exactly where a task is out of range and t is the least such task, and
    /// `Cycle(t)` exactly where none is and t is the least task that comes after itself.
    pub fn new(nodes: u8, tasks: Vec<Task<N>>) -> Result<TaskGraph<N>, GraphError>
    where
        Nodes: Capacity<N>,
        requires some { 3 ≤ nodes }
        requires few { nodes ≤ N }
        ensures ok { IfOk result (λ g. g ≡ record { nodes = nodes; tasks = tasks.entry.items }) }
        ensures accepted { IsOk result ↔ IsTasks nodes tasks.entry.items }
        ensures refused { (e : GraphError) →
            (result ≡ Err e) ↔ IsRefusal nodes tasks.entry.items e }
    {
        if let Some(t) = first_out_of_range(nodes, &tasks) {
            return Err(GraphError::Range(t));
        }
        if let Some(t) = first_cyclic(nodes, &tasks) {
            return Err(GraphError::Cycle(t));
        }
        Ok(TaskGraph { nodes, tasks })
    }

    /// The number of tasks, at most 32.
    pub fn len(&self) -> u8
        ensures count { result ≡ length self.now.tasks }
        ensures graph { IsGraph N self.now }
    {
        self.tasks.len() as u8
    }

    /// Whether there is no task.
    pub fn is_empty(&self) -> bool
        ensures { result ≡ (length self.now.tasks == 0) }
    {
        self.tasks.is_empty()
    }

    /// The number of nodes.
    pub fn nodes(&self) -> u8
        ensures count { result ≡ self.now.nodes }
        ensures graph { IsGraph N self.now }
    {
        self.nodes
    }

    /// Task `t`.
    pub fn task(&self, t: u8) -> &Task<N>
        requires { t < length self.now.tasks }
        ensures task { result.now ≡ task_at self.now.tasks t }
        ensures graph { IsGraph N self.now }
    {
        &self.tasks[t as usize]
    }
}
