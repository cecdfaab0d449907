ghost use Rattle.std.specs.Prelude.{◌≡◌, ℕ, ◌<◌, is_some};
ghost use Rattle.list_scheduler.specs.Copies.{copy_at, table, IsTable, with_copy, works, running};
ghost use Rattle.list_scheduler.specs.Copies.{is_idle, is_passed};
ghost use Rattle.list_scheduler.specs.Schedule.{left_by, all_idle};

use node_grid::{Capacity, Nodes};
use std::marker::Model;

/// How one copy of a task stands in a frame of periods.
#[derive(Clone, Copy, PartialEq, Eq)]
pub enum CopyState {
    /// It wasn't started.
    Idle,
    /// It runs since so many periods, the present one among them, so from 1 on.
    Running(u16),
    /// Its node claimed it in time.
    Passed,
    /// Its node overran, or left.
    Failed,
}

impl CopyState {
    pub(crate) fn is_idle(self) -> bool
        ensures { result ≡ is_idle self }
    {
        matches!(self, CopyState::Idle)
    }

    pub(crate) fn is_running(self) -> bool
        ensures { result ≡ is_some (running self) }
    {
        matches!(self, CopyState::Running(_))
    }

    pub(crate) fn is_passed(self) -> bool
        ensures { result ≡ is_passed self }
    {
        matches!(self, CopyState::Passed)
    }
}

/// The copies of 32 tasks on `N` nodes.
#[derive(Clone, Copy, PartialEq, Eq)]
pub struct Copies<const N: usize> {
    pub(crate) rows: [[CopyState; N]; 32],
}

// Clauses see for each task the copies of the nodes.
impl<const N: usize> Model for Copies<N> {
    ghost use Rattle.list_scheduler.specs.Copies.{CopyTable, IsTable};

    ghost Value = { CopyTable };

    ghost view = { λ c. c.rows };

    ghost invariant = { λ c. IsTable N c.rows };

    ghost inverse = { λ xs. record { rows = xs } };
}

impl<const N: usize> Copies<N>
where
    Nodes: Capacity<N>,
{
    /// All copies idle.
    pub fn idle() -> Self
        ensures { result ≡ table N all_idle }
    {
        Copies {
            rows: [[CopyState::Idle; N]; 32],
        }
    }

    /// The copy of task `t` on a node.
    pub fn at(&self, t: u8, node: u8) -> CopyState
        requires task { t < 32 }
        requires node { node < N }
        ensures copy { result ≡ copy_at self.now t node }
        ensures shape { IsTable N self.now }
    {
        self.rows[t as usize][node as usize]
    }

    /// Sets the copy of task `t` on a node, and leaves all others.
    pub fn set(&mut self, t: u8, node: u8, state: CopyState)
        requires task { t < 32 }
        requires node { node < N }
        ensures { self.new ≡ table N (with_copy self.old t node state) }
    {
        self.rows[t as usize][node as usize] = state;
    }

    /// The node's running copy of the least task: the task, and since how many periods it runs.
    /// None exactly where no copy runs on the node.
    pub fn running(&self, node: u8) -> Option<(u8, u16)>
        requires node { node < N }
        ensures { result ≡ works self.now node }
    {
        for t in 0..32 {
            if let CopyState::Running(periods) = self.at(t, node) {
                return Some((t, periods));
            }
        }
        None
    }

    /// Makes what runs on the node Failed.
    pub fn leave(&mut self, node: u8)
        requires node { node < N }
        ensures { self.new ≡ table N (left_by node self.old) }
    {
        // Proofs need here that the copies are a table.
        let _ = &self.rows;
        for t in 0..32 {
            if let CopyState::Running(_) = self.at(t, node) {
                self.set(t, node, CopyState::Failed);
            }
        }
    }

    /// Makes all copies idle.
    pub fn frame_end(&mut self)
        ensures { self.new ≡ table N all_idle }
    {
        *self = Copies::idle();
    }
}
