//! What is shown of a period.

ghost use Rattle.std.specs.Prelude.{◌≡◌, ◌<◌, ◌+◌, IfOk, option_map, slice_index};
ghost use Rattle.scenario.specs.Scenario.{system_of};
ghost use Rattle.node_core.specs.Modes.{mode_of};
ghost use Rattle.cluster_periods.specs.Record.{period_record, without_frames};
ghost use Rattle.shown_period.specs.Outcomes.{HasBeliefs, outcome_at};
ghost use Rattle.shown_period.specs.Heads.{IsBefore, IsBegun, AreBegun};
ghost use Rattle.shown_period.specs.Whole.{record_of, IsFirst, AreMade, Believes};

use crate::clocks::next_clocks;
use crate::head::Head;
use crate::made::Made;
use agreed_state::Agreed;
use node_core::Mode;
use node_grid::{Capacity, NoMemory, NodeSet, Nodes, Row};
use scenario::Scenario;
use shared_states::Belief;
use std::alloc::Global;

/// A period of all nodes of a scenario, worked out for all of them together.
#[derive(Drop)]
pub struct Shown<const N: usize> {
    /// The period as a whole.
    pub head: Head<N>,
    /// What the nodes made of it.
    pub made: Made<N>,
}

impl<const N: usize> Shown<N> {
    /// What stands before the first period of a scenario: each node in use has the first agreed
    /// state. No other call takes memory.
    ///
    /// # Errors
    ///
    /// `NoMemory` where there is none.
    pub fn open(alloc: Global, scenario: &Scenario<N>) -> Result<Self, NoMemory>
    where
        Nodes: Capacity<N>,
        ensures { IfOk result (IsFirst scenario.now) }
    {
        let made = Made::open(alloc, scenario.config())?;
        let head = Head::first(scenario);
        Ok(Shown { head, made })
    }

    /// Begins a period of the scenario, into which the nodes go with the states that stand here.
    /// What they made of the period before it stays.
    ///
    /// The period before must be the one that is shown, or there must be none.
    pub fn begin(&mut self, scenario: &Scenario<N>, period: u32)
    where
        Nodes: Capacity<N>,
        requires in_run { period < scenario.now.periods }
        requires before { IsBefore scenario.now period self.old.head }
        requires states { AreBegun scenario.now period self.old.made.states }
        ensures begun { IsBegun scenario.now period self.new.head }
        ensures made { self.new.made ≡ self.old.made }
    {
        self.head.begin(scenario, period, &self.made.states);
    }

    /// Ends the period, of which the nodes made what stands here: their clocks are corrected.
    pub fn end(&mut self, scenario: &Scenario<N>, period: u32)
    where
        Nodes: Capacity<N>,
        requires begun { IsBegun scenario.now period self.old.head }
        requires made { AreMade scenario.now period self.old.made }
        ensures shows { record_of self.new
            ≡ without_frames (period_record (system_of scenario.now) scenario.now.clock period) }
        ensures before { IsBefore scenario.now (period + 1) self.new.head }
        ensures made { self.new.made ≡ self.old.made }
    {
        let clock = next_clocks(scenario, period, &self.made, self.head.clock);
        self.head.clock = clock;
    }

    /// How a node went through the period.
    pub fn mode(&self, i: u8) -> Mode
        requires { i < N }
        ensures { mode_of result ≡ (outcome_at self.now.made i).mode }
    {
        self.made.modes[i as usize]
    }

    /// The members with which a node went through it; none of a node that is Cold.
    pub fn members(&self, i: u8) -> &NodeSet<N>
        requires { i < N }
        ensures { result.now ≡ (outcome_at self.now.made i).members }
    {
        &self.made.members[i as usize]
    }

    /// The other nodes whose frames in the sync slot were good at a node.
    pub fn sync(&self, i: u8) -> &NodeSet<N>
        requires { i < N }
        ensures { result.now ≡ (outcome_at self.now.made i).sync }
    {
        &self.made.sync[i as usize]
    }

    /// A node's own row: zero where it wasn't Full.
    pub fn found(&self, i: u8) -> &Row<N>
        requires { i < N }
        ensures { result.now ≡ (outcome_at self.now.made i).found }
    {
        &self.made.found[i as usize]
    }

    /// The agreed state of a node after the period; None of one that is Cold.
    pub fn agreed(&self, i: u8) -> Option<&Agreed<N>>
    where
        Nodes: Capacity<N>,
        ensures { option_map (λ a. a.now) result ≡ (outcome_at self.now.made i).agreed }
    {
        self.made.states.get(i)
    }

    /// The group of a node: nodes of one group settled and voted the same.
    pub fn group(&self, i: u8) -> u8
        requires { i < N }
        ensures { result ≡ slice_index self.now.made.group i }
    {
        self.made.group[i as usize]
    }

    /// What a node settled and voted.
    pub fn belief(&self, i: u8) -> &Belief<N>
        requires node { i < N }
        requires beliefs { HasBeliefs self.now.made }
        ensures { Believes (outcome_at self.now.made i) result.now }
    {
        let group = self.made.group[i as usize];
        &self.made.beliefs[group as usize]
    }
}
