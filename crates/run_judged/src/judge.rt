//! The judge of a run.

ghost use Rattle.std.specs.Prelude.{◌≡◌, ◌<◌, ◌≤◌, ◌+◌, ◌++◌, ◌∷◌, [], length};
ghost use Rattle.std.specs.Prelude.{IfOk, MatchOption, vec_capacity};
ghost use Rattle.at_once.specs.Run.{ShowsPeriod, FitsScenario};
ghost use Rattle.run_judged.specs.Rows.{row_of, illnesses_of, skews_of};

use crate::apart::skew;
use crate::found::Findings;
use crate::illness::Illness;
use crate::illnesses::{Illnesses, MOST_PERIODS};
use crate::row::RunRow;
use crate::seen::Seen;
use crate::tally::Tally;
use node_grid::{Capacity, NoMemory, Nodes};
use scenario::Scenario;
use shown_period::Shown;
use std::alloc::Global;

/// A judge of one run after the other: it is told the periods of a run one by one, and says in the
/// end what the run comes to.
#[derive(Drop)]
pub struct Judge<const N: usize> {
    /// How many periods of the run it was told.
    pub periods: u32,
    pub(crate) tally: Tally<N>,
    pub(crate) illnesses: Illnesses<N>,
    pub(crate) skews: Vec<u64>,
    pub ghost room: { 1024 ≤ vec_capacity skews },
}

/// Keeps a number, where there is one, in room that is there.
fn keep(numbers: &mut Vec<u64>, number: Option<u64>)
    requires { length numbers.old.items < vec_capacity numbers.old }
    ensures items { MatchOption number (numbers.new.items ≡ numbers.old.items)
        (λ x. numbers.new.items ≡ numbers.old.items ++ x ∷ []) }
    ensures room { vec_capacity numbers.old ≤ vec_capacity numbers.new }
{
    if let Some(number) = number {
        numbers.push_reserved(number);
    }
}

impl<const N: usize> Judge<N> {
    ghost use Rattle.run_judged.specs.Judging.{Judges};

    /// A judge with all the memory that it ever takes.
    ///
    /// # Errors
    ///
    /// `NoMemory` where there is none.
    pub fn open(alloc: Global) -> Result<Self, NoMemory>
    where
        Nodes: Capacity<N>,
    {
        let illnesses = Illnesses::open(alloc)?;
        let Ok(skews) = Vec::with_capacity(alloc, MOST_PERIODS) else {
            return Err(NoMemory);
        };
        Ok(Judge {
            periods: 0,
            tally: Tally::none(),
            illnesses,
            skews,
        })
    }

    /// Begins with the run of this scenario. All of the run before is forgotten.
    pub fn begin(&mut self, scenario: &Scenario<N>)
    where
        Nodes: Capacity<N>,
        ensures judges { Judges scenario.now self.new }
        ensures none { self.new.periods ≡ 0 }
    {
        let _nodes = scenario.config().nodes;
        self.periods = 0;
        self.tally = Tally::none();
        self.illnesses.forget();
        self.skews.clear();
    }

    /// Adds the next period of the run.
    pub fn add(&mut self, scenario: &Scenario<N>, shown: &Shown<N>)
    where
        Nodes: Capacity<N>,
        requires more { self.old.periods < scenario.now.periods }
        requires judges { Judges scenario.now self.old }
        requires shown { ShowsPeriod scenario.now self.old.periods shown.now }
        requires fits { FitsScenario scenario.now shown.now }
        ensures judges { Judges scenario.now self.new }
        ensures periods { self.new.periods ≡ self.old.periods + 1 }
    {
        let seen = Seen { shown };
        let findings = Findings::of(scenario, self.periods, &seen);
        let skew = skew(&seen);
        self.tally.add(scenario, &seen, &findings, skew);
        self.illnesses.add(&findings);
        keep(&mut self.skews, skew);
        self.periods += 1;
    }

    /// What the run comes to, all of whose periods were added.
    pub fn row(&self, scenario: &Scenario<N>) -> RunRow
    where
        Nodes: Capacity<N>,
        requires judges { Judges scenario.now self.now }
        requires all { self.now.periods ≡ scenario.now.periods }
        ensures { result ≡ row_of scenario.now }
    {
        let config = scenario.config();
        let plan = scenario.plan();
        RunRow {
            nodes: config.nodes,
            m: config.m,
            periods: scenario.periods(),
            lines: plan.line_count(),
            restarts: plan.restart_count(),
            claimed: self.tally.claimed,
            lost: self.tally.lost,
            margin: self.tally.margin,
            charges: self.tally.charges,
            false_charges: self.tally.false_charges,
            false_exclusions: self.tally.false_exclusions,
            spread: self.tally.spread,
            skew: self.tally.skew,
        }
    }

    /// The illnesses of the run, all of whose periods were added: by onset, then by node.
    pub fn illnesses(&self, scenario: &Scenario<N>) -> &[Illness]
        requires judges { Judges scenario.now self.now }
        requires all { self.now.periods ≡ scenario.now.periods }
        ensures { result.now ≡ illnesses_of scenario.now }
    {
        self.illnesses.list.as_slice()
    }

    /// How far the clocks of sound nodes are apart after each claimed period of the run, all of
    /// whose periods were added, from period 0 on. There is nothing where there are no clocks.
    pub fn skews(&self, scenario: &Scenario<N>) -> &[u64]
        requires judges { Judges scenario.now self.now }
        requires all { self.now.periods ≡ scenario.now.periods }
        ensures { result.now ≡ skews_of scenario.now }
    {
        self.skews.as_slice()
    }
}
