//! The run of a scenario.

ghost use Rattle.std.specs.Prelude.{◌≡◌, ◌+◌, ◌<◌, IfOk};
ghost use Rattle.std.specs.Borrow.{sem};
ghost use Rattle.shown_period.specs.Outcomes.{HasBeliefs};
ghost use Rattle.shown_period.specs.Whole.{AreMade};
ghost use Rattle.at_once.specs.Kept.{AreBegun, AreKept};
ghost use Rattle.at_once.specs.Course.{AreReported};
ghost use Rattle.at_once.specs.Run.{ShowsPeriod, FitsScenario};

use crate::keeping::Keeping;
use crate::period::Period;
use crate::values::find_rows;
use item_phase::ItemPhase;
use node_grid::{Capacity, NO_CLAIM, NoMemory, Nodes, Row};
use scenario::Scenario;
use shown_period::{Made, Shown};
use std::alloc::Global;
use std::marker::Model;

/// All nodes of a scenario, period by period, worked out together.
///
/// Contracts see the scenario, and how many periods were run. That what is kept is what the
/// scenario's run leaves after so many periods is kept by the type.
#[derive(Drop)]
pub struct Run<'s, const N: usize> {
    scenario: &'s Scenario<N>,
    run: u32,
    keeping: Keeping<N>,
    claims: ItemPhase<u8, N>,
    rows: ItemPhase<Row<N>, N>,
    shown: Shown<N>,
}

impl<'s, const N: usize> Model for Run<'s, N> {
    ghost use Rattle.at_once.specs.Run.{RunView, IsRun};

    ghost Value = { RunView N };

    ghost view = { λ r. record { scenario = r.scenario.now; run = r.run } };

    ghost invariant = { λ r. IsRun r.scenario.now r.run r.keeping r.claims.settling
        r.rows.settling r.shown };
}

/// Room for the phases of claims, and for those of rows.
fn phases<const N: usize>(
    alloc: Global,
    scenario: &Scenario<N>,
) -> Result<(ItemPhase<u8, N>, ItemPhase<Row<N>, N>), NoMemory>
where
    Nodes: Capacity<N>,
    ensures { IfOk result (λ p. (p.0.settling ≡ record {
      nodes = scenario.now.config.nodes;
      rounds = scenario.now.config.m;
    }) × (p.1.settling ≡ record {
      nodes = scenario.now.config.nodes;
      rounds = scenario.now.config.m;
    })) }
{
    let config = scenario.config();
    let claims = ItemPhase::open(alloc, config.nodes, config.m, NO_CLAIM)?;
    let rows = ItemPhase::open(alloc, config.nodes, config.m, Row::zero())?;
    Ok((claims, rows))
}

impl<'s, const N: usize> Run<'s, N>
where
    Nodes: Capacity<N>,
{
    ghost use Rattle.at_once.specs.Lending.{RunsOn};

    /// All nodes before the first period. All memory of the run is taken here.
    ///
    /// # Errors
    ///
    /// `NoMemory` where there is none.
    pub fn open(alloc: Global, scenario: &'s Scenario<N>) -> Result<Run<'s, N>, NoMemory>
        ensures { IfOk result (λ r. r ≡ record { scenario = scenario.now; run = 0 }) }
    {
        // Proofs need here that the scenario is an accepted one.
        let _ = scenario.config();
        let shown = Shown::open(alloc, scenario)?;
        let (claims, rows) = phases(alloc, scenario)?;
        let keeping = Keeping::open(scenario);
        Ok(Run {
            scenario,
            run: 0,
            keeping,
            claims,
            rows,
            shown,
        })
    }

    /// Takes all nodes through the next period.
    fn advance(&mut self)
        requires more { self.old.run < self.old.scenario.periods }
        ensures { self.new ≡ record self.old { run = self.old.run + 1 } }
    {
        let period = Period {
            scenario: self.scenario,
            number: self.run,
        };
        period.begin(&mut self.shown.made.states, &mut self.keeping);
        self.shown.begin(self.scenario, self.run);
        period.go(
            &mut self.shown.made,
            &mut self.claims,
            &mut self.rows,
            &mut self.keeping,
        );
        self.shown.end(self.scenario, self.run);
        self.run += 1;
    }

    /// Runs the next period, and shows it. It takes no memory.
    ///
    /// Fewer periods than the scenario has must have been run.
    pub fn period(&mut self) -> &Shown<N>
        requires more { self.old.run < self.old.scenario.periods }
        ensures* after { sem 𝓛 (RunsOn N.row self.entry) }
        ensures shown { ShowsPeriod self.old.scenario self.old.run result.now }
        ensures fits { FitsScenario self.old.scenario result.now }
    {
        self.advance();
        &self.shown
    }
}

impl<const N: usize> Period<'_, N> {
    /// Takes all nodes through the period, once it has begun.
    fn go(
        &self,
        made: &mut Made<N>,
        claims: &mut ItemPhase<u8, N>,
        rows: &mut ItemPhase<Row<N>, N>,
        keeping: &mut Keeping<N>,
    )
    where
        Nodes: Capacity<N>,
        requires begun { AreBegun self.now.scenario.now self.now.number made.old.states
            keeping.old }
        requires beliefs { HasBeliefs made.old }
        requires claims_room { claims.old.settling ≡ record {
          nodes = self.now.scenario.now.config.nodes;
          rounds = self.now.scenario.now.config.m;
        } }
        requires rows_room { rows.old.settling ≡ record {
          nodes = self.now.scenario.now.config.nodes;
          rounds = self.now.scenario.now.config.m;
        } }
        ensures made { AreMade self.now.scenario.now self.now.number made.new }
        ensures beliefs { HasBeliefs made.new }
        ensures kept { AreKept self.now.scenario.now (self.now.number + 1) made.new.states
            keeping.new }
        ensures claims_room { claims.new.settling ≡ claims.old.settling }
        ensures rows_room { rows.new.settling ≡ rows.old.settling }
    {
        let full = self.hear(made, keeping);
        let groups = self.settle_claims(&full, made, claims, &mut keeping.notes);
        self.vote(&full, &groups, made, keeping);
        find_rows(&full, &keeping.notes, &mut made.found);
        let finer = self.settle_rows(&full, &groups, made, rows, keeping);
        self.end(&finer, made, keeping);
    }
}
