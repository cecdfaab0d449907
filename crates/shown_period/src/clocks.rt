//! The clocks of all nodes, period by period: each node corrects its own by what it reads of those
//! whose frames in the sync slot were good.

ghost use Rattle.std.specs.Prelude.{◌≡◌, ◌<◌, All, map, option_map};
ghost use Rattle.node_grid.specs.NodeSet.{ids_below};
ghost use Rattle.clock_skew.specs.Correction.{IsReading};
ghost use Rattle.clock_skew.specs.Reading.{AreSteady};
ghost use Rattle.scenario.specs.Scenario.{system_of};
ghost use Rattle.cluster_periods.specs.Record.{clock_in};
ghost use Rattle.cluster_record.specs.Shown.{clock_shown};
ghost use Rattle.cluster_record.specs.Clocking.{AreOthers, correction_by, offsets_kept};
ghost use Rattle.cluster_record.specs.Clocking.{offsets_before};
ghost use Rattle.shown_period.specs.Outcomes.{outcomes};
ghost use Rattle.shown_period.specs.Whole.{AreMade};

use crate::made::Made;
use clock_skew::{Clocks, correction};
use cluster_record::ClockRecord;
use node_core::Mode;
use node_grid::{Capacity, Nodes};
use safety::laws::clocks::offsets;
use scenario::Scenario;

/// By how much node `i` corrects its clock. It is 0 of a node that isn't in use.
fn correction_of<const N: usize>(clocks: &Clocks<'_, N>, made: &Made<N>, m: u8, i: u8) -> i64
where
    Nodes: Capacity<N>,
    requires node { i < N }
    requires steady { AreSteady N clocks.now.plan.now clocks.now.nodes clocks.now.offset.now }
    requires others { AreOthers (outcomes made.now clocks.now.nodes) }
    ensures correction { result ≡ correction_by N clocks.now.plan.now m clocks.now.offset.now
        clocks.now.period (outcomes made.now clocks.now.nodes) i }
    ensures range { IsReading result }
{
    if i >= clocks.nodes {
        return 0;
    }
    let readings = clocks.readings(i);
    let members = &made.members[i as usize];
    let good = &made.sync[i as usize];
    match made.modes[i as usize] {
        Mode::Full => correction(members, good, Some(i), &readings, m),
        Mode::Joining => correction(members, good, None, &readings, m),
        Mode::Cold => 0,
    }
}

/// By how much all nodes correct their clocks.
fn corrections<const N: usize>(clocks: &Clocks<'_, N>, made: &Made<N>, m: u8) -> [i64; N]
where
    Nodes: Capacity<N>,
    requires steady { AreSteady N clocks.now.plan.now clocks.now.nodes clocks.now.offset.now }
    requires others { AreOthers (outcomes made.now clocks.now.nodes) }
    ensures corrections { result ≡ map (correction_by N clocks.now.plan.now m clocks.now.offset.now
        clocks.now.period (outcomes made.now clocks.now.nodes)) (ids_below N) }
    ensures range { All IsReading result }
{
    let mut corrections = [0; N];
    for i in 0..N as u8 {
        corrections[i as usize] = correction_of(clocks, made, m, i);
    }
    corrections
}

/// The clocks of a period, from those before it and from what all nodes made of it; none where the
/// scenario has none.
pub(crate) fn next_clocks<const N: usize>(
    scenario: &Scenario<N>,
    period: u32,
    made: &Made<N>,
    before: Option<ClockRecord<N>>,
) -> Option<ClockRecord<N>>
where
    Nodes: Capacity<N>,
    requires in_run { period < scenario.now.periods }
    requires made { AreMade scenario.now period made.now }
    requires offsets { offsets_kept (option_map clock_shown before)
        ≡ offsets_before scenario.now period }
    ensures { option_map clock_shown result
        ≡ option_map (λ c. clock_in (system_of scenario.now) c period) scenario.now.clock }
{
    offsets();
    let Some(plan) = scenario.clock() else {
        return None;
    };
    let Some(before) = before else {
        return None;
    };
    let config = scenario.config();
    let clocks = Clocks {
        plan,
        nodes: config.nodes,
        offset: &before.offset,
        period,
    };
    let correction = corrections(&clocks, made, config.m);
    let offset = clocks.all_moved(&correction);
    Some(ClockRecord { correction, offset })
}
