//! The clocks of all nodes, period by period: each node corrects its own by what it reads of those
//! that it recorded.

ghost use Rattle.std.specs.Prelude.{◌≡◌, ◌<◌, All, map, length, option_map};
ghost use Rattle.node_grid.specs.NodeSet.{ids_below};
ghost use Rattle.clock_skew.specs.Correction.{IsReading};
ghost use Rattle.clock_skew.specs.Reading.{AreSteady};
ghost use Rattle.protocol.specs.Cluster.{view};
ghost use Rattle.protocol.specs.Run.{run as run_of};
ghost use Rattle.node_steps.specs.Stages.{outcome_of};
ghost use Rattle.scenario.specs.Scenario.{system_of};
ghost use Rattle.cluster_periods.specs.Record.{clock_in};
ghost use Rattle.cluster_record.specs.Shown.{clock_shown};
ghost use Rattle.cluster_record.specs.Clocking.{AreOthers, correction_by, offsets_kept};
ghost use Rattle.cluster_record.specs.Clocking.{offsets_before};

use clock_skew::{Clocks, correction, starts};
use node_core::{Mode, NodeRecord};
use node_grid::{Capacity, Nodes};
use safety::laws::clocks::offsets;
use scenario::Scenario;

/// The clocks of all nodes in a period. Behind the nodes in use all numbers are 0.
#[derive(Clone, Copy)]
pub struct ClockRecord<const N: usize> {
    /// By how much each node corrected its clock.
    pub correction: [i64; N],
    /// The offset of each node's clock after the period: after the correction, and after the drift.
    pub offset: [i64; N],
}

/// By how much node `i` corrects its clock, by what it recorded. It is 0 of a node that isn't in
/// use.
fn correction_of<const N: usize>(
    clocks: &Clocks<'_, N>,
    records: &[NodeRecord<N>],
    m: u8,
    i: u8,
) -> i64
where
    Nodes: Capacity<N>,
    requires steady { AreSteady N clocks.now.plan.now clocks.now.nodes clocks.now.offset.now }
    requires each { length records.now ≡ clocks.now.nodes }
    requires others { AreOthers records.now }
    ensures correction { result ≡ correction_by N clocks.now.plan.now m clocks.now.offset.now
        clocks.now.period records.now i }
    ensures range { IsReading result }
{
    let Some(record) = records.get(i as usize) else {
        return 0;
    };
    let readings = clocks.readings(i);
    match record.mode {
        Mode::Full => correction(&record.members, &record.sync, Some(i), &readings, m),
        Mode::Joining => correction(&record.members, &record.sync, None, &readings, m),
        Mode::Cold => 0,
    }
}

/// By how much all nodes correct their clocks.
fn corrections<const N: usize>(clocks: &Clocks<'_, N>, records: &[NodeRecord<N>], m: u8) -> [i64; N]
where
    Nodes: Capacity<N>,
    requires steady { AreSteady N clocks.now.plan.now clocks.now.nodes clocks.now.offset.now }
    requires each { length records.now ≡ clocks.now.nodes }
    requires others { AreOthers records.now }
    ensures corrections { result ≡ map (correction_by N clocks.now.plan.now m clocks.now.offset.now
        clocks.now.period records.now) (ids_below N) }
    ensures range { All IsReading result }
{
    let mut corrections = [0; N];
    for i in 0..N as u8 {
        corrections[i as usize] = correction_of(clocks, records, m, i);
    }
    corrections
}

/// The clocks before the first period; none where the scenario has none.
pub fn first_clocks<const N: usize>(scenario: &Scenario<N>) -> Option<ClockRecord<N>>
where
    Nodes: Capacity<N>,
    ensures { offsets_kept (option_map clock_shown result) ≡ offsets_before scenario.now 0 }
{
    let Some(plan) = scenario.clock() else {
        return None;
    };
    Some(ClockRecord {
        correction: [0; N],
        offset: starts(plan, scenario.config().nodes),
    })
}

/// The clocks of a period, from those before it and from what all nodes recorded; none where the
/// scenario has none.
pub(crate) fn next_clocks<const N: usize>(
    scenario: &Scenario<N>,
    period: u32,
    records: &[NodeRecord<N>],
    before: Option<ClockRecord<N>>,
) -> Option<ClockRecord<N>>
where
    Nodes: Capacity<N>,
    requires in_run { period < scenario.now.periods }
    requires records { records.now ≡ map (λ i. outcome_of
        (view (run_of (system_of scenario.now)) i period)) (ids_below scenario.now.config.nodes) }
    requires offsets { offsets_kept (option_map clock_shown before)
        ≡ offsets_before scenario.now period }
    ensures { option_map clock_shown result
        ≡ option_map (λ c. clock_in (system_of scenario.now) c period) scenario.now.clock }
{
    offsets();
    let Some(plan) = scenario.clock() else {
        return None;
    };
    let Some(before) = before else {
        return None;
    };
    let config = scenario.config();
    let clocks = Clocks {
        plan,
        nodes: config.nodes,
        offset: &before.offset,
        period,
    };
    let correction = corrections(&clocks, records, config.m);
    let offset = clocks.all_moved(&correction);
    Some(ClockRecord { correction, offset })
}
