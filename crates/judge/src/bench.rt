//! Judging one scenario after another, in rooms that are taken once.
ghost use Rattle.std.specs.Prelude.{◌≡◌, ◌+◌, ◌<◌, ◌≤◌, IfOk, OnOk};
ghost use Rattle.json_parts.specs.Meaning.{view};
ghost use Rattle.run_judged.specs.Judging.{Judges};
ghost use Rattle.scenario.specs.Scenario.{IsScenario};
ghost use Rattle.scenario.specs.Given.{scenario_of};
ghost use Rattle.drawn_scenarios.specs.Drawn.{drawn_parts};
ghost use Rattle.input_lines.specs.Devices.{sink_seen};
ghost use Rattle.judge.specs.Rows.{scenario_rows, has_few_nodes, room_for, HasRows, IsRowsOf};
ghost use Rattle.judge.specs.Rows.{drawn_rows};
ghost use Rattle.judge.specs.Writing.{written, WritesRows};

use at_once::Run;
use drawn_scenarios::{Options, make};
use json::{Scratch, Value};
use json_parts::{TextError, member, value_of, whole};
use judge_text::{write_judged, write_refused, write_unread};
use node_grid::{Capacity, NoMemory, Nodes};
use run_judged::Judge;
use run_print::WriteFault;
use scenario::{Scenario, ScenarioError};
use scenario_reading::from_value;
use span_io::Sink;
use std::alloc::Global;

/// For how many nodes the types of a small cluster are laid out.
const FEW: usize = 8;

/// For how many nodes those of a large one are.
const MANY: usize = 16;

/// Why the rows of a scenario weren't written.
#[derive(Clone, Copy)]
pub(crate) enum RowError {
    /// There was no memory. Nothing was written.
    NoMemory,
    /// The output failed.
    WriteFault,
}

/// Runs the next period, and judges it.
fn judge_next<const N: usize>(judge: &mut Judge<N>, scenario: &Scenario<N>, run: &mut Run<'_, N>)
where
    Nodes: Capacity<N>,
    requires same { run.old.scenario ≡ scenario.now }
    requires together { judge.old.periods ≡ run.old.run }
    requires more { run.old.run < run.old.scenario.periods }
    requires judges { Judges scenario.now judge.old }
    ensures ran { run.new ≡ record run.old { run = run.old.run + 1 } }
    ensures judges { Judges scenario.now judge.new }
    ensures periods { judge.new.periods ≡ judge.old.periods + 1 }
{
    let shown = run.period();
    judge.add(scenario, shown);
}

/// Runs a scenario, and judges it period by period.
fn judge_run<const N: usize>(
    alloc: Global,
    judge: &mut Judge<N>,
    scenario: &Scenario<N>,
) -> Result<(), NoMemory>
where
    Nodes: Capacity<N>,
    ensures judged { OnOk result (Judges scenario.now judge.new) }
    ensures all { OnOk result (judge.new.periods ≡ scenario.now.periods) }
{
    let mut run = Run::open(alloc, scenario)?;
    judge.begin(scenario);
    'periods: for _period in 0..scenario.periods() {
        judge_next(judge, scenario, &mut run);
    }
    Ok(())
}

/// Whether the value says that there are so few nodes that types laid out for 8 have room for them.
fn has_few_nodes(value: &Value<'_>) -> bool
    ensures { result ≡ has_few_nodes (view value.now) }
{
    match member(value, "nodes") {
        Some(nodes) => matches!(whole(nodes), Some(count) if count <= FEW as i64),
        None => false,
    }
}

/// What a call comes to that wrote rows.
fn written(rows: Result<(), WriteFault>) -> Result<(), RowError>
    ensures { result ≡ written rows }
{
    match rows {
        Ok(()) => Ok(()),
        Err(WriteFault) => Err(RowError::WriteFault),
    }
}

/// Judges a scenario, and writes its rows under a number.
fn judge_scenario<const N: usize, K: Sink>(
    alloc: Global,
    judge: &mut Judge<N>,
    scenario: &Scenario<N>,
    number: u64,
    sink: &mut K,
) -> Result<(), RowError>
where
    Nodes: Capacity<N>,
    ensures { WritesRows (sink_seen K.written K.faults sink.old)
        (sink_seen K.written K.faults sink.new)
        (λ text. text ≡ scenario_rows number scenario.now) result }
{
    let Ok(()) = judge_run(alloc, judge, scenario) else {
        return Err(RowError::NoMemory);
    };
    let row = judge.row(scenario);
    written(write_judged(
        number,
        &row,
        judge.illnesses(scenario),
        judge.skews(scenario),
        sink,
    ))
}

/// Judges a scenario if it is accepted, and writes its rows under a number.
fn judge_value<const N: usize, K: Sink>(
    alloc: Global,
    judge: &mut Judge<N>,
    value: &Value<'_>,
    number: u64,
    sink: &mut K,
) -> Result<(), RowError>
where
    Nodes: Capacity<N>,
    ensures { WritesRows (sink_seen K.written K.faults sink.old)
        (sink_seen K.written K.faults sink.new)
        (HasRows N number (view value.now)) result }
{
    match from_value::<N>(alloc, value) {
        Ok(scenario) => judge_scenario(alloc, judge, &scenario, number, sink),
        Err(ScenarioError::Refused { rule, place }) => {
            written(write_refused(number, rule, place, sink))
        }
        Err(ScenarioError::NoMemory) => Err(RowError::NoMemory),
        Err(ScenarioError::Unreadable) => unreachable!(),
    }
}

/// Scenarios that are drawn by these options, from a seed.
#[derive(Clone, Copy)]
pub(crate) struct Drawing<'o> {
    /// The options.
    pub options: &'o Options,
    /// The seed.
    pub seed: u32,
}

/// Draws the scenario of an index, judges it, and writes its rows under the index.
fn judge_drawn<const N: usize, K: Sink>(
    alloc: Global,
    judge: &mut Judge<N>,
    drawing: Drawing<'_>,
    index: u32,
    sink: &mut K,
) -> Result<(), RowError>
where
    Nodes: Capacity<N>,
    requires { drawing.options.now.choices.nodes ≤ N }
    ensures { WritesRows (sink_seen K.written K.faults sink.old)
        (sink_seen K.written K.faults sink.new)
        (λ text. text ≡ scenario_rows index (scenario_of N
        (drawn_parts drawing.entry.options.now.choices drawing.entry.seed index))) result }
{
    let Ok(scenario) = make::<N>(alloc, drawing.options, drawing.seed, index) else {
        return Err(RowError::NoMemory);
    };
    judge_scenario(alloc, judge, &scenario, index as u64, sink)
}

/// Judges for clusters of both sizes.
#[derive(Drop)]
pub(crate) struct Bench {
    alloc: Global,
    few: Judge<FEW>,
    many: Judge<MANY>,
}

impl Bench {
    /// Judges that judged nothing yet.
    ///
    /// # Errors
    /// `NoMemory` where there is none.
    pub(crate) fn open(alloc: Global) -> Result<Bench, NoMemory> {
        let few = Judge::open(alloc)?;
        let many = Judge::open(alloc)?;
        Ok(Bench { alloc, few, many })
    }

    /// Judges the scenario that a JSON value is, in types with room for its nodes.
    fn judge_json<K: Sink>(
        &mut self,
        value: &Value<'_>,
        number: u64,
        sink: &mut K,
    ) -> Result<(), RowError>
        ensures { WritesRows (sink_seen K.written K.faults sink.old)
            (sink_seen K.written K.faults sink.new)
            (HasRows (room_for (view value.now)) number (view value.now)) result }
    {
        if has_few_nodes(value) {
            judge_value(self.alloc, &mut self.few, value, number, sink)
        } else {
            judge_value(self.alloc, &mut self.many, value, number, sink)
        }
    }

    /// Judges the scenario of a line, and writes its rows under the number of the line.
    ///
    /// # Errors
    /// `NoMemory` where there is none: nothing was written. `WriteFault` comes only where the
    /// sink's count of faults rose.
    pub(crate) fn judge_line<K: Sink>(
        &mut self,
        line: &[u8],
        number: u64,
        sink: &mut K,
    ) -> Result<(), RowError>
        ensures { WritesRows (sink_seen K.written K.faults sink.old)
            (sink_seen K.written K.faults sink.new) (IsRowsOf number line.now) result }
    {
        let alloc = self.alloc;
        let mut scratch = Scratch::new(alloc);
        match value_of(alloc, line, &mut scratch) {
            Ok(value) => self.judge_json(&value, number, sink),
            Err(TextError::Unreadable) => written(write_unread(number, sink)),
            Err(TextError::NoMemory) => Err(RowError::NoMemory),
        }
    }

    /// Draws the scenario of an index, judges it, and writes its rows under the index.
    ///
    /// # Errors
    /// As `judge_line`.
    pub(crate) fn judge_drawn<K: Sink>(
        &mut self,
        drawing: Drawing<'_>,
        index: u32,
        sink: &mut K,
    ) -> Result<(), RowError>
        ensures { WritesRows (sink_seen K.written K.faults sink.old)
            (sink_seen K.written K.faults sink.new)
            (λ text. text ≡ drawn_rows drawing.entry.options.now.choices drawing.entry.seed index)
            result }
    {
        let alloc = self.alloc;
        if drawing.options.choices.nodes as usize <= FEW {
            return judge_drawn(alloc, &mut self.few, drawing, index, sink);
        }
        judge_drawn(alloc, &mut self.many, drawing, index, sink)
    }
}
