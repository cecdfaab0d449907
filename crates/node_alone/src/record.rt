//! A node's log, and how it is read.

ghost use Rattle.std.specs.Prelude.{◌≡◌, ◌<◌, ◌+◌, ◌*◌, ℕ, Some, IfOk, IfErr, IsErrOf};
ghost use Rattle.serde_json.specs.Data.{Data};
ghost use Rattle.json_parts.specs.Meaning.{view};
ghost use Rattle.json_parts.specs.Reading.{Reads};
ghost use Rattle.scenario.specs.Verdict.{Tells};
ghost use Rattle.node_alone.specs.Rules.{limits_of, record_refusal, IsAcceptedRecord};
ghost use Rattle.node_alone.specs.Seen.{limits_view, IsRecord};

use crate::judging::{Limits, entries};
use crate::reading::parts;
use crate::table::Table;
use agreed_state::Config;
use json::{Scratch, Value};
use json_parts::{PartError, TextError, value_of};
use node_grid::{Capacity, Nodes};
use scenario::{Scenario, ScenarioError};
use slot_plan::slot_count;
use std::alloc::Global;
use std::marker::Model;

/// The log of one node: a scenario, and what the node was delivered in each slot, from the first
/// period on.
#[derive(Drop)]
pub struct Record<const N: usize> {
    scenario: Scenario<N>,
    id: u8,
    entries: Table,
}

impl<const N: usize> Model for Record<N> {
    ghost use Rattle.node_alone.specs.Log.{RecordView};
    ghost use Rattle.node_alone.specs.Seen.{IsRecord};

    ghost Value = { RecordView N };

    ghost view = { λ r. record { scenario = r.scenario; id = r.id; entries = r.entries } };

    ghost invariant = { λ r. IsRecord {N = N}
        (record { scenario = r.scenario; id = r.id; entries = r.entries }) };
}

/// The limits of an entry of node `id`'s log, under the scenario.
fn limits_of<const N: usize>(scenario: &Scenario<N>, id: u8) -> Limits
where
    Nodes: Capacity<N>,
    ensures { limits_view result ≡ limits_of scenario.now id }
{
    let config = scenario.config();
    Limits {
        nodes: config.nodes,
        slots: slot_count(config.m),
        periods: scenario.periods(),
        id,
    }
}

impl<const N: usize> Record<N> {
    /// The log of node `id` that JSON text describes.
    ///
    /// # Errors
    /// - `Unreadable` comes exactly where the bytes are no JSON text.
    /// - `Refused` comes exactly where a rule fails, with the first that does and its first place.
    /// - `NoMemory` may come at any time.
    pub fn read(alloc: Global, bytes: &[u8], id: u8) -> Result<Record<N>, ScenarioError>
    where
        Nodes: Capacity<N>,
        ensures accepted { IfOk result (λ r. (d : Data) × Reads bytes.now d
            × IsAcceptedRecord id d r) }
        ensures unreadable { IsErrOf result ScenarioError.Unreadable →
            (d : Data) → Reads bytes.now d → ⊥ }
        ensures refused { (rule place : ℕ) → IsErrOf result (ScenarioError.Refused rule place) →
            (d : Data) × Reads bytes.now d × (record_refusal N id d ≡ Some (rule, place)) }
    {
        let mut scratch = Scratch::new(alloc);
        match value_of(alloc, bytes, &mut scratch) {
            Ok(value) => Record::from_value(alloc, &value, id),
            Err(TextError::Unreadable) => Err(ScenarioError::Unreadable),
            Err(TextError::NoMemory) => Err(ScenarioError::NoMemory),
        }
    }

    /// The log of node `id` that a JSON value describes.
    ///
    /// # Errors
    /// - `Refused` comes exactly where a rule fails, with the first that does and its first place.
    /// - `NoMemory` may come at any time.
    fn from_value(alloc: Global, value: &Value<'_>, id: u8) -> Result<Record<N>, ScenarioError>
    where
        Nodes: Capacity<N>,
        ensures accepted { IfOk result (λ r. IsAcceptedRecord id (view value.now) r) }
        ensures refused { IfErr result (Tells (record_refusal N id (view value.now))) }
    {
        let parts = match parts(alloc, value) {
            Ok(parts) => parts,
            Err(PartError::NoPart) => return Err(ScenarioError::Refused { rule: 15, place: 0 }),
            Err(PartError::NoMemory) => return Err(ScenarioError::NoMemory),
        };
        let scenario = match scenario_reading::from_value(alloc, parts.scenario) {
            Ok(scenario) => scenario,
            Err(error) => return Err(error),
        };
        let limits = limits_of(&scenario, id);
        if id >= limits.nodes {
            return Err(ScenarioError::Refused { rule: 16, place: 0 });
        }
        let entries = match entries(alloc, parts.frames.as_slice(), &limits) {
            Ok(entries) => entries,
            Err(error) => return Err(error),
        };
        Ok(Record {
            scenario,
            id,
            entries,
        })
    }

    /// What all nodes know of the cluster.
    pub fn config(&self) -> &Config<N>
        ensures config { result.now ≡ self.now.scenario.config }
        ensures log { IsRecord self.now }
    {
        self.scenario.config()
    }

    /// The number of periods, 1 to 1024.
    pub fn periods(&self) -> u32
        ensures periods { result ≡ self.now.scenario.periods }
        ensures log { IsRecord self.now }
    {
        self.scenario.periods()
    }

    /// The number of the node.
    pub fn id(&self) -> u8
        ensures id { result ≡ self.now.id }
        ensures log { IsRecord self.now }
    {
        self.id
    }

    pub(crate) fn scenario(&self) -> &Scenario<N>
        ensures scenario { result.now ≡ self.now.scenario }
        ensures log { IsRecord self.now }
    {
        &self.scenario
    }

    pub(crate) fn entries(&self) -> &Table
        ensures entries { result.now ≡ self.now.entries }
        ensures log { IsRecord self.now }
    {
        &self.entries
    }
}
