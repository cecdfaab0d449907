//! Scenarios that JSON text and JSON values describe.
ghost use Rattle.std.specs.Prelude.{◌≡◌, ℕ, Some, IfOk, IfErr, IsErrOf};
ghost use Rattle.serde_json.specs.Data.{Data};
ghost use Rattle.json_parts.specs.Meaning.{view};
ghost use Rattle.json_parts.specs.Reading.{Reads};
ghost use Rattle.scenario.specs.Scenario.{IsScenario};
ghost use Rattle.scenario.specs.Verdict.{Tells};
ghost use Rattle.scenario_reading.specs.Verdict.{IsAcceptedValue, value_refusal};

use crate::parts::parts;
use json::{Scratch, Value};
use json_parts::{PartError, TextError, value_of};
use node_grid::{Capacity, Nodes};
use scenario::{Scenario, ScenarioError};
use std::alloc::Global;

/// The scenario that JSON text describes, in types laid out for 8 or 16 nodes.
///
/// # Errors
/// - `Unreadable` comes exactly where the bytes are no JSON text.
/// - `Refused` comes exactly where a rule fails, with the first that does and its first place.
/// - `NoMemory` may come at any time.
pub fn read<const N: usize>(alloc: Global, bytes: &[u8]) -> Result<Scenario<N>, ScenarioError>
where
    Nodes: Capacity<N>,
    ensures accepted { IfOk result (λ s. (d : Data) × Reads bytes.now d × IsAcceptedValue d s) }
    ensures system { IfOk result (λ s. IsScenario s) }
    ensures unreadable { IsErrOf result ScenarioError.Unreadable →
        (d : Data) → Reads bytes.now d → ⊥ }
    ensures refused { (rule place : ℕ) → IsErrOf result (ScenarioError.Refused rule place) →
        (d : Data) × Reads bytes.now d × (value_refusal N d ≡ Some (rule, place)) }
{
    let mut scratch = Scratch::new(alloc);
    match value_of(alloc, bytes, &mut scratch) {
        Ok(value) => from_value(alloc, &value),
        Err(TextError::Unreadable) => Err(ScenarioError::Unreadable),
        Err(TextError::NoMemory) => Err(ScenarioError::NoMemory),
    }
}

/// The scenario that a JSON value describes, in types laid out for 8 or 16 nodes.
///
/// # Errors
/// - `Refused` comes exactly where a rule fails, with the first that does and its first place.
/// - `NoMemory` may come at any time.
pub fn from_value<const N: usize>(
    alloc: Global,
    value: &Value<'_>,
) -> Result<Scenario<N>, ScenarioError>
where
    Nodes: Capacity<N>,
    ensures accepted { IfOk result (λ s. IsAcceptedValue (view value.now) s) }
    ensures system { IfOk result (λ s. IsScenario s) }
    ensures refused { IfErr result (Tells (value_refusal N (view value.now))) }
{
    match parts(alloc, value) {
        Ok(parts) => Scenario::from_parts(alloc, parts),
        Err(PartError::NoPart) => Err(ScenarioError::Refused { rule: 1, place: 0 }),
        Err(PartError::NoMemory) => Err(ScenarioError::NoMemory),
    }
}
