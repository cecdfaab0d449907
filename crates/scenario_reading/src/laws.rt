//! What holds of scenarios that JSON values describe, over the definitions alone.

ghost use Rattle.scenario_reading.specs.Laws.{AcceptedValueLaw};

/// What is accepted of a JSON value is a scenario, with room for 8 nodes and for 16.
pub fn accepted_values()
    ensures { AcceptedValueLaw }
{
    scenario::laws::accepted();
}
