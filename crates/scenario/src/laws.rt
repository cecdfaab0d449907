//! What holds of scenarios, over the definitions alone.

ghost use Rattle.scenario.specs.Laws.{AcceptedLaw};

/// What no rule refuses is a scenario, with room for 8 nodes and for 16: its system is one of which
/// the theorem speaks.
pub fn accepted()
    ensures { AcceptedLaw }
{}
