//! What holds of each drawn scenario, whatever is drawn.

ghost use Rattle.drawn_scenarios.specs.Laws.{UnrefusedLaw, VersionLaw};

/// No rule refuses a drawn scenario.
pub fn unrefused()
    ensures { UnrefusedLaw }
{}

/// The parts of a drawn scenario are of their version.
pub fn of_version()
    ensures { VersionLaw }
{}
