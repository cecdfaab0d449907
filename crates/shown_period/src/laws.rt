//! What follows of the lists of all nodes, over the definitions alone.

ghost use Rattle.shown_period.specs.Whole.{GroupLaw};

/// Nodes of one group settled and voted the same.
pub fn groups()
    ensures { GroupLaw }
{}
