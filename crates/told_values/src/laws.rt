//! The law of the data slot in a run, over the definitions alone.

ghost use Rattle.told_values.specs.Law.{HearsLaw};

/// Hears law: in a run each node has of the others' values what follows from how all go into the
/// slot.
pub fn hears()
    ensures { HearsLaw }
{}
