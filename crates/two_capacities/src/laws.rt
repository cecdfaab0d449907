//! The laws, over the definitions alone.

ghost use Rattle.two_capacities.specs.Laws.{RunsAlikeLaw, AcceptedAlikeLaw};

/// A cluster that has room for all of its nodes runs alike with further places: each node believes
/// the same and sends the same, and its clock goes the same.
pub fn runs_alike()
    ensures { RunsAlikeLaw }
{}

/// A system that is accepted stays one with further places, where types may be laid out for so
/// many, and its clocks fit it.
pub fn accepted_alike()
    ensures { AcceptedAlikeLaw }
{}
