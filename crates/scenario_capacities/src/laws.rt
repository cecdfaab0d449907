//! The laws, over the definitions alone.

ghost use Rattle.scenario_capacities.specs.Laws.{SameRefusalLaw, SaysAlikeLaw, StaysAcceptedLaw};

/// A scenario of at most 8 nodes is refused by the same rule at the same place.
pub fn same_refusal()
    ensures { SameRefusalLaw }
{}

/// What no rule refuses says the same with further places.
pub fn says_alike()
    ensures { SaysAlikeLaw }
{}

/// An accepted scenario stays one with further places, where types may be laid out for so many.
pub fn stays_accepted()
    ensures { StaysAcceptedLaw }
{}
