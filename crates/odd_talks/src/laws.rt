//! The laws of relays in a run, over the definitions alone.

ghost use Rattle.odd_talks.specs.Law.{ClaimPassedOnLaw, RowPassedOnLaw};

/// Where nothing befalls what the members that aren't odd relay of a claim, it is passed on.
pub fn claims()
    ensures { ClaimPassedOnLaw }
{}

/// The same of a row.
pub fn rows()
    ensures { RowPassedOnLaw }
{}
