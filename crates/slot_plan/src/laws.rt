//! Where the slots of a period lie, for all numbers of relay rounds: each function's promise is the
//! law.
ghost use Rattle.slot_plan.specs.SlotLaws.{PlaceLaw, NumberLaw, CountLaw};

/// The slot with the number of a slot is that slot.
pub fn place()
    ensures { PlaceLaw }
{}

/// What has a number is a slot with that number.
pub fn number()
    ensures { NumberLaw }
{}

/// The numbers of slots are those below 2m + 4.
pub fn count()
    ensures { CountLaw }
{}
