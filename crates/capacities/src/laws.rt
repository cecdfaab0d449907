//! The laws, over the definitions alone.

ghost use Rattle.capacities.specs.Laws.{MoreRoomLaw, LessRoomLaw};

/// What is accepted with room for 8 nodes is accepted with room for 16, and has the same texts.
pub fn more_room()
    ensures { MoreRoomLaw }
{}

/// What is accepted with room for 16 nodes, and has at most 8, is accepted with room for 8, and has
/// the same texts.
pub fn less_room()
    ensures { LessRoomLaw }
{}
