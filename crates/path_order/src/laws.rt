//! The laws of going through all paths in order, over the definitions alone.

ghost use Rattle.path_order.specs.Order.{LongerPathsLaw, FreeMembersLaw, CursorsLaw};

/// The paths one node longer stand behind each path, in the order of the members outside it.
pub fn longer_paths()
    ensures { LongerPathsLaw }
{}

/// The members outside each path one node longer are those outside the path without one of them.
pub fn free_members()
    ensures { FreeMembersLaw }
{}

/// Where all paths are gone through in order, a member's next entry is that of the next path that
/// it isn't on.
pub fn cursors()
    ensures { CursorsLaw }
{}
