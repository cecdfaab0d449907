//! The laws of majorities and of paths, over their definitions alone.

ghost use Rattle.omh_paths.specs.Majority.{MajorityLaw};
ghost use Rattle.omh_paths.specs.Paths.{PathsLaw, RanksLaw};
ghost use Rattle.omh_paths.specs.Tables.{TablesLaw};

use crate::Exact;

/// What the majority is: the value at more than half of the places that hold no error, or
/// `Fault(1)`.
pub fn majorities<V: Exact>()
    ensures { MajorityLaw V.eq }
{}

/// The list of all paths of so many members of a set has each of them once and nothing else, in
/// lexicographic order.
pub fn paths()
    ensures { PathsLaw }
{}

/// The place of a path in that list and the path at a place undo each other.
pub fn ranks()
    ensures { RanksLaw }
{}

/// The paths without one member are those of all paths that it isn't on, in the same order.
pub fn tables()
    ensures { TablesLaw }
{}
