//! The laws of an item that is passed on, over the definitions alone.

ghost use Rattle.settled_items.specs.Laws.{ConvictingLaw, PlainLaw, PlainSparedLaw};

use omh_paths::Exact;

/// Convicting law: whether an awake node convicts another member follows from who relays the
/// member's item, what the member says of it, and what nodes hear in place of what is passed on.
pub fn convicting<V: Exact>()
    ensures { ConvictingLaw V.eq }
{}

/// Plain law: an item that all nodes hear as its commander says it settles so where few members'
/// relays are odd, and nobody convicts the commander.
pub fn plain<V: Exact>()
    ensures settles { PlainLaw V.eq }
    ensures spared { PlainSparedLaw V.eq }
{}
