//! The law of an item that is passed on, over the definitions alone.

ghost use Rattle.settled_paths.specs.Laws.{PassingLaw};

use omh_paths::Exact;

/// Passing law: what an awake node settles for another member's item follows from who relays it,
/// what the commander says of it, and what nodes hear in place of what is passed on.
pub fn passing<V: Exact>()
    ensures { PassingLaw V.eq }
{}
