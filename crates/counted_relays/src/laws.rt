//! The law of an item that nobody hears otherwise than it is passed on, over the definitions alone.

ghost use Rattle.counted_relays.specs.Laws.{UntouchedLaw};

use omh_paths::Exact;

/// Untouched law: a node settles such an item as its commander says it where the node is a Full
/// member or there are as many Full members beside the commander as rounds, and else the error.
pub fn untouched<V: Exact>()
    ensures { UntouchedLaw V.eq }
{}
