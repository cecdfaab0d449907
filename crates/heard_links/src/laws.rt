//! Laws of what is heard, over the definitions alone.

ghost use Rattle.heard_links.specs.TalkLaws.{TalksLaw, GoodLaw};

use touched_items::Item;

/// Talks law: in a phase of a run, nodes in use have of each other's frames what they have of them
/// in the run.
pub fn talks<V: Item<N>, const N: usize>()
    ensures { TalksLaw N V.form V.first_slot V.tells }
{}

/// Good law: a frame of a Full node that comes as it was sent has no kind of error.
pub fn good<V: Item<N>, const N: usize>()
    ensures { GoodLaw N V.form V.first_slot V.tells }
{}
