//! The laws of odd relays, over the definitions alone.

ghost use Rattle.odd_relays.specs.ItemLaws.{ItemLaw, ItemConvictsLaw, EachTellingIsPassedOn};
ghost use Rattle.odd_relays.specs.Laws.{ChainLaw, RegularLaw, ViewsLaw, ToldLaw, ToldSparedLaw};

use omh_paths::Exact;

/// Chain law: what a node settles for another member's item, it settles from paths of odd members
/// alone.
pub fn chains<V: Exact>()
    ensures chains { ChainLaw V.eq }
    ensures regular { RegularLaw V.eq }
    ensures views { ViewsLaw V.eq }
{}

/// Told law: what a member told all alike settles so, and nobody convicts the member.
pub fn told<V: Exact>()
    ensures settles { ToldLaw V.eq }
    ensures spared { ToldSparedLaw V.eq }
{}

/// The laws speak of something: whatever is told, and whatever odd members pass on, there is a
/// world of it.
pub fn tellings<V: Exact>()
    ensures { EachTellingIsPassedOn V }
{}

/// Item law: what each was told of an item and what odd members pass on of it is all that counts.
pub fn item<V: Exact>()
    ensures settles { ItemLaw V.eq }
    ensures convicts { ItemConvictsLaw V.eq }
{}
