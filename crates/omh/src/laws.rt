//! The laws of the agreement rule, over its definitions alone.
//!
//! After the hybrid oral messages of Thambidurai and Park (1988) and of Lincoln and Rushby (1993).
//! The rule itself, OMH, is this project's own, and nothing here is a claim about the published
//! algorithms.

ghost use Rattle.omh.specs.Laws.{UniformLaw, AgreementLaw, ItemsAgree, ItemsStand, ItemsFail};
ghost use Rattle.omh.specs.Laws.{ListenersLaw, EachWorldFits, LastPutLaw};

use omh_paths::Exact;

/// Uniform law: what all sound nodes outside a path heard for it, each of them settles.
pub fn uniform<V: Exact>()
    ensures { UniformLaw V.eq }
{}

/// Agreement law: all sound nodes outside a path settle it alike, whatever its last node said to
/// each.
pub fn agreement<V: Exact>()
    ensures { AgreementLaw V.eq }
{}

/// What that says of the members' items within the budget: sound nodes settle them alike, those of
/// nonfaulty members as they are, and those of silent ones as the error.
pub fn items<V: Exact>()
    ensures agree { ItemsAgree V.eq }
    ensures stand { ItemsStand V.eq }
    ensures fail { ItemsFail V.eq }
{}

/// Listeners' law: a sound node that is no member, or is joining, settles what each nonfaulty
/// member settles.
pub fn listeners<V: Exact>()
    ensures { ListenersLaw V.eq }
{}

/// The laws speak of something: whatever the faulty nodes say, there is a world of it that fits.
pub fn worlds<V: Exact>()
    ensures { EachWorldFits V }
{}

/// What was heard for a path, after any calls of `put`, is what was put for it last, and the error
/// where nothing was.
pub fn last_put<V: Exact>()
    ensures { LastPutLaw V }
{}
