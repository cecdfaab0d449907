//! What the views of sound nodes have in common in a period of a cluster, and the induction over
//! periods.

ghost use Rattle.safety.specs.Views.{SyncLaw, ClaimsLaw, DataLaw, ReportsLaw, StartLaw, StepLaw};
ghost use Rattle.safety.specs.Views.{SafetyLaw};
ghost use Rattle.safety.specs.Convictions.{ConvictionsLaw, SparedLaw};

/// Each sound node goes through a period with the agreed state of the nonfaulty ones.
pub fn sync()
    ensures { SyncLaw }
{}

/// Sound nodes settle claims alike, and have the same channels due.
pub fn claims()
    ensures { ClaimsLaw }
{}

/// Votes of sound nodes are close.
pub fn data()
    ensures { DataLaw }
{
    mme_vote::laws::members();
}

/// Sound nodes settle rows alike.
pub fn reports()
    ensures { ReportsLaw }
{}

/// The premise holds of the first period.
pub fn start()
    ensures { StartLaw }
{}

/// It leads to what is safe of a period, and to the next.
pub fn step()
    ensures { StepLaw }
{
    mme_vote::laws::members();
}

/// Each claimed period of a cluster of which reception holds is safe.
pub fn safety()
    ensures { SafetyLaw }
{
    start();
    step();
}

/// Sound nodes convict nobody but asymmetric members, and each convicts one of which enough
/// nonfaulty members heard something else than it did.
pub fn convictions()
    ensures { ConvictionsLaw }
{}

/// So nodes that accuse those whom they convict spare the ones that were nonfaulty throughout.
pub fn spared()
    ensures { SparedLaw }
{}
