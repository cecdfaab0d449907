//! What becomes of one node over many claimed periods: once well, back among the members, and out.
//! Counts are in the units of weights, streaks and deadlines in periods.

ghost use Rattle.safety.specs.Lifetime.{StandingLaw, WellLaw, RecoveryLaw, ReturnLaw, RemainLaw};
ghost use Rattle.safety.specs.Lifetime.{LightLaw, ExclusionLaw};
ghost use Rattle.safety.specs.Manifest.{ManifestLaw, ManifestExclusionLaw, SilenceLaw};

use crate::laws::runs::runs;
use crate::laws::talk::reception;
use crate::laws::views::{start, step};

/// Each sound node goes through a period with the members, counts, streaks and numbers of leavings
/// before it, and ends it with those of the next one.
pub fn standing()
    ensures { StandingLaw }
{
    runs();
    reception();
    start();
    step();
    mme_vote::laws::members();
}

/// A node that is nonfaulty, and was so in the period before, is accused by no other nonfaulty node
/// and charged with nothing, whatever befell it earlier.
pub fn well()
    ensures { WellLaw }
{
    reception();
    start();
    step();
    mme_vote::laws::members();
}

/// While a node is nonfaulty from period p on, its count after period p + k is that after p less
/// the credit for each full streak.
pub fn recovery()
    ensures { RecoveryLaw }
{
    reception();
    start();
    step();
    mme_vote::laws::members();
}

/// While a node is nonfaulty from period p on, it is a member after period p + k at the latest
/// where k and its streak after p come to the periods that its count takes to `readmit`, unless it
/// retires.
pub fn returning()
    ensures { ReturnLaw }
{
    reception();
    start();
    step();
    mme_vote::laws::members();
}

/// While a node is nonfaulty from period p on, it remains a member where it is one after p with a
/// count below the bound of exclusion.
pub fn remaining()
    ensures { RemainLaw }
{
    reception();
    start();
    step();
    mme_vote::laws::members();
}

/// A node that was nonfaulty in all periods so far is a member, and its count stays below the bound
/// of exclusion.
pub fn light()
    ensures { LightLaw }
{
    reception();
    start();
    step();
    mme_vote::laws::members();
}

/// A node that all other nonfaulty members give kinds of at least weight w in k + 1 periods on end
/// is no member after them, where its count before and (k + 1) w come to the bound of exclusion and
/// the count of some member stays below it.
pub fn exclusion()
    ensures { ExclusionLaw }
{
    reception();
    start();
    step();
    mme_vote::laws::members();
}

/// Where all other nodes see alike that a node is faulty, each nonfaulty one gives it the kind:
/// missing of frames that are lost, malformed of ones that are cut or come twice, timing of ones
/// that come outside the window, and cold of a node that goes into the period without an agreed
/// state. A fault in a slot of rows is noted in the next period.
pub fn manifest()
    ensures { ManifestLaw }
{
    reception();
    start();
    step();
}

/// So such a node is out in time, as by `exclusion`, with w the least weight of the kinds that it
/// gets.
pub fn manifest_exclusion()
    ensures { ManifestExclusionLaw }
{
    manifest();
    exclusion();
}

/// A node of which no frame of slot 0 arrives at any other is out in time, with w the weight of
/// missing frames.
pub fn silence()
    ensures { SilenceLaw }
{
    manifest_exclusion();
}
