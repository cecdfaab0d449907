//! The theorem: what holds of each claimed period of each run.

ghost use Rattle.safety.specs.Runs.{SparingLaw, RunLaw, RunCopiesLaw};
ghost use Rattle.safety.specs.Convictions.{RunConvictionsLaw};
ghost use Rattle.safety.specs.ClockLaws.{SparingClockLaw, RunClockLaw};

use crate::laws::clocks::claimed_clocks;
use crate::laws::talk::reception;
use crate::laws::views::{safety, start, step};

/// Each claimed period of each run is safe, with any further kinds of accusation that spare the
/// nonfaulty nodes.
pub fn sparing()
    ensures { SparingLaw }
{
    reception();
    safety();
}

/// And the clocks of its sound nodes are near.
pub fn sparing_clocks()
    ensures { SparingClockLaw }
{
    reception();
    claimed_clocks();
}

/// Each claimed period of each run is safe: the theorem, of nodes that accuse those whom they
/// convict.
pub fn runs()
    ensures { RunLaw }
{
    reception();
    sparing();
}

/// In each claimed period of each run sound nodes convict nobody but asymmetric members.
pub fn run_convictions()
    ensures { RunConvictionsLaw }
{
    reception();
    start();
    step();
}

/// In each claimed period of each run the copies of a task have one group, and votes within it are
/// close.
pub fn run_copies()
    ensures { RunCopiesLaw }
{
    runs();
}

/// In each claimed period of each run the clocks of sound nodes are near.
pub fn run_clocks()
    ensures { RunClockLaw }
{
    reception();
    sparing_clocks();
}
