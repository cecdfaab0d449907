//! What the periods of all nodes amount to, over the definitions alone. Each function's promise is
//! its law.

ghost use Rattle.cluster_periods.specs.Periods.{PeriodsLaw};
ghost use Rattle.cluster_periods.specs.Laws.{ClaimLaw, SafeLaw, ConvictionLaw, CopyLaw, ClockLaw};
ghost use Rattle.cluster_periods.specs.Laws.{LifetimeLaw, PromiseLaw, OrderLaw};

use node_steps::laws::period;
use safety::laws::convergence::{skew, skew_from_start, starts, values};
use safety::laws::lifetime::{
    exclusion, light, manifest, manifest_exclusion, recovery, remaining, returning, silence,
    standing, well,
};
use safety::laws::runs::{run_clocks, run_convictions, run_copies, runs};
use safety::laws::talk::{delivery, saying};

/// Each period of the nodes of a scenario is that of its run: their frames, what they keep, and
/// what they record.
pub fn periods()
    ensures { PeriodsLaw }
{
    period();
    delivery();
    saying();
}

/// A record tells whether its period tolerates its faults, and whether it and all periods before it
/// do.
pub fn claims()
    ensures { ClaimLaw }
{}

/// Each claimed period of a scenario is safe.
pub fn safe()
    ensures { SafeLaw }
{
    runs();
}

/// In each claimed period no sound node convicts a member that isn't asymmetric, and each convicts
/// one of which enough nonfaulty members heard something else than it did.
pub fn convictions()
    ensures { ConvictionLaw }
{
    run_convictions();
}

/// In each claimed period the votes of sound nodes on copies are close within the group of the
/// copies, which they know alike.
pub fn copies()
    ensures { CopyLaw }
{
    run_copies();
}

/// In each claimed period the clocks of sound nodes are near: at most half as far apart as before,
/// rounded up, and twice the error and the drift.
pub fn clocks()
    ensures { ClockLaw }
{
    run_clocks();
}

/// By each claimed period values and clocks are as near as the periods up to it bring them; a node
/// that is well is charged with nothing and a member again in time; a fault that all see alike is
/// noted by all; and a node that all accuse, or whose faults all see alike, or of which nothing is
/// heard, is out in time.
pub fn over_time()
    ensures { LifetimeLaw }
{
    starts();
    skew_from_start();
    standing();
    well();
    manifest();
    light();
    values();
    skew();
    recovery();
    returning();
    remaining();
    exclusion();
    manifest_exclusion();
    silence();
}

/// All that is promised of each claimed period of a scenario.
pub fn promises()
    ensures { PromiseLaw }
{
    safe();
    convictions();
    copies();
    clocks();
    over_time();
}

/// The node with which deliveries begin changes no period.
pub fn order_is_free()
    ensures { OrderLaw }
{}
