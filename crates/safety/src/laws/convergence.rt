//! How values and clocks come together over many claimed periods. Distances of values are in the
//! units of values, those of clocks in the units of offsets.

ghost use Rattle.safety.specs.Convergence.{ValuesConvergeLaw, StartsConvergeLaw, ClocksSettleLaw};
ghost use Rattle.safety.specs.Convergence.{StartedClocksLaw};

use crate::laws::clocks;
use crate::laws::talk::reception;
use crate::laws::views::{start, step};

/// Own values of a state channel that nonfaulty nodes have at most d apart in period p are at most
/// d / 2^k apart in period p + k, and votes there at most d / 2^(k + 1), rounded up.
pub fn values()
    ensures { ValuesConvergeLaw }
{
    reception();
    start();
    step();
    mme_vote::laws::members();
}

/// Own values of a state channel whose starts are at most d apart are at most d / 2^p apart in
/// period p, and votes there at most d / 2^(p + 1), rounded up.
pub fn starts()
    ensures { StartsConvergeLaw }
{
    reception();
    start();
    step();
    mme_vote::laws::members();
    values();
}

/// Clocks of nonfaulty nodes that are at most d apart before period p are at most (d - s) / 2^k + s
/// apart before period p + k, rounded up, where s is 4 epsilon + 2 drift and d - s stops at 0.
/// After it those of sound nodes are so with k + 1.
pub fn skew()
    ensures { ClocksSettleLaw }
{
    reception();
    start();
    step();
    clocks::clocks();
}

/// The same of clocks that start at most d apart, for period p; and before it they are at most s +
/// 1 apart where d is at most s + 2^p.
pub fn skew_from_start()
    ensures { StartedClocksLaw }
{
    reception();
    skew();
}
