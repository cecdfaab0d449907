//! How far the clocks of sound nodes are apart, and from where they started.

ghost use Rattle.safety.specs.ClockLaws.{ClockLaw, ClaimedClockLaw, OffsetLaw};

use crate::laws::views::{start, step};

/// Clocks of sound nodes are near in a period with its premise.
pub fn clocks()
    ensures { ClockLaw }
{
    clock_skew::laws::skew();
    clock_skew::laws::drift();
}

/// And in each claimed period of a cluster of which reception holds.
pub fn claimed_clocks()
    ensures { ClaimedClockLaw }
{
    start();
    step();
    clocks();
}

/// Offsets of clocks stay within bounds that grow by the same step in each period, claimed or not.
pub fn offsets()
    ensures { OffsetLaw }
{
    clock_skew::laws::bounds();
}
