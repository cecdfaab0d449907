//! What is promised of the row of a run, and of its claimed periods, over the definitions alone.

ghost use Rattle.run_judged.specs.Laws.{RowLaw, SparedLaw, SpreadLaw, SkewLaw};
ghost use Rattle.run_judged.specs.Deadlines.{LeftLaw, BackLaw};

/// The claimed periods of a run are those before the first that doesn't tolerate its faults; its
/// margin is at least 1 exactly where there is no such period, and then nobody is charged or
/// excluded that was nonfaulty throughout.
pub fn rows()
    ensures { RowLaw }
{
    cluster_periods::laws::safe();
}

/// In a claimed period nobody is charged, or leaves the members, that was nonfaulty in all periods
/// up to it.
pub fn spared()
    ensures { SparedLaw }
{
    cluster_periods::laws::safe();
}

/// In a claimed period votes of sound nodes on a state or sensor channel are at most half as far
/// apart as the nonfaulty members' own values, rounded up.
pub fn spread()
    ensures { SpreadLaw }
{
    cluster_periods::laws::safe();
}

/// And clocks of sound nodes at its end half as far as those of the nonfaulty members before it,
/// rounded up, and twice the error of reading and the drift.
pub fn skew()
    ensures { SkewLaw }
{
    cluster_periods::laws::clocks();
}

/// A member that falls ill has left in time: where in each of k + 1 claimed periods all nonfaulty
/// members accuse it, or all nodes see alike that it is faulty, or none hears of it, and its count
/// before them and so many times the weight come to the bound of exclusion.
pub fn left()
    ensures { LeftLaw }
{
    cluster_periods::laws::claims();
    cluster_periods::laws::safe();
    cluster_periods::laws::over_time();
}

/// And one that left is back in time: once it is nonfaulty for as many claimed periods on end as
/// its count takes to the bound of readmission, unless it retires.
pub fn back()
    ensures { BackLaw }
{
    cluster_periods::laws::claims();
    cluster_periods::laws::safe();
    cluster_periods::laws::over_time();
}
