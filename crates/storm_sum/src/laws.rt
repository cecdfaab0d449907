//! What is promised of the periods of a storm, and what its summary says, whatever is drawn.

ghost use Rattle.storm_sum.specs.Laws.{WithstandingLaw, SummaryLaw};

/// Each period of a storm is claimed, and keeps all that is promised of a claimed period.
pub fn withstands()
    ensures { WithstandingLaw }
{
    scenario::laws::accepted();
    storm::laws::unrefused();
    storm::laws::weathered();
    cluster_periods::laws::claims();
    cluster_periods::laws::promises();
}

/// All of a storm's 1024 periods are claimed, and nodes 0 to 4 are members with count 0 in the end.
pub fn claimed()
    ensures { SummaryLaw }
{
    storm::laws::weathered();
    cluster_periods::laws::claims();
}
