//! What a live controller does, over the definitions alone. Each function's promise is its law.

ghost use Rattle.live_law.specs.Cluster.{LiveClusterLaw, LivePlanLaw, LivePromiseLaw, LiveGivenLaw};
ghost use Rattle.live_law.specs.Events.{LiveLinesLaw};
ghost use Rattle.live_law.specs.Living.{NewLiveLaw, LiveEventsLaw, LiveSayLaw, LiveLifeLaw};
ghost use Rattle.live_law.specs.Periods.{AnyPeriodsLaw};
ghost use Rattle.live_law.specs.Run.{LiveRunLaw};

use node_steps::laws::period;
use safety::laws::talk::{delivery, saying};

/// Through any periods, with restarts between them and whatever is delivered in each slot, a
/// node is what the protocol says of what it was told, from whatever it kept before the first.
pub fn any_periods()
    ensures { AnyPeriodsLaw }
{
    period();
}

/// Lines that tell events make of a live node what the events make of it, with the same
/// answers.
pub fn lines()
    ensures { LiveLinesLaw }
{}

/// A new live node rests with what the protocol gives each node first, and period 0 is its
/// first.
pub fn new_live()
    ensures { NewLiveLaw }
{}

/// All events that a live node takes, where they leave no slot open, are those of periods, one
/// after another, and behind them restarts and readings. What it answered is the protocol's
/// text of these periods.
pub fn events()
    ensures { LiveEventsLaw }
{
    period();
}

/// In each slot of a period a live node has said what the protocol says of what it was told so
/// far.
pub fn says()
    ensures { LiveSayLaw }
{
    period();
}

/// A live node that is told the events of any periods takes them, and answers with the frames
/// and the lines that the protocol says: of what it is delivered in each slot, by what it
/// keeps, whatever that was before the first of these periods.
pub fn life()
    ensures { LiveLifeLaw }
{
    period();
}

/// Where a live node goes into a period with what a run says and is told what the run gives it,
/// what it answers to the events of the period is what the record of the run's period shows of
/// the node.
pub fn runs()
    ensures { LiveRunLaw }
{
    period();
    delivery();
    saying();
}

/// Live controllers of which each is told what a fault plan makes of what the others say are
/// the run of that plan: what each answers is what the record of the run's period shows of its
/// node. A controller that is killed is a node whose frames are lost from then on, and one that
/// is started anew a node that restarts.
pub fn cluster()
    ensures { LiveClusterLaw }
{
    period();
    delivery();
    saying();
}

/// There are such controllers for each scenario, from any new ones on: those that are told what
/// its run gives and delivers. So each run of a scenario is one of live controllers.
pub fn planned()
    ensures { LivePlanLaw }
{
    period();
    delivery();
    saying();
}

/// And in each period that the run claims, all holds that is promised of it.
pub fn promises()
    ensures { LivePromiseLaw }
{
    cluster();
    cluster_periods::laws::promises();
}

/// Where controllers are told readings of their own, each period that the run with these
/// readings claims is safe, as long as the readings are in range and near each other.
pub fn given()
    ensures { LiveGivenLaw }
{
    cluster();
    cluster_periods::laws::claims();
    safety::laws::runs::runs();
}
