//! What holds of logs, over the definitions alone.

ghost use Rattle.node_alone.specs.Laws.{AcceptedRecordLaw, AloneLaw};

use node_steps::laws::period;
use safety::laws::talk::delivery;

/// What is accepted of a JSON value is the log of one of the nodes of a scenario, with room for 8
/// nodes and for 16.
pub fn accepted_records()
    ensures { AcceptedRecordLaw }
{
    scenario::laws::accepted();
}

/// Where a log's entries are what a run delivers to the node, each period of its view is that of
/// the run.
pub fn alone()
    ensures { AloneLaw }
{
    period();
    delivery();
}
