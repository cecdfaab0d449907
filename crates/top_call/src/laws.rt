//! What holds of the runs that the program prints, over the definitions alone. Each function's
//! promise is its law.
ghost use Rattle.top_call.specs.Laws.{SafeRunLaw, AcceptedRunLaw, OrderLaw, OneTextLaw};
ghost use Rattle.top_call.specs.Laws.{FewNodesLaw, AloneTextLaw, AcceptedLogLaw};

use capacities::laws as rooms;
use cluster_periods::laws;
use node_alone::laws::{accepted_records, alone};
use scenario_reading::laws::accepted_values;

/// Each claimed period of a scenario keeps what is promised of it, and its line says `claim yes`
/// exactly where it is claimed.
pub fn safe_runs()
    ensures { SafeRunLaw }
{
    laws::claims();
    laws::promises();
}

/// So does each claimed period of bytes that are an accepted scenario.
pub fn accepted_runs()
    ensures { AcceptedRunLaw }
{
    safe_runs();
    accepted_values();
}

/// Scenarios that differ only in the node whose frames are delivered first have the same text.
pub fn order_is_free()
    ensures { OrderLaw }
{
    laws::order_is_free();
}

/// A scenario of at most 8 nodes has one text, with room for 8 nodes and with room for 16.
pub fn one_text()
    ensures { OneTextLaw }
{
    rooms::more_room();
    rooms::less_room();
}

/// What is accepted with room for 8 nodes is accepted with room for 16, has the same text, and is a
/// safe run there too.
pub fn few_nodes()
    ensures { FewNodesLaw }
{
    one_text();
    safe_runs();
    accepted_values();
}

/// Where the log of a node holds what a run delivers to it, the text of the log is that node's
/// lines of the run's replay, but for the class.
pub fn alone_text()
    ensures { AloneTextLaw }
{
    alone();
}

/// So has the text of bytes that are an accepted log.
pub fn accepted_logs()
    ensures { AcceptedLogLaw }
{
    alone_text();
    accepted_records();
}
