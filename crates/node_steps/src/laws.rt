//! What the steps of a node amount to, over the definitions alone. Each function's promise is its
//! law.

ghost use Rattle.node_steps.specs.Period.{FoldIsView};
ghost use Rattle.node_steps.specs.Owed.{FramesAreOwed};
ghost use Rattle.node_steps.specs.Sending.{PeriodLaw};
ghost use Rattle.node_steps.specs.Living.{LifeLaw};
ghost use Rattle.node_steps.specs.Order.{OrderIsFree};
ghost use Rattle.node_steps.specs.SoundLaws.{StaysSound, SaysInRange};

use error_detect::laws::{finds_each, order_is_free as order_of_watch_is_free};

/// The slots of a period, whatever is delivered in each, lead a node to its view: what it keeps and
/// what it records.
pub fn fold_is_view()
    ensures { FoldIsView }
{
    finds_each();
}

/// What a node says in each slot is what the protocol says of what it has of the slots before.
pub fn frames_are_owed()
    ensures { FramesAreOwed }
{}

/// A node goes through each period: it sends what the protocol says, ends with its view, and its
/// numbers stay.
pub fn period()
    ensures { PeriodLaw }
{
    finds_each();
}

/// A node through a list of periods, with any deliveries in each slot, keeps and records what the
/// protocol says of it.
pub fn life()
    ensures { LifeLaw }
{
    period();
}

/// The order in which frames are delivered within a slot changes nothing: not the node when they
/// came, nor where it stands in a period or after a list of periods.
pub fn order_is_free()
    ensures { OrderIsFree }
{
    order_of_watch_is_free();
}

/// What holds of a node between calls is kept by each slot, and by the begin of a period.
pub fn stays_sound()
    ensures { StaysSound }
{}

/// What a node says in a slot has the sizes and ranges that are expected there.
pub fn says_in_range()
    ensures { SaysInRange }
{}
