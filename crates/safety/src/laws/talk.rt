//! What the nodes of a run say, and what each has of it.

ghost use Rattle.safety.specs.Talk.{DeliveryLaw, SayingLaw};
ghost use Rattle.safety.specs.Runs.{ReceptionLaw};

/// What each node has of the frames of a period is what was delivered to it of the frames that were
/// sent.
pub fn delivery()
    ensures { DeliveryLaw }
{}

/// What each node says in each slot of a period is what its finished view says.
pub fn saying()
    ensures { SayingLaw }
{}

/// What sound nodes read in each period of each run, and how the classes go with restarts.
pub fn reception()
    ensures { ReceptionLaw }
{}
