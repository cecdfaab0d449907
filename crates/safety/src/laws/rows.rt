//! What settled rows charge a node with.

ghost use Rattle.safety.specs.Rows.{NoCharge, FullCharge};

/// A node that no nonfaulty member accuses of a kind isn't charged with it.
pub fn no_charge()
    ensures { NoCharge }
{}

/// A node that each nonfaulty member but it accuses of a kind is charged with it.
pub fn full_charge()
    ensures { FullCharge }
{}
