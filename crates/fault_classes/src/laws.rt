//! What the class of a node tells of its frames, for all plans: each function's promise is the law.
ghost use Rattle.fault_classes.specs.Laws.{CleanLaw, BenignLaw, SymmetricLaw, RecoveryLaw};
ghost use Rattle.fault_classes.specs.Laws.{SoundnessLaw, BudgetLaw};

/// No line touches a frame of a sound node.
pub fn clean()
    ensures { CleanLaw }
{}

/// Every frame of a benign node is manifestly faulty.
pub fn benign()
    ensures { BenignLaw }
{}

/// The same befalls all frames that a symmetric node sends in a slot.
pub fn symmetric()
    ensures { SymmetricLaw }
{}

/// Where a node joins, the nodes of class N outnumber those that it may take for good and that
/// aren't.
pub fn recovery()
    ensures { RecoveryLaw }
{}

/// A node of class N doesn't restart and was sound before; a node of class J restarts.
pub fn soundness()
    ensures { SoundnessLaw }
{}

/// The counts of a period hold exactly where its members are within the budget.
pub fn budget()
    ensures { BudgetLaw }
{}
