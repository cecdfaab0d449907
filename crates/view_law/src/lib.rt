//! What a node's view of a period is by its parts: what it settles, what is due, what it votes,
//! what it notes and what it keeps.
//!
//! There is no code here. Each public function promises a law and does nothing: its contract is
//! the law.
#![tactic(auto)]

ghost use Rattle.view_law.specs.Laws.{BeginningLaw, CarriedLaw, ColdLaw, EitherWayLaw, IdleLaw};
ghost use Rattle.view_law.specs.Laws.{NextLaw, NextNotesLaw, ViewLaw, WithinLaw};

/// The view of a node that goes through a period with a state is the record of what it makes of
/// the period.
pub fn through()
    ensures { ViewLaw }
{}

/// The view of a node that stays Cold, which says nothing but whose state frames were good.
pub fn cold()
    ensures { ColdLaw }
{}

/// What nodes go into the first period with.
pub fn beginning()
    ensures { BeginningLaw }
{}

/// What a node goes into the next period with, by its view of the period before.
pub fn next()
    ensures { NextLaw }
{}

/// The notes with which a node goes into a period say nothing of itself, of nodes that aren't in
/// use or of kinds that there are not; nor do notes with more besides.
pub fn within()
    ensures { WithinLaw }
{}

/// Where nothing is noted of another node in use, notes stay as they are.
pub fn idle()
    ensures { IdleLaw }
{}

/// It makes no difference which of two things is noted first.
pub fn either_way()
    ensures { EitherWayLaw }
{}

/// So it is of what is carried over to the next period.
pub fn carried()
    ensures { CarriedLaw }
{}

/// The notes of a node after a period that it goes through begin the next one.
pub fn next_notes()
    ensures { NextNotesLaw }
{}
