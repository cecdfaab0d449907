//! Laws of a phase, over the definitions alone.

ghost use Rattle.item_phase.specs.Laws.{OfRunLaw};

use touched_items::Item;

/// Law of runs: in a phase of a run, what an awake node settles of its members' items, whom it
/// convicts and what it finds of frames by what is laid down of the phase is what it does in the
/// run.
pub fn of_run<V: Item<N>, const N: usize>()
    ensures { OfRunLaw N V.eq V.form V.first_slot V.tells }
{}
