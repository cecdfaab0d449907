ghost use Rattle.std.specs.Prelude.{◌≡◌, ◌+◌, ◌<◌, ◌≤◌, ◌∷◌, ◌++◌, [], List, false};
ghost use Rattle.node_grid.specs.Count.{bit};
ghost use Rattle.omh_paths.specs.declared.wrapped.Wrapped.{Wrapped};
ghost use Rattle.omh_paths.specs.Wrapped.{is_error};
ghost use Rattle.omh_paths.specs.Majority.{has_majority as wins};
ghost use Rattle.relay_terms.specs.Terms.{said};
ghost use Rattle.relay_terms.specs.Tallies.{IsCount};

use crate::term::{Item, Term};

/// 1 for what holds, and 0 for what doesn't.
fn one_if(holds: bool) -> u8
    ensures { result ≡ bit holds }
{
    if holds { 1 } else { 0 }
}

/// How many terms aren't the error itself, and how many are one value.
#[derive(Clone, Copy, Drop)]
pub struct Count<V> {
    value: Term<V>,
    votes: u8,
    support: u8,
}

impl<V: Item> Count<V> {
    /// The count of no terms.
    pub fn of(value: &Term<V>) -> Count<V>
        ensures count { IsCount V.eq [] result }
        ensures value { result.value ≡ value.now }
        ensures few_votes { result.votes ≡ 0 }
        ensures few_support { result.support ≡ 0 }
    {
        Count {
            value: *value,
            votes: 0,
            support: 0,
        }
    }

    /// Counts one more term.
    pub fn add(&mut self, term: &Term<V>)
        requires few_votes { self.old.votes < 255 }
        requires few_support { self.old.support < 255 }
        ensures count { (seen : List (Wrapped V)) → IsCount V.eq seen self.old
            → IsCount V.eq (seen ++ said term.now ∷ []) self.new }
        ensures value { self.new.value ≡ self.old.value }
        ensures few_votes { self.new.votes ≤ self.old.votes + 1 }
        ensures few_support { self.new.support ≤ self.old.support + 1 }
    {
        let is_nothing = term.is_nothing();
        let supports = self.value.is(term);
        self.votes += one_if(!is_nothing);
        self.support += one_if(supports);
    }

    /// Whether the value, which is no error, has the majority of the terms that were counted.
    pub fn has_majority(&self) -> bool
        requires good { is_error (said self.now.value) ≡ false }
        ensures { (seen : List (Wrapped V)) → IsCount V.eq seen self.now
            → result ≡ wins V.eq seen (said self.now.value) }
    {
        self.support > self.votes / 2
    }
}
