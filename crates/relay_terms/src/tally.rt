ghost use Rattle.std.specs.Prelude.{◌≡◌, ◌+◌, ◌<◌, ◌≤◌, ◌∷◌, ◌++◌, [], List, not};
ghost use Rattle.omh_paths.specs.declared.wrapped.Wrapped.{Wrapped};
ghost use Rattle.omh_paths.specs.Wrapped.{is_error};
ghost use Rattle.relay_terms.specs.Terms.{said};
ghost use Rattle.relay_terms.specs.Tallies.{IsTally};

use crate::term::{Item, Term};

/// A majority in the making: the only term that can have it so far, by how many places it leads
/// (Boyer and Moore 1991), and whether two good terms were ever different.
///
/// Where no terms clashed, all good ones are the candidate, so that they need not be counted.
#[derive(Clone, Copy, Drop)]
pub struct Tally<V> {
    candidate: Term<V>,
    lead: usize,
    clash: bool,
}

impl<V: Item> Tally<V> {
    /// The tally of one term.
    pub fn of(term: &Term<V>) -> Tally<V>
        ensures tally { IsTally V.eq (said term.now ∷ []) result }
        ensures few { result.lead ≤ 1 }
    {
        Tally {
            candidate: *term,
            lead: !term.is_nothing() as usize,
            clash: false,
        }
    }

    /// Takes up one more term.
    pub fn add(&mut self, term: &Term<V>)
        requires few { self.old.lead < 65536 }
        ensures tally { (seen : List (Wrapped V)) → IsTally V.eq seen self.old
            → IsTally V.eq (seen ++ said term.now ∷ []) self.new }
        ensures few { self.new.lead ≤ self.old.lead + 1 }
    {
        if term.is_nothing() {
            return;
        }
        if self.lead == 0 {
            self.candidate = *term;
            self.lead = 1;
        } else if self.candidate.is(term) {
            self.lead += 1;
        } else {
            self.lead -= 1;
            self.clash = true;
        }
    }

    /// Whether good terms clashed, so that those that are the candidate have to be counted.
    pub fn is_contested(&self) -> bool
        ensures { result ≡ self.now.clash }
    {
        self.clash
    }

    /// The only term that can have the majority, or the error itself where all terms are.
    pub fn candidate(&self) -> Term<V>
        ensures { result ≡ self.now.candidate }
    {
        self.candidate
    }
}
