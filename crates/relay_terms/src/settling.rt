ghost use Rattle.std.specs.Prelude.{◌≡◌, ◌≤◌, ◌∷◌, map, length, false};
ghost use Rattle.omh_paths.specs.Wrapped.{unwrapped, is_error};
ghost use Rattle.omh_paths.specs.Majority.{majority as majority_of, has_majority as wins};
ghost use Rattle.relay_terms.specs.Terms.{said};
ghost use Rattle.relay_terms.specs.Tallies.{IsTally};

use crate::count::Count;
use crate::tally::Tally;
use crate::term::{Item, Term};

/// The tally of the own term and of these.
fn tally_of<V: Item>(terms: &[Term<V>], own: &Term<V>) -> Tally<V>
    requires few { length terms.now ≤ 16 }
    ensures { IsTally V.eq (said own.now ∷ map said terms.now) result }
{
    let mut tally = Tally::of(own);
    for term in terms {
        tally.add(term);
    }
    tally
}

/// Whether a term that is no error has the majority of the own term and of these.
fn has_majority<V: Item>(terms: &[Term<V>], own: &Term<V>, value: &Term<V>) -> bool
    requires few { length terms.now ≤ 16 }
    requires good { is_error (said value.now) ≡ false }
    ensures { result ≡ wins V.eq (said own.now ∷ map said terms.now) (said value.now) }
{
    let mut count = Count::of(value);
    count.add(own);
    for term in terms {
        count.add(term);
    }
    count.has_majority()
}

/// Whether the candidate of the tally of these terms has their majority: they are counted only
/// where good ones clashed.
fn candidate_wins<V: Item>(terms: &[Term<V>], own: &Term<V>, tally: &Tally<V>) -> bool
    requires few { length terms.now ≤ 16 }
    requires tally { IsTally V.eq (said own.now ∷ map said terms.now) tally.now }
    requires good { is_error (said tally.now.candidate) ≡ false }
    ensures { result ≡ wins V.eq (said own.now ∷ map said terms.now) (said tally.now.candidate) }
{
    if tally.is_contested() {
        has_majority(terms, own, &tally.candidate())
    } else {
        true
    }
}

/// What is settled from the own term and these: their majority, unwrapped.
pub fn settled_from<V: Item>(terms: &[Term<V>], own: &Term<V>) -> Term<V>
    requires few { length terms.now ≤ 16 }
    ensures { said result ≡ unwrapped (majority_of V.eq (said own.now ∷ map said terms.now)) }
{
    let tally = tally_of(terms, own);
    let candidate = tally.candidate();
    if candidate.is_nothing() {
        return Term::nothing();
    }
    if candidate_wins(terms, own, &tally) {
        candidate.unwrap()
    } else {
        Term::nothing()
    }
}
