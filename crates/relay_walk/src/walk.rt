ghost use Rattle.std.specs.Prelude.{◌≡◌, ◌+◌, ◌≤◌, ◌∷◌, ◌<◌, [], length, map, false};
ghost use Rattle.node_grid.specs.NodeSet.{has_id};
ghost use Rattle.omh_paths.specs.Wrapped.{unwrapped, is_error};
ghost use Rattle.omh_paths.specs.Majority.{majority as majority_of, has_majority as has_most};
ghost use Rattle.relay_terms.specs.Terms.{said, term_in};
ghost use Rattle.relay_terms.specs.Tallies.{IsTally};
ghost use Rattle.relay_walk.specs.Laid.{laid};
ghost use Rattle.relay_walk.specs.Walking.{HaveNext, HaveLast, IsMoved, next_in, last_in};

use crate::round::Round;
use node_grid::NodeSet;
use relay_terms::{Count, Item, Tally, Term};

/// Puts a term in place of another one.
pub fn set_term<V: Item>(terms: &mut [Term<V>], place: usize, term: Term<V>)
    requires { place < length terms.old }
    ensures terms { map said terms.new ≡ laid place (said term ∷ []) (map said terms.old) }
    ensures length { length terms.new ≡ length terms.old }
{
    terms[place] = term;
}

impl<'a, const N: usize> Round<'a, N> {
    /// The next term of a member's frame: nothing where it didn't come.
    fn next_term<V: Item>(&mut self, member: u8) -> Term<V>
        requires more { HaveNext (member ∷ []) self.old }
        ensures term { said result ≡ next_in (term_in V.of_bytes) self.old member }
        ensures moved { IsMoved (member ∷ []) self.old self.new }
    {
        if !self.has_come(member) {
            return Term::nothing();
        }
        Term::read(self.next_entry(member))
    }

    /// The term of a member's frame before the next: nothing where it didn't come.
    fn last_term<V: Item>(&self, member: u8) -> Term<V>
        requires read { HaveLast (member ∷ []) self.now }
        ensures { said result ≡ last_in (term_in V.of_bytes) self.now member }
    {
        if !self.has_come(member) {
            return Term::nothing();
        }
        Term::read(self.last_entry(member))
    }

    /// Lays the next terms of these members from a place on, and answers the place behind.
    pub fn keep<V: Item>(&mut self, others: &NodeSet<N>, at: usize, terms: &mut [Term<V>]) -> usize
        requires more { HaveNext others.now self.old }
        requires room { at + length others.now ≤ length terms.old }
        ensures terms { map said terms.new
            ≡ laid at (map (next_in (term_in V.of_bytes) self.old) others.now)
            (map said terms.old) }
        ensures length { length terms.new ≡ length terms.old }
        ensures behind { result ≡ at + length others.now }
        ensures moved { IsMoved others.now self.old self.new }
    {
        let mut end = at;
        for member in others.iter() {
            let term = self.next_term(member);
            set_term(terms, end, term);
            end += 1;
        }
        end
    }

    /// The tally of the own term and the next ones of these members.
    fn tally<V: Item>(&mut self, others: &NodeSet<N>, own: &Term<V>) -> Tally<V>
        requires more { HaveNext others.now self.old }
        ensures tally { IsTally V.eq
            (said own.now ∷ map (last_in (term_in V.of_bytes) self.new) others.now) result }
        ensures same { map (last_in (term_in V.of_bytes) self.new) others.now
            ≡ map (next_in (term_in V.of_bytes) self.old) others.now }
        ensures read { HaveLast others.now self.new }
        ensures moved { IsMoved others.now self.old self.new }
    {
        let mut tally = Tally::of(own);
        for member in others.iter() {
            let term = self.next_term(member);
            tally.add(&term);
        }
        tally
    }

    /// Whether a term that is no error has the majority of the own term and the last ones of these
    /// members.
    fn has_majority<V: Item>(&self, others: &NodeSet<N>, own: &Term<V>, value: &Term<V>) -> bool
        requires read { HaveLast others.now self.now }
        requires good { is_error (said value.now) ≡ false }
        ensures { result ≡ has_most V.eq
            (said own.now ∷ map (last_in (term_in V.of_bytes) self.now) others.now)
            (said value.now) }
    {
        let mut count = Count::of(value);
        count.add(own);
        for member in others.iter() {
            let term = self.last_term(member);
            count.add(&term);
        }
        count.has_majority()
    }

    /// Whether the candidate of the tally of these terms has their majority: they are counted only
    /// where good ones clashed.
    fn candidate_wins<V: Item>(&self, others: &NodeSet<N>, own: &Term<V>, tally: &Tally<V>) -> bool
        requires read { HaveLast others.now self.now }
        requires tally { IsTally V.eq
            (said own.now ∷ map (last_in (term_in V.of_bytes) self.now) others.now) tally.now }
        requires good { is_error (said tally.now.candidate) ≡ false }
        ensures { result ≡ has_most V.eq
            (said own.now ∷ map (last_in (term_in V.of_bytes) self.now) others.now)
            (said tally.now.candidate) }
    {
        if tally.is_contested() {
            self.has_majority(others, own, &tally.candidate())
        } else {
            true
        }
    }

    /// What is settled from the own term and the next ones of these members: their majority,
    /// unwrapped.
    ///
    /// The terms are read a second time only where good ones clashed.
    pub fn settle<V: Item>(&mut self, others: &NodeSet<N>, own: &Term<V>) -> Term<V>
        requires more { HaveNext others.now self.old }
        ensures settled { said result ≡ unwrapped (majority_of V.eq
            (said own.now ∷ map (next_in (term_in V.of_bytes) self.old) others.now)) }
        ensures moved { IsMoved others.now self.old self.new }
    {
        let tally = self.tally(others, own);
        let candidate = tally.candidate();
        if candidate.is_nothing() {
            return Term::nothing();
        }
        if self.candidate_wins(others, own, &tally) {
            candidate.unwrap()
        } else {
            Term::nothing()
        }
    }

    /// Goes by the next entry of a member's frame, where it came.
    fn pass_next(&mut self, member: u8)
        requires more { HaveNext (member ∷ []) self.old }
        ensures { IsMoved (member ∷ []) self.old self.new }
    {
        if self.has_come(member) {
            self.advance(member);
        }
    }

    /// Goes by a path, in the frames of these members.
    pub fn pass(&mut self, others: &NodeSet<N>)
        requires more { HaveNext others.now self.old }
        ensures { IsMoved others.now self.old self.new }
    {
        for member in others.iter() {
            self.pass_next(member);
        }
    }
}
