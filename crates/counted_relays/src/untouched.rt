ghost use Rattle.std.specs.Prelude.{◌≡◌, ◌≢◌, ℕ, ◌<◌, ◌≤◌, ◌⊎◌, ◌∷◌, [], length, slice_index_or};
ghost use Rattle.std.specs.Prelude.{slice_set, true, false};
ghost use Rattle.node_grid.specs.NodeSet.{has_id};
ghost use Rattle.omh_paths.specs.declared.wrapped.Wrapped.TheVariants.{Fault};
ghost use Rattle.omh.specs.Omh.{settled};
ghost use Rattle.settled_paths.specs.Passing.{passing_world};
ghost use Rattle.counted_relays.specs.Counted.{IsUntouched, full_outside, counted};

use omh_paths::{Exact, Wrapped};
use settled_paths::{Exchange, Touched};

/// Puts a value in place of another one.
fn set_value<V: Exact>(values: &mut [Wrapped<V>], place: usize, value: Wrapped<V>)
    requires { place < length values.old }
    ensures { values.new ≡ slice_set values.old place value }
{
    values[place] = value;
}

/// Whether nothing was touched of an item that is relayed in so many rounds. It may say false.
fn is_untouched<V: Exact, T: Touched<V>>(touched: &T, rounds: u8) -> bool
    requires rounds { rounds ≤ 3 }
    ensures { result ≡ true → IsUntouched rounds (T.says touched.now) }
{
    for before in 0..rounds + 1 {
        if !touched.is_untouched(before + 1) {
            return false;
        }
    }
    true
}

/// How many members but the commander are Full.
fn full_others<const N: usize>(exchange: &Exchange<N>) -> u8
    requires commander { exchange.now.commander < N }
    ensures { result ≡
        full_outside exchange.now.members exchange.now.full (exchange.now.commander ∷ []) }
{
    let others = exchange.members.without(exchange.commander);
    others.len() - others.minus(&exchange.full).len()
}

/// What node `i` settles of an item that nothing was touched of.
fn counted<V: Exact, const N: usize>(exchange: &Exchange<N>, own: Wrapped<V>, i: u8) -> Wrapped<V>
    requires commander { exchange.now.commander < N }
    ensures { result ≡ counted exchange.now.rounds exchange.now.members exchange.now.full own
        exchange.now.commander i }
{
    let relays = exchange.members.has(i) && exchange.full.has(i);
    if relays || full_others(exchange) >= exchange.rounds {
        own
    } else {
        Wrapped::Fault(0)
    }
}

/// What each awake node but the commander settles of an item that nothing was touched of, laid at
/// the node's place in `all`.
fn settle_counted<V: Exact, const N: usize>(
    exchange: &Exchange<N>,
    own: Wrapped<V>,
    all: &mut [Wrapped<V>],
)
    requires commander { exchange.now.commander < N }
    requires places { length all.old ≡ N }
    ensures settled { (i : ℕ) → has_id exchange.now.awake i ≡ true → exchange.now.commander ≢ i →
        slice_index_or all.new i (Fault 0) ≡ counted exchange.now.rounds exchange.now.members
        exchange.now.full own exchange.now.commander i }
    ensures others { (i : ℕ) →
        (has_id exchange.now.awake i ≡ false) ⊎ (exchange.now.commander ≡ i) →
        slice_index_or all.new i (Fault 0) ≡ slice_index_or all.old i (Fault 0) }
    ensures places { length all.new ≡ N }
{
    for i in exchange.awake.without(exchange.commander).iter() {
        set_value(all, i as usize, counted(exchange, own, i));
    }
}

/// Where nothing was touched of another member's item, what each node that hears it settles for
/// it, laid at the node's place in `all`: this is what the commander says of it. Other places of
/// `all` stay. False, and nothing done, where `touched` doesn't know that nothing was touched for
/// paths of each length.
pub fn settle_untouched<V: Exact, T: Touched<V>, const N: usize>(
    exchange: &Exchange<N>,
    own: Wrapped<V>,
    touched: &T,
    all: &mut [Wrapped<V>],
) -> bool
    requires rounds { exchange.now.rounds ≤ 3 }
    requires member { has_id exchange.now.members exchange.now.commander ≡ true }
    requires places { length all.old ≡ N }
    ensures settled { result ≡ true → (i : ℕ) → has_id exchange.now.awake i ≡ true →
        exchange.now.commander ≢ i → slice_index_or all.new i (Fault 0) ≡
        settled V.eq (passing_world exchange.now.rounds exchange.now.members exchange.now.full own
        (T.says touched.now)) i (exchange.now.commander ∷ []) }
    ensures others { (i : ℕ) →
        (has_id exchange.now.awake i ≡ false) ⊎ (exchange.now.commander ≡ i) →
        slice_index_or all.new i (Fault 0) ≡ slice_index_or all.old i (Fault 0) }
    ensures unchanged { result ≡ false → all.new ≡ all.old }
    ensures places { length all.new ≡ N }
{
    let _ = exchange.members.len();
    if !is_untouched(touched, exchange.rounds) {
        return false;
    }
    settle_counted(exchange, own, all);
    true
}
