//! What a node settles of the items of all members, and whom it convicts.

ghost use Rattle.std.specs.Prelude.{◌≡◌, ◌==◌, ◌&&◌, ◌<◌, not, map, length};
ghost use Rattle.node_grid.specs.NodeSet.{ids_where};
ghost use Rattle.omh.specs.Heard.{Hearing, ear_of, forgotten};
ghost use Rattle.protocol.specs.FurtherKinds.{convicts_member};
ghost use Rattle.protocol.specs.Settled.{plain};
ghost use Rattle.protocol.specs.View.{as_claim};
ghost use Rattle.relay_terms.specs.Terms.{said};
ghost use Rattle.relay_rules.specs.Hearing.{after_round};
ghost use Rattle.relay_rules.specs.Settling.{settled_in};
ghost use Rattle.relaying.specs.Told.{IsRoundHeard, IsHeardWhereKept};

use crate::hearing::{hear_round, round_of};
use crate::item::RelayedItem;
use error_detect::SlotWatch;
use node_grid::{Capacity, Matrix, NodeSet, Nodes, Row};
use omh_paths::Wrapped;
use relay_table::Table;
use relay_terms::Term;

/// Hears the last round where its terms are kept.
fn hear_kept<V: RelayedItem<N>, const N: usize>(table: &mut Table<V, N>, watch: &SlotWatch<N>)
where
    Nodes: Capacity<N>,
    requires heard { IsRoundHeard N V.kind table.old.rounds table.old watch.now }
    ensures { IsHeardWhereKept V.form watch.now table.old table.new }
{
    let rounds = table.rounds();
    if rounds < 2 {
        hear_round(table, watch, rounds);
    }
}

/// Writes what is settled of each node's item, once the last round was heard where its terms are
/// kept.
fn settle_items<V: RelayedItem<N>, const N: usize>(
    table: &mut Table<V, N>,
    watch: &SlotWatch<N>,
    items: &mut [Term<V>],
)
where
    Nodes: Capacity<N>,
    requires heard { IsRoundHeard N V.kind table.old.rounds table.old watch.now }
    requires room { length items.old ≡ N }
    ensures settled { (was : Hearing V) → IsHeardWhereKept V.form watch.now was table.old →
        map (λ t. plain (said t)) items.new
        ≡ settled_in V.eq N (after_round V.form was.nodes watch.now was.rounds was) }
    ensures kept { table.new ≡ table.old }
{
    let _members = table.members();
    let _capacity = table.nodes();
    let rounds = table.rounds();
    if rounds == 0 {
        table.settle_items(items);
        return;
    }
    let mut frames = round_of(table, watch, rounds);
    table.settle_round(&mut frames, items);
}

/// Takes what the frames of the last round say, settles, and forgets all that was heard: writes
/// what is settled of each node's item, which is the error itself where nothing is, and answers the
/// other members that the node convicts by what it heard of their items.
pub fn settle<V: RelayedItem<N>, const N: usize>(
    table: &mut Table<V, N>,
    watch: &SlotWatch<N>,
    items: &mut [Term<V>],
) -> NodeSet<N>
where
    Nodes: Capacity<N>,
    requires heard { IsRoundHeard N V.kind table.old.rounds table.old watch.now }
    requires room { length items.old ≡ N }
    ensures settled { map (λ t. plain (said t)) items.new ≡ settled_in V.eq N
        (after_round V.form table.old.nodes watch.now table.old.rounds table.old) }
    ensures guilty { result ≡ ids_where (λ j. not (j == table.old.me)
        && convicts_member V.eq (ear_of (after_round V.form table.old.nodes watch.now
        table.old.rounds table.old)) j) N }
    ensures forgotten { table.new ≡ forgotten table.old }
{
    let _members = table.members();
    hear_kept(table, watch);
    let guilty = table.convicted();
    settle_items(table, watch, items);
    table.forget();
    guilty
}

/// The settled claims: `Fault(0)` where nothing is settled.
pub fn claims_of<const N: usize>(items: &[Term<u8>; N]) -> [Wrapped<u8>; N]
where
    Nodes: Capacity<N>,
    ensures { result ≡ map (λ t. as_claim (plain (said t))) items.now }
{
    let mut claims = [Wrapped::Fault(0); N];
    for node in 0..N {
        match items[node].value() {
            Wrapped::Plain(claim) => claims[node] = Wrapped::Plain(claim),
            Wrapped::Fault(_) => {}
        }
    }
    claims
}

/// The settled rows.
pub fn rows_of<const N: usize>(items: &[Term<Row<N>>; N]) -> Matrix<N>
where
    Nodes: Capacity<N>,
    ensures { result ≡ map (λ t. plain (said t)) items.now }
{
    let mut rows = Matrix::empty();
    for node in 0..N as u8 {
        match items[node as usize].value() {
            Wrapped::Plain(row) => rows.set(node, row),
            Wrapped::Fault(_) => {}
        }
    }
    rows
}
