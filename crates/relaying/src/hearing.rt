//! What the frames of a round of the other members say.

ghost use Rattle.std.specs.Prelude.{ℕ, ◌≡◌, ◌≢◌, ◌<◌, ◌≤◌, true};
ghost use Rattle.node_grid.specs.NodeSet.{has_id};
ghost use Rattle.error_detect.specs.Watching.{told_at, IsHeardBy};
ghost use Rattle.relay_terms.specs.Terms.{term_in};
ghost use Rattle.relay_walk.specs.Walking.{IsWalk, entries_of};
ghost use Rattle.relay_table.specs.Tabled.{others_in, kept_nodes};
ghost use Rattle.relay_rules.specs.Hearing.{after_round};
ghost use Rattle.relaying.specs.Told.{part_told, IsRoundHeard, IsRelayHeard};

use crate::item::{RelayedItem, item_of};
use error_detect::SlotWatch;
use node_grid::{Capacity, Nodes};
use omh_paths::count_paths;
use relay_table::Table;
use relay_walk::Round;

/// The item that another node told of itself in the slot that was closed last, where it told one.
fn item_told<V: RelayedItem<N>, const N: usize>(watch: &SlotWatch<N>, node: u8) -> Option<V>
where
    Nodes: Capacity<N>,
    requires node { node < watch.now.nodes }
    requires closed { IsHeardBy watch.now watch.now.nodes watch.now.me }
    requires other { node ≢ watch.now.me }
    ensures { result ≡ part_told V.form.item_in (told_at watch.now node) }
{
    match watch.frame(node) {
        Some(frame) => item_of(&frame.body),
        None => None,
    }
}

/// Takes the item that each of the other members told of itself in the slot that was closed last.
fn hear_items<V: RelayedItem<N>, const N: usize>(table: &mut Table<V, N>, watch: &SlotWatch<N>)
where
    Nodes: Capacity<N>,
    requires closed { IsHeardBy watch.now table.old.nodes table.old.me }
    ensures { table.new ≡ after_round V.form table.old.nodes watch.now 0 table.old }
{
    let others = table.members().without(table.me());
    for node in 0..table.nodes() {
        if others.has(node) {
            table.hear_item(node, item_told(watch, node));
        }
    }
}

/// The frames of a relay round that came in the slot that was closed last.
pub(crate) fn round_of<'w, V: RelayedItem<N>, const N: usize>(
    table: &Table<V, N>,
    watch: &'w SlotWatch<N>,
    round: u8,
) -> Round<'w, N>
where
    Nodes: Capacity<N>,
    requires relay { IsRelayHeard N V.kind round table.now watch.now }
    ensures walk { IsWalk table.now.members (others_in table.now) round 0 result }
    ensures told { (q : ℕ) → has_id (others_in table.now) q ≡ true →
        entries_of (term_in V.Item.of_bytes) result q
        ≡ part_told V.form.relay_in (told_at watch.now q) }
{
    let nodes = table.nodes();
    let width = V::entry_width(nodes);
    let size = width * count_paths(table.members().len().saturating_sub(1), round);
    let others = table.members().without(table.me());
    let mut frames = Round::open(watch.room(), width, size);
    for node in 0..nodes {
        if others.has(node) {
            if let Some(at) = watch.entries_at(node) {
                frames.put(node, at);
            }
        }
    }
    frames
}

/// Takes what the frames of a round say whose terms are kept: the slot of `watch` was closed.
pub fn hear_round<V: RelayedItem<N>, const N: usize>(
    table: &mut Table<V, N>,
    watch: &SlotWatch<N>,
    round: u8,
)
where
    Nodes: Capacity<N>,
    requires kept { round < kept_nodes table.old.rounds }
    requires heard { IsRoundHeard N V.kind round table.old watch.now }
    ensures { table.new ≡ after_round V.form table.old.nodes watch.now round table.old }
{
    let _members = table.members();
    let _capacity = table.nodes();
    if round == 0 {
        hear_items(table, watch);
        return;
    }
    let mut frames = round_of(table, watch, round);
    table.hear_round(&mut frames, round);
}
