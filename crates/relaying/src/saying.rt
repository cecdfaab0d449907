//! What a node passes on.

ghost use Rattle.std.specs.Prelude.{◌≡◌, ◌≢◌, ◌+◌, ◌*◌, ◌<◌, ◌≤◌, map, length, vec_capacity};
ghost use Rattle.std.specs.List.{flat_map};
ghost use Rattle.omh_paths.specs.Wrapped.{wrapped};
ghost use Rattle.omh_paths.specs.declared.wrapped.Wrapped.TheVariants.{Fault};
ghost use Rattle.frames.specs.Seen.{expected};
ghost use Rattle.frames.specs.Spelling.{spelling, head_of};
ghost use Rattle.frames.specs.Writing.{pasted};
ghost use Rattle.relay_terms.specs.Terms.{said};
ghost use Rattle.relay_rules.specs.Relaying.{relays};
ghost use Rattle.relaying.specs.Round.{IsRoundOf, IsOwnRound, CanPut};

use crate::item::RelayedItem;
use frames::{Expect, HEADER, header};
use node_grid::{Capacity, Nodes};
use omh_paths::count_paths;
use relay_table::Table;
use relay_terms::Term;

/// How many bytes the node itself passes on in a relay round: none where it is no member.
fn own_size<V: RelayedItem<N>, const N: usize>(table: &Table<V, N>, round: u8) -> usize
    requires round { IsOwnRound N V.kind V.in_range round table.now }
    ensures size { result ≡ length
        (flat_map (V.spelling table.now.nodes) (relays table.now round)) }
    ensures few { result ≤ 33 * 65536 }
{
    if !table.is_member() {
        return 0;
    }
    let others = table.members().without(table.me()).len();
    V::entry_width(table.nodes()) * count_paths(others, round)
}

/// Writes the entry of a term at a place, as a relay passes it on.
fn put_wrapped<V: RelayedItem<N>, const N: usize>(
    out: &mut [u8],
    nodes: u8,
    place: usize,
    term: &Term<V>,
)
where
    Nodes: Capacity<N>,
    requires nodes { nodes ≤ N }
    requires fits { V.width nodes * place + V.width nodes ≤ length out.old }
    requires few { said term.now ≢ Fault 254 }
    ensures { out.new ≡ pasted (V.width nodes * place)
        (V.spelling nodes (wrapped (said term.now))) out.old }
{
    V::put(out, nodes, place, &term.wrap().value());
}

/// Writes terms one after another, as a relay passes them on.
fn put_terms<V: RelayedItem<N>, const N: usize>(out: &mut [u8], nodes: u8, terms: &[Term<V>])
where
    Nodes: Capacity<N>,
    requires nodes { nodes ≤ N }
    requires can { CanPut (V.width nodes) (V.spelling nodes) (map said terms.now)
        (length out.old) }
    ensures { out.new ≡ pasted 0
        (flat_map (V.spelling nodes) (map wrapped (map said terms.now))) out.old }
{
    for place in 0..terms.len() {
        put_wrapped(out, nodes, place, &terms[place]);
    }
}

/// Writes what the node itself passes on in a relay round to the front of `out`: nothing where it
/// is no member.
fn write_own<V: RelayedItem<N>, const N: usize>(table: &Table<V, N>, round: u8, out: &mut [u8])
where
    Nodes: Capacity<N>,
    requires round { IsOwnRound N V.kind V.in_range round table.now }
    requires room { length (flat_map (V.spelling table.now.nodes) (relays table.now round)) ≤
        length out.old }
    ensures { out.new ≡ pasted 0
        (flat_map (V.spelling table.now.nodes) (relays table.now round)) out.old }
{
    let _members = table.members();
    let nodes = table.nodes();
    if table.is_member() {
        put_terms(out, nodes, table.heard(round));
    }
}

/// Writes the node's own frame of the relay round into `out`, which has room for it: of each path
/// of the others what it heard for it, wrapped.
pub fn say_round<V: RelayedItem<N>, const N: usize>(
    table: &Table<V, N>,
    expect: &Expect<N>,
    round: u8,
    out: &mut Vec<u8>,
)
where
    Nodes: Capacity<N>,
    requires some_round { 0 < round }
    requires round { round ≤ table.now.rounds }
    requires slot { IsRoundOf N V.kind V.in_range round table.now (expected expect.now) }
    requires room { length (spelling table.now.nodes (head_of (expected expect.now))
        (V.form.relay (relays table.now round))) ≤ vec_capacity out.old }
    ensures written { out.new.items ≡ spelling table.now.nodes (head_of (expected expect.now))
        (V.form.relay (relays table.now round)) }
    ensures room { vec_capacity out.old ≤ vec_capacity out.new }
{
    let size = own_size(table, round);
    let _within_room = out.resize(HEADER + size, 0).is_ok();
    let (front, body) = out.as_mut_slice().split_at_mut(HEADER);
    front.copy_from_slice(&header(expect.head(), V::relay_kind(), size as u32));
    write_own(table, round, body);
}
