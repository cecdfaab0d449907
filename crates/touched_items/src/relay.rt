//! Relay frames.

ghost use Rattle.std.specs.Prelude.{◌≡◌, ◌≢◌, ◌+◌, ◌*◌, ◌<◌, ◌≤◌, List, length, take, drop};
ghost use Rattle.std.specs.Prelude.{slice_index_or, Some};
ghost use Rattle.omh_paths.specs.declared.wrapped.Wrapped.{Wrapped};
ghost use Rattle.omh_paths.specs.declared.wrapped.Wrapped.TheVariants.{Fault};
ghost use Rattle.frames.specs.Content.{Content, Cold, kind, round_in};
ghost use Rattle.frames.specs.Seen.{content, expected};
ghost use Rattle.fault_classes.specs.Change.{change_of};
ghost use Rattle.protocol.specs.Arrival.Arrival.{Good};
ghost use Rattle.protocol.specs.Talk.{arrives};
ghost use Rattle.touched_items.specs.Items.{sizes_of, IsSent, HasOwn, bad_kind};
ghost use Rattle.touched_items.specs.Patched.{header_error, cell_over, are_due, arrival_over};

use crate::due::{entries_due, round_of};
use crate::entries::Entries;
use crate::item::Item;
use crate::patch::Patch;
use fault_classes::Effect;
use frames::{Body, Expect, Frame, HEADER, Head, header, is_header};
use node_grid::kind::{COLD, MALFORMED};
use node_grid::{Capacity, Nodes};
use omh_paths::Wrapped;
use touched_frames::{Arrived, arrives, unread_kind};

/// The most bytes of an entry.
const MOST_BYTES: usize = 33;

/// The number of the kind of Cold frames.
const COLD_FRAME: u8 = 7;

/// The number of the kind of a frame.
fn kind_of<const N: usize>(body: &Body<'_, N>, nodes: u8) -> u8
    ensures { result ≡ kind (content nodes body.now) }
{
    let _ = nodes;
    match body {
        Body::State(_) => 1,
        Body::Done0(_) => 2,
        Body::DoneRelay(_) => 3,
        Body::Data(_) => 4,
        Body::Report0(_) => 5,
        Body::ReportRelay(_) => 6,
        Body::Cold => COLD_FRAME,
    }
}

/// The kind of error that is found of a relay frame with this effect, or None where it comes good.
/// Its sender is cold, and says so.
pub fn cold_relay_frame<V: Item<N>, const N: usize>(
    effect: &Effect,
    expect: &Expect<N>,
) -> Option<u8>
where
    Nodes: Capacity<N>,
    requires some_nodes { 0 < expect.now.nodes }
    requires nodes { expect.now.nodes ≤ N }
    requires rounds { expect.now.m ≤ 3 }
    ensures { result ≡
        bad_kind (arrives V.form.relay_in (Some (change_of effect.now)) (expected expect.now)
        (expected expect.now) Cold) }
{
    let frame = Frame {
        head: expect.head(),
        body: Body::Cold,
    };
    let mut room = [0; HEADER];
    match &arrives(effect, &frame, expect, &mut room) {
        Arrived::Bad(kind) => Some(*kind),
        Arrived::Good(body) => {
            if kind_of(body, expect.nodes) == V::relay_kind() {
                None
            } else {
                Some(MALFORMED)
            }
        }
    }
}

/// The kind of error that is found of a frame by its header alone, with other bytes in it, where
/// its body has so many bytes. None where the header is as it was sent.
fn header_error(head: Head, kind: u8, size: u32, patch: &Patch<'_>) -> Option<u8>
    ensures { result ≡ header_error patch.now.at patch.now.bytes.now head kind size }
{
    if patch.is_clear_of(0, HEADER) {
        return None;
    }
    let mut came = header(head, kind, size);
    patch.put_over(&mut came, 0);
    if is_header(&came, head, kind, size) {
        None
    } else if size == 0 && is_header(&came, head, COLD_FRAME, 0) {
        Some(COLD)
    } else {
        Some(MALFORMED)
    }
}

/// Lays out the bytes of entry `k` of a relay frame with other bytes in it, where the sender's own
/// entry is `own`.
fn lay_cell<V: Item<N>, const N: usize>(
    cell: &mut [u8],
    nodes: u8,
    k: usize,
    own: &Wrapped<V>,
    patch: &Patch<'_>,
)
where
    Nodes: Capacity<N>,
    requires nodes { nodes ≤ N }
    requires few { k < 4096 }
    requires some { own.now ≢ Fault 0 }
    requires room { length cell.old ≡ V.entry_form.width nodes }
    ensures { length (V.entry_form.spelling nodes own.now) ≡ V.entry_form.width nodes →
        cell.new ≡ cell_over V.entry_form nodes patch.now.at patch.now.bytes.now k own.now }
{
    V::put_entry(cell, nodes, own);
    patch.put_over(cell, HEADER + V::entry_width(nodes) * k);
}

/// Whether entry `k` is in range with other bytes in it.
fn is_cell<V: Item<N>, const N: usize>(
    expect: &Expect<N>,
    k: usize,
    own: &Wrapped<V>,
    patch: &Patch<'_>,
) -> bool
where
    Nodes: Capacity<N>,
    requires nodes { expect.now.nodes ≤ N }
    requires few { k < 4096 }
    requires some { own.now ≢ Fault 0 }
    requires long { length (V.entry_form.spelling expect.now.nodes own.now) ≡
        V.entry_form.width expect.now.nodes }
    ensures { result ≡
        V.entry_form.test (sizes_of (expected expect.now)) (round_in expect.now.m expect.now.slot)
        (cell_over V.entry_form expect.now.nodes patch.now.at patch.now.bytes.now k own.now) }
{
    let mut room = [0; MOST_BYTES];
    let cell = &mut room[..V::entry_width(expect.nodes)];
    lay_cell(cell, expect.nodes, k, own, patch);
    V::is_entry(expect, round_of(expect), cell)
}

/// Whether the entries of a relay frame with other bytes in it are those that are expected: as
/// many, and each in range.
fn are_due<V: Item<N>, E: Entries<V>, const N: usize>(
    expect: &Expect<N>,
    entries: &E,
    patch: &Patch<'_>,
) -> bool
where
    Nodes: Capacity<N>,
    requires nodes { expect.now.nodes ≤ N }
    requires rounds { expect.now.m ≤ 3 }
    requires sent { IsSent (expected expect.now) (V.form.relay (E.entries entries.now)) }
    ensures { result ≡
        are_due V.entry_form (expected expect.now) patch.now.at patch.now.bytes.now
        (E.entries entries.now) }
{
    if entries.len() != entries_due(expect) {
        return false;
    }
    let (first, last) = patch.hit_entries(V::entry_width(expect.nodes), entries.len());
    for k in first..last {
        if !is_cell(expect, k, &entries.at(k), patch) {
            return false;
        }
    }
    true
}

/// The kind of error that is found of a relay frame of these entries with other bytes in it, or
/// None where it comes good.
fn patched_kind<V: Item<N>, E: Entries<V>, const N: usize>(
    expect: &Expect<N>,
    entries: &E,
    patch: &Patch<'_>,
) -> Option<u8>
where
    Nodes: Capacity<N>,
    requires nodes { expect.now.nodes ≤ N }
    requires rounds { expect.now.m ≤ 3 }
    requires sent { IsSent (expected expect.now) (V.form.relay (E.entries entries.now)) }
    ensures { result ≡
        bad_kind (arrival_over V.entry_form (expected expect.now) patch.now.at
        patch.now.bytes.now (E.entries entries.now)) }
{
    let size = V::entry_width(expect.nodes) * entries.len();
    if let Some(kind) = header_error(expect.head(), V::relay_kind(), size as u32, patch) {
        return Some(kind);
    }
    if are_due(expect, entries, patch) {
        None
    } else {
        Some(MALFORMED)
    }
}

/// The kind of error that is found of a relay frame with this effect, or None where it comes good.
/// Its sender isn't cold, and has these entries, by its own members.
///
/// Only entries that the line's bytes hit are asked for. Bytes that come in the frame's place are
/// read once.
pub fn relay_frame<V: Item<N>, E: Entries<V>, const N: usize>(
    effect: &Effect,
    expect: &Expect<N>,
    entries: &E,
) -> Option<u8>
where
    Nodes: Capacity<N>,
    requires some_nodes { 0 < expect.now.nodes }
    requires nodes { expect.now.nodes ≤ N }
    requires rounds { expect.now.m ≤ 3 }
    requires sent { IsSent (expected expect.now) (V.form.relay (E.entries entries.now)) }
    ensures { result ≡
        bad_kind (arrives V.form.relay_in (Some (change_of effect.now)) (expected expect.now)
        (expected expect.now) (V.form.relay (E.entries entries.now))) }
{
    if let Some(kind) = unread_kind(effect) {
        return Some(kind);
    }
    if let Effect::Raw(_) = effect {
        return cold_relay_frame::<V, N>(effect, expect);
    }
    patched_kind::<V, E, N>(expect, entries, &Patch::of(effect))
}

/// Entry `k` of a relay frame with other bytes in it, where the sender's own is `own`.
fn patched_entry<V: Item<N>, const N: usize>(
    nodes: u8,
    k: usize,
    own: Wrapped<V>,
    patch: &Patch<'_>,
) -> Wrapped<V>
where
    Nodes: Capacity<N>,
    requires nodes { nodes ≤ N }
    requires few { k < 4096 }
    ensures { own ≢ Fault 0 → length (V.entry_form.spelling nodes own) ≡ V.entry_form.width nodes →
        V.entry_form.read N nodes (V.entry_form.spelling nodes own) ≡ own →
        result ≡ V.entry_form.read N nodes
        (cell_over V.entry_form nodes patch.now.at patch.now.bytes.now k own) }
{
    let width = V::entry_width(nodes);
    if patch.is_clear_of(HEADER + width * k, width) {
        return own;
    }
    if let Wrapped::Fault(0) = own {
        return own;
    }
    let mut room = [0; MOST_BYTES];
    let cell = &mut room[..width];
    lay_cell(cell, nodes, k, &own, patch);
    V::read_entry(cell, nodes)
}

/// Entry `k` of a relay frame with these bytes, or `Fault(0)` where it has none.
fn entry_in<V: Item<N>, const N: usize>(bytes: &[u8], nodes: u8, k: usize) -> Wrapped<V>
where
    Nodes: Capacity<N>,
    requires nodes { nodes ≤ N }
    requires few { k < 4096 }
    ensures { 14 + V.entry_form.width nodes * k + V.entry_form.width nodes ≤ length bytes.now →
        result ≡ V.entry_form.read N nodes
        (take (V.entry_form.width nodes) (drop (14 + V.entry_form.width nodes * k) bytes.now)) }
{
    let width = V::entry_width(nodes);
    let at = HEADER + width * k;
    if at + width <= bytes.len() {
        V::read_entry(&bytes[at..at + width], nodes)
    } else {
        Wrapped::Fault(0)
    }
}

/// Entry `k` of a relay frame that came good with this effect, where the sender's own entry is
/// `own`. Of the frame no other entry is looked at.
pub fn entry<V: Item<N>, const N: usize>(
    effect: &Effect,
    expect: &Expect<N>,
    k: usize,
    own: Wrapped<V>,
) -> Wrapped<V>
where
    Nodes: Capacity<N>,
    requires some_nodes { 0 < expect.now.nodes }
    requires nodes { expect.now.nodes ≤ N }
    requires rounds { expect.now.m ≤ 3 }
    requires few { k < 4096 }
    ensures { (c : Content) (xs : List (Wrapped V)) → HasOwn V.form (expected expect.now) k own c →
        arrives V.form.relay_in (Some (change_of effect.now)) (expected expect.now)
        (expected expect.now) c ≡ Good xs →
        k < length xs → result ≡ slice_index_or xs k (Fault 0) }
{
    if let Effect::Raw(bytes) = effect {
        return entry_in(bytes.as_slice(), expect.nodes, k);
    }
    patched_entry(expect.nodes, k, own, &Patch::of(effect))
}
