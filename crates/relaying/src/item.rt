//! Items that are told and relayed.

ghost use Rattle.std.specs.Prelude.{◌≡◌, ◌≢◌, ℕ, ◌+◌, ◌*◌, ◌≤◌, List, length, Option, Some, None};
ghost use Rattle.omh_paths.specs.declared.wrapped.Wrapped.{Wrapped};
ghost use Rattle.omh_paths.specs.declared.wrapped.Wrapped.TheVariants.{Fault};
ghost use Rattle.frames.specs.Spelling.{claim_spelling, relayed_row_spelling};
ghost use Rattle.frames.specs.Writing.{pasted};
ghost use Rattle.frames.specs.Content.{Expectation, IsClaim, IsRow};
ghost use Rattle.frames.specs.FrameKinds.{claim_relay_kind, row_relay_kind};
ghost use Rattle.frames.specs.Seen.{content};
ghost use Rattle.frames.specs.declared.frame.Body.{Body};
ghost use Rattle.protocol.specs.Arrival.{ItemForm, claim_form, row_form};
ghost use Rattle.relay_terms.specs.Terms.{term_in};
ghost use Rattle.relaying.specs.Items.{first_in, IsRelayed};
ghost use Rattle.relaying.specs.ItemLaws.{claims_begun, rows_begun};
ghost use Rattle.relaying.specs.ItemLaws.{claims_relayed, rows_relayed};

use frames::{Body, put_done, put_row};
use node_grid::{Capacity, Nodes, Row};
use omh_paths::Wrapped;
use relay_terms::Item;

/// The kind of frames that relay claims.
const CLAIM_RELAY: u8 = 3;

/// The kind of frames that relay rows.
const ROW_RELAY: u8 = 6;

/// An item that each node tells of itself, and passes on of the others.
pub trait RelayedItem<const N: usize>: Item {
    /// How it is told.
    ghost form: { ItemForm Self };

    /// The bytes of an entry of a relay frame, among so many nodes.
    ghost width: { ℕ → ℕ };

    /// The bytes of an entry.
    ghost spelling: { ℕ → Wrapped Self → List ℕ };

    /// Which items are in range, where this is expected.
    ghost in_range: { Expectation → Self → Type 0 };

    /// The kind of relay frames of such items.
    ghost kind: { ℕ };

    /// The item of a claim, and that of a row.
    ghost claimed: { ℕ → Option Self };

    ghost reported: { List ℕ → Option Self };

    /// The kind of relay frames of such items.
    fn relay_kind() -> u8
        ensures { result ≡ kind };

    /// The bytes of an entry of a relay frame, among so many nodes.
    fn entry_width(nodes: u8) -> usize
        ensures { result ≡ width nodes };

    /// The item of a claim.
    fn of_claim(claim: u8) -> Option<Self>
        ensures { result ≡ claimed claim };

    /// The item of a row of these masks.
    fn of_masks(masks: &[u16]) -> Option<Self>
        requires { length masks.now ≡ N }
        ensures { result ≡ reported masks.now };

    /// Writes entry `k`, and leaves all else.
    fn put(out: &mut [u8], nodes: u8, k: usize, value: &Wrapped<Self>)
    where
        Nodes: Capacity<N>,
        requires nodes { nodes ≤ N }
        requires fits { width nodes * k + width nodes ≤ length out.old }
        requires some { value.now ≢ Fault 0 }
        ensures { out.new ≡ pasted (width nodes * k) (spelling nodes value.now) out.old };

    /// A frame of round 0 tells the item of its claim or its row.
    ghost begun: { (nodes : ℕ) (b : Body N) →
        first_in claimed reported b ≡ form.item_in (content nodes b) };

    /// Relay frames of that kind pass items on, in entries that are spelt and read so.
    ghost laws: { IsRelayed N kind form width spelling (term_in Self.Item.of_bytes) in_range };
}

impl<const N: usize> RelayedItem<N> for u8 {
    ghost form = { claim_form };

    ghost width = { λ nodes. 2 };

    ghost spelling = { λ nodes. claim_spelling };

    ghost in_range = { λ e. IsClaim e.tasks };

    ghost kind = { claim_relay_kind };

    ghost claimed = { Some };

    ghost reported = { λ masks. None };

    ghost begun = { claims_begun };

    ghost laws = { claims_relayed N };

    fn relay_kind() -> u8 {
        CLAIM_RELAY
    }

    fn entry_width(nodes: u8) -> usize {
        let _ = nodes;
        2
    }

    fn of_claim(claim: u8) -> Option<u8> {
        Some(claim)
    }

    fn of_masks(masks: &[u16]) -> Option<u8> {
        let _ = masks;
        None
    }

    fn put(out: &mut [u8], nodes: u8, k: usize, value: &Wrapped<u8>) {
        let _ = nodes;
        put_done(out, k, *value);
    }
}

impl<const N: usize> RelayedItem<N> for Row<N>
where
    Nodes: Capacity<N>,
{
    ghost form = { row_form };

    ghost width = { λ nodes. 1 + 2 * nodes };

    ghost spelling = { relayed_row_spelling };

    ghost in_range = { λ e. IsRow e.version N e.nodes };

    ghost kind = { row_relay_kind };

    ghost claimed = { λ claim. None };

    ghost reported = { Some };

    ghost begun = { rows_begun };

    ghost laws = { rows_relayed N };

    fn relay_kind() -> u8 {
        ROW_RELAY
    }

    fn entry_width(nodes: u8) -> usize {
        1 + 2 * nodes as usize
    }

    fn of_claim(claim: u8) -> Option<Row<N>> {
        let _ = claim;
        None
    }

    fn of_masks(masks: &[u16]) -> Option<Row<N>> {
        let mut row = [0; N];
        row.copy_from_slice(masks);
        Some(Row { masks: row })
    }

    fn put(out: &mut [u8], nodes: u8, k: usize, value: &Wrapped<Row<N>>) {
        put_row(out, nodes, k, *value);
    }
}

/// The item that a frame of round 0 tells, or None where it tells none.
pub(crate) fn item_of<V: RelayedItem<N>, const N: usize>(body: &Body<'_, N>) -> Option<V>
    ensures { (nodes : ℕ) → result ≡ V.form.item_in (content nodes body.now) }
{
    match body {
        Body::Done0(task) => V::of_claim(*task),
        Body::Report0(row) => V::of_masks(&row.masks),
        Body::State(_) | Body::DoneRelay(_) | Body::Data(_) => None,
        Body::ReportRelay(_) | Body::Cold => None,
    }
}
