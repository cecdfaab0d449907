//! Items that nodes tell and relay, as they stand in frames: claims and rows.

ghost use Rattle.std.specs.Prelude.{ℕ, ◌≡◌, ◌≢◌, ◌+◌, ◌≤◌, length};
ghost use Rattle.omh_paths.specs.declared.wrapped.Wrapped.TheVariants.{Fault};
ghost use Rattle.frames.specs.Content.{Done0, Report0};
ghost use Rattle.frames.specs.Seen.{expected};
ghost use Rattle.frames.specs.Writing.{pasted};
ghost use Rattle.protocol.specs.Accepted.{IsAccepted};
ghost use Rattle.protocol.specs.Arrival.{ItemForm, claim_form, row_form};
ghost use Rattle.protocol.specs.Run.{System};
ghost use Rattle.safety.proofs.Talks.{FormFits};
ghost use Rattle.touched_items.specs.Items.{Sizes, sizes_of, sizes_in, talk_of};
ghost use Rattle.touched_items.specs.Items.{EntryForm, AreEntries, first_said};
ghost use Rattle.touched_items.specs.ItemLaws.{claim_entries, claims_made_of, IsClaimIn};
ghost use Rattle.touched_items.specs.ItemLaws.{row_entries, rows_made_of, IsRowIn};
ghost use Rattle.touched_items.specs.ItemLaws.{claim_told, claims_fit, row_told, rows_fit};

use crate::bytes::{are_masks, are_zero, read_row};
use frames::{Expect, put_done, put_row};
use node_grid::{Capacity, NO_CLAIM, Nodes, Row};
use omh_paths::{Exact, Wrapped};

/// The kind of the relay frames of claims.
const CLAIM_RELAY: u8 = 3;

/// The kind of the relay frames of rows.
const ROW_RELAY: u8 = 6;

/// An item as its sender's own frame tells it.
#[derive(Clone, Copy)]
pub enum First<const N: usize> {
    /// A claim: a task, or `NO_CLAIM`.
    Claim(u8),
    /// A row.
    Row(Row<N>),
}

/// An item that each node tells of itself in its slots of a period, and relays of the others.
pub trait Item<const N: usize>: Exact + Drop {
    /// How it is told.
    ghost form: { ItemForm Self };

    /// The slot of round 0, by the number of relay rounds.
    ghost first_slot: { ℕ → ℕ };

    /// What a node tells of itself in a run: by system, period and node.
    ghost tells: { System → ℕ → ℕ → Self };

    /// Which items are in range.
    ghost in_range: { Sizes → Self → Type 0 };

    /// How an entry of a relay frame of such items stands in its bytes.
    ghost entry_form: { EntryForm Self };

    /// The slot of round 0, where there are `m` relay rounds.
    fn slot(m: u8) -> u8
        requires { m ≤ 3 }
        ensures { result ≡ first_slot m };

    /// The kind of relay frames of such items.
    fn relay_kind() -> u8
        ensures { result ≡ entry_form.kind };

    /// The bytes of an entry of a relay frame, among so many nodes.
    fn entry_width(nodes: u8) -> usize
        ensures { result ≡ entry_form.width nodes };

    /// Writes an entry to the front of `out`, and leaves all else.
    fn put_entry(out: &mut [u8], nodes: u8, value: &Wrapped<Self>)
    where
        Nodes: Capacity<N>,
        requires nodes { nodes ≤ N }
        requires room { entry_form.width nodes ≤ length out.old }
        requires some { value.now ≢ Fault 0 }
        ensures { out.new ≡ pasted 0 (entry_form.spelling nodes value.now) out.old };

    /// The entry that so many bytes say, whether it is in range or not.
    fn read_entry(bytes: &[u8], nodes: u8) -> Wrapped<Self>
    where
        Nodes: Capacity<N>,
        requires nodes { nodes ≤ N }
        requires whole { length bytes.now ≡ entry_form.width nodes }
        ensures { result ≡ entry_form.read N nodes bytes.now };

    /// Whether so many bytes are an entry in range of a relay round, where this is expected.
    fn is_entry(expect: &Expect<N>, round: u8, bytes: &[u8]) -> bool
        requires whole { length bytes.now ≡ entry_form.width expect.now.nodes }
        ensures { result ≡ entry_form.test (sizes_of (expected expect.now)) round bytes.now };

    /// It as a first frame tells it.
    fn first(&self) -> First<N>
        ensures { first_said result ≡ form.item self.now };

    /// The item of a claim.
    fn of_claim(claim: u8) -> Option<Self>
        ensures { result ≡ form.item_in (Done0 claim) };

    /// The item of a row of these masks.
    fn of_masks(masks: &[u16]) -> Option<Self>
        requires { length masks.now ≡ N }
        ensures { result ≡ form.item_in (Report0 masks.now) };

    /// In a run what is told of items is in range.
    ghost fits: { (sys : System) → IsAccepted sys → (p : ℕ) →
        FormFits (in_range (sizes_in sys)) (talk_of form first_slot tells sys p)
        sys.setting.config.m };

    /// The first frames and the relay frames are made of such items and such entries.
    ghost made_of: { AreEntries form entry_form in_range };
}

impl<const N: usize> Item<N> for u8 {
    ghost form = { claim_form };

    ghost first_slot = { λ m. 1 };

    ghost tells = { claim_told };

    ghost in_range = { IsClaimIn };

    ghost entry_form = { claim_entries };

    fn slot(m: u8) -> u8 {
        let _ = m;
        1
    }

    fn relay_kind() -> u8 {
        CLAIM_RELAY
    }

    fn entry_width(nodes: u8) -> usize {
        let _ = nodes;
        2
    }

    fn put_entry(out: &mut [u8], nodes: u8, value: &Wrapped<u8>) {
        let _ = nodes;
        put_done(out, 0, *value);
    }

    fn read_entry(bytes: &[u8], nodes: u8) -> Wrapped<u8> {
        let _ = nodes;
        match bytes[0] {
            0 => Wrapped::Plain(bytes[1]),
            tag => Wrapped::Fault(tag),
        }
    }

    fn is_entry(expect: &Expect<N>, round: u8, bytes: &[u8]) -> bool {
        if bytes[0] == 0 {
            bytes[1] == NO_CLAIM || bytes[1] < expect.tasks
        } else {
            bytes[0] <= round && bytes[1] == 0
        }
    }

    fn first(&self) -> First<N> {
        First::Claim(*self)
    }

    fn of_claim(claim: u8) -> Option<u8> {
        Some(claim)
    }

    fn of_masks(masks: &[u16]) -> Option<u8> {
        let _ = masks;
        None
    }

    ghost fits = { claims_fit };

    ghost made_of = { claims_made_of };
}

impl<const N: usize> Item<N> for Row<N>
where
    Nodes: Capacity<N>,
{
    ghost form = { row_form };

    ghost first_slot = { λ m. m + 3 };

    ghost tells = { row_told };

    ghost in_range = { IsRowIn };

    ghost entry_form = { row_entries };

    fn slot(m: u8) -> u8 {
        m + 3
    }

    fn relay_kind() -> u8 {
        ROW_RELAY
    }

    fn entry_width(nodes: u8) -> usize {
        1 + 2 * nodes as usize
    }

    fn put_entry(out: &mut [u8], nodes: u8, value: &Wrapped<Row<N>>) {
        put_row(out, nodes, 0, *value);
    }

    fn read_entry(bytes: &[u8], nodes: u8) -> Wrapped<Row<N>> {
        match bytes[0] {
            0 => Wrapped::Plain(read_row(&bytes[1..], nodes)),
            tag => Wrapped::Fault(tag),
        }
    }

    fn is_entry(expect: &Expect<N>, round: u8, bytes: &[u8]) -> bool {
        if bytes[0] == 0 {
            are_masks(expect.version, &bytes[1..])
        } else {
            bytes[0] <= round && are_zero(&bytes[1..])
        }
    }

    fn first(&self) -> First<N> {
        First::Row(*self)
    }

    fn of_claim(claim: u8) -> Option<Row<N>> {
        let _ = claim;
        None
    }

    fn of_masks(masks: &[u16]) -> Option<Row<N>> {
        let mut row = [0; N];
        row.copy_from_slice(masks);
        Some(Row { masks: row })
    }

    ghost fits = { rows_fit };

    ghost made_of = { rows_made_of };
}
